// The end of a link at its destination.
ghost use Rattle.std.specs.Prelude.{◌≡◌, true, [], ◌∷◌, ◌++◌, IfSome, IfNone};
ghost use Rattle.std.specs.Arc.{arc_value};
ghost use Rattle.crossbeam_queue.specs.SegTies.{IsSegPassOf};
ghost use Rattle.tcc_msg.specs.Plain.{msg_of};
ghost use Rattle.net_links.specs.Linked.{MayCarry, receipt};

use crate::rule::{Acknowledges, Popped};
use crate::wire::{Pass, Wire};
use rules_apart::Mail;
use std::alloc::Global;
use std::marker::Model;
use std::sync::{Arc, Wait};

/// The end of a link at its destination. Contracts see which link it is, its ends, and all that was taken from it.
#[derive(Drop)]
pub struct Inlet {
    wire: Arc<Wire, Global>,
    pass: Pass,
}

impl Model for Inlet {
    ghost use Rattle.std.specs.Prelude.{◌≡◌, true};
    ghost use Rattle.std.specs.Arc.{arc_value};
    ghost use Rattle.crossbeam_queue.specs.SegTies.{IsSegPassOf};
    ghost use Rattle.net_links.specs.Views.{InletData};

    ghost Value = { InletData };

    ghost view = { λ i. record { link = (arc_value i.wire).queue; ends = i.pass.me.view.client.ends; got = i.pass.me.view.client.got } };

    ghost invariant = { λ i. IsSegPassOf (arc_value i.wire).queue i.pass × (i.pass.me.view.client.pops ≡ true) };
}

impl Inlet {
    pub(crate) fn new(wire: Arc<Wire, Global>, pass: Pass) -> Inlet
        requires pass { IsSegPassOf (arc_value wire).queue pass }
        requires pops { pass.me.view.client.pops ≡ true }
        ensures { result ≡ record { link = (arc_value wire).queue; ends = pass.me.view.client.ends; got = pass.me.view.client.got } }
    {
        Inlet { wire, pass }
    }

    // A receipt for all that was taken.
    pub(crate) fn receipt(&mut self) -> Pass
        ensures unchanged { self.new ≡ self.old }
        ensures pass { IsSegPassOf self.old.link result }
        ensures told { result.me.view.client ≡ receipt self.old.got }
    {
        self.wire.queue.another::<Acknowledges>(&mut self.pass)
    }

    /// Takes the first of the messages that are on the link; None only if there was none at one moment of the call. Takes no memory. Waits
    /// where that message is being sent just then.
    pub fn pop<R: Wait>(&mut self, rt: &R) -> Option<Mail>
        ensures taken { IfSome result (λ m. self.new ≡ record self.old { got = self.old.got ++ m ∷ [] }) }
        ensures carried { IfSome result (λ m. MayCarry self.old.ends (msg_of m.msg)) }
        ensures none { IfNone result (self.new ≡ self.old) }
    {
        self.wire.queue.pop_as::<Popped, R>(rt, &mut self.pass)
    }
}
