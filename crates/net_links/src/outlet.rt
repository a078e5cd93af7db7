// The end of a link at its source.
ghost use Rattle.std.specs.Prelude.{◌≡◌, true, [], ◌∷◌, ◌++◌, OnOk, OnErr};
ghost use Rattle.std.specs.Arc.{arc_value};
ghost use Rattle.crossbeam_queue.specs.SegTies.{IsSegPassOf};
ghost use Rattle.tcc_msg.specs.Plain.{msg_of};
ghost use Rattle.net_links.specs.Linked.{MayCarry, StartsWith};

use crate::inlet::Inlet;
use crate::rule::{Hears, Pushed};
use crate::wire::{Pass, Wire};
use rules_apart::Mail;
use std::alloc::Global;
use std::marker::Model;
use std::sync::{Arc, Wait};
use tcc_base::NoMemory;

/// The end of a link at its source. Contracts see which link it is, its ends, and all that was sent on it.
#[derive(Drop)]
pub struct Outlet {
    wire: Arc<Wire, Global>,
    pass: Pass,
}

impl Model for Outlet {
    ghost use Rattle.std.specs.Prelude.{◌≡◌, true};
    ghost use Rattle.std.specs.Arc.{arc_value};
    ghost use Rattle.crossbeam_queue.specs.SegTies.{IsSegPassOf};
    ghost use Rattle.net_links.specs.Views.{OutletData};

    ghost Value = { OutletData };

    ghost view = { λ o. record { link = (arc_value o.wire).queue; ends = o.pass.me.view.client.ends; sent = o.pass.me.view.client.sent } };

    ghost invariant = { λ o. IsSegPassOf (arc_value o.wire).queue o.pass × (o.pass.me.view.client.pushes ≡ true) };
}

impl Outlet {
    pub(crate) fn new(wire: Arc<Wire, Global>, pass: Pass) -> Outlet
        requires pass { IsSegPassOf (arc_value wire).queue pass }
        requires pushes { pass.me.view.client.pushes ≡ true }
        ensures { result ≡ record { link = (arc_value wire).queue; ends = pass.me.view.client.ends; sent = pass.me.view.client.sent } }
    {
        Outlet { wire, pass }
    }

    /// Sends a message, behind all that was sent. Takes memory for one block every 31 messages; when it runs out, or after
    /// nearly 2^62 messages, the answer is `NoMemory` and nothing is changed. It doesn't wait for the inlet.
    pub fn push<R: Wait>(&mut self, rt: &R, mail: Mail) -> Result<(), NoMemory>
        requires carried { MayCarry self.old.ends (msg_of mail.msg) }
        ensures sent { OnOk result (self.new ≡ record self.old { sent = self.old.sent ++ mail ∷ [] }) }
        ensures unchanged { OnErr result (self.new ≡ self.old) }
    {
        match self
            .wire
            .queue
            .push_as::<Pushed, R>(rt, &mut self.pass, mail)
        {
            Ok(()) => Ok(()),
            Err(_) => Err(NoMemory),
        }
    }

    /// Learns that what the inlet has taken is a beginning of what was sent. Both stay as they are. Takes no memory, and may be repeated.
    pub fn hear<R: Wait>(&mut self, rt: &R, inlet: &mut Inlet)
        requires one { inlet.old.link ≡ self.old.link }
        ensures begins { StartsWith self.old.sent inlet.old.got }
        ensures outlet { self.new ≡ self.old }
        ensures inlet { inlet.new ≡ inlet.old }
    {
        let receipt = inlet.receipt();
        self.wire.queue.absorb::<Hears>(&mut self.pass, receipt);
        self.wire.queue.len_as::<Hears, R>(rt, &mut self.pass);
    }
}
