// The rule of a link's queue, and what each step upon it tells. But for `Ends`, no value of these types is made.

use crossbeam_queue::protocol::{Join, Lesson, Outcome, Protocol, Split};
use rules_apart::Mail;
use std::collections::LinkedList;
use std::marker::{Brand, PhantomData};
use tcc_base::{Config, NodeId};

/// From which node to which a link goes, and in which machine.
#[derive(Clone, Copy, Debug, PartialEq, Eq)]
pub struct Ends {
    pub settings: Config,
    pub src: NodeId,
    pub dst: NodeId,
}

// What a pass of the queue may do and what it knows: all that was sent, if it may push; all that was taken, if it may pop; and a
// beginning of what was taken, of which it has heard.
pub struct Hand {
    pub ends: Ends,
    pub pushes: bool,
    pub pops: bool,
    pub sent: LinkedList<Mail>,
    pub got: LinkedList<Mail>,
    pub heard: LinkedList<Mail>,
}

// What was taken is a beginning of what was sent, and the queue holds the rest.
pub struct InOrder;

impl Protocol<Mail, Hand> for InOrder {
    ghost use Rattle.net_links.specs.Linked.{Linked, both_hands};

    ghost holds = { Linked };

    ghost first = { both_hands };
}

// The ends of a link, which the call that makes it picks.
pub trait Placed {
    ghost use Rattle.net_links.specs.declared.rule.Ends.{Ends};

    ghost ends: { Ends };
}

impl Placed for Brand {
    ghost use Rattle.net_links.specs.Linked.{nowhere};

    ghost ends = { nowhere };
}

// The first pass is cut in two: one that may push, and one that may pop.
pub struct Roles<P> {
    marker: PhantomData<P>,
}

impl<P: Placed> Split<Hand> for Roles<P> {
    ghost use Rattle.std.specs.Prelude.{[]};
    ghost use Rattle.net_links.specs.Linked.{outlet_hand, inlet_hand};

    ghost left = { λ v. outlet_hand P.ends [] };

    ghost right = { λ v. inlet_hand P.ends [] };
}

// The inlet gives a receipt for what it has taken.
pub struct Acknowledges;

impl Split<Hand> for Acknowledges {
    ghost use Rattle.net_links.specs.Linked.{receipt};

    ghost left = { λ v. v };

    ghost right = { λ v. receipt v.got };
}

// The outlet hears of what a receipt is for, and what it has heard of is a beginning of what it sent.
pub struct Hears;

impl Join<Hand> for Hears {
    ghost use Rattle.std.specs.Prelude.{[]};
    ghost use Rattle.net_links.specs.Linked.{receipt};

    ghost both = { λ v w. record v { heard = w.heard } };

    ghost spent = { receipt [] };
}

impl Lesson<Mail, Hand> for Hears {
    ghost use Rattle.net_links.specs.Linked.{StartsWith};

    ghost fact = { λ v items. StartsWith v.sent v.heard };
}

// A message was sent, behind all others.
pub struct Pushed;

impl Outcome<Mail, Hand> for Pushed {
    ghost use Rattle.std.specs.Prelude.{◌≡◌, [], ◌∷◌, ◌++◌};

    ghost then = { λ v x w. w ≡ record v { sent = v.sent ++ x ∷ [] } };
}

// The message that was sent before all others on the queue was taken. A link may carry it.
pub struct Popped;

impl Outcome<Mail, Hand> for Popped {
    ghost use Rattle.std.specs.Prelude.{◌≡◌, [], ◌∷◌, ◌++◌};
    ghost use Rattle.tcc_msg.specs.Plain.{msg_of};
    ghost use Rattle.net_links.specs.Linked.{MayCarry};

    ghost then = { λ v x w. (w ≡ record v { got = v.got ++ x ∷ [] }) × MayCarry v.ends (msg_of x.msg) };
}

impl Lesson<Mail, Hand> for Popped {
    ghost use Rattle.std.specs.Prelude.{⊤};

    ghost fact = { λ v items. ⊤ };
}
