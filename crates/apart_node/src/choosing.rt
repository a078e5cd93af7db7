// What a node can do now, and the choice among it.
ghost use Rattle.std.specs.Prelude.{◌≡◌, ◌⊎◌, ◌<◌, ◌≤◌, ◌^◌, [], length, slice_get, None, Some, IsSomeAnd, MatchOption};
ghost use Rattle.std.specs.Option.{option_map};
ghost use Rattle.rules_maps.specs.Bridge.{node_of};
ghost use Rattle.rules_maps.specs.Nodes.{Deliver};
ghost use Rattle.tcc_msg.specs.Plain.{event_of, msg_of};
ghost use Rattle.apart_member.specs.Own.{own_events};
ghost use Rattle.apart_node.specs.Choice.{useful, stamp_after};
ghost use Rattle.apart_node.specs.Deeds.{IsChoice, IsPossible, mail_in};
ghost use Rattle.apart_node.specs.Node.{last_stamp};
ghost use Rattle.tcc_base.specs.Limits.{run_limit};

use crate::drawing::Draw;
use crate::node::Node;
use crate::room::Waiting;
use tcc_base::NodeId;
use tcc_msg::{Event, Msg, Name};

/// As many entries a log has at most.
const LOG_END: usize = 4_194_304;

/// No event has a later stamp.
const LAST_STAMP: u64 = 0x4000_0000_0000_0000;

/// An event, with the waiting message that it handles.
#[derive(Clone, Copy, Debug)]
pub(crate) struct Deed {
    pub event: Event,
    pub waiting: Option<Waiting>,
}

impl Deed {
    /// The message that it handles.
    pub(crate) fn msg(&self) -> Option<Msg>
        ensures { option_map msg_of result ≡ option_map (λ m. m.msg) (mail_in self.now.waiting) }
    {
        match &self.waiting {
            Some(waiting) => Some(waiting.letter.mail.msg),
            None => None,
        }
    }

    /// Its stamp, after an entry of this one.
    pub(crate) fn stamp(&self, last: u64) -> u64
        requires { stamp_after last (mail_in self.now.waiting) ≤ 2 ^ 62 }
        ensures { result ≡ stamp_after last (mail_in self.now.waiting) }
    {
        match &self.waiting {
            Some(waiting) => last.max(waiting.letter.mail.stamp) + 1,
            None => last + 1,
        }
    }
}

// The delivery of a waiting message at this node.
fn delivery(own: NodeId, waiting: Waiting) -> Deed
    ensures waiting { result.waiting ≡ Some waiting }
    ensures event { event_of result.event ≡ Deliver (node_of waiting.src) (node_of own) waiting.letter.number }
{
    let event = Event::Deliver(Name {
        src: waiting.src,
        dst: own,
        seq: waiting.letter.number,
    });
    Deed {
        event,
        waiting: Some(waiting),
    }
}

impl Node {
    // The event of its own of this number.
    fn own_deed(&self, k: usize) -> Option<Deed>
        requires few { length self.now.log < run_limit }
        requires early { last_stamp self.now.log < 2 ^ 62 }
        requires one { k < length (own_events self.now.member) }
        ensures { IsSomeAnd result (λ d. (d.waiting ≡ None) × (Some (event_of d.event) ≡ slice_get (own_events self.now.member) k)
            × IsPossible self.now d) }
    {
        let event = self.member.own_at(k)?;
        Some(Deed {
            event,
            waiting: None,
        })
    }

    /// The useful event that the number picks: the one of its remainder by how many there are. None where there is none, and where the log
    /// is full.
    pub(crate) fn choose(&mut self, pick: u32) -> Option<Deed>
        ensures chosen { MatchOption result ((useful self.old ≡ []) ⊎ (length self.old.log ≡ run_limit)) (IsChoice self.old pick) }
        ensures same { self.new ≡ self.old }
    {
        if self.log.len() >= LOG_END {
            return None;
        }
        if self.last >= LAST_STAMP {
            return None;
        }
        let node = self.member.node();
        match self.room.draw(&self.member, self.last, self.own, pick) {
            Draw::Nothing => None,
            Draw::Own(k) => self.own_deed(k),
            Draw::Letter(waiting) => Some(delivery(node, waiting)),
        }
    }
}
