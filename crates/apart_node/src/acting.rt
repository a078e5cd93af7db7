// A node does one event.
ghost use Rattle.std.specs.Prelude.{◌≡◌, [], OnOk, OnErr};
ghost use Rattle.tcc_msg.specs.Plain.{event_of};
ghost use Rattle.apart_node.specs.Acts.{AnswersAct, Flushes, Gathers, Performs, SameNode};
ghost use Rattle.apart_node.specs.Deeds.{IsPossible, mail_in};

use crate::choosing::Deed;
use crate::node::{Act, Node};
use rules_apart::Logged;
use std::sync::Wait;
use tcc_base::NoMemory;

impl Node {
    // Puts what its last event sent onto the links.
    fn flush<R: Wait>(&mut self, rt: &R) -> Result<(), NoMemory>
        ensures flushes { Flushes self.old self.new }
        ensures emptied { OnOk result (self.new.room.unsent ≡ []) }
    {
        self.room.flush(rt, self.last)
    }

    // Puts what its last event sent onto the links, and takes what has arrived from them.
    fn refresh<R: Wait>(&mut self, rt: &R) -> Result<(), NoMemory>
        ensures gathers { Gathers self.old self.new }
        ensures emptied { OnOk result (self.new.room.unsent ≡ []) }
    {
        self.flush(rt)?;
        self.gather(rt)
    }

    fn gather<R: Wait>(&mut self, rt: &R) -> Result<(), NoMemory>
        ensures gathers { Gathers self.old self.new }
        ensures unsent { self.new.room.unsent ≡ self.old.room.unsent }
    {
        self.room.gather(rt)
    }

    // Does the event with an entry in the log.
    fn perform(&mut self, deed: &Deed) -> Result<(), NoMemory>
        requires possible { IsPossible self.old deed.now }
        requires flushed { self.old.room.unsent ≡ [] }
        ensures performs { OnOk result (Performs self.old (event_of deed.now.event) (mail_in deed.now.waiting) self.new) }
        ensures unchanged { OnErr result (Gathers self.old self.new) }
    {
        if self.log.reserve(1).is_err() {
            return Err(NoMemory);
        }
        let stamp = deed.stamp(self.last);
        let consumed = self.room.act(&mut self.member, deed.event, deed.msg())?;
        self.log.push_reserved(Logged {
            stamp,
            event: deed.event,
        });
        self.last = stamp;
        self.own = self.member.own_count();
        if consumed {
            if let Some(waiting) = &deed.waiting {
                self.room.drop_waiting(waiting);
            }
        }
        Ok(())
    }

    /// Does one event: the useful one that the number picks, by its remainder, after what has arrived was taken from the links. The entry
    /// of the log has the next stamp above the last one and above that of the message that it handles. For want of memory it does
    /// nothing, but messages may have moved between links and pools. Takes time in the number of waiting messages and in that of its
    /// member's event. May wait for a moment where a peer is at work on a link.
    pub fn act<R: Wait>(&mut self, rt: &R, pick: u32) -> Act
        ensures acted { AnswersAct self.old pick self.new result }
        ensures same { SameNode self.old self.new }
    {
        if self.refresh(rt).is_err() {
            return Act::Memory;
        }
        let Some(deed) = self.choose(pick) else {
            return Act::Idle;
        };
        if self.perform(&deed).is_err() {
            return Act::Memory;
        }
        let _ = self.flush(rt);
        Act::Moved
    }
}
