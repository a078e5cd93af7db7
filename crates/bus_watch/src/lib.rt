//! Takes an event on the machine with one bus and tells what it did, as a list of facts: an instruction that was finished, a word that
//! came from memory, an eviction, a packet that was taken, a violation, a commit, who has the bus, what was sent. `bus_happened` of
//! specs/Happened defines them by the rules' states and commits before and after the event. `worked_bus_facts` has no body: its contract
//! is that the facts of worked schedules are these.
#![tactic(auto)]

mod behind;
mod evicting;
mod executing;
mod fact;
mod taking;
mod watching;

ghost use Rattle.bus_watch.specs.Laws.{ViolationsAreRollBacks};
ghost use Rattle.bus_watch.specs.Worked.{AloneFacts, ReaderFacts};

pub use fact::{BusFact, Holder};
pub use watching::watch_bus;

/// The facts of each event of two schedules.
pub fn worked_bus_facts()
    ensures anew { ReaderFacts }
    ensures alone { AloneFacts }
{}

/// A law: a core that takes a packet is told to be violated exactly where the rules have its attempt begin anew.
pub fn violations_are_roll_backs()
    ensures { ViolationsAreRollBacks }
{}
