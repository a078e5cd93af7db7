//! What each event of a run did, as a list of facts: an instruction that was finished, a miss, an eviction, a message that was taken, a
//! violation, a commit, what was sent. `happened` of specs/Happened defines it by the rules' states and commits before and after the event.
//! `Fact` is one of them in the code. `worked_facts` has no body: its contract is that the facts of worked schedules are these.
#![tactic(auto)]

mod fact;

ghost use Rattle.watch.specs.Worked.{DoomedAttemptFacts, BeforeTheFillFacts, OverADirtyOwnerFacts, AloneAfterOverflowFacts};
ghost use Rattle.watch.specs.Worked.{ChangesAndHaltsFacts};

pub use fact::{Done, Fact};

/// The facts of each event of five schedules.
pub fn worked_facts()
    ensures doomed_attempt { DoomedAttemptFacts }
    ensures before_the_fill { BeforeTheFillFacts }
    ensures over_a_dirty_owner { OverADirtyOwnerFacts }
    ensures alone_after_overflow { AloneAfterOverflowFacts }
    ensures changes_and_halts { ChangesAndHaltsFacts }
{}
