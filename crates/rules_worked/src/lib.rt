//! Worked schedules of the protocol's rules and of runs by phases, beside those of rules_tcc and rules_phases: each tells a rule from one
//! that is nearly the same. The functions here have no body: the contract of each is that its schedules end as they must, computed by the
//! definitions.
#![tactic(auto)]

ghost use Rattle.rules_worked.specs.Alone.{AloneAre};
ghost use Rattle.rules_worked.specs.Caches.{CachesAre};
ghost use Rattle.rules_worked.specs.Held.{HeldAre};
ghost use Rattle.rules_worked.specs.Homes.{HomesAre};
ghost use Rattle.rules_worked.specs.Inside.{InsideAre};
ghost use Rattle.rules_worked.specs.Violations.{ViolationsAre};
ghost use Rattle.rules_worked.specs.Whole.{WholeAre};

/// Directories: turns, marks, and words that come home early, late or on their way.
pub fn homes()
    ensures schedules { HomesAre }
{}

/// Frames: fills, room and evictions.
pub fn caches()
    ensures schedules { CachesAre }
{}

/// Read marks, who is violated by a commit and who isn't, and what that leaves.
pub fn violations()
    ensures schedules { ViolationsAre }
{}

/// A core that goes on alone, and its spilled words.
pub fn alone()
    ensures schedules { AloneAre }
{}

/// Three cores up to the end of all.
pub fn whole()
    ensures schedules { WholeAre }
{}

/// States and messages from inside: reservations, who owes a core a reply, and what a reply says.
pub fn inside()
    ensures schedules { InsideAre }
{}

/// Phases: a request is held back for each core in an earlier one.
pub fn held()
    ensures schedules { HeldAre }
{}
