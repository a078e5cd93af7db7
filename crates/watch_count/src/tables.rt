// What is counted of one core, table by table, and what one fact adds.
ghost use Rattle.std.specs.Prelude.{◌≡◌, ◌+◌, ◌≤◌, ◌^◌};
ghost use Rattle.commit_engine.specs.Engine.{phase_of};
ghost use Rattle.watch.specs.Plain.{fact_of, done_of};
ghost use Rattle.watch_count.specs.Tables.{name_of, nothing, attempts_after, instructions_after, accesses_after, done_counted};
ghost use Rattle.watch_count.specs.Tables.{evictions_after, phase_after, core_after};
ghost use Rattle.watch_count.specs.KeptCores.{stayed};
ghost use Rattle.watch_count.specs.Sizes.{attempts_size, instructions_size, accesses_size, evictions_size, phases_size, core_size, weight};

use commit_engine::Phase;
use tcc_msg::Msg;
use watch::{Done, Fact};

/// A core's phase, without its TID.
#[derive(Clone, Copy, Debug, PartialEq, Eq)]
pub enum PhaseName {
    Running,
    AwaitTid,
    DoomedTid,
    Probing,
    Ready,
    Overflowing,
    Solo,
    Halted,
}

/// Attempts of a core. `still_open` is 1 where one has begun that hasn't ended; `unbroken` are the violations since the last commit, and
/// `row` the most that there ever were.
#[derive(Clone, Copy, Debug, PartialEq, Eq)]
pub struct Attempts {
    pub begun: u64,
    pub committed: u64,
    pub violated: u64,
    pub still_open: u64,
    pub unbroken: u64,
    pub row: u64,
    pub gave_up: u64,
}

/// Instructions that a core finished. `still_open` are those of the attempt that hasn't ended.
#[derive(Clone, Copy, Debug, PartialEq, Eq)]
pub struct Instructions {
    pub executed: u64,
    pub committed: u64,
    pub lost: u64,
    pub still_open: u64,
}

/// What a core's instructions did with RAM.
#[derive(Clone, Copy, Debug, PartialEq, Eq)]
pub struct Accesses {
    pub loads: u64,
    pub stores: u64,
    pub changes: u64,
    pub misses: u64,
    pub fills: u64,
    pub overflows: u64,
}

/// Ways that a core emptied: of lines without dirty and modified words, with dirty ones, with modified ones.
#[derive(Clone, Copy, Debug, PartialEq, Eq)]
pub struct Evictions {
    pub clean: u64,
    pub dirty: u64,
    pub modified: u64,
}

/// Events of the whole machine that came while a core was in each phase.
#[derive(Clone, Copy, Debug, PartialEq, Eq)]
pub struct Phases {
    pub running: u64,
    pub await_tid: u64,
    pub doomed_tid: u64,
    pub probing: u64,
    pub ready: u64,
    pub overflowing: u64,
    pub solo: u64,
    pub halted: u64,
}

/// All that is counted of one core, and the phase that it is in.
#[derive(Clone, Copy, Debug, PartialEq, Eq)]
pub struct CoreCounts {
    pub attempts: Attempts,
    pub instructions: Instructions,
    pub accesses: Accesses,
    pub evictions: Evictions,
    pub phases: Phases,
    pub phase: PhaseName,
}

/// A phase without its TID.
pub fn phase_name(phase: Phase) -> PhaseName
    ensures { result ≡ name_of (phase_of phase) }
{
    match phase {
        Phase::Running => PhaseName::Running,
        Phase::AwaitTid => PhaseName::AwaitTid,
        Phase::DoomedTid => PhaseName::DoomedTid,
        Phase::Probing(_) => PhaseName::Probing,
        Phase::Ready(_) => PhaseName::Ready,
        Phase::Overflowing(_) => PhaseName::Overflowing,
        Phase::Solo(_) => PhaseName::Solo,
        Phase::Halted => PhaseName::Halted,
    }
}

impl Attempts {
    #[tactic(auto, unfolding(crate::specs::Tables::attempts_after, crate::specs::Sizes::attempts_size))]
    fn count(&mut self, fact: &Fact)
        requires { attempts_size self.old ≤ 2 ^ 62 }
        ensures { self.new ≡ attempts_after (fact_of fact.now) self.old }
    {
        match fact {
            Fact::Did { .. } => {
                if self.still_open == 0 {
                    self.begun += 1;
                }
                self.still_open = 1;
            }
            Fact::Committed { .. } => {
                self.committed += 1;
                self.still_open = 0;
                self.unbroken = 0;
            }
            Fact::Violated { .. } => {
                self.violated += 1;
                self.still_open = 0;
                self.unbroken += 1;
                if self.row < self.unbroken {
                    self.row = self.unbroken;
                }
            }
            Fact::GaveUp { .. } => self.gave_up += 1,
            _ => {}
        }
    }
}

impl Instructions {
    #[tactic(auto, unfolding(crate::specs::Tables::instructions_after, crate::specs::Sizes::instructions_size))]
    fn count(&mut self, fact: &Fact)
        requires { instructions_size self.old ≤ 2 ^ 62 }
        ensures { self.new ≡ instructions_after (fact_of fact.now) self.old }
    {
        match fact {
            Fact::Did { .. } => {
                self.executed += 1;
                self.still_open += 1;
            }
            Fact::Committed { n, .. } => {
                self.committed += *n as u64;
                self.still_open = 0;
            }
            Fact::Violated { lost, .. } => {
                self.lost += *lost as u64;
                self.still_open = 0;
            }
            _ => {}
        }
    }
}

impl Accesses {
    #[tactic(auto, unfolding(crate::specs::Tables::done_counted, crate::specs::Sizes::accesses_size))]
    fn count_done(&mut self, done: Done)
        requires { accesses_size self.old ≤ 2 ^ 62 }
        ensures { self.new ≡ done_counted (done_of done) self.old }
    {
        match done {
            Done::Loaded { .. } => self.loads += 1,
            Done::Stored { .. } => self.stores += 1,
            Done::Changed { .. } => self.changes += 1,
            _ => {}
        }
    }

    #[tactic(auto, unfolding(crate::specs::Tables::accesses_after, crate::specs::Sizes::accesses_size))]
    fn count(&mut self, fact: &Fact)
        requires { accesses_size self.old ≤ 2 ^ 62 }
        ensures { self.new ≡ accesses_after (fact_of fact.now) self.old }
    {
        match fact {
            Fact::Did { done, .. } => self.count_done(*done),
            Fact::Missed { .. } => self.misses += 1,
            Fact::Overflowed { .. } => self.overflows += 1,
            Fact::Took(Msg::Fill { .. }) => self.fills += 1,
            _ => {}
        }
    }
}

impl Evictions {
    #[tactic(auto, unfolding(crate::specs::Tables::evictions_after, crate::specs::Sizes::evictions_size))]
    fn count(&mut self, fact: &Fact)
        requires { evictions_size self.old ≤ 2 ^ 62 }
        ensures { self.new ≡ evictions_after (fact_of fact.now) self.old }
    {
        if let Fact::Evicted {
            dirty,
            modified,
            ..
        } = fact
        {
            if dirty.0 == 0 && modified.0 == 0 {
                self.clean += 1;
            }
            if dirty.0 != 0 {
                self.dirty += 1;
            }
            if modified.0 != 0 {
                self.modified += 1;
            }
        }
    }
}

impl Phases {
    /// So many more events came in this phase. No number overflows.
    #[tactic(auto, unfolding(crate::specs::KeptCores::stayed, crate::specs::Sizes::phases_size))]
    pub(crate) fn stay(&mut self, events: u64, phase: PhaseName)
        requires { phases_size self.old + events ≤ 2 ^ 63 }
        ensures { self.new ≡ stayed events phase self.old }
    {
        match phase {
            PhaseName::Running => self.running += events,
            PhaseName::AwaitTid => self.await_tid += events,
            PhaseName::DoomedTid => self.doomed_tid += events,
            PhaseName::Probing => self.probing += events,
            PhaseName::Ready => self.ready += events,
            PhaseName::Overflowing => self.overflowing += events,
            PhaseName::Solo => self.solo += events,
            PhaseName::Halted => self.halted += events,
        }
    }
}

impl CoreCounts {
    /// No fact of the core so far.
    pub fn nothing() -> CoreCounts
        ensures { result ≡ nothing }
    {
        CoreCounts {
            attempts: Attempts {
                begun: 0,
                committed: 0,
                violated: 0,
                still_open: 0,
                unbroken: 0,
                row: 0,
                gave_up: 0,
            },
            instructions: Instructions {
                executed: 0,
                committed: 0,
                lost: 0,
                still_open: 0,
            },
            accesses: Accesses {
                loads: 0,
                stores: 0,
                changes: 0,
                misses: 0,
                fills: 0,
                overflows: 0,
            },
            evictions: Evictions {
                clean: 0,
                dirty: 0,
                modified: 0,
            },
            phases: Phases {
                running: 0,
                await_tid: 0,
                doomed_tid: 0,
                probing: 0,
                ready: 0,
                overflowing: 0,
                solo: 0,
                halted: 0,
            },
            phase: PhaseName::Running,
        }
    }

    /// A fact of this core. No number overflows.
    #[tactic(auto, unfolding(crate::specs::Tables::core_after))]
    pub fn count(&mut self, fact: &Fact)
        requires { core_size self.old ≤ 2 ^ 62 }
        ensures { self.new ≡ core_after (fact_of fact.now) self.old }
    {
        self.attempts.count(fact);
        self.instructions.count(fact);
        self.accesses.count(fact);
        self.evictions.count(fact);
        if let Fact::CameTo(_, phase) = fact {
            self.phase = phase_name(*phase);
        }
    }
}
