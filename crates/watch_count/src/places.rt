// What is counted of a line, and of a conflict.
ghost use Rattle.std.specs.Prelude.{◌≡◌, ◌≤◌, ◌^◌, Some, None};
ghost use Rattle.watch.specs.Plain.{fact_of};
ghost use Rattle.watch_count.specs.Places.{line_of as plain_line_of, line_after, nothing_there};
ghost use Rattle.watch_count.specs.Places.{conflict_of as plain_conflict_of, conflict_after, no_conflict};
ghost use Rattle.watch_count.specs.Sizes.{line_size, conflict_size};

use tcc_msg::Msg;
use watch::Fact;

/// What happened at a line: the misses of all cores, the invalidations that were taken, the violations by it and the instructions that
/// they lost.
#[derive(Clone, Copy, Debug, PartialEq, Eq)]
pub struct LineCounts {
    pub misses: u64,
    pub invalidations: u64,
    pub violations: u64,
    pub lost: u64,
}

/// Who committed, who was violated, and by which line. Ordered in this order.
#[derive(Clone, Copy, Debug, PartialEq, Eq, PartialOrd, Ord)]
pub struct Conflict {
    pub by: u8,
    pub victim: u8,
    pub line: u32,
}

/// How many violations, and how many instructions they lost.
#[derive(Clone, Copy, Debug, PartialEq, Eq)]
pub struct ConflictCounts {
    pub violations: u64,
    pub lost: u64,
}

/// The line that a fact counts for.
pub(crate) fn line_of(fact: &Fact) -> Option<u32>
    ensures { result ≡ plain_line_of (fact_of fact.now) }
{
    match fact {
        Fact::Missed { line, .. } => Some(line.0),
        Fact::Took(Msg::Inv { line, .. }) => Some(line.0),
        Fact::Violated { line, .. } => Some(line.0),
        _ => None,
    }
}

/// The conflict that a fact tells.
pub(crate) fn conflict_of(fact: &Fact) -> Option<Conflict>
    ensures { result ≡ plain_conflict_of (fact_of fact.now) }
{
    match fact {
        Fact::Violated { core, by, line, .. } => Some(Conflict {
            by: by.0,
            victim: core.0,
            line: line.0,
        }),
        _ => None,
    }
}

impl LineCounts {
    /// No fact of the line so far.
    pub(crate) fn nothing() -> LineCounts
        ensures { result ≡ nothing_there }
    {
        LineCounts {
            misses: 0,
            invalidations: 0,
            violations: 0,
            lost: 0,
        }
    }

    /// A fact of this line. No number overflows.
    #[tactic(auto, unfolding(crate::specs::Places::line_after, crate::specs::Sizes::line_size))]
    pub(crate) fn count(&mut self, fact: &Fact)
        requires { line_size self.old ≤ 2 ^ 62 }
        ensures { self.new ≡ line_after (fact_of fact.now) self.old }
    {
        match fact {
            Fact::Missed { .. } => self.misses += 1,
            Fact::Took(Msg::Inv { .. }) => self.invalidations += 1,
            Fact::Violated { lost, .. } => {
                self.violations += 1;
                self.lost += *lost as u64;
            }
            _ => {}
        }
    }
}

impl ConflictCounts {
    /// No violation so far.
    pub(crate) fn nothing() -> ConflictCounts
        ensures { result ≡ no_conflict }
    {
        ConflictCounts {
            violations: 0,
            lost: 0,
        }
    }

    /// A fact of this conflict. No number overflows.
    #[tactic(auto, unfolding(crate::specs::Places::conflict_after, crate::specs::Sizes::conflict_size))]
    pub(crate) fn count(&mut self, fact: &Fact)
        requires { conflict_size self.old ≤ 2 ^ 62 }
        ensures { self.new ≡ conflict_after (fact_of fact.now) self.old }
    {
        if let Fact::Violated { lost, .. } = fact {
            self.violations += 1;
            self.lost += *lost as u64;
        }
    }
}
