// How far a core has come with its transaction.
ghost use Rattle.std.specs.Prelude.{◌≡◌};
ghost use Rattle.rules_tcc.specs.Attempt.{is_running, is_solo};
ghost use Rattle.rules_tcc.specs.CoreDeliver.{may_be_above};
ghost use Rattle.commit_engine.specs.Engine.{overflows, phase_of};

use tcc_base::Tid;

/// How far a core has come with its transaction.
#[derive(Clone, Copy, Debug, PartialEq, Eq)]
pub enum Phase {
    /// It executes.
    Running,
    /// The transaction has ended; a TID was asked for.
    AwaitTid,
    /// It was violated since, and gives up the TID that comes.
    DoomedTid,
    /// It asks the directories that it wrote or read to serve its TID.
    Probing(Tid),
    /// All of them do: it may commit.
    Ready(Tid),
    /// It needs room, and asks to commit before all others; with its TID once that has come.
    Overflowing(Option<Tid>),
    /// It is alone: all directories serve its TID until it ends.
    Solo(Tid),
    /// A committed transaction halted it.
    Halted,
}

impl Phase {
    /// Whether the core executes, and isn't alone.
    pub fn is_running(self) -> bool
        ensures { result ≡ is_running (phase_of self) }
    {
        match self {
            Phase::Running => true,
            Phase::AwaitTid => false,
            Phase::DoomedTid => false,
            Phase::Probing(_) => false,
            Phase::Ready(_) => false,
            Phase::Overflowing(None) => false,
            Phase::Overflowing(Some(_)) => false,
            Phase::Solo(_) => false,
            Phase::Halted => false,
        }
    }

    /// Whether the core is alone.
    pub fn is_alone(self) -> bool
        ensures { result ≡ is_solo (phase_of self) }
    {
        match self {
            Phase::Solo(_) => true,
            Phase::Running => false,
            Phase::AwaitTid => false,
            Phase::DoomedTid => false,
            Phase::Probing(_) => false,
            Phase::Ready(_) => false,
            Phase::Overflowing(None) => false,
            Phase::Overflowing(Some(_)) => false,
            Phase::Halted => false,
        }
    }

    /// Whether the core waits to be alone, for a TID or for its directories.
    pub fn is_overflowing(self) -> bool
        ensures { result ≡ overflows (phase_of self) }
    {
        match self {
            Phase::Overflowing(None) => true,
            Phase::Overflowing(Some(_)) => true,
            Phase::Running => false,
            Phase::AwaitTid => false,
            Phase::DoomedTid => false,
            Phase::Probing(_) => false,
            Phase::Ready(_) => false,
            Phase::Solo(_) => false,
            Phase::Halted => false,
        }
    }

    /// Whether the core's TID isn't known, or is above this one.
    pub fn may_be_above(self, tid: Tid) -> bool
        ensures { result ≡ may_be_above tid.0 (phase_of self) }
    {
        match self {
            Phase::Running => true,
            Phase::AwaitTid => true,
            Phase::DoomedTid => true,
            Phase::Probing(own) => tid.0 < own.0,
            Phase::Ready(own) => tid.0 < own.0,
            Phase::Overflowing(None) => true,
            Phase::Overflowing(Some(own)) => tid.0 < own.0,
            Phase::Solo(own) => tid.0 < own.0,
            Phase::Halted => true,
        }
    }
}
