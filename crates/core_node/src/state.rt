// The state of a core.
use commit_engine::{DirSet, Phase};
use overflow_buf::OverflowBuf;
use reg_checkpoint::{Check, State};
use rv_exec::Outcome;
use spec_cache::SpecCache;
use tcc_base::{Config, CoreId, LineAddr, List, Load, Stored, Tid};

/// The line that a core asked for; stale where it was invalidated since.
#[derive(Clone, Copy, Debug, PartialEq, Eq)]
pub struct Awaited {
    pub line: LineAddr,
    pub stale: bool,
}

/// All that a core holds.
#[derive(Debug, Drop)]
pub struct Core {
    pub config: Config,
    pub id: CoreId,
    /// Registers, pc and reservation.
    pub state: State,
    /// The same as the last commit left them.
    pub check: Check,
    /// The attempt: its instructions, loads, stores and console bytes so far.
    pub n: u32,
    pub loads: List<Load>,
    pub stores: List<Stored>,
    pub console: List<u8>,
    /// How the attempt ended, and how a halted core did.
    pub ended: Outcome,
    pub phase: Phase,
    /// The directories that owe a reply.
    pub owing: DirSet,
    /// For each directory the TID of the core's last commit there, or 0.
    pub after: [Tid; 64],
    pub cache: SpecCache,
    pub spilled: OverflowBuf,
    pub awaited: Option<Awaited>,
}
