// A record of a node as data: what one part of it is now.
use commit_engine::{DirSet, Phase};
use dir_lines::CoreSet;
use rv_exec::Outcome;
use spec_cache::FrameView;
use tcc_base::{CoreId, DirId, LineAddr, Mask, Tid};

/// What the home of a line knows of it.
#[derive(Clone, Copy, Debug, PartialEq, Eq)]
pub struct Known {
    pub home: DirId,
    pub owner: Option<CoreId>,
    pub tag: Tid,
    pub asked: bool,
    pub mark: Mask,
    pub sharers: CoreSet,
}

/// A record of a core, of a directory or of the vendor. Two that say the same are equal: sets have no numbers of nodes that there aren't,
/// and a frame has 0 as the tag where no word is dirty and 0 as each word that isn't valid.
#[derive(Clone, Copy, Debug, PartialEq, Eq)]
pub enum Record {
    /// A core: the instructions of its attempt, its pc and its phase.
    CoreIs {
        core: CoreId,
        n: u32,
        pc: u32,
        phase: Phase,
    },
    /// The address that the core has reserved.
    Reserved {
        core: CoreId,
        addr: u32,
    },
    /// How the core's attempt has ended, or the core itself.
    EndedBy {
        core: CoreId,
        outcome: Outcome,
    },
    /// The line that the core asked for; stale where it was invalidated since.
    AwaitsLine {
        core: CoreId,
        line: LineAddr,
        stale: bool,
    },
    /// The directories that owe the core a reply, at least one.
    OwedBy {
        core: CoreId,
        dirs: DirSet,
    },
    /// The core's last commit at this directory.
    CommittedAt {
        core: CoreId,
        dir: DirId,
        tid: Tid,
    },
    /// A register of the attempt that isn't 0.
    Register {
        core: CoreId,
        number: u8,
        value: u32,
    },
    /// The checkpoint's pc.
    SavedPc {
        core: CoreId,
        pc: u32,
    },
    /// A register of the checkpoint that isn't 0.
    SavedRegister {
        core: CoreId,
        number: u8,
        value: u32,
    },
    /// The line that a way of the core's cache holds.
    Holds {
        core: CoreId,
        set: u16,
        way: u8,
        frame: FrameView,
    },
    /// A word that the core has spilled.
    Spilled {
        core: CoreId,
        addr: u32,
        value: u32,
    },
    /// A directory: the TID that it serves, and how many acknowledgements are owed to it.
    DirectoryIs {
        dir: DirId,
        serving: Tid,
        owed: u64,
    },
    /// A TID above the served one that was skipped at this directory.
    Skipped {
        dir: DirId,
        tid: Tid,
    },
    /// A line of which something is known.
    LineIs {
        line: LineAddr,
        known: Known,
    },
    /// A home word that isn't as it was loaded.
    HomeWord {
        addr: u32,
        value: u32,
    },
    /// The TID that the vendor gives next.
    VendorIs {
        next: Tid,
    },
}
