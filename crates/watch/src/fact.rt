// What an event did, one fact each.
use commit_engine::Phase;
use tcc_base::{CoreId, DirId, LineAddr, Mask, NodeId, Size, Tid};
use tcc_msg::Msg;

/// What an instruction did that was finished.
#[derive(Clone, Copy, Debug, PartialEq, Eq)]
pub enum Done {
    /// No access to RAM: also a branch, a fence, or an SC.W that finds no reservation.
    Plainly,
    /// The bytes that were read, zeros above.
    Loaded { addr: u32, size: Size, value: u32 },
    /// The bytes that were written, zeros above.
    Stored { addr: u32, size: Size, value: u32 },
    /// An atomic memory operation: the word before and after it.
    Changed { addr: u32, old: u32, new: u32 },
    /// A byte for the console.
    Printed(u8),
    /// The transaction's end.
    Ended,
    /// The core's end, with this code.
    Halted(u32),
    /// The core's end by a trap, with this cause.
    Trapped(u8),
}

/// What an event did. A mask says which words of a line are meant.
#[derive(Clone, Copy, Debug, PartialEq, Eq)]
pub enum Fact {
    /// An instruction was finished; `pc` is that of the instruction.
    Did {
        core: CoreId,
        pc: u32,
        done: Done,
    },
    /// The instruction's word isn't there: its line was asked for, and the instruction isn't finished.
    Missed {
        core: CoreId,
        pc: u32,
        addr: u32,
        line: LineAddr,
    },
    /// No way is left for the line: the core asked to go alone, and the instruction isn't finished.
    Overflowed {
        core: CoreId,
        pc: u32,
        addr: u32,
        line: LineAddr,
    },
    /// The way was emptied that held the line: its dirty words went home, its modified words to the overflow buffer.
    Evicted {
        core: CoreId,
        line: LineAddr,
        dirty: Mask,
        modified: Mask,
    },
    /// The message that was delivered was of use.
    Took(Msg),
    /// It was consumed without effect.
    Dropped(Msg),
    /// Its line's owner was asked for the line, and it stays in flight.
    AskedOwner(Msg),
    /// The core's attempt was undone by the core `by`, which committed this TID and wrote these words of the line that the attempt
    /// had read; `lost` instructions were undone, in this phase.
    Violated {
        core: CoreId,
        by: CoreId,
        tid: Tid,
        line: LineAddr,
        words: Mask,
        lost: u32,
        phase: Phase,
    },
    /// The core won't commit this TID, and nobody will.
    GaveUp {
        tid: Tid,
        core: CoreId,
    },
    /// The core committed n instructions.
    Committed {
        tid: Tid,
        core: CoreId,
        n: u32,
    },
    /// The core's phase changed to this; its TID is a part of it.
    CameTo(CoreId, Phase),
    /// The directory serves this TID now.
    Serves(DirId, Tid),
    /// A message was sent, with this number on its link.
    Sent {
        src: NodeId,
        dst: NodeId,
        seq: u64,
        msg: Msg,
    },
}
