// The rows of one core that stand in front of a text, and their numbers as values of a core.
ghost use Rattle.std.specs.Prelude.{◌<◌, IfSome, length};

use crate::fields::{byte, mask, optional, row_in_front, word, words};
use commit_engine::{DirSet, Phase};
use core_node::Awaited;
use reg_checkpoint::{Regs, State};
use rv_exec::Outcome;
use spec_cache::FrameView;
use tcc_base::{LineAddr, Mask, Reg, Tid};

/// What a core's own row tells.
#[derive(Clone, Copy, Debug, PartialEq, Eq)]
pub(crate) struct Own {
    pub(crate) n: u32,
    pub(crate) ended: Outcome,
    pub(crate) phase: Phase,
    pub(crate) owing: DirSet,
    pub(crate) awaited: Option<Awaited>,
}

/// A frame, and in which way it stands, counted over all ways of the cache.
#[derive(Clone, Copy, Debug, PartialEq, Eq)]
pub(crate) struct Placed {
    pub(crate) way: u64,
    pub(crate) frame: FrameView,
}

/// The spilled words of a line.
#[derive(Clone, Copy, Debug, PartialEq, Eq)]
pub(crate) struct Spilled {
    pub(crate) line: LineAddr,
    pub(crate) mask: Mask,
    pub(crate) words: [u32; 8],
}

/// A number as a line.
fn line(number: u64) -> Option<LineAddr> {
    Some(LineAddr(word(number)?))
}

/// A kind, and a code or 0, as how an attempt ended.
fn outcome(kind: u64, code: u64) -> Option<Outcome> {
    match kind {
        0 => Some(Outcome::Goes),
        1 => Some(Outcome::Ended),
        2 => Some(Outcome::Halted(word(code)?)),
        3 => Some(Outcome::Trapped(byte(code)?)),
        _ => None,
    }
}

/// A kind, and a TID or 0, as a phase.
fn phase(kind: u64, tid: u64) -> Option<Phase> {
    match kind {
        0 => Some(Phase::Running),
        1 => Some(Phase::AwaitTid),
        2 => Some(Phase::DoomedTid),
        3 => Some(Phase::Probing(Tid(tid))),
        4 => Some(Phase::Ready(Tid(tid))),
        5 => Some(Phase::Overflowing(None)),
        6 => Some(Phase::Overflowing(Some(Tid(tid)))),
        7 => Some(Phase::Solo(Tid(tid))),
        8 => Some(Phase::Halted),
        _ => None,
    }
}

/// A kind of 0 as no line, of 1 as a line that is awaited, of 2 as a stale one.
fn awaited(kind: u64, number: u64) -> Option<Option<Awaited>> {
    let line = line(number)?;
    match kind {
        0 => Some(None),
        1 => Some(Some(Awaited { line, stale: false })),
        2 => Some(Some(Awaited { line, stale: true })),
        _ => None,
    }
}

/// The row of what core `k` holds once.
pub(crate) fn own_in_front(bytes: &[u8], k: u64) -> Option<(Own, &[u8])> {
    let mut row = [0; 9];
    let rest = row_in_front(bytes, b"core", &mut row)?;
    if row[0] != k {
        return None;
    }
    let own = Own {
        n: word(row[1])?,
        ended: outcome(row[2], row[3])?,
        phase: phase(row[4], row[5])?,
        owing: DirSet { bits: row[6] },
        awaited: awaited(row[7], row[8])?,
    };
    Some((own, rest))
}

/// The last numbers of a row as the values of all registers.
fn registers(row: &[u64; 36]) -> Option<Regs> {
    let mut regs = Regs::new();
    for number in 0..32 {
        if let Some(r) = Reg::new(number) {
            regs.set(r, word(row[4 + number as usize])?);
        }
    }
    Some(regs)
}

/// The row, with this word, of registers, pc and reservation of core `k`.
pub(crate) fn local_in_front<'a>(
    bytes: &'a [u8],
    word_of_row: &[u8],
    k: u64,
) -> Option<(State, &'a [u8])> {
    let mut row = [0; 36];
    let rest = row_in_front(bytes, word_of_row, &mut row)?;
    if row[0] != k {
        return None;
    }
    let mut state = State::new(registers(&row)?, word(row[1])?);
    if let Some(addr) = optional(row[2], row[3])? {
        state.reserve(word(addr)?);
    }
    Some((state, rest))
}

/// Reads the row of the TIDs of the last commits of core `k`, by directory, and gives what follows it. After `None` they may be written.
pub(crate) fn read_after<'a>(bytes: &'a [u8], k: u64, after: &mut [Tid; 64]) -> Option<&'a [u8]> {
    let mut row = [0; 65];
    let rest = row_in_front(bytes, b"after", &mut row)?;
    if row[0] != k {
        return None;
    }
    for d in 0..64 {
        after[d] = Tid(row[1 + d]);
    }
    Some(rest)
}

/// The row of a way's frame: whose it is, the frame, and what follows.
pub(crate) fn frame_in_front(bytes: &[u8]) -> Option<(u64, Placed, &[u8])>
    ensures { IfSome result (λ x. length x.2.now < length bytes.now) }
{
    let mut row = [0; 16];
    let rest = row_in_front(bytes, b"frame", &mut row)?;
    let frame = FrameView {
        line: line(row[2])?,
        words: words(&row[8..])?,
        valid: mask(row[3])?,
        read: mask(row[4])?,
        modified: mask(row[5])?,
        dirty: mask(row[6])?,
        tag: Tid(row[7]),
    };
    let placed = Placed { way: row[1], frame };
    Some((row[0], placed, rest))
}

/// The row of a spilled line: whose it is, its words, and what follows.
pub(crate) fn spilled_in_front(bytes: &[u8]) -> Option<(u64, Spilled, &[u8])>
    ensures { IfSome result (λ x. length x.2.now < length bytes.now) }
{
    let mut row = [0; 11];
    let rest = row_in_front(bytes, b"spilled", &mut row)?;
    let spilled = Spilled {
        line: line(row[1])?,
        mask: mask(row[2])?,
        words: words(&row[3..])?,
    };
    Some((row[0], spilled, rest))
}
