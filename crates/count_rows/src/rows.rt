// What stands in front of a text of counts, row by row.
ghost use Rattle.std.specs.Prelude.{◌≡◌, ◌<◌, IfSome, length};

use row_text::read_row;
use tcc_base::NoMemory;
use watch_count::{
    Accesses, Attempts, Conflict, ConflictCounts, CoreCounts, Evictions, Instructions, LineCounts,
    MessageCounts, PhaseName, Phases, Table,
};

/// Why no counts are read from a text.
#[derive(Clone, Copy, Debug, PartialEq, Eq)]
pub enum Fault {
    /// A row that isn't in its place, or tells no value; it begins so many bytes before the end.
    Row(usize),
    /// Numbers are above their bound, or it is above 2^56, or there are more than 64 cores.
    Unsound,
    /// The counts that it tells have another text.
    Other,
    NoMemory,
}

impl From<NoMemory> for Fault {
    fn from(_: NoMemory) -> Fault {
        Fault::NoMemory
    }
}

/// The phase at a place in the order of their list.
fn phase_at(place: u64) -> Option<PhaseName> {
    match place {
        0 => Some(PhaseName::Running),
        1 => Some(PhaseName::AwaitTid),
        2 => Some(PhaseName::DoomedTid),
        3 => Some(PhaseName::Probing),
        4 => Some(PhaseName::Ready),
        5 => Some(PhaseName::Overflowing),
        6 => Some(PhaseName::Solo),
        7 => Some(PhaseName::Halted),
        _ => None,
    }
}

/// A number as that of a line.
fn line(number: u64) -> Option<u32> {
    if number <= 0xffff_ffff {
        Some(number as u32)
    } else {
        None
    }
}

/// A number as that of a core.
fn core(number: u64) -> Option<u8> {
    if number <= 0xff {
        Some(number as u8)
    } else {
        None
    }
}

/// Reads the row that stands in front, where it has this word and as many numbers as there are places, and gives what follows the row.
/// `None` where no such row stands in front; then some of the places may be written.
fn row_in_front<'a>(bytes: &'a [u8], word: &[u8], numbers: &mut [u64]) -> Option<&'a [u8]>
    ensures length { length numbers.new ≡ length numbers.old }
    ensures shorter { IfSome result (λ rest. length rest.now < length bytes.now) }
{
    read_row(bytes, word, numbers)
}

/// Reads the row of what no number is above: this, and what follows it.
pub(crate) fn bound_in_front(bytes: &[u8]) -> Option<(u64, &[u8])> {
    let mut row = [0; 1];
    let rest = row_in_front(bytes, b"counted", &mut row)?;
    Some((row[0], rest))
}

/// Reads the row of the attempts of core `k`: these, and what follows it.
fn attempts_in_front(bytes: &[u8], k: u64) -> Option<(Attempts, &[u8])> {
    let mut row = [0; 8];
    let rest = row_in_front(bytes, b"attempts", &mut row)?;
    if row[0] != k {
        return None;
    }
    let counts = Attempts {
        begun: row[1],
        committed: row[2],
        violated: row[3],
        still_open: row[4],
        unbroken: row[5],
        row: row[6],
        gave_up: row[7],
    };
    Some((counts, rest))
}

/// The same of instructions.
fn instructions_in_front(bytes: &[u8], k: u64) -> Option<(Instructions, &[u8])> {
    let mut row = [0; 5];
    let rest = row_in_front(bytes, b"instructions", &mut row)?;
    if row[0] != k {
        return None;
    }
    let counts = Instructions {
        executed: row[1],
        committed: row[2],
        lost: row[3],
        still_open: row[4],
    };
    Some((counts, rest))
}

/// The same of accesses.
fn accesses_in_front(bytes: &[u8], k: u64) -> Option<(Accesses, &[u8])> {
    let mut row = [0; 7];
    let rest = row_in_front(bytes, b"accesses", &mut row)?;
    if row[0] != k {
        return None;
    }
    let counts = Accesses {
        loads: row[1],
        stores: row[2],
        changes: row[3],
        misses: row[4],
        fills: row[5],
        overflows: row[6],
    };
    Some((counts, rest))
}

/// The same of evictions.
fn evictions_in_front(bytes: &[u8], k: u64) -> Option<(Evictions, &[u8])> {
    let mut row = [0; 4];
    let rest = row_in_front(bytes, b"evictions", &mut row)?;
    if row[0] != k {
        return None;
    }
    let counts = Evictions {
        clean: row[1],
        dirty: row[2],
        modified: row[3],
    };
    Some((counts, rest))
}

/// The same of the events in each phase, and the phase that the core is in.
fn phases_in_front(bytes: &[u8], k: u64) -> Option<(Phases, PhaseName, &[u8])> {
    let mut row = [0; 10];
    let rest = row_in_front(bytes, b"phases", &mut row)?;
    if row[0] != k {
        return None;
    }
    let counts = Phases {
        running: row[1],
        await_tid: row[2],
        doomed_tid: row[3],
        probing: row[4],
        ready: row[5],
        overflowing: row[6],
        solo: row[7],
        halted: row[8],
    };
    Some((counts, phase_at(row[9])?, rest))
}

/// Reads the row of core `k` in this table into its counts, and gives what follows it. `None` where no such row stands in front; then
/// nothing is changed.
pub(crate) fn read_core_row<'a>(
    bytes: &'a [u8],
    table: Table,
    k: u64,
    core: &mut CoreCounts,
) -> Option<&'a [u8]> {
    match table {
        Table::Attempts => {
            let (counts, rest) = attempts_in_front(bytes, k)?;
            core.attempts = counts;
            Some(rest)
        }
        Table::Instructions => {
            let (counts, rest) = instructions_in_front(bytes, k)?;
            core.instructions = counts;
            Some(rest)
        }
        Table::Accesses => {
            let (counts, rest) = accesses_in_front(bytes, k)?;
            core.accesses = counts;
            Some(rest)
        }
        Table::Evictions => {
            let (counts, rest) = evictions_in_front(bytes, k)?;
            core.evictions = counts;
            Some(rest)
        }
        Table::Phases => {
            let (counts, phase, rest) = phases_in_front(bytes, k)?;
            core.phases = counts;
            core.phase = phase;
            Some(rest)
        }
    }
}

/// Reads the row of the kind of message at this place: its counts, and what follows it.
pub(crate) fn messages_in_front(bytes: &[u8], place: u64) -> Option<(MessageCounts, &[u8])> {
    let mut row = [0; 5];
    let rest = row_in_front(bytes, b"messages", &mut row)?;
    if row[0] != place {
        return None;
    }
    let counts = MessageCounts {
        sent: row[1],
        took: row[2],
        dropped: row[3],
        asked: row[4],
    };
    Some((counts, rest))
}

/// Reads the row of a line: its number and counts, and what follows it.
pub(crate) fn line_in_front(bytes: &[u8]) -> Option<(u32, LineCounts, &[u8])>
    ensures { IfSome result (λ x. length x.2.now < length bytes.now) }
{
    let mut row = [0; 5];
    let rest = row_in_front(bytes, b"at-line", &mut row)?;
    let counts = LineCounts {
        misses: row[1],
        invalidations: row[2],
        violations: row[3],
        lost: row[4],
    };
    Some((line(row[0])?, counts, rest))
}

/// Reads the row of a conflict: this and its counts, and what follows it.
pub(crate) fn conflict_in_front(bytes: &[u8]) -> Option<(Conflict, ConflictCounts, &[u8])>
    ensures { IfSome result (λ x. length x.2.now < length bytes.now) }
{
    let mut row = [0; 5];
    let rest = row_in_front(bytes, b"conflict", &mut row)?;
    let conflict = Conflict {
        by: core(row[0])?,
        victim: core(row[1])?,
        line: line(row[2])?,
    };
    let counts = ConflictCounts {
        violations: row[3],
        lost: row[4],
    };
    Some((conflict, counts, rest))
}
