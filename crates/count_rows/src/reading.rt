// Reading the numbers of counts, table by table. After an error some of them may be read.
ghost use Rattle.std.specs.Prelude.{◌≡◌, IfOk, length};

use crate::rows::{
    Fault, bound_in_front, conflict_in_front, line_in_front, messages_in_front, read_core_row,
};
use std::alloc::Global;
use std::collections::BTreeMap;
use tcc_base::{List, NoMemory};
use watch_count::{Conflict, ConflictCounts, CoreCounts, LineCounts, MessageCounts, Table};

/// The numbers of counts.
#[derive(Drop)]
pub(crate) struct Numbers {
    pub cores: List<CoreCounts>,
    pub messages: [MessageCounts; 15],
    pub lines: BTreeMap<u32, LineCounts>,
    pub conflicts: BTreeMap<Conflict, ConflictCounts>,
    pub bound: u64,
}

/// So many cores of which nothing is counted.
fn first_cores(alloc: Global, cores: u8) -> Result<List<CoreCounts>, NoMemory>
    ensures { IfOk result (λ cs. length cs ≡ cores) }
{
    let mut counts = List::new(alloc);
    for _ in 0..cores {
        counts.push(CoreCounts::nothing())?;
    }
    Ok(counts)
}

/// The numbers of so many cores before the first event.
fn first_numbers(alloc: Global, cores: u8) -> Result<Numbers, NoMemory>
    ensures { IfOk result (λ n. length n.cores ≡ cores) }
{
    Ok(Numbers {
        cores: first_cores(alloc, cores)?,
        messages: [MessageCounts::nothing(); 15],
        lines: BTreeMap::new(alloc),
        conflicts: BTreeMap::new(alloc),
        bound: 0,
    })
}

/// Reads a table of all cores: what follows it.
fn read_table<'a>(
    bytes: &'a [u8],
    table: Table,
    cores: &mut [CoreCounts],
) -> Result<&'a [u8], Fault>
    ensures { length cores.new ≡ length cores.old }
{
    let mut rest = bytes;
    for k in 0..cores.len() {
        match read_core_row(rest, table, k as u64, &mut cores[k]) {
            Some(after) => rest = after,
            None => return Err(Fault::Row(rest.len())),
        }
    }
    Ok(rest)
}

/// Reads the five tables of all cores: what follows them.
fn read_cores<'a>(bytes: &'a [u8], cores: &mut [CoreCounts]) -> Result<&'a [u8], Fault>
    ensures { length cores.new ≡ length cores.old }
{
    let rest = read_table(bytes, Table::Attempts, cores)?;
    let rest = read_table(rest, Table::Instructions, cores)?;
    let rest = read_table(rest, Table::Accesses, cores)?;
    let rest = read_table(rest, Table::Evictions, cores)?;
    read_table(rest, Table::Phases, cores)
}

/// Reads the rows of the kinds of message: what follows them.
fn read_messages<'a>(
    bytes: &'a [u8],
    messages: &mut [MessageCounts; 15],
) -> Result<&'a [u8], Fault> {
    let mut rest = bytes;
    for k in 0..15 {
        let Some((counts, after)) = messages_in_front(rest, k as u64) else {
            return Err(Fault::Row(rest.len()));
        };
        messages[k] = counts;
        rest = after;
    }
    Ok(rest)
}

/// Puts the counts of a line behind those of the lines before it. False where it isn't behind all of them; then nothing is changed.
fn put_line(
    lines: &mut BTreeMap<u32, LineCounts>,
    line: u32,
    counts: LineCounts,
) -> Result<bool, NoMemory> {
    if let Some((last, _)) = lines.last_key_value() {
        if line <= *last {
            return Ok(false);
        }
    }
    match lines.insert(line, counts) {
        Ok(_) => Ok(true),
        Err(_) => Err(NoMemory),
    }
}

/// Reads the rows of lines: what follows them.
fn read_lines<'a>(
    bytes: &'a [u8],
    lines: &mut BTreeMap<u32, LineCounts>,
) -> Result<&'a [u8], Fault> {
    let mut rest = bytes;
    while let Some((line, counts, after)) = line_in_front(rest) {
        if !put_line(lines, line, counts)? {
            return Err(Fault::Row(rest.len()));
        }
        rest = after;
    }
    Ok(rest)
}

/// Puts the counts of a conflict behind those of the conflicts before it. False where it isn't behind all of them; then nothing is changed.
fn put_conflict(
    conflicts: &mut BTreeMap<Conflict, ConflictCounts>,
    conflict: Conflict,
    counts: ConflictCounts,
) -> Result<bool, NoMemory> {
    if let Some((last, _)) = conflicts.last_key_value() {
        if conflict <= *last {
            return Ok(false);
        }
    }
    match conflicts.insert(conflict, counts) {
        Ok(_) => Ok(true),
        Err(_) => Err(NoMemory),
    }
}

/// Reads the rows of conflicts: what follows them.
fn read_conflicts<'a>(
    bytes: &'a [u8],
    conflicts: &mut BTreeMap<Conflict, ConflictCounts>,
) -> Result<&'a [u8], Fault> {
    let mut rest = bytes;
    while let Some((conflict, counts, after)) = conflict_in_front(rest) {
        if !put_conflict(conflicts, conflict, counts)? {
            return Err(Fault::Row(rest.len()));
        }
        rest = after;
    }
    Ok(rest)
}

/// Reads all rows into these numbers.
fn read_all(bytes: &[u8], numbers: &mut Numbers) -> Result<(), Fault>
    ensures { length numbers.new.cores ≡ length numbers.old.cores }
{
    let Some((bound, rest)) = bound_in_front(bytes) else {
        return Err(Fault::Row(bytes.len()));
    };
    numbers.bound = bound;
    let rest = read_cores(rest, &mut numbers.cores.items)?;
    let rest = read_messages(rest, &mut numbers.messages)?;
    let rest = read_lines(rest, &mut numbers.lines)?;
    read_conflicts(rest, &mut numbers.conflicts)?;
    Ok(())
}

/// Reads the numbers of so many cores from the front of a text. It takes time for each byte that it reads, and memory for each core, line
/// and conflict.
pub(crate) fn read_numbers(alloc: Global, bytes: &[u8], cores: u8) -> Result<Numbers, Fault>
    ensures { IfOk result (λ n. length n.cores ≡ cores) }
{
    let mut numbers = first_numbers(alloc, cores)?;
    read_all(bytes, &mut numbers)?;
    Ok(numbers)
}
