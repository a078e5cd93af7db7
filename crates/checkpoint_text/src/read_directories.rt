// Reading the tables of directories and of the lines of memory.
ghost use Rattle.std.specs.Prelude.{◌≡◌};

use crate::fields::{
    Fault, byte, flag, mask, number_in_front, optional, row_in_front, word, words,
};
use dir_lines::{CoreSet, LineRecord};
use machine_parts::Parts;
use row_text::{behind, end};
use skip_vector::SkipVector;
use std::alloc::Global;
use tcc_base::{Config, CoreId, DirId, LineAddr, List, NoMemory, Tid};

/// What follows the rows of what so many directories serve.
fn past_servings(bytes: &[u8], dirs: u8) -> Result<&[u8], Fault> {
    let mut rest = bytes;
    let mut row = [0; 3];
    for k in 0..dirs {
        match row_in_front(rest, b"directory", &mut row) {
            Some(after) if row[0] == k as u64 => rest = after,
            _ => return Err(Fault::Row(rest.len())),
        }
    }
    Ok(rest)
}

/// What follows the word and the number of a directory in front of its row of skips.
fn begin_skips(bytes: &[u8], k: u8) -> Option<&[u8]> {
    let rest = behind(bytes, b"skipped")?;
    let (number, rest) = number_in_front(rest)?;
    if number == k as u64 { Some(rest) } else { None }
}

/// Appends the flags that end a row, and gives what follows the row. `None` where these aren't flags to the row's end.
fn read_flags<'a>(bytes: &'a [u8], flags: &mut List<bool>) -> Result<Option<&'a [u8]>, NoMemory> {
    let mut rest = bytes;
    while let Some((number, after)) = number_in_front(rest) {
        let Some(skipped) = flag(number) else {
            return Ok(None);
        };
        flags.push(skipped)?;
        rest = after;
    }
    Ok(end(rest))
}

/// Sets what a directory serves, skips and is owed. False where these don't fit.
fn restore_serving(
    alloc: Global,
    row: &[u64; 3],
    k: u8,
    flags: &[bool],
    parts: &mut Parts,
) -> Result<bool, NoMemory>
    ensures { parts.new.cores.code ≡ parts.old.cores.code }
{
    match SkipVector::restored(alloc, Tid(row[1]), flags)? {
        Some(skips) => Ok(parts.restore_serving(DirId(k), skips, row[2])),
        None => Ok(false),
    }
}

/// Reads the row of a directory's skips, and sets these with what its other row says; what follows. `None` where there is no such row,
/// or it doesn't fit.
fn read_skips<'a>(
    alloc: Global,
    bytes: &'a [u8],
    row: &[u64; 3],
    k: u8,
    parts: &mut Parts,
) -> Result<Option<&'a [u8]>, NoMemory>
    ensures { parts.new.cores.code ≡ parts.old.cores.code }
{
    let Some(rest) = begin_skips(bytes, k) else {
        return Ok(None);
    };
    let mut flags = List::new(alloc);
    let Some(rest) = read_flags(rest, &mut flags)? else {
        return Ok(None);
    };
    match restore_serving(alloc, row, k, &flags.items, parts)? {
        true => Ok(Some(rest)),
        false => Ok(None),
    }
}

/// Reads the two rows of each directory: what follows them.
fn read_servings<'a>(
    alloc: Global,
    bytes: &'a [u8],
    dirs: u8,
    parts: &mut Parts,
) -> Result<&'a [u8], Fault>
    ensures { parts.new.cores.code ≡ parts.old.cores.code }
{
    let mut first = bytes;
    let mut rest = past_servings(bytes, dirs)?;
    let mut row = [0; 3];
    for k in 0..dirs {
        let Some(after_first) = row_in_front(first, b"directory", &mut row) else {
            return Err(Fault::Row(first.len()));
        };
        let Some(after) = read_skips(alloc, rest, &row, k, parts)? else {
            return Err(Fault::Row(rest.len()));
        };
        first = after_first;
        rest = after;
    }
    Ok(rest)
}

/// What a directory knows of a line of whose row these are the numbers.
fn record_of(row: &[u64; 15]) -> Option<LineRecord> {
    let owner = match optional(row[2], row[3])? {
        Some(core) => Some(CoreId(byte(core)?)),
        None => None,
    };
    Some(LineRecord {
        sharers: CoreSet(row[1]),
        owner,
        tag: Tid(row[4]),
        asked: flag(row[5])?,
        mark: mask(row[6])?,
    })
}

/// Sets what is known of a line, and its words. `None` where the numbers tell no value, false where they don't fit.
fn restore_line(row: &[u64; 15], parts: &mut Parts) -> Option<bool>
    ensures { parts.new.cores.code ≡ parts.old.cores.code }
{
    let line = word(row[0])?;
    let record = record_of(row)?;
    let words = words(&row[7..])?;
    Some(parts.restore_line(LineAddr(line), record, &words))
}

/// Reads the rows of lines that aren't as at the start: what follows them.
fn read_lines<'a>(bytes: &'a [u8], parts: &mut Parts) -> Result<&'a [u8], Fault>
    ensures { parts.new.cores.code ≡ parts.old.cores.code }
{
    let mut rest = bytes;
    let mut row = [0; 15];
    while let Some(after) = row_in_front(rest, b"line", &mut row) {
        match restore_line(&row, parts) {
            Some(true) => rest = after,
            _ => return Err(Fault::Row(rest.len())),
        }
    }
    Ok(rest)
}

/// Reads the tables of directories and of lines from the front, into the parts of a machine of these settings: what follows them. After
/// an error some of them may be set. It takes time for each byte that it reads, and memory for the skips of one directory and for lines.
pub(crate) fn read_directories<'a>(
    alloc: Global,
    bytes: &'a [u8],
    config: &Config,
    parts: &mut Parts,
) -> Result<&'a [u8], Fault>
    ensures { parts.new.cores.code ≡ parts.old.cores.code }
{
    let rest = read_servings(alloc, bytes, config.dirs(), parts)?;
    read_lines(rest, parts)
}
