// Reading the tables of commits.
ghost use Rattle.std.specs.Prelude.{◌≡◌};

use crate::fields::{
    Fault, byte, byte_in_front, load_in_front, row_in_front, store_in_front, word,
};
use machine_parts::Parts;
use std::alloc::Global;
use tcc_base::{Commit, CoreId, List, Load, NoMemory, Stored, Tid};

/// The commit of whose row these are the numbers, as yet without what it loaded, stored and printed.
fn commit_of(alloc: Global, row: &[u64; 4]) -> Option<Commit> {
    let core = byte(row[2])?;
    let n = word(row[3])?;
    Some(Commit {
        tid: Tid(row[1]),
        core: CoreId(core),
        n,
        loads: List::new(alloc),
        stores: List::new(alloc),
        console: List::new(alloc),
    })
}

/// Whether a row of these numbers may come next: its place is behind the commits, and its TID is above that of the last one.
fn is_next(commits: &[Commit], row: &[u64; 4]) -> bool {
    if row[0] != commits.len() as u64 {
        return false;
    }
    match commits.last() {
        Some(last) => last.tid.0 < row[1],
        None => true,
    }
}

/// Appends the commit of whose row these are the numbers. False where they are of no commit that may come next.
fn push_commit(
    alloc: Global,
    row: &[u64; 4],
    commits: &mut List<Commit>,
) -> Result<bool, NoMemory> {
    if !is_next(&commits.items, row) {
        return Ok(false);
    }
    match commit_of(alloc, row) {
        Some(commit) => {
            commits.push(commit)?;
            Ok(true)
        }
        None => Ok(false),
    }
}

/// Reads the rows of the commits themselves: appends these, and gives what follows the rows.
fn read_heads<'a>(
    alloc: Global,
    bytes: &'a [u8],
    commits: &mut List<Commit>,
) -> Result<&'a [u8], Fault> {
    let mut rest = bytes;
    let mut row = [0; 4];
    while let Some(after) = row_in_front(rest, b"commit", &mut row) {
        if !push_commit(alloc, &row, commits)? {
            return Err(Fault::Row(rest.len()));
        }
        rest = after;
    }
    Ok(rest)
}

/// Appends a load to those of a commit. False where there is no such commit.
fn push_load(commits: &mut [Commit], k: u64, load: Load) -> Result<bool, NoMemory> {
    match commits.get_mut(k as usize) {
        Some(commit) => {
            commit.loads.push(load)?;
            Ok(true)
        }
        None => Ok(false),
    }
}

/// The same of a store.
fn push_store(commits: &mut [Commit], k: u64, store: Stored) -> Result<bool, NoMemory> {
    match commits.get_mut(k as usize) {
        Some(commit) => {
            commit.stores.push(store)?;
            Ok(true)
        }
        None => Ok(false),
    }
}

/// The same of a console byte.
fn push_byte(commits: &mut [Commit], k: u64, printed: u8) -> Result<bool, NoMemory> {
    match commits.get_mut(k as usize) {
        Some(commit) => {
            commit.console.push(printed)?;
            Ok(true)
        }
        None => Ok(false),
    }
}

/// Reads the rows of what was loaded: what follows them.
fn read_loads<'a>(bytes: &'a [u8], commits: &mut [Commit]) -> Result<&'a [u8], Fault> {
    let mut rest = bytes;
    while let Some((k, load, after)) = load_in_front(rest, b"commit-load") {
        if !push_load(commits, k, load)? {
            return Err(Fault::Row(rest.len()));
        }
        rest = after;
    }
    Ok(rest)
}

/// The same of what was stored.
fn read_stores<'a>(bytes: &'a [u8], commits: &mut [Commit]) -> Result<&'a [u8], Fault> {
    let mut rest = bytes;
    while let Some((k, store, after)) = store_in_front(rest, b"commit-store") {
        if !push_store(commits, k, store)? {
            return Err(Fault::Row(rest.len()));
        }
        rest = after;
    }
    Ok(rest)
}

/// The same of what was printed.
fn read_printed<'a>(bytes: &'a [u8], commits: &mut [Commit]) -> Result<&'a [u8], Fault> {
    let mut rest = bytes;
    while let Some((k, printed, after)) = byte_in_front(rest, b"commit-byte") {
        if !push_byte(commits, k, printed)? {
            return Err(Fault::Row(rest.len()));
        }
        rest = after;
    }
    Ok(rest)
}

/// Reads the tables of commits, and appends these: what follows the tables.
fn read_all<'a>(
    alloc: Global,
    bytes: &'a [u8],
    commits: &mut List<Commit>,
) -> Result<&'a [u8], Fault> {
    let rest = read_heads(alloc, bytes, commits)?;
    let rest = read_loads(rest, &mut commits.items)?;
    let rest = read_stores(rest, &mut commits.items)?;
    read_printed(rest, &mut commits.items)
}

/// Notes these commits, the last one first. False where their TIDs don't fall.
fn restore_all(commits: &mut List<Commit>, parts: &mut Parts) -> Result<bool, NoMemory>
    ensures { parts.new.cores.code ≡ parts.old.cores.code }
{
    while let Some(commit) = commits.pop() {
        if !parts.restore_commit(commit)? {
            return Ok(false);
        }
    }
    Ok(true)
}

/// Reads the tables of commits from the front, into the parts of a machine: what follows them. After an error some commits may be there.
/// It takes time for each byte that it reads, and memory for each commit.
pub(crate) fn read_commits<'a>(
    alloc: Global,
    bytes: &'a [u8],
    parts: &mut Parts,
) -> Result<&'a [u8], Fault>
    ensures { parts.new.cores.code ≡ parts.old.cores.code }
{
    let mut commits = List::new(alloc);
    let rest = read_all(alloc, bytes, &mut commits)?;
    commits.items.reverse();
    if !restore_all(&mut commits, parts)? {
        return Err(Fault::Row(bytes.len()));
    }
    Ok(rest)
}
