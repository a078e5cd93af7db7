// What is read of a machine, where it may be read.
use directory::LineState;
use net_core::{StepError, System};
use std::alloc::Global;
use std::test::Fail;
use tcc_base::{CoreEnd, CoreId, DirId, LineAddr, List, WordAddr};
use tcc_msg::Event;

// What a machine has come to, with the words 16 and 24 and the line 4 of its memory.
#[derive(Clone, Copy, Debug, PartialEq, Eq)]
pub(crate) struct Played {
    pub(crate) run: Result<(), (u64, StepError)>,
    pub(crate) events: u64,
    pub(crate) commits: [Option<Listed>; 3],
    pub(crate) pcs: [Option<u32>; 2],
    pub(crate) words: [Option<u32>; 2],
    pub(crate) line: Option<[u32; 8]>,
}

// The TID, core and number of instructions of a commit, and what its first load gave.
#[derive(Clone, Copy, Debug, PartialEq, Eq)]
pub(crate) struct Listed(
    pub(crate) u64,
    pub(crate) u8,
    pub(crate) u32,
    pub(crate) Option<u32>,
);

// The k-th commit, from 0.
fn commit(system: &System, k: usize) -> Option<Listed> {
    let commit = system.commits().get(k)?;
    let load = commit.loads.items.as_slice().first();
    let value = load.map(|load| load.value);
    Some(Listed(commit.tid.0, commit.core.0, commit.n, value))
}

// Where a core stands by its last commit.
fn pc(system: &System, core: u8) -> Option<u32> {
    let exists = core < system.config().cores();
    exists.then(|| system.committed(CoreId(core)).pc())
}

// A word as it is committed.
fn word(system: &System, w: u32) -> Option<u32> {
    if !system.is_settled() || w >= system.config().words() {
        return None;
    }
    Some(system.seen_word(WordAddr(w)))
}

// The words of a line as they are committed.
fn line(system: &System, line: u32) -> Option<[u32; 8]> {
    if !system.is_settled() || line >= system.config().words() / 8 {
        return None;
    }
    Some(system.seen_line(LineAddr(line)))
}

// The same as RAM as a whole is read.
pub(crate) fn ram_line(
    alloc: Global,
    system: &System,
    line: u32,
) -> Result<Option<[u32; 8]>, Fail> {
    if !system.is_settled() || line >= system.config().words() / 8 {
        return Ok(None);
    }
    let ram = system.seen_ram(alloc)?;
    Ok(Some(ram.line(LineAddr(line))))
}

// What the machine has come to by a run that ended so.
pub(crate) fn come_to(system: &System, run: Result<(), (u64, StepError)>) -> Played {
    Played {
        run,
        events: system.events(),
        commits: [commit(system, 0), commit(system, 1), commit(system, 2)],
        pcs: [pc(system, 0), pc(system, 1)],
        words: [word(system, 16), word(system, 24)],
        line: line(system, 4),
    }
}

// How the first core stands.
pub(crate) fn end(system: &System) -> Option<CoreEnd> {
    let exists = system.config().cores() > 0;
    exists.then(|| system.ended(CoreId(0)))
}

// The useful events, where all that was sent stands on its links.
pub(crate) fn useful(alloc: Global, system: &System) -> Result<List<Event>, Fail> {
    if !system.is_settled() {
        return Err("some messages don't stand on their links")?;
    }
    Ok(system.useful(alloc)?)
}

// Whether one event is useful.
pub(crate) fn is_useful(system: &System, e: Event) -> Option<bool> {
    if !system.is_settled() {
        return None;
    }
    Some(system.is_useful(e))
}

// The TID that a directory serves, how many lines it has marked, and what the home of a line knows of it.
pub(crate) type Known = (u64, u32, LineState);

pub(crate) fn known(system: &System, dir: u8, line: u32) -> Option<Known> {
    if dir >= system.config().dirs() || line >= system.config().words() / 8 {
        return None;
    }
    let dir = DirId(dir);
    let state = system.line_state(LineAddr(line));
    Some((system.serving(dir).0, system.marked_lines(dir), state))
}
