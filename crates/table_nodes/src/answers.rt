// What a node answers to a step, and how it is printed.
use crate::text::{push_address, push_byte, push_hex, push_number};
use directory::Cause;
use std::alloc::AllocError;
use tcc_base::{Commit, Load, Stored};

#[derive(Drop)]
pub enum Answer {
    /// A core: an instruction is done.
    Stepped,
    /// A core: a line was asked for, or a TID by which it goes on alone.
    Asked,
    /// A core: its transaction has committed.
    Committed(Commit),
    /// A core: the rules have no such event now.
    Blocked,
    /// A core: the way is empty now.
    Emptied,
    /// A core: the message is consumed.
    Taken,
    /// A directory: the message is consumed.
    Handled,
    /// A directory: the message stays, and this is what it waits for.
    Waits(Cause),
    /// A directory: the message stays, and the line's owner was asked for its data.
    AsksOwner,
    /// A directory: the message is consumed without effect.
    Dropped,
    /// A directory: the message isn't for it.
    Foreign,
    /// The vendor: it gives a TID.
    Granted,
    /// There is no such node, way or message, or it isn't one that the node may be called with.
    Nothing,
    /// Two calls of the node contradict each other.
    Contradicts,
    /// Out of memory.
    Memory,
}

impl Answer {
    /// Whether the message that was delivered stays with its destination.
    pub fn leaves_message(&self) -> bool {
        match self {
            Answer::Taken | Answer::Handled | Answer::Dropped | Answer::Granted => false,
            _ => true,
        }
    }

    /// How it is printed; a commit and what is waited for stand behind it.
    fn word(&self) -> &'static str {
        match self {
            Answer::Stepped => "stepped",
            Answer::Asked => "asked",
            Answer::Committed(_) => "committed",
            Answer::Blocked => "blocked",
            Answer::Emptied => "emptied",
            Answer::Taken => "taken",
            Answer::Handled => "handled",
            Answer::Waits(_) => "waits",
            Answer::AsksOwner => "asks the owner",
            Answer::Dropped => "dropped",
            Answer::Foreign => "foreign",
            Answer::Granted => "granted",
            Answer::Nothing => "no such node, way or message",
            Answer::Contradicts => "two calls contradict each other",
            Answer::Memory => "no memory",
        }
    }

    /// Whether it agrees with what was said before: that the event is allowed, or that it isn't.
    pub fn agrees(&self, allowed: bool) -> bool {
        match self {
            Answer::Memory => true,
            Answer::Blocked => !allowed,
            _ => allowed,
        }
    }
}

/// A load or a store: its kind, address, number of bytes and value.
fn push_access(
    text: &mut String,
    kind: &str,
    addr: u32,
    bytes: u32,
    value: u32,
) -> Result<(), AllocError> {
    push_address(text, kind, addr)?;
    push_number(text, " ", u64::from(bytes))?;
    push_hex(text, " ", value)
}

fn push_loads(text: &mut String, loads: &[Load]) -> Result<(), AllocError> {
    for load in loads {
        push_access(text, ", load ", load.addr, load.size.bytes(), load.value)?;
    }
    Ok(())
}

fn push_stores(text: &mut String, stores: &[Stored]) -> Result<(), AllocError> {
    for store in stores {
        push_access(
            text,
            ", store ",
            store.addr,
            store.size.bytes(),
            store.value,
        )?;
    }
    Ok(())
}

fn push_console(text: &mut String, console: &[u8]) -> Result<(), AllocError> {
    if console.is_empty() {
        return Ok(());
    }
    text.push_str(", console ")?;
    for byte in console {
        push_byte(text, "", *byte)?;
    }
    Ok(())
}

fn push_commit(text: &mut String, commit: &Commit) -> Result<(), AllocError> {
    push_number(text, " tid ", commit.tid.0)?;
    push_number(text, " of core ", u64::from(commit.core.0))?;
    push_number(text, ", done ", u64::from(commit.n))?;
    push_loads(text, commit.loads.items.as_slice())?;
    push_stores(text, commit.stores.items.as_slice())?;
    push_console(text, commit.console.items.as_slice())
}

/// What a message waits for: a TID or a line, with the text before it and behind it.
fn push_between(
    text: &mut String,
    before: &str,
    number: u64,
    after: &str,
) -> Result<(), AllocError> {
    push_number(text, before, number)?;
    text.push_str(after)
}

fn push_cause(text: &mut String, cause: Cause) -> Result<(), AllocError> {
    match cause {
        Cause::Turn(tid) => push_between(text, " until tid ", tid.0, " is served"),
        Cause::Done(tid) => push_between(text, " until tid ", tid.0, " is passed"),
        Cause::Line(line) => push_number(text, " for a change of line ", u64::from(line.0)),
        Cause::Served(line) => push_between(
            text,
            " for a change of line ",
            u64::from(line.0),
            " or of the tid that is served",
        ),
        Cause::Marks => text.push_str(" for a change of the marked lines"),
    }
}

/// Appends the answer.
pub fn push_answer(text: &mut String, answer: &Answer) -> Result<(), AllocError> {
    text.push_str(answer.word())?;
    match answer {
        Answer::Committed(commit) => push_commit(text, commit),
        Answer::Waits(cause) => push_cause(text, *cause),
        _ => Ok(()),
    }
}
