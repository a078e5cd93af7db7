// The lines of the text, each appended to what stands before it. Where memory runs out, the text holds a part of the line.
ghost use Rattle.std.specs.Prelude.{◌≡◌, ◌++◌, ◌+◌, OnOk, string_bytes, codes, Some, None};
ghost use Rattle.watch_count.specs.Lines.{who_word, named, row, kind_word, messages_line, line_line, conflict_line};

use crate::messages::MessageCounts;
use crate::places::{Conflict, ConflictCounts, LineCounts};
use crate::tables::CoreCounts;
use std::alloc::AllocError;

/// The five tables of a core's numbers.
#[derive(Clone, Copy, Debug, PartialEq, Eq)]
pub enum Table {
    Attempts,
    Instructions,
    Accesses,
    Evictions,
    Phases,
}

/// A core's number, or `all`.
fn push_who(text: &mut String, who: Option<usize>) -> Result<(), AllocError>
    ensures { OnOk result (string_bytes text.new ≡ string_bytes text.old ++ who_word who) }
{
    match who {
        Some(core) => write!(text, "{core}"),
        None => text.push_str("all"),
    }
}

/// Appends a name, and its number. After want of memory a part of it may stand there.
#[tactic(auto, unfolding(crate::specs::Lines::named))]
pub fn push_named(text: &mut String, name: &str, number: u64) -> Result<(), AllocError>
    ensures { OnOk result (string_bytes text.new ≡ string_bytes text.old ++ named name.now number) }
{
    text.push_str(name)?;
    write!(text, "{number}")
}

#[tactic(auto, unfolding(crate::specs::Lines::row))]
fn push_attempts(text: &mut String, who: Option<usize>, core: &CoreCounts) -> Result<(), AllocError>
    ensures { OnOk result (string_bytes text.new ≡ string_bytes text.old ++ row Table.Attempts who core.now) }
{
    let counts = &core.attempts;
    text.push_str("attempts ")?;
    push_who(text, who)?;
    push_named(text, " begun ", counts.begun)?;
    push_named(text, " committed ", counts.committed)?;
    push_named(text, " violated ", counts.violated)?;
    push_named(text, " open ", counts.still_open)?;
    push_named(text, " row ", counts.row)?;
    push_named(text, " gaveup ", counts.gave_up)?;
    text.push_str("\n")
}

#[tactic(auto, unfolding(crate::specs::Lines::row))]
fn push_instructions(
    text: &mut String,
    who: Option<usize>,
    core: &CoreCounts,
) -> Result<(), AllocError>
    ensures { OnOk result (string_bytes text.new ≡ string_bytes text.old ++ row Table.Instructions who core.now) }
{
    let counts = &core.instructions;
    text.push_str("instructions ")?;
    push_who(text, who)?;
    push_named(text, " executed ", counts.executed)?;
    push_named(text, " committed ", counts.committed)?;
    push_named(text, " lost ", counts.lost)?;
    push_named(text, " open ", counts.still_open)?;
    text.push_str("\n")
}

#[tactic(auto, unfolding(crate::specs::Lines::row))]
fn push_accesses(text: &mut String, who: Option<usize>, core: &CoreCounts) -> Result<(), AllocError>
    ensures { OnOk result (string_bytes text.new ≡ string_bytes text.old ++ row Table.Accesses who core.now) }
{
    let counts = &core.accesses;
    text.push_str("accesses ")?;
    push_who(text, who)?;
    push_named(text, " loads ", counts.loads)?;
    push_named(text, " stores ", counts.stores)?;
    push_named(text, " changes ", counts.changes)?;
    push_named(text, " misses ", counts.misses)?;
    push_named(text, " fills ", counts.fills)?;
    push_named(text, " overflows ", counts.overflows)?;
    text.push_str("\n")
}

#[tactic(auto, unfolding(crate::specs::Lines::row))]
fn push_evictions(
    text: &mut String,
    who: Option<usize>,
    core: &CoreCounts,
) -> Result<(), AllocError>
    ensures { OnOk result (string_bytes text.new ≡ string_bytes text.old ++ row Table.Evictions who core.now) }
{
    let counts = &core.evictions;
    text.push_str("evictions ")?;
    push_who(text, who)?;
    push_named(text, " clean ", counts.clean)?;
    push_named(text, " dirty ", counts.dirty)?;
    push_named(text, " modified ", counts.modified)?;
    text.push_str("\n")
}

#[tactic(auto, unfolding(crate::specs::Lines::row))]
fn push_phases(text: &mut String, who: Option<usize>, core: &CoreCounts) -> Result<(), AllocError>
    ensures { OnOk result (string_bytes text.new ≡ string_bytes text.old ++ row Table.Phases who core.now) }
{
    let counts = &core.phases;
    text.push_str("phases ")?;
    push_who(text, who)?;
    push_named(text, " Running ", counts.running)?;
    push_named(text, " AwaitTid ", counts.await_tid)?;
    push_named(text, " DoomedTid ", counts.doomed_tid)?;
    push_named(text, " Probing ", counts.probing)?;
    push_named(text, " Ready ", counts.ready)?;
    push_named(text, " Overflowing ", counts.overflowing)?;
    push_named(text, " Solo ", counts.solo)?;
    push_named(text, " Halted ", counts.halted)?;
    text.push_str("\n")
}

/// The row of a table for a core, or for all.
pub(crate) fn push_row(
    text: &mut String,
    table: Table,
    who: Option<usize>,
    core: &CoreCounts,
) -> Result<(), AllocError>
    ensures { OnOk result (string_bytes text.new ≡ string_bytes text.old ++ row table who core.now) }
{
    match table {
        Table::Attempts => push_attempts(text, who, core),
        Table::Instructions => push_instructions(text, who, core),
        Table::Accesses => push_accesses(text, who, core),
        Table::Evictions => push_evictions(text, who, core),
        Table::Phases => push_phases(text, who, core),
    }
}

/// The name of the kind of message at this place; after the last of them, `all`.
fn push_kind(text: &mut String, place: usize) -> Result<(), AllocError>
    ensures { OnOk result (string_bytes text.new ≡ string_bytes text.old ++ kind_word place) }
{
    text.push_str(match place {
        0 => "TidReq",
        1 => "TidGrant",
        2 => "LoadReq",
        3 => "Fill",
        4 => "Skip",
        5 => "Probe",
        6 => "ProbeReply",
        7 => "Mark",
        8 => "Commit",
        9 => "Abort",
        10 => "WriteBack",
        11 => "Flush",
        12 => "DataReq",
        13 => "Inv",
        14 => "InvAck",
        _ => "all",
    })
}

/// The line of a kind of message, or of all.
#[tactic(auto, unfolding(crate::specs::Lines::messages_line))]
pub(crate) fn push_messages_line(
    text: &mut String,
    place: usize,
    messages: &MessageCounts,
) -> Result<(), AllocError>
    ensures { OnOk result (string_bytes text.new ≡ string_bytes text.old ++ messages_line place messages.now) }
{
    let flight = messages.in_flight();
    text.push_str("messages ")?;
    push_kind(text, place)?;
    push_named(text, " sent ", messages.sent)?;
    push_named(text, " took ", messages.took)?;
    push_named(text, " dropped ", messages.dropped)?;
    push_named(text, " asked ", messages.asked)?;
    push_named(text, " flight ", flight)?;
    text.push_str("\n")
}

/// The line of a line of memory.
#[tactic(auto, unfolding(crate::specs::Lines::line_line))]
pub(crate) fn push_line_line(
    text: &mut String,
    line: u32,
    counts: &LineCounts,
) -> Result<(), AllocError>
    ensures { OnOk result (string_bytes text.new ≡ string_bytes text.old ++ line_line line counts.now) }
{
    push_named(text, "line ", line as u64)?;
    push_named(text, " misses ", counts.misses)?;
    push_named(text, " invalidations ", counts.invalidations)?;
    push_named(text, " violations ", counts.violations)?;
    push_named(text, " lost ", counts.lost)?;
    text.push_str("\n")
}

/// The line of a conflict.
#[tactic(auto, unfolding(crate::specs::Lines::conflict_line))]
pub(crate) fn push_conflict_line(
    text: &mut String,
    conflict: &Conflict,
    counts: &ConflictCounts,
) -> Result<(), AllocError>
    ensures { OnOk result (string_bytes text.new ≡ string_bytes text.old ++ conflict_line conflict.now counts.now) }
{
    push_named(text, "conflict ", conflict.by as u64)?;
    push_named(text, " ", conflict.victim as u64)?;
    push_named(text, " ", conflict.line as u64)?;
    push_named(text, " ", counts.violations)?;
    push_named(text, " ", counts.lost)?;
    text.push_str("\n")
}
