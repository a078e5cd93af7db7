// The rows of the table that `--csv` asks for, each number with the comma that stands before it.
ghost use Rattle.std.specs.Prelude.{◌≡◌, ◌++◌, OnOk, string_bytes};
ghost use Rattle.watch_count.specs.Csv.{names, names_row, table_names, cell, settings_cells, seed_cells, end_cell, attempts_cells, instructions_cells};
ghost use Rattle.watch_count.specs.Csv.{accesses_cells, evictions_cells, phases_cells, core_cells, messages_cells};

use crate::messages::MessageCounts;
use crate::tables::CoreCounts;
use std::alloc::AllocError;
use tcc_base::Config;

/// Appends the names of the columns of the five tables, each with the comma that stands before it. After want of memory a part of them may
/// stand there.
pub fn push_table_names(text: &mut String) -> Result<(), AllocError>
    ensures { OnOk result (string_bytes text.new ≡ string_bytes text.old ++ table_names) }
{
    text.push_str(
        ",attempts_begun,attempts_committed,attempts_violated,attempts_open,attempts_row,attempts_gaveup",
    )?;
    text.push_str(
        ",instructions_executed,instructions_committed,instructions_lost,instructions_open",
    )?;
    text.push_str(
        ",accesses_loads,accesses_stores,accesses_changes,accesses_misses,accesses_fills,accesses_overflows",
    )?;
    text.push_str(",evictions_clean,evictions_dirty,evictions_modified")?;
    text.push_str(",phases_Running,phases_AwaitTid,phases_DoomedTid,phases_Probing")?;
    text.push_str(",phases_Ready,phases_Overflowing,phases_Solo,phases_Halted")
}

/// The names of the columns.
fn push_names(text: &mut String) -> Result<(), AllocError>
    ensures { OnOk result (string_bytes text.new ≡ string_bytes text.old ++ names) }
{
    text.push_str("tcc-count,cores,dirs,sets,ways,base,ram,seed,steps,end,events")?;
    push_table_names(text)?;
    text.push_str(",messages_sent,messages_took,messages_dropped,messages_asked,messages_flight")
}

/// Appends the row of the names of the columns. After want of memory a part of it may stand there.
#[tactic(auto, unfolding(crate::specs::Csv::names_row))]
pub fn push_csv_names(text: &mut String) -> Result<(), AllocError>
    ensures { OnOk result (string_bytes text.new ≡ string_bytes text.old ++ names_row) }
{
    push_names(text)?;
    text.push_str("\n")
}

/// Appends a number and the comma that stands before it. After want of memory a part of it may stand there.
pub fn push_cell(text: &mut String, number: u64) -> Result<(), AllocError>
    ensures { OnOk result (string_bytes text.new ≡ string_bytes text.old ++ cell number) }
{
    write!(text, ",{number}")
}

/// The settings.
#[tactic(auto, unfolding(crate::specs::Csv::settings_cells))]
pub(crate) fn push_settings(text: &mut String, config: &Config) -> Result<(), AllocError>
    ensures { OnOk result (string_bytes text.new ≡ string_bytes text.old ++ settings_cells config.now) }
{
    let ram = 4 * config.words();
    write!(
        text,
        ",{},{},{}",
        config.cores(),
        config.dirs(),
        config.sets()
    )?;
    write!(text, ",{},{},{ram}", config.ways(), config.base())
}

/// Appends the seed and the number of steps, where the run has them. After want of memory a part of it may stand there.
#[tactic(auto, unfolding(crate::specs::Csv::seed_cells))]
pub fn push_seed(text: &mut String, seed: Option<(u64, u64)>) -> Result<(), AllocError>
    ensures { OnOk result (string_bytes text.new ≡ string_bytes text.old ++ seed_cells seed) }
{
    match seed {
        Some((seed, steps)) => write!(text, ",{seed},{steps}"),
        None => text.push_str(",,"),
    }
}

/// Appends whether the run is done. After want of memory a part of it may stand there.
#[tactic(auto, unfolding(crate::specs::Csv::end_cell))]
pub fn push_end_cell(text: &mut String, done: bool) -> Result<(), AllocError>
    ensures { OnOk result (string_bytes text.new ≡ string_bytes text.old ++ end_cell done) }
{
    text.push_str(if done { ",done" } else { ",open" })
}

#[tactic(auto, unfolding(crate::specs::Csv::attempts_cells))]
fn push_attempts_cells(text: &mut String, core: &CoreCounts) -> Result<(), AllocError>
    ensures { OnOk result (string_bytes text.new ≡ string_bytes text.old ++ attempts_cells core.now) }
{
    let counts = &core.attempts;
    write!(
        text,
        ",{},{},{}",
        counts.begun, counts.committed, counts.violated
    )?;
    write!(
        text,
        ",{},{},{}",
        counts.still_open, counts.row, counts.gave_up
    )
}

#[tactic(auto, unfolding(crate::specs::Csv::instructions_cells))]
fn push_instructions_cells(text: &mut String, core: &CoreCounts) -> Result<(), AllocError>
    ensures { OnOk result (string_bytes text.new ≡ string_bytes text.old ++ instructions_cells core.now) }
{
    let counts = &core.instructions;
    write!(text, ",{},{}", counts.executed, counts.committed)?;
    write!(text, ",{},{}", counts.lost, counts.still_open)
}

#[tactic(auto, unfolding(crate::specs::Csv::accesses_cells))]
fn push_accesses_cells(text: &mut String, core: &CoreCounts) -> Result<(), AllocError>
    ensures { OnOk result (string_bytes text.new ≡ string_bytes text.old ++ accesses_cells core.now) }
{
    let counts = &core.accesses;
    write!(
        text,
        ",{},{},{}",
        counts.loads, counts.stores, counts.changes
    )?;
    write!(
        text,
        ",{},{},{}",
        counts.misses, counts.fills, counts.overflows
    )
}

#[tactic(auto, unfolding(crate::specs::Csv::evictions_cells))]
fn push_evictions_cells(text: &mut String, core: &CoreCounts) -> Result<(), AllocError>
    ensures { OnOk result (string_bytes text.new ≡ string_bytes text.old ++ evictions_cells core.now) }
{
    let counts = &core.evictions;
    write!(
        text,
        ",{},{},{}",
        counts.clean, counts.dirty, counts.modified
    )
}

#[tactic(auto, unfolding(crate::specs::Csv::phases_cells))]
fn push_phases_cells(text: &mut String, core: &CoreCounts) -> Result<(), AllocError>
    ensures { OnOk result (string_bytes text.new ≡ string_bytes text.old ++ phases_cells core.now) }
{
    let counts = &core.phases;
    write!(
        text,
        ",{},{},{}",
        counts.running, counts.await_tid, counts.doomed_tid
    )?;
    write!(
        text,
        ",{},{},{}",
        counts.probing, counts.ready, counts.overflowing
    )?;
    write!(text, ",{},{}", counts.solo, counts.halted)
}

/// The numbers of the five tables.
#[tactic(auto, unfolding(crate::specs::Csv::core_cells))]
pub(crate) fn push_core_cells(text: &mut String, core: &CoreCounts) -> Result<(), AllocError>
    ensures { OnOk result (string_bytes text.new ≡ string_bytes text.old ++ core_cells core.now) }
{
    push_attempts_cells(text, core)?;
    push_instructions_cells(text, core)?;
    push_accesses_cells(text, core)?;
    push_evictions_cells(text, core)?;
    push_phases_cells(text, core)
}

/// The numbers of messages.
#[tactic(auto, unfolding(crate::specs::Csv::messages_cells))]
pub(crate) fn push_messages_cells(
    text: &mut String,
    messages: &MessageCounts,
) -> Result<(), AllocError>
    ensures { OnOk result (string_bytes text.new ≡ string_bytes text.old ++ messages_cells messages.now) }
{
    let flight = messages.in_flight();
    write!(text, ",{},{}", messages.sent, messages.took)?;
    write!(text, ",{},{},{flight}", messages.dropped, messages.asked)
}
