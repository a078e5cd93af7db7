// The whole text of counts, and the two lines of a table.
ghost use Rattle.std.specs.Prelude.{◌≡◌, ◌++◌, ◌+◌, ◌≤◌, ◌^◌, IfOk, OnOk, All, length, map, string_bytes, option_map};
ghost use Rattle.std.specs.List.{flat_map};
ghost use Rattle.watch_count.specs.Text.{table_text, rows_from, tables_text, kinds_from, messages_text};
ghost use Rattle.watch_count.specs.Text.{entry_line, entry_conflict};
ghost use Rattle.watch_count.specs.Csv.{names, settings_cells, seed_cells, end_cell, core_cells, messages_cells, csv_text};
ghost use Rattle.watch_count.specs.KeptCores.{numbers_after};
ghost use Rattle.watch_count.specs.Sizes.{core_size, messages_size};

use crate::kept::KeptCore;
use crate::messages::MessageCounts;
use crate::places::{Conflict, ConflictCounts, LineCounts};
use crate::rows::{Table, push_conflict_line, push_line_line, push_messages_line, push_row};
use crate::totals::{all_cores, all_messages};
use std::alloc::AllocError;
use std::collections::BTreeMap;

/// The rows of a table for each core, when so many events have come.
fn push_rows(
    text: &mut String,
    table: Table,
    cores: &[KeptCore],
    events: u64,
) -> Result<(), AllocError>
    requires { All (λ c. core_size c ≤ 2 ^ 56) (map (numbers_after events) cores.now) }
    ensures { OnOk result (string_bytes text.new ≡ string_bytes text.old ++ rows_from table 0 (map (numbers_after events) cores.now)) }
{
    for (number, core) in cores.iter().enumerate() {
        push_row(text, table, Some(number), &core.numbers(events))?;
    }
    Ok(())
}

#[tactic(auto, unfolding(crate::specs::Text::table_text))]
fn push_table(
    text: &mut String,
    table: Table,
    cores: &[KeptCore],
    events: u64,
) -> Result<(), AllocError>
    requires small { All (λ c. core_size c ≤ 2 ^ 56) (map (numbers_after events) cores.now) }
    requires few { length cores.now ≤ 64 }
    ensures { OnOk result (string_bytes text.new ≡ string_bytes text.old ++ table_text table (map (numbers_after events) cores.now)) }
{
    push_rows(text, table, cores, events)?;
    push_row(text, table, None, &all_cores(cores, events))
}

/// The five tables, when so many events have come.
#[tactic(auto, unfolding(crate::specs::Text::tables_text))]
pub(crate) fn push_tables(
    text: &mut String,
    cores: &[KeptCore],
    events: u64,
) -> Result<(), AllocError>
    requires small { All (λ c. core_size c ≤ 2 ^ 56) (map (numbers_after events) cores.now) }
    requires few { length cores.now ≤ 64 }
    ensures { OnOk result (string_bytes text.new ≡ string_bytes text.old ++ tables_text (map (numbers_after events) cores.now)) }
{
    push_table(text, Table::Attempts, cores, events)?;
    push_table(text, Table::Instructions, cores, events)?;
    push_table(text, Table::Accesses, cores, events)?;
    push_table(text, Table::Evictions, cores, events)?;
    push_table(text, Table::Phases, cores, events)
}

fn push_kinds(text: &mut String, messages: &[MessageCounts; 15]) -> Result<(), AllocError>
    ensures { OnOk result (string_bytes text.new ≡ string_bytes text.old ++ kinds_from 0 messages.now) }
{
    for (place, kind) in messages.iter().enumerate() {
        push_messages_line(text, place, kind)?;
    }
    Ok(())
}

/// The lines of the kinds of message.
#[tactic(auto, unfolding(crate::specs::Text::messages_text))]
pub(crate) fn push_messages(
    text: &mut String,
    messages: &[MessageCounts; 15],
) -> Result<(), AllocError>
    requires { All (λ m. messages_size m ≤ 2 ^ 56) messages.now }
    ensures { OnOk result (string_bytes text.new ≡ string_bytes text.old ++ messages_text messages.now) }
{
    push_kinds(text, messages)?;
    push_messages_line(text, 15, &all_messages(messages))
}

/// The lines of lines of memory.
pub(crate) fn push_lines(
    text: &mut String,
    lines: &BTreeMap<u32, LineCounts>,
) -> Result<(), AllocError>
    ensures { OnOk result (string_bytes text.new ≡ string_bytes text.old ++ flat_map entry_line lines.now.entries) }
{
    for (line, counts) in lines {
        push_line_line(text, *line, counts)?;
    }
    Ok(())
}

/// The lines of conflicts.
pub(crate) fn push_conflicts(
    text: &mut String,
    conflicts: &BTreeMap<Conflict, ConflictCounts>,
) -> Result<(), AllocError>
    ensures { OnOk result (string_bytes text.new ≡ string_bytes text.old ++ flat_map entry_conflict conflicts.now.entries) }
{
    for (conflict, counts) in conflicts {
        push_conflict_line(text, conflict, counts)?;
    }
    Ok(())
}
