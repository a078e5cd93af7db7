// Counts as rows. After want of memory a text may have more behind its old bytes.
ghost use Rattle.std.specs.Prelude.{◌≡◌, ◌∷◌, ◌++◌, [], OnOk, codes};
ghost use Rattle.row_text.specs.Rows.{row_text, rows_text};
ghost use Rattle.count_rows.specs.Rows.{phase_place, phases_numbers, attempts_numbers, accesses_numbers, table_word, core_numbers};
ghost use Rattle.count_rows.specs.Rows.{line_numbers, conflict_numbers, rows_of, core_rows, message_rows, line_rows, conflict_rows};
ghost use Rattle.count_rows.specs.Rows.{counts_text};

use row_text::push_row;
use std::collections::BTreeMap;
use tcc_base::{List, NoMemory};
use watch_count::{
    Accesses, Attempts, Conflict, ConflictCounts, CoreCounts, Counts, Evictions, Instructions,
    LineCounts, MessageCounts, PhaseName, Phases, Table,
};

/// A phase's place in the order of their list.
fn phase_place(phase: PhaseName) -> u64
    ensures { result ≡ phase_place phase }
{
    match phase {
        PhaseName::Running => 0,
        PhaseName::AwaitTid => 1,
        PhaseName::DoomedTid => 2,
        PhaseName::Probing => 3,
        PhaseName::Ready => 4,
        PhaseName::Overflowing => 5,
        PhaseName::Solo => 6,
        PhaseName::Halted => 7,
    }
}

fn push_attempts(text: &mut List<u8>, k: u64, counts: &Attempts) -> Result<(), NoMemory>
    ensures { OnOk result (text.new
        ≡ text.old ++ row_text (record { word = codes "attempts"; numbers = k ∷ attempts_numbers counts.now })) }
{
    push_row(
        text,
        b"attempts",
        &[
            k,
            counts.begun,
            counts.committed,
            counts.violated,
            counts.still_open,
            counts.unbroken,
            counts.row,
            counts.gave_up,
        ],
    )
}

fn push_accesses(text: &mut List<u8>, k: u64, counts: &Accesses) -> Result<(), NoMemory>
    ensures { OnOk result (text.new
        ≡ text.old ++ row_text (record { word = codes "accesses"; numbers = k ∷ accesses_numbers counts.now })) }
{
    push_row(
        text,
        b"accesses",
        &[
            k,
            counts.loads,
            counts.stores,
            counts.changes,
            counts.misses,
            counts.fills,
            counts.overflows,
        ],
    )
}

fn push_phases(text: &mut List<u8>, k: u64, counts: &Phases, now: PhaseName) -> Result<(), NoMemory>
    ensures { OnOk result (text.new
        ≡ text.old ++ row_text (record { word = codes "phases"; numbers = k ∷ phases_numbers counts.now now })) }
{
    push_row(
        text,
        b"phases",
        &[
            k,
            counts.running,
            counts.await_tid,
            counts.doomed_tid,
            counts.probing,
            counts.ready,
            counts.overflowing,
            counts.solo,
            counts.halted,
            phase_place(now),
        ],
    )
}

/// Appends a core's row of a table.
fn push_core_row(
    text: &mut List<u8>,
    table: Table,
    k: u64,
    core: &CoreCounts,
) -> Result<(), NoMemory>
    ensures { OnOk result (text.new
        ≡ text.old ++ row_text (record { word = table_word table; numbers = k ∷ core_numbers table core.now })) }
{
    match table {
        Table::Attempts => push_attempts(text, k, &core.attempts),
        Table::Instructions => {
            let counts = &core.instructions;
            push_row(
                text,
                b"instructions",
                &[
                    k,
                    counts.executed,
                    counts.committed,
                    counts.lost,
                    counts.still_open,
                ],
            )
        }
        Table::Accesses => push_accesses(text, k, &core.accesses),
        Table::Evictions => {
            let counts = &core.evictions;
            push_row(
                text,
                b"evictions",
                &[k, counts.clean, counts.dirty, counts.modified],
            )
        }
        Table::Phases => push_phases(text, k, &core.phases, core.phase),
    }
}

/// Appends a table of all cores.
fn push_table(text: &mut List<u8>, table: Table, counts: &Counts) -> Result<(), NoMemory>
    ensures { OnOk result (text.new ≡ text.old ++ rows_text (rows_of (core_rows table counts.now.cores))) }
{
    for k in 0..counts.core_count() {
        if let Some(core) = counts.core(k) {
            push_core_row(text, table, k as u64, &core)?;
        }
    }
    Ok(())
}

fn push_messages(text: &mut List<u8>, messages: &[MessageCounts; 15]) -> Result<(), NoMemory>
    ensures { OnOk result (text.new ≡ text.old ++ rows_text (rows_of (message_rows messages.now))) }
{
    for (k, counts) in messages.iter().enumerate() {
        push_row(
            text,
            b"messages",
            &[
                k as u64,
                counts.sent,
                counts.took,
                counts.dropped,
                counts.asked,
            ],
        )?;
    }
    Ok(())
}

fn push_line(text: &mut List<u8>, line: u32, counts: &LineCounts) -> Result<(), NoMemory>
    ensures { OnOk result (text.new ≡ text.old ++ row_text (record { word = codes "at-line"; numbers = line_numbers (line, counts.now) })) }
{
    push_row(
        text,
        b"at-line",
        &[
            line as u64,
            counts.misses,
            counts.invalidations,
            counts.violations,
            counts.lost,
        ],
    )
}

fn push_lines(text: &mut List<u8>, lines: &BTreeMap<u32, LineCounts>) -> Result<(), NoMemory>
    ensures { OnOk result (text.new ≡ text.old ++ rows_text (rows_of (line_rows lines.now.entries))) }
{
    for (line, counts) in lines {
        push_line(text, *line, counts)?;
    }
    Ok(())
}

fn push_conflict(
    text: &mut List<u8>,
    conflict: &Conflict,
    counts: &ConflictCounts,
) -> Result<(), NoMemory>
    ensures { OnOk result (text.new
        ≡ text.old ++ row_text (record { word = codes "conflict"; numbers = conflict_numbers (conflict.now, counts.now) })) }
{
    push_row(
        text,
        b"conflict",
        &[
            conflict.by as u64,
            conflict.victim as u64,
            conflict.line as u64,
            counts.violations,
            counts.lost,
        ],
    )
}

fn push_conflicts(
    text: &mut List<u8>,
    conflicts: &BTreeMap<Conflict, ConflictCounts>,
) -> Result<(), NoMemory>
    ensures { OnOk result (text.new ≡ text.old ++ rows_text (rows_of (conflict_rows conflicts.now.entries))) }
{
    for (conflict, counts) in conflicts {
        push_conflict(text, conflict, counts)?;
    }
    Ok(())
}

/// Appends the text of counts: what no number is above, the five tables of the cores, the kinds of message, the lines and the conflicts.
/// It takes time for each byte that it writes, and fails only for want of memory; then the text may have more behind its old bytes.
pub fn push_counts(text: &mut List<u8>, counts: &Counts) -> Result<(), NoMemory>
    ensures { OnOk result (text.new ≡ text.old ++ counts_text counts.now) }
{
    push_row(text, b"counted", &[counts.bound()])?;
    push_table(text, Table::Attempts, counts)?;
    push_table(text, Table::Instructions, counts)?;
    push_table(text, Table::Accesses, counts)?;
    push_table(text, Table::Evictions, counts)?;
    push_table(text, Table::Phases, counts)?;
    push_messages(text, counts.messages())?;
    push_lines(text, counts.lines())?;
    push_conflicts(text, counts.conflicts())?;
    Ok(())
}
