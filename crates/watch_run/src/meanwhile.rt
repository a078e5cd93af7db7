// What is written of a run while it goes on, before it ends.
ghost use Rattle.std.specs.Prelude.{◌+◌, ◌≤◌, [], ◌≡◌, IfErr, OnOk, length};
ghost use Rattle.std.specs.Io.KnownBytes.{Appends};
ghost use Rattle.net_core.specs.Limits.{machine_limit};
ghost use Rattle.net_core.specs.Machine.{start_of, world_of};
ghost use Rattle.watch_run.specs.Looked.{CountedMore};
ghost use Rattle.watch_run.specs.Meanwhile.{IsFurtherStopped, IsFurtherText, IsSpaced, head_line};
ghost use Rattle.watch_run.specs.Tables.{IsCutIn};
ghost use Rattle.watch_run.specs.Written.{IsBehind};

use crate::consoles::{write_consoles, write_name};
use crate::events::Events;
use crate::tabling::{Rows, write_names, write_rows};
use crate::tracing::Broken;
use net_core::System;
use std::alloc::Global;
use tcc_world::Sink;
use watch_count::Counts;

/// What is written of a run while it goes on.
#[derive(Clone, Copy, Debug)]
pub enum Meanwhile {
    /// The rows of a table of its totals, but for the last.
    Rows(Rows),
    /// What its commits print: a line for each that printed something.
    Consoles,
}

/// Writes the line that stands before all that is written of a run: the names of the columns, or the name of the text. Its time and memory
/// are those of the line.
pub fn write_head<O: Sink>(alloc: Global, told: Meanwhile, out: &mut O) -> Result<(), Broken>
    ensures written { OnOk result (Appends (O.page out.old).bytes (O.page out.new).bytes (head_line told)) }
    ensures faults_stay { (O.page out.old).faults ≤ (O.page out.new).faults }
    ensures cut { IfErr result (IsCutIn (head_line told) (record { before = O.page out.old; after = O.page out.new })) }
{
    match told {
        Meanwhile::Rows(_) => write_names(alloc, out),
        Meanwhile::Consoles => write_name(out),
    }
}

/// Takes the events that are to come, at most so many, counts what they did, and writes what is told of them while they are taken.
pub(crate) fn write_meanwhile<E: Events, O: Sink>(
    alloc: Global,
    system: &mut System,
    events: &mut E,
    most: u64,
    told: Meanwhile,
    counts: &mut Counts,
    out: &mut O,
) -> Result<(), Broken>
    requires settled { system.old.unsent ≡ [] }
    requires few { system.old.events + most ≤ machine_limit }
    requires spaced { IsSpaced told }
    requires enough { length (E.coming events.old (start_of system.old) (world_of system.old)) ≤ most }
    ensures counted { OnOk result (CountedMore system.old system.new counts.old counts.new
        (E.coming events.old (start_of system.old) (world_of system.old))) }
    ensures written { OnOk result (IsBehind (IsFurtherText told system.old counts.old
        (E.coming events.old (start_of system.old) (world_of system.old))) (O.page out.old).bytes (O.page out.new).bytes) }
    ensures faults_stay { OnOk result ((O.page out.old).faults ≤ (O.page out.new).faults) }
    ensures broken { IfErr result (IsFurtherStopped told system.old counts.old
        (E.coming events.old (start_of system.old) (world_of system.old))
        (record { before = O.page out.old; after = O.page out.new })) }
{
    match told {
        Meanwhile::Rows(rows) => write_rows(alloc, system, events, most, rows, counts, out),
        Meanwhile::Consoles => write_consoles(alloc, system, events, most, counts, out),
    }
}
