// A table of the totals of a run, written while the run goes on.
ghost use Rattle.std.specs.Prelude.{◌≡◌, ◌+◌, ◌≤◌, ◌↔◌, [], Bool, IfErr, IfOk, IsTrue, OnOk, false, length, if◌then◌else◌};
ghost use Rattle.std.specs.Io.KnownBytes.{Appends};
ghost use Rattle.image_load.specs.Contents.{started};
ghost use Rattle.net_core.specs.Limits.{machine_limit};
ghost use Rattle.net_core.specs.Machine.{history_of, settings_of, start_of, world_of};
ghost use Rattle.rules_riscv.specs.Starting.{at_start, world_at_start};
ghost use Rattle.rules_tcc.specs.Seen.{IsDone};
ghost use Rattle.watch_count.specs.Csv.{csv_row, names_row};
ghost use Rattle.watch_run.specs.Looked.{CountedMore};
ghost use Rattle.watch_run.specs.Meanwhile.{IsFurtherStopped, IsFurtherText};
ghost use Rattle.watch_run.specs.Tables.{IsCutIn, IsTableBroken, IsTabled, is_due};
ghost use Rattle.watch_run.specs.Written.{IsBehind};
ghost use Rattle.watch_run.specs.declared.meanwhile.Meanwhile.TheVariants as meanwhile;
ghost use Rattle.tcc_base.specs.Settings.{IsAllowed};

use crate::counting::{count_event, forget_passed};
use crate::events::{Events, settings_are_allowed};
use crate::tracing::Broken;
use image_load::Loaded;
use net_core::System;
use std::alloc::Global;
use tcc_base::{List, NoMemory};
use tcc_world::{Sink, SinkFailed, write_all};
use watch_count::{Counts, push_csv_names};

/// Which rows a table has.
#[derive(Clone, Copy, Debug)]
pub struct Rows {
    /// There is a row after each so many events, and one after the last.
    pub every: u64,
    /// The seed and the number of steps of the run, where it has them.
    pub seed: Option<(u64, u64)>,
}

/// Writes the row of the names, with which a table begins.
pub(crate) fn write_names<O: Sink>(alloc: Global, out: &mut O) -> Result<(), Broken>
    ensures written { OnOk result (Appends (O.page out.old).bytes (O.page out.new).bytes names_row) }
    ensures faults_stay { (O.page out.old).faults ≤ (O.page out.new).faults }
    ensures cut { IfErr result (IsCutIn names_row (record { before = O.page out.old; after = O.page out.new })) }
{
    let mut row = String::new(alloc);
    match push_csv_names(&mut row) {
        Ok(()) => {}
        Err(_) => return Err(Broken::Memory),
    }
    match write_all(out, row.as_bytes()) {
        Ok(()) => Ok(()),
        Err(SinkFailed) => Err(Broken::Output),
    }
}

/// Writes the row of what was counted of the events so far. It is made in `row`.
fn write_row<O: Sink>(
    system: &System,
    counts: &Counts,
    rows: Rows,
    done: bool,
    row: &mut String,
    out: &mut O,
) -> Result<(), Broken>
    ensures written { OnOk result (Appends (O.page out.old).bytes (O.page out.new).bytes
        (csv_row (settings_of system.now) rows.seed done system.now.events counts.now)) }
    ensures faults_stay { (O.page out.old).faults ≤ (O.page out.new).faults }
    ensures cut { IfErr result (IsCutIn (csv_row (settings_of system.now) rows.seed done system.now.events counts.now)
        (record { before = O.page out.old; after = O.page out.new })) }
{
    row.clear();
    match counts.push_csv_row(row, system.config(), rows.seed, done, system.events()) {
        Ok(()) => {}
        Err(NoMemory) => return Err(Broken::Memory),
    }
    match write_all(out, row.as_bytes()) {
        Ok(()) => Ok(()),
        Err(SinkFailed) => Err(Broken::Output),
    }
}

/// Writes that row where there is one after so many events and others follow.
fn write_due<O: Sink>(
    system: &System,
    counts: &Counts,
    rows: Rows,
    row: &mut String,
    out: &mut O,
) -> Result<(), Broken>
    requires { 1 ≤ rows.every }
    ensures written { OnOk result (Appends (O.page out.old).bytes (O.page out.new).bytes (if is_due rows system.now.events
        then csv_row (settings_of system.now) rows.seed false system.now.events counts.now else [])) }
    ensures faults_stay { (O.page out.old).faults ≤ (O.page out.new).faults }
    ensures cut { IfErr result (IsCutIn (if is_due rows system.now.events
        then csv_row (settings_of system.now) rows.seed false system.now.events counts.now else [])
        (record { before = O.page out.old; after = O.page out.new })) }
{
    let events = system.events();
    if events == 0 || events % rows.every != 0 {
        return Ok(());
    }
    write_row(system, counts, rows, false, row, out)
}

/// Takes the events that are to come, at most so many, counts what they did, and writes all rows but the last.
pub(crate) fn write_rows<E: Events, O: Sink>(
    alloc: Global,
    system: &mut System,
    events: &mut E,
    most: u64,
    rows: Rows,
    counts: &mut Counts,
    out: &mut O,
) -> Result<(), Broken>
    requires settled { system.old.unsent ≡ [] }
    requires few { system.old.events + most ≤ machine_limit }
    requires every { 1 ≤ rows.every }
    requires enough { length (E.coming events.old (start_of system.old) (world_of system.old)) ≤ most }
    ensures counted { OnOk result (CountedMore system.old system.new counts.old counts.new
        (E.coming events.old (start_of system.old) (world_of system.old))) }
    ensures written { OnOk result (IsBehind (IsFurtherText (meanwhile.Rows rows) system.old counts.old
        (E.coming events.old (start_of system.old) (world_of system.old))) (O.page out.old).bytes (O.page out.new).bytes) }
    ensures faults_stay { OnOk result ((O.page out.old).faults ≤ (O.page out.new).faults) }
    ensures broken { IfErr result (IsFurtherStopped (meanwhile.Rows rows) system.old counts.old
        (E.coming events.old (start_of system.old) (world_of system.old))
        (record { before = O.page out.old; after = O.page out.new })) }
{
    let mut row = String::new(alloc);
    let mut facts = List::new(alloc);
    let mut kept = 0;
    for _ in 0..most {
        let Some(e) = events.next(system) else {
            return Ok(());
        };
        write_due(system, counts, rows, &mut row, out)?;
        match count_event(system, e, &mut facts, counts) {
            Ok(_) => {}
            Err(NoMemory) => return Err(Broken::Memory),
        }
        forget_passed(system, &mut kept);
    }
    Ok(())
}

/// Writes the last row, and answers whether the run is done.
fn write_last<O: Sink>(
    alloc: Global,
    system: &System,
    counts: &Counts,
    rows: Rows,
    out: &mut O,
) -> Result<bool, Broken>
    ensures written { IfOk result (λ done. (IsTrue done ↔ IsDone (settings_of system.now) (world_of system.now))
        × Appends (O.page out.old).bytes (O.page out.new).bytes
        (csv_row (settings_of system.now) rows.seed done system.now.events counts.now)) }
    ensures cut { IfErr result (λ broken. (done : Bool) × (IsTrue done ↔ IsDone (settings_of system.now) (world_of system.now))
        × IsCutIn (csv_row (settings_of system.now) rows.seed done system.now.events counts.now)
        (record { before = O.page out.old; after = O.page out.new }) broken) }
{
    let done = system.done();
    let mut row = String::new(alloc);
    write_row(system, counts, rows, done, &mut row, out)?;
    Ok(done)
}

/// Writes the table of the run of a machine that has taken no event yet.
fn table_from_start<E: Events, O: Sink>(
    alloc: Global,
    system: &mut System,
    events: &mut E,
    most: u64,
    rows: Rows,
    out: &mut O,
) -> Result<bool, Broken>
    requires allowed { IsAllowed (settings_of system.old) }
    requires first { history_of system.old ≡ at_start (start_of system.old) }
    requires none { system.old.events ≡ 0 }
    requires settled { system.old.unsent ≡ [] }
    requires few { most ≤ machine_limit }
    requires every { 1 ≤ rows.every }
    requires enough { length (E.coming events.old (start_of system.old) (world_of system.old)) ≤ most }
    ensures table { IfOk result (IsTabled rows (start_of system.old)
        (E.coming events.old (start_of system.old) (world_of system.old)) (O.page out.old).bytes (O.page out.new).bytes) }
    ensures broken { IfErr result (IsTableBroken rows (start_of system.old)
        (E.coming events.old (start_of system.old) (world_of system.old))
        (record { before = O.page out.old; after = O.page out.new })) }
{
    let mut counts = match Counts::new(alloc, system.config()) {
        Ok(counts) => counts,
        Err(NoMemory) => return Err(Broken::Memory),
    };
    write_names(alloc, out)?;
    write_rows(alloc, system, events, most, rows, &mut counts, out)?;
    write_last(alloc, system, &counts, rows, out)
}

/// Counts what the events that are to come, at most so many, do in the run from what was loaded, and writes it as a table: the names, a
/// row after each so many events where others follow, and one after the last. Whether the run is done then.
///
/// Each row is written as it comes, so a first part of the table may have been written where it fails: but nothing of the last row, which
/// tells of the end, unless the output failed within it. The time is that of counting, and that of a row's text for each; the memory is
/// that of counting, and that of one row.
pub fn count_every<E: Events, O: Sink>(
    alloc: Global,
    loaded: &Loaded,
    events: &mut E,
    most: u64,
    rows: Rows,
    out: &mut O,
) -> Result<bool, Broken>
    requires few { most ≤ machine_limit }
    requires every { 1 ≤ rows.every }
    requires enough { length (E.coming events.old (started loaded.now) (world_at_start (started loaded.now))) ≤ most }
    ensures table { IfOk result (IsTabled rows (started loaded.now)
        (E.coming events.old (started loaded.now) (world_at_start (started loaded.now))) (O.page out.old).bytes (O.page out.new).bytes) }
    ensures broken { IfErr result (IsTableBroken rows (started loaded.now)
        (E.coming events.old (started loaded.now) (world_at_start (started loaded.now)))
        (record { before = O.page out.old; after = O.page out.new })) }
{
    settings_are_allowed(loaded.config());
    match System::start(alloc, loaded) {
        Ok(mut system) => table_from_start(alloc, &mut system, events, most, rows, out),
        Err(NoMemory) => Err(Broken::Memory),
    }
}
