// A trace, written while its run goes on.
ghost use Rattle.std.specs.Prelude.{◌≡◌, ◌+◌, ◌<◌, ◌^◌, ◌≤◌, ℕ, [], IfErr, IfOk, OnErr, OnOk, length, string_bytes, take};
ghost use Rattle.std.specs.Io.KnownBytes.{Appends};
ghost use Rattle.image_load.specs.Contents.{started};
ghost use Rattle.net_core.specs.Limits.{machine_limit};
ghost use Rattle.net_core.specs.Machine.{settings_of, start_of, world_of};
ghost use Rattle.rules_riscv.specs.Starting.{world_at_start};
ghost use Rattle.tcc_world.specs.Faults.{Rose};
ghost use Rattle.watch_run.specs.Going.{Went};
ghost use Rattle.watch_run.specs.Telling.{lines_from};
ghost use Rattle.watch_run.specs.Traces.{BrokeOff, IsFurtherBegun, IsFurtherTrace, StandsBehind};
ghost use Rattle.watch_run.specs.Written.{IsEndCut, IsEnded, IsPut, IsStopped, IsTraceBroken, IsTraced};
ghost use Rattle.tcc_base.specs.Limits.{run_limit};

use crate::events::{Events, settings_are_allowed};
use crate::telling::{Shown, begin, event};
use image_load::Loaded;
use net_core::System;
use std::alloc::Global;
use tcc_base::{List, NoMemory};
use tcc_world::{Sink, SinkFailed, write_all};
use watch_trace::{push_head, push_tail};

/// So many bytes are held at least before they are written.
const PIECE: usize = 65_536;

/// Why a trace broke off.
#[derive(Clone, Copy, Debug, PartialEq, Eq)]
pub enum Broken {
    /// Memory ran out.
    Memory,
    /// The output failed.
    Output,
}

/// Writes all that is held, and holds nothing then.
fn put_all<O: Sink>(alloc: Global, held: &mut String, out: &mut O) -> Result<(), SinkFailed>
    ensures empty { OnOk result (string_bytes held.new ≡ []) }
    ensures written { OnOk result (Appends (O.page out.old).bytes (O.page out.new).bytes (string_bytes held.old)) }
    ensures cut { OnErr result ((n : ℕ) × (n < length (string_bytes held.old))
        × Appends (O.page out.old).bytes (O.page out.new).bytes (take n (string_bytes held.old))) }
    ensures cause { OnErr result (Rose (O.page out.old).faults (O.page out.new).faults) }
    ensures faults_stay { (O.page out.old).faults ≤ (O.page out.new).faults }
{
    write_all(out, held.as_bytes())?;
    *held = String::new(alloc);
    Ok(())
}

/// Writes what is held where that is a piece.
fn put_piece<O: Sink>(alloc: Global, held: &mut String, out: &mut O) -> Result<(), SinkFailed>
    ensures put { OnOk result (IsPut (string_bytes held.old) (string_bytes held.new) (O.page out.old).bytes (O.page out.new).bytes []) }
    ensures cut { OnErr result ((n : ℕ) × (n < length (string_bytes held.old))
        × Appends (O.page out.old).bytes (O.page out.new).bytes (take n (string_bytes held.old))) }
    ensures cause { OnErr result (Rose (O.page out.old).faults (O.page out.new).faults) }
    ensures faults_stay { (O.page out.old).faults ≤ (O.page out.new).faults }
{
    if held.len() < PIECE {
        return Ok(());
    }
    put_all(alloc, held, out)
}

/// Takes the events that are to come, at most so many, and appends what of them is shown. What is held is written piece by piece.
fn trace_events<E: Events, O: Sink>(
    alloc: Global,
    system: &mut System,
    events: &mut E,
    most: u32,
    shown: Shown,
    held: &mut String,
    out: &mut O,
) -> Result<(), Broken>
    requires few { system.old.events + most ≤ machine_limit }
    requires settled { system.old.unsent ≡ [] }
    requires enough { length (E.coming events.old (start_of system.old) (world_of system.old)) ≤ most }
    ensures went { OnOk result (Went system.old system.new (E.coming events.old (start_of system.old) (world_of system.old))) }
    ensures put { OnOk result (IsPut (string_bytes held.old) (string_bytes held.new) (O.page out.old).bytes (O.page out.new).bytes
        (lines_from shown system.old (E.coming events.old (start_of system.old) (world_of system.old)))) }
    ensures faults_stay { OnOk result ((O.page out.old).faults ≤ (O.page out.new).faults) }
    ensures stopped { IfErr result (IsStopped (lines_from shown system.old) (string_bytes held.old)
        (E.coming events.old (start_of system.old) (world_of system.old))
        (record { before = O.page out.old; after = O.page out.new })) }
{
    let mut facts = List::new(alloc);
    match begin(alloc, shown, system, held) {
        Ok(()) => {}
        Err(NoMemory) => return Err(Broken::Memory),
    }
    for number in 0..most {
        let Some(e) = events.next(system) else {
            return Ok(());
        };
        match event(alloc, system, e, shown, number, &mut facts, held) {
            Ok(()) => {}
            Err(NoMemory) => return Err(Broken::Memory),
        }
        match put_piece(alloc, held, out) {
            Ok(()) => {}
            Err(SinkFailed) => return Err(Broken::Output),
        }
    }
    Ok(())
}

/// Writes what is held, and the last lines: whether the run is done.
fn end_trace<O: Sink>(
    alloc: Global,
    system: &System,
    held: &mut String,
    out: &mut O,
) -> Result<bool, Broken>
    requires { system.now.unsent ≡ [] }
    ensures ended { IfOk result (IsEnded (settings_of system.now) (world_of system.now) (string_bytes held.old) system.now.events
        (O.page out.old).bytes (O.page out.new).bytes) }
    ensures cut { IfErr result (IsEndCut (settings_of system.now) (world_of system.now) (string_bytes held.old) system.now.events
        (record { before = O.page out.old; after = O.page out.new })) }
{
    match put_all(alloc, held, out) {
        Ok(()) => {}
        Err(SinkFailed) => return Err(Broken::Output),
    }
    let done = system.done();
    match push_tail(held, done, system.events()) {
        Ok(()) => {}
        Err(_) => return Err(Broken::Memory),
    }
    match put_all(alloc, held, out) {
        Ok(()) => Ok(done),
        Err(SinkFailed) => Err(Broken::Output),
    }
}

/// Writes the trace of the run of a machine that goes on, from its further events on: `shown.from` is counted from its next event.
pub(crate) fn trace_on<E: Events, O: Sink>(
    alloc: Global,
    system: &mut System,
    events: &mut E,
    most: u32,
    shown: Shown,
    out: &mut O,
) -> Result<bool, Broken>
    requires settled { system.old.unsent ≡ [] }
    requires few { system.old.events + most ≤ machine_limit }
    requires near { system.old.events + shown.from < 2 ^ 64 }
    requires enough { length (E.coming events.old (start_of system.old) (world_of system.old)) ≤ most }
    ensures traced { IfOk result (StandsBehind
        (IsFurtherTrace shown system.old (E.coming events.old (start_of system.old) (world_of system.old)))
        (O.page out.old).bytes (O.page out.new).bytes) }
    ensures broken { IfErr result (BrokeOff
        (IsFurtherTrace shown system.old (E.coming events.old (start_of system.old) (world_of system.old)))
        (IsFurtherBegun shown system.old (E.coming events.old (start_of system.old) (world_of system.old)))
        (record { before = O.page out.old; after = O.page out.new })) }
{
    settings_are_allowed(system.config());
    let mut held = String::new(alloc);
    match push_head(&mut held, system.config(), system.events() + shown.from) {
        Ok(()) => {}
        Err(_) => return Err(Broken::Memory),
    }
    match trace_events(alloc, system, events, most, shown, &mut held, out) {
        Ok(()) => end_trace(alloc, system, &mut held, out),
        Err(broken) => Err(broken),
    }
}

/// Writes the trace of the run from what was loaded by the events that are to come, at most so many: what each event of the window did,
/// and with records all of them where the window begins, and what each event changed. Whether the run is done then.
///
/// It is written in pieces as it comes, so a first part of it may have been written where it fails: but the last lines, which tell of
/// the end, stand there only where all of it does, or where the output failed within them. The time is that of the events and of their
/// texts, with records also that of looking at what each event may change; the memory is that of the machine, of a piece, and of what one
/// event does.
pub fn trace<E: Events, O: Sink>(
    alloc: Global,
    loaded: &Loaded,
    events: &mut E,
    most: u32,
    shown: Shown,
    out: &mut O,
) -> Result<bool, Broken>
    requires few { most ≤ run_limit }
    requires enough { length (E.coming events.old (started loaded.now) (world_at_start (started loaded.now))) ≤ most }
    ensures traced { IfOk result (IsTraced (started loaded.now) shown
        (E.coming events.old (started loaded.now) (world_at_start (started loaded.now))) (O.page out.old).bytes (O.page out.new).bytes) }
    ensures broken { IfErr result (IsTraceBroken (started loaded.now) shown
        (E.coming events.old (started loaded.now) (world_at_start (started loaded.now)))
        (record { before = O.page out.old; after = O.page out.new })) }
{
    match System::start(alloc, loaded) {
        Ok(mut system) => trace_on(alloc, &mut system, events, most, shown, out),
        Err(NoMemory) => Err(Broken::Memory),
    }
}
