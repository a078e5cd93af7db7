// What commits print, written as they come.
ghost use Rattle.std.specs.Prelude.{◌≡◌, ◌+◌, ◌++◌, ◌≤◌, [], IfErr, IfOk, OnOk, length, string_bytes};
ghost use Rattle.std.specs.Io.KnownBytes.{Appends};
ghost use Rattle.std.specs.List.{flat_map};
ghost use Rattle.base_digits.specs.Digits.{hex};
ghost use Rattle.net_core.specs.Limits.{machine_limit};
ghost use Rattle.net_core.specs.Machine.{start_of, world_of};
ghost use Rattle.watch_machine.specs.Watched.{told_commit};
ghost use Rattle.watch_run.specs.Consoles.{ConsolesJoin, consoles_head, noted_text, printed_line};
ghost use Rattle.watch_run.specs.Looked.{CountedMore};
ghost use Rattle.watch_run.specs.Meanwhile.{IsFurtherStopped, IsFurtherText};
ghost use Rattle.watch_run.specs.Tables.{IsCutIn};
ghost use Rattle.watch_run.specs.Written.{IsBehind};
ghost use Rattle.watch_run.specs.declared.meanwhile.Meanwhile.TheVariants as meanwhile;

use crate::counting::{count_event, forget_passed};
use crate::events::Events;
use crate::tracing::Broken;
use base_digits::push_hex_byte;
use net_core::{Step, System};
use std::alloc::{AllocError, Global};
use tcc_base::{Commit, List, NoMemory};
use tcc_world::{Sink, SinkFailed, write_all};
use watch_count::Counts;
use watch_machine::noted;

/// Writes the line with which consoles begin.
pub(crate) fn write_name<O: Sink>(out: &mut O) -> Result<(), Broken>
    ensures written { OnOk result (Appends (O.page out.old).bytes (O.page out.new).bytes consoles_head) }
    ensures faults_stay { (O.page out.old).faults ≤ (O.page out.new).faults }
    ensures cut { IfErr result (IsCutIn consoles_head (record { before = O.page out.old; after = O.page out.new })) }
{
    match write_all(out, b"tcc-consoles 1\n") {
        Ok(()) => Ok(()),
        Err(SinkFailed) => Err(Broken::Output),
    }
}

/// Appends two digits for each byte.
fn push_bytes(text: &mut String, bytes: &[u8]) -> Result<(), AllocError>
    ensures { OnOk result (string_bytes text.new ≡ string_bytes text.old ++ flat_map (hex 2) bytes.now) }
{
    for byte in bytes {
        push_hex_byte(text, *byte)?;
    }
    Ok(())
}

/// Appends the line of what a commit printed, where it printed something.
#[tactic(auto, unfolding(crate::specs::Consoles::printed_line))]
fn push_printed(text: &mut String, commit: &Commit) -> Result<(), AllocError>
    ensures { OnOk result (string_bytes text.new ≡ string_bytes text.old ++ printed_line commit.now) }
{
    if commit.console.items.is_empty() {
        return Ok(());
    }
    let tid = commit.tid.0;
    let core = commit.core.0;
    write!(text, "printed {tid} {core} ")?;
    push_bytes(text, &commit.console.items)?;
    text.push_str("\n")
}

/// Writes that line. It is made in `line`.
fn write_printed<O: Sink>(commit: &Commit, line: &mut String, out: &mut O) -> Result<(), Broken>
    ensures written { OnOk result (Appends (O.page out.old).bytes (O.page out.new).bytes (printed_line commit.now)) }
    ensures faults_stay { (O.page out.old).faults ≤ (O.page out.new).faults }
    ensures cut { IfErr result (IsCutIn (printed_line commit.now) (record { before = O.page out.old; after = O.page out.new })) }
{
    line.clear();
    match push_printed(line, commit) {
        Ok(()) => {}
        Err(_) => return Err(Broken::Memory),
    }
    match write_all(out, line.as_bytes()) {
        Ok(()) => Ok(()),
        Err(SinkFailed) => Err(Broken::Output),
    }
}

/// Writes the line of the commit that the last event noted, where it noted one that printed something.
fn write_noted<O: Sink>(
    system: &System,
    step: Step,
    line: &mut String,
    out: &mut O,
) -> Result<(), Broken>
    ensures written { OnOk result (Appends (O.page out.old).bytes (O.page out.new).bytes
        (noted_text (told_commit step system.now.commits))) }
    ensures faults_stay { (O.page out.old).faults ≤ (O.page out.new).faults }
    ensures cut { IfErr result (IsCutIn (noted_text (told_commit step system.now.commits))
        (record { before = O.page out.old; after = O.page out.new })) }
{
    match noted(system.commits(), step) {
        Some(commit) => write_printed(commit, line, out),
        None => Ok(()),
    }
}

/// Takes the events that are to come, at most so many, counts what they did, and writes what their commits print.
pub(crate) fn write_consoles<E: Events, O: Sink>(
    alloc: Global,
    system: &mut System,
    events: &mut E,
    most: u64,
    counts: &mut Counts,
    out: &mut O,
) -> Result<(), Broken>
    requires settled { system.old.unsent ≡ [] }
    requires few { system.old.events + most ≤ machine_limit }
    requires enough { length (E.coming events.old (start_of system.old) (world_of system.old)) ≤ most }
    ensures counted { OnOk result (CountedMore system.old system.new counts.old counts.new
        (E.coming events.old (start_of system.old) (world_of system.old))) }
    ensures written { OnOk result (IsBehind (IsFurtherText meanwhile.Consoles system.old counts.old
        (E.coming events.old (start_of system.old) (world_of system.old))) (O.page out.old).bytes (O.page out.new).bytes) }
    ensures faults_stay { OnOk result ((O.page out.old).faults ≤ (O.page out.new).faults) }
    ensures broken { IfErr result (IsFurtherStopped meanwhile.Consoles system.old counts.old
        (E.coming events.old (start_of system.old) (world_of system.old))
        (record { before = O.page out.old; after = O.page out.new })) }
{
    let mut line = String::new(alloc);
    let mut facts = List::new(alloc);
    let mut kept = 0;
    for _ in 0..most {
        let Some(e) = events.next(system) else {
            return Ok(());
        };
        let step = match count_event(system, e, &mut facts, counts) {
            Ok(step) => step,
            Err(NoMemory) => return Err(Broken::Memory),
        };
        write_noted(system, step, &mut line, out)?;
        forget_passed(system, &mut kept);
    }
    Ok(())
}

/// A law: what is written of a run's first events, and then of the others, is what is written of all.
pub fn consoles_join()
    ensures { ConsolesJoin }
{}
