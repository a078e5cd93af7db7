// The program as one call: its words, files, outputs and gate in, its status out.
ghost use Rattle.std.specs.Prelude.{◌≡◌, ◌≢◌, ℕ, List as Seq, length, map, IfErr, IfOk, OnErr, OnOk, None, Some};
ghost use Rattle.std.specs.String.{string_bytes};
ghost use Rattle.image_load.specs.Contents.{started};
ghost use Rattle.tcc_cli.specs.Commands.{fault_from, files_of, machine_of, record_of, start_from};
ghost use Rattle.tcc_cli.specs.Failing.{IsPrinted, IsStopped, Tells};
ghost use Rattle.tcc_cli.specs.Lines.{IsWhole, IsCut};
ghost use Rattle.tcc_cli.specs.Reading.{RefusedImages};
ghost use Rattle.tcc_cli.specs.Comes.{Comes};
ghost use Rattle.tcc_cli.specs.Top.{Caused, EndsOf};
ghost use Rattle.tcc_words.specs.Bounds.{IsInBounds};

use crate::bus_looks::{look_on_bus, trace_bus};
use crate::files::{names, read_files};
use crate::following::run_following;
use crate::growing::{grow, grows};
use crate::images::{bytes, load_files};
use crate::lists::execute;
use crate::long::{run_from_checkpoint, run_from_seed, trace_from_checkpoint};
use crate::looks::{look_by_schedule, look_by_seed};
use crate::on_bus::run_on_bus;
use crate::outcomes::write_outcomes;
use crate::refusal::{Refusal, refuse};
use crate::reports::Finished;
use crate::running::{RunPlan, run_again, run_and_tell, run_phased, run_recorded, run_trial};
use crate::status::Status;
use crate::totals::{totals_by_schedule, totals_by_seed};
use crate::traces::{trace_by_schedule, trace_by_seed};
use image_load::Loaded;
use std::alloc::Global;
use std::sync::Wait;
use std::thread::Threads;
use tcc_base::{List, NoMemory};
use tcc_words::{Begin, Command, Source, View, commands_are_in_bounds, settings};
use tcc_world::{Gate, Sink, SinkFailed, Store, write_all};
use watch_run::Shown;
use work_gen::workload;

/// Does what the words ask for, and answers how that ended.
///
/// `run [..] IMAGE..` runs images for at most so many events that a seed picks or that host threads make, writes the schedule to a file
/// where one is named, and then the report to `out`; `replay [..] SCHEDULE IMAGE..` runs the schedule of a file whole and writes the
/// report; `serial [..] REPORT IMAGE..` executes the commits that a report lists on the plain machine and writes its report; `trial [..]
/// KIND NUMBER` runs a workload and writes a summary; `why [..] SCHEDULE IMAGE..` runs the schedule of a file whole and writes why each
/// message waits that is in flight then, and what can happen next; `phases [..] IMAGE..` runs images as `run` does by a seed, but holds
/// back the requests of later phases, and writes the phase of each commit and then the report; `bus [..] IMAGE..` runs images on the
/// machine with one bus for at most so many events that a seed picks, and writes its report; `trace [..] IMAGE..` writes what each event of
/// a run does while it goes on, with `--states` also which records it changes, `count [..] IMAGE..` how often what happened in it, with
/// `--every` the totals while it goes on, with `--consoles` also what its commits print, and `state [..] IMAGE..` the state after it: a run
/// as `run` makes it by a seed, or as `bus` does, or by the schedule of a file; `outcomes [..] IMAGE..` searches all results that the
/// images can have, on whatever machine, and writes their table; `follow [..] LIST IMAGE..` runs images for at most 4,194,304 events so
/// that their transactions commit in the order of a list, whose lines are as a report's, writes the schedule to a file where one is named,
/// and then the report. With `--resume` `trace`, `count` and `state` go on from the checkpoint in a file, for so many events more, and with
/// `--checkpoint` `count` writes the run down to a file at its end, from which others go on.
///
/// `Done`: at the end every core has halted, nothing is in flight (no packet on the bus) and no frame has a dirty word, or the list ran to
/// its end, or the table has all results. `Stopped`: the machine isn't done, and a run has then taken all the events that were asked for;
/// or the search isn't. With both the whole text was written. `Words`: the words are no command, or a value isn't allowed. `Image`: the
/// files were read, and one isn't an image. `Schedule`: the schedule or list isn't in its grammar, has other settings than the command's,
/// or can't be run to its end. `StoreFault`: a file wasn't read, and this is the first, or the record wasn't written. `SinkFault`: `out`
/// failed, after a first part of the text. `Memory`: there wasn't enough memory; no clause says that memory was short. The record is then
/// as it was, or whole, with the schedule of the run; of a trace or a table a first part may have been written.
///
/// Refusals come in this order: words, files that aren't read (the schedule, list or checkpoint first, then the images), images, the
/// schedule, list or checkpoint, the record, the output. Nothing is written to `out` with a refusal but `SinkFault`, and of what is written
/// while a run goes on with `Memory` and, before its checkpoint, with `StoreFault`. A refusal writes its line to `err`, as far as `err`
/// takes it; nothing else is written there. Of the contents that `files` tells none changes but the record's.
///
/// With `--threads` it starts so many threads, and may wait for them and for the locks that they share: that it returns then isn't proved.
/// Each passes the gate before each of its turns, of at most so many acts of a node as `--batch` says. Without `--threads` it waits for
/// nobody.
pub fn tcc_main<R: Threads + Wait + Sync, F: Store, O: Sink, E: Sink, G: Gate + Sync>(
    rt: &R,
    alloc: Global,
    words: &[&str],
    files: &mut F,
    out: &mut O,
    err: &mut E,
    gate: &G,
) -> Status
    ensures { Caused (map (λ w. w.now) words.now)
        (record {
          files = record { before = F.disk files.old; after = F.disk files.new };
          out = record { before = O.page out.old; after = O.page out.new };
        })
        (record { before = E.page err.old; after = E.page err.new })
        result }
{
    commands_are_in_bounds();
    match settings(alloc, words) {
        Err(fault) => refuse(err, &Refusal::of_words(fault)),
        Ok(command) => match carry_out(rt, alloc, &command, files, out, gate) {
            Ok(true) => Status::Done,
            Ok(false) => Status::Stopped,
            Err(refusal) => refuse(err, &refusal),
        },
    }
}

/// Does what a command asks for, up to the written text: whether what it tells of has run to its end, or why it was refused.
fn carry_out<'a, R: Threads + Wait + Sync, F: Store, O: Sink, G: Gate + Sync>(
    rt: &R,
    alloc: Global,
    command: &'a Command,
    files: &mut F,
    out: &mut O,
    gate: &G,
) -> Result<bool, Refusal<'a>>
    requires { IsInBounds command.now }
    ensures ends { EndsOf command.now
        (record {
          files = record { before = F.disk files.old; after = F.disk files.new };
          out = record { before = O.page out.old; after = O.page out.new };
        })
        result }
    ensures others { (n : Seq ℕ) → record_of command.now ≢ Some n → (F.disk files.new).contents n ≡ (F.disk files.old).contents n }
{
    let names = match names(alloc, command) {
        Ok(names) => names,
        Err(NoMemory) => return Err(Refusal::Memory),
    };
    let read = match read_files(alloc, &names, files) {
        Ok(read) => read,
        Err(refusal) => return Err(refusal),
    };
    let loaded = match load(alloc, command, &read) {
        Ok(loaded) => loaded,
        Err(refusal) => return Err(refusal),
    };
    tell(rt, alloc, command, &loaded, &read, files, out, gate)
}

/// The memory from which a command's machine starts, where its files have these bytes; or the first image that is refused.
fn load<'a>(alloc: Global, command: &Command, read: &[List<u8>]) -> Result<Loaded, Refusal<'a>>
    requires bounds { IsInBounds command.now }
    requires count { length read.now ≡ length (files_of command.now) }
    ensures start { IfOk result (λ loaded. started loaded ≡ start_from command.now read.now) }
    ensures settings { IfOk result (λ loaded. loaded.settings ≡ (machine_of command.now).config) }
    ensures accepted { OnOk result (fault_from command.now read.now ≡ None) }
    ensures refused { IfErr result (RefusedImages (fault_from command.now read.now)) }
{
    match command {
        Command::Run { machine, .. }
        | Command::Phases { machine, .. }
        | Command::Bus { machine, .. }
        | Command::LookOnBus { machine, .. }
        | Command::Outcomes { machine, .. }
        | Command::Look {
            machine,
            source: Source::Seed { .. },
            ..
        }
        | Command::Long {
            machine,
            begin: Begin::Seed(_),
            ..
        } => load_files(alloc, machine.raw, &machine.config, read),
        Command::Replay { machine, .. }
        | Command::Serial { machine, .. }
        | Command::Follow { machine, .. }
        | Command::Why { machine, .. }
        | Command::Look {
            machine,
            source: Source::Schedule(_),
            ..
        }
        | Command::Long {
            machine,
            begin: Begin::Checkpoint(_),
            ..
        } => { load_files(alloc, machine.raw, &machine.config, &read[1..]) }
        Command::Trial {
            config,
            work,
            number,
            ..
        } => match workload(alloc, *work, *number) {
            Ok(items) => load_files(alloc, true, config, &[List { items }]),
            Err(NoMemory) => Err(Refusal::Memory),
        },
    }
}

/// Runs what a command asks for from what was loaded, and writes the record and the text: whether it tells of an end.
fn tell<'a, R: Threads + Wait + Sync, F: Store, O: Sink, G: Gate + Sync>(
    rt: &R,
    alloc: Global,
    command: &'a Command,
    loaded: &Loaded,
    read: &[List<u8>],
    files: &mut F,
    out: &mut O,
    gate: &G,
) -> Result<bool, Refusal<'a>>
    requires bounds { IsInBounds command.now }
    requires count { length read.now ≡ length (files_of command.now) }
    requires start { started loaded.now ≡ start_from command.now read.now }
    requires settings { loaded.now.settings ≡ (machine_of command.now).config }
    ensures tells { Tells command.now read.now
        (record { before = F.disk files.old; after = F.disk files.new })
        (record { before = O.page out.old; after = O.page out.new })
        result }
    ensures others { (n : Seq ℕ) → record_of command.now ≢ Some n → (F.disk files.new).contents n ≡ (F.disk files.old).contents n }
{
    match command {
        Command::Look {
            source: Source::Seed { steps, seed },
            view: View::Trace { from, to, states },
            ..
        } => trace_by_seed(
            alloc,
            loaded,
            *seed,
            *steps,
            Shown {
                from: *from,
                states: *states,
            },
            *to,
            out,
        ),
        Command::Look {
            machine,
            source: Source::Schedule(_),
            view: View::Trace { from, to, states },
            ..
        } => trace_by_schedule(
            alloc,
            loaded,
            &machine.config,
            bytes(&read[0]),
            Shown {
                from: *from,
                states: *states,
            },
            *to,
            out,
        ),
        Command::Look {
            source: Source::Seed { steps, seed },
            view: View::Rows { every },
            ..
        } => totals_by_seed(alloc, loaded, *seed, *steps, *every, out),
        Command::Look {
            machine,
            source: Source::Schedule(_),
            view: View::Rows { every },
            ..
        } => totals_by_schedule(alloc, loaded, &machine.config, bytes(&read[0]), *every, out),
        Command::LookOnBus {
            steps,
            seed,
            view: View::Trace { from, to, states },
            ..
        } => trace_bus(
            alloc,
            loaded,
            *seed,
            *steps,
            Shown {
                from: *from,
                states: *states,
            },
            *to,
            out,
        ),
        Command::Long {
            begin: Begin::Checkpoint(_),
            steps,
            view: View::Trace { from, to, states },
            ..
        } => trace_from_checkpoint(
            alloc,
            loaded,
            bytes(&read[0]),
            *steps,
            Shown {
                from: *from,
                states: *states,
            },
            *to,
            out,
        ),
        Command::Long {
            begin,
            steps,
            view,
            keep,
            ..
        } if grows(*view) => grow(alloc, loaded, begin, read, *steps, *view, keep, files, out),
        Command::Outcomes { limits, tell, .. } => {
            write_outcomes(alloc, loaded, *limits, *tell, out)
        }
        _ => print(rt, alloc, command, loaded, read, files, out, gate),
    }
}

/// Runs what a command asks for whose text is written when it is made.
fn print<'a, R: Threads + Wait + Sync, F: Store, O: Sink, G: Gate + Sync>(
    rt: &R,
    alloc: Global,
    command: &'a Command,
    loaded: &Loaded,
    read: &[List<u8>],
    files: &mut F,
    out: &mut O,
    gate: &G,
) -> Result<bool, Refusal<'a>>
    requires printed { IsPrinted command.now }
    requires bounds { IsInBounds command.now }
    requires count { length read.now ≡ length (files_of command.now) }
    requires start { started loaded.now ≡ start_from command.now read.now }
    requires settings { loaded.now.settings ≡ (machine_of command.now).config }
    ensures tells { Tells command.now read.now
        (record { before = F.disk files.old; after = F.disk files.new })
        (record { before = O.page out.old; after = O.page out.new })
        result }
    ensures others { (n : Seq ℕ) → record_of command.now ≢ Some n → (F.disk files.new).contents n ≡ (F.disk files.old).contents n }
{
    let finished = match finish(rt, alloc, command, loaded, read, files, gate) {
        Ok(finished) => finished,
        Err(refusal) => return Err(refusal),
    };
    match show(&finished, out) {
        Ok(done) => Ok(done),
        Err(SinkFailed) => Err(Refusal::Output),
    }
}

/// Runs what a command asks for from what was loaded, and writes the record: the text to come, and whether it tells of an end.
fn finish<'a, R: Threads + Wait + Sync, F: Store, G: Gate + Sync>(
    rt: &R,
    alloc: Global,
    command: &'a Command,
    loaded: &Loaded,
    read: &[List<u8>],
    files: &mut F,
    gate: &G,
) -> Result<Finished, Refusal<'a>>
    requires printed { IsPrinted command.now }
    requires bounds { IsInBounds command.now }
    requires count { length read.now ≡ length (files_of command.now) }
    requires start { started loaded.now ≡ start_from command.now read.now }
    requires settings { loaded.now.settings ≡ (machine_of command.now).config }
    ensures comes { IfOk result
        (λ f. Comes command.now read.now (F.disk files.old).tells (F.disk files.new).contents f.done (string_bytes f.text)) }
    ensures refused { IfErr result (IsStopped command.now read.now (record { before = F.disk files.old; after = F.disk files.new })) }
    ensures others { (n : Seq ℕ) → record_of command.now ≢ Some n → (F.disk files.new).contents n ≡ (F.disk files.old).contents n }
{
    match command {
        Command::Run {
            steps,
            seed,
            threads,
            batch,
            keep,
            ..
        } => {
            let plan = RunPlan {
                steps: *steps,
                seed: *seed,
                threads: *threads,
                batch: *batch,
            };
            run_recorded(rt, alloc, loaded, plan, keep, files, gate)
        }
        Command::Replay { machine, .. } => run_again(
            alloc,
            loaded,
            &machine.config,
            bytes(&read[0]),
        ),
        Command::Serial { .. } => execute(alloc, loaded, bytes(&read[0])),
        Command::Why { machine, .. } => run_and_tell(
            alloc,
            loaded,
            &machine.config,
            bytes(&read[0]),
        ),
        Command::Phases {
            steps,
            seed,
            keep,
            ..
        } => run_phased(alloc, loaded, *steps, *seed, keep, files),
        Command::Trial {
            work,
            number,
            seed,
            steps,
            ..
        } => match run_trial(alloc, loaded, *work, *number, *seed, *steps) {
            Ok(finished) => Ok(finished),
            Err(NoMemory) => Err(Refusal::Memory),
        },
        Command::Bus { steps, seed, .. } => match run_on_bus(alloc, loaded, *seed, *steps) {
            Ok(finished) => Ok(finished),
            Err(NoMemory) => Err(Refusal::Memory),
        },
        Command::Look {
            source: Source::Seed { steps, seed },
            view,
            ..
        } => match look_by_seed(alloc, loaded, *seed, *steps, *view) {
            Ok(finished) => Ok(finished),
            Err(NoMemory) => Err(Refusal::Memory),
        },
        Command::Look {
            machine,
            source: Source::Schedule(_),
            view,
            ..
        } => look_by_schedule(alloc, loaded, &machine.config, bytes(&read[0]), *view),
        Command::LookOnBus {
            steps,
            seed,
            view,
            ..
        } => match look_on_bus(alloc, loaded, *seed, *steps, *view) {
            Ok(finished) => Ok(finished),
            Err(NoMemory) => Err(Refusal::Memory),
        },
        Command::Follow { keep, .. } => run_following(alloc, loaded, bytes(&read[0]), keep, files),
        Command::Long {
            begin: Begin::Seed(seed),
            steps,
            view,
            keep,
            ..
        } => run_from_seed(alloc, loaded, *seed, *steps, *view, keep, files),
        Command::Long {
            begin: Begin::Checkpoint(_),
            steps,
            view,
            keep,
            ..
        } => run_from_checkpoint(alloc, loaded, bytes(&read[0]), *steps, *view, keep, files),
        Command::Outcomes { .. } => unreachable!(),
    }
}

/// Writes a text: whether what it tells of has run to its end.
fn show<O: Sink>(finished: &Finished, out: &mut O) -> Result<bool, SinkFailed>
    ensures whole { IfOk result (λ done. (done ≡ finished.now.done)
        × IsWhole (string_bytes finished.now.text) (record { before = O.page out.old; after = O.page out.new })) }
    ensures cut { OnErr result (IsCut (string_bytes finished.now.text) (record { before = O.page out.old; after = O.page out.new })) }
{
    match write_all(out, finished.text.as_bytes()) {
        Ok(()) => Ok(finished.done),
        Err(failed) => Err(failed),
    }
}
