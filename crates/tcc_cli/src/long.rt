// Runs that begin before their first event or go on from a checkpoint, and that may be written down at their end.
ghost use Rattle.std.specs.Prelude.{◌≡◌, ◌≢◌, ◌+◌, ◌≤◌, [], ℕ, List as Seq, IfErr, IfOk, IfSome, OnOk, Some};
ghost use Rattle.std.specs.String.{string_bytes};
ghost use Rattle.image_load.specs.Contents.{Contents, started};
ghost use Rattle.net_core.specs.Limits.{machine_limit};
ghost use Rattle.tcc_base.specs.Limits.{text_limit};
ghost use Rattle.tcc_cli.specs.Failing.{IsCheckpointRefused, IsLongStopped, IsNotWritten, IsUntraced};
ghost use Rattle.tcc_cli.specs.Long.{IsFurtherStopped, IsFurtherTold, IsLeftIn, IsNotLeft, IsToldBy, IsWrittenTo, RanFrom, RanOn};
ghost use Rattle.tcc_cli.specs.Long.{more_of as plain_more_of, steps_of as plain_steps_of};
ghost use Rattle.tcc_cli.specs.Looks.{LookedAt, view_text};
ghost use Rattle.tcc_words.specs.declared.command.View.TheVariants.{Count, State};
ghost use Rattle.watch_run.specs.Runs.{IsRunOf, seed_events};

use crate::looks::tables;
use crate::records::write_record;
use crate::refusal::Refusal;
use crate::reports::Finished;
use crate::traces::of_broken as of_trace;
use checkpoint_run::{push_run, read_run};
use checkpoint_text::Broken;
use image_load::Loaded;
use std::alloc::Global;
use tcc_base::{List, NoMemory, Text};
use tcc_words::{MAX_COUNTED, View};
use tcc_world::{Sink, Store};
use watch_run::{Run, Shown};
use watch_state::state;

/// The number, from 1, of the first line that begins with this word; 1 where there is none.
fn line_of(bytes: &[u8], word: &[u8]) -> u64 {
    let mut line: u64 = 1;
    let mut begins = true;
    for i in 0..bytes.len() {
        if begins && bytes[i..].starts_with(word) {
            return line;
        }
        begins = bytes[i] == b'\n';
        if begins {
            line = line.saturating_add(1);
        }
    }
    1
}

/// What it is to the program that a checkpoint isn't read: the line of the first row that isn't in its place, that of the settings where
/// these are others, and else that at which the machine begins.
pub fn of_broken<'a>(bytes: &[u8], broken: Broken) -> Refusal<'a>
    ensures { IsCheckpointRefused result }
{
    match broken {
        Broken::Line(line) => Refusal::Schedule(line),
        Broken::Settings => Refusal::Schedule(line_of(bytes, b"settings ")),
        Broken::Unsound | Broken::Other => Refusal::Schedule(line_of(bytes, b"tcc-checkpoint ")),
        Broken::NoMemory => Refusal::Memory,
    }
}

/// So many steps are taken at most, as far as a run may go.
pub fn more_of(run: &Run, steps: u64) -> u64
    ensures more { result ≡ plain_more_of steps run.now }
    ensures few { run.now.machine.events + result ≤ machine_limit }
{
    steps.min(MAX_COUNTED - run.system().events())
}

/// Takes so many steps more, as far as a run may go.
fn go_on(alloc: Global, run: &mut Run, steps: u64) -> Result<(), NoMemory>
    ensures went { OnOk result ((c : Contents) (n : ℕ) → IsRunOf c n run.old → IsRunOf c (n + plain_more_of steps run.old) run.new) }
    ensures settled { OnOk result (run.new.machine.unsent ≡ []) }
    ensures code { OnOk result (run.new.machine.cores.code ≡ run.old.machine.cores.code) }
    ensures seed { run.new.seed ≡ run.old.seed }
{
    run.go(alloc, more_of(run, steps))
}

/// What was counted of a run.
pub fn counts_of(
    alloc: Global,
    loaded: &Loaded,
    run: &Run,
    csv: bool,
    asked: u64,
) -> Result<Finished, NoMemory>
    requires code { run.now.machine.cores.code ≡ loaded.now }
    ensures { IfOk result (λ f. (n : ℕ) → IsRunOf loaded.now n run.now
        → LookedAt (started loaded.now) (λ es. es ≡ seed_events loaded.now run.now.seed n)
        (view_text (Count csv) (Some (run.now.seed, asked)) (started loaded.now)) f.done (string_bytes f.text)) }
{
    let done = run.done();
    let seed = Some((run.seed(), asked));
    tables(
        alloc,
        loaded.config(),
        run.counts(),
        done,
        run.system().events(),
        csv,
        seed,
    )
}

/// The state of a run.
fn state_at(
    alloc: Global,
    loaded: &Loaded,
    run: &Run,
    events: u64,
    asked: u64,
) -> Result<Finished, NoMemory>
    requires code { run.now.machine.cores.code ≡ loaded.now }
    requires settled { run.now.machine.unsent ≡ [] }
    ensures { IfOk result (λ f. (n : ℕ) → IsRunOf loaded.now n run.now
        → LookedAt (started loaded.now) (λ es. es ≡ seed_events loaded.now run.now.seed n)
        (view_text (State events) (Some (run.now.seed, asked)) (started loaded.now)) f.done (string_bytes f.text)) }
{
    let done = run.done();
    let text = state(alloc, done, run.system().events(), run.system())?;
    Ok(Finished { done, text })
}

/// What is told of a run.
fn tell(
    alloc: Global,
    loaded: &Loaded,
    run: &Run,
    view: View,
    asked: u64,
) -> Result<Finished, NoMemory>
    requires code { run.now.machine.cores.code ≡ loaded.now }
    requires settled { run.now.machine.unsent ≡ [] }
    requires untraced { IsUntraced view }
    ensures { IfOk result (λ f. (n : ℕ) → IsRunOf loaded.now n run.now
        → LookedAt (started loaded.now) (λ es. es ≡ seed_events loaded.now run.now.seed n)
        (view_text view (Some (run.now.seed, asked)) (started loaded.now)) f.done (string_bytes f.text)) }
{
    match view {
        View::Trace { .. } | View::Rows { .. } | View::Consoles { .. } => unreachable!(),
        View::Count { csv } => counts_of(alloc, loaded, run, csv, asked),
        View::State { events } => state_at(alloc, loaded, run, events, asked),
    }
}

/// The text of a run.
fn text_of(alloc: Global, run: &Run) -> Result<List<u8>, NoMemory>
    requires settled { run.now.machine.unsent ≡ [] }
    ensures { IfOk result (λ text. IsToldBy text run.now) }
{
    let mut text = List::new(alloc);
    push_run(&mut text, run)?;
    Ok(text)
}

/// Writes a run down to the file of this name, where there is one. Of the commits it has then only those that a directory hasn't passed.
pub fn leave<'a, F: Store>(
    alloc: Global,
    run: &mut Run,
    keep: &'a Option<Text>,
    files: &mut F,
) -> Result<(), Refusal<'a>>
    requires settled { run.old.machine.unsent ≡ [] }
    ensures left { OnOk result (IfSome keep.now
        (λ name. IsWrittenTo name (F.disk files.old).tells (F.disk files.new).contents run.new)) }
    ensures same { (c : Contents) (n : ℕ) → IsRunOf c n run.old → IsRunOf c n run.new }
    ensures seed { run.new.seed ≡ run.old.seed }
    ensures failed { IfErr result (IsNotWritten keep.now (record { before = F.disk files.old; after = F.disk files.new })) }
    ensures others { (n : Seq ℕ) → keep.now ≢ Some n → (F.disk files.new).contents n ≡ (F.disk files.old).contents n }
{
    let Some(name) = keep else {
        return Ok(());
    };
    run.forget();
    let text = match text_of(alloc, run) {
        Ok(text) => text,
        Err(NoMemory) => return Err(Refusal::Memory),
    };
    write_record(alloc, name, &text.items, files)
}

/// So many steps are asked for: where the state or a trace is shown, no more than its events.
fn steps_of(view: View, steps: u64) -> u64
    ensures { result ≡ plain_steps_of view steps }
{
    match view {
        View::Trace { to, .. } => steps.min(to),
        View::State { events } => steps.min(events),
        _ => steps,
    }
}

/// Goes on with a run, tells of it, and writes it down to the file of this name, where there is one.
fn go_and_leave<'a, F: Store>(
    alloc: Global,
    loaded: &Loaded,
    run: &mut Run,
    steps: u64,
    view: View,
    keep: &'a Option<Text>,
    files: &mut F,
) -> Result<Finished, Refusal<'a>>
    requires code { run.old.machine.cores.code ≡ loaded.now }
    requires untraced { IsUntraced view }
    ensures ran { IfOk result (λ f. RanOn loaded.now run.old steps view
        (IsLeftIn keep.now (F.disk files.old).tells (F.disk files.new).contents loaded.now) f.done (string_bytes f.text)) }
    ensures failed { IfErr result (IsNotWritten keep.now (record { before = F.disk files.old; after = F.disk files.new })) }
    ensures others { (n : Seq ℕ) → keep.now ≢ Some n → (F.disk files.new).contents n ≡ (F.disk files.old).contents n }
{
    let asked = run.drawn().saturating_add(steps);
    match go_on(alloc, run, steps_of(view, steps)) {
        Ok(()) => {}
        Err(NoMemory) => return Err(Refusal::Memory),
    }
    let finished = match tell(alloc, loaded, run, view, asked) {
        Ok(finished) => finished,
        Err(NoMemory) => return Err(Refusal::Memory),
    };
    match leave(alloc, run, keep, files) {
        Ok(()) => Ok(finished),
        Err(refusal) => Err(refusal),
    }
}

/// The run that a seed picks, for at most so many events, and what is told of it; it is written down to the file of this name, where there
/// is one.
pub fn run_from_seed<'a, F: Store>(
    alloc: Global,
    loaded: &Loaded,
    seed: u64,
    steps: u64,
    view: View,
    keep: &'a Option<Text>,
    files: &mut F,
) -> Result<Finished, Refusal<'a>>
    requires untraced { IsUntraced view }
    ensures ran { IfOk result (λ f. RanFrom loaded.now (λ r. IsRunOf loaded.now 0 r × (r.seed ≡ seed) × (r.drawn ≡ 0)) steps view
        (IsLeftIn keep.now (F.disk files.old).tells (F.disk files.new).contents loaded.now) f.done (string_bytes f.text)) }
    ensures failed { IfErr result (IsNotWritten keep.now (record { before = F.disk files.old; after = F.disk files.new })) }
    ensures others { (n : Seq ℕ) → keep.now ≢ Some n → (F.disk files.new).contents n ≡ (F.disk files.old).contents n }
{
    let mut run = match Run::start(alloc, loaded, seed) {
        Ok(run) => run,
        Err(NoMemory) => return Err(Refusal::Memory),
    };
    go_and_leave(alloc, loaded, &mut run, steps, view, keep, files)
}

/// The run of the checkpoint that a file holds, and what is told of it after at most so many events more; it is written down to the file of
/// this name, where there is one. Or the line at which the checkpoint is refused.
pub fn run_from_checkpoint<'a, F: Store>(
    alloc: Global,
    loaded: &Loaded,
    bytes: &[u8],
    steps: u64,
    view: View,
    keep: &'a Option<Text>,
    files: &mut F,
) -> Result<Finished, Refusal<'a>>
    requires untraced { IsUntraced view }
    ensures ran { IfOk result (λ f. RanFrom loaded.now (IsToldBy bytes.now) steps view
        (IsLeftIn keep.now (F.disk files.old).tells (F.disk files.new).contents loaded.now) f.done (string_bytes f.text)) }
    ensures failed { IfErr result (IsLongStopped keep.now (record { before = F.disk files.old; after = F.disk files.new })) }
    ensures others { (n : Seq ℕ) → keep.now ≢ Some n → (F.disk files.new).contents n ≡ (F.disk files.old).contents n }
{
    let mut run = match read_run(alloc, bytes, loaded) {
        Ok(run) => run,
        Err(broken) => return Err(of_broken(bytes, broken)),
    };
    go_and_leave(alloc, loaded, &mut run, steps, view, keep, files)
}

/// Writes the trace of the run of the checkpoint that a file holds, from its next event on: `shown.from` is counted from there, and at
/// most `to` events are taken, of at most so many that are asked for. Or the line at which the checkpoint is refused, and then nothing is
/// written.
pub fn trace_from_checkpoint<'a, O: Sink>(
    alloc: Global,
    loaded: &Loaded,
    bytes: &[u8],
    steps: u64,
    shown: Shown,
    to: u64,
    out: &mut O,
) -> Result<bool, Refusal<'a>>
    requires from { shown.from ≤ text_limit }
    requires to { to ≤ text_limit }
    ensures told { IfOk result (IsFurtherTold loaded.now (IsToldBy bytes.now) steps (View.Trace shown.from to shown.states) IsNotLeft
        (record { before = O.page out.old; after = O.page out.new })) }
    ensures stopped { IfErr result (IsFurtherStopped loaded.now (IsToldBy bytes.now) steps (View.Trace shown.from to shown.states)
        (record { before = O.page out.old; after = O.page out.new })) }
{
    let run = match read_run(alloc, bytes, loaded) {
        Ok(run) => run,
        Err(broken) => return Err(of_broken(bytes, broken)),
    };
    let more = more_of(&run, steps.min(to)) as u32;
    match run.trace(alloc, more, shown, out) {
        Ok(done) => Ok(done),
        Err(broken) => Err(of_trace(broken)),
    }
}
