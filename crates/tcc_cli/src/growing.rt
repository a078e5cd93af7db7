// Long runs of which something is written while they go on: rows of totals, or what commits print.
ghost use Rattle.std.specs.Prelude.{◌≡◌, ◌≢◌, ◌+◌, ◌++◌, ◌≤◌, ◌↔◌, [], ℕ, List as Seq, IfErr, IfOk, IsTrue, OnOk, Some, length};
ghost use Rattle.std.specs.String.{string_bytes};
ghost use Rattle.image_load.specs.Contents.{Contents, started};
ghost use Rattle.image_load.specs.Start.{Start};
ghost use Rattle.rules_maps.specs.Nodes.{Event};
ghost use Rattle.tcc_cli.specs.Growing.{IsGrowthStopped, IsOpenStopped, IsOpenText};
ghost use Rattle.tcc_cli.specs.Lines.{IsWhole};
ghost use Rattle.tcc_cli.specs.Long.{BeganFrom, BeganOn, Grows, IsFurtherTold, IsGrowing, IsLeftIn, IsTakenUp, RanFrom, RanOn};
ghost use Rattle.tcc_cli.specs.Long.{all_steps, last_text, more_of as plain_more_of, open_text};
ghost use Rattle.tcc_cli.specs.Looks.{LookedAt};
ghost use Rattle.tcc_words.specs.Bounds.{IsResumed};
ghost use Rattle.tcc_words.specs.declared.command.Begin.TheVariants as beginning;
ghost use Rattle.tcc_words.specs.declared.command.View.TheVariants as view;
ghost use Rattle.watch_run.specs.Meanwhile.{IsSpaced, head_line, meanwhile_text};
ghost use Rattle.watch_run.specs.Runs.{IsRunOf, seed_events};
ghost use Rattle.watch_run.specs.Written.{IsBehind};

use crate::images::bytes;
use crate::long::{counts_of, leave, more_of, of_broken};
use crate::refusal::Refusal;
use crate::reports::Finished;
use crate::traces::of_broken as of_output;
use checkpoint_run::read_run;
use image_load::Loaded;
use std::alloc::Global;
use tcc_base::{List, NoMemory, Text};
use tcc_words::{Begin, View};
use tcc_world::{Sink, SinkFailed, Store, write_all};
use watch_run::{Meanwhile, Rows, Run, write_head};

/// Whether something is written of a run while it goes on.
pub fn grows(view: View) -> bool
    ensures { IsTrue result ↔ Grows view }
{
    match view {
        View::Rows { .. } | View::Consoles { .. } => true,
        View::Trace { .. } | View::Count { .. } | View::State { .. } => false,
    }
}

/// What of a run is written while it goes on.
fn meanwhile_of(view: View, seed: u64, asked: u64) -> Meanwhile
    requires { IsGrowing view }
    ensures text { (first : ℕ) (s : Start) (es : Seq Event)
        → open_text view (Some (seed, asked)) first s es ≡ head_line result ++ meanwhile_text result first s es }
    ensures spaced { IsSpaced result }
{
    match view {
        View::Rows { every } => Meanwhile::Rows(Rows {
            every,
            seed: Some((seed, asked)),
        }),
        View::Consoles { .. } => Meanwhile::Consoles,
        View::Trace { .. } | View::Count { .. } | View::State { .. } => unreachable!(),
    }
}

/// Takes so many steps more, as far as a run may go, and writes what is told of them while they are taken.
fn go_and_write<'a, O: Sink>(
    alloc: Global,
    run: &mut Run,
    steps: u64,
    view: View,
    asked: u64,
    out: &mut O,
) -> Result<(), Refusal<'a>>
    requires growing { IsGrowing view }
    ensures went { OnOk result ((c : Contents) (n : ℕ) → IsRunOf c n run.old → IsRunOf c (n + plain_more_of steps run.old) run.new) }
    ensures settled { OnOk result (run.new.machine.unsent ≡ []) }
    ensures code { OnOk result (run.new.machine.cores.code ≡ run.old.machine.cores.code) }
    ensures seed { run.new.seed ≡ run.old.seed }
    ensures written { OnOk result (IsBehind (IsOpenText view asked run.old (plain_more_of steps run.old))
        (O.page out.old).bytes (O.page out.new).bytes) }
    ensures faults_stay { OnOk result ((O.page out.old).faults ≤ (O.page out.new).faults) }
    ensures stopped { IfErr result (IsOpenStopped view asked run.old (plain_more_of steps run.old)
        (record { before = O.page out.old; after = O.page out.new })) }
{
    let told = meanwhile_of(view, run.seed(), asked);
    let more = more_of(run, steps);
    match write_head(alloc, told, out) {
        Ok(()) => {}
        Err(broken) => return Err(of_output(broken)),
    }
    match run.go_and_write(alloc, more, told, out) {
        Ok(()) => Ok(()),
        Err(broken) => Err(of_output(broken)),
    }
}

/// The last row of a run's table.
fn last_row(alloc: Global, loaded: &Loaded, run: &Run, asked: u64) -> Result<Finished, NoMemory>
    requires code { run.now.machine.cores.code ≡ loaded.now }
    ensures { IfOk result (λ f. (every n : ℕ) → IsRunOf loaded.now n run.now
        → LookedAt (started loaded.now) (λ es. es ≡ seed_events loaded.now run.now.seed n)
        (last_text (view.Rows every) (Some (run.now.seed, asked)) (started loaded.now)) f.done (string_bytes f.text)) }
{
    let done = run.done();
    let seed = Some((run.seed(), asked));
    let events = run.system().events();
    let mut text = String::new(alloc);
    run.counts()
        .push_csv_row(&mut text, loaded.config(), seed, done, events)?;
    Ok(Finished { done, text })
}

/// What is told of a run at its end.
fn last_of(
    alloc: Global,
    loaded: &Loaded,
    run: &Run,
    view: View,
    asked: u64,
) -> Result<Finished, NoMemory>
    requires code { run.now.machine.cores.code ≡ loaded.now }
    requires growing { IsGrowing view }
    ensures { IfOk result (λ f. (n : ℕ) → IsRunOf loaded.now n run.now
        → LookedAt (started loaded.now) (λ es. es ≡ seed_events loaded.now run.now.seed n)
        (last_text view (Some (run.now.seed, asked)) (started loaded.now)) f.done (string_bytes f.text)) }
{
    match view {
        View::Rows { .. } => last_row(alloc, loaded, run, asked),
        View::Consoles { csv } => counts_of(alloc, loaded, run, csv, asked),
        View::Trace { .. } | View::Count { .. } | View::State { .. } => unreachable!(),
    }
}

/// Goes on with a run, writes what is told of it as it goes, writes the run down to the file of this name, where there is one, and then
/// what tells of its end: whether it is done then.
fn grow_and_leave<'a, F: Store, O: Sink>(
    alloc: Global,
    loaded: &Loaded,
    run: &mut Run,
    steps: u64,
    view: View,
    keep: &'a Option<Text>,
    files: &mut F,
    out: &mut O,
) -> Result<bool, Refusal<'a>>
    requires code { run.old.machine.cores.code ≡ loaded.now }
    requires growing { IsGrowing view }
    ensures told { IfOk result (λ done. (text : Seq ℕ) × RanOn loaded.now run.old steps view
        (IsLeftIn keep.now (F.disk files.old).tells (F.disk files.new).contents loaded.now) done text
        × IsWhole text (record { before = O.page out.old; after = O.page out.new })) }
    ensures stopped { IfErr result (IsGrowthStopped
        (RanOn loaded.now run.old steps view (IsLeftIn keep.now (F.disk files.old).tells (F.disk files.new).contents loaded.now))
        (BeganOn loaded.now run.old steps view) ⊥ keep.now (record { before = F.disk files.old; after = F.disk files.new })
        (record { before = O.page out.old; after = O.page out.new })) }
    ensures others { (n : Seq ℕ) → keep.now ≢ Some n → (F.disk files.new).contents n ≡ (F.disk files.old).contents n }
{
    let asked = run.drawn().saturating_add(steps);
    match go_and_write(alloc, run, steps, view, asked, out) {
        Ok(()) => {}
        Err(refusal) => return Err(refusal),
    }
    let last = match last_of(alloc, loaded, run, view, asked) {
        Ok(last) => last,
        Err(NoMemory) => return Err(Refusal::Memory),
    };
    match leave(alloc, run, keep, files) {
        Ok(()) => {}
        Err(refusal) => return Err(refusal),
    }
    match write_all(out, last.text.as_bytes()) {
        Ok(()) => Ok(last.done),
        Err(SinkFailed) => Err(Refusal::Output),
    }
}

/// The run of a seed or of the checkpoint that the first file holds, for at most so many events more: what is told of it as it goes and at
/// its end is written; before what tells of the end it is written down to the file of this name, where there is one. Or the line at which
/// the checkpoint is refused, and then nothing is written.
pub fn grow<'a, F: Store, O: Sink>(
    alloc: Global,
    loaded: &Loaded,
    begin: &Begin,
    read: &[List<u8>],
    steps: u64,
    view: View,
    keep: &'a Option<Text>,
    files: &mut F,
    out: &mut O,
) -> Result<bool, Refusal<'a>>
    requires growing { IsGrowing view }
    requires first { (name : Seq ℕ) → begin.now ≡ beginning.Checkpoint name → 1 ≤ length read.now }
    ensures told { IfOk result (IsFurtherTold loaded.now (IsTakenUp begin.now loaded.now read.now) steps view
        (IsLeftIn keep.now (F.disk files.old).tells (F.disk files.new).contents loaded.now)
        (record { before = O.page out.old; after = O.page out.new })) }
    ensures stopped { IfErr result (IsGrowthStopped
        (RanFrom loaded.now (IsTakenUp begin.now loaded.now read.now) steps view
        (IsLeftIn keep.now (F.disk files.old).tells (F.disk files.new).contents loaded.now))
        (BeganFrom loaded.now (IsTakenUp begin.now loaded.now read.now) steps view) (IsResumed begin.now) keep.now
        (record { before = F.disk files.old; after = F.disk files.new })
        (record { before = O.page out.old; after = O.page out.new })) }
    ensures others { (n : Seq ℕ) → keep.now ≢ Some n → (F.disk files.new).contents n ≡ (F.disk files.old).contents n }
{
    match begin {
        Begin::Seed(seed) => match Run::start(alloc, loaded, *seed) {
            Ok(mut run) => grow_and_leave(alloc, loaded, &mut run, steps, view, keep, files, out),
            Err(NoMemory) => Err(Refusal::Memory),
        },
        Begin::Checkpoint(_) => match read_run(alloc, bytes(&read[0]), loaded) {
            Ok(mut run) => grow_and_leave(alloc, loaded, &mut run, steps, view, keep, files, out),
            Err(broken) => Err(of_broken(bytes(&read[0]), broken)),
        },
    }
}
