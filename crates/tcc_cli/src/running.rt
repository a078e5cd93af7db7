// What each command comes to, from what was loaded.
ghost use Rattle.std.specs.Prelude.{◌≡◌, ◌≢◌, ◌≤◌, ℕ, List as Seq, IfErr, IfOk, IfSome, Some};
ghost use Rattle.std.specs.String.{string_bytes};
ghost use Rattle.apart_run.specs.Joined.{IsJoined};
ghost use Rattle.image_load.specs.Contents.{started};
ghost use Rattle.tcc_cli.specs.Failing.{IsRunStopped, IsScheduleRefused};
ghost use Rattle.tcc_cli.specs.Phased.{IsPhasePicked, RanInPhases};
ghost use Rattle.tcc_cli.specs.Runs.{run_text, summary_text};
ghost use Rattle.tcc_cli.specs.Schedules.{IsMade, IsPicked, IsRecorded, IsScheduleOf, Ran};
ghost use Rattle.text_why.specs.Text.{why_text};
ghost use Rattle.tcc_base.specs.Limits.{run_limit};

use crate::phases::phases_of;
use crate::picking::{pick, take_and_record};
use crate::records::record;
use crate::refusal::Refusal;
use crate::reports::{Finished, machine_report, report_of, summary_of, waits_of};
use crate::schedules::run_file;
use apart_run::run_threads;
use image_load::Loaded;
use net_core::System;
use std::alloc::Global;
use std::sync::Wait;
use std::thread::Threads;
use tcc_base::{Config, NoMemory, Text};
use tcc_phase::phase_run;
use tcc_workers::WorkPlan;
use tcc_world::{Gate, Store};
use work_gen::Work;

/// How the events of a run come about: at most so many, by a seed, on so many host threads or on none. A thread's turn has at most `batch`
/// acts of its node.
#[derive(Clone, Copy, Debug)]
pub struct RunPlan {
    pub steps: u64,
    pub seed: u64,
    pub threads: Option<u8>,
    pub batch: u16,
}

/// A run that a seed picks, its record where one is named, and its report.
fn run_picked<'a, F: Store>(
    alloc: Global,
    loaded: &Loaded,
    seed: u64,
    steps: u64,
    keep: &'a Option<Text>,
    files: &mut F,
) -> Result<Finished, Refusal<'a>>
    requires few { steps ≤ run_limit }
    ensures ran { IfOk result (λ f. Ran (started loaded.now)
        (λ es. IsPicked (started loaded.now) seed steps es
        × IsRecorded keep.now (F.disk files.old).tells (F.disk files.new).contents (record { config = loaded.now.settings; events = es }))
        (run_text (started loaded.now)) f.done (string_bytes f.text)) }
    ensures failed { IfErr result (IsRunStopped (IsPicked (started loaded.now) seed steps) loaded.now.settings
        keep.now (record { before = F.disk files.old; after = F.disk files.new })) }
    ensures others { (n : Seq ℕ) → keep.now ≢ Some n → (F.disk files.new).contents n ≡ (F.disk files.old).contents n }
{
    let mut system = match System::start(alloc, loaded) {
        Ok(system) => system,
        Err(NoMemory) => return Err(Refusal::Memory),
    };
    match take_and_record(alloc, loaded, &mut system, seed, steps, keep, files) {
        Ok(()) => {}
        Err(refusal) => return Err(refusal),
    }
    match machine_report(alloc, loaded, &system) {
        Ok(finished) => Ok(finished),
        Err(NoMemory) => Err(Refusal::Memory),
    }
}

/// A run on host threads, for which it may wait, its record where one is named, and its report.
fn run_on_threads<'a, R: Threads + Wait + Sync, F: Store, G: Gate + Sync>(
    rt: &R,
    alloc: Global,
    loaded: &Loaded,
    plan: &WorkPlan,
    keep: &'a Option<Text>,
    files: &mut F,
    gate: &G,
) -> Result<Finished, Refusal<'a>>
    requires few { plan.now.steps ≤ run_limit }
    requires threads { (1 ≤ plan.now.threads) × (plan.now.threads ≤ 16) }
    requires batch { (1 ≤ plan.now.batch) × (plan.now.batch ≤ 1024) }
    ensures ran { IfOk result (λ f. Ran (started loaded.now)
        (λ es. IsJoined (started loaded.now) plan.now.steps es
        × IsRecorded keep.now (F.disk files.old).tells (F.disk files.new).contents (record { config = loaded.now.settings; events = es }))
        (run_text (started loaded.now)) f.done (string_bytes f.text)) }
    ensures failed { IfErr result (IsRunStopped (IsJoined (started loaded.now) plan.now.steps) loaded.now.settings
        keep.now (record { before = F.disk files.old; after = F.disk files.new })) }
    ensures others { (n : Seq ℕ) → keep.now ≢ Some n → (F.disk files.new).contents n ≡ (F.disk files.old).contents n }
{
    let refined = match run_threads(rt, alloc, loaded, plan, gate) {
        Ok(refined) => refined,
        Err(NoMemory) => return Err(Refusal::Memory),
    };
    match record(alloc, keep, &refined, files) {
        Ok(()) => {}
        Err(refusal) => return Err(refusal),
    }
    match report_of(alloc, loaded, &refined) {
        Ok(finished) => Ok(finished),
        Err(NoMemory) => Err(Refusal::Memory),
    }
}

/// A run by a seed or by host threads, its record where one is named, and its report.
pub fn run_recorded<'a, R: Threads + Wait + Sync, F: Store, G: Gate + Sync>(
    rt: &R,
    alloc: Global,
    loaded: &Loaded,
    plan: RunPlan,
    keep: &'a Option<Text>,
    files: &mut F,
    gate: &G,
) -> Result<Finished, Refusal<'a>>
    requires few { plan.steps ≤ run_limit }
    requires threads { IfSome plan.threads (λ t. (1 ≤ t) × (t ≤ 16)) }
    requires batch { (1 ≤ plan.batch) × (plan.batch ≤ 1024) }
    ensures ran { IfOk result (λ f. Ran (started loaded.now)
        (λ es. IsMade plan.threads (started loaded.now) plan.seed plan.steps es
        × IsRecorded keep.now (F.disk files.old).tells (F.disk files.new).contents (record { config = loaded.now.settings; events = es }))
        (run_text (started loaded.now)) f.done (string_bytes f.text)) }
    ensures failed { IfErr result (IsRunStopped (IsMade plan.threads (started loaded.now) plan.seed plan.steps) loaded.now.settings
        keep.now (record { before = F.disk files.old; after = F.disk files.new })) }
    ensures others { (n : Seq ℕ) → keep.now ≢ Some n → (F.disk files.new).contents n ≡ (F.disk files.old).contents n }
{
    let RunPlan {
        steps,
        seed,
        threads,
        batch,
    } = plan;
    match threads {
        None => run_picked(alloc, loaded, seed, steps, keep, files),
        Some(threads) => {
            let plan = WorkPlan {
                threads,
                steps,
                seed,
                batch,
            };
            run_on_threads(rt, alloc, loaded, &plan, keep, files, gate)
        }
    }
}

/// The run of the schedule that a file holds, and its report; or the line at which the schedule is refused.
pub fn run_again<'a>(
    alloc: Global,
    loaded: &Loaded,
    config: &Config,
    bytes: &[u8],
) -> Result<Finished, Refusal<'a>>
    requires { loaded.now.settings ≡ config.now }
    ensures ran { IfOk result (λ f. Ran (started loaded.now) (λ es. IsScheduleOf config.now es bytes.now)
        (run_text (started loaded.now)) f.done (string_bytes f.text)) }
    ensures refused { IfErr result (IsScheduleRefused (started loaded.now) config.now bytes.now) }
{
    let refined = match run_file(alloc, loaded, config, bytes) {
        Ok(refined) => refined,
        Err(refusal) => return Err(refusal),
    };
    match report_of(alloc, loaded, &refined) {
        Ok(finished) => Ok(finished),
        Err(NoMemory) => Err(Refusal::Memory),
    }
}

/// The run of the schedule that a file holds, and why messages wait at its end; or the line at which the schedule is refused.
pub fn run_and_tell<'a>(
    alloc: Global,
    loaded: &Loaded,
    config: &Config,
    bytes: &[u8],
) -> Result<Finished, Refusal<'a>>
    requires { loaded.now.settings ≡ config.now }
    ensures ran { IfOk result (λ f. Ran (started loaded.now) (λ es. IsScheduleOf config.now es bytes.now)
        (why_text (started loaded.now)) f.done (string_bytes f.text)) }
    ensures refused { IfErr result (IsScheduleRefused (started loaded.now) config.now bytes.now) }
{
    let refined = match run_file(alloc, loaded, config, bytes) {
        Ok(refined) => refined,
        Err(refusal) => return Err(refusal),
    };
    match waits_of(alloc, loaded, &refined) {
        Ok(finished) => Ok(finished),
        Err(NoMemory) => Err(Refusal::Memory),
    }
}

/// A run by phases that a seed picks, its record where one is named, and its phases with its report.
pub fn run_phased<'a, F: Store>(
    alloc: Global,
    loaded: &Loaded,
    steps: u64,
    seed: u64,
    keep: &'a Option<Text>,
    files: &mut F,
) -> Result<Finished, Refusal<'a>>
    requires few { steps ≤ run_limit }
    ensures ran { IfOk result (λ f. RanInPhases (started loaded.now)
        (λ es. IsPhasePicked (started loaded.now) seed steps es
        × IsRecorded keep.now (F.disk files.old).tells (F.disk files.new).contents (record { config = loaded.now.settings; events = es }))
        f.done (string_bytes f.text)) }
    ensures failed { IfErr result (IsRunStopped (IsPhasePicked (started loaded.now) seed steps) loaded.now.settings
        keep.now (record { before = F.disk files.old; after = F.disk files.new })) }
    ensures others { (n : Seq ℕ) → keep.now ≢ Some n → (F.disk files.new).contents n ≡ (F.disk files.old).contents n }
{
    let system = match phase_run(alloc, loaded, seed, steps) {
        Ok(system) => system,
        Err(NoMemory) => return Err(Refusal::Memory),
    };
    match record(alloc, keep, system.inner(), files) {
        Ok(()) => {}
        Err(refusal) => return Err(refusal),
    }
    match phases_of(alloc, loaded, &system) {
        Ok(finished) => Ok(finished),
        Err(NoMemory) => Err(Refusal::Memory),
    }
}

/// A workload's run that a seed picks, and its summary.
pub fn run_trial(
    alloc: Global,
    loaded: &Loaded,
    work: Work,
    number: u32,
    seed: u64,
    steps: u64,
) -> Result<Finished, NoMemory>
    requires few { steps ≤ run_limit }
    ensures { IfOk result (λ f. Ran (started loaded.now) (IsPicked (started loaded.now) seed steps)
        (summary_text (started loaded.now) work number) f.done (string_bytes f.text)) }
{
    let system = pick(alloc, loaded, seed, steps)?;
    summary_of(alloc, loaded, &system, work, number)
}
