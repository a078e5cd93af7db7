// The machine after a run of host threads.
ghost use Rattle.std.specs.Prelude.{◌≡◌, ◌≤◌, [], IfOk, IsSome, length};
ghost use Rattle.image_load.specs.Contents.{started};
ghost use Rattle.tcc_replay.specs.Replayed.{history_by};
ghost use Rattle.apart_run.specs.Joined.{IsJoined};
ghost use Rattle.tcc_base.specs.Limits.{run_limit};

use crate::apart::run_apart;
use crate::going::go_on;
use image_load::Loaded;
use stamp_merge::merged_logs_are_a_run;
use std::alloc::Global;
use std::sync::Wait;
use std::thread::Threads;
use tcc_base::NoMemory;
use tcc_msg::Event;
use tcc_refine::Refined;
use tcc_replay::{ReplayFault, replay, what_runs_is_not_refused};
use tcc_workers::WorkPlan;
use tcc_world::Gate;

/// The machine that starts with what was loaded and takes these events, which are a run.
fn retrace(alloc: Global, loaded: &Loaded, events: &[Event]) -> Result<Refined, NoMemory>
    requires few { length events.now ≤ run_limit }
    requires runs { IsSome (history_by (started loaded.now) events.now) }
    ensures code { IfOk result (λ r. r.machine.cores.code ≡ loaded.now) }
    ensures taken { IfOk result (λ r. r.taken ≡ events.now) }
{
    what_runs_is_not_refused();
    match replay(alloc, loaded, events) {
        Ok(refined) => Ok(refined),
        Err(ReplayFault::Memory) => Err(NoMemory),
        Err(ReplayFault::Refused(_)) => unreachable!(),
    }
}

/// The machine after a run of so many host threads: its nodes, each behind a lock, take turns and log their events, at most `batch` in a
/// turn, and the logs are merged into one schedule, whose events the machine takes. Where these are fewer than `steps` and some event is
/// useful, it goes on with the first useful event, time after time.
///
/// Which turns meet is the threads' affair: each schedule that can come of it is a run. An error is want of memory, and nothing is left.
/// Where no threads can be made, the workers run one after another. The events are taken twice, once by the threads.
pub fn run_threads<R: Threads + Wait + Sync, G: Gate + Sync>(
    rt: &R,
    alloc: Global,
    loaded: &Loaded,
    plan: &WorkPlan,
    gate: &G,
) -> Result<Refined, NoMemory>
    requires threads { (1 ≤ plan.now.threads) × (plan.now.threads ≤ 16) }
    requires steps { plan.now.steps ≤ run_limit }
    requires batch { (1 ≤ plan.now.batch) × (plan.now.batch ≤ 1024) }
    ensures code { IfOk result (λ r. r.machine.cores.code ≡ loaded.now) }
    ensures joined { IfOk result (λ r. IsJoined (started loaded.now) plan.now.steps r.taken) }
    ensures few { IfOk result (λ r. length r.taken ≤ plan.now.steps) }
    ensures settled { IfOk result (λ r. r.machine.unsent ≡ []) }
{
    merged_logs_are_a_run();
    let schedule = run_apart(rt, alloc, loaded, plan, gate)?;
    let mut refined = retrace(alloc, loaded, &schedule.events.items)?;
    let left = plan.steps - refined.taken().len() as u64;
    go_on(&mut refined, left)?;
    Ok(refined)
}
