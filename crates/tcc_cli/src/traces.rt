// Traces, which are written while their runs go on.
ghost use Rattle.std.specs.Prelude.{◌≡◌, ◌≤◌, IfErr, IfOk, length, map};
ghost use Rattle.image_load.specs.Contents.{started};
ghost use Rattle.tcc_cli.specs.Looks.{ArePicked, AreFirst, IsFaultOfFirst, IsTraceStopped, IsTraceTold, broken_refusal};
ghost use Rattle.tcc_msg.specs.Plain.{event_of};
ghost use Rattle.tcc_base.specs.Limits.{run_limit};

use crate::refusal::Refusal;
use crate::schedules::run_first;
use image_load::Loaded;
use rules_tcc::a_picked_schedule_is_a_run;
use std::alloc::Global;
use tcc_base::Config;
use tcc_msg::Event;
use tcc_world::Sink;
use watch_run::{Broken, Listed, Picked, Shown, trace};

/// What it is to the program that a trace or a table broke off.
pub fn of_broken<'a>(broken: Broken) -> Refusal<'a>
    ensures { result ≡ broken_refusal broken }
{
    match broken {
        Broken::Memory => Refusal::Memory,
        Broken::Output => Refusal::Output,
    }
}

/// Writes the trace of the run that a seed picks, of at most `to` events.
pub fn trace_by_seed<'a, O: Sink>(
    alloc: Global,
    loaded: &Loaded,
    seed: u64,
    steps: u64,
    shown: Shown,
    to: u64,
    out: &mut O,
) -> Result<bool, Refusal<'a>>
    requires few { steps ≤ run_limit }
    ensures told { IfOk result (IsTraceTold (started loaded.now) (ArePicked (started loaded.now) seed steps to) shown
        (record { before = O.page out.old; after = O.page out.new })) }
    ensures stopped { IfErr result (IsTraceStopped (started loaded.now) (ArePicked (started loaded.now) seed steps to) shown (λ line. ⊥)
        (record { before = O.page out.old; after = O.page out.new })) }
{
    a_picked_schedule_is_a_run();
    let most = steps.min(to) as u32;
    let mut events = Picked::new(seed, most as u64);
    match trace(alloc, loaded, &mut events, most, shown, out) {
        Ok(done) => Ok(done),
        Err(broken) => Err(of_broken(broken)),
    }
}

/// Writes the trace of the run by these events.
fn trace_listed<'a, O: Sink>(
    alloc: Global,
    loaded: &Loaded,
    listed: &[Event],
    shown: Shown,
    out: &mut O,
) -> Result<bool, Refusal<'a>>
    requires few { length listed.now ≤ run_limit }
    ensures told { IfOk result (IsTraceTold (started loaded.now) (λ es. es ≡ map event_of listed.now) shown
        (record { before = O.page out.old; after = O.page out.new })) }
    ensures stopped { IfErr result (IsTraceStopped (started loaded.now) (λ es. es ≡ map event_of listed.now) shown (λ line. ⊥)
        (record { before = O.page out.old; after = O.page out.new })) }
{
    let mut events = Listed::new(listed);
    match trace(alloc, loaded, &mut events, listed.len() as u32, shown, out) {
        Ok(done) => Ok(done),
        Err(broken) => Err(of_broken(broken)),
    }
}

/// Writes the trace of the run of the schedule that a file holds, of its first `to` events; or the line at which it is refused, and then
/// nothing is written.
pub fn trace_by_schedule<'a, O: Sink>(
    alloc: Global,
    loaded: &Loaded,
    config: &Config,
    bytes: &[u8],
    shown: Shown,
    to: u64,
    out: &mut O,
) -> Result<bool, Refusal<'a>>
    requires settings { loaded.now.settings ≡ config.now }
    ensures told { IfOk result (IsTraceTold (started loaded.now) (AreFirst config.now bytes.now to) shown
        (record { before = O.page out.old; after = O.page out.new })) }
    ensures stopped { IfErr result (IsTraceStopped (started loaded.now) (AreFirst config.now bytes.now to) shown
        (IsFaultOfFirst (started loaded.now) config.now bytes.now to)
        (record { before = O.page out.old; after = O.page out.new })) }
{
    let refined = match run_first(alloc, loaded, config, bytes, to) {
        Ok(refined) => refined,
        Err(refusal) => return Err(refusal),
    };
    trace_listed(alloc, loaded, refined.taken(), shown, out)
}
