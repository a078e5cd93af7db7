// What is counted of a run while it goes on.
ghost use Rattle.std.specs.Prelude.{◌≡◌, ◌+◌, ◌≤◌, IfOk, OnOk};
ghost use Rattle.image_load.specs.Contents.{started};
ghost use Rattle.bus_tcc.specs.Machine.{bus_event_of};
ghost use Rattle.bus_watch.specs.Happened.{core_of as plain_core};
ghost use Rattle.bus_run.specs.Counted.{IsBusCounted};
ghost use Rattle.bus_run.specs.Counting.{AreCounted};
ghost use Rattle.tcc_base.specs.Limits.{run_limit};

use crate::running::BusRun;
use bus_count::BusCounts;
use bus_tcc::BusEvent;
use image_load::Loaded;
use std::alloc::Global;
use tcc_base::{CoreId, NoMemory};

/// What was counted of a run, whether it is done, and how many events it took.
#[derive(Debug, Drop)]
pub struct BusCounted {
    pub counts: BusCounts,
    pub done: bool,
    pub events: u64,
}

/// The core that an event names.
pub(crate) fn core_of(e: BusEvent) -> CoreId
    ensures { result.0 ≡ plain_core (bus_event_of e) }
{
    match e {
        BusEvent::Exec(core) | BusEvent::Evict(core, _, _) | BusEvent::Take(core) => core,
    }
}

/// Takes all events that come, and counts what they did.
fn count_events(run: &mut BusRun, counts: &mut BusCounts) -> Result<(), NoMemory>
    requires few { run.old.system.events + run.old.left ≤ run_limit }
    ensures { OnOk result (AreCounted run.old run.new counts.old counts.new) }
{
    for _ in 0..run.left {
        let Some(e) = run.take_next()? else {
            return Ok(());
        };
        counts.event(core_of(e), &run.facts.items)?;
    }
    Ok(())
}

/// Counts what the events that a seed picks, so many at most, do in the run from what was loaded. The settings have one directory.
/// Fails for want of memory, and where a number comes above 2^56.
///
/// The time is that of the events, and a constant for each core and each fact of an event; the memory is that of the machine and of the
/// tables.
pub fn count_on_bus(
    alloc: Global,
    loaded: &Loaded,
    seed: u64,
    steps: u64,
) -> Result<BusCounted, NoMemory>
    requires one_home { loaded.now.settings.dirs ≡ 1 }
    requires few { steps ≤ run_limit }
    ensures { IfOk result (λ c. IsBusCounted (started loaded.now) seed steps c.done c.events c.counts) }
{
    let mut run = BusRun::start(alloc, loaded, seed, steps)?;
    let mut counts = BusCounts::new(alloc, run.system.config())?;
    count_events(&mut run, &mut counts)?;
    run.system.commits();
    Ok(BusCounted {
        counts,
        done: run.system.done(),
        events: run.system.events(),
    })
}
