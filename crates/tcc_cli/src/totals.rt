// Tables of the totals of runs, which are written while the runs go on.
ghost use Rattle.std.specs.Prelude.{◌≡◌, ◌≤◌, IfErr, IfOk, length, map, None, Some};
ghost use Rattle.image_load.specs.Contents.{started};
ghost use Rattle.tcc_base.specs.Limits.{run_limit};
ghost use Rattle.tcc_cli.specs.Looks.{ArePicked, AreFirst, IsFaultOfFirst, IsTableStopped, IsTableTold};
ghost use Rattle.tcc_msg.specs.Plain.{event_of};
ghost use Rattle.tcc_words.specs.Fields.{count_limit};

use crate::refusal::Refusal;
use crate::schedules::run_first;
use crate::traces::of_broken;
use image_load::Loaded;
use rules_tcc::a_picked_schedule_is_a_run;
use std::alloc::Global;
use tcc_base::Config;
use tcc_msg::Event;
use tcc_words::MAX_COUNTED;
use tcc_world::Sink;
use watch_run::{Listed, Picked, Rows, count_every};

/// Writes the totals of the run that a seed picks, with a row after each `every` events.
pub fn totals_by_seed<'a, O: Sink>(
    alloc: Global,
    loaded: &Loaded,
    seed: u64,
    steps: u64,
    every: u64,
    out: &mut O,
) -> Result<bool, Refusal<'a>>
    requires few { steps ≤ count_limit }
    requires every { 1 ≤ every }
    ensures told { IfOk result (IsTableTold (started loaded.now) (ArePicked (started loaded.now) seed steps count_limit)
        (record { every = every; seed = Some (seed, steps) }) (record { before = O.page out.old; after = O.page out.new })) }
    ensures stopped { IfErr result (IsTableStopped (started loaded.now) (ArePicked (started loaded.now) seed steps count_limit)
        (record { every = every; seed = Some (seed, steps) }) (λ line. ⊥) (record { before = O.page out.old; after = O.page out.new })) }
{
    a_picked_schedule_is_a_run();
    let most = steps.min(MAX_COUNTED);
    let mut events = Picked::new(seed, most);
    let rows = Rows {
        every,
        seed: Some((seed, steps)),
    };
    match count_every(alloc, loaded, &mut events, most, rows, out) {
        Ok(done) => Ok(done),
        Err(broken) => Err(of_broken(broken)),
    }
}

/// Writes those of the run by these events.
fn totals_listed<'a, O: Sink>(
    alloc: Global,
    loaded: &Loaded,
    listed: &[Event],
    every: u64,
    out: &mut O,
) -> Result<bool, Refusal<'a>>
    requires few { length listed.now ≤ run_limit }
    requires every { 1 ≤ every }
    ensures told { IfOk result (IsTableTold (started loaded.now) (λ es. es ≡ map event_of listed.now)
        (record { every = every; seed = None }) (record { before = O.page out.old; after = O.page out.new })) }
    ensures stopped { IfErr result (IsTableStopped (started loaded.now) (λ es. es ≡ map event_of listed.now)
        (record { every = every; seed = None }) (λ line. ⊥) (record { before = O.page out.old; after = O.page out.new })) }
{
    let mut events = Listed::new(listed);
    let rows = Rows { every, seed: None };
    match count_every(alloc, loaded, &mut events, listed.len() as u64, rows, out) {
        Ok(done) => Ok(done),
        Err(broken) => Err(of_broken(broken)),
    }
}

/// Writes those of the run of the schedule that a file holds; or the line at which it is refused, and then nothing is written.
pub fn totals_by_schedule<'a, O: Sink>(
    alloc: Global,
    loaded: &Loaded,
    config: &Config,
    bytes: &[u8],
    every: u64,
    out: &mut O,
) -> Result<bool, Refusal<'a>>
    requires settings { loaded.now.settings ≡ config.now }
    requires every { 1 ≤ every }
    ensures told { IfOk result (IsTableTold (started loaded.now) (AreFirst config.now bytes.now count_limit)
        (record { every = every; seed = None }) (record { before = O.page out.old; after = O.page out.new })) }
    ensures stopped { IfErr result (IsTableStopped (started loaded.now) (AreFirst config.now bytes.now count_limit)
        (record { every = every; seed = None }) (IsFaultOfFirst (started loaded.now) config.now bytes.now count_limit)
        (record { before = O.page out.old; after = O.page out.new })) }
{
    let refined = match run_first(alloc, loaded, config, bytes, MAX_COUNTED) {
        Ok(refined) => refined,
        Err(refusal) => return Err(refusal),
    };
    totals_listed(alloc, loaded, refined.taken(), every, out)
}
