// A trace, written while its run goes on.
ghost use Rattle.std.specs.Prelude.{◌≡◌, ◌+◌, ◌≤◌, ℕ, IfErr, IfOk, OnOk, false, true, string_bytes};
ghost use Rattle.image_load.specs.Contents.{Contents, started};
ghost use Rattle.bus_trace.specs.Text.{bus_head_text};
ghost use Rattle.bus_run.specs.Going.{GoneOn, Starts};
ghost use Rattle.bus_run.specs.Shown.{IsAllTold, lines_coming};
ghost use Rattle.bus_run.specs.Traced.{IsBusTraceBroken, IsBusTraced};
ghost use Rattle.tcc_base.specs.Limits.{run_limit};

use crate::running::BusRun;
use crate::showing::KeptRun;
use crate::skipping::skip;
use bus_trace::push_bus_head;
use image_load::Loaded;
use std::alloc::Global;
use tcc_base::NoMemory;
use tcc_world::Sink;
use text_runs::{Broken, tell_end, tell_events};

/// Takes all events, and appends what those from number `from` on did. The run at its end.
fn tell_facts<O: Sink>(
    alloc: Global,
    run: BusRun,
    most: u32,
    from: u64,
    held: &mut String,
    out: &mut O,
) -> Result<BusRun, Broken>
    requires few { run.system.events + run.left ≤ run_limit }
    requires enough { run.left ≤ most }
    ensures told { (c : Contents) (seed steps : ℕ) → Starts c seed steps run → string_bytes held.old ≡ bus_head_text c.settings from
        → IfOk result (λ last. IsAllTold false c seed steps from last (string_bytes held.new)
        (O.page out.old).bytes (O.page out.new).bytes) }
    ensures faults_stay { OnOk result ((O.page out.old).faults ≤ (O.page out.new).faults) }
    ensures broken { (c : Contents) (seed steps : ℕ) → Starts c seed steps run → string_bytes held.old ≡ bus_head_text c.settings from
        → IfErr result (IsBusTraceBroken false (started c) seed steps from
        (record { before = O.page out.old; after = O.page out.new })) }
{
    let mut run = run;
    tell_events(alloc, &mut run, most, from, held, out)?;
    Ok(run)
}

/// The same with records, where the window has begun or no event is left.
fn tell_window<O: Sink>(
    alloc: Global,
    run: BusRun,
    most: u32,
    held: &mut String,
    out: &mut O,
) -> Result<BusRun, Broken>
    requires few { run.system.events + run.left ≤ run_limit }
    requires enough { run.left ≤ most }
    ensures told { (first : BusRun) (c : Contents) (seed steps from : ℕ) → Starts c seed steps first → GoneOn first run
        → string_bytes held.old ≡ bus_head_text c.settings from → lines_coming from first ≡ lines_coming 0 run
        → IfOk result (λ last. IsAllTold true c seed steps from last (string_bytes held.new)
        (O.page out.old).bytes (O.page out.new).bytes) }
    ensures faults_stay { OnOk result ((O.page out.old).faults ≤ (O.page out.new).faults) }
    ensures broken { (first : BusRun) (c : Contents) (seed steps from : ℕ) → Starts c seed steps first → GoneOn first run
        → string_bytes held.old ≡ bus_head_text c.settings from → lines_coming from first ≡ lines_coming 0 run
        → IfErr result (IsBusTraceBroken true (started c) seed steps from
        (record { before = O.page out.old; after = O.page out.new })) }
{
    let mut run = match KeptRun::begin(alloc, run, held) {
        Ok(run) => run,
        Err(NoMemory) => return Err(Broken::Memory),
    };
    tell_events(alloc, &mut run, most, 0, held, out)?;
    Ok(run.run)
}

/// Takes all events, and appends all records of the state after `from` of them, and what those behind it did and changed; nothing where
/// fewer come. The run at its end.
fn tell_states<O: Sink>(
    alloc: Global,
    run: BusRun,
    most: u32,
    from: u64,
    held: &mut String,
    out: &mut O,
) -> Result<BusRun, Broken>
    requires few { run.system.events + run.left ≤ run_limit }
    requires enough { run.left ≤ most }
    ensures told { (c : Contents) (seed steps : ℕ) → Starts c seed steps run → string_bytes held.old ≡ bus_head_text c.settings from
        → IfOk result (λ last. IsAllTold true c seed steps from last (string_bytes held.new)
        (O.page out.old).bytes (O.page out.new).bytes) }
    ensures faults_stay { OnOk result ((O.page out.old).faults ≤ (O.page out.new).faults) }
    ensures broken { (c : Contents) (seed steps : ℕ) → Starts c seed steps run → string_bytes held.old ≡ bus_head_text c.settings from
        → IfErr result (IsBusTraceBroken true (started c) seed steps from
        (record { before = O.page out.old; after = O.page out.new })) }
{
    let mut run = run;
    match skip(&mut run, from) {
        Ok(true) => tell_window(alloc, run, most, held, out),
        Ok(false) => Ok(run),
        Err(NoMemory) => Err(Broken::Memory),
    }
}

/// Takes all events, and appends what is to be told of them, with records or without. The run at its end.
fn tell_run<O: Sink>(
    alloc: Global,
    run: BusRun,
    most: u32,
    from: u64,
    states: bool,
    held: &mut String,
    out: &mut O,
) -> Result<BusRun, Broken>
    requires few { run.system.events + run.left ≤ run_limit }
    requires enough { run.left ≤ most }
    ensures told { (c : Contents) (seed steps : ℕ) → Starts c seed steps run → string_bytes held.old ≡ bus_head_text c.settings from
        → IfOk result (λ last. IsAllTold states c seed steps from last (string_bytes held.new)
        (O.page out.old).bytes (O.page out.new).bytes) }
    ensures faults_stay { OnOk result ((O.page out.old).faults ≤ (O.page out.new).faults) }
    ensures broken { (c : Contents) (seed steps : ℕ) → Starts c seed steps run → string_bytes held.old ≡ bus_head_text c.settings from
        → IfErr result (IsBusTraceBroken states (started c) seed steps from
        (record { before = O.page out.old; after = O.page out.new })) }
{
    if states {
        tell_states(alloc, run, most, from, held, out)
    } else {
        tell_facts(alloc, run, most, from, held, out)
    }
}

/// Writes the trace of the run from what was loaded by the events that a seed picks, so many at most: what each event from number `from`
/// on did, where the first is number 0; with `states` all records of the state where these begin, and below each event those that it
/// changed. Whether the run is done then. The settings have one directory.
///
/// It is written in pieces as it comes, so a first part of it may have been written where it fails: but the last lines, which tell of
/// the end, stand there only where all of it does, or where the output failed within them. The time is that of the events and of their
/// texts, with records also that of `BusKept`; the memory is that of the machine, of a piece, and of what one event does, and with
/// records that of the machine once more.
pub fn trace_on_bus<O: Sink>(
    alloc: Global,
    loaded: &Loaded,
    seed: u64,
    steps: u64,
    from: u64,
    states: bool,
    out: &mut O,
) -> Result<bool, Broken>
    requires one_home { loaded.now.settings.dirs ≡ 1 }
    requires few { steps ≤ run_limit }
    ensures traced { IfOk result (IsBusTraced states (started loaded.now) seed steps from (O.page out.old).bytes (O.page out.new).bytes) }
    ensures broken { IfErr result (IsBusTraceBroken states (started loaded.now) seed steps from
        (record { before = O.page out.old; after = O.page out.new })) }
{
    let run = match BusRun::start(alloc, loaded, seed, steps) {
        Ok(run) => run,
        Err(NoMemory) => return Err(Broken::Memory),
    };
    let mut held = String::new(alloc);
    match push_bus_head(&mut held, run.system.config(), from) {
        Ok(()) => {}
        Err(_) => return Err(Broken::Memory),
    }
    let run = tell_run(alloc, run, steps as u32, from, states, &mut held, out)?;
    run.system.commits();
    let done = run.system.done();
    tell_end(alloc, done, run.system.events(), &mut held, out)?;
    Ok(done)
}
