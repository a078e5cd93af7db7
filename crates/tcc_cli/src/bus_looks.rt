// Runs of the machine with one bus that are looked at: their traces, what is counted of them, and the state that they come to.
ghost use Rattle.std.specs.Prelude.{◌≡◌, ◌≤◌, IfErr, IfOk, if◌then◌else◌};
ghost use Rattle.std.specs.String.{string_bytes};
ghost use Rattle.bus_count.specs.Csv.{bus_csv_text};
ghost use Rattle.bus_count.specs.Text.{bus_count_text};
ghost use Rattle.image_load.specs.Contents.{started};
ghost use Rattle.tcc_cli.specs.BusLooks.{IsBusTraceStopped, IsBusTraceTold, LookedAtBus, text_refusal};
ghost use Rattle.tcc_cli.specs.Failing.{IsUntraced};
ghost use Rattle.tcc_base.specs.Limits.{run_limit};

use crate::refusal::Refusal;
use crate::reports::Finished;
use bus_run::{Broken, BusCounted, count_on_bus, trace_on_bus};
use bus_state::bus_state;
use bus_tool::bus_run;
use image_load::Loaded;
use std::alloc::Global;
use tcc_base::{Config, NoMemory};
use tcc_words::{MAX_COUNTED, View};
use tcc_world::Sink;
use watch_run::Shown;

/// What a trace that broke off is to the program.
fn of_broken<'a>(broken: Broken) -> Refusal<'a>
    ensures { result ≡ text_refusal broken }
{
    match broken {
        Broken::Memory => Refusal::Memory,
        Broken::Output => Refusal::Output,
    }
}

/// Writes the trace of the run that a seed picks, of at most `to` events.
pub fn trace_bus<'a, O: Sink>(
    alloc: Global,
    loaded: &Loaded,
    seed: u64,
    steps: u64,
    shown: Shown,
    to: u64,
    out: &mut O,
) -> Result<bool, Refusal<'a>>
    requires one_home { loaded.now.settings.dirs ≡ 1 }
    requires few { steps ≤ run_limit }
    ensures told { IfOk result (IsBusTraceTold (started loaded.now) seed steps (View.Trace shown.from to shown.states)
        (record { before = O.page out.old; after = O.page out.new })) }
    ensures stopped { IfErr result (IsBusTraceStopped (started loaded.now) seed steps shown.from to shown.states
        (record { before = O.page out.old; after = O.page out.new })) }
{
    let Shown { from, states } = shown;
    match trace_on_bus(alloc, loaded, seed, steps.min(to), from, states, out) {
        Ok(done) => Ok(done),
        Err(broken) => Err(of_broken(broken)),
    }
}

/// The text of what was counted: all of it, or the totals as two rows for a table.
fn tables(
    alloc: Global,
    config: &Config,
    counted: &BusCounted,
    csv: bool,
    seed: Option<(u64, u64)>,
) -> Result<Finished, NoMemory>
    ensures done { IfOk result (λ f. f.done ≡ counted.now.done) }
    ensures text { IfOk result (λ f. string_bytes f.text
        ≡ (if csv then bus_csv_text config.now seed counted.now.done counted.now.events counted.now.counts
        else bus_count_text config.now counted.now.done counted.now.events counted.now.counts)) }
{
    let (done, events) = (counted.done, counted.events);
    let mut text = String::new(alloc);
    if csv {
        counted
            .counts
            .push_csv(&mut text, config, seed, done, events)?;
    } else {
        counted.counts.push_text(&mut text, config, done, events)?;
    }
    Ok(Finished { done, text })
}

/// What is counted of the run that a seed picks.
fn count_bus(
    alloc: Global,
    loaded: &Loaded,
    seed: u64,
    steps: u64,
    csv: bool,
) -> Result<Finished, NoMemory>
    requires one_home { loaded.now.settings.dirs ≡ 1 }
    requires few { steps ≤ run_limit }
    ensures { IfOk result (λ f. LookedAtBus (started loaded.now) seed steps (View.Count csv) f.done (string_bytes f.text)) }
{
    let counted = count_on_bus(alloc, loaded, seed, steps.min(MAX_COUNTED))?;
    tables(alloc, loaded.config(), &counted, csv, Some((seed, steps)))
}

/// The state after at most so many events of the run that a seed picks.
fn state_on_bus(
    alloc: Global,
    loaded: &Loaded,
    seed: u64,
    steps: u64,
    events: u64,
) -> Result<Finished, NoMemory>
    requires one_home { loaded.now.settings.dirs ≡ 1 }
    requires few { steps ≤ run_limit }
    ensures { IfOk result (λ f. LookedAtBus (started loaded.now) seed steps (View.State events) f.done (string_bytes f.text)) }
{
    let bus = bus_run(alloc, loaded, seed, steps.min(events))?;
    let done = bus.done();
    let text = bus_state(alloc, done, bus.events(), &bus)?;
    Ok(Finished { done, text })
}

/// What is told of the run that a seed picks.
pub fn look_on_bus(
    alloc: Global,
    loaded: &Loaded,
    seed: u64,
    steps: u64,
    view: View,
) -> Result<Finished, NoMemory>
    requires one_home { loaded.now.settings.dirs ≡ 1 }
    requires few { steps ≤ run_limit }
    requires untraced { IsUntraced view }
    ensures { IfOk result (λ f. LookedAtBus (started loaded.now) seed steps view f.done (string_bytes f.text)) }
{
    match view {
        View::Trace { .. } | View::Rows { .. } | View::Consoles { .. } => unreachable!(),
        View::Count { csv } => count_bus(alloc, loaded, seed, steps, csv),
        View::State { events } => state_on_bus(alloc, loaded, seed, steps, events),
    }
}
