// Runs that are looked at: what is counted of them, and the state that they come to.
ghost use Rattle.std.specs.Prelude.{◌≡◌, ◌≤◌, [], IfErr, IfOk, length, map, Some, None, if◌then◌else◌};
ghost use Rattle.std.specs.String.{string_bytes};
ghost use Rattle.image_load.specs.Contents.{started};
ghost use Rattle.net_core.specs.Machine.{history_of};
ghost use Rattle.tcc_cli.specs.Failing.{IsUntraced};
ghost use Rattle.tcc_cli.specs.Looks.{ArePicked, AreFirst, IsFirstRefused, LookedAt, most_of as plain_most_of, view_text};
ghost use Rattle.tcc_cli.specs.Runs.{EndsBy};
ghost use Rattle.tcc_msg.specs.Plain.{event_of};
ghost use Rattle.tcc_words.specs.Bounds.{most_steps};
ghost use Rattle.tcc_words.specs.Fields.{count_limit};
ghost use Rattle.watch_count.specs.Csv.{csv_text};
ghost use Rattle.watch_count.specs.Text.{count_text};
ghost use Rattle.watch_state.specs.Text.{state_text};
ghost use Rattle.tcc_base.specs.Limits.{run_limit};

use crate::laid::settings_are_allowed;
use crate::picking::pick;
use crate::refusal::Refusal;
use crate::reports::Finished;
use crate::schedules::run_first;
use image_load::Loaded;
use net_core::System;
use rules_tcc::a_picked_schedule_is_a_run;
use std::alloc::Global;
use tcc_base::{Config, NoMemory};
use tcc_msg::Event;
use tcc_refine::Refined;
use tcc_words::{MAX_COUNTED, View};
use watch_count::Counts;
use watch_run::{Counted, Listed, Picked, count};
use watch_state::state;

/// The text of what was counted: all of it, or the totals as two rows for a table.
pub fn tables(
    alloc: Global,
    config: &Config,
    counts: &Counts,
    done: bool,
    events: u64,
    csv: bool,
    seed: Option<(u64, u64)>,
) -> Result<Finished, NoMemory>
    ensures done { IfOk result (λ f. f.done ≡ done) }
    ensures text { IfOk result (λ f. string_bytes f.text
        ≡ (if csv then csv_text config.now seed done events counts.now else count_text config.now done events counts.now)) }
{
    let mut text = String::new(alloc);
    if csv {
        counts.push_csv(&mut text, config, seed, done, events)?;
    } else {
        counts.push_text(&mut text, config, done, events)?;
    }
    Ok(Finished { done, text })
}

/// The text of a run that was counted to its end.
fn counted_tables(
    alloc: Global,
    config: &Config,
    counted: &Counted,
    csv: bool,
    seed: Option<(u64, u64)>,
) -> Result<Finished, NoMemory>
    ensures done { IfOk result (λ f. f.done ≡ counted.now.done) }
    ensures text { IfOk result (λ f. string_bytes f.text
        ≡ (if csv then csv_text config.now seed counted.now.done counted.now.events counted.now.counts
        else count_text config.now counted.now.done counted.now.events counted.now.counts)) }
{
    tables(
        alloc,
        config,
        &counted.counts,
        counted.done,
        counted.events,
        csv,
        seed,
    )
}

/// What is counted of the run that a seed picks.
fn count_picked(
    alloc: Global,
    loaded: &Loaded,
    seed: u64,
    steps: u64,
    csv: bool,
) -> Result<Finished, NoMemory>
    requires few { steps ≤ count_limit }
    ensures { IfOk result (λ f. LookedAt (started loaded.now) (ArePicked (started loaded.now) seed steps count_limit)
        (view_text (View.Count csv) (Some (seed, steps)) (started loaded.now)) f.done (string_bytes f.text)) }
{
    a_picked_schedule_is_a_run();
    let most = steps.min(MAX_COUNTED);
    let mut events = Picked::new(seed, most);
    let counted = count(alloc, loaded, &mut events, most)?;
    counted_tables(alloc, loaded.config(), &counted, csv, Some((seed, steps)))
}

/// What is counted of the run by these events.
fn count_listed(
    alloc: Global,
    loaded: &Loaded,
    listed: &[Event],
    csv: bool,
) -> Result<Finished, NoMemory>
    requires few { length listed.now ≤ run_limit }
    ensures { IfOk result (λ f. LookedAt (started loaded.now) (λ es. es ≡ map event_of listed.now)
        (view_text (View.Count csv) None (started loaded.now)) f.done (string_bytes f.text)) }
{
    let mut events = Listed::new(listed);
    let counted = count(alloc, loaded, &mut events, listed.len() as u64)?;
    counted_tables(alloc, loaded.config(), &counted, csv, None)
}

/// The state of a machine as it stands, which began with what was loaded.
fn state_of(alloc: Global, loaded: &Loaded, system: &System) -> Result<Finished, NoMemory>
    requires code { system.now.cores.code ≡ loaded.now }
    requires settled { system.now.unsent ≡ [] }
    ensures runs { IfOk result (λ f. EndsBy (started loaded.now) f.done (history_of system.now)) }
    ensures text { IfOk result (λ f. string_bytes f.text ≡ state_text (started loaded.now) f.done system.now.events (history_of system.now)) }
{
    settings_are_allowed(loaded.config());
    let done = system.done();
    let text = state(alloc, done, system.events(), system)?;
    Ok(Finished { done, text })
}

/// What is told of the run by the events that a machine took, which began with what was loaded.
fn look_at_taken(
    alloc: Global,
    loaded: &Loaded,
    refined: &Refined,
    view: View,
) -> Result<Finished, NoMemory>
    requires code { refined.now.machine.cores.code ≡ loaded.now }
    requires few { length refined.now.taken ≤ run_limit }
    requires settled { refined.now.machine.unsent ≡ [] }
    requires untraced { IsUntraced view }
    ensures { IfOk result (λ f. LookedAt (started loaded.now) (λ es. es ≡ map event_of refined.now.taken)
        (view_text view None (started loaded.now)) f.done (string_bytes f.text)) }
{
    let taken = refined.taken();
    match view {
        View::Trace { .. } | View::Rows { .. } | View::Consoles { .. } => unreachable!(),
        View::Count { csv } => count_listed(alloc, loaded, taken, csv),
        View::State { .. } => state_of(alloc, loaded, refined.system()),
    }
}

/// How many events are taken at most.
fn most_of(view: View) -> u64
    ensures { result ≡ plain_most_of view }
{
    match view {
        View::Trace { to, .. } => to,
        View::Count { .. } | View::Rows { .. } | View::Consoles { .. } => MAX_COUNTED,
        View::State { events } => events,
    }
}

/// What is told of the run that a seed picks.
pub fn look_by_seed(
    alloc: Global,
    loaded: &Loaded,
    seed: u64,
    steps: u64,
    view: View,
) -> Result<Finished, NoMemory>
    requires few { steps ≤ most_steps view }
    requires untraced { IsUntraced view }
    ensures { IfOk result (λ f. LookedAt (started loaded.now) (ArePicked (started loaded.now) seed steps (plain_most_of view))
        (view_text view (Some (seed, steps)) (started loaded.now)) f.done (string_bytes f.text)) }
{
    match view {
        View::Trace { .. } | View::Rows { .. } | View::Consoles { .. } => unreachable!(),
        View::Count { csv } => count_picked(alloc, loaded, seed, steps, csv),
        View::State { events } => {
            let system = pick(alloc, loaded, seed, steps.min(events))?;
            state_of(alloc, loaded, &system)
        }
    }
}

/// What is told of the run of the schedule that a file holds; or the line at which it is refused.
pub fn look_by_schedule<'a>(
    alloc: Global,
    loaded: &Loaded,
    config: &Config,
    bytes: &[u8],
    view: View,
) -> Result<Finished, Refusal<'a>>
    requires settings { loaded.now.settings ≡ config.now }
    requires untraced { IsUntraced view }
    ensures looked { IfOk result (λ f. LookedAt (started loaded.now) (AreFirst config.now bytes.now (plain_most_of view))
        (view_text view None (started loaded.now)) f.done (string_bytes f.text)) }
    ensures refused { IfErr result (IsFirstRefused (started loaded.now) config.now bytes.now (plain_most_of view)) }
{
    match run_first(alloc, loaded, config, bytes, most_of(view)) {
        Ok(refined) => match look_at_taken(alloc, loaded, &refined, view) {
            Ok(finished) => Ok(finished),
            Err(NoMemory) => Err(Refusal::Memory),
        },
        Err(refusal) => Err(refusal),
    }
}
