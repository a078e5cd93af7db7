// What is counted of a run while it goes on.
ghost use Rattle.std.specs.Prelude.{◌≡◌, ◌+◌, ◌<◌, ◌≤◌, [], IfOk, OnOk, length, map};
ghost use Rattle.image_load.specs.Contents.{started};
ghost use Rattle.net_core.specs.Answers.{step_of};
ghost use Rattle.net_core.specs.Limits.{machine_limit};
ghost use Rattle.net_core.specs.Machine.{history_of, program_of, settings_of, start_of, world_of};
ghost use Rattle.rules_riscv.specs.Starting.{at_start, world_at_start};
ghost use Rattle.tcc_msg.specs.Plain.{event_of};
ghost use Rattle.watch.specs.Happened.{actor as plain_actor, happened};
ghost use Rattle.watch.specs.Plain.{fact_of};
ghost use Rattle.watch_count.specs.Counts.{event_counted};
ghost use Rattle.watch_machine.specs.Watched.{noted_by, told_commit};
ghost use Rattle.watch_run.specs.Forgetting.{StillKeeps};
ghost use Rattle.watch_run.specs.Going.{Took};
ghost use Rattle.watch_run.specs.Looked.{CountedMore, IsCounted};
ghost use Rattle.tcc_base.specs.Settings.{IsAllowed};

use crate::events::{Events, settings_are_allowed};
use image_load::Loaded;
use net_core::{Step, System};
use std::alloc::Global;
use tcc_base::{List, NoMemory};
use tcc_msg::Event;
use watch::Fact;
use watch_count::Counts;
use watch_machine::{actor, watch_node};

/// Commits are forgotten where there are at least so many.
const FEWEST: usize = 1_024;

/// What was counted of a run, whether it is done, and how many events it took.
#[derive(Debug, Drop)]
pub struct Counted {
    pub counts: Counts,
    pub done: bool,
    pub events: u64,
}

/// Counts what an event did at its node.
fn count_facts(e: Event, facts: &List<Fact>, counts: &mut Counts) -> Result<(), NoMemory>
    ensures { OnOk result (counts.new ≡ event_counted (plain_actor (event_of e)) (map fact_of facts.now) counts.old) }
{
    counts.event(actor(e), &facts.items)
}

/// Takes an event, and counts what it did: the step that was taken. What it sent is counted as it stands in the machine: no order and no
/// numbers are wanted for it.
pub(crate) fn count_event(
    system: &mut System,
    e: Event,
    facts: &mut List<Fact>,
    counts: &mut Counts,
) -> Result<Step, NoMemory>
    requires few { system.old.events < machine_limit }
    ensures took { OnOk result (Took system.old system.new (event_of e)) }
    ensures counted { OnOk result (counts.new ≡ event_counted (plain_actor (event_of e))
        (happened (settings_of system.old) (program_of system.old) (history_of system.old) (event_of e)) counts.old) }
    ensures noted { IfOk result (λ step. told_commit step system.new.commits ≡ noted_by (step_of system.old (event_of e))) }
{
    let step = match watch_node(system, e, facts) {
        Ok(step) => step,
        Err(_) => return Err(NoMemory),
    };
    count_facts(e, facts, counts)?;
    counts.sent(system.last_sent())?;
    Ok(step)
}

/// Forgets the commits that all directories have passed, where twice as many are kept as after the last time: so it takes a constant time
/// for each commit.
pub(crate) fn forget_passed(system: &mut System, last: &mut usize)
    ensures { StillKeeps system.old system.new }
{
    let kept = system.commits().len();
    if kept < FEWEST || kept / 2 < *last {
        return;
    }
    system.forget();
    *last = system.commits().len();
}

/// Takes the events that are to come, at most so many, and counts what they did.
pub(crate) fn count_events<E: Events>(
    alloc: Global,
    system: &mut System,
    events: &mut E,
    most: u64,
    counts: &mut Counts,
) -> Result<(), NoMemory>
    requires settled { system.old.unsent ≡ [] }
    requires few { system.old.events + most ≤ machine_limit }
    requires enough { length (E.coming events.old (start_of system.old) (world_of system.old)) ≤ most }
    ensures { OnOk result (CountedMore system.old system.new counts.old counts.new
        (E.coming events.old (start_of system.old) (world_of system.old))) }
{
    let mut facts = List::new(alloc);
    let mut kept = 0;
    for _ in 0..most {
        let Some(e) = events.next(system) else {
            return Ok(());
        };
        count_event(system, e, &mut facts, counts)?;
        forget_passed(system, &mut kept);
    }
    Ok(())
}

/// Counts what the events that are to come do in the run of a machine that has taken no event yet.
fn count_from_start<E: Events>(
    alloc: Global,
    system: &mut System,
    events: &mut E,
    most: u64,
) -> Result<Counted, NoMemory>
    requires allowed { IsAllowed (settings_of system.old) }
    requires first { history_of system.old ≡ at_start (start_of system.old) }
    requires none { system.old.events ≡ 0 }
    requires settled { system.old.unsent ≡ [] }
    requires few { most ≤ machine_limit }
    requires enough { length (E.coming events.old (start_of system.old) (world_of system.old)) ≤ most }
    ensures { IfOk result (λ c. IsCounted (start_of system.old)
        (E.coming events.old (start_of system.old) (world_of system.old)) c.done c.events c.counts) }
{
    let mut counts = Counts::new(alloc, system.config())?;
    count_events(alloc, system, events, most, &mut counts)?;
    Ok(Counted {
        counts,
        done: system.done(),
        events: system.events(),
    })
}

/// Counts what the events that are to come do in the run from what was loaded, at most so many. The time is that of the events, and a
/// constant for each fact of an event; the memory is that of the tables and of the machine, which forgets the commits that all directories
/// have passed.
pub fn count<E: Events>(
    alloc: Global,
    loaded: &Loaded,
    events: &mut E,
    most: u64,
) -> Result<Counted, NoMemory>
    requires few { most ≤ machine_limit }
    requires enough { length (E.coming events.old (started loaded.now) (world_at_start (started loaded.now))) ≤ most }
    ensures { IfOk result (λ c. IsCounted (started loaded.now)
        (E.coming events.old (started loaded.now) (world_at_start (started loaded.now))) c.done c.events c.counts) }
{
    settings_are_allowed(loaded.config());
    let mut system = System::start(alloc, loaded)?;
    count_from_start(alloc, &mut system, events, most)
}
