// What is told of a run, event by event.
ghost use Rattle.std.specs.Prelude.{◌≡◌, ◌++◌, ◌+◌, ◌<◌, ◌≤◌, ◌==◌, [], IfOk, IfSome, OnOk, if◌then◌else◌, map, string_bytes};
ghost use Rattle.tcc_msg.specs.Plain.{event_of};
ghost use Rattle.net_core.specs.Limits.{machine_limit};
ghost use Rattle.net_core.specs.Machine.{history_of, program_of, settings_of, start_of, world_of};
ghost use Rattle.watch.specs.Happened.{happened};
ghost use Rattle.watch.specs.Plain.{fact_of};
ghost use Rattle.watch_trace.specs.Text.{event_and_facts, event_text};
ghost use Rattle.watch_changes.specs.Text.{added, shows};
ghost use Rattle.watch_changes.specs.Plain.{IsInside};
ghost use Rattle.watch_run.specs.Going.{Took};
ghost use Rattle.watch_run.specs.Telling.{IsLook, IsTold};

use net_core::System;
use std::alloc::{AllocError, Global};
use tcc_base::{List, NoMemory};
use tcc_msg::Event;
use watch::Fact;
use watch_changes::{Before, begin as begin_records};
use watch_machine::watch;
use watch_trace::push_event_facts;

/// What a trace shows of a run.
#[derive(Clone, Copy, Debug, PartialEq, Eq)]
pub struct Shown {
    /// The number of the first event that is shown, where the first one of the run is number 0.
    pub from: u64,
    /// Whether records are shown besides the facts: all of them where the window begins, and below each event those that changed.
    pub states: bool,
}

/// Takes an event, and leaves in `facts` what it did.
fn take(system: &mut System, e: Event, facts: &mut List<Fact>) -> Result<(), NoMemory>
    requires few { system.old.events < machine_limit }
    ensures took { OnOk result (Took system.old system.new (event_of e)) }
    ensures facts { OnOk result (map fact_of facts.new
        ≡ happened (settings_of system.old) (program_of system.old) (history_of system.old) (event_of e)) }
{
    match watch(system, e, facts) {
        Ok(()) => Ok(()),
        Err(_) => Err(NoMemory),
    }
}

/// The lines of all records, where records are shown.
fn begin_window(
    alloc: Global,
    states: bool,
    system: &System,
    text: &mut String,
) -> Result<(), NoMemory>
    requires { system.now.unsent ≡ [] }
    ensures { OnOk result (string_bytes text.new
        ≡ string_bytes text.old ++ (shows states (start_of system.now)).begins (world_of system.now)) }
{
    if !states {
        return Ok(());
    }
    match begin_records(alloc, text, system) {
        Ok(()) => Ok(()),
        Err(_) => Err(NoMemory),
    }
}

/// The records that an event may change, as they are before it, where records are shown.
fn look(alloc: Global, states: bool, system: &System, e: Event) -> Result<Option<Before>, NoMemory>
    ensures { IfOk result (λ before. IsLook states before system.now (event_of e)) }
{
    if states {
        return match Before::look(alloc, system, e) {
            Ok(before) => Ok(Some(before)),
            Err(_) => Err(NoMemory),
        };
    }
    Ok(None)
}

/// What changed of them.
fn tell_changes(
    alloc: Global,
    before: &Option<Before>,
    system: &System,
    text: &mut String,
) -> Result<(), AllocError>
    requires { IfSome before.now (λ b. IsInside (settings_of system.now) b.part) }
    ensures { OnOk result (IsTold before.now system.now (string_bytes text.old) (string_bytes text.new)) }
{
    match before {
        Some(before) => before.tell(alloc, text, system),
        None => Ok(()),
    }
}

/// The text of an event that a machine has taken: what it did, and what it changed, where records are shown.
fn tell_event(
    alloc: Global,
    before: &Option<Before>,
    system: &System,
    e: Event,
    facts: &[Fact],
    text: &mut String,
) -> Result<(), NoMemory>
    requires { IfSome before.now (λ b. IsInside (settings_of system.now) b.part) }
    ensures { OnOk result (IsTold before.now system.now
        (string_bytes text.old ++ event_and_facts (event_of e) (map fact_of facts.now)) (string_bytes text.new)) }
{
    match push_event_facts(text, &e, facts) {
        Ok(()) => {}
        Err(_) => return Err(NoMemory),
    }
    match tell_changes(alloc, before, system, text) {
        Ok(()) => Ok(()),
        Err(_) => Err(NoMemory),
    }
}

/// Before the first event of a run: where no event is left out, the window begins here.
pub(crate) fn begin(
    alloc: Global,
    shown: Shown,
    system: &System,
    text: &mut String,
) -> Result<(), NoMemory>
    requires { system.now.unsent ≡ [] }
    ensures { OnOk result (string_bytes text.new ≡ string_bytes text.old ++ (if shown.from == 0
        then (shows shown.states (start_of system.now)).begins (world_of system.now) else [])) }
{
    if shown.from != 0 {
        return Ok(());
    }
    begin_window(alloc, shown.states, system, text)
}

/// Takes an event of the window, and appends its text.
fn shown_event(
    alloc: Global,
    system: &mut System,
    e: Event,
    states: bool,
    facts: &mut List<Fact>,
    text: &mut String,
) -> Result<(), NoMemory>
    requires few { system.old.events < machine_limit }
    ensures took { OnOk result (Took system.old system.new (event_of e)) }
    ensures text { OnOk result (string_bytes text.new ≡ string_bytes text.old
        ++ (event_text (settings_of system.old) (program_of system.old) (history_of system.old) (event_of e)
        ++ (shows states (start_of system.old)).event (world_of system.old) (world_of system.new) (event_of e))) }
{
    let before = look(alloc, states, system, e)?;
    take(system, e, facts)?;
    tell_event(alloc, &before, system, e, &facts.items, text)
}

/// Takes event number `number`, and appends what it adds: its text in the window, and just before the window all records. `facts` is a
/// place for what the event did.
pub(crate) fn event(
    alloc: Global,
    system: &mut System,
    e: Event,
    shown: Shown,
    number: u32,
    facts: &mut List<Fact>,
    text: &mut String,
) -> Result<(), NoMemory>
    requires few { system.old.events < machine_limit }
    ensures took { OnOk result (Took system.old system.new (event_of e)) }
    ensures text { OnOk result (string_bytes text.new ≡ string_bytes text.old
        ++ added (shows shown.states (start_of system.old)) (settings_of system.old) (program_of system.old)
        shown.from number (event_of e) (history_of system.old) (history_of system.new)) }
{
    let number = number as u64;
    if shown.from <= number {
        return shown_event(alloc, system, e, shown.states, facts, text);
    }
    take(system, e, facts)?;
    if shown.from == number + 1 {
        return begin_window(alloc, shown.states, system, text);
    }
    Ok(())
}
