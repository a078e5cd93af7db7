// The events that are enabled, a line for each appended to a text. Where memory runs out, the text holds a part of them.
ghost use Rattle.std.specs.Prelude.{◌≡◌, ◌<◌, ◌&&◌, ◌++◌, codes, is_some, OnOk, string_bytes, if◌then◌else◌};
ghost use Rattle.rules_bus.specs.State.{Evict};
ghost use Rattle.rules_bus.specs.Useful.{bus_evicts, bus_execs, bus_takes, is_of_use as plain_is_of_use};
ghost use Rattle.bus_tcc.specs.Machine.{bus_event_of, bus_program_of, bus_settings_of, bus_world_of};
ghost use Rattle.bus_trace.specs.Lines.{bus_event_line};
ghost use Rattle.bus_watch.specs.Happened.{core_of};
ghost use Rattle.bus_state.specs.Text.{core_evicts, enabled_lines, enabled_text, set_evicts};
ghost use Rattle.rules_tcc.specs.Useful.{is_this_set, room};

use bus_tcc::{BusEvent, BusSystem};
use bus_trace::push_bus_event;
use std::alloc::AllocError;
use tcc_base::CoreId;

/// Whether a core waits for room in this set.
fn waits_for_room_in(system: &BusSystem, core: CoreId, set: u16) -> bool
    requires { core.0 < (bus_settings_of system.now).cores }
    ensures { result ≡ is_this_set
        (room (bus_settings_of system.now) (bus_program_of system.now) ((bus_world_of system.now).cores core.0)) set }
{
    match system.core(core).waits_for_room(system.code()) {
        Some(wanted) => wanted == set,
        None => false,
    }
}

/// Whether an event of a core is of use where it is enabled.
fn is_of_use(system: &BusSystem, event: BusEvent) -> bool
    requires { core_of (bus_event_of event) < (bus_settings_of system.now).cores }
    ensures { result ≡ plain_is_of_use (bus_settings_of system.now) (bus_program_of system.now) (bus_world_of system.now)
        (bus_event_of event) }
{
    match event {
        BusEvent::Exec(_) => true,
        BusEvent::Evict(core, set, _) => waits_for_room_in(system, core, set),
        BusEvent::Take(_) => true,
    }
}

fn push_enabled(text: &mut String, event: BusEvent, is_useful: bool) -> Result<(), AllocError>
    ensures { OnOk result (string_bytes text.new ≡ string_bytes text.old
        ++ ((if is_useful then codes "useful " else codes "useless ") ++ bus_event_line (bus_event_of event))) }
{
    text.push_str(if is_useful { "useful " } else { "useless " })?;
    push_bus_event(text, &event)
}

/// The line of an event, where it is enabled.
#[tactic(auto, unfolding(crate::specs::Text::enabled_text, rules_bus::specs::Useful::bus_is_useful))]
fn push_if_enabled(text: &mut String, system: &BusSystem, event: BusEvent) -> Result<(), AllocError>
    requires { core_of (bus_event_of event) < (bus_settings_of system.now).cores }
    ensures { OnOk result (string_bytes text.new ≡ string_bytes text.old ++ enabled_text
        (bus_settings_of system.now) (bus_program_of system.now) (bus_world_of system.now) (bus_event_of event)) }
{
    if system.enabled(event) {
        push_enabled(text, event, is_of_use(system, event))?;
    }
    Ok(())
}

/// Each core's Exec.
#[tactic(auto, unfolding(rules_maps::specs::Words::those))]
fn push_execs(text: &mut String, system: &BusSystem) -> Result<(), AllocError>
    ensures { let sh = bus_settings_of system.now in OnOk result (string_bytes text.new ≡ string_bytes text.old
        ++ enabled_lines sh (bus_program_of system.now) (bus_world_of system.now) (bus_execs sh)) }
{
    for core in 0..system.config().cores() {
        push_if_enabled(text, system, BusEvent::Exec(CoreId(core)))?;
    }
    Ok(())
}

/// The evictions of one set.
#[tactic(auto, unfolding(rules_maps::specs::Words::those))]
fn push_set_evicts(
    text: &mut String,
    system: &BusSystem,
    core: CoreId,
    set: u16,
) -> Result<(), AllocError>
    requires { core.0 < (bus_settings_of system.now).cores }
    ensures { let sh = bus_settings_of system.now in OnOk result (string_bytes text.new ≡ string_bytes text.old
        ++ enabled_lines sh (bus_program_of system.now) (bus_world_of system.now) (set_evicts sh core.0 set)) }
{
    for way in 0..system.config().ways() {
        push_if_enabled(text, system, BusEvent::Evict(core, set, way))?;
    }
    Ok(())
}

/// The evictions of one core.
#[tactic(auto, unfolding(rules_maps::specs::Words::those, crate::specs::Text::enabled_lines, crate::specs::Text::core_evicts))]
fn push_core_evicts(text: &mut String, system: &BusSystem, core: CoreId) -> Result<(), AllocError>
    requires { core.0 < (bus_settings_of system.now).cores }
    ensures { let sh = bus_settings_of system.now in OnOk result (string_bytes text.new ≡ string_bytes text.old
        ++ enabled_lines sh (bus_program_of system.now) (bus_world_of system.now) (core_evicts sh core.0)) }
{
    for set in 0..system.config().sets() {
        push_set_evicts(text, system, core, set)?;
    }
    Ok(())
}

/// All evictions, by core, set and way.
#[tactic(auto, unfolding(rules_maps::specs::Words::those, crate::specs::Text::enabled_lines), using(crate::proofs::Parts::parts))]
fn push_evicts(text: &mut String, system: &BusSystem) -> Result<(), AllocError>
    ensures { let sh = bus_settings_of system.now in OnOk result (string_bytes text.new ≡ string_bytes text.old
        ++ enabled_lines sh (bus_program_of system.now) (bus_world_of system.now) (bus_evicts sh)) }
{
    for core in 0..system.config().cores() {
        push_core_evicts(text, system, CoreId(core))?;
    }
    Ok(())
}

/// Each core's Take.
#[tactic(auto, unfolding(rules_maps::specs::Words::those))]
fn push_takes(text: &mut String, system: &BusSystem) -> Result<(), AllocError>
    ensures { let sh = bus_settings_of system.now in OnOk result (string_bytes text.new ≡ string_bytes text.old
        ++ enabled_lines sh (bus_program_of system.now) (bus_world_of system.now) (bus_takes sh)) }
{
    for core in 0..system.config().cores() {
        push_if_enabled(text, system, BusEvent::Take(CoreId(core)))?;
    }
    Ok(())
}

/// All events that are enabled, in the order of useful events.
#[tactic(auto, unfolding(crate::specs::Text::enabled_lines))]
pub(crate) fn push_all_enabled(text: &mut String, system: &BusSystem) -> Result<(), AllocError>
    ensures { let sh = bus_settings_of system.now in OnOk result (string_bytes text.new ≡ string_bytes text.old ++ enabled_lines sh
        (bus_program_of system.now) (bus_world_of system.now) (bus_execs sh ++ (bus_evicts sh ++ bus_takes sh))) }
{
    push_execs(text, system)?;
    push_evicts(text, system)?;
    push_takes(text, system)?;
    Ok(())
}
