// The events that are enabled, a line for each appended to a text. Where memory runs out, the text holds a part of them.
ghost use Rattle.std.specs.Prelude.{◌≡◌, ◌<◌, ◌++◌, [], codes, OnOk, string_bytes, if◌then◌else◌};
ghost use Rattle.rules_maps.specs.Bridge.{node_of};
ghost use Rattle.tcc_msg.specs.Plain.{event_of};
ghost use Rattle.rules_tcc.specs.Useful.{execs, evicts, delivers};
ghost use Rattle.schedule_text.specs.Grammar.{event_line};
ghost use Rattle.watch_trace.specs.Shown.{shown_event_of};
ghost use Rattle.net_core.specs.Machine.{program_of, settings_of, world_of};
ghost use Rattle.watch_state.specs.Events.{core_evicts, delivers_from, link_delivers, set_evicts};
ghost use Rattle.watch_state.specs.Text.{event_text, events_text};

use net_core::{System, node_at, node_count};
use schedule_text::push_event;
use std::alloc::AllocError;
use tcc_base::{CoreId, NodeId};
use tcc_msg::{Event, Name};

fn push_enabled(text: &mut String, event: Event, is_useful: bool) -> Result<(), AllocError>
    ensures { OnOk result (string_bytes text.new ≡ string_bytes text.old
        ++ ((if is_useful then codes "useful " else codes "useless ") ++ event_line (shown_event_of (event_of event)))) }
{
    text.push_str(if is_useful { "useful " } else { "useless " })?;
    push_event(text, &event)
}

/// The line of an event, where it is enabled.
#[tactic(auto, unfolding(crate::specs::Text::event_text, rules_tcc::specs::Step::is_enabled))]
fn push_if_enabled(text: &mut String, system: &System, event: Event) -> Result<(), AllocError>
    requires { system.now.unsent ≡ [] }
    ensures { OnOk result (string_bytes text.new ≡ string_bytes text.old
        ++ event_text (settings_of system.now) (program_of system.now) (world_of system.now) (event_of event)) }
{
    if system.enabled(event) {
        push_enabled(text, event, system.is_useful(event))?;
    }
    Ok(())
}

/// Each core's Exec.
#[tactic(auto, unfolding(rules_maps::specs::Words::those))]
fn push_execs(text: &mut String, system: &System) -> Result<(), AllocError>
    requires { system.now.unsent ≡ [] }
    ensures { let sh = settings_of system.now in OnOk result (string_bytes text.new ≡ string_bytes text.old
        ++ events_text sh (program_of system.now) (world_of system.now) (execs sh)) }
{
    for core in 0..system.config().cores() {
        push_if_enabled(text, system, Event::Exec(CoreId(core)))?;
    }
    Ok(())
}

/// The evictions of one set.
#[tactic(auto, unfolding(rules_maps::specs::Words::those))]
fn push_set_evicts(
    text: &mut String,
    system: &System,
    core: CoreId,
    set: u16,
) -> Result<(), AllocError>
    requires { system.now.unsent ≡ [] }
    ensures { let sh = settings_of system.now in OnOk result (string_bytes text.new ≡ string_bytes text.old
        ++ events_text sh (program_of system.now) (world_of system.now) (set_evicts sh core.0 set)) }
{
    for way in 0..system.config().ways() {
        push_if_enabled(text, system, Event::Evict(core, set, way))?;
    }
    Ok(())
}

/// The evictions of one core.
#[tactic(auto, unfolding(rules_maps::specs::Words::those, crate::specs::Text::events_text, crate::specs::Events::core_evicts))]
fn push_core_evicts(text: &mut String, system: &System, core: CoreId) -> Result<(), AllocError>
    requires { system.now.unsent ≡ [] }
    ensures { let sh = settings_of system.now in OnOk result (string_bytes text.new ≡ string_bytes text.old
        ++ events_text sh (program_of system.now) (world_of system.now) (core_evicts sh core.0)) }
{
    for set in 0..system.config().sets() {
        push_set_evicts(text, system, core, set)?;
    }
    Ok(())
}

/// All evictions, by core, set and way.
#[tactic(auto, unfolding(rules_maps::specs::Words::those, crate::specs::Text::events_text), using(crate::proofs::Parts::parts))]
fn push_evicts(text: &mut String, system: &System) -> Result<(), AllocError>
    requires { system.now.unsent ≡ [] }
    ensures { let sh = settings_of system.now in OnOk result (string_bytes text.new ≡ string_bytes text.old
        ++ events_text sh (program_of system.now) (world_of system.now) (evicts sh)) }
{
    for core in 0..system.config().cores() {
        push_core_evicts(text, system, CoreId(core))?;
    }
    Ok(())
}

/// The deliveries of one link. What isn't in flight can't be delivered.
fn push_link_delivers(
    text: &mut String,
    system: &System,
    src: NodeId,
    dst: NodeId,
) -> Result<(), AllocError>
    requires { system.now.unsent ≡ [] }
    ensures { let w = world_of system.now in OnOk result (string_bytes text.new ≡ string_bytes text.old
        ++ events_text (settings_of system.now) (program_of system.now) w (link_delivers w (node_of src) (node_of dst))) }
{
    for i in 0..system.flying(src, dst) {
        if let Some((seq, _)) = system.flying_at(src, dst, i) {
            push_if_enabled(text, system, Event::Deliver(Name { src, dst, seq }))?;
        }
    }
    Ok(())
}

/// The deliveries of what one node has sent.
#[tactic(auto, unfolding(crate::specs::Text::events_text, crate::specs::Events::delivers_from))]
fn push_delivers_from(text: &mut String, system: &System, src: NodeId) -> Result<(), AllocError>
    requires { system.now.unsent ≡ [] }
    ensures { let sh = settings_of system.now in let w = world_of system.now in OnOk result (string_bytes text.new
        ≡ string_bytes text.old ++ events_text sh (program_of system.now) w (delivers_from sh w (node_of src))) }
{
    let config = system.config();
    for place in 0..node_count(config) {
        if let Some(dst) = node_at(config, place) {
            push_link_delivers(text, system, src, dst)?;
        }
    }
    Ok(())
}

/// All deliveries, by source, destination and number.
#[tactic(auto, unfolding(crate::specs::Text::events_text), using(crate::proofs::Parts::parts))]
fn push_delivers(text: &mut String, system: &System) -> Result<(), AllocError>
    requires { system.now.unsent ≡ [] }
    ensures { let sh = settings_of system.now in let w = world_of system.now in OnOk result (string_bytes text.new
        ≡ string_bytes text.old ++ events_text sh (program_of system.now) w (delivers sh w)) }
{
    let config = system.config();
    for place in 0..node_count(config) {
        if let Some(src) = node_at(config, place) {
            push_delivers_from(text, system, src)?;
        }
    }
    Ok(())
}

/// All events that are enabled, in the order of useful events.
#[tactic(auto, unfolding(crate::specs::Text::events_text))]
pub(crate) fn push_all_enabled(text: &mut String, system: &System) -> Result<(), AllocError>
    requires { system.now.unsent ≡ [] }
    ensures { let sh = settings_of system.now in let w = world_of system.now in OnOk result (string_bytes text.new
        ≡ string_bytes text.old ++ events_text sh (program_of system.now) w (execs sh ++ (evicts sh ++ delivers sh w))) }
{
    push_execs(text, system)?;
    push_evicts(text, system)?;
    push_delivers(text, system)?;
    Ok(())
}
