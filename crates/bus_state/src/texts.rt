// The whole text.
ghost use Rattle.std.specs.Prelude.{◌≡◌, ◌++◌, IfOk, OnOk, string_bytes};
ghost use Rattle.image_load.specs.Start.{first_ram};
ghost use Rattle.bus_tcc.specs.Machine.{bus_history_of, bus_settings_of, bus_start_of, bus_world_of};
ghost use Rattle.bus_state.specs.Lines.{bus_record_lines};
ghost use Rattle.bus_state.specs.Parts.{bus_records};
ghost use Rattle.bus_state.specs.Text.{bus_state_text};

use crate::cores::push_cores;
use crate::events::push_all_enabled;
use crate::lines::push_bus_records;
use crate::machine::add_machine;
use bus_tcc::BusSystem;
use bus_trace::push_bus_config;
use report_text::{push_end, push_events};
use std::alloc::{AllocError, Global};
use tcc_base::{List, NoMemory};

/// The records of the bus and of memory. It takes memory for them.
fn push_machine(alloc: Global, text: &mut String, system: &BusSystem) -> Result<(), AllocError>
    ensures { OnOk result (string_bytes text.new ≡ string_bytes text.old ++ bus_record_lines
        (bus_records (bus_settings_of system.now) (first_ram (bus_start_of system.now)) (bus_world_of system.now))) }
{
    let mut records = List::new(alloc);
    add_machine(&mut records, system).map_err(|_| AllocError)?;
    push_bus_records(text, &records.items)
}

fn state_or_error(
    alloc: Global,
    done: bool,
    events: u64,
    system: &BusSystem,
) -> Result<String, AllocError>
    ensures { IfOk result (λ text. string_bytes text
        ≡ bus_state_text (bus_start_of system.now) done events (bus_history_of system.now)) }
{
    let mut text = String::from_str(alloc, "tcc-bus-state 1\n")?;
    push_bus_config(&mut text, system.config())?;
    push_cores(alloc, &mut text, system)?;
    push_machine(alloc, &mut text, system)?;
    push_all_enabled(&mut text, system)?;
    push_end(&mut text, done)?;
    push_events(&mut text, events)?;
    Ok(text)
}

/// The state of a machine: a record for each part of it that isn't as before the first event, core by core, then of the bus and of memory;
/// the events that are enabled, each with whether it is useful; whether its run is done and how many events it took, as the caller says.
///
/// Takes time in the lines of RAM, for a core that has spilled words once more, and in the frames of all caches; takes memory for the text,
/// the records of one core, and those of memory. Fails only for want of memory.
pub fn bus_state(
    alloc: Global,
    done: bool,
    events: u64,
    system: &BusSystem,
) -> Result<String, NoMemory>
    ensures { IfOk result (λ text. string_bytes text
        ≡ bus_state_text (bus_start_of system.now) done events (bus_history_of system.now)) }
{
    state_or_error(alloc, done, events, system).map_err(|_| NoMemory)
}
