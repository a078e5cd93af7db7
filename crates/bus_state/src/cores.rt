// The cores, the records of each appended to a list or to a text. Where memory runs out, it holds a part of them.
ghost use Rattle.std.specs.Prelude.{◌≡◌, ◌<◌, ◌++◌, OnOk, string_bytes, map};
ghost use Rattle.bus_tcc.specs.Machine.{bus_settings_of, bus_world_of};
ghost use Rattle.watch_state.specs.Lines.{record_lines};
ghost use Rattle.watch_state.specs.Plain.{record_of};
ghost use Rattle.bus_state.specs.Parts.{bus_core_records, cores_records};

use bus_tcc::BusSystem;
use std::alloc::{AllocError, Global};
use tcc_base::{CoreId, List, NoMemory};
use watch_state::{Record, add_cached, add_progress, add_registers, push_records};

/// Appends the records of a core of the machine. It takes time in its registers and the frames of its cache, and in the lines of RAM only
/// while it has spilled words. After want of memory a part of them may stand there.
pub fn add_bus_core(
    records: &mut List<Record>,
    system: &BusSystem,
    id: CoreId,
) -> Result<(), NoMemory>
    requires { id.0 < (bus_settings_of system.now).cores }
    ensures { OnOk result (map record_of records.new ≡ map record_of records.old
        ++ bus_core_records (bus_settings_of system.now) id.0 ((bus_world_of system.now).cores id.0)) }
{
    let core = system.core(id);
    add_progress(records, id, core.core())?;
    add_registers(records, id, core.core())?;
    add_cached(records, id, core)
}

fn push_core(
    text: &mut String,
    records: &mut List<Record>,
    id: CoreId,
    system: &BusSystem,
) -> Result<(), AllocError>
    requires { id.0 < (bus_settings_of system.now).cores }
    ensures { OnOk result (string_bytes text.new ≡ string_bytes text.old
        ++ record_lines (bus_core_records (bus_settings_of system.now) id.0 ((bus_world_of system.now).cores id.0))) }
{
    records.items.clear();
    add_bus_core(records, system, id).map_err(|_| AllocError)?;
    push_records(text, &records.items)
}

/// The records of all cores. It takes memory for those of one.
#[tactic(auto, unfolding(rules_maps::specs::Words::those, watch_state::specs::Lines::record_lines, crate::specs::Parts::cores_records))]
pub(crate) fn push_cores(
    alloc: Global,
    text: &mut String,
    system: &BusSystem,
) -> Result<(), AllocError>
    ensures { OnOk result (string_bytes text.new ≡ string_bytes text.old
        ++ record_lines (cores_records (bus_settings_of system.now) (bus_world_of system.now))) }
{
    let mut records = List::new(alloc);
    for core in 0..system.config().cores() {
        push_core(text, &mut records, CoreId(core), system)?;
    }
    Ok(())
}
