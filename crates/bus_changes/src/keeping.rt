// What is kept of a machine for its next event.
ghost use Rattle.std.specs.Prelude.{◌≡◌, ◌<◌, ◌++◌, IfOk, OnOk, map, string_bytes};
ghost use Rattle.image_load.specs.Start.{first_ram};
ghost use Rattle.rules_bus.specs.State.{BusWorld};
ghost use Rattle.bus_tcc.specs.Machine.{bus_settings_of, bus_start_of, bus_world_of};
ghost use Rattle.bus_state.specs.Parts.{bus_records};
ghost use Rattle.bus_changes.specs.Changes.{Told, bus_change_lines};
ghost use Rattle.bus_changes.specs.Following.{Follows};
ghost use Rattle.bus_changes.specs.Plain.{Fits, IsKept, Looked};
ghost use Rattle.bus_changes.specs.Text.{bus_all_lines};

use crate::arbiter::push_arbiter;
use crate::cores::{begin_cores, fresh_core, renew_at};
use crate::lines::push_all_told;
use crate::memory::{copied_memory, push_memory};
use crate::packet::{copied, push_packet};
use bus_state::add_machine;
use bus_tcc::{Bus, BusSystem};
use std::alloc::{AllocError, Global};
use std::marker::Model;
use tcc_base::{CoreId, List, NoMemory, Tid};
use watch_state::Record;

/// The records of each core as they were when it acted last, who has the bus, the packet that is on it, and memory.
#[derive(Debug, Drop)]
pub struct BusKept {
    cores: List<List<Record>>,
    next: Tid,
    bus: Bus,
    ram: List<u32>,
}

impl Model for BusKept {
    ghost use Rattle.bus_changes.specs.Plain.{BusParts};

    ghost Value = { BusParts };

    ghost view = { λ k. record { cores = k.cores; next = k.next.0; bus = k.bus; ram = k.ram } };
}

/// All records of the bus and of memory.
fn push_machine(alloc: Global, text: &mut String, system: &BusSystem) -> Result<(), AllocError>
    ensures { OnOk result (string_bytes text.new ≡ string_bytes text.old ++ bus_change_lines (map Told
        (bus_records (bus_settings_of system.now) (first_ram (bus_start_of system.now)) (bus_world_of system.now)))) }
{
    let mut records = List::new(alloc);
    match add_machine(&mut records, system) {
        Ok(()) => push_all_told(text, &records.items),
        Err(NoMemory) => Err(AllocError),
    }
}

impl BusKept {
    /// What is kept of a machine, as it is. Appends the lines of all its records, as where a window begins.
    ///
    /// It takes time and memory for the records of each core and for all words of memory. After want of memory a part of the lines may
    /// stand there.
    pub fn begin(
        alloc: Global,
        text: &mut String,
        system: &BusSystem,
    ) -> Result<BusKept, AllocError>
        ensures kept { IfOk result (λ k. IsKept k (bus_settings_of system.now) (bus_world_of system.now)) }
        ensures told { OnOk result (string_bytes text.new ≡ string_bytes text.old
            ++ bus_all_lines (bus_settings_of system.now) (first_ram (bus_start_of system.now)) (bus_world_of system.now)) }
    {
        let cores = begin_cores(alloc, text, system)?;
        push_machine(alloc, text, system)?;
        Ok(BusKept {
            cores,
            next: system.next(),
            bus: copied(alloc, system.bus())?,
            ram: copied_memory(alloc, system)?,
        })
    }

    /// Looks at the machine again, of which this core has acted: appends the lines of what changed of the core's records, and of those of
    /// the bus and of memory, since the state that is kept, and keeps what there is now.
    ///
    /// No other core is looked at. It takes time in the core's registers and frames, in the cores, and in the lines of the packet that is
    /// on the bus; in the lines of RAM only while the core has spilled words, and at each commit of a machine with one core, which sends
    /// no packet. It takes memory for the core's records, for the packet's lines, and for the growth of the text. After want of memory a
    /// part of the lines may stand there, and what is kept is of no use.
    pub fn event(
        &mut self,
        alloc: Global,
        text: &mut String,
        system: &BusSystem,
        core: CoreId,
    ) -> Result<(), AllocError>
        requires exists { core.0 < (bus_settings_of system.now).cores }
        requires fits { Fits self.old (bus_settings_of system.now) }
        ensures { (w : BusWorld) → IsKept self.old (bus_settings_of system.now) w
            → Follows (bus_settings_of system.now) core.0 w (bus_world_of system.now)
            → OnOk result (Looked self.new system.now core.0 w (string_bytes text.old) (string_bytes text.new)) }
    {
        let fresh = fresh_core(alloc, system, core)?;
        renew_at(text, &mut self.cores, core.0, fresh)?;
        push_arbiter(text, self.next, &self.bus, system)?;
        push_packet(text, &self.bus, system.bus())?;
        push_memory(alloc, text, self.next, &mut self.ram, system)?;
        self.next = system.next();
        self.bus = copied(alloc, system.bus())?;
        Ok(())
    }
}
