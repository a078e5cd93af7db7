// The bus and memory, each record appended to a list. Where memory runs out, the list holds a part of them.
ghost use Rattle.std.specs.Prelude.{◌≡◌, ◌≤◌, ◌++◌, ◌∷◌, [], OnOk, map};
ghost use Rattle.image_load.specs.Start.{first_ram};
ghost use Rattle.bus_tcc.specs.Left.{packet_words};
ghost use Rattle.bus_tcc.specs.Machine.{bus_of, bus_settings_of, bus_start_of, bus_world_of};
ghost use Rattle.bus_tcc.specs.Packets.{packet_line_of};
ghost use Rattle.bus_state.specs.Parts.{bus_records, holding, packet_records};
ghost use Rattle.bus_state.specs.Plain.{bus_record_of, holding_of as plain_holding};
ghost use Rattle.bus_state.specs.Records.{ArbiterIs, PacketHas};

use crate::memory::add_memory;
use crate::records::{BusRecord, Holding};
use bus_tcc::{Bus, BusSystem, CoreSet};
use tcc_base::{List, NoMemory, Tagged, Tid};
use watch_state::only_below;

/// Who has the bus, of a machine with so many cores.
fn holding_of(bus: &Bus, cores: u8) -> Holding
    requires { cores ≤ 64 }
    ensures { plain_holding result ≡ holding cores (bus_of bus.now) }
{
    match bus {
        Bus::Free => Holding::Nobody,
        Bus::Alone(core) => Holding::Core(*core),
        Bus::Packet(packet) => Holding::Left(CoreSet {
            bits: only_below(packet.left.bits, cores),
        }),
    }
}

fn add_arbiter(
    records: &mut List<BusRecord>,
    next: Tid,
    bus: &Bus,
    cores: u8,
) -> Result<(), NoMemory>
    requires { cores ≤ 64 }
    ensures { OnOk result (map bus_record_of records.new
        ≡ map bus_record_of records.old ++ ArbiterIs next.0 (holding cores (bus_of bus.now)) ∷ []) }
{
    let holding = holding_of(bus, cores);
    records.push(BusRecord::ArbiterIs { next, holding })
}

/// The lines of a packet.
fn add_packet(records: &mut List<BusRecord>, lines: &[Tagged]) -> Result<(), NoMemory>
    ensures { OnOk result (map bus_record_of records.new
        ≡ map bus_record_of records.old ++ map PacketHas (map packet_line_of lines.now)) }
{
    for line in lines {
        records.push(BusRecord::PacketHas(*line))?;
    }
    Ok(())
}

/// Appends the records of the bus and of memory. It takes time in the lines of RAM. After want of memory a part of them may stand there.
pub fn add_machine(records: &mut List<BusRecord>, system: &BusSystem) -> Result<(), NoMemory>
    ensures { OnOk result (map bus_record_of records.new ≡ map bus_record_of records.old
        ++ bus_records (bus_settings_of system.now) (first_ram (bus_start_of system.now)) (bus_world_of system.now)) }
{
    add_arbiter(
        records,
        system.next(),
        system.bus(),
        system.config().cores(),
    )?;
    add_packet(records, system.bus().lines())?;
    add_memory(records, system)
}
