// The words of memory that aren't as they were loaded, each record appended to a list. Where memory runs out, the list holds a part of
// them.
ghost use Rattle.std.specs.Prelude.{◌≡◌, ◌+◌, ◌*◌, ◌/◌, ◌^◌, ◌<◌, ◌++◌, ◌==◌, ◌∷◌, [], OnOk, map, if◌then◌else◌};
ghost use Rattle.std.specs.List.{flat_map};
ghost use Rattle.image_load.specs.Start.{first_ram};
ghost use Rattle.rules_maps.specs.Shape.{lines};
ghost use Rattle.rules_tcc.specs.Seen.{numbers};
ghost use Rattle.bus_tcc.specs.Machine.{bus_settings_of, bus_start_of, bus_world_of};
ghost use Rattle.bus_state.specs.Parts.{memory_record, memory_records};
ghost use Rattle.bus_state.specs.Plain.{bus_record_of};
ghost use Rattle.bus_state.specs.Records.{MemoryWord};

use crate::records::BusRecord;
use bus_tcc::BusSystem;
use tcc_base::{LineAddr, List, NoMemory, WordAddr};

fn add_changed(
    records: &mut List<BusRecord>,
    addr: u32,
    value: u32,
    first: u32,
) -> Result<(), NoMemory>
    ensures { OnOk result (map bus_record_of records.new
        ≡ map bus_record_of records.old ++ (if value == first then [] else MemoryWord addr value ∷ [])) }
{
    if value == first {
        return Ok(());
    }
    records.push(BusRecord::MemoryWord { addr, value })
}

#[tactic(auto, unfolding(crate::specs::Parts::memory_record))]
fn add_word(
    records: &mut List<BusRecord>,
    system: &BusSystem,
    word: WordAddr,
) -> Result<(), NoMemory>
    requires { word.0 < (bus_settings_of system.now).ram / 4 }
    ensures { OnOk result (map bus_record_of records.new ≡ map bus_record_of records.old
        ++ memory_record (bus_settings_of system.now) (first_ram (bus_start_of system.now)) (bus_world_of system.now).ram word.0) }
{
    let addr = system.config().base() + 4 * word.0;
    let first = system.code().word(word);
    add_changed(records, addr, system.word(word), first)
}

/// The words of a line.
#[tactic(auto, unfolding(crate::specs::Parts::memory_records, rules_maps::specs::Words::those))]
fn add_line(
    records: &mut List<BusRecord>,
    system: &BusSystem,
    line: LineAddr,
) -> Result<(), NoMemory>
    requires exists { line.0 < lines (bus_settings_of system.now) }
    requires small { line.0 < 2 ^ 29 }
    ensures { OnOk result (map bus_record_of records.new ≡ map bus_record_of records.old
        ++ memory_records (bus_settings_of system.now) (first_ram (bus_start_of system.now)) (bus_world_of system.now).ram line.0) }
{
    for k in 0..8 {
        add_word(records, system, WordAddr(8 * line.0 + k))?;
    }
    Ok(())
}

/// All words, by rising address.
#[tactic(auto, unfolding(rules_maps::specs::Words::those))]
pub(crate) fn add_memory(records: &mut List<BusRecord>, system: &BusSystem) -> Result<(), NoMemory>
    ensures { let sh = bus_settings_of system.now in OnOk result (map bus_record_of records.new ≡ map bus_record_of records.old
        ++ flat_map (memory_records sh (first_ram (bus_start_of system.now)) (bus_world_of system.now).ram) (numbers (lines sh))) }
{
    for line in 0..system.config().words() / 8 {
        add_line(records, system, LineAddr(line))?;
    }
    Ok(())
}
