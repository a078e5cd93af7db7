// The packet that is on the bus, compared with the one that was.
ghost use Rattle.std.specs.Prelude.{◌≡◌, ◌++◌, IfOk, OnOk, string_bytes, map};
ghost use Rattle.rules_maps.specs.Shape.{Shape};
ghost use Rattle.bus_tcc.specs.Left.{packet_words};
ghost use Rattle.bus_tcc.specs.Machine.{bus_of};
ghost use Rattle.bus_tcc.specs.Packets.{lines_on, packet_line_of};
ghost use Rattle.bus_state.specs.Records.{PacketHas};
ghost use Rattle.bus_changes.specs.Changes.{Gone, Told, bus_change_lines, packet_changes};
ghost use Rattle.bus_changes.specs.Following.{NoneInPlace};
ghost use Rattle.bus_changes.specs.Plain.{AreLines};

use crate::lines::{push_gone, push_told};
use bus_state::BusRecord;
use bus_tcc::{Bus, Packet};
use std::alloc::{AllocError, Global};
use tcc_base::{List, NoMemory, Tagged};

/// Lines of a packet that is new.
#[tactic(auto, unfolding(crate::specs::Changes::bus_change_lines))]
fn push_lines_told(text: &mut String, lines: &[Tagged]) -> Result<(), AllocError>
    ensures { OnOk result (string_bytes text.new ≡ string_bytes text.old
        ++ bus_change_lines (map Told (map PacketHas (map packet_line_of lines.now)))) }
{
    for line in lines {
        push_told(text, &BusRecord::PacketHas(*line))?;
    }
    Ok(())
}

/// Lines of a packet that is no more.
#[tactic(auto, unfolding(crate::specs::Changes::bus_change_lines))]
fn push_lines_gone(text: &mut String, lines: &[Tagged]) -> Result<(), AllocError>
    ensures { OnOk result (string_bytes text.new ≡ string_bytes text.old
        ++ bus_change_lines (map Gone (map PacketHas (map packet_line_of lines.now)))) }
{
    for line in lines {
        push_gone(text, &BusRecord::PacketHas(*line))?;
    }
    Ok(())
}

/// Appends the lines of the packet that is on the bus where none was before, and the keys of those of one that was where none is any more.
/// No packet comes in the place of another.
pub(crate) fn push_packet(text: &mut String, was: &Bus, is: &Bus) -> Result<(), AllocError>
    ensures { (sh : Shape) → AreLines sh was.now → AreLines sh is.now → NoneInPlace (bus_of was.now) (bus_of is.now)
        → OnOk result (string_bytes text.new ≡ string_bytes text.old
        ++ bus_change_lines (packet_changes sh (packet_words (bus_of was.now)) (packet_words (bus_of is.now)))) }
{
    let (before, after) = (was.lines(), is.lines());
    if before.is_empty() {
        return push_lines_told(text, after);
    }
    if after.is_empty() {
        return push_lines_gone(text, before);
    }
    Ok(())
}

/// A copy of a packet's lines.
fn copied_lines(alloc: Global, lines: &[Tagged]) -> Result<List<Tagged>, AllocError>
    ensures { IfOk result (λ copied. copied ≡ lines.now) }
{
    let mut copied = List::new(alloc);
    for line in lines {
        match copied.push(*line) {
            Ok(()) => {}
            Err(NoMemory) => return Err(AllocError),
        }
    }
    Ok(copied)
}

fn copied_packet(alloc: Global, packet: &Packet) -> Result<Packet, AllocError>
    ensures { IfOk result (λ copied. copied ≡ packet.now) }
{
    Ok(Packet {
        lines: copied_lines(alloc, &packet.lines.items)?,
        left: packet.left,
    })
}

/// A copy of who has the bus, and of the packet that is on it.
pub(crate) fn copied(alloc: Global, bus: &Bus) -> Result<Bus, AllocError>
    ensures { IfOk result (λ copied. copied ≡ bus.now) }
{
    match bus {
        Bus::Free => Ok(Bus::Free),
        Bus::Alone(core) => Ok(Bus::Alone(*core)),
        Bus::Packet(packet) => Ok(Bus::Packet(copied_packet(alloc, packet)?)),
    }
}
