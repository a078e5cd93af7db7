// The line of a record. Where memory runs out, the text holds a part of it.
ghost use Rattle.std.specs.Prelude.{◌≡◌, ◌++◌, OnOk, string_bytes, map};
ghost use Rattle.bus_tcc.specs.Packets.{packet_line_of};
ghost use Rattle.bus_state.specs.Lines.{bus_record_line, bus_record_lines, holding_words};
ghost use Rattle.bus_state.specs.Plain.{bus_record_of, holding_of};
ghost use Rattle.bus_state.specs.Records.{ArbiterIs, MemoryWord, PacketHas};

use crate::records::{BusRecord, Holding};
use std::alloc::AllocError;
use tcc_base::{Tagged, Tid};
use watch_state::push_numbers;
use watch_trace::{push_field, push_fields, push_values};

#[tactic(auto, unfolding(crate::specs::Lines::holding_words))]
fn push_holding(text: &mut String, holding: Holding) -> Result<(), AllocError>
    ensures { OnOk result (string_bytes text.new ≡ string_bytes text.old ++ holding_words (holding_of holding)) }
{
    match holding {
        Holding::Nobody => text.push_str(" free"),
        Holding::Core(core) => push_field(text, " alone ", core.0 as u64),
        Holding::Left(cores) => {
            text.push_str(" left")?;
            push_numbers(text, cores.bits, 64)
        }
    }
}

#[tactic(auto, unfolding(crate::specs::Lines::bus_record_line))]
fn push_arbiter(text: &mut String, next: Tid, holding: Holding) -> Result<(), AllocError>
    ensures { OnOk result (string_bytes text.new ≡ string_bytes text.old ++ bus_record_line (ArbiterIs next.0 (holding_of holding))) }
{
    push_field(text, "arbiter next ", next.0)?;
    push_holding(text, holding)?;
    text.push_str("\n")
}

#[tactic(auto, unfolding(crate::specs::Lines::bus_record_line))]
fn push_packet(text: &mut String, line: &Tagged) -> Result<(), AllocError>
    ensures { OnOk result (string_bytes text.new ≡ string_bytes text.old ++ bus_record_line (PacketHas (packet_line_of line.now))) }
{
    push_fields(
        text,
        "packet ",
        line.line.0 as u64,
        " mask ",
        line.mask.0 as u64,
    )?;
    push_values(text, line.mask.0, &line.words)?;
    text.push_str("\n")
}

#[tactic(auto, unfolding(crate::specs::Lines::bus_record_line))]
fn push_memory_word(text: &mut String, addr: u32, value: u32) -> Result<(), AllocError>
    ensures { OnOk result (string_bytes text.new ≡ string_bytes text.old ++ bus_record_line (MemoryWord addr value)) }
{
    write!(text, "mem {addr:08x} {value:08x}\n")
}

/// Appends the line of a record. After want of memory a part of it may stand there. It takes no memory but for the growth of the text.
pub fn push_bus_record(text: &mut String, told: &BusRecord) -> Result<(), AllocError>
    ensures { OnOk result (string_bytes text.new ≡ string_bytes text.old ++ bus_record_line (bus_record_of told.now)) }
{
    match told {
        BusRecord::ArbiterIs { next, holding } => push_arbiter(text, *next, *holding),
        BusRecord::PacketHas(line) => push_packet(text, line),
        BusRecord::MemoryWord { addr, value } => push_memory_word(text, *addr, *value),
    }
}

/// Appends the lines of records, in their order. After want of memory a part of them may stand there.
#[tactic(auto, unfolding(crate::specs::Lines::bus_record_lines))]
pub fn push_bus_records(text: &mut String, records: &[BusRecord]) -> Result<(), AllocError>
    ensures { OnOk result (string_bytes text.new ≡ string_bytes text.old ++ bus_record_lines (map bus_record_of records.now)) }
{
    for told in records {
        push_bus_record(text, told)?;
    }
    Ok(())
}
