// The lines of changes. Where memory runs out, the text holds a part of them.
ghost use Rattle.std.specs.Prelude.{◌≡◌, ◌++◌, OnOk, string_bytes, map};
ghost use Rattle.bus_state.specs.Plain.{bus_record_of};
ghost use Rattle.bus_changes.specs.Changes.{Gone, Told, bus_change_line, bus_change_lines, bus_key_words};

use bus_state::{BusRecord, push_bus_record};
use std::alloc::AllocError;

/// The key of a record, in words.
fn push_key(text: &mut String, told: &BusRecord) -> Result<(), AllocError>
    ensures { OnOk result (string_bytes text.new ≡ string_bytes text.old ++ bus_key_words (bus_record_of told.now)) }
{
    match told {
        BusRecord::ArbiterIs { .. } => text.push_str("arbiter"),
        BusRecord::PacketHas(line) => write!(text, "packet {}", line.line.0),
        BusRecord::MemoryWord { addr, .. } => write!(text, "mem {addr:08x}"),
    }
}

/// A record that is new, or isn't as it was.
#[tactic(auto, unfolding(crate::specs::Changes::bus_change_line))]
pub(crate) fn push_told(text: &mut String, told: &BusRecord) -> Result<(), AllocError>
    ensures { OnOk result (string_bytes text.new ≡ string_bytes text.old ++ bus_change_line (Told (bus_record_of told.now))) }
{
    text.push_str(" ")?;
    push_bus_record(text, told)
}

/// A record that is no more.
#[tactic(auto, unfolding(crate::specs::Changes::bus_change_line))]
pub(crate) fn push_gone(text: &mut String, gone: &BusRecord) -> Result<(), AllocError>
    ensures { OnOk result (string_bytes text.new ≡ string_bytes text.old ++ bus_change_line (Gone (bus_record_of gone.now))) }
{
    text.push_str(" gone ")?;
    push_key(text, gone)?;
    text.push_str("\n")
}

/// Records that are all told, in their order.
#[tactic(auto, unfolding(crate::specs::Changes::bus_change_lines))]
pub(crate) fn push_all_told(text: &mut String, records: &[BusRecord]) -> Result<(), AllocError>
    ensures { OnOk result (string_bytes text.new
        ≡ string_bytes text.old ++ bus_change_lines (map Told (map bus_record_of records.now))) }
{
    for told in records {
        push_told(text, told)?;
    }
    Ok(())
}
