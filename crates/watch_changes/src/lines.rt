// The lines of changes. Where memory runs out, the text holds a part of them.
ghost use Rattle.std.specs.Prelude.{◌≡◌, ◌++◌, OnOk, string_bytes, map};
ghost use Rattle.watch_state.specs.Lines.{key_words};
ghost use Rattle.watch_state.specs.Plain.{record_of};
ghost use Rattle.watch_changes.specs.Changes.{Gone, Told, all_gone, all_told, change_line, change_lines};

use std::alloc::AllocError;
use watch_state::{Record, push_record};

/// The key of a record, in words.
fn push_key(text: &mut String, told: &Record) -> Result<(), AllocError>
    ensures { OnOk result (string_bytes text.new ≡ string_bytes text.old ++ key_words (record_of told.now)) }
{
    match told {
        Record::CoreIs { core, .. } => write!(text, "core {}", core.0),
        Record::Reserved { core, .. } => write!(text, "reserved {}", core.0),
        Record::EndedBy { core, .. } => write!(text, "ended {}", core.0),
        Record::AwaitsLine { core, .. } => write!(text, "awaits {}", core.0),
        Record::OwedBy { core, .. } => write!(text, "owing {}", core.0),
        Record::CommittedAt { core, dir, .. } => write!(text, "last {} {}", core.0, dir.0),
        Record::Register { core, number, .. } => write!(text, "reg {} {number}", core.0),
        Record::SavedPc { core, .. } => write!(text, "saved {} pc", core.0),
        Record::SavedRegister { core, number, .. } => write!(text, "saved {} {number}", core.0),
        Record::Holds { core, set, way, .. } => write!(text, "frame {} {set} {way}", core.0),
        Record::Spilled { core, addr, .. } => write!(text, "spilled {} {addr:08x}", core.0),
        Record::DirectoryIs { dir, .. } => write!(text, "dir {}", dir.0),
        Record::Skipped { dir, tid } => write!(text, "skips {} {}", dir.0, tid.0),
        Record::LineIs { line, .. } => write!(text, "line {}", line.0),
        Record::HomeWord { addr, .. } => write!(text, "home {addr:08x}"),
        Record::VendorIs { .. } => text.push_str("vendor"),
    }
}

/// A record that is new, or isn't as it was.
#[tactic(auto, unfolding(crate::specs::Changes::change_line))]
pub(crate) fn push_told(text: &mut String, told: &Record) -> Result<(), AllocError>
    ensures { OnOk result (string_bytes text.new ≡ string_bytes text.old ++ change_line (Told (record_of told.now))) }
{
    text.push_str(" ")?;
    push_record(text, told)
}

/// A record that is no more.
#[tactic(auto, unfolding(crate::specs::Changes::change_line))]
pub(crate) fn push_gone(text: &mut String, gone: &Record) -> Result<(), AllocError>
    ensures { OnOk result (string_bytes text.new ≡ string_bytes text.old ++ change_line (Gone (record_of gone.now))) }
{
    text.push_str(" gone ")?;
    push_key(text, gone)?;
    text.push_str("\n")
}

/// Records that are new, in their order.
#[tactic(auto, unfolding(crate::specs::Changes::change_lines))]
pub(crate) fn push_all_told(text: &mut String, records: &[Record]) -> Result<(), AllocError>
    ensures { OnOk result (string_bytes text.new ≡ string_bytes text.old ++ change_lines (all_told (map record_of records.now))) }
{
    for told in records {
        push_told(text, told)?;
    }
    Ok(())
}

/// Records that are no more, in their order.
#[tactic(auto, unfolding(crate::specs::Changes::change_lines))]
pub(crate) fn push_all_gone(text: &mut String, records: &[Record]) -> Result<(), AllocError>
    ensures { OnOk result (string_bytes text.new ≡ string_bytes text.old ++ change_lines (all_gone (map record_of records.now))) }
{
    for gone in records {
        push_gone(text, gone)?;
    }
    Ok(())
}
