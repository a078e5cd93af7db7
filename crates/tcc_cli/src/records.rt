// The file that a run is recorded in.
ghost use Rattle.std.specs.Prelude.{◌≡◌, ◌≢◌, ◌≤◌, ℕ, List as Seq, IfErr, IfOk, None, OnOk, Some, if◌then◌else◌, length};
ghost use Rattle.schedule_text.specs.Grammar.{text_of};
ghost use Rattle.schedule_text.specs.WellFormed.{IsWellFormed};
ghost use Rattle.tcc_cli.specs.Failing.{IsNotWritten};
ghost use Rattle.net_core.specs.Machine.{settings_of};
ghost use Rattle.tcc_cli.specs.Schedules.{IsRecorded};
ghost use Rattle.tcc_base.specs.Limits.{text_limit};

use crate::refusal::Refusal;
use schedule_text::write;
use std::alloc::Global;
use tcc_base::{NoMemory, Text};
use tcc_refine::Refined;
use tcc_replay::what_was_taken_has_a_text;
use tcc_world::{Store, StoreError};

/// The text of the schedule that a machine took.
fn schedule_text(alloc: Global, refined: &Refined) -> Result<Vec<u8>, NoMemory>
    requires few { length refined.now.taken ≤ text_limit }
    ensures formed { IsWellFormed (record { config = settings_of refined.now.machine; events = refined.now.taken }) }
    ensures text { IfOk result (λ text. text.items
        ≡ text_of (record { config = settings_of refined.now.machine; events = refined.now.taken })) }
{
    what_was_taken_has_a_text();
    write(alloc, refined.system().config(), refined.taken())
}

/// Writes the text of a schedule to the file of this name.
pub fn write_record<'a, F: Store>(
    alloc: Global,
    name: &'a Text,
    text: &[u8],
    files: &mut F,
) -> Result<(), Refusal<'a>>
    ensures stored { OnOk result ((F.disk files.new).contents name.now ≡ (if (F.disk files.old).tells then Some text.now else None)) }
    ensures failed { IfErr result (IsNotWritten (Some name.now) (record { before = F.disk files.old; after = F.disk files.new })) }
    ensures others { (n : Seq ℕ) → n ≢ name.now → (F.disk files.new).contents n ≡ (F.disk files.old).contents n }
    ensures reads { (n : Seq ℕ) → (F.disk files.new).failed_reads n ≡ (F.disk files.old).failed_reads n }
{
    match files.write(alloc, name.items.as_str(), text) {
        Ok(()) => Ok(()),
        Err(StoreError::Failed) => Err(Refusal::Store(name.items.as_str())),
        Err(StoreError::Memory) => Err(Refusal::Memory),
    }
}

/// Writes the schedule that a machine took to the file of this name, where there is one.
pub fn record<'a, F: Store>(
    alloc: Global,
    keep: &'a Option<Text>,
    refined: &Refined,
    files: &mut F,
) -> Result<(), Refusal<'a>>
    requires few { length refined.now.taken ≤ text_limit }
    ensures recorded { OnOk result (IsRecorded keep.now (F.disk files.old).tells (F.disk files.new).contents
        (record { config = settings_of refined.now.machine; events = refined.now.taken })) }
    ensures failed { IfErr result (IsNotWritten keep.now (record { before = F.disk files.old; after = F.disk files.new })) }
    ensures others { (n : Seq ℕ) → keep.now ≢ Some n → (F.disk files.new).contents n ≡ (F.disk files.old).contents n }
    ensures reads { (n : Seq ℕ) → (F.disk files.new).failed_reads n ≡ (F.disk files.old).failed_reads n }
{
    let Some(name) = keep else {
        return Ok(());
    };
    let text = match schedule_text(alloc, refined) {
        Ok(text) => text,
        Err(NoMemory) => return Err(Refusal::Memory),
    };
    write_record(alloc, name, &text, files)
}
