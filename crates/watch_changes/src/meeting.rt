// What a record that was and one that is are to each other, by their keys and by what they say.
ghost use Rattle.std.specs.Prelude.{◌≡◌};
ghost use Rattle.watch_state.specs.Plain.{record_of};
ghost use Rattle.watch_changes.specs.Changes.{meeting};
ghost use Rattle.watch_changes.specs.Order.{key, lower};
ghost use Rattle.watch_changes.specs.Plain.{meeting_of, numbers_of_key};

use crate::same::is_same;
use watch_state::Record;

/// A key: the place of the record's kind in the table of records, and up to three numbers.
#[derive(Clone, Copy, Debug)]
pub(crate) struct Key {
    pub kind: u8,
    pub first: u64,
    pub second: u64,
    pub third: u64,
}

/// What a record that was and one that is are to each other, where all before them have been compared.
#[derive(Clone, Copy, Debug, PartialEq, Eq)]
pub(crate) enum Meeting {
    /// They are the same, word for word.
    Unchanged,
    /// No record that is has the key of the one that was.
    Left,
    /// No record that was has the key of the one that is.
    Came,
    /// They have one key.
    Changed,
}

fn key_with(kind: u8, first: u64, second: u64, third: u64) -> Key
    ensures { result ≡ record { kind = kind; first = first; second = second; third = third } }
{
    Key {
        kind,
        first,
        second,
        third,
    }
}

fn key_of(told: &Record) -> Key
    ensures { numbers_of_key result ≡ key (record_of told.now) }
{
    match told {
        Record::CoreIs { core, .. } => key_with(0, core.0 as u64, 0, 0),
        Record::Reserved { core, .. } => key_with(1, core.0 as u64, 0, 0),
        Record::EndedBy { core, .. } => key_with(2, core.0 as u64, 0, 0),
        Record::AwaitsLine { core, .. } => key_with(3, core.0 as u64, 0, 0),
        Record::OwedBy { core, .. } => key_with(4, core.0 as u64, 0, 0),
        Record::CommittedAt { core, dir, .. } => key_with(5, core.0 as u64, dir.0 as u64, 0),
        Record::Register { core, number, .. } => key_with(6, core.0 as u64, *number as u64, 0),
        Record::SavedPc { core, .. } => key_with(7, core.0 as u64, 0, 0),
        Record::SavedRegister { core, number, .. } => key_with(8, core.0 as u64, *number as u64, 0),
        Record::Holds { core, set, way, .. } => key_with(
            9,
            core.0 as u64,
            *set as u64,
            *way as u64,
        ),
        Record::Spilled { core, addr, .. } => key_with(10, core.0 as u64, *addr as u64, 0),
        Record::DirectoryIs { dir, .. } => key_with(11, dir.0 as u64, 0, 0),
        Record::Skipped { dir, tid } => key_with(12, dir.0 as u64, tid.0, 0),
        Record::LineIs { line, .. } => key_with(13, line.0 as u64, 0, 0),
        Record::HomeWord { addr, .. } => key_with(14, *addr as u64, 0, 0),
        Record::VendorIs { .. } => key_with(15, 0, 0, 0),
    }
}

#[tactic(auto, unfolding(crate::specs::Order::lower))]
fn is_lower(a: Key, b: Key) -> bool
    ensures { result ≡ lower (numbers_of_key a) (numbers_of_key b) }
{
    if a.kind != b.kind {
        return a.kind < b.kind;
    }
    if a.first != b.first {
        return a.first < b.first;
    }
    if a.second != b.second {
        return a.second < b.second;
    }
    a.third < b.third
}

/// What the two are to each other.
#[tactic(auto, unfolding(crate::specs::Changes::meeting))]
pub(crate) fn meet(before: &Record, after: &Record) -> Meeting
    ensures { meeting_of result ≡ meeting (record_of before.now) (record_of after.now) }
{
    if is_same(before, after) {
        return Meeting::Unchanged;
    }
    let (was, is) = (key_of(before), key_of(after));
    if is_lower(was, is) {
        Meeting::Left
    } else if is_lower(is, was) {
        Meeting::Came
    } else {
        Meeting::Changed
    }
}
