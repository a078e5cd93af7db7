// Two lists of records, walked side by side.
ghost use Rattle.std.specs.Prelude.{◌≡◌, ◌++◌, [], IfOk, OnOk, string_bytes, map};
ghost use Rattle.watch_state.specs.Plain.{record_of};
ghost use Rattle.watch_changes.specs.Changes.{change_lines, changes, meeting, told_of};
ghost use Rattle.watch_changes.specs.Plain.{meeting_of};

use crate::lines::{push_all_gone, push_all_told, push_gone, push_told};
use crate::meeting::{Meeting, meet};
use std::alloc::AllocError;
use watch_state::Record;

/// What is told of two records that meet.
#[tactic(auto, unfolding(crate::specs::Changes::change_lines))]
fn push_meeting(text: &mut String, before: &Record, after: &Record) -> Result<Meeting, AllocError>
    ensures met { IfOk result (λ m. meeting_of m ≡ meeting (record_of before.now) (record_of after.now)) }
    ensures told { IfOk result (λ m. string_bytes text.new ≡ string_bytes text.old
        ++ change_lines (told_of (meeting_of m) (record_of before.now) (record_of after.now) [] [] [])) }
{
    let met = meet(before, after);
    match met {
        Meeting::Unchanged => {}
        Meeting::Left => push_gone(text, before)?,
        Meeting::Came | Meeting::Changed => push_told(text, after)?,
    }
    Ok(met)
}

/// Appends the lines of what changed between these records, in the order of the records: one that is new or isn't as it was, as it is;
/// of one that is no more its key. Both lists are walked once, side by side, and take no memory but for the growth of the text. After
/// want of memory a part of the lines may stand there.
pub fn push_changes(
    text: &mut String,
    before: &[Record],
    after: &[Record],
) -> Result<(), AllocError>
    ensures { OnOk result (string_bytes text.new ≡ string_bytes text.old
        ++ change_lines (changes (map record_of before.now) (map record_of after.now))) }
{
    let mut was = 0;
    let mut is = 0;
    while was < before.len() && is < after.len() {
        match push_meeting(text, &before[was], &after[is])? {
            Meeting::Unchanged | Meeting::Changed => {
                was += 1;
                is += 1;
            }
            Meeting::Left => was += 1,
            Meeting::Came => is += 1,
        }
    }
    push_all_gone(text, &before[was..])?;
    push_all_told(text, &after[is..])
}
