// Writing a text, row by row, or a row piece by piece. After want of memory a text is as before.
ghost use Rattle.std.specs.Prelude.{◌≡◌, ◌++◌, OnErr, OnOk, codes, if◌then◌else◌, is_ok, length, take};
ghost use Rattle.std.specs.List.{flat_map};
ghost use Rattle.row_text.specs.Rows.{number_text, row_text};

use base_digits::{ROOM, put_field};
use tcc_base::{List, NoMemory};

/// Begins a row: appends its word.
pub fn begin_row(text: &mut List<u8>, word: &[u8]) -> Result<(), NoMemory>
    ensures { text.new ≡ (if is_ok result then text.old ++ word.now else text.old) }
{
    match text.items.extend_from_slice(word) {
        Ok(()) => Ok(()),
        Err(_) => Err(NoMemory),
    }
}

/// Appends a space and a number.
pub fn push_number(text: &mut List<u8>, number: u64) -> Result<(), NoMemory>
    ensures { text.new ≡ (if is_ok result then text.old ++ number_text number else text.old) }
{
    let mut line = [0; ROOM];
    let start = put_field(number, &mut line, ROOM);
    match text.items.extend_from_slice(&line[start..]) {
        Ok(()) => Ok(()),
        Err(_) => Err(NoMemory),
    }
}

/// Ends a row: appends its line feed.
pub fn end_row(text: &mut List<u8>) -> Result<(), NoMemory>
    ensures { text.new ≡ (if is_ok result then text.old ++ codes "\n" else text.old) }
{
    text.push(b'\n')
}

fn push_numbers(text: &mut List<u8>, numbers: &[u64]) -> Result<(), NoMemory>
    ensures written { OnOk result (text.new ≡ text.old ++ flat_map number_text numbers.now) }
    ensures keeps { take (length text.old) text.new ≡ text.old }
{
    for number in numbers {
        push_number(text, *number)?;
    }
    Ok(())
}

/// Appends a row, or a part of it where memory runs out.
#[tactic(auto, unfolding(crate::specs::Rows::row_text))]
fn append_row(text: &mut List<u8>, word: &[u8], numbers: &[u64]) -> Result<(), NoMemory>
    ensures written { OnOk result (text.new ≡ text.old ++ row_text (record { word = word.now; numbers = numbers.now })) }
    ensures keeps { take (length text.old) text.new ≡ text.old }
{
    begin_row(text, word)?;
    push_numbers(text, numbers)?;
    end_row(text)
}

/// Appends a row. It takes time for each byte that it writes, and fails only for want of memory.
pub fn push_row(text: &mut List<u8>, word: &[u8], numbers: &[u64]) -> Result<(), NoMemory>
    ensures { text.new ≡ (if is_ok result then text.old ++ row_text (record { word = word.now; numbers = numbers.now }) else text.old) }
{
    let start = text.items.len();
    match append_row(text, word, numbers) {
        Ok(()) => Ok(()),
        Err(e) => {
            text.items.truncate(start);
            Err(e)
        }
    }
}
