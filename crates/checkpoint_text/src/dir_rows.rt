// The rows of one directory or one line, as text. After want of memory a text may have more behind its old bytes.
ghost use Rattle.std.specs.Prelude.{◌≡◌, ◌∷◌, ◌++◌, ◌<◌, ◌^◌, [], ℕ, OnOk, codes, length, map, option_map};
ghost use Rattle.std.specs.List.{flat_map};
ghost use Rattle.image_load.specs.Contents.{started};
ghost use Rattle.rules_maps.specs.Shape.{lines};
ghost use Rattle.rules_maps.specs.Words.{eight, word_at};
ghost use Rattle.dir_lines.specs.Home.{IsAtHome};
ghost use Rattle.net_core.specs.Machine.{settings_of};
ghost use Rattle.row_text.specs.Rows.{number_text, row_text};
ghost use Rattle.checkpoint_text.specs.Directories.{are_same, first_line, line_numbers, line_row, record_numbers, serving_numbers};
ghost use Rattle.checkpoint_text.specs.Numbers.{flag, optional};
ghost use Rattle.checkpoint_text.specs.Written.{table_text};

use crate::entries::{begin_long, flag};
use dir_lines::LineRecord;
use directory::Directory;
use net_core::System;
use row_text::{end_row, push_number, push_row};
use rv_code::Code;
use tcc_base::{CoreId, LineAddr, List, NoMemory, Tid, WordAddr};

/// Appends the row of what a directory serves, and of what it is owed.
pub(crate) fn push_serving(text: &mut List<u8>, k: u64, dir: &Directory) -> Result<(), NoMemory>
    ensures { OnOk result (text.new
        ≡ text.old ++ row_text (record { word = codes "directory"; numbers = k ∷ serving_numbers dir.now })) }
{
    push_row(text, b"directory", &[k, dir.serving().0, dir.owed()])?;
    Ok(())
}

fn push_flags(text: &mut List<u8>, dir: &Directory) -> Result<(), NoMemory>
    ensures home { OnOk result (dir.now.words.place ≡ dir.now.lines.place) }
    ensures text { OnOk result (text.new ≡ text.old ++ flat_map number_text (map flag dir.now.serving.skips)) }
{
    let serving = dir.serving().0;
    for i in 0..dir.skips_ahead() {
        let skipped = dir.is_skipped(Tid(serving + 1 + i as u64));
        push_number(text, flag(skipped))?;
    }
    Ok(())
}

/// Appends the row of the TIDs above the served one, each with whether it was skipped.
pub(crate) fn push_skips(text: &mut List<u8>, k: u64, dir: &Directory) -> Result<(), NoMemory>
    ensures home { OnOk result (dir.now.words.place ≡ dir.now.lines.place) }
    ensures text { OnOk result (text.new
        ≡ text.old ++ row_text (record { word = codes "skipped"; numbers = k ∷ map flag dir.now.serving.skips })) }
{
    begin_long(text, b"skipped", &[k])?;
    push_flags(text, dir)?;
    end_row(text)?;
    Ok(())
}

/// The owner of a line: 0 and 0 for none, else 1 and the core.
fn owner_numbers(owner: Option<CoreId>) -> (u64, u64)
    ensures { optional (option_map (λ c. c.0) owner) ≡ result.0 ∷ result.1 ∷ [] }
{
    match owner {
        None => (0, 0),
        Some(core) => (1, core.0 as u64),
    }
}

/// A line, what is known of it, and its words, as the numbers of its row.
fn line_numbers(line: LineAddr, record: &LineRecord, words: &[u32; 8]) -> [u64; 15]
    ensures { result ≡ line.0 ∷ (record_numbers record.now ++ words.now) }
{
    let owner = owner_numbers(record.owner);
    [
        line.0 as u64,
        record.sharers.0,
        owner.0,
        owner.1,
        record.tag.0,
        flag(record.asked),
        record.mark.0 as u64,
        words[0] as u64,
        words[1] as u64,
        words[2] as u64,
        words[3] as u64,
        words[4] as u64,
        words[5] as u64,
        words[6] as u64,
        words[7] as u64,
    ]
}

/// The words of a line as they were loaded.
fn loaded_words(code: &Code, line: LineAddr) -> [u32; 8]
    requires exists { line.0 < lines code.now.settings }
    requires small { line.0 < 2 ^ 24 }
    ensures { result ≡ eight (λ k. (started code.now).word (word_at line.0 k)) }
{
    let first = 8 * line.0;
    [
        code.word(WordAddr(first)),
        code.word(WordAddr(first + 1)),
        code.word(WordAddr(first + 2)),
        code.word(WordAddr(first + 3)),
        code.word(WordAddr(first + 4)),
        code.word(WordAddr(first + 5)),
        code.word(WordAddr(first + 6)),
        code.word(WordAddr(first + 7)),
    ]
}

/// The numbers of a line's row at the start.
fn first_numbers(code: &Code, line: LineAddr) -> [u64; 15]
    requires exists { line.0 < lines code.now.settings }
    requires small { line.0 < 2 ^ 24 }
    ensures { result ≡ line.0 ∷ first_line code.now line.0 }
{
    line_numbers(line, &LineRecord::blank(), &loaded_words(code, line))
}

/// The numbers of the row of a line that is at home at the directory.
fn numbers_now(dir: &Directory, line: LineAddr) -> [u64; 15]
    requires { IsAtHome dir.now.lines.place line.0 }
    ensures { result ≡ line.0 ∷ line_numbers line.0 dir.now }
{
    line_numbers(line, &dir.record(line), &dir.line_words(line))
}

/// Whether two rows of as many numbers have the same.
fn are_same(now: &[u64], first: &[u64]) -> bool
    requires { length now.now ≡ length first.now }
    ensures { result ≡ are_same now.now first.now }
{
    for k in 0..now.len() {
        if now[k] != first[k] {
            return false;
        }
    }
    true
}

/// Appends the row of a line that isn't as at the start, and else nothing.
pub(crate) fn push_line(
    text: &mut List<u8>,
    system: &System,
    line: LineAddr,
) -> Result<(), NoMemory>
    requires exists { line.0 < lines (settings_of system.now) }
    requires small { line.0 < 2 ^ 24 }
    ensures { OnOk result (text.new
        ≡ text.old ++ table_text (codes "line") (line_row system.now.cores.code system.now.dirs.dirs line.0)) }
{
    let now = numbers_now(system.directory(system.config().home(line)), line);
    let first = first_numbers(system.code(), line);
    if are_same(&now, &first) {
        return Ok(());
    }
    push_row(text, b"line", &now)?;
    Ok(())
}
