// The home words of a directory that aren't as they were loaded, each record appended to a list. Where memory runs out, the list holds a
// part of it.
ghost use Rattle.std.specs.Prelude.{◌≡◌, ◌+◌, ◌*◌, ◌/◌, ◌^◌, ◌<◌, ◌≤◌, ◌++◌, ◌==◌, ◌∷◌, [], ℕ, OnOk, map, if◌then◌else◌};
ghost use Rattle.std.specs.List.{All, flat_map};
ghost use Rattle.image_load.specs.Contents.{started};
ghost use Rattle.image_load.specs.Start.{first_ram};
ghost use Rattle.rules_maps.specs.Shape.{home, lines};
ghost use Rattle.rules_maps.specs.Words.{line_of};
ghost use Rattle.rules_tcc.specs.Seen.{numbers};
ghost use Rattle.dir_lines.specs.Home.{IsAtHome};
ghost use Rattle.directory.specs.Data.{dir_of};
ghost use Rattle.watch_state.specs.Directories.{at_home, word_record, word_records};
ghost use Rattle.watch_state.specs.Plain.{record_of};
ghost use Rattle.watch_state.specs.Records.{HomeWord};

use crate::attempts::add;
use crate::records::Record;
use directory::Directory;
use rv_code::Code;
use tcc_base::{DirId, LineAddr, List, NoMemory, WordAddr};

fn add_changed(
    records: &mut List<Record>,
    addr: u32,
    value: u32,
    first: u32,
) -> Result<(), NoMemory>
    ensures { OnOk result (map record_of records.new
        ≡ map record_of records.old ++ (if value == first then [] else HomeWord addr value ∷ [])) }
{
    if value == first {
        return Ok(());
    }
    add(records, Record::HomeWord { addr, value })
}

#[tactic(auto, unfolding(crate::specs::Directories::word_record))]
fn add_word(
    records: &mut List<Record>,
    dir: &Directory,
    code: &Code,
    word: WordAddr,
) -> Result<(), NoMemory>
    requires at_home { IsAtHome dir.now.lines.place (line_of word.0) }
    requires exists { word.0 < code.now.settings.ram / 4 }
    ensures { (elsewhere : ℕ → ℕ) → OnOk result (map record_of records.new ≡ map record_of records.old
        ++ word_record code.now.settings (first_ram (started code.now)) (dir_of elsewhere dir.now).words word.0) }
{
    let addr = code.config().base() + 4 * word.0;
    add_changed(records, addr, dir.word(word), code.word(word))?;
    Ok(())
}

/// The words of a line that is at home at the directory.
#[tactic(auto, unfolding(crate::specs::Directories::word_records, rules_maps::specs::Words::those))]
fn add_words(
    records: &mut List<Record>,
    dir: &Directory,
    code: &Code,
    line: LineAddr,
) -> Result<(), NoMemory>
    requires at_home { IsAtHome dir.now.lines.place line.0 }
    requires exists { line.0 < lines code.now.settings }
    requires small { line.0 < 2 ^ 29 }
    ensures { (elsewhere : ℕ → ℕ) → OnOk result (map record_of records.new ≡ map record_of records.old
        ++ word_records code.now.settings (first_ram (started code.now)) (dir_of elsewhere dir.now).words line.0) }
{
    for k in 0..8 {
        add_word(records, dir, code, WordAddr(8 * line.0 + k))?;
    }
    Ok(())
}

/// The words of a line, where it is at home at the directory.
fn add_words_at_home(
    records: &mut List<Record>,
    id: DirId,
    dir: &Directory,
    code: &Code,
    line: LineAddr,
) -> Result<(), NoMemory>
    requires place { dir.now.lines.place ≡ record { shape = code.now.settings; dir = id.0 } }
    requires exists { line.0 < lines code.now.settings }
    requires small { line.0 < 2 ^ 29 }
    ensures { (elsewhere : ℕ → ℕ) → OnOk result (map record_of records.new ≡ map record_of records.old ++ at_home code.now.settings
        id.0 (word_records code.now.settings (first_ram (started code.now)) (dir_of elsewhere dir.now).words) line.0) }
{
    let home = code.config().home(line);
    if id.0 == home.0 {
        add_words(records, dir, code, line)?;
    }
    Ok(())
}

/// All words at home at the directory that aren't as they were loaded, by rising address.
#[tactic(auto, unfolding(rules_maps::specs::Words::those))]
pub(crate) fn add_home_words(
    records: &mut List<Record>,
    id: DirId,
    dir: &Directory,
    code: &Code,
) -> Result<(), NoMemory>
    requires { dir.now.lines.place ≡ record { shape = code.now.settings; dir = id.0 } }
    ensures { (elsewhere : ℕ → ℕ) → let sh = code.now.settings in OnOk result (map record_of records.new ≡ map record_of records.old
        ++ flat_map (at_home sh id.0 (word_records sh (first_ram (started code.now)) (dir_of elsewhere dir.now).words))
        (numbers (lines sh))) }
{
    for line in 0..code.config().words() / 8 {
        add_words_at_home(records, id, dir, code, LineAddr(line))?;
    }
    Ok(())
}

/// A law: a line of RAM has a number below 2 to the 29.
fn lines_are_few(code: &Code)
    ensures { lines code.now.settings ≤ 2 ^ 29 }
{
    code.config().words();
}

/// The words of some lines that are at home at the directory, where they aren't as they were loaded.
pub(crate) fn add_words_of(
    records: &mut List<Record>,
    id: DirId,
    dir: &Directory,
    code: &Code,
    some: &[LineAddr],
) -> Result<(), NoMemory>
    requires place { dir.now.lines.place ≡ record { shape = code.now.settings; dir = id.0 } }
    requires exist { All (λ l. l.0 < lines code.now.settings) some.now }
    ensures { (elsewhere : ℕ → ℕ) → let sh = code.now.settings in OnOk result (map record_of records.new ≡ map record_of records.old
        ++ flat_map (at_home sh id.0 (word_records sh (first_ram (started code.now)) (dir_of elsewhere dir.now).words))
        (map (λ l. l.0) some.now)) }
{
    lines_are_few(code);
    for line in some {
        add_words_at_home(records, id, dir, code, *line)?;
    }
    Ok(())
}
