// What a directory knows, each record appended to a list. Where memory runs out, the list holds a part of it.
ghost use Rattle.std.specs.Prelude.{◌≡◌, ◌+◌, ◌<◌, ◌≤◌, ◌++◌, ◌==◌, ◌∷◌, [], ℕ, length, OnOk, map, if◌then◌else◌};
ghost use Rattle.std.specs.List.{All, flat_map};
ghost use Rattle.image_load.specs.Contents.{started};
ghost use Rattle.image_load.specs.Start.{first_ram};
ghost use Rattle.rules_maps.specs.Serving.{is_skipped};
ghost use Rattle.rules_maps.specs.Shape.{home, lines};
ghost use Rattle.rules_tcc.specs.Seen.{numbers};
ghost use Rattle.dir_lines.specs.Home.{IsAtHome};
ghost use Rattle.directory.specs.Data.{dir_of};
ghost use Rattle.watch_state.specs.Directories.{at_home, directory_part, directory_records, line_record, serving_records, skipped_record};
ghost use Rattle.watch_state.specs.Plain.{record_of};
ghost use Rattle.watch_state.specs.Records.{LineIs, Skipped};
ghost use Rattle.watch_state.specs.Shown.{knows, shown_line, shown_record};

use crate::attempts::add;
use crate::homes::{add_home_words, add_words_of};
use crate::numbers::{any_in, only_below};
use crate::records::{Known, Record};
use dir_lines::CoreSet;
use directory::{Directory, LineState};
use rv_code::Code;
use tcc_base::{Config, DirId, LineAddr, List, NoMemory, Tid};

/// A line of memory of which something is known.
fn add_known(
    records: &mut List<Record>,
    line: LineAddr,
    home: DirId,
    cores: u8,
    state: &LineState,
    sharers: CoreSet,
) -> Result<(), NoMemory>
    requires { cores ≤ 64 }
    ensures { OnOk result (map record_of records.new
        ≡ map record_of records.old ++ LineIs line.0 (shown_line home.0 cores state.now sharers) ∷ []) }
{
    let known = Known {
        home,
        owner: state.owner,
        tag: state.tag,
        asked: state.asked,
        mark: state.mark,
        sharers: CoreSet(only_below(sharers.0, cores)),
    };
    add(records, Record::LineIs { line, known })
}

/// Whether something is known of a line.
#[tactic(auto, unfolding(crate::specs::Shown::knows))]
fn is_known(state: &LineState, sharers: CoreSet, cores: u8) -> bool
    requires { cores ≤ 64 }
    ensures { result ≡ knows state.now sharers cores }
{
    state.owner.is_some()
        || state.tag.0 != 0
        || state.asked
        || state.mark.0 != 0
        || any_in(sharers.0, cores)
}

fn add_line(
    records: &mut List<Record>,
    line: LineAddr,
    home: DirId,
    cores: u8,
    state: &LineState,
    sharers: CoreSet,
) -> Result<(), NoMemory>
    requires { cores ≤ 64 }
    ensures { OnOk result (map record_of records.new
        ≡ map record_of records.old ++ shown_record line.0 home.0 cores state.now sharers) }
{
    if is_known(state, sharers, cores) {
        add_known(records, line, home, cores, state, sharers)?;
    }
    Ok(())
}

fn add_if_skipped(
    records: &mut List<Record>,
    id: DirId,
    dir: &Directory,
    tid: Tid,
) -> Result<(), NoMemory>
    ensures { (elsewhere : ℕ → ℕ) → OnOk result (map record_of records.new ≡ map record_of records.old
        ++ (if is_skipped (dir_of elsewhere dir.now).serving tid.0 then Skipped id.0 tid.0 ∷ [] else [])) }
{
    if dir.is_skipped(tid) {
        add(records, Record::Skipped { dir: id, tid })?;
    }
    Ok(())
}

/// The TIDs that were skipped.
#[tactic(auto, unfolding(rules_maps::specs::Words::those))]
fn add_skips(records: &mut List<Record>, id: DirId, dir: &Directory) -> Result<(), NoMemory>
    ensures { (elsewhere : ℕ → ℕ) → let s = (dir_of elsewhere dir.now).serving in OnOk result (map record_of records.new
        ≡ map record_of records.old ++ flat_map (skipped_record id.0 s) (numbers (length s.skips))) }
{
    let serving = dir.serving().0;
    for k in 0..dir.skips_ahead() {
        add_if_skipped(records, id, dir, Tid(serving + 1 + k as u64))?;
    }
    Ok(())
}

/// A line of memory that is at home at the directory, where something is known of it.
#[tactic(auto, unfolding(crate::specs::Directories::at_home))]
fn add_line_at_home(
    records: &mut List<Record>,
    config: &Config,
    id: DirId,
    dir: &Directory,
    line: LineAddr,
) -> Result<(), NoMemory>
    requires place { dir.now.lines.place ≡ record { shape = config.now; dir = id.0 } }
    requires exists { line.0 < lines config.now }
    ensures { (elsewhere : ℕ → ℕ) → OnOk result (map record_of records.new ≡ map record_of records.old
        ++ at_home config.now id.0 (line_record config.now (dir_of elsewhere dir.now).lines) line.0) }
{
    let home = config.home(line);
    if id.0 == home.0 {
        let state = dir.line_state(line);
        add_line(
            records,
            line,
            home,
            config.cores(),
            &state,
            dir.sharers(line),
        )?;
    }
    Ok(())
}

/// The lines that are at home at the directory of which something is known.
#[tactic(auto, unfolding(rules_maps::specs::Words::those))]
fn add_lines(
    records: &mut List<Record>,
    config: &Config,
    id: DirId,
    dir: &Directory,
) -> Result<(), NoMemory>
    requires { dir.now.lines.place ≡ record { shape = config.now; dir = id.0 } }
    ensures { (elsewhere : ℕ → ℕ) → OnOk result (map record_of records.new ≡ map record_of records.old
        ++ flat_map (at_home config.now id.0 (line_record config.now (dir_of elsewhere dir.now).lines)) (numbers (lines config.now))) }
{
    for line in 0..config.words() / 8 {
        add_line_at_home(records, config, id, dir, LineAddr(line))?;
    }
    Ok(())
}

/// Those of some lines that are at home at the directory of which something is known.
fn add_some_lines(
    records: &mut List<Record>,
    config: &Config,
    id: DirId,
    dir: &Directory,
    some: &[LineAddr],
) -> Result<(), NoMemory>
    requires place { dir.now.lines.place ≡ record { shape = config.now; dir = id.0 } }
    requires exist { All (λ l. l.0 < lines config.now) some.now }
    ensures { (elsewhere : ℕ → ℕ) → OnOk result (map record_of records.new ≡ map record_of records.old
        ++ flat_map (at_home config.now id.0 (line_record config.now (dir_of elsewhere dir.now).lines)) (map (λ l. l.0) some.now)) }
{
    for line in some {
        add_line_at_home(records, config, id, dir, *line)?;
    }
    Ok(())
}

/// The directory itself, and the TIDs that were skipped.
fn add_serving(records: &mut List<Record>, id: DirId, dir: &Directory) -> Result<(), NoMemory>
    ensures { (elsewhere : ℕ → ℕ) → OnOk result (map record_of records.new
        ≡ map record_of records.old ++ serving_records id.0 (dir_of elsewhere dir.now)) }
{
    let (serving, owed) = (dir.serving(), dir.owed());
    let directory_is = Record::DirectoryIs {
        dir: id,
        serving,
        owed,
    };
    add(records, directory_is)?;
    add_skips(records, id, dir)?;
    Ok(())
}

/// Appends the records of a directory, which has this number, of a machine that began with this code. It takes time in the lines of RAM.
/// After want of memory a part of them may stand there.
pub(crate) fn add_directory(
    records: &mut List<Record>,
    id: DirId,
    dir: &Directory,
    code: &Code,
) -> Result<(), NoMemory>
    requires { dir.now.lines.place ≡ record { shape = code.now.settings; dir = id.0 } }
    ensures { (elsewhere : ℕ → ℕ) → OnOk result (map record_of records.new ≡ map record_of records.old
        ++ directory_records code.now.settings (first_ram (started code.now)) id.0 (dir_of elsewhere dir.now)) }
{
    add_serving(records, id, dir)?;
    add_lines(records, code.config(), id, dir)?;
    add_home_words(records, id, dir, code)?;
    Ok(())
}

/// The same with what is known of some lines alone, and the home words of some. It takes time in these lines, and in the TIDs that are
/// kept as skipped.
pub(crate) fn add_part(
    records: &mut List<Record>,
    id: DirId,
    dir: &Directory,
    code: &Code,
    known: &[LineAddr],
    words: &[LineAddr],
) -> Result<(), NoMemory>
    requires place { dir.now.lines.place ≡ record { shape = code.now.settings; dir = id.0 } }
    requires known { All (λ l. l.0 < lines code.now.settings) known.now }
    requires words { All (λ l. l.0 < lines code.now.settings) words.now }
    ensures { (elsewhere : ℕ → ℕ) → OnOk result (map record_of records.new ≡ map record_of records.old
        ++ directory_part code.now.settings (first_ram (started code.now)) id.0 (map (λ l. l.0) known.now) (map (λ l. l.0) words.now)
        (dir_of elsewhere dir.now)) }
{
    add_serving(records, id, dir)?;
    add_some_lines(records, code.config(), id, dir, known)?;
    add_words_of(records, id, dir, code, words)?;
    Ok(())
}
