// The words that a core has spilled, each record appended to a list. Where memory runs out, the list holds a part of it.
ghost use Rattle.std.specs.Prelude.{◌≡◌, ◌+◌, ◌*◌, ◌/◌, ◌^◌, ◌<◌, ◌++◌, OnOk, map};
ghost use Rattle.std.specs.List.{flat_map};
ghost use Rattle.rules_maps.specs.Shape.{lines};
ghost use Rattle.rules_tcc.specs.Seen.{numbers};
ghost use Rattle.overflow_buf.specs.Kept.{spilled};
ghost use Rattle.watch_state.specs.Cores.{spilled_record, spilled_records, spilled_word};
ghost use Rattle.watch_state.specs.Plain.{record_of};

use crate::attempts::add;
use crate::records::Record;
use overflow_buf::OverflowBuf;
use tcc_base::{Config, CoreId, LineAddr, List, NoMemory, WordAddr};

fn add_spilled(
    records: &mut List<Record>,
    core: CoreId,
    addr: u32,
    value: Option<u32>,
) -> Result<(), NoMemory>
    ensures { OnOk result (map record_of records.new ≡ map record_of records.old ++ spilled_record core.0 addr value) }
{
    match value {
        Some(value) => add(records, Record::Spilled { core, addr, value }),
        None => Ok(()),
    }
}

#[tactic(auto, unfolding(crate::specs::Cores::spilled_word))]
fn add_word(
    records: &mut List<Record>,
    core: CoreId,
    config: &Config,
    kept: &OverflowBuf,
    word: WordAddr,
) -> Result<(), NoMemory>
    requires { word.0 < config.now.ram / 4 }
    ensures { OnOk result (map record_of records.new
        ≡ map record_of records.old ++ spilled_word config.now core.0 (spilled kept.now) word.0) }
{
    let addr = config.base() + 4 * word.0;
    add_spilled(records, core, addr, kept.get(word))
}

/// The spilled words of a line.
#[tactic(auto, unfolding(crate::specs::Cores::spilled_records, rules_maps::specs::Words::those))]
fn add_line(
    records: &mut List<Record>,
    core: CoreId,
    config: &Config,
    kept: &OverflowBuf,
    line: LineAddr,
) -> Result<(), NoMemory>
    requires exists { line.0 < lines config.now }
    requires small { line.0 < 2 ^ 29 }
    ensures { OnOk result (map record_of records.new
        ≡ map record_of records.old ++ spilled_records config.now core.0 (spilled kept.now) line.0) }
{
    for k in 0..8 {
        add_word(records, core, config, kept, WordAddr(8 * line.0 + k))?;
    }
    Ok(())
}

/// All spilled words, by rising address, of a core that has spilled some.
#[tactic(auto, unfolding(rules_maps::specs::Words::those))]
fn add_lines(
    records: &mut List<Record>,
    core: CoreId,
    config: &Config,
    kept: &OverflowBuf,
) -> Result<(), NoMemory>
    ensures { OnOk result (map record_of records.new ≡ map record_of records.old
        ++ flat_map (spilled_records config.now core.0 (spilled kept.now)) (numbers (lines config.now))) }
{
    for line in 0..config.words() / 8 {
        add_line(records, core, config, kept, LineAddr(line))?;
    }
    Ok(())
}

/// All spilled words, by rising address. It takes time in the lines of RAM where the core has spilled any, and else constant time.
pub(crate) fn add_spills(
    records: &mut List<Record>,
    core: CoreId,
    config: &Config,
    kept: &OverflowBuf,
) -> Result<(), NoMemory>
    ensures { OnOk result (map record_of records.new ≡ map record_of records.old
        ++ flat_map (spilled_records config.now core.0 (spilled kept.now)) (numbers (lines config.now))) }
{
    if kept.is_empty() {
        return Ok(());
    }
    add_lines(records, core, config, kept)
}
