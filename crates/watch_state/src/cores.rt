// A core, all its records appended to a list.
ghost use Rattle.std.specs.Prelude.{◌≡◌, ◌<◌, ◌++◌, OnOk, map};
ghost use Rattle.std.specs.List.{All};
ghost use Rattle.core_node.specs.View.{core_of};
ghost use Rattle.watch_state.specs.Cores.{cached_records, core_part, core_records};
ghost use Rattle.watch_state.specs.Plain.{record_of};

use crate::attempts::add_attempt;
use crate::frames::{add_sets, add_ways};
use crate::records::Record;
use crate::registers::add_registers;
use crate::spills::add_spills;
use core_node::CoreNode;
use tcc_base::{CoreId, List, NoMemory};

/// Appends the records of a core, which has this number. It takes time in its registers, the directories and the frames of its cache, and
/// in the lines of RAM only while it has spilled words. After want of memory a part of them may stand there.
pub(crate) fn add_core(
    records: &mut List<Record>,
    id: CoreId,
    core: &CoreNode,
) -> Result<(), NoMemory>
    ensures { OnOk result (map record_of records.new
        ≡ map record_of records.old ++ core_records core.now.config id.0 (core_of core.now)) }
{
    let held = core.core();
    let config = held.config;
    add_attempt(records, &config, id, held)?;
    add_registers(records, id, held)?;
    add_ways(records, id, core, config.sets(), config.ways())?;
    add_spills(records, id, &config, &held.spilled)?;
    Ok(())
}

/// The same with the frames of some sets of its cache alone.
pub(crate) fn add_part_of_core(
    records: &mut List<Record>,
    id: CoreId,
    core: &CoreNode,
    sets: &[u16],
) -> Result<(), NoMemory>
    requires { All (λ x. x < core.now.config.sets) sets.now }
    ensures { OnOk result (map record_of records.new
        ≡ map record_of records.old ++ core_part core.now.config id.0 sets.now (core_of core.now)) }
{
    let held = core.core();
    let config = held.config;
    add_attempt(records, &config, id, held)?;
    add_registers(records, id, held)?;
    add_sets(records, id, core, sets, config.ways())?;
    add_spills(records, id, &config, &held.spilled)?;
    Ok(())
}

/// Appends what the cache of a core holds, and what it has spilled. It takes time in the frames of the cache, and in the lines of RAM only
/// while the core has spilled words. After want of memory a part of it may stand there.
pub fn add_cached(records: &mut List<Record>, id: CoreId, core: &CoreNode) -> Result<(), NoMemory>
    ensures { OnOk result (map record_of records.new
        ≡ map record_of records.old ++ cached_records core.now.config id.0 (core_of core.now)) }
{
    let held = core.core();
    let config = held.config;
    add_ways(records, id, core, config.sets(), config.ways())?;
    add_spills(records, id, &config, &held.spilled)
}
