// What a core's attempt has come to, each record appended to a list. Where memory runs out, the list holds a part of it.
ghost use Rattle.std.specs.Prelude.{◌≡◌, ◌<◌, ◌≤◌, ◌++◌, ◌==◌, ◌∷◌, [], OnOk, map, if◌then◌else◌};
ghost use Rattle.std.specs.List.{flat_map};
ghost use Rattle.rules_maps.specs.Masks.{has};
ghost use Rattle.rules_maps.specs.Words.{those};
ghost use Rattle.rules_tcc.specs.Seen.{numbers};
ghost use Rattle.commit_engine.specs.Engine.{after_of};
ghost use Rattle.rv_exec.specs.Outcomes.{outcome_of};
ghost use Rattle.core_node.specs.View.{awaited_of, core_of};
ghost use Rattle.watch_state.specs.Cores.{attempt_records, awaited_record, committed_record, ended_record, owed_record};
ghost use Rattle.watch_state.specs.Cores.{reserved_record};
ghost use Rattle.watch_state.specs.Progress.{progress_records};
ghost use Rattle.watch_state.specs.Plain.{record_of};
ghost use Rattle.watch_state.specs.Records.{CommittedAt};

use crate::numbers::{any_in, only_below};
use crate::records::Record;
use commit_engine::DirSet;
use core_node::{Awaited, Core};
use rv_exec::Outcome;
use tcc_base::{Config, CoreId, DirId, List, NoMemory, Tid};

/// One record more.
pub(crate) fn add(records: &mut List<Record>, told: Record) -> Result<(), NoMemory>
    ensures { OnOk result (map record_of records.new ≡ map record_of records.old ++ record_of told ∷ []) }
{
    records.push(told)
}

fn add_reserved(
    records: &mut List<Record>,
    core: CoreId,
    reserved: Option<u32>,
) -> Result<(), NoMemory>
    ensures { OnOk result (map record_of records.new ≡ map record_of records.old ++ reserved_record core.0 reserved) }
{
    match reserved {
        Some(addr) => add(records, Record::Reserved { core, addr }),
        None => Ok(()),
    }
}

fn add_ended(records: &mut List<Record>, core: CoreId, outcome: Outcome) -> Result<(), NoMemory>
    ensures { OnOk result (map record_of records.new ≡ map record_of records.old ++ ended_record core.0 (outcome_of outcome)) }
{
    match outcome {
        Outcome::Goes => Ok(()),
        Outcome::Ended | Outcome::Halted(_) | Outcome::Trapped(_) => {
            add(records, Record::EndedBy { core, outcome })
        }
    }
}

fn add_awaited(
    records: &mut List<Record>,
    core: CoreId,
    awaited: Option<Awaited>,
) -> Result<(), NoMemory>
    ensures { OnOk result (map record_of records.new ≡ map record_of records.old ++ awaited_record core.0 (awaited_of awaited)) }
{
    match awaited {
        None => Ok(()),
        Some(Awaited { line, stale }) => add(records, Record::AwaitsLine { core, line, stale }),
    }
}

fn add_owed(records: &mut List<Record>, core: CoreId, bits: u64, dirs: u8) -> Result<(), NoMemory>
    requires { dirs ≤ 64 }
    ensures { OnOk result (map record_of records.new ≡ map record_of records.old ++ owed_record core.0 (those (has bits) dirs)) }
{
    if any_in(bits, dirs) {
        let bits = only_below(bits, dirs);
        let dirs = DirSet { bits };
        add(records, Record::OwedBy { core, dirs })
    } else {
        Ok(())
    }
}

fn add_last(records: &mut List<Record>, core: CoreId, dir: DirId, tid: Tid) -> Result<(), NoMemory>
    ensures { OnOk result (map record_of records.new
        ≡ map record_of records.old ++ (if tid.0 == 0 then [] else CommittedAt core.0 dir.0 tid.0 ∷ [])) }
{
    if tid.0 == 0 {
        return Ok(());
    }
    add(records, Record::CommittedAt { core, dir, tid })
}

#[tactic(auto, unfolding(crate::specs::Cores::committed_record, commit_engine::specs::Engine::after_of))]
fn add_committed(
    records: &mut List<Record>,
    core: CoreId,
    after: &[Tid; 64],
    dir: u8,
) -> Result<(), NoMemory>
    requires { dir < 64 }
    ensures { OnOk result (map record_of records.new
        ≡ map record_of records.old ++ committed_record core.0 (after_of after.now) dir) }
{
    add_last(records, core, DirId(dir), after[dir as usize])
}

#[tactic(auto, unfolding(rules_maps::specs::Words::those))]
fn add_all_committed(
    records: &mut List<Record>,
    core: CoreId,
    after: &[Tid; 64],
    dirs: u8,
) -> Result<(), NoMemory>
    requires { dirs ≤ 64 }
    ensures { OnOk result (map record_of records.new
        ≡ map record_of records.old ++ flat_map (committed_record core.0 (after_of after.now)) (numbers dirs)) }
{
    for dir in 0..dirs {
        add_committed(records, core, after, dir)?;
    }
    Ok(())
}

/// What the attempt of a core has come to.
pub(crate) fn add_attempt(
    records: &mut List<Record>,
    config: &Config,
    id: CoreId,
    core: &Core,
) -> Result<(), NoMemory>
    ensures { OnOk result (map record_of records.new
        ≡ map record_of records.old ++ attempt_records config.now id.0 (core_of core.now)) }
{
    let dirs = config.dirs();
    let (n, pc, phase) = (core.n, core.state.pc(), core.phase);
    let core_is = Record::CoreIs {
        core: id,
        n,
        pc,
        phase,
    };
    add(records, core_is)?;
    add_reserved(records, id, core.state.reserved())?;
    add_ended(records, id, core.ended)?;
    add_awaited(records, id, core.awaited)?;
    add_owed(records, id, core.owing.bits, dirs)?;
    add_all_committed(records, id, &core.after, dirs)?;
    Ok(())
}

/// Appends what the attempt of a core has come to, without what it has to do with directories: the core itself, its reservation, and how it
/// has ended. After want of memory a part of it may stand there.
pub fn add_progress(records: &mut List<Record>, id: CoreId, core: &Core) -> Result<(), NoMemory>
    ensures { OnOk result (map record_of records.new ≡ map record_of records.old ++ progress_records id.0 (core_of core.now)) }
{
    let (n, pc, phase) = (core.n, core.state.pc(), core.phase);
    let core_is = Record::CoreIs {
        core: id,
        n,
        pc,
        phase,
    };
    add(records, core_is)?;
    add_reserved(records, id, core.state.reserved())?;
    add_ended(records, id, core.ended)
}
