// The registers of a core and of its checkpoint, each record appended to a list. Where memory runs out, the list holds a part of it.
ghost use Rattle.std.specs.Prelude.{◌≡◌, ◌++◌, OnOk, map};
ghost use Rattle.std.specs.List.{flat_map};
ghost use Rattle.rules_tcc.specs.Seen.{numbers};
ghost use Rattle.core_node.specs.View.{core_of};
ghost use Rattle.watch_state.specs.Cores.{register_record, register_records, saved_record};
ghost use Rattle.watch_state.specs.Plain.{record_of};

use crate::attempts::add;
use crate::records::Record;
use core_node::Core;
use reg_checkpoint::Regs;
use tcc_base::{CoreId, List, NoMemory, Reg};

#[tactic(auto, unfolding(crate::specs::Cores::register_record))]
fn add_register(
    records: &mut List<Record>,
    core: CoreId,
    regs: &Regs,
    r: Reg,
) -> Result<(), NoMemory>
    ensures { OnOk result (map record_of records.new ≡ map record_of records.old ++ register_record core.0 regs.now r) }
{
    let value = regs.get(r);
    if value == 0 {
        return Ok(());
    }
    let number = r.number();
    add(
        records,
        Record::Register {
            core,
            number,
            value,
        },
    )
}

#[tactic(auto, unfolding(crate::specs::Cores::saved_record))]
fn add_saved_register(
    records: &mut List<Record>,
    core: CoreId,
    regs: &Regs,
    r: Reg,
) -> Result<(), NoMemory>
    ensures { OnOk result (map record_of records.new ≡ map record_of records.old ++ saved_record core.0 regs.now r) }
{
    let value = regs.get(r);
    if value == 0 {
        return Ok(());
    }
    let number = r.number();
    add(
        records,
        Record::SavedRegister {
            core,
            number,
            value,
        },
    )
}

#[tactic(auto, unfolding(rules_maps::specs::Words::those))]
fn add_all_registers(records: &mut List<Record>, core: CoreId, regs: &Regs) -> Result<(), NoMemory>
    ensures { OnOk result (map record_of records.new
        ≡ map record_of records.old ++ flat_map (register_record core.0 regs.now) (numbers 32)) }
{
    for number in 0..32 {
        if let Some(r) = Reg::new(number) {
            add_register(records, core, regs, r)?;
        }
    }
    Ok(())
}

#[tactic(auto, unfolding(rules_maps::specs::Words::those))]
fn add_all_saved(records: &mut List<Record>, core: CoreId, regs: &Regs) -> Result<(), NoMemory>
    ensures { OnOk result (map record_of records.new
        ≡ map record_of records.old ++ flat_map (saved_record core.0 regs.now) (numbers 32)) }
{
    for number in 0..32 {
        if let Some(r) = Reg::new(number) {
            add_saved_register(records, core, regs, r)?;
        }
    }
    Ok(())
}

/// Appends the registers of a core's attempt and of its checkpoint. After want of memory a part of them may stand there.
pub fn add_registers(records: &mut List<Record>, id: CoreId, core: &Core) -> Result<(), NoMemory>
    ensures { OnOk result (map record_of records.new ≡ map record_of records.old ++ register_records id.0 (core_of core.now)) }
{
    add_all_registers(records, id, core.state.regs())?;
    let pc = core.check.pc();
    add(records, Record::SavedPc { core: id, pc })?;
    add_all_saved(records, id, core.check.regs())?;
    Ok(())
}
