// An instruction that has what it needs: what it loads, stores and prints is noted, and the core goes on to the next one.
ghost use Rattle.std.specs.Prelude.{ℕ, ◌≡◌, ◌<◌, ◌-◌, ◌^◌, OnOk, OnErr, [], ◌∷◌, ◌++◌};
ghost use Rattle.rules_program.specs.Plain.{load_of, store_of};
ghost use Rattle.tcc_base.specs.Limits.{attempt_limit};
ghost use Rattle.tcc_base.specs.declared.access.Size.TheVariants.{Word};
ghost use Rattle.rules_tcc.specs.State.{CoreState};
ghost use Rattle.rules_tcc.specs.Attempt.{one_more_instruction, finished};
ghost use Rattle.rv_exec.specs.Needs.{need_of};
ghost use Rattle.rv_exec.specs.Running.{alone};
ghost use Rattle.core_node.specs.Executing.{noted, given as given_by, GoesOn};
ghost use Rattle.core_node.specs.View.{core_of, IsCore, Stays};

use crate::state::Core;
use rv_decode::Inst;
use rv_exec::{Need, amo_value, finish as finish_inst, read_part, replace_part};
use tcc_base::{Load, NoMemory, Size, Stored};

/// The bytes that an instruction loads from the word that it found, with zeros above.
pub(crate) fn given(need: Need, word: u32) -> Option<u32>
    ensures { result ≡ given_by (need_of need) word }
{
    match need {
        Need::Load { addr, size } => Some(read_part(word, addr, size)),
        Need::Amo { addr, .. } => Some(read_part(word, addr, Size::Word)),
        Need::Nothing => None,
        Need::Store { .. } => None,
        Need::Console(_) => None,
        Need::End => None,
        Need::Halt(_) => None,
        Need::Trap(_) => None,
    }
}

/// The next instruction, with the loaded bytes where there are any.
#[tactic(auto, unfolding(crate::specs::View::core_of, rules_tcc::specs::Attempt::one_more_instruction))]
pub(crate) fn advance(core: &mut Core, inst: &Inst, loaded: Option<u32>)
    requires whole { IsCore core.old }
    requires counts { core.old.n < attempt_limit }
    ensures does { core_of core.new ≡ one_more_instruction (alone inst.now) loaded (core_of core.old) }
    ensures phase { core.new.phase ≡ core.old.phase }
    ensures awaited { core.new.awaited ≡ core.old.awaited }
    ensures stays { Stays core.old core.new }
{
    finish_inst(inst, &mut core.state, loaded);
    core.n += 1;
}

/// Notes a load.
#[tactic(auto, unfolding(crate::specs::View::core_of))]
fn note_load(core: &mut Core, addr: u32, size: Size, value: u32) -> Result<(), NoMemory>
    requires whole { IsCore core.old }
    ensures does { OnOk result (core.new ≡ record core.old { loads = core.old.loads ++ load_of addr size value ∷ [] }) }
    ensures unchanged { OnErr result (core.new ≡ core.old) }
{
    core.loads.push(Load { addr, size, value })
}

/// Notes a store.
#[tactic(auto, unfolding(crate::specs::View::core_of))]
fn note_store(core: &mut Core, addr: u32, size: Size, value: u32) -> Result<(), NoMemory>
    requires whole { IsCore core.old }
    ensures does { OnOk result (core.new ≡ record core.old { stores = core.old.stores ++ store_of addr size value ∷ [] }) }
    ensures unchanged { OnErr result (core.new ≡ core.old) }
{
    core.stores.push(Stored { addr, size, value })
}

/// Notes a load and a store of the same word.
fn note_change(core: &mut Core, addr: u32, old: u32, value: u32) -> Result<(), NoMemory>
    requires whole { IsCore core.old }
    ensures does { OnOk result (core.new ≡ record core.old {
      loads = core.old.loads ++ load_of addr Word old ∷ [];
      stores = core.old.stores ++ store_of addr Word value ∷ [];
    }) }
    ensures unchanged { OnErr result (core.new ≡ core.old) }
{
    note_load(core, addr, Size::Word, old)?;
    match note_store(core, addr, Size::Word, value) {
        Ok(()) => Ok(()),
        Err(e) => {
            let _ = core.loads.pop();
            Err(e)
        }
    }
}

/// Notes what an instruction loads, stores and prints, `word` being the word that it found, where it looked for one.
#[tactic(auto, unfolding(crate::specs::View::core_of))]
pub(crate) fn note(core: &mut Core, need: Need, word: u32) -> Result<(), NoMemory>
    requires whole { IsCore core.old }
    ensures does { OnOk result (core_of core.new ≡ noted (need_of need) word (core_of core.old)) }
    ensures n { core.new.n ≡ core.old.n }
    ensures stays { Stays core.old core.new }
    ensures unchanged { OnErr result (core.new ≡ core.old) }
{
    match need {
        Need::Load { addr, size } => note_load(core, addr, size, read_part(word, addr, size)),
        Need::Store { addr, size, value } => note_store(core, addr, size, value),
        Need::Amo { addr, op, value } => {
            let old = read_part(word, addr, Size::Word);
            note_change(core, addr, old, amo_value(op, old, value))
        }
        Need::Console(byte) => core.console.push(byte),
        Need::Nothing => Ok(()),
        Need::End => Ok(()),
        Need::Halt(_) => Ok(()),
        Need::Trap(_) => Ok(()),
    }
}

/// Takes back what was noted of an instruction last. Takes no memory.
pub(crate) fn take_back(core: &mut Core, need: Need)
    requires whole { IsCore core.old }
    ensures undone { (x : ℕ) (s : CoreState) → core_of core.old ≡ noted (need_of need) x s → core_of core.new ≡ s }
    ensures stays { Stays core.old core.new }
{
    match need {
        Need::Load { .. } => {
            let _ = core.loads.pop();
        }
        Need::Store { .. } => {
            let _ = core.stores.pop();
        }
        Need::Amo { .. } => {
            let _ = core.loads.pop();
            let _ = core.stores.pop();
        }
        Need::Console(_) => {
            let _ = core.console.pop();
        }
        Need::Nothing => {}
        Need::End => {}
        Need::Halt(_) => {}
        Need::Trap(_) => {}
    }
}

/// The instruction is done: what it did is noted, it is counted, and registers and pc advance. It is one that doesn't end its
/// transaction. After want of memory nothing is changed.
pub(crate) fn finish(core: &mut Core, inst: &Inst, need: Need, word: u32) -> Result<(), NoMemory>
    requires whole { IsCore core.old }
    requires counts { core.old.n < attempt_limit }
    requires goes_on { GoesOn (need_of need) }
    ensures does { OnOk result (core_of core.new ≡ finished (alone inst.now) (need_of need) word (core_of core.old)) }
    ensures stays { Stays core.old core.new }
    ensures unchanged { OnErr result (core.new ≡ core.old) }
{
    note(core, need, word)?;
    advance(core, inst, given(need, word));
    Ok(())
}
