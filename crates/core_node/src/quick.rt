// An instruction that goes on, sends nothing and takes no memory is done at once, in few steps. Each other one is left as it is.
ghost use Rattle.std.specs.Prelude.{◌≡◌, ◌<◌, ◌-◌, ◌^◌, ◌&&◌, not, true, false};
ghost use Rattle.rules_maps.specs.Shape.{lines};
ghost use Rattle.rules_maps.specs.Words.{line_of};
ghost use Rattle.rules_tcc.specs.CoreExec.{core_exec};
ghost use Rattle.rules_tcc.specs.Execute.{load as load_rule, word_store as word_rule, partial_store as partial_rule};
ghost use Rattle.rules_tcc.specs.Execute.{execute as execute_rule, execute_need as need_rule};
ghost use Rattle.image_load.specs.Contents.{started};
ghost use Rattle.rv_code.specs.Machine.{program};
ghost use Rattle.rv_code.specs.Served.{IsServed};
ghost use Rattle.rv_exec.specs.Effects.{planned};
ghost use Rattle.rv_exec.specs.Needs.{need_of};
ghost use Rattle.rules_program.specs.Program.{Local, Nothing};
ghost use Rattle.rv_exec.specs.declared.need.Need.TheVariants.{Load as Loads, Store as Stores};
ghost use Rattle.tcc_base.specs.Limits.{attempt_limit};
ghost use Rattle.tcc_base.specs.declared.access.Size.TheVariants.{Word};
ghost use Rattle.rv_exec.specs.Running.{alone};
ghost use Rattle.rules_tcc.specs.Attempt.{is_running};
ghost use Rattle.commit_engine.specs.Engine.{phase_of};
ghost use Rattle.spec_cache.specs.Held.{maps};
ghost use Rattle.core_node.specs.Executing.{AtOnce, IsAligned, asks};
ghost use Rattle.core_node.specs.View.{core_of, IsCore, Stays};

use crate::changing::new_word;
use crate::exec::word_at;
use crate::finishing::advance;
use crate::state::Core;
use crate::storing::line_of_word;
use commit_engine::Phase;
use rv_code::Code;
use rv_decode::Inst;
use rv_exec::{Need, read_part};
use spec_cache::{Look, SpecCache};
use tcc_base::{Load, Size, Stored, WordAddr};

/// A load that hits, of which there is room for the note.
fn load_quickly(core: &mut Core, inst: &Inst, addr: u32, size: Size, w: WordAddr) -> bool
    requires whole { IsCore core.old }
    requires counts { core.old.n < attempt_limit }
    requires exists { line_of w.0 < lines core.old.config }
    ensures does { AtOnce result (load_rule core.old.config (alone inst.now) (need_of (Loads addr size)) w.0 (core_of core.old))
        (core_of core.old) (core_of core.new) }
    ensures phase { core.new.phase ≡ core.old.phase }
    ensures awaited { core.new.awaited ≡ core.old.awaited }
    ensures stays { Stays core.old core.new }
{
    let noted = &core.loads.items;
    if noted.len() == noted.capacity() {
        return false;
    }
    if let Some(_) = core.spilled.get(w) {
        return false;
    }
    match core.cache.load(w, core.phase.is_running()) {
        Look::Hit(word) => {
            let value = read_part(word, addr, size);
            core.loads.items.push_reserved(Load { addr, size, value });
            advance(core, inst, Some(value));
            true
        }
        _ => false,
    }
}

/// A store of a word into a frame with no dirty word, of which there is room for the note.
fn store_quickly(core: &mut Core, inst: &Inst, addr: u32, value: u32, w: WordAddr) -> bool
    requires whole { IsCore core.old }
    requires counts { core.old.n < attempt_limit }
    ensures does { AtOnce result
        (word_rule core.old.config (alone inst.now) (need_of (Stores addr Word value)) w.0 value (core_of core.old)) (core_of core.old)
        (core_of core.new) }
    ensures phase { core.new.phase ≡ core.old.phase }
    ensures awaited { core.new.awaited ≡ core.old.awaited }
    ensures stays { Stays core.old core.new }
{
    let noted = &core.stores.items;
    if noted.len() == noted.capacity() {
        return false;
    }
    if core.spilled.holds(line_of_word(w)) {
        return false;
    }
    if !core.cache.store_clean(w, value, false) {
        return false;
    }
    let size = Size::Word;
    core.stores
        .items
        .push_reserved(Stored { addr, size, value });
    advance(core, inst, None);
    true
}

/// Whether a word that was found is read: not where it was modified before or the core is alone.
fn marks_too(phase: Phase, cache: &SpecCache, w: WordAddr) -> bool
    ensures { result ≡ (is_running (phase_of phase) && not ((maps cache.now).modified w.0)) }
{
    phase.is_running() && !cache.is_modified(w)
}

/// A store of a part of a word that is valid, likewise.
#[inline(never)]
fn part_quickly(
    core: &mut Core,
    inst: &Inst,
    addr: u32,
    size: Size,
    value: u32,
    w: WordAddr,
) -> bool
    requires whole { IsCore core.old }
    requires counts { core.old.n < attempt_limit }
    requires aligned { IsAligned (Stores addr size value) }
    ensures does { AtOnce result (partial_rule core.old.config (alone inst.now) (need_of (Stores addr size value)) w.0 (core_of core.old))
        (core_of core.old) (core_of core.new) }
    ensures phase { core.new.phase ≡ core.old.phase }
    ensures awaited { core.new.awaited ≡ core.old.awaited }
    ensures stays { Stays core.old core.new }
{
    let noted = &core.stores.items;
    if noted.len() == noted.capacity() {
        return false;
    }
    if let Some(_) = core.spilled.get(w) {
        return false;
    }
    if core.spilled.holds(line_of_word(w)) {
        return false;
    }
    let Look::Hit(word) = core.cache.look_load(w) else {
        return false;
    };
    let new = new_word(Need::Store { addr, size, value }, word);
    let also = marks_too(core.phase, &core.cache, w);
    if !core.cache.store_clean(w, new, also) {
        return false;
    }
    core.stores
        .items
        .push_reserved(Stored { addr, size, value });
    advance(core, inst, None);
    true
}

/// An instruction that needs this.
#[inline(never)]
fn need_quickly(core: &mut Core, inst: &Inst, need: Need) -> bool
    requires whole { IsCore core.old }
    requires counts { core.old.n < attempt_limit }
    requires served { IsServed core.old.config.base core.old.config.ram need }
    ensures does { AtOnce result (need_rule core.old.config (alone inst.now) core.old.id.0 (core_of core.old) (need_of need))
        (core_of core.old) (core_of core.new) }
    ensures phase { core.new.phase ≡ core.old.phase }
    ensures awaited { core.new.awaited ≡ core.old.awaited }
    ensures stays { Stays core.old core.new }
{
    match need {
        Need::Nothing => {
            advance(core, inst, None);
            true
        }
        Need::Load { addr, size } => load_quickly(core, inst, addr, size, word_at(core, addr)),
        Need::Store { addr, size, value } => match size {
            Size::Word => store_quickly(core, inst, addr, value, word_at(core, addr)),
            Size::Half => part_quickly(core, inst, addr, size, value, word_at(core, addr)),
            Size::Byte => part_quickly(core, inst, addr, size, value, word_at(core, addr)),
        },
        Need::Amo { .. } => false,
        Need::Console(_) => false,
        Need::End => false,
        Need::Halt(_) => false,
        Need::Trap(_) => false,
    }
}

/// Whether an instruction needs nothing, whatever the registers hold.
#[tactic(auto, unfolding(rv_exec::specs::Effects::planned))]
pub(crate) fn needs_nothing(inst: &Inst) -> bool
    ensures { result ≡ true → (l : Local) → planned inst.now l ≡ Nothing }
{
    match *inst {
        Inst::OpImm { .. } => true,
        Inst::Op { .. } => true,
        Inst::Lui { .. } => true,
        Inst::Auipc { .. } => true,
        _ => false,
    }
}

/// The instruction at pc.
#[inline]
fn here_quickly(core: &mut Core, code: &Code) -> bool
    requires whole { IsCore core.old }
    requires counts { core.old.n < attempt_limit }
    requires same { code.now.settings ≡ core.old.config }
    ensures does { AtOnce result (execute_rule core.old.config (program (started code.now)) core.old.id.0 (core_of core.old))
        (core_of core.old) (core_of core.new) }
    ensures phase { core.new.phase ≡ core.old.phase }
    ensures awaited { core.new.awaited ≡ core.old.awaited }
    ensures stays { Stays core.old core.new }
{
    match code.inst(&core.state) {
        Err(_) => false,
        Ok(inst) => {
            if needs_nothing(&inst) {
                advance(core, &inst, None);
                return true;
            }
            let need = code.plan(&inst, &core.state);
            need_quickly(core, &inst, need)
        }
    }
}

/// Executes an instruction at once, where it can and may be counted. Says whether it did.
#[tactic(auto, unfolding(rules_tcc::specs::CoreExec::core_exec, crate::specs::View::core_of))]
pub(crate) fn exec_quickly(core: &mut Core, code: &Code) -> bool
    requires whole { IsCore core.old }
    requires same { code.now.settings ≡ core.old.config }
    ensures does { AtOnce result (core_exec core.old.config (program (started code.now)) core.old.id.0 (core_of core.old))
        (core_of core.old) (core_of core.new) }
    ensures done { result ≡ true → asks (core_of core.new) ≡ false }
    ensures stays { Stays core.old core.new }
{
    if core.n == u32::MAX || core.awaited.is_some() {
        return false;
    }
    match core.phase {
        Phase::Running | Phase::Solo(_) => here_quickly(core, code),
        Phase::Ready(_) => false,
        Phase::AwaitTid => false,
        Phase::DoomedTid => false,
        Phase::Probing(_) => false,
        Phase::Overflowing(_) => false,
        Phase::Halted => false,
    }
}
