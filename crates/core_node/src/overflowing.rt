// Whether an execution would make the core wait to go on alone.
ghost use Rattle.std.specs.Prelude.{◌≡◌, false};
ghost use Rattle.image_load.specs.Contents.{started};
ghost use Rattle.rv_code.specs.Machine.{program};
ghost use Rattle.rv_code.specs.Served.{IsServed};
ghost use Rattle.rv_exec.specs.Needs.{need_of};
ghost use Rattle.spec_cache.specs.Look.{look_of};
ghost use Rattle.rules_tcc.specs.CoreExec.{core_exec};
ghost use Rattle.core_node.specs.AtHand.{goes_alone, need_overflows, store_overflows, word_overflows};
ghost use Rattle.core_node.specs.View.{core_of, IsCore};
ghost use Rattle.core_node.specs.Waiting.{is_full};

use crate::state::Core;
use commit_engine::Phase;
use rv_code::Code;
use rv_exec::Need;
use spec_cache::Look;
use tcc_base::{LineAddr, Size, WordAddr};

/// Whether the cache answers that the set is full of marked lines.
fn is_full_of_marks(look: Look) -> bool
    ensures { result ≡ is_full (look_of look) }
{
    match look {
        Look::Overflow(_) => true,
        Look::Hit(_) | Look::Miss | Look::NeedsRoom(_) => false,
    }
}

/// The same of the set of a word that is wanted.
fn at_word(core: &Core, w: WordAddr) -> bool
    requires { IsCore core.now }
    ensures { result ≡ word_overflows core.now.config w.0 (core_of core.now) }
{
    match core.spilled.get(w) {
        Some(_) => false,
        None => is_full_of_marks(core.cache.look_load(w)),
    }
}

/// The same of the set of a word that is stored as a whole.
fn at_store(core: &Core, w: WordAddr) -> bool
    requires { IsCore core.now }
    ensures { result ≡ store_overflows core.now.config w.0 (core_of core.now) }
{
    if core.spilled.holds(LineAddr(w.0 / 8)) {
        false
    } else {
        is_full_of_marks(core.cache.look_store(w, true))
    }
}

/// The same of what an instruction needs.
#[tactic(auto, unfolding(rules_program::specs::Ram::word_of))]
fn at_need(core: &Core, need: Need) -> bool
    requires whole { IsCore core.now }
    requires served { IsServed core.now.config.base core.now.config.ram need }
    ensures { result ≡ need_overflows core.now.config (core_of core.now) (need_of need) }
{
    let base = core.config.base();
    match need {
        Need::Load { addr, .. } => at_word(core, WordAddr((addr - base) / 4)),
        Need::Store { addr, size, .. } => {
            let w = WordAddr((addr - base) / 4);
            match size {
                Size::Word => at_store(core, w),
                Size::Half => at_word(core, w),
                Size::Byte => at_word(core, w),
            }
        }
        Need::Amo { addr, .. } => at_word(core, WordAddr((addr - base) / 4)),
        Need::Nothing => false,
        Need::Console(_) => false,
        Need::End => false,
        Need::Halt(_) => false,
        Need::Trap(_) => false,
    }
}

/// The same of the instruction at pc.
fn at_pc(core: &Core, code: &Code) -> bool
    requires whole { IsCore core.now }
    requires same { code.now.settings ≡ core.now.config }
    ensures { result ≡ need_overflows core.now.config (core_of core.now) ((program (started code.now)).need core.now.state) }
{
    match code.inst(&core.state) {
        Err(_) => false,
        Ok(inst) => at_need(core, code.plan(&inst, &core.state)),
    }
}

/// Whether an execution would make the core, which runs, wait to go on alone.
pub(crate) fn overflows(core: &Core, code: &Code) -> bool
    requires whole { IsCore core.now }
    requires same { code.now.settings ≡ core.now.config }
    ensures { result ≡ goes_alone (core_exec core.now.config (program (started code.now)) core.now.id.0 (core_of core.now)) }
{
    match core.phase {
        Phase::Running => match core.awaited {
            Some(_) => false,
            None => at_pc(core, code),
        },
        _ => false,
    }
}
