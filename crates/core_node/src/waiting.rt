// The set in which a core waits for room, so that an eviction there is of use, and whether it may execute.
ghost use Rattle.std.specs.Prelude.{◌≡◌, is_some, not};
ghost use Rattle.rules_program.specs.Program.{Program};
ghost use Rattle.image_load.specs.Contents.{started};
ghost use Rattle.rv_code.specs.Machine.{program};
ghost use Rattle.rv_code.specs.Served.{IsServed};
ghost use Rattle.rv_exec.specs.Needs.{need_of};
ghost use Rattle.rules_tcc.specs.CoreExec.{core_exec, unless_awaiting as exec_unless_awaiting};
ghost use Rattle.rules_tcc.specs.Useful.{room, room_for_need, room_for_store, room_for_word, room_unless_awaiting as unless_awaiting};
ghost use Rattle.spec_cache.specs.Look.{look_of};
ghost use Rattle.core_node.specs.View.{awaited_of, core_of, IsCore};
ghost use Rattle.core_node.specs.Waiting.{room_after};

use crate::quick::needs_nothing;
use crate::state::Core;
use commit_engine::Phase;
use rv_code::Code;
use rv_exec::Need;
use spec_cache::Look;
use tcc_base::{LineAddr, Size, WordAddr};

/// The set of a cache's answer in which room is waited for.
#[inline(always)]
fn room_of(look: Look, alone: bool) -> Option<u16>
    ensures { result ≡ room_after (look_of look) alone }
{
    match look {
        Look::Hit(_) => None,
        Look::Miss => None,
        Look::NeedsRoom(set) => Some(set),
        Look::Overflow(set) => { if alone { Some(set) } else { None } }
    }
}

/// Where the core waits for room that wants this word.
#[inline(always)]
fn room_at_word(core: &Core, w: WordAddr) -> Option<u16>
    requires { IsCore core.now }
    ensures { result ≡ room_for_word core.now.config w.0 (core_of core.now) }
{
    match core.spilled.get(w) {
        Some(_) => None,
        None => room_of(core.cache.look_load(w), core.phase.is_alone()),
    }
}

/// Where the core waits for room that stores this whole word.
#[inline(always)]
fn room_at_store(core: &Core, w: WordAddr) -> Option<u16>
    requires { IsCore core.now }
    ensures { result ≡ room_for_store core.now.config w.0 (core_of core.now) }
{
    if core.spilled.holds(LineAddr(w.0 / 8)) {
        None
    } else {
        room_of(core.cache.look_store(w, true), core.phase.is_alone())
    }
}

/// Where the core waits for room whose instruction needs this.
#[tactic(auto, unfolding(rules_program::specs::Ram::word_of))]
#[inline(always)]
pub(crate) fn room_at_need(core: &Core, need: Need) -> Option<u16>
    requires whole { IsCore core.now }
    requires served { IsServed core.now.config.base core.now.config.ram need }
    ensures { result ≡ room_for_need core.now.config (core_of core.now) (need_of need) }
{
    let base = core.config.base();
    match need {
        Need::Load { addr, .. } => room_at_word(core, WordAddr((addr - base) / 4)),
        Need::Store { addr, size, .. } => {
            let w = WordAddr((addr - base) / 4);
            match size {
                Size::Word => room_at_store(core, w),
                Size::Half => room_at_word(core, w),
                Size::Byte => room_at_word(core, w),
            }
        }
        Need::Amo { addr, .. } => room_at_word(core, WordAddr((addr - base) / 4)),
        Need::Nothing => None,
        Need::Console(_) => None,
        Need::End => None,
        Need::Halt(_) => None,
        Need::Trap(_) => None,
    }
}

/// Where the core waits for room that awaits no line.
#[inline(always)]
pub(crate) fn room_at_pc(core: &Core, code: &Code) -> Option<u16>
    requires whole { IsCore core.now }
    requires same { code.now.settings ≡ core.now.config }
    ensures { result ≡ room_for_need core.now.config (core_of core.now) ((program (started code.now)).need core.now.state) }
{
    match code.inst(&core.state) {
        Err(_) => None,
        Ok(inst) => {
            if needs_nothing(&inst) {
                return None;
            }
            room_at_need(core, code.plan(&inst, &core.state))
        }
    }
}

/// The same of a core that may await a line.
#[inline(always)]
fn room_unless_awaiting(core: &Core, code: &Code) -> Option<u16>
    requires whole { IsCore core.now }
    requires same { code.now.settings ≡ core.now.config }
    ensures { result ≡ unless_awaiting core.now.config (program (started code.now)) (core_of core.now) (awaited_of core.now.awaited) }
{
    match core.awaited {
        Some(_) => None,
        None => room_at_pc(core, code),
    }
}

/// The set in which the core waits for room; None where it doesn't wait.
pub(crate) fn waits_for_room(core: &Core, code: &Code) -> Option<u16>
    requires whole { IsCore core.now }
    requires same { code.now.settings ≡ core.now.config }
    ensures { result ≡ room core.now.config (program (started code.now)) (core_of core.now) }
{
    match core.phase {
        Phase::Running => room_unless_awaiting(core, code),
        Phase::Solo(_) => room_unless_awaiting(core, code),
        Phase::AwaitTid => None,
        Phase::DoomedTid => None,
        Phase::Probing(_) => None,
        Phase::Ready(_) => None,
        Phase::Overflowing(_) => None,
        Phase::Halted => None,
    }
}

/// Whether no set is waited for.
fn is_free(set: Option<u16>) -> bool
    ensures { result ≡ not (is_some set) }
{
    match set {
        Some(_) => false,
        None => true,
    }
}

/// Whether a core may execute that runs or is alone and waits for room there: it awaits no line, and doesn't wait for room.
fn may_execute(core: &Core, waits: Option<u16>) -> bool
    ensures { (p : Program) → waits ≡ unless_awaiting core.now.config p (core_of core.now) (awaited_of core.now.awaited)
        → result ≡ is_some (exec_unless_awaiting core.now.config p core.now.id.0 (core_of core.now) (awaited_of core.now.awaited)) }
{
    match core.awaited {
        Some(_) => false,
        None => is_free(waits),
    }
}

/// Whether a core may execute that waits for room there.
pub(crate) fn may_exec(core: &Core, waits: Option<u16>) -> bool
    ensures { (p : Program) → waits ≡ room core.now.config p (core_of core.now)
        → result ≡ is_some (core_exec core.now.config p core.now.id.0 (core_of core.now)) }
{
    match core.phase {
        Phase::Running => may_execute(core, waits),
        Phase::Solo(_) => may_execute(core, waits),
        Phase::Ready(_) => true,
        Phase::AwaitTid => false,
        Phase::DoomedTid => false,
        Phase::Probing(_) => false,
        Phase::Overflowing(_) => false,
        Phase::Halted => false,
    }
}
