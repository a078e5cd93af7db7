// A core executes: the word that came from memory, and the instruction, or that the core has gone alone.
ghost use Rattle.std.specs.Prelude.{◌≡◌, ◌≢◌, ◌<◌, ◌++◌, ◌||◌, [], None, OnOk, is_some, map};
ghost use Rattle.std.specs.Option.{option_map};
ghost use Rattle.image_load.specs.Contents.{started};
ghost use Rattle.rv_code.specs.Machine.{program};
ghost use Rattle.rv_exec.specs.Needs.{need_of};
ghost use Rattle.rules_program.specs.Program.{Program};
ghost use Rattle.rules_program.specs.Ram.{word_of};
ghost use Rattle.rules_tcc.specs.State.{CoreState};
ghost use Rattle.core_node.specs.View.{core_of};
ghost use Rattle.rules_bus.specs.Exec.{word_read as read_by};
ghost use Rattle.rules_bus.specs.State.{Exec};
ghost use Rattle.bus_tcc.specs.Answers.{bus_step_of, tid_told};
ghost use Rattle.bus_tcc.specs.Machine.{bus_program_of, bus_settings_of, bus_world_of};
ghost use Rattle.bus_watch.specs.Facts.{Holder};
ghost use Rattle.commit_engine.specs.Engine.{phase_of};
ghost use Rattle.bus_watch.specs.Happened.{comes_from_memory as from_memory, executed, finished};
ghost use Rattle.bus_watch.specs.Happened.{has_gone_alone as went_alone, waits_for_bus as waits};
ghost use Rattle.bus_watch.specs.Plain.{bus_fact_of};
ghost use Rattle.bus_watch.specs.Telling.{SawBefore, SawExec, behind_told, hits, number_of};
ghost use Rattle.spec_cache.specs.Look.{look_of};
ghost use Rattle.bus_watch.specs.Watched.{BusWatched};
ghost use Rattle.watch_core.specs.Seen.{Saw};
ghost use Rattle.tcc_base.specs.Limits.{run_limit};

use crate::behind::{Before, look_before, tell_behind};
use crate::fact::BusFact;
use bus_tcc::{BusError, BusEvent, BusStep, BusSystem};
use commit_engine::Phase;
use core_node::CoreNode;
use rv_code::Code;
use rv_exec::Need;
use spec_cache::Look;
use tcc_base::{Config, CoreId, List, NoMemory, Size, WordAddr};
use watch::Fact;
use watch_core::{Seen, addr_of, line_at, look_at, what_done};

/// What is seen of a core before it executes.
#[derive(Clone, Copy, Debug)]
pub struct SeenExec {
    pub seen: Seen,
    /// Whether the word that the instruction reads comes from memory.
    pub from_memory: bool,
}

/// The word of an address.
#[tactic(auto, unfolding(rules_program::specs::Ram::word_of))]
fn word_at(config: &Config, addr: u32) -> WordAddr
    ensures { result.0 ≡ word_of config.now.base addr }
{
    WordAddr(addr.saturating_sub(config.base()) / 4)
}

/// The word that an instruction reads.
fn word_read(config: &Config, need: Need) -> Option<WordAddr>
    ensures { option_map number_of result ≡ read_by config.now.base (need_of need) }
{
    match need {
        Need::Load { addr, .. } => Some(word_at(config, addr)),
        Need::Store { addr, size, .. } => match size {
            Size::Word => None,
            Size::Half => Some(word_at(config, addr)),
            Size::Byte => Some(word_at(config, addr)),
        },
        Need::Amo { addr, .. } => Some(word_at(config, addr)),
        Need::Nothing => None,
        Need::Console(_) => None,
        Need::End => None,
        Need::Halt(_) => None,
        Need::Trap(_) => None,
    }
}

fn either(a: bool, b: bool) -> bool
    ensures { result ≡ (a || b) }
{
    a || b
}

/// Whether a cache answers with a value.
fn is_hit(look: Look) -> bool
    ensures { result ≡ hits (look_of look) }
{
    match look {
        Look::Hit(_) => true,
        Look::Miss => false,
        Look::NeedsRoom(_) => false,
        Look::Overflow(_) => false,
    }
}

/// Whether a word is valid in a core's cache.
fn is_valid(node: &CoreNode, word: WordAddr) -> bool
    ensures { result ≡ is_some ((core_of node.now).cache.value word.0) }
{
    is_hit(node.core().cache.look_load(word))
}

/// Whether a word is spilled.
#[tactic(auto, unfolding(core_node::specs::View::core_of))]
fn is_spilled(node: &CoreNode, word: WordAddr) -> bool
    ensures { result ≡ is_some ((core_of node.now).spilled word.0) }
{
    match node.core().spilled.get(word) {
        Some(_) => true,
        None => false,
    }
}

/// Whether a word that a core reads comes from memory.
#[tactic(auto, unfolding(crate::specs::Happened::comes_from_memory))]
fn comes_from_memory(node: &CoreNode, read: Option<WordAddr>) -> bool
    ensures { result ≡ from_memory (core_of node.now) (option_map number_of read) }
{
    match read {
        Some(word) => !either(is_spilled(node, word), is_valid(node, word)),
        None => false,
    }
}

/// What is seen of a core before it executes.
fn look(node: &CoreNode, code: &Code) -> SeenExec
    requires { code.now.settings ≡ node.now.config }
    ensures { SawExec result node.now.config (program (started code.now)) (core_of node.now) }
{
    let seen = look_at(node, code);
    SeenExec {
        seen,
        from_memory: comes_from_memory(node, word_read(code.config(), seen.need)),
    }
}

/// Whether a core in this phase waits for the bus.
#[tactic(auto, unfolding(crate::specs::Happened::waits_for_bus))]
fn waits_for_bus(phase: Phase) -> bool
    ensures { result ≡ waits (phase_of phase) }
{
    match phase {
        Phase::AwaitTid => true,
        Phase::Running => false,
        Phase::DoomedTid => false,
        Phase::Probing(_) => false,
        Phase::Ready(_) => false,
        Phase::Overflowing(None) => false,
        Phase::Overflowing(Some(_)) => false,
        Phase::Solo(_) => false,
        Phase::Halted => false,
    }
}

/// Whether a core that ran is alone now.
#[tactic(auto, unfolding(crate::specs::Happened::has_gone_alone))]
fn has_gone_alone(before: Phase, after: Phase) -> bool
    ensures { result ≡ went_alone (phase_of before) (phase_of after) }
{
    match (before, after) {
        (Phase::Running, Phase::Solo(_)) => true,
        _ => false,
    }
}

/// Tells of an instruction that was finished, and of the word that came from memory for it.
fn tell_finished(
    config: &Config,
    node: &CoreNode,
    id: CoreId,
    seen: SeenExec,
    facts: &mut List<BusFact>,
) -> Result<(), NoMemory>
    ensures { (p : Program) (s : CoreState) → SawExec seen config.now p s → OnOk result (map bus_fact_of facts.new
        ≡ map bus_fact_of facts.old ++ finished config.now p id.0 s (core_of node.now)) }
{
    let SeenExec { seen, from_memory } = seen;
    let Seen { pc, need, .. } = seen;
    let addr = addr_of(need);
    if from_memory {
        facts.push(BusFact::Common(Fact::Missed {
            core: id,
            pc,
            addr,
            line: line_at(config, addr),
        }))?;
    }
    facts.push(BusFact::Common(Fact::Did {
        core: id,
        pc,
        done: what_done(node, need),
    }))
}

/// Tells of an execution: what was seen before it, and the core behind it.
#[tactic(auto, unfolding(crate::specs::Happened::executed))]
fn tell_executed(
    config: &Config,
    node: &CoreNode,
    id: CoreId,
    seen: SeenExec,
    facts: &mut List<BusFact>,
) -> Result<(), NoMemory>
    ensures { (p : Program) (s : CoreState) → SawExec seen config.now p s → OnOk result (map bus_fact_of facts.new
        ≡ map bus_fact_of facts.old ++ executed config.now p id.0 s (core_of node.now)) }
{
    let Seen { phase, pc, need } = seen.seen;
    if waits_for_bus(phase) {
        return Ok(());
    }
    if has_gone_alone(phase, node.phase()) {
        let addr = addr_of(need);
        return facts.push(BusFact::Common(Fact::Overflowed {
            core: id,
            pc,
            addr,
            line: line_at(config, addr),
        }));
    }
    tell_finished(config, node, id, seen, facts)
}

/// Tells of an execution, and what is told behind it.
fn tell_exec(
    system: &BusSystem,
    id: CoreId,
    seen: SeenExec,
    before: Before,
    step: BusStep,
    facts: &mut List<BusFact>,
) -> Result<(), NoMemory>
    requires { id.0 < (bus_settings_of system.now).cores }
    ensures { (s : CoreState) (h : Holder) → SawExec seen (bus_settings_of system.now) (bus_program_of system.now) s
        → SawBefore before s h → OnOk result (map bus_fact_of facts.new ≡ map bus_fact_of facts.old
        ++ (executed (bus_settings_of system.now) (bus_program_of system.now) id.0 s ((bus_world_of system.now).cores id.0)
        ++ behind_told system.now id.0 s.phase h (tid_told step))) }
{
    tell_executed(system.config(), system.core(id), id, seen, facts)?;
    tell_behind(system, id, before, step, facts)
}

/// A core executes, which is enabled.
pub(crate) fn watch_exec(
    system: &mut BusSystem,
    id: CoreId,
    facts: &mut List<BusFact>,
) -> Result<(), BusError>
    requires few { system.old.events < run_limit }
    requires empty { facts.old ≡ [] }
    requires enabled { bus_step_of system.old (Exec id.0) ≢ None }
    ensures { BusWatched system.old system.new (Exec id.0) facts.new result }
{
    let seen = look(system.core(id), system.code());
    let before = look_before(system, id);
    let step = system.step(BusEvent::Exec(id))?;
    match tell_exec(system, id, seen, before, step, facts) {
        Ok(()) => Ok(()),
        Err(NoMemory) => Err(BusError::Memory),
    }
}
