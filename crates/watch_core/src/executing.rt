// An instruction of a core: what it needs before, and what it did behind.
ghost use Rattle.std.specs.Prelude.{◌≡◌};
ghost use Rattle.image_load.specs.Contents.{started};
ghost use Rattle.rv_code.specs.Machine.{program};
ghost use Rattle.rv_exec.specs.Needs.{need_of};
ghost use Rattle.core_node.specs.View.{core_of};
ghost use Rattle.watch.specs.Instructions.{addr_of as addr_named, done as done_by, last_loaded as loaded_last};
ghost use Rattle.watch.specs.Instructions.{last_stored as stored_last, line_at as line_of_addr};
ghost use Rattle.watch.specs.Plain.{done_of};
ghost use Rattle.watch_core.specs.Seen.{Saw};

use commit_engine::Phase;
use core_node::CoreNode;
use reg_checkpoint::State;
use rv_code::Code;
use rv_exec::Need;
use tcc_base::{Config, LineAddr, Load, Stored};
use watch::Done;

/// What is seen of a core before it executes.
#[derive(Clone, Copy, Debug)]
pub struct Seen {
    pub phase: Phase,
    pub pc: u32,
    /// What the instruction at pc needs.
    pub need: Need,
}

/// What the instruction at a core's pc needs; where none can be fetched, the trap.
#[tactic(auto, unfolding(image_load::specs::Contents::started))]
fn need_at(code: &Code, state: &State) -> Need
    ensures { need_of result ≡ (program (started code.now)).need state.now }
{
    match code.inst(state) {
        Ok(inst) => code.plan(&inst, state),
        Err(trap) => Need::Trap(trap),
    }
}

/// What is seen of a core before it executes. It takes constant time.
#[tactic(auto, unfolding(core_node::specs::View::core_of))]
pub fn look_at(core: &CoreNode, code: &Code) -> Seen
    ensures { Saw result (program (started code.now)) (core_of core.now) }
{
    let core = core.core();
    Seen {
        phase: core.phase,
        pc: core.state.pc(),
        need: need_at(code, &core.state),
    }
}

/// The value that was loaded last, 0 where none was.
fn last_loaded(loads: &[Load]) -> u32
    ensures { result ≡ loaded_last loads.now }
{
    match loads.last() {
        Some(load) => load.value,
        None => 0,
    }
}

/// The value that was stored last, 0 where none was.
fn last_stored(stores: &[Stored]) -> u32
    ensures { result ≡ stored_last stores.now }
{
    match stores.last() {
        Some(stored) => stored.value,
        None => 0,
    }
}

/// What the instruction did that needed this and is finished. It takes constant time.
#[tactic(auto, unfolding(watch::specs::Instructions::done, core_node::specs::View::core_of))]
pub fn what_done(core: &CoreNode, need: Need) -> Done
    ensures { done_of result ≡ done_by (need_of need) (core_of core.now) }
{
    let core = core.core();
    match need {
        Need::Nothing => Done::Plainly,
        Need::Load { addr, size } => Done::Loaded {
            addr,
            size,
            value: last_loaded(&core.loads.items),
        },
        Need::Store { addr, size, .. } => Done::Stored {
            addr,
            size,
            value: last_stored(&core.stores.items),
        },
        Need::Amo { addr, .. } => Done::Changed {
            addr,
            old: last_loaded(&core.loads.items),
            new: last_stored(&core.stores.items),
        },
        Need::Console(byte) => Done::Printed(byte),
        Need::End => Done::Ended,
        Need::Halt(code) => Done::Halted(code),
        Need::Trap(cause) => Done::Trapped(cause),
    }
}

/// The address that an instruction accesses, 0 where it accesses none.
#[tactic(auto, unfolding(watch::specs::Instructions::addr_of))]
pub fn addr_of(need: Need) -> u32
    ensures { result ≡ addr_named (need_of need) }
{
    match need {
        Need::Load { addr, .. } => addr,
        Need::Store { addr, .. } => addr,
        Need::Amo { addr, .. } => addr,
        Need::Nothing => 0,
        Need::Console(_) => 0,
        Need::End => 0,
        Need::Halt(_) => 0,
        Need::Trap(_) => 0,
    }
}

/// The line of an address.
#[tactic(auto, unfolding(rules_program::specs::Ram::word_of, rules_maps::specs::Words::line_of))]
pub fn line_at(config: &Config, addr: u32) -> LineAddr
    ensures { result.0 ≡ line_of_addr config.now addr }
{
    LineAddr(addr.saturating_sub(config.base()) / 4 / 8)
}
