// What an event may change of a core's frames, and the sets in which these are.
ghost use Rattle.std.specs.Prelude.{◌≡◌, ◌<◌, IfOk, IfSome, None, true};
ghost use Rattle.std.specs.Option.{option_map, option_to_list};
ghost use Rattle.image_load.specs.Contents.{started};
ghost use Rattle.rv_code.specs.Machine.{program};
ghost use Rattle.rv_exec.specs.Needs.{need_of};
ghost use Rattle.rules_maps.specs.Cache.{IsCache};
ghost use Rattle.rules_maps.specs.Shape.{set_of};
ghost use Rattle.rules_maps.specs.Words.{those};
ghost use Rattle.tcc_msg.specs.Plain.{msg_of};
ghost use Rattle.commit_engine.specs.Engine.{phase_of};
ghost use Rattle.core_node.specs.View.{core_of};
ghost use Rattle.watch_changes.specs.Plain.{reach_of};
ghost use Rattle.watch_changes.specs.Touched.{more_if_read, reach_of_end, reach_of_exec, reach_of_msg, reach_of_need, reach_of_reply};
ghost use Rattle.watch_changes.specs.Touched.{reaches};

use commit_engine::Phase;
use core_node::CoreNode;
use rv_code::Code;
use rv_exec::Need;
use std::alloc::Global;
use tcc_base::{Config, LineAddr, List, NoMemory};
use tcc_msg::Msg;
use watch_core::{line_at, look_at};

/// The frames besides that of one line.
#[derive(Clone, Copy, Debug, PartialEq, Eq)]
pub(crate) enum More {
    NoMore,
    /// All that are marked.
    Marked,
    Every,
}

/// What an event may change of a core's frames.
#[derive(Clone, Copy, Debug)]
pub(crate) struct Reach {
    /// The frame of this line.
    pub line: Option<LineAddr>,
    pub more: More,
}

/// The end of a transaction.
fn of_end(phase: Phase) -> Reach
    ensures { reach_of result ≡ reach_of_end (phase_of phase) }
{
    let more = match phase {
        Phase::Solo(_) => More::Every,
        _ => More::NoMore,
    };
    Reach { line: None, more }
}

/// An instruction that needs this.
fn of_need(config: &Config, phase: Phase, need: Need) -> Reach
    ensures { reach_of result ≡ reach_of_need config.now (phase_of phase) (need_of need) }
{
    match need {
        Need::Load { addr, .. } | Need::Store { addr, .. } | Need::Amo { addr, .. } => Reach {
            line: Some(line_at(config, addr)),
            more: More::NoMore,
        },
        Need::Nothing | Need::Console(_) => Reach {
            line: None,
            more: More::NoMore,
        },
        Need::End | Need::Halt(_) | Need::Trap(_) => of_end(phase),
    }
}

/// An instruction of a core, or its commit.
pub(crate) fn of_exec(core: &CoreNode, code: &Code) -> Reach
    ensures { let s = core_of core.now in reach_of result
        ≡ reach_of_exec code.now.settings ((program (started code.now)).need s.local) s.phase }
{
    let seen = look_at(core, code);
    match seen.phase {
        Phase::Ready(_) => Reach {
            line: None,
            more: More::Marked,
        },
        phase => of_need(code.config(), phase, seen.need),
    }
}

/// A directory's reply.
fn of_reply(phase: Phase) -> Reach
    ensures { reach_of result ≡ reach_of_reply (phase_of phase) }
{
    let more = match phase {
        Phase::Overflowing(_) => More::Marked,
        _ => More::NoMore,
    };
    Reach { line: None, more }
}

fn if_read(read: bool) -> More
    ensures { (reach_of (record { line = None; more = result })).more ≡ more_if_read read }
{
    if read { More::Marked } else { More::NoMore }
}

/// A message to a core.
pub(crate) fn of_msg(core: &CoreNode, msg: &Msg) -> Reach
    ensures { reach_of result ≡ reach_of_msg (core_of core.now) (msg_of msg.now) }
{
    match *msg {
        Msg::Fill { line, .. } | Msg::DataReq { line } => Reach {
            line: Some(line),
            more: More::NoMore,
        },
        Msg::Inv { line, mask, .. } => Reach {
            line: Some(line),
            more: if_read(core.reads_masked(line, mask)),
        },
        Msg::ProbeReply { .. } => of_reply(core.phase()),
        _ => Reach {
            line: None,
            more: More::NoMore,
        },
    }
}

/// All sets.
fn every_set(alloc: Global, count: u16) -> Result<List<u16>, NoMemory>
    ensures { IfOk result (λ sets. sets ≡ those (λ x. true) count) }
{
    let mut sets = List::new(alloc);
    for set in 0..count {
        sets.push(set)?;
    }
    Ok(sets)
}

/// A set, where there is one.
fn that_set(alloc: Global, set: Option<u16>) -> Result<List<u16>, NoMemory>
    ensures { IfOk result (λ sets. sets ≡ option_to_list set) }
{
    let mut sets = List::new(alloc);
    if let Some(set) = set {
        sets.push(set)?;
    }
    Ok(sets)
}

/// The set of a line, where there is one.
fn set_of_some(core: &CoreNode, line: Option<LineAddr>) -> Option<u16>
    ensures value { result ≡ option_map (λ l. set_of core.now.config l.0) line }
    ensures exists { IfSome result (λ x. x < core.now.config.sets) }
    ensures consistent { IfSome line (λ l. IsCache core.now.config (core_of core.now).cache) }
{
    match line {
        Some(line) => Some(core.set_of_line(line)),
        None => None,
    }
}

/// The sets of a core's cache in which these frames are, in rising order. It takes constant time, and where marked frames are among them
/// time and memory for those that were marked since the last commit or roll back.
pub(crate) fn sets_of(alloc: Global, core: &CoreNode, reach: Reach) -> Result<List<u16>, NoMemory>
    ensures { IfOk result (λ sets. sets
        ≡ those (reaches core.now.config (core_of core.now).cache (reach_of reach)) core.now.config.sets) }
{
    let set = set_of_some(core, reach.line);
    match reach.more {
        More::NoMore => that_set(alloc, set),
        More::Marked => core.marked_sets(set),
        More::Every => every_set(alloc, core.core().config.sets()),
    }
}
