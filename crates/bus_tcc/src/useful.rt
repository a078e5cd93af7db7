// What can happen next: what one core may do, and the events of the machine that are worth choosing.
ghost use Rattle.std.specs.Prelude.{◌≡◌, IfOk, is_some, length, map, option_map, slice_get, ◌<◌, ◌&&◌, true, false, not};
ghost use Rattle.bus_tcc.specs.Answers.{bus_step_of};
ghost use Rattle.bus_tcc.specs.Chosen.{bus_useful_of};
ghost use Rattle.bus_tcc.specs.Machine.{bus_event_of};
ghost use Rattle.image_load.specs.Contents.{started};
ghost use Rattle.rv_code.specs.Machine.{program};
ghost use Rattle.core_node.specs.View.{core_of};
ghost use Rattle.core_node.specs.AtHand.{goes_alone};
ghost use Rattle.rules_tcc.specs.CoreExec.{core_exec};
ghost use Rattle.rules_tcc.specs.Useful.{room};
ghost use Rattle.bus_tcc.specs.Uses.{loose_ways, may_exec as may, room_ways, way_count as ways_of};

use crate::event::BusEvent;
use crate::system::BusSystem;
use commit_engine::Phase;
use core_node::CoreNode;
use rv_code::Code;
use std::alloc::Global;
use tcc_base::{List, NoMemory};

/// What a core may do next.
#[derive(Clone, Copy, Debug, PartialEq, Eq)]
pub(crate) struct MayDo {
    /// It may execute while the bus is free.
    pub free: bool,
    /// It may execute while it isn't, where that is asked.
    pub taken: bool,
    /// How many ways can be emptied of the set in which it waits for room.
    pub ways: u32,
}

/// Whether a core that runs and can execute goes on without the bus, where that is asked.
fn goes_on(core: &CoreNode, code: &Code, can: bool, asked: bool) -> bool
    requires { code.now.settings ≡ core.now.config }
    ensures { asked ≡ true
        → result ≡ (can && not (goes_alone (core_exec core.now.config (program (started code.now)) core.now.id.0 (core_of core.now)))) }
{
    asked && can && !core.overflows(code)
}

/// Whether a core may execute where the bus is free, and where that is asked where it isn't, if it can at all. It takes the bus only
/// where that is free.
fn may_exec(core: &CoreNode, code: &Code, can: bool, asked: bool) -> (bool, bool)
    requires same { code.now.settings ≡ core.now.config }
    requires can { can ≡ is_some (core_exec core.now.config (program (started code.now)) core.now.id.0 (core_of core.now)) }
    ensures free { result.0 ≡ may core.now.config (program (started code.now)) true core.now.id.0 (core_of core.now) }
    ensures taken { asked ≡ true
        → result.1 ≡ may core.now.config (program (started code.now)) false core.now.id.0 (core_of core.now) }
{
    match core.phase() {
        Phase::Running => (can, goes_on(core, code, can, asked)),
        Phase::Solo(_) => (can, can),
        Phase::AwaitTid => (true, false),
        Phase::DoomedTid => (false, false),
        Phase::Probing(_) => (false, false),
        Phase::Ready(_) => (false, false),
        Phase::Overflowing(_) => (false, false),
        Phase::Halted => (false, false),
    }
}

/// How many ways of a set can be emptied.
fn loose_count(core: &CoreNode, set: u16, ways: u8) -> u32
    requires exists { set < core.now.config.sets }
    requires all { ways ≡ core.now.config.ways }
    ensures { result ≡ length (loose_ways core.now.config (core_of core.now) set) }
{
    let mut count = 0;
    for way in 0..ways {
        if core.can_evict(set, way) {
            count += 1;
        }
    }
    count
}

/// The k-th of them, from 0; None exactly where there are no more than k.
fn loose_way(core: &CoreNode, set: u16, ways: u8, k: u64) -> Option<u8>
    requires exists { set < core.now.config.sets }
    requires all { ways ≡ core.now.config.ways }
    ensures { result ≡ slice_get (loose_ways core.now.config (core_of core.now) set) k }
{
    let mut left = k;
    for way in 0..ways {
        if core.can_evict(set, way) {
            if left == 0 {
                return Some(way);
            }
            left -= 1;
        }
    }
    None
}

/// How many ways can be emptied of the set in which the core waits for room.
fn way_count(core: &CoreNode, code: &Code, waits: Option<u16>) -> u32
    requires sets { 0 < core.now.config.sets }
    requires same { code.now.settings ≡ core.now.config }
    requires waits { waits ≡ room core.now.config (program (started code.now)) (core_of core.now) }
    ensures { result ≡ ways_of core.now.config (program (started code.now)) (core_of core.now) }
{
    match waits {
        Some(set) => loose_count(core, set, code.config().ways()),
        None => 0,
    }
}

/// What the core may do next: its next instruction is looked up once, and once more where it runs and can execute.
#[inline(never)]
fn uses_of_next(core: &CoreNode, code: &Code, asked: bool) -> MayDo
    requires sets { 0 < core.now.config.sets }
    requires same { code.now.settings ≡ core.now.config }
    ensures free { result.free ≡ may core.now.config (program (started code.now)) true core.now.id.0 (core_of core.now) }
    ensures taken { asked ≡ true
        → result.taken ≡ may core.now.config (program (started code.now)) false core.now.id.0 (core_of core.now) }
    ensures ways { result.ways ≡ ways_of core.now.config (program (started code.now)) (core_of core.now) }
{
    let (can, waits) = core.outlook(code);
    let (free, taken) = may_exec(core, code, can, asked);
    MayDo {
        free,
        taken,
        ways: way_count(core, code, waits),
    }
}

/// What the core may do next, where the bus isn't free only if that is asked. One that waits for the bus looks at no instruction.
#[inline(always)]
pub(crate) fn uses(core: &CoreNode, code: &Code, asked: bool) -> MayDo
    requires sets { 0 < core.now.config.sets }
    requires same { code.now.settings ≡ core.now.config }
    ensures free { result.free ≡ may core.now.config (program (started code.now)) true core.now.id.0 (core_of core.now) }
    ensures taken { asked ≡ true
        → result.taken ≡ may core.now.config (program (started code.now)) false core.now.id.0 (core_of core.now) }
    ensures ways { result.ways ≡ ways_of core.now.config (program (started code.now)) (core_of core.now) }
{
    match core.phase() {
        Phase::AwaitTid => MayDo {
            free: true,
            taken: false,
            ways: 0,
        },
        _ => uses_of_next(core, code, asked),
    }
}

/// The set and way of the k-th of them, from 0; None exactly where there are no more than k.
pub(crate) fn way_at(core: &CoreNode, code: &Code, k: u64) -> Option<(u16, u8)>
    requires sets { 0 < core.now.config.sets }
    requires same { code.now.settings ≡ core.now.config }
    ensures { result ≡ slice_get (room_ways core.now.config (program (started code.now)) (core_of core.now)) k }
{
    let set = core.waits_for_room(code)?;
    let way = loose_way(core, set, code.config().ways(), k)?;
    Some((set, way))
}

impl BusSystem {
    /// Whether an event, which may name anything, is enabled. It takes constant time.
    pub fn enabled(&self, event: BusEvent) -> bool
        ensures { result ≡ is_some (bus_step_of self.now (bus_event_of event)) }
    {
        self.engine.allows(&self.counts, event)
    }

    /// How many events are useful. It takes constant time.
    pub fn useful_count(&self) -> u64
        ensures { result ≡ length (bus_useful_of self.now) }
    {
        self.engine.useful_total(&self.counts)
    }

    /// The k-th useful event, from 0: `Exec` by core, `Evict` by core, set and way, `Take` by core. `None` exactly where there are no
    /// more than k. The time goes with the logarithm of the number of cores, and for an `Evict` also with the ways of a set.
    pub fn useful_at(&self, k: u64) -> Option<BusEvent>
        ensures { option_map bus_event_of result ≡ slice_get (bus_useful_of self.now) k }
    {
        self.engine.useful_number(&self.counts, k)
    }

    /// All useful events, in that order. Takes memory for them.
    pub fn useful(&self, alloc: Global) -> Result<List<BusEvent>, NoMemory>
        ensures { IfOk result (λ es. map bus_event_of es ≡ bus_useful_of self.now) }
    {
        let mut events = List::new(alloc);
        for k in 0..self.useful_count() {
            if let Some(event) = self.useful_at(k) {
                events.push(event)?;
            }
        }
        Ok(events)
    }
}
