// A way is emptied.
ghost use Rattle.std.specs.Prelude.{◌≡◌, ◌≢◌, ◌<◌, ◌++◌, [], None, OnOk, map};
ghost use Rattle.rules_bus.specs.State.{Evict};
ghost use Rattle.core_node.specs.View.{core_of};
ghost use Rattle.bus_tcc.specs.Answers.{bus_step_of};
ghost use Rattle.watch.specs.Instructions.{evicted as emptied};
ghost use Rattle.bus_watch.specs.Facts.{Common};
ghost use Rattle.bus_watch.specs.Plain.{bus_fact_of};
ghost use Rattle.bus_watch.specs.Watched.{BusWatched};
ghost use Rattle.tcc_base.specs.Limits.{run_limit};

use crate::behind::watch_told;
use crate::fact::BusFact;
use bus_tcc::{BusError, BusEvent, BusSystem};
use core_node::CoreNode;
use tcc_base::{CoreId, List, NoMemory};
use watch_core::evicted;

/// Tells of a way that is about to be emptied.
fn tell_evicted(
    core: &CoreNode,
    id: CoreId,
    set: u16,
    way: u8,
    facts: &mut List<BusFact>,
) -> Result<(), NoMemory>
    requires set_exists { set < core.now.config.sets }
    requires way_exists { way < core.now.config.ways }
    ensures { OnOk result (map bus_fact_of facts.new
        ≡ map bus_fact_of facts.old ++ map Common (emptied id.0 set way (core_of core.now))) }
{
    match evicted(core, id, set, way) {
        Some(fact) => facts.push(BusFact::Common(fact)),
        None => Ok(()),
    }
}

/// A way of a core is emptied, which is enabled.
pub(crate) fn watch_evict(
    system: &mut BusSystem,
    id: CoreId,
    set: u16,
    way: u8,
    facts: &mut List<BusFact>,
) -> Result<(), BusError>
    requires few { system.old.events < run_limit }
    requires empty { facts.old ≡ [] }
    requires enabled { bus_step_of system.old (Evict id.0 set way) ≢ None }
    ensures { BusWatched system.old system.new (Evict id.0 set way) facts.new result }
{
    match tell_evicted(system.core(id), id, set, way, facts) {
        Ok(()) => watch_told(system, BusEvent::Evict(id, set, way), id, facts),
        Err(NoMemory) => Err(BusError::Memory),
    }
}
