// An event is taken, and what it did is told.
ghost use Rattle.std.specs.Prelude.{◌≡◌, ◌<◌, []};
ghost use Rattle.rules_maps.specs.Bridge.{node_of};
ghost use Rattle.rules_maps.specs.Nodes.{Deliver};
ghost use Rattle.tcc_msg.specs.Plain.{event_of};
ghost use Rattle.watch.specs.Happened.{actor as plain_actor};
ghost use Rattle.watch_machine.specs.Watched.{Watched, WatchedNode};
ghost use Rattle.net_core.specs.Limits.{machine_limit};

use crate::delivering::{watch_core, watch_dir, watch_vendor};
use crate::evicting::watch_evict;
use crate::executing::watch_exec;
use crate::sending::tell_sent;
use net_core::{Step, StepError, System};
use tcc_base::{List, NoMemory, NodeId};
use tcc_msg::{Event, Name};
use watch::Fact;

/// The node at which an event happens.
pub fn actor(e: Event) -> NodeId
    ensures { node_of result ≡ plain_actor (event_of e) }
{
    match e {
        Event::Exec(core) | Event::Evict(core, _, _) => NodeId::Core(core),
        Event::Deliver(name) => name.dst,
    }
}

/// Takes an event, which may name anything, and leaves in `facts` what it did, in place of what stood there. Behind it all that was sent
/// stands on its links.
///
/// `Refused` comes exactly where the event isn't enabled, and nothing has happened then. `Memory`: there was no memory for the event, or
/// none to tell of it, and then it may have been taken; what stands in `facts` is of no use.
///
/// The time is that of the event, with a constant for each fact, and a pass over the machine's nodes for an event that sends several
/// messages which don't go to different nodes in their order.
pub fn watch(system: &mut System, e: Event, facts: &mut List<Fact>) -> Result<(), StepError>
    requires few { system.old.events < machine_limit }
    ensures { Watched system.old system.new (event_of e) facts.new result }
{
    watch_node(system, e, facts)?;
    match tell_sent(system, actor(e), facts) {
        Ok(()) => Ok(()),
        Err(NoMemory) => Err(StepError::Memory),
    }
}

/// As `watch`, but what the event sent isn't told; it is what `last_sent` of the machine gives. This is for those to whom the numbers of
/// messages and the order of their destinations don't matter. It answers the step that was taken. The time is that of the event, with a
/// constant for each fact.
pub fn watch_node(system: &mut System, e: Event, facts: &mut List<Fact>) -> Result<Step, StepError>
    requires few { system.old.events < machine_limit }
    ensures { WatchedNode system.old system.new (event_of e) facts.new result }
{
    facts.items.clear();
    match e {
        Event::Exec(core) => {
            if !system.enabled(e) {
                return Err(StepError::Refused);
            }
            watch_exec(system, core, facts)
        }
        Event::Evict(core, set, way) => {
            if !system.enabled(e) {
                return Err(StepError::Refused);
            }
            watch_evict(system, core, set, way, facts)
        }
        Event::Deliver(name) => watch_delivery(system, name, facts),
    }
}

/// A message is delivered, if there is one of this name and its node takes it.
fn watch_delivery(
    system: &mut System,
    name: Name,
    facts: &mut List<Fact>,
) -> Result<Step, StepError>
    requires few { system.old.events < machine_limit }
    requires empty { facts.old ≡ [] }
    ensures { WatchedNode system.old system.new (Deliver (node_of name.src) (node_of name.dst) name.seq) facts.new result }
{
    let Some(&msg) = system.in_flight(name) else {
        return Err(StepError::Refused);
    };
    match (name.src, name.dst) {
        (_, NodeId::Core(core)) => watch_core(system, core, name, msg, facts),
        (NodeId::Core(core), NodeId::Dir(dir)) => watch_dir(system, core, dir, name, msg, facts),
        (NodeId::Core(core), NodeId::Vendor) => watch_vendor(system, core, name, msg, facts),
        _ => Err(StepError::Refused),
    }
}
