// An event is taken, and what it did is told.
ghost use Rattle.std.specs.Prelude.{◌<◌};
ghost use Rattle.bus_tcc.specs.Machine.{bus_event_of};
ghost use Rattle.bus_watch.specs.Watched.{BusWatched};
ghost use Rattle.tcc_base.specs.Limits.{run_limit};

use crate::evicting::watch_evict;
use crate::executing::watch_exec;
use crate::fact::BusFact;
use crate::taking::watch_take;
use bus_tcc::{BusError, BusEvent, BusSystem};
use tcc_base::List;

/// Takes an event, which may name anything, and leaves in `facts` what it did, in place of what stood there.
///
/// `Refused` comes exactly where the event isn't enabled, and nothing has happened then. `Memory`: there was no memory for the event, or
/// none to tell of it, and then it may have been taken; what stands in `facts` is of no use.
///
/// The time is that of the event, with a constant for each fact, and for a Take with the ways of a set for each line of the packet.
pub fn watch_bus(
    system: &mut BusSystem,
    e: BusEvent,
    facts: &mut List<BusFact>,
) -> Result<(), BusError>
    requires few { system.old.events < run_limit }
    ensures { BusWatched system.old system.new (bus_event_of e) facts.new result }
{
    facts.items.clear();
    if !system.enabled(e) {
        return Err(BusError::Refused);
    }
    match e {
        BusEvent::Exec(core) => watch_exec(system, core, facts),
        BusEvent::Evict(core, set, way) => watch_evict(system, core, set, way, facts),
        BusEvent::Take(core) => watch_take(system, core, facts),
    }
}
