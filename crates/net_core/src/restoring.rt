// A machine that goes on from its parts.
ghost use Rattle.std.specs.Prelude.{◌≡◌, ◌↔◌, ℕ, true, IfOk, IfSome, IsSome, Some};
ghost use Rattle.rules_maps.specs.Nodes.{Msg as PlainMsg, Node};
ghost use Rattle.rules_tcc.specs.Links.{in_flight};
ghost use Rattle.machine_dirs.specs.Bank.{dirs_of};
ghost use Rattle.machine_links.specs.Flights.{is_ready, net_of};
ghost use Rattle.machine_parts.specs.Together.{AreSound};
ghost use Rattle.net_core.specs.Delivery.{AllMayGo, AreMarked};
ghost use Rattle.net_core.specs.Restored.{IsRestored};
ghost use Rattle.tcc_base.specs.Settings.{IsAllowed};

use crate::system::System;
use machine_dirs::DirBank;
use machine_links::InFlight;
use machine_parts::Parts;
use std::alloc::Global;
use tcc_base::{DirId, NoMemory, NodeId};
use tcc_msg::Outgoing;

/// Marks each message on its way to a directory by whether that takes it. It takes time in these, and in the links.
fn mark_all(dirs: &DirBank, flights: &mut InFlight)
    requires going { AllMayGo dirs.now.settings (net_of flights.old) }
    requires ready { (src dst : Node) (k : ℕ) (m : PlainMsg) → in_flight (net_of flights.old) src dst k ≡ Some m
        → is_ready flights.old src dst k ≡ true }
    ensures allowed { IsAllowed dirs.now.settings }
    ensures cores { flights.new.cores ≡ flights.old.cores }
    ensures dirs { flights.new.dirs ≡ flights.old.dirs }
    ensures net { net_of flights.new ≡ net_of flights.old }
    ensures marked { (ram : ℕ → ℕ) → AreMarked dirs.now.settings (dirs_of ram dirs.now) flights.new }
{
    for d in 0..dirs.config().dirs() {
        dirs.mark(flights, DirId(d));
    }
}

impl System {
    /// The machine of these parts; `None` exactly where together they aren't sound, so that the rules might not go on from them. It
    /// takes the time and the memory of `Parts::is_sound`, and time in what is in flight.
    pub fn restored(alloc: Global, parts: Parts) -> Result<Option<System>, NoMemory>
        ensures machine { IfOk result (λ r. IfSome r (IsRestored parts)) }
        ensures sound { IfOk result (λ r. IsSome r ↔ AreSound parts) }
    {
        if !parts.is_sound(alloc)? {
            return Ok(None);
        }
        let mut fields = parts.into_fields();
        mark_all(&fields.dirs, &mut fields.flights);
        Ok(Some(System {
            cores: fields.cores,
            dirs: fields.dirs,
            vendor: fields.vendor,
            flights: fields.flights,
            sender: NodeId::Vendor,
            out: Outgoing::new(alloc),
            placed: 0,
            commits: fields.commits,
            events: fields.events,
        }))
    }
}
