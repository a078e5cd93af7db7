// What can happen next.
ghost use Rattle.std.specs.Prelude.{◌≡◌, ◌≢◌, ◌<◌, ◌↔◌, [], IfSome, IsSome, IsTrue, None, true};
ghost use Rattle.std.specs.Option.{option_map};
ghost use Rattle.theorem_live.specs.Progress.{spares};
ghost use Rattle.tcc_msg.specs.Plain.{event_of};
ghost use Rattle.rules_tcc.specs.Seen.{IsDone};
ghost use Rattle.rules_tcc.specs.State.{Halted};
ghost use Rattle.rules_tcc.specs.Useful.{is_useful};
ghost use Rattle.net_core.specs.Machine.{program_of, settings_of, world_of};
ghost use Rattle.net_core.specs.Reached.{Reached};
ghost use Rattle.live_core.specs.Chosen.{first_for, first_useful};

use crate::laws::machines_are_live;
use net_core::System;
use rules_tcc::useful_events_are_listed;
use tcc_base::{CoreEnd, CoreId, NodeId};
use tcc_msg::{Event, Name};

/// The first of the useful events of a machine whose messages all stand on their links. `None` exactly where the machine is done, if the
/// rules have led to it from its start. Takes no memory, and time in the logarithm of the numbers of cores and of links, and in what is in flight on one link.
pub fn find(system: &System) -> Option<Event>
    requires { system.now.unsent ≡ [] }
    ensures first { option_map event_of result ≡ first_useful system.now }
    ensures done { Reached system.now → (result ≡ None) ↔ IsDone (settings_of system.now) (world_of system.now) }
{
    machines_are_live(system);
    useful_events_are_listed();
    system.useful_at(0)
}

/// The first of the useful events that isn't the delivery of another core's request for a TID, so that the core needn't be passed in the
/// order. There is one, unless the core has halted, if the rules have led to the machine from its start. The machine's messages all stand on their links. Takes no memory, and for each useful
/// event up to that one time in the logarithm of the numbers of cores and of links, and in what is in flight on one link.
pub fn find_for(system: &System, core: CoreId) -> Option<Event>
    requires settled { system.now.unsent ≡ [] }
    requires core { core.0 < (settings_of system.now).cores }
    ensures first { option_map event_of result ≡ first_for system.now core.0 }
    ensures useful { IfSome result (λ e.
        is_useful (settings_of system.now) (program_of system.now) (world_of system.now) (event_of e) ≡ true) }
    ensures spares { IfSome result (λ e. spares core.0 (event_of e) ≡ true) }
    ensures found { Reached system.now → ((world_of system.now).cores core.0).phase ≢ Halted → IsSome result }
{
    machines_are_live(system);
    useful_events_are_listed();
    for k in 0..system.useful_count() {
        if let Some(e) = system.useful_at(k) {
            if spares(core, e) {
                return Some(e);
            }
        }
    }
    None
}

/// Whether a core has halted. It takes constant time.
pub fn has_halted(system: &System, core: CoreId) -> bool
    requires { core.0 < (settings_of system.now).cores }
    ensures { IsTrue result ↔ (((world_of system.now).cores core.0).phase ≡ Halted) }
{
    system.events();
    match system.ended(core) {
        CoreEnd::Run => false,
        CoreEnd::Halt(_) => true,
        CoreEnd::Trap(_) => true,
    }
}

/// Whether the event isn't the delivery of another core's request for a TID.
fn spares(core: CoreId, e: Event) -> bool
    ensures { result ≡ spares core.0 (event_of e) }
{
    match e {
        Event::Deliver(
            Name {
                src: NodeId::Core(asks),
                dst: NodeId::Vendor,
                ..
            },
        ) => asks.0 == core.0,
        _ => true,
    }
}
