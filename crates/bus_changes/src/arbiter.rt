// The next TID and who has the bus, compared with what they were.
ghost use Rattle.std.specs.Prelude.{◌≡◌, ◌≤◌, ◌++◌, OnOk, string_bytes};
ghost use Rattle.rules_maps.specs.Masks.{has};
ghost use Rattle.rules_maps.specs.Words.{all_below};
ghost use Rattle.bus_tcc.specs.Machine.{bus_of, bus_settings_of, bus_world_of};
ghost use Rattle.bus_state.specs.Parts.{holding};
ghost use Rattle.bus_state.specs.Plain.{holding_of as plain_holding};
ghost use Rattle.bus_changes.specs.Changes.{arbiter_changes, bus_change_lines, same_flag, same_holding as have_same};

use crate::lines::push_told;
use bus_state::{BusRecord, Holding};
use bus_tcc::{Bus, BusSystem, CoreSet};
use std::alloc::AllocError;
use tcc_base::{CoreId, Tid};
use watch_state::only_below;

/// Whether two sets have the same cores below a number.
#[tactic(auto, unfolding(rules_maps::specs::Words::all_below))]
fn same_left(a: CoreSet, b: CoreSet, cores: u8) -> bool
    requires { cores ≤ 64 }
    ensures { result ≡ all_below (λ c. same_flag (has a.bits c) (has b.bits c)) cores }
{
    let mut same = true;
    for core in 0..cores {
        same = same && a.contains(CoreId(core)) == b.contains(CoreId(core));
    }
    same
}

/// Whether the same has the bus, of a machine with so many cores.
fn same_holding(was: &Bus, is: &Bus, cores: u8) -> bool
    requires { cores ≤ 64 }
    ensures { result ≡ have_same cores (bus_of was.now) (bus_of is.now) }
{
    match (was, is) {
        (Bus::Free, Bus::Free) => true,
        (Bus::Alone(c), Bus::Alone(d)) => c.0 == d.0,
        (Bus::Packet(p), Bus::Packet(q)) => same_left(p.left, q.left, cores),
        _ => false,
    }
}

/// Who has the bus, of a machine with so many cores.
fn holding_of(bus: &Bus, cores: u8) -> Holding
    requires { cores ≤ 64 }
    ensures { plain_holding result ≡ holding cores (bus_of bus.now) }
{
    match bus {
        Bus::Free => Holding::Nobody,
        Bus::Alone(core) => Holding::Core(*core),
        Bus::Packet(packet) => Holding::Left(CoreSet {
            bits: only_below(packet.left.bits, cores),
        }),
    }
}

/// Appends the record of the arbiter, where it isn't as it was.
#[tactic(auto, unfolding(crate::specs::Changes::arbiter_changes, crate::specs::Changes::bus_change_lines))]
fn push_changed(
    text: &mut String,
    cores: u8,
    next: Tid,
    was: &Bus,
    now: Tid,
    is: &Bus,
) -> Result<(), AllocError>
    requires { cores ≤ 64 }
    ensures { OnOk result (string_bytes text.new ≡ string_bytes text.old
        ++ bus_change_lines (arbiter_changes cores next.0 (bus_of was.now) now.0 (bus_of is.now))) }
{
    if next.0 == now.0 && same_holding(was, is, cores) {
        return Ok(());
    }
    let told = BusRecord::ArbiterIs {
        next: now,
        holding: holding_of(is, cores),
    };
    push_told(text, &told)
}

/// The same of a machine, as it is.
pub(crate) fn push_arbiter(
    text: &mut String,
    next: Tid,
    was: &Bus,
    system: &BusSystem,
) -> Result<(), AllocError>
    ensures { let w = bus_world_of system.now in OnOk result (string_bytes text.new ≡ string_bytes text.old
        ++ bus_change_lines (arbiter_changes (bus_settings_of system.now).cores next.0 (bus_of was.now) w.next w.bus)) }
{
    let cores = system.config().cores();
    push_changed(text, cores, next, was, system.next(), system.bus())
}
