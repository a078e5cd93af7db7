// What a commit wrote goes over the bus.
ghost use Rattle.std.specs.Prelude.{◌≡◌, ◌<◌, ◌≤◌, ◌==◌, ◌&&◌, [], not, length, if◌then◌else◌};
ghost use Rattle.rules_maps.specs.Masks.{has};
ghost use Rattle.rules_maps.specs.Words.{any_below};
ghost use Rattle.core_node.specs.AtHand.{words_in};
ghost use Rattle.rules_bus.specs.State.{Free, Packet as OnBus};
ghost use Rattle.bus_tcc.specs.Left.{all_but};
ghost use Rattle.bus_tcc.specs.Machine.{bus_of, is_free};
ghost use Rattle.bus_tcc.specs.Packets.{lines_on};

use crate::bus::{Bus, CoreSet, Packet};
use tcc_base::{CoreId, List, Tagged};

/// All cores below a number but this one.
fn others(core: CoreId, cores: u8) -> CoreSet
    requires exists { core.0 < 64 }
    requires few { cores ≤ 64 }
    ensures { has result.bits ≡ all_but core.0 cores }
{
    CoreSet::below(cores).without(core)
}

/// The bus with these lines of a core, of so many: a packet of them, where there are any and others to take it.
pub(crate) fn bus_with(lines: List<Tagged>, core: CoreId, cores: u8) -> Bus
    requires exists { core.0 < 64 }
    requires few { cores ≤ 64 }
    ensures bus { bus_of result ≡ (if not (length lines == 0) && any_below (all_but core.0 cores) cores
        then OnBus (words_in lines) (all_but core.0 cores) else Free) }
    ensures lines { lines_on result ≡ (if is_free (bus_of result) then [] else lines) }
{
    let left = others(core, cores);
    if lines.items.is_empty() || left.is_empty_below(cores) {
        return Bus::Free;
    }
    Bus::Packet(Packet { lines, left })
}
