// The order of a node's ports.
ghost use Rattle.std.specs.Prelude.{◌≡◌};
ghost use Rattle.rules_maps.specs.Bridge.{node_of};
ghost use Rattle.apart_node.specs.Peers.{seat, if_below as place_below};

use tcc_base::{Config, NodeId};

// The number, where there are more than that.
fn if_below(count: u8, number: u8) -> Option<usize>
    ensures { result ≡ place_below count number }
{
    if number < count {
        Some(number as usize)
    } else {
        None
    }
}

/// The place of a peer's port: of a core's, a directory has that of its number and the vendor the one behind these; of a directory's and
/// the vendor's, a core has that of its number. None for a node that is no peer.
#[tactic(auto, unfolding(crate::specs::Peers::seat))]
pub(crate) fn seat_of(config: &Config, own: NodeId, peer: NodeId) -> Option<usize>
    ensures { result ≡ seat config.now (node_of own) (node_of peer) }
{
    match (own, peer) {
        (NodeId::Core(_), NodeId::Dir(dir)) => if_below(config.dirs(), dir.0),
        (NodeId::Core(_), NodeId::Vendor) => Some(config.dirs() as usize),
        (NodeId::Dir(_) | NodeId::Vendor, NodeId::Core(core)) => if_below(config.cores(), core.0),
        _ => None,
    }
}
