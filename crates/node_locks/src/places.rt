// Nodes by their places.
ghost use Rattle.std.specs.Prelude.{◌≡◌, ℕ, ◌<◌, IsTrue, Some, length, slice_get};
ghost use Rattle.apart_node.specs.Node.{NodeData, here};
ghost use Rattle.rules_apart.specs.Fitting.{node_count};
ghost use Rattle.node_locks.specs.Places.{nth_node};
ghost use Rattle.rules_maps.specs.Bridge.{node_of};

use apart_node::Node;
use tcc_base::{Config, CoreId, DirId, NodeId};

/// The node at a place.
pub(crate) fn nth_node(config: &Config, place: usize) -> NodeId
    requires { place < node_count config.now }
    ensures { node_of result ≡ nth_node config.now place }
{
    let cores = config.cores() as usize;
    if place < cores {
        return NodeId::Core(CoreId(place as u8));
    }
    if place < cores + config.dirs() as usize {
        return NodeId::Dir(DirId((place - cores) as u8));
    }
    NodeId::Vendor
}

/// Whether each node stands at its place.
pub(crate) fn all_placed(config: &Config, nodes: &[Node]) -> bool
    requires { length nodes.now ≡ node_count config.now }
    ensures { IsTrue result → (i : ℕ) (n : NodeData) → slice_get nodes.now i ≡ Some n → here n ≡ nth_node config.now i }
{
    for i in 0..nodes.len() {
        if nodes[i].node() != nth_node(config, i) {
            return false;
        }
    }
    true
}
