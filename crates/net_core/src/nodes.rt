// The nodes of a machine in their order: cores by number, directories by number, the vendor.
ghost use Rattle.std.specs.Prelude.{◌≡◌, length, option_map, slice_get};
ghost use Rattle.rules_maps.specs.Bridge.{node_of};
ghost use Rattle.rules_tcc.specs.Useful.{nodes};

use tcc_base::{Config, CoreId, DirId, NodeId};

/// How many nodes a machine has. It takes constant time.
pub fn node_count(config: &Config) -> usize
    ensures { result ≡ length (nodes config.now) }
{
    config.cores() as usize + config.dirs() as usize + 1
}

/// The node at this place, from 0, in the order of cores, directories and the vendor; `None` exactly where there are no more nodes. It
/// takes constant time.
pub fn node_at(config: &Config, place: usize) -> Option<NodeId>
    ensures { option_map node_of result ≡ slice_get (nodes config.now) place }
{
    let cores = config.cores() as usize;
    let dirs = config.dirs() as usize;
    if place < cores {
        Some(NodeId::Core(CoreId(place as u8)))
    } else if place - cores < dirs {
        Some(NodeId::Dir(DirId((place - cores) as u8)))
    } else if place - cores == dirs {
        Some(NodeId::Vendor)
    } else {
        None
    }
}
