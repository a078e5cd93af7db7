// The nodes of a machine in their order, and the place of each pair of them.
ghost use Rattle.std.specs.Prelude.{◌≡◌, ◌*◌, ◌<◌, ◌≤◌, Some, true};
ghost use Rattle.rules_maps.specs.Bridge.{node_of};
ghost use Rattle.machine_links.specs.Places.{is_link, node_count, rank, node_at, place, src_at, dst_at};

use tcc_base::{CoreId, DirId, NodeId};

/// How many cores and directories a machine has: at most 64 of each.
#[derive(Clone, Copy, Debug, PartialEq, Eq)]
pub struct Grid {
    pub cores: u8,
    pub dirs: u8,
}

impl Grid {
    /// How many nodes there are.
    pub fn nodes(&self) -> usize
        ensures { result ≡ node_count self.now.cores self.now.dirs }
    {
        self.cores as usize + self.dirs as usize + 1
    }

    /// How many pairs of nodes there are.
    pub fn pairs(&self) -> usize
        ensures { result ≡ node_count self.now.cores self.now.dirs * node_count self.now.cores self.now.dirs }
    {
        self.nodes() * self.nodes()
    }

    /// Whether there is such a link: one of the two is a core, and the other a directory or the vendor.
    pub fn is_link(&self, src: NodeId, dst: NodeId) -> bool
        ensures { result ≡ is_link self.now.cores self.now.dirs (node_of src) (node_of dst) }
    {
        match (src, dst) {
            (NodeId::Core(c), NodeId::Dir(d)) | (NodeId::Dir(d), NodeId::Core(c)) => {
                c.0 < self.cores && d.0 < self.dirs
            }
            (NodeId::Core(c), NodeId::Vendor) | (NodeId::Vendor, NodeId::Core(c)) => c.0
                < self.cores,
            _ => false,
        }
    }

    /// A node's number in the order of nodes.
    pub fn rank(&self, node: NodeId) -> usize
        ensures { result ≡ rank self.now.cores self.now.dirs (node_of node) }
    {
        match node {
            NodeId::Core(c) => c.0 as usize,
            NodeId::Dir(d) => self.cores as usize + d.0 as usize,
            NodeId::Vendor => self.cores as usize + self.dirs as usize,
        }
    }

    /// The node of that number.
    pub fn node(&self, rank: usize) -> NodeId
        requires { rank < node_count self.now.cores self.now.dirs }
        ensures { node_of result ≡ node_at self.now.cores self.now.dirs rank }
    {
        let cores = self.cores as usize;
        if rank < cores {
            NodeId::Core(CoreId(rank as u8))
        } else if rank < cores + self.dirs as usize {
            NodeId::Dir(DirId((rank - cores) as u8))
        } else {
            NodeId::Vendor
        }
    }

    /// The place of a link; `None` exactly where there is no such link.
    pub fn place(&self, src: NodeId, dst: NodeId) -> Option<usize>
        ensures { result ≡ place self.now.cores self.now.dirs (node_of src) (node_of dst) }
    {
        if self.is_link(src, dst) {
            Some(self.link(src, dst))
        } else {
            None
        }
    }

    /// The place of a link that is there.
    pub fn link(&self, src: NodeId, dst: NodeId) -> usize
        requires { is_link self.now.cores self.now.dirs (node_of src) (node_of dst) ≡ true }
        ensures { place self.now.cores self.now.dirs (node_of src) (node_of dst) ≡ Some result }
    {
        self.rank(src) * self.nodes() + self.rank(dst)
    }

    /// The source and the destination of the pair at that place.
    pub fn ends(&self, place: usize) -> (NodeId, NodeId)
        requires { place < node_count self.now.cores self.now.dirs * node_count self.now.cores self.now.dirs }
        ensures src { node_of result.0 ≡ src_at self.now.cores self.now.dirs place }
        ensures dst { node_of result.1 ≡ dst_at self.now.cores self.now.dirs place }
    {
        let nodes = self.nodes();
        (self.node(place / nodes), self.node(place % nodes))
    }
}
