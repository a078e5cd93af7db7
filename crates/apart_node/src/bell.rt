// How a node tells a peer that something was sent to it.

use net_links::Bells;
use std::alloc::Global;
use std::sync::Arc;

/// The bell at a node's place among the bells of a peer.
#[derive(Drop)]
pub(crate) struct Bell {
    bells: Arc<Bells, Global>,
    place: usize,
}

impl Bell {
    pub(crate) fn new(bells: Arc<Bells, Global>, place: usize) -> Bell {
        Bell { bells, place }
    }

    /// Tells the peer, after the message was sent.
    pub(crate) fn ring(&self) {
        self.bells.ring(self.place);
    }
}
