//! Links between nodes that run apart. A link takes messages from one node to one other, in order, and none is lost, doubled or changed.
//! Its source has the outlet and its destination the inlet, which may be in different threads. No clause says that what was sent is ever
//! taken.
#![tactic(auto)]

mod bells;
mod inlet;
mod outlet;
mod rule;
mod wire;

pub use bells::{BELLS, Bells, Rung};
pub use inlet::Inlet;
pub use outlet::Outlet;
pub use rule::Ends;
pub use wire::link;
