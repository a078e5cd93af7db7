// A node of a machine whose nodes are kept apart: a member that acts by itself, with its ends of the links to its peers, what has arrived
// there and waits, and the log of its events.
#![tactic(auto)]

mod acting;
mod bell;
mod choosing;
mod drawing;
mod node;
mod peers;
mod port;
mod room;
mod tally;

pub use node::{Act, Node};
pub use port::Port;
