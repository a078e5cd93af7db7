// Stamped events, the logs that they make, and stamped messages.
use tcc_base::{Config, List};
use tcc_msg::{Event, Msg};

/// A message on a link, with the stamp of the entry that sent it.
#[derive(Clone, Copy, Debug, PartialEq, Eq)]
pub struct Mail {
    pub stamp: u64,
    pub msg: Msg,
}

/// An entry of a node's log: one event of the node, with its stamp (a logical clock: Lamport, "Time, Clocks, and the Ordering of
/// Events in a Distributed System", CACM 1978). Along a log stamps rise, and the stamp of an event that handles a message is above
/// that of the entry that sent it. The message isn't kept here: it is the one that the source's log sends under its name.
#[derive(Clone, Copy, Debug, PartialEq, Eq)]
pub struct Logged {
    pub stamp: u64,
    pub event: Event,
}

/// The logs of all nodes of a machine, in the order of nodes: cores by number, directories by number, the vendor.
#[derive(Debug, Drop)]
pub struct Logs {
    pub config: Config,
    pub by_node: List<List<Logged>>,
}
