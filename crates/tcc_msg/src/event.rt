// What can happen in a machine, and a list of happenings with the machine's settings.
use tcc_base::{Config, CoreId, List, NodeId};

/// The name of a message: the link that it is sent on, and its number there, from 0 in the order of sending.
#[derive(Clone, Copy, Debug, PartialEq, Eq, PartialOrd, Ord, Hash)]
pub struct Name {
    pub src: NodeId,
    pub dst: NodeId,
    pub seq: u64,
}

/// One action of one node.
#[derive(Clone, Copy, Debug, PartialEq, Eq)]
pub enum Event {
    /// The core executes: an instruction, or the step of its commit that comes next.
    Exec(CoreId),
    /// The core empties this way of this set of its cache.
    Evict(CoreId, u16, u8),
    /// The destination of this message handles it.
    Deliver(Name),
}

/// The events of a run in order, with the settings of the machine that they are for.
#[derive(Debug, Drop)]
pub struct Schedule {
    pub config: Config,
    pub events: List<Event>,
}
