// What can happen in the machine, and what it answers.
use tcc_base::{CoreId, Tid};

/// What one core does.
#[derive(Clone, Copy, Debug, PartialEq, Eq)]
pub enum BusEvent {
    /// It executes an instruction, or commits a transaction that has ended.
    Exec(CoreId),
    /// It empties this way of this set of its cache.
    Evict(CoreId, u16, u8),
    /// It takes the packet that is on the bus.
    Take(CoreId),
}

/// What an event that was taken did.
#[derive(Clone, Copy, Debug, PartialEq, Eq)]
pub enum BusStep {
    Moved,
    /// The event noted the commit of this TID.
    Committed(Tid),
}

/// Why an event wasn't taken. Nothing has happened then.
#[derive(Clone, Copy, Debug, PartialEq, Eq)]
pub enum BusError {
    /// The event isn't enabled.
    Refused,
    /// Out of memory.
    Memory,
}
