// A record of the bus or of memory as data: what one part of it is now.
use bus_tcc::CoreSet;
use tcc_base::{CoreId, Tagged, Tid};

/// Who has the bus.
#[derive(Clone, Copy, Debug, PartialEq, Eq)]
pub enum Holding {
    Nobody,
    /// This core executes alone.
    Core(CoreId),
    /// These cores haven't taken the packet that is on it.
    Left(CoreSet),
}

/// A record of the bus or of memory. Two that say the same are equal: a set has no numbers of cores that there aren't.
#[derive(Clone, Copy, Debug, PartialEq, Eq)]
pub enum BusRecord {
    /// The TID of the next commit, and who has the bus.
    ArbiterIs { next: Tid, holding: Holding },
    /// A line of the packet that is on the bus.
    PacketHas(Tagged),
    /// A word of memory that isn't as it was loaded.
    MemoryWord { addr: u32, value: u32 },
}
