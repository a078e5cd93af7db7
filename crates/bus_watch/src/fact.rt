// What an event did on the machine with one bus, one fact each.
use tcc_base::{CoreId, Tagged, Tid};
use watch::Fact;

/// Who has the bus.
#[derive(Clone, Copy, Debug, PartialEq, Eq)]
pub enum Holder {
    Nobody,
    /// This core executes alone.
    Core(CoreId),
    /// Cores are still to take the packet of this commit.
    Packet(Tid),
}

/// What an event did.
#[derive(Clone, Copy, Debug, PartialEq, Eq)]
pub enum BusFact {
    /// What a core did, as on the machine with directories.
    Common(Fact),
    /// The core took the packet of this commit.
    TookPacket(Tid),
    /// Who has the bus, where it isn't who had it.
    HeldBy(Holder),
    /// A line of the packet of this commit: its words under the mask.
    SentLine(Tagged),
}
