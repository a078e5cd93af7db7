// What is counted of packets, and their line.
ghost use Rattle.std.specs.Prelude.{◌≡◌, ◌+◌, ◌++◌, OnOk, string_bytes};
ghost use Rattle.bus_watch.specs.Plain.{bus_fact_of};
ghost use Rattle.bus_count.specs.Counts.{packets_after};
ghost use Rattle.bus_count.specs.Text.{packets_line};

use bus_watch::{BusFact, Holder};
use std::alloc::AllocError;
use tcc_base::NoMemory;
use watch_count::push_named;

/// Packets: how many were sent, how often one was taken, and how many cores haven't taken the last one.
#[derive(Clone, Copy, Debug, PartialEq, Eq)]
pub struct PacketCounts {
    pub sent: u64,
    pub took: u64,
    pub left: u64,
}

/// One more, where that is a number.
fn one_more(count: &mut u64) -> Result<(), NoMemory>
    ensures { OnOk result (count.new ≡ count.old + 1) }
{
    match count.checked_add(1) {
        Some(more) => {
            *count = more;
            Ok(())
        }
        None => Err(NoMemory),
    }
}

impl PacketCounts {
    /// A fact of a machine on which so many cores take each packet. It fails where a number would come above 2^64 - 1.
    #[tactic(auto, unfolding(crate::specs::Counts::packets_after))]
    pub(crate) fn count(&mut self, takers: u64, fact: &BusFact) -> Result<(), NoMemory>
        ensures { OnOk result (self.new ≡ packets_after takers (bus_fact_of fact.now) self.old) }
    {
        match fact {
            BusFact::HeldBy(Holder::Packet(_)) => {
                self.left = takers;
                one_more(&mut self.sent)
            }
            BusFact::TookPacket(_) => {
                self.left = self.left.saturating_sub(1);
                one_more(&mut self.took)
            }
            BusFact::HeldBy(Holder::Nobody) => Ok(()),
            BusFact::HeldBy(Holder::Core(_)) => Ok(()),
            BusFact::Common(_) => Ok(()),
            BusFact::SentLine(_) => Ok(()),
        }
    }
}

/// The line of packets.
#[tactic(auto, unfolding(crate::specs::Text::packets_line))]
pub(crate) fn push_packets(text: &mut String, packets: &PacketCounts) -> Result<(), AllocError>
    ensures { OnOk result (string_bytes text.new ≡ string_bytes text.old ++ packets_line packets.now) }
{
    push_named(text, "packets all sent ", packets.sent)?;
    push_named(text, " took ", packets.took)?;
    push_named(text, " left ", packets.left)?;
    text.push_str("\n")
}
