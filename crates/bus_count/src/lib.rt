//! How often what happened in a run of the machine with one bus: sums over the facts of its events, and their text, byte for byte. They are
//! the counts of `watch_count` where a packet that is taken is an invalidation of each of its lines, and beside them those of packets.
//! specs/Counts says what one fact adds and folds it over a run; specs/Text and specs/Csv say what is printed.
#![tactic(auto)]

mod cells;
mod counts;
mod packets;

ghost use Rattle.bus_count.specs.Worked.{AloneAttempts, AloneInstructions, AloneLines, AlonePackets, AlonePhases};
ghost use Rattle.bus_count.specs.Worked.{ReaderAttempts, ReaderConflicts, ReaderLines, ReaderPackets, ReaderPacketsLine};

pub use counts::BusCounts;
pub use packets::PacketCounts;

/// The counts of two schedules on two cores.
pub fn worked_bus_counts()
    ensures reader_attempts { ReaderAttempts }
    ensures reader_lines { ReaderLines }
    ensures reader_conflicts { ReaderConflicts }
    ensures reader_packets { ReaderPackets }
    ensures reader_packets_line { ReaderPacketsLine }
    ensures alone_attempts { AloneAttempts }
    ensures alone_instructions { AloneInstructions }
    ensures alone_phases { AlonePhases }
    ensures alone_lines { AloneLines }
    ensures alone_packets { AlonePackets }
{}
