//! What changed of the records of the machine with one bus, event by event. `bus_changes` of specs/Changes defines what is told of the bus
//! and of memory, and `bus_states_text` of specs/Text the trace that tells it below the facts of each event, behind what changed of the
//! acting core. `BusKept` keeps what the next event is compared with, and `laws` says what holds of changes.
#![tactic(auto)]

mod arbiter;
mod cores;
mod keeping;
mod lines;
mod memory;
mod packet;

ghost use Rattle.bus_changes.specs.Laws.{BusWithoutRecords, CoresLeadOn, EventsFollow, PartsLeadOn};

pub use keeping::BusKept;

/// The changes of a core's records, put on those that it had, give those that it has, and so it is of each part of the bus and of memory;
/// an event changes the records of its own core alone, and memory only in the lines of the packet that it sends; and what is told of events
/// without any records is the trace.
pub fn laws()
    ensures cores_lead_on { CoresLeadOn }
    ensures parts_lead_on { PartsLeadOn }
    ensures events_follow { EventsFollow }
    ensures without_records { BusWithoutRecords }
{}
