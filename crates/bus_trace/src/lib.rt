//! The text of a trace of the machine with one bus, byte for byte: a line for each event of a run, and below it a line for each fact of
//! it. `bus_trace_text` of specs/Text defines the whole, and the functions here append its parts, so that a trace can be written while
//! its run goes on. The last lines are those of `watch_trace`.
#![tactic(auto)]

mod facts;
mod lines;

ghost use Rattle.bus_trace.specs.Rows.{AreWritten, HeadIs, LastOfAlone, bus_rows};

pub use facts::{push_bus_event_facts, push_bus_fact, push_bus_facts};
pub use lines::{push_bus_config, push_bus_event, push_bus_head, ram_bytes};
pub use watch_trace::push_tail as push_bus_tail;

/// Lines of facts of each kind as a second implementation wrote them, the first lines, and the text of some events.
pub fn worked_bus_lines()
    ensures facts { AreWritten bus_rows }
    ensures head { HeadIs }
    ensures last_of_alone { LastOfAlone }
{}
