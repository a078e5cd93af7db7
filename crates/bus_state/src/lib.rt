//! The text of the state of the machine with one bus, byte for byte: a record for each part of it, core by core, then the bus and memory,
//! and the events that are enabled. `bus_state_text` of specs/Text defines the whole, and `bus_state` writes it. The records of a core
//! are those of `watch_state`; `BusRecord` is a record of the bus or of memory as data.
#![tactic(auto)]

mod cores;
mod events;
mod lines;
mod machine;
mod memory;
mod records;
mod texts;

pub use cores::add_bus_core;
pub use lines::{push_bus_record, push_bus_records};
pub use machine::add_machine;
pub use records::{BusRecord, Holding};
pub use texts::bus_state;
