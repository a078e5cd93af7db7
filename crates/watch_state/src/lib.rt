//! The text of a machine's state, byte for byte: a record for each part of it, node by node, then the messages in flight, and the events
//! that are enabled. `state_text` of specs/Text defines the whole; `core_records` and `directory_records` say which records there are.
//! `state` writes it. `Record` is a record of a node as data: other functions append those of one node to a list, and a record's line to
//! a text.
#![tactic(auto)]

mod attempts;
mod cores;
mod directories;
mod events;
mod frames;
mod homes;
mod lines;
mod links;
mod nodes;
mod numbers;
mod records;
mod registers;
mod spills;
mod texts;

pub use attempts::add_progress;
pub use cores::add_cached;
pub use lines::{push_flight, push_record, push_records};
pub use links::push_links;
pub use nodes::{add_core_of, add_core_part, add_directory_of, add_directory_part, add_vendor};
pub use numbers::{only_below, push_numbers};
pub use records::{Known, Record};
pub use registers::add_registers;
pub use texts::state;
