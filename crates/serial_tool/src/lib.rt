// The orders that a report lists, one line each, and their execution by the plain machine.
#![tactic(auto)]

mod execution;
mod fields;
mod laws;
mod reading;
mod restoring;
mod writing;

pub use execution::{Executed, orders_of, run_from, run_orders};
pub use fields::{LARGEST_COUNT, LARGEST_TID};
pub use laws::{
    lists_are_read_alike, lists_are_run_alike, pieces_are_run_alike, pieces_join,
    texts_tell_machines_apart,
};
pub use reading::{Listed, read_orders};
pub use restoring::{Restored, read_plain};
pub use writing::push_plain;
