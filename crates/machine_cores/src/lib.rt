// All cores of a machine, each with the number of its useful events.
#![tactic(auto)]

mod acting;
mod bank;
mod choosing;
mod count;
mod counting;
mod reading;
mod restoring;

pub use bank::CoreBank;
pub use counting::start_cores;
