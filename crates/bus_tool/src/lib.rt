// Runs of the machine with one bus by the events that a seed picks, and the report of where it has come to.
#![tactic(auto)]

mod memory;
mod reports;
mod running;

pub use reports::bus_report;
pub use running::{bus_run, pick};
