//! Runs of the machine with one bus that are looked at while they go on: `trace_on_bus` writes what each event does as it comes, with
//! records of what changed or without, and `count_on_bus` counts it. The events are those that a seed picks. Neither keeps the schedule,
//! so the memory that they take doesn't grow with it.
#![tactic(auto)]

mod counting;
mod running;
mod showing;
mod skipping;
mod telling;
mod tracing;

pub use counting::{BusCounted, count_on_bus};
pub use text_runs::Broken;
pub use tracing::trace_on_bus;
