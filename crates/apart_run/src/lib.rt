// Runs of the machine on host threads, and the one schedule that each comes to.
#![tactic(auto)]

mod apart;
mod going;
mod laws;
mod running;

pub use laws::{joined_schedules_are_runs, open_joined_runs_take_all_events};
pub use running::run_threads;
