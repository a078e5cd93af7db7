// Machines that run by phases: a core's request for a TID waits while another core that hasn't halted is in an earlier phase.
#![tactic(auto)]

mod choosing;
mod running;
mod standing;
mod system;
mod taking;

pub use running::phase_run;
pub use system::PhaseSystem;
