// Why a message waits, and what can happen next: what is asked of a machine that seems to stand still.
#![tactic(auto)]

mod finding;
mod laws;
mod reason;
mod waiting;

pub use finding::{find, find_for, has_halted};
pub use laws::{machines_are_live, reasons_are_the_rules};
pub use reason::Reason;
pub use waiting::waits_because;
