//! Takes an event on the machine and tells what it did: `watch` looks at the acting node before and after, and its contract says that
//! the facts are those that `happened` of the crate `watch` defines by the rules' states alone. `watch_node` leaves out what was sent.
//! It answers the step that was taken, by which `noted` finds the commit.
#![tactic(auto)]

mod answering;
mod commits;
mod delivering;
mod evicting;
mod executing;
mod moving;
mod sending;
mod watching;

pub use commits::noted;
pub use watching::{actor, watch, watch_node};
