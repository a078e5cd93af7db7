// The parts of a machine, put together one by one, and whether together they are a sound machine.
#![tactic(auto)]

mod cores;
mod dirs;
mod links;
mod messages;
mod parts;
mod sound;
mod tids;

pub use messages::is_good;
pub use parts::{Fields, Parts};
