// What the nodes of a machine say to one another, what can happen in it, and the pool of messages that have arrived.
#![tactic(auto)]

mod event;
mod msg;
mod outgoing;
mod pool;

pub use event::{Event, Name, Schedule};
pub use msg::Msg;
pub use outgoing::Outgoing;
pub use pool::Pool;
