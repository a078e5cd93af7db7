// A core as a pure machine over messages: what it executes, evicts and answers, as the rules say.
#![tactic(auto)]

mod at_hand;
mod bus;
mod changing;
mod closing;
mod committing;
mod delivering;
mod evicting;
mod exec;
mod finishing;
mod granting;
mod loading;
mod messages;
mod missing;
mod node;
mod overflowing;
mod quick;
mod restoring;
mod rolling;
mod sets;
mod state;
mod storing;
mod useful;
mod waiting;
mod writing;

pub use delivering::CoreError;
pub use exec::Executed;
pub use node::CoreNode;
pub use state::{Awaited, Core};
