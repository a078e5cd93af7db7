// All results that a program's transactions can have, on every machine and schedule.
#![tactic(auto)]

mod chains;
mod changes;
mod digests;
mod exploration;
mod next;
mod outcomes;
mod search;
mod states;
mod stuck;

pub use exploration::{Exploration, explore};
pub use next::{Executor, Next};
pub use outcomes::{Results, Tell, tell_results};
pub use search::{Limits, Pair};
pub use states::Snapshot;
pub use stuck::{Stuck, tell_stuck};
