// What nodes that are kept apart write down: for each a log of its events, with a stamp on each and on what it sends.
#![tactic(auto)]

mod logs;

pub use logs::{Logged, Logs, Mail};
