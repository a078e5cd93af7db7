//! What one core is seen to do, on any machine: what its instruction needs before it executes, what that did behind it, what an eviction
//! takes from its cache, which words of a line it has read, and who committed a TID. The contracts say it in the words of the crate
//! `watch`.
#![tactic(auto)]

mod commits;
mod evicting;
mod executing;
mod phases;
mod reading;

pub use commits::{commit_of, committer};
pub use evicting::evicted;
pub use executing::{Seen, addr_of, line_at, look_at, what_done};
pub use phases::same_phase;
pub use reading::words_read;
