// The TIDs that a directory has been told to pass over, and the one that it serves now: one map, kept in two forms.
#![tactic(auto)]

mod ring;
mod set;
mod skips;
mod vector;

pub use ring::{MAX_AHEAD, RingSkips};
pub use set::SetSkips;
pub use skips::Skips;
pub use vector::SkipVector;
