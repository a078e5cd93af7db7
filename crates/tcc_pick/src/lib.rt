// The chooser: which of the useful events comes next, by a seed.
#![tactic(auto)]

mod chooser;
mod recorder;

pub use chooser::Chooser;
pub use recorder::{Recorder, Unrecorded};
