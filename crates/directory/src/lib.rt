// A directory as a node: the home words, the lines and the skips of one home, and what each message from a core does there.
#![tactic(auto)]

mod directory;
mod ends;
mod handled;
mod invalidate;
mod loading;
mod restoring;
mod rules;
mod showing;
mod takes;
mod waits;

pub use directory::{Directory, LineState};
pub use handled::{DirError, Handled};
pub use waits::Cause;
