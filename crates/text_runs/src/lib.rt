//! Texts of runs that are written while the run goes on, for any machine: a `TextRun` takes one event after another and tells each as a
//! text; `tell_events` writes these texts in pieces, from a number of event on, and `tell_end` the last lines.
#![tactic(auto)]

mod pieces;
mod runs;

pub use pieces::{Broken, tell_end};
pub use runs::{TextRun, tell_events};
