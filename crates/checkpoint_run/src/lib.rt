//! A run that is counted, as a text: `push_run` writes it down, and `read_run` makes the run of it, to go on as if it had never stopped.
#![tactic(auto)]

mod laws;
mod reading;
mod writing;

pub use laws::{runs_go_on_from_texts, texts_tell_runs_apart};
pub use reading::read_run;
pub use writing::push_run;
