// The counts of a run as rows of a text, from which the run goes on to be counted.
#![tactic(auto)]

mod laws;
mod reading;
mod restoring;
mod rows;
mod writing;

pub use laws::texts_tell_counts_apart;
pub use restoring::read_counts;
pub use rows::Fault;
pub use writing::push_counts;
