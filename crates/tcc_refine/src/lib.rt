// A machine that keeps the list of the events that it took.
#![tactic(auto)]

mod refined;

pub use refined::Refined;
