// All directories of a machine.
#![tactic(auto)]

mod answering;
mod bank;
mod count;
mod marking;
mod reading;
mod remarking;
mod restoring;
mod showing;

pub use bank::DirBank;
