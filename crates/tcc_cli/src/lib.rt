// All that the program does, from its words to its status, over any files, outputs and gate.
#![tactic(auto)]

mod bus_looks;
mod files;
mod following;
mod growing;
mod images;
mod laid;
mod laws;
mod lists;
mod long;
mod looks;
mod on_bus;
mod outcomes;
mod phases;
mod picking;
mod process;
mod records;
mod refusal;
mod reports;
mod running;
mod schedules;
mod status;
mod top;
mod totals;
mod traces;

pub use laws::{
    answers_are_complete, cut_runs_are_whole, open_runs_take_all_events, replays_print_the_same,
};
pub use process::tcc_process;
pub use refusal::{ImageFault, Reader, Refusal, refuse};
pub use status::Status;
pub use top::tcc_main;
