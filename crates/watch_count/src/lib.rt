//! How often what happened in a run: sums over the facts of its events, by core, by kind of message, by line and by conflict; and their
//! text, byte for byte. specs/Tables, specs/Messages and specs/Places say what one fact adds, specs/Counts folds it over a run, and
//! specs/Text and specs/Csv say what is printed.
#![tactic(auto)]

mod cells;
mod counts;
mod kept;
mod messages;
mod places;
mod readers;
mod restoring;
mod rows;
mod tables;
mod texts;
mod totals;
mod worked;

pub use cells::{push_cell, push_csv_names, push_end_cell, push_seed, push_table_names};
pub use counts::Counts;
pub use messages::MessageCounts;
pub use places::{Conflict, ConflictCounts, LineCounts};
pub use rows::{Table, push_named};
pub use tables::{
    Accesses, Attempts, CoreCounts, Evictions, Instructions, PhaseName, Phases, phase_name,
};
pub use worked::worked_counts;
