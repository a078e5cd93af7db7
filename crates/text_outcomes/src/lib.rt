//! The text of a program's outcomes: which there are, of how many states each, and a list of transactions that leads to each of them.
//! `table_text` of specs/Table defines the whole, byte for byte.
#![tactic(auto)]

mod laws;
mod lines;
mod table;
mod told;
mod writing;

pub use laws::{tables_tell_every_end, tables_tell_only_ends};
pub use table::Table;
pub use writing::{Broken, write_table};
