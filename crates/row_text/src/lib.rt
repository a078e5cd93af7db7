// Texts of rows: a word and numbers in decimal digits, separated by single spaces, each row ended by a line feed. One text for a list
// of rows, and readers that accept no other spelling.
#![tactic(auto)]

mod digits;
mod laws;
mod reading;
mod writing;

pub use digits::read_decimal;
pub use laws::texts_tell_rows_apart;
pub use reading::{behind, end, number, read_row, word};
pub use writing::{begin_row, end_row, push_number, push_row};
