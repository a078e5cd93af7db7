// What a directory knows of each line that is at home there: one map by line, kept in two forms.
#![tactic(auto)]

mod array;
mod core_set;
mod lines;
mod mark_set;
mod marked;
mod pages;
mod record;
mod tree;
mod words;

pub use array::DirLines;
pub use core_set::CoreSet;
pub use lines::Lines;
pub use pages::PageLines;
pub use record::LineRecord;
pub use tree::MapLines;
pub use words::HomeWords;
