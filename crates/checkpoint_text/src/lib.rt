// The text of a whole machine in the middle of a run, from which it goes on.
#![tactic(auto)]

mod commits;
mod core_fields;
mod core_rows;
mod cores;
mod dir_rows;
mod directories;
mod entries;
mod fields;
mod heads;
mod laws;
mod machines;
mod messages;
mod read_commits;
mod read_cores;
mod read_directories;
mod read_messages;
mod restoring;

pub use commits::push_commits;
pub use cores::push_cores;
pub use fields::Fault;
pub use laws::texts_tell_machines_apart;
pub use machines::push_machine;
pub use restoring::{Broken, line_at, read_machine};
