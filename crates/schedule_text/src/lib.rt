// The text of a schedule: one text for each well-formed schedule, and a reader that accepts no other spelling.
#![tactic(auto)]

mod events;
mod fault;
mod fields;
mod laws;
mod lines;
mod reading;
mod writing;

pub use fault::TextFault;
pub use laws::{texts_tell_schedules_apart, the_first_fault_is_one, what_was_written_is_read};
pub use lines::version_needed;
pub use reading::read;
pub use writing::{push_config, push_end, push_event, push_node, push_version, write};
