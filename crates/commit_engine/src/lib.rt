// How a core commits: its phase, the directories that owe it a reply, and what each step of a commit sends.
#![tactic(auto)]

mod commits;
mod dir_set;
mod homes;
mod phase;
mod sending;
mod solo;
mod written;

pub use commits::{note_commit, send_commits};
pub use dir_set::DirSet;
pub use homes::{read_homes, written_homes};
pub use phase::Phase;
pub use sending::{send_aborts, send_each, send_granted, send_marks, send_probes, send_skips};
pub use solo::{send_solo, solo_homes, solo_marks_into, solo_room};
