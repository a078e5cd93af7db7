// The whole machine: its cores, its directories, the vendor of TIDs and the messages in flight between them, as one object whose
// events are taken one by one.
#![tactic(auto)]

mod acting;
mod answering;
mod choosing;
mod copies;
mod enabling;
mod flying;
mod forgetting;
mod looking;
mod nodes;
mod noting;
mod placing;
mod readers;
mod reading;
mod restoring;
mod seeing;
mod seen_ram;
mod showing;
mod system;
mod taking;

pub use nodes::{node_at, node_count};
pub use seen_ram::SeenRam;
pub use system::System;
pub use taking::{Step, StepError};
