// The plain data that every crate speaks of: who and where (cores, directories, lines, words), what a transaction did,
// and the settings of a machine with their limits.
#![tactic(auto)]

mod access;
mod collections;
mod config;
mod names;
mod reg;

pub use access::{Commit, CoreEnd, Load, Size, Stored, Tagged};
pub use collections::{List, NoMemory, Text};
pub use config::{Config, Limit};
pub use names::{CoreId, DirId, LineAddr, Mask, NodeId, Tid, WordAddr};
pub use reg::Reg;
