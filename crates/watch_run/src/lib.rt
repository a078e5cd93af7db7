//! Runs that are looked at while they go on: `trace` writes what each event does as it comes, `count` counts it, and `count_every` writes
//! the totals as a table as they grow. The events are those that a seed picks, or those of a list. None keeps the schedule, so the memory
//! that they take doesn't grow with it; and what counts forgets the commits that no later event asks for.
//!
//! A `Run` is one by a seed that is counted step by step: it can be left after any step, written down, read, and taken up again. What is
//! told of its further steps can be written while they are taken, as rows of totals or as what their commits print, and its further events
//! can be traced.
#![tactic(auto)]

mod consoles;
mod counting;
mod events;
mod meanwhile;
mod run;
mod tabling;
mod telling;
mod tracing;

pub use consoles::consoles_join;
pub use counting::{Counted, count};
pub use events::{Events, Listed, Picked};
pub use meanwhile::{Meanwhile, write_head};
pub use run::{Run, tables_join};
pub use tabling::{Rows, count_every};
pub use telling::Shown;
pub use tracing::{Broken, trace};
