// The plain machine: a flat memory, one core at a time, no cache. It says what a transaction gives, and what executing
// transactions one after another gives; every other machine is measured by it.
#![tactic(auto)]

mod attempt;
mod memory;
mod plain;
mod serial;

pub use attempt::Attempt;
pub use memory::BufferedRam;
pub use plain::{CoreState, Done, Order, Plain, PlainFault, SerialFault};
