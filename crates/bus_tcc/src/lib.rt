// The machine with one bus: cores, one memory, and a bus that an arbiter gives to one core at a time, as one object whose events are
// taken one by one.
#![tactic(auto)]

mod bank;
mod bus;
mod choosing;
mod cleaning;
mod commit;
mod counts;
mod ending;
mod engine;
mod event;
mod exec;
mod publishing;
mod readers;
mod seeking;
mod step;
mod storing;
mod system;
mod take;
mod together;
mod useful;

pub use bus::{Bus, CoreSet, Packet};
pub use event::{BusError, BusEvent, BusStep};
pub use system::BusSystem;
