// What the simulator asks of the world outside: files by name, a place to write to, and a gate.
#![tactic(auto)]

mod disk_store;
mod gates;
mod map_store;
mod names;
mod sinks;
mod std_sink;
mod stores;
mod vec_sink;

pub use disk_store::DiskStore;
pub use gates::{Gate, OpenGate};
pub use map_store::MapStore;
pub use sinks::{Sink, SinkFailed, write_all};
pub use std_sink::StdSink;
pub use stores::{Store, StoreError};
pub use vec_sink::VecSink;
