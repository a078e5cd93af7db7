// A gate before each turn of a worker, at which a test can hold the worker up.

/// What a worker passes before each of its turns. Nothing is claimed of it but that it returns.
pub trait Gate {
    fn pass(&self, worker: u32, turn: u64);
}

/// The gate that stands open: it returns at once, and takes no memory.
#[derive(Clone, Copy, Debug)]
pub struct OpenGate;

impl Gate for OpenGate {
    fn pass(&self, _worker: u32, _turn: u64) {}
}
