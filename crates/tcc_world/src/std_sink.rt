// The streams of the system, as sinks: what a stream tells of its bytes, its sink tells.
ghost use Rattle.std.specs.Prelude.{◌≡◌};

use crate::{Sink, SinkFailed};
use std::io::Write;

/// A stream, such as standard output or standard error, with the count of its errors. Its bytes are those of the stream, where
/// this tells them: a vector does, and of what the streams of the system show no contract tells.
#[derive(Drop)]
pub struct StdSink<W> {
    /// The stream.
    pub stream: W,
    /// How often it has failed; it stops at 2^64 - 1.
    pub faults: u64,
}

impl<W> StdSink<W> {
    /// A sink over a stream that has not failed yet.
    pub fn new(stream: W) -> StdSink<W>
        ensures stream { result.stream ≡ stream }
        ensures faults { result.faults ≡ 0 }
    {
        StdSink { stream, faults: 0 }
    }
}

impl<W: Write> Sink for StdSink<W> {
    ghost page = { λ s. record { bytes = W.contents s.stream; faults = s.faults } };

    /// A stream that takes nothing of a piece that isn't empty has failed.
    fn write(&mut self, piece: &[u8]) -> Result<usize, SinkFailed> {
        if piece.is_empty() {
            return Ok(0);
        }
        match self.stream.write(piece) {
            Ok(n) if n > 0 => Ok(n),
            _ => {
                self.faults = self.faults.saturating_add(1);
                Err(SinkFailed)
            }
        }
    }
}
