// A sink in memory, which fails at chosen calls and when it is full.
ghost use Rattle.std.specs.Prelude.{◌≡◌, ℕ, ◌<◌, ◌≤◌, [], length, take, IfOk, OnOk, OnErr};
ghost use Rattle.std.specs.Io.KnownBytes.{Appends, Keeps};
ghost use Rattle.tcc_world.specs.Faults.{Rose};

use crate::{Sink, SinkFailed};
use std::alloc::Global;
use std::marker::Model;
use tcc_base::NoMemory;

/// Bytes in memory, up to a limit, for tests of what a failing sink brings about.
#[derive(Drop)]
pub struct VecSink {
    bytes: Vec<u8>,
    limit: usize,
    fails: Vec<u64>,
    calls: u64,
    faults: u64,
}

impl Model for VecSink {
    ghost use Rattle.std.specs.Prelude.{◌≤◌, vec_len, vec_capacity};
    ghost use Rattle.tcc_world.specs.Held.{Held};

    ghost Value = { Held };

    ghost view = { λ s. record { bytes = s.bytes.items; limit = s.limit; fails = s.fails.items; calls = s.calls; faults = s.faults } };

    ghost invariant = { λ s. (vec_len s.bytes ≤ s.limit) × (s.limit ≤ vec_capacity s.bytes) };
}

impl VecSink {
    ghost use Rattle.tcc_world.specs.Held.{empty_sink};

    /// An empty sink with room for `limit` bytes, which is made here. Of the calls that bring a byte, numbered from 0,
    /// those in `fails` fail, and so do those that find it full.
    pub fn new(alloc: Global, limit: u64, fails: Vec<u64>) -> Result<VecSink, NoMemory>
        ensures { IfOk result (λ s. s ≡ empty_sink limit fails.items) }
    {
        let limit = limit as usize;
        match Vec::with_capacity(alloc, limit) {
            Ok(bytes) => Ok(VecSink {
                bytes,
                limit,
                fails,
                calls: 0,
                faults: 0,
            }),
            Err(_) => Err(NoMemory),
        }
    }

    /// The bytes that were taken, in order.
    pub fn bytes(&self) -> &[u8]
        ensures { result.now ≡ self.now.bytes }
    {
        self.bytes.as_slice()
    }
}

impl Sink for VecSink {
    ghost use Rattle.std.specs.Prelude.{Some};
    ghost use Rattle.tcc_world.specs.Held.{answer, after_call};

    ghost page = { λ s. record { bytes = Some s.bytes; faults = s.faults } };

    /// Takes as many bytes as there is room for, and no memory. A call with an empty piece has no number; calls past
    /// number 2^64 - 1 have that number.
    fn write(&mut self, piece: &[u8]) -> Result<usize, SinkFailed>
        ensures answers { 0 < length piece.now → result ≡ answer self.old piece.now }
        ensures after { 0 < length piece.now → self.new ≡ after_call self.old piece.now }
        ensures unchanged { length piece.now ≡ 0 → self.new ≡ self.old }

        ensures prefix { IfOk result (λ n. n ≤ length piece.now) }
        ensures taken { IfOk result (λ n. Appends (Some self.old.bytes) (Some self.new.bytes) (take n piece.now)) }
        ensures progress { IfOk result (λ n. 0 < length piece.now → 0 < n) }
        ensures failed { OnErr result (Keeps (Some self.old.bytes) (Some self.new.bytes)) }
        ensures cause { OnErr result (Rose self.old.faults self.new.faults) }
        ensures faults_stay { self.old.faults ≤ self.new.faults }
        ensures empty { length piece.now ≡ 0 → (result ≡ Ok 0) × (Some self.new.bytes ≡ Some self.old.bytes)
            × (self.new.faults ≡ self.old.faults) }
    {
        if piece.is_empty() {
            return Ok(0);
        }
        let number = self.calls;
        self.calls = number.saturating_add(1);
        let room = self.limit - self.bytes.len();
        if room == 0 || self.fails.contains(&number) {
            self.faults = self.faults.saturating_add(1);
            return Err(SinkFailed);
        }
        let part = &piece[..room.min(piece.len())];
        match self.bytes.extend_from_slice(part) {
            Ok(()) => Ok(part.len()),
            Err(_) => unreachable!(),
        }
    }
}
