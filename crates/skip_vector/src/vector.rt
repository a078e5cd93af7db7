// The skip vector that a directory keeps: the ring.
ghost use Rattle.std.specs.Prelude.{◌≡◌, ℕ, ◌+◌, ◌^◌, ◌<◌, ◌≤◌, ◌↔◌, OnOk, OnErr, IfOk, IfSome, IsSome, length};
ghost use Rattle.rules_maps.specs.Serving.{Serving, first_serving, is_skipped, skipped, advance as advanced};
ghost use Rattle.skip_vector.specs.Served.{IsServed};

use crate::ring::RingSkips;
use crate::skips::Skips;
use std::alloc::Global;
use std::marker::Model;
use tcc_base::{NoMemory, Tid};

/// A directory's now-serving TID with the TIDs above it that were skipped. In a clause it is these two.
#[derive(Debug, Drop)]
pub struct SkipVector {
    skips: RingSkips,
}

impl Model for SkipVector {
    ghost use Rattle.rules_maps.specs.Serving.{Serving};

    ghost Value = { Serving };

    ghost view = { λ v. v.skips };
}

impl SkipVector {
    /// No TID was skipped, and TID 1 is served. No memory is taken yet.
    pub fn new(alloc: Global) -> Self
        ensures { result ≡ first_serving }
    {
        SkipVector {
            skips: RingSkips::new(alloc),
        }
    }

    /// Serves this TID and has skipped those above it that the list says, the first of which is the next one. `None` exactly where
    /// no directory serves so high a TID, or so many above it. Its time and memory go with the list.
    pub fn restored(
        alloc: Global,
        serving: Tid,
        skips: &[bool],
    ) -> Result<Option<SkipVector>, NoMemory>
        ensures served { IfOk result (λ found. IsSome found ↔ IsServed serving.0 (length skips.now)) }
        ensures value { IfOk result (λ found. IfSome found (λ s. s ≡ record { serving = serving.0; skips = skips.now })) }
    {
        match RingSkips::restored(alloc, serving, skips)? {
            Some(skips) => Ok(Some(SkipVector { skips })),
            None => Ok(None),
        }
    }

    /// The TID that is served now. It takes constant time and no memory.
    pub fn serving(&self) -> Tid
        ensures { result.0 ≡ self.now.serving }
    {
        self.skips.serving()
    }

    /// How many TIDs above the served one are kept, skipped or not: no TID behind them was skipped. It takes constant time.
    pub fn skips_ahead(&self) -> usize
        ensures count { result ≡ length self.now.skips }
        ensures fits { self.now.serving + result < 2 ^ 63 }
    {
        self.skips.skips_ahead()
    }

    /// Whether the TID is above the served one and was skipped. It takes constant time.
    pub fn is_skipped(&self, tid: Tid) -> bool
        ensures { result ≡ is_skipped self.now tid.0 }
    {
        self.skips.is_skipped(tid)
    }

    /// Notes that the TID gives up: one above the served TID is kept, the served one advances, a lower one changes nothing.
    /// Only a TID above the served one can find no memory, and nothing is changed then. A TID more than `MAX_AHEAD` above the
    /// served one always finds none. The time is constant but for the growth of the ring.
    pub fn skip(&mut self, tid: Tid) -> Result<(), NoMemory>
        requires { tid.0 < 2 ^ 62 }
        ensures kept { OnOk result (self.new ≡ skipped tid.0 self.old) }
        ensures unchanged { OnErr result (self.new ≡ self.old) }
        ensures want { OnErr result (self.old.serving < tid.0) }
        ensures small { self.old.serving ≤ 2 ^ 62 → self.new.serving ≤ 2 ^ 62 }
    {
        self.skips.skip(tid)
    }

    /// Goes to the next TID that was not skipped, and forgets the skips below it. It takes no memory, and the time of the skips
    /// that are passed.
    pub fn advance(&mut self)
        requires { self.old.serving ≤ 2 ^ 62 }
        ensures { self.new ≡ advanced self.old }
    {
        self.skips.advance()
    }
}
