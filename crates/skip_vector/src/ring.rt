// The skips as a ring of flags, one for each TID above the served one as far as the last that was skipped.
ghost use Rattle.std.specs.Prelude.{◌≡◌, ℕ, ◌+◌, ◌-◌, ◌^◌, ◌<◌, ◌≤◌, ◌++◌, ◌↔◌, Bool, false, OnOk, OnErr, IfOk, IfSome, IsSome, IsTrue};
ghost use Rattle.std.specs.Prelude.{length, replicate};
ghost use Rattle.rules_maps.specs.Serving.{Serving, first_serving, is_skipped, skipped, skip_at, advance as advanced};
ghost use Rattle.skip_vector.specs.Served.{IsServed};

use crate::skips::Skips;
use std::alloc::Global;
use std::collections::VecDeque;
use std::marker::Model;
use tcc_base::{NoMemory, Tid};

/// How far above the served TID a skip can be kept: as far as a machine's TIDs go at most. A skip beyond it is answered as want
/// of memory, so that no message can ask for a ring of absurd size.
pub const MAX_AHEAD: u64 = 4_194_304;

/// Skips in a ring that doubles when a skip lies past its end, and never shrinks.
#[derive(Debug, Drop)]
pub struct RingSkips {
    serving: u64,
    ahead: VecDeque<bool>,
}

impl Model for RingSkips {
    ghost use Rattle.std.specs.Prelude.{length};
    ghost use Rattle.rules_maps.specs.Serving.{Serving};
    ghost use Rattle.skip_vector.specs.Served.{IsServed};

    ghost Value = { Serving };

    ghost view = { λ s. record { serving = s.serving; skips = s.ahead.items } };

    ghost invariant = { λ s. IsServed s.serving (length s.ahead.items) };
}

impl RingSkips {
    /// Serves this TID and has skipped those above it that the list says, the first of which is the next one. `None` exactly where
    /// no directory serves so high a TID, or so many above it. Its time and memory go with the list.
    pub fn restored(
        alloc: Global,
        serving: Tid,
        skips: &[bool],
    ) -> Result<Option<RingSkips>, NoMemory>
        ensures served { IfOk result (λ found. IsSome found ↔ IsServed serving.0 (length skips.now)) }
        ensures value { IfOk result (λ found. IfSome found (λ s. s ≡ record { serving = serving.0; skips = skips.now })) }
    {
        if !is_served(serving, skips.len()) {
            return Ok(None);
        }
        let ahead = ring_of(alloc, skips)?;
        Ok(Some(RingSkips {
            serving: serving.0,
            ahead,
        }))
    }

    /// How many TIDs above the served one are kept, skipped or not: no TID behind them was skipped. It takes constant time.
    pub fn skips_ahead(&self) -> usize
        ensures count { result ≡ length self.now.skips }
        ensures fits { self.now.serving + result < 2 ^ 63 }
    {
        self.ahead.len()
    }

    /// Whether the TID is above the served one and was skipped. It takes constant time.
    #[tactic(auto, unfolding(rules_maps::specs::Serving::is_skipped))]
    pub fn is_skipped(&self, tid: Tid) -> bool
        ensures { result ≡ is_skipped self.now tid.0 }
    {
        if tid.0 <= self.serving {
            return false;
        }
        match self.ahead.get((tid.0 - self.serving - 1) as usize) {
            Some(skipped) => *skipped,
            None => false,
        }
    }
}

impl Skips for RingSkips {
    ghost serves = { λ s. s };

    fn new(alloc: Global) -> Self {
        RingSkips {
            serving: 1,
            ahead: VecDeque::new(alloc),
        }
    }

    fn serving(&self) -> Tid {
        Tid(self.serving)
    }

    #[tactic(auto, using(crate::proofs::Flags::skip_cases))]
    fn skip(&mut self, tid: Tid) -> Result<(), NoMemory> {
        if tid.0 < self.serving {
            return Ok(());
        }
        if tid.0 == self.serving {
            self.advance();
            return Ok(());
        }
        let place = tid.0 - self.serving - 1;
        if place >= MAX_AHEAD {
            return Err(NoMemory);
        }
        note(&mut self.ahead, place as usize)
    }

    #[tactic(auto, using(crate::proofs::Flags::serving_steps))]
    fn advance(&mut self) {
        self.serving += 1;
        while let Some(true) = self.ahead.pop_front() {
            self.serving += 1;
        }
    }
}

// Sets the flag at this place, with clear flags before it where the ring was shorter.
#[tactic(auto, using(crate::proofs::Flags::reached_flags))]
fn note(ahead: &mut VecDeque<bool>, place: usize) -> Result<(), NoMemory>
    requires { place < 2 ^ 32 }
    ensures kept { OnOk result (ahead.new.items ≡ skip_at place ahead.old.items) }
    ensures unchanged { OnErr result (ahead.new.items ≡ ahead.old.items) }
{
    reach(ahead, place)?;
    ahead[place] = true;
    Ok(())
}

// Adds clear flags behind the last one until there is one at this place.
fn reach(ahead: &mut VecDeque<bool>, place: usize) -> Result<(), NoMemory>
    requires { place < 2 ^ 32 }
    ensures reached { OnOk result (ahead.new.items ≡ ahead.old.items ++ replicate (place + 1 - length ahead.old.items) false) }
    ensures unchanged { OnErr result (ahead.new.items ≡ ahead.old.items) }
{
    if place < ahead.len() {
        return Ok(());
    }
    ahead.resize(place + 1, false).map_err(|_| NoMemory)
}

// Whether a directory can serve this TID with so many flags above it.
fn is_served(serving: Tid, ahead: usize) -> bool
    ensures { IsTrue result ↔ IsServed serving.0 ahead }
{
    const HIGHEST: u64 = 1 << 62;
    if ahead == 0 {
        return serving.0 <= HIGHEST + 1;
    }
    serving.0 < HIGHEST && (ahead as u64) < HIGHEST - serving.0
}

// The flags of a list, in a ring.
fn ring_of(alloc: Global, flags: &[bool]) -> Result<VecDeque<bool>, NoMemory>
    ensures { IfOk result (λ ring. ring.items ≡ flags.now) }
{
    let mut all = Vec::new(alloc);
    match all.extend_from_slice(flags) {
        Ok(()) => Ok(VecDeque::from_vec(all)),
        Err(_) => Err(NoMemory),
    }
}
