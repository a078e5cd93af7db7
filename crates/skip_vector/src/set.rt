// The skips as an ordered set of TIDs: the plain form.
ghost use Rattle.std.specs.Prelude.{◌≡◌, ℕ, ◌+◌, ◌-◌, ◌^◌, ◌<◌, ◌≤◌, ◌∷◌, slice_get, OnOk, OnErr, length};
ghost use Rattle.std.specs.Bool.{OnTrue, OnFalse};
ghost use Rattle.rules_maps.specs.Serving.{Serving, first_serving, skipped, advance as advanced};

use crate::skips::Skips;
use std::alloc::Global;
use std::collections::BTreeSet;
use std::marker::Model;
use tcc_base::{NoMemory, Tid};

/// Skips in an ordered set: a skip takes memory for itself alone, however far ahead it is.
#[derive(Debug, Drop)]
pub struct SetSkips {
    serving: u64,
    later: BTreeSet<u64>,
}

impl Model for SetSkips {
    ghost use Rattle.std.specs.Prelude.{◌+◌, ◌^◌, ◌≤◌};
    ghost use Rattle.rules_maps.specs.Serving.{Serving};
    ghost use Rattle.skip_vector.specs.Window.{window, Rises};

    ghost Value = { Serving };

    ghost view = { λ s. record { serving = s.serving; skips = window (s.serving + 1) s.later.keys } };

    ghost invariant = { λ s. (s.serving ≤ 2 ^ 62 + 1) × Rises (s.serving + 1) s.later.keys };
}

impl Skips for SetSkips {
    ghost serves = { λ s. s };

    fn new(alloc: Global) -> Self {
        SetSkips {
            serving: 1,
            later: BTreeSet::new(alloc),
        }
    }

    fn serving(&self) -> Tid {
        Tid(self.serving)
    }

    #[tactic(auto, using(crate::proofs::Windows::skip_cases))]
    fn skip(&mut self, tid: Tid) -> Result<(), NoMemory> {
        if tid.0 < self.serving {
            return Ok(());
        }
        if tid.0 == self.serving {
            self.advance();
            return Ok(());
        }
        if self.later.insert(tid.0).is_err() {
            return Err(NoMemory);
        }
        Ok(())
    }

    #[tactic(auto, using(crate::proofs::Windows::window_steps))]
    fn advance(&mut self) {
        self.serving += 1;
        while take_first(&mut self.later, self.serving) {
            self.serving += 1;
        }
    }
}

// Takes the TID out where it is the lowest one, and says whether it was.
fn take_first(later: &mut BTreeSet<u64>, tid: u64) -> bool
    ensures taken { OnTrue result (later.old.keys ≡ tid ∷ later.new.keys) }
    ensures kept { OnFalse result (later.new.keys ≡ later.old.keys) }
    ensures other { OnFalse result (slice_get later.old.keys 0 ≡ Some tid → ⊥) }
{
    match later.first() {
        Some(first) if *first == tid => {
            let _ = later.pop_first();
            true
        }
        _ => false,
    }
}
