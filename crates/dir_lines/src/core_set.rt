// A set of cores as the bits of one number, so that a line's sharers take eight bytes.
ghost use Rattle.std.specs.Prelude.{◌≡◌, ℕ, ◌==◌, ◌<◌, ◌↔◌, true, IsTrue, if◌then◌else◌};
ghost use Rattle.rules_maps.specs.Masks.{has};

use tcc_base::CoreId;

/// A set of cores whose numbers are below 64: bit c is core c.
#[derive(Clone, Copy, Debug, PartialEq, Eq)]
pub struct CoreSet(pub u64);

impl CoreSet {
    /// Whether the set holds the core.
    #[tactic(auto, using(crate::proofs::Bits::core_bits))]
    pub fn contains(&self, core: CoreId) -> bool
        requires { core.0 < 64 }
        ensures { result ≡ has self.now.0 core.0 }
    {
        (self.0 >> core.0) % 2 == 1
    }

    /// The set with or without the core, and with all others as before.
    #[tactic(auto, using(crate::proofs::Bits::core_bits))]
    pub fn with(&self, core: CoreId, on: bool) -> CoreSet
        requires { core.0 < 64 }
        ensures { (k : ℕ) → has result.0 k ≡ (if k == core.0 then on else has self.now.0 k) }
    {
        let one = 1u64 << core.0;
        if on {
            CoreSet(self.0 | one)
        } else {
            CoreSet(self.0 ^ (self.0 & one))
        }
    }

    /// Whether each core of the set is one of so many.
    pub fn is_below(&self, cores: u8) -> bool
        ensures { IsTrue result ↔ ((c : ℕ) → has self.now.0 c ≡ true → c < cores) }
    {
        are_below(self.0, cores)
    }
}

// Whether all bits of a number are among so many low ones.
fn are_below(bits: u64, count: u8) -> bool
    ensures { IsTrue result ↔ ((k : ℕ) → has bits k ≡ true → k < count) }
{
    count >= 64 || bits >> count == 0
}
