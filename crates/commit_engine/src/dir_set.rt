// A set of directories as the bits of a number.
ghost use Rattle.std.specs.Prelude.{◌≡◌, ◌<◌, ◌≤◌, ℕ, true, false, not, ◌&&◌, ◌||◌, nat_lt};
ghost use Rattle.tcc_base.specs.Put.{put};
ghost use Rattle.rules_maps.specs.Masks.{has};
ghost use Rattle.rules_maps.specs.Words.{any_below};

use tcc_base::DirId;

/// A set of directories: bit `d` of `bits` stands for directory `d`. Each call takes constant time and no memory.
#[derive(Clone, Copy, Debug, PartialEq, Eq)]
pub struct DirSet {
    pub bits: u64,
}

impl DirSet {
    /// No directory.
    pub fn none() -> DirSet
        ensures { has result.bits ≡ (λ d. false) }
    {
        DirSet { bits: 0 }
    }

    /// All directories below a number.
    pub fn below(count: u8) -> DirSet
        requires { count ≤ 64 }
        ensures { has result.bits ≡ (λ d. nat_lt d count) }
    {
        let bits = if count == 64 {
            u64::MAX
        } else {
            (1 << count) - 1
        };
        DirSet { bits }
    }

    /// Whether the directory is in the set.
    pub fn contains(self, d: DirId) -> bool
        requires { d.0 < 64 }
        ensures { result ≡ has self.bits d.0 }
    {
        self.bits >> d.0 & 1 == 1
    }

    /// The set with one more directory.
    pub fn with(self, d: DirId) -> DirSet
        requires { d.0 < 64 }
        ensures { has result.bits ≡ put (has self.bits) d.0 true }
    {
        DirSet {
            bits: self.bits | 1 << d.0,
        }
    }

    /// The set without the directory.
    pub fn without(self, d: DirId) -> DirSet
        requires { d.0 < 64 }
        ensures { has result.bits ≡ put (has self.bits) d.0 false }
    {
        DirSet {
            bits: self.bits ^ (self.bits & 1 << d.0),
        }
    }

    /// Whether none of the directories below a number is in the set.
    pub fn is_empty_below(self, count: u8) -> bool
        requires { count ≤ 64 }
        ensures { result ≡ not (any_below (has self.bits) count) }
    {
        self.bits & DirSet::below(count).bits == 0
    }

    /// The directories of this set or of the other.
    pub fn or(self, other: DirSet) -> DirSet
        ensures { has result.bits ≡ (λ d. has self.bits d || has other.bits d) }
    {
        DirSet {
            bits: self.bits | other.bits,
        }
    }

    /// The directories of this set that aren't in the other.
    pub fn minus(self, other: DirSet) -> DirSet
        ensures { has result.bits ≡ (λ d. has self.bits d && not (has other.bits d)) }
    {
        DirSet {
            bits: self.bits ^ (self.bits & other.bits),
        }
    }
}
