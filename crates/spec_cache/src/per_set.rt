// How many ways of each set pass a test, of each block of sets, and of all sets together.
ghost use Rattle.std.specs.Prelude.{◌≡◌, ◌<◌, ◌≤◌, ◌+◌, ◌/◌, ◌==◌, ◌&&◌, not, ℕ, true, false, length, get_or, replicate, IfOk};
ghost use Rattle.rules_maps.specs.Words.{num};

use crate::slots::zeros;
use std::alloc::Global;
use std::marker::Model;
use tcc_base::NoMemory;

/// A number for each set, the sum of each block of 32 sets, and that of all sets.
#[derive(Debug, Drop)]
pub struct PerSet {
    counts: Vec<u8>,
    blocks: [u16; 32],
    all: usize,
}

impl Model for PerSet {
    ghost use Rattle.spec_cache.specs.PerSet.{Counted};

    ghost Value = { Counted };

    ghost view = { λ p. record { counts = p.counts.items; blocks = p.blocks; all = p.all } };
}

impl PerSet {
    /// Zero everywhere.
    pub(crate) fn new(alloc: Global, sets: usize) -> Result<PerSet, NoMemory>
        ensures { IfOk result (λ p. p ≡ record { counts = replicate sets 0; blocks = replicate 32 0; all = 0 }) }
    {
        Ok(PerSet {
            counts: zeros(alloc, sets)?,
            blocks: [0; 32],
            all: 0,
        })
    }

    /// The number of a set.
    pub(crate) fn of(&self, set: usize) -> usize
        requires { set < length self.now.counts }
        ensures { result ≡ get_or self.now.counts set 0 }
    {
        self.counts[set] as usize
    }

    /// The sum of a block of sets.
    pub(crate) fn of_block(&self, block: usize) -> usize
        requires { block < 32 }
        ensures { result ≡ get_or self.now.blocks block 0 }
    {
        self.blocks[block] as usize
    }

    /// The number of all sets.
    pub(crate) fn all(&self) -> usize
        ensures { result ≡ self.now.all }
    {
        self.all
    }

    /// Counts one less in the set where `less` is set, and one more where `more` is.
    pub(crate) fn shift(&mut self, set: usize, less: bool, more: bool)
        requires exists { set < length self.old.counts }
        requires some { less ≡ true → 0 < get_or self.old.counts set 0 }
        requires block_exists { set / 32 < 32 }
        requires some_block { less ≡ true → 0 < get_or self.old.blocks (set / 32) 0 }
        requires some_all { less ≡ true → 0 < self.old.all }
        requires few { get_or self.old.counts set 0 ≤ 16 }
        requires few_block { get_or self.old.blocks (set / 32) 0 ≤ 512 }
        requires few_all { self.old.all ≤ 16384 }
        ensures sets { length self.new.counts ≡ length self.old.counts }
        ensures counts { (s : ℕ) → get_or self.new.counts s 0 + num (s == set && less) ≡ get_or self.old.counts s 0 + num
            (s == set && more) }
        ensures blocks { (b : ℕ) → get_or self.new.blocks b 0 + num (b == set / 32 && less) ≡ get_or self.old.blocks b 0 + num
            (b == set / 32 && more) }
        ensures all { self.new.all + num less ≡ self.old.all + num more }
    {
        if less == more {
            return;
        }
        if more {
            self.counts[set] += 1;
            self.blocks[set / 32] += 1;
            self.all += 1;
        } else {
            self.counts[set] -= 1;
            self.blocks[set / 32] -= 1;
            self.all -= 1;
        }
    }
}
