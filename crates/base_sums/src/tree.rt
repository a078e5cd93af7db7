// The tree of sums as callers see it: a list of counts.
ghost use Rattle.std.specs.Prelude.{◌≡◌, ℕ, ◌<◌, ◌≤◌, ◌↔◌, List, length, replicate, sum, slice_index, slice_set, nat_eq, IfOk, IfSome};
ghost use Rattle.std.specs.Prelude.{IsSome};
ghost use Rattle.base_sums.specs.Falls.{FallsAt};

use crate::blocks::{BLOCK, blocks_of, fall_in_counts, fall_in_sums};
use std::alloc::{AllocError, Global};
use std::marker::Model;
use tcc_base::NoMemory;

/// The largest number of places: their counts are 32 bits wide, so no sum of them wraps.
pub const MAX_PLACES: usize = 65_536;

/// A count for each of a fixed number of places. In a clause it is the list of the counts.
///
/// All calls but `new` and `find` take constant time. `find` goes over one number for each 256 places, and over 32 more, at most. No call
/// but `new` takes memory.
#[derive(Debug, Drop)]
pub struct SumTree {
    counts: Vec<u32>,
    // of each block of counts, and of each block of these
    sums: Vec<u64>,
    tops: Vec<u64>,
    total: u64,
}

impl Model for SumTree {
    ghost use Rattle.std.specs.Prelude.{ℕ, List};
    ghost use Rattle.base_sums.specs.Blocks.{AreSums};

    ghost Value = { List ℕ };

    ghost view = { λ t. t.counts.items };

    ghost invariant = { λ t. AreSums t.counts.items t.sums.items t.tops.items t.total };
}

impl SumTree {
    /// So many places, at most `MAX_PLACES`, each with the count 0. Its time and memory go with their number.
    pub fn new(alloc: Global, places: usize) -> Result<SumTree, NoMemory>
        requires { places ≤ MAX_PLACES }
        ensures { IfOk result (λ t. t ≡ replicate places 0) }
    {
        let blocks = blocks_of(places);
        Ok(SumTree {
            counts: zero_counts(alloc, places).map_err(|_| NoMemory)?,
            sums: zero_sums(alloc, blocks).map_err(|_| NoMemory)?,
            tops: zero_sums(alloc, blocks_of(blocks)).map_err(|_| NoMemory)?,
            total: 0,
        })
    }

    /// The number of places.
    pub fn len(&self) -> usize
        ensures { result ≡ length self.now }
    {
        self.counts.len()
    }

    /// Whether there is no place.
    pub fn is_empty(&self) -> bool
        ensures { result ≡ nat_eq (length self.now) 0 }
    {
        self.counts.is_empty()
    }

    /// The count of a place.
    pub fn get(&self, place: usize) -> u32
        requires { place < length self.now }
        ensures { result ≡ slice_index self.now place }
    {
        self.counts[place]
    }

    /// The sum of all counts.
    pub fn total(&self) -> u64
        ensures { result ≡ sum self.now }
    {
        self.total
    }

    /// Gives a place a count; those of the other places stay.
    pub fn set(&mut self, place: usize, count: u32)
        requires { place < length self.old }
        ensures { self.new ≡ slice_set self.old place count }
    {
        let was = u64::from(self.counts[place]);
        let is = u64::from(count);
        let block = place / BLOCK;
        let top = block / BLOCK;
        self.counts[place] = count;
        self.sums[block] = self.sums[block] - was + is;
        self.tops[top] = self.tops[top] - was + is;
        self.total = self.total - was + is;
    }

    /// The place in which the k-th falls, counted from 0 through the places in order, and how far into that place; None exactly
    /// where k isn't below the total.
    pub fn find(&self, k: u64) -> Option<(usize, u64)>
        ensures falls { IfSome result (λ at. FallsAt self.now k at.0 at.1) }
        ensures below { IsSome result ↔ (k < sum self.now) }
    {
        if k >= self.total {
            return None;
        }
        let (top, into_top) = fall_in_sums(&self.tops, 0, k);
        let (block, into_block) = fall_in_sums(&self.sums, BLOCK * top, into_top);
        Some(fall_in_counts(&self.counts, BLOCK * block, into_block))
    }
}

// So many counts of 0.
fn zero_counts(alloc: Global, places: usize) -> Result<Vec<u32>, AllocError>
    ensures { IfOk result (λ v. v.items ≡ replicate places 0) }
{
    vec![in alloc; 0; places]
}

// So many sums of 0.
fn zero_sums(alloc: Global, count: usize) -> Result<Vec<u64>, AllocError>
    ensures { IfOk result (λ v. v.items ≡ replicate count 0) }
{
    vec![in alloc; 0; count]
}
