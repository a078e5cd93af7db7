// The search for a way that may be emptied with use, by its number among these: over blocks of sets, the sets of one block, and the
// ways of one set.
ghost use Rattle.std.specs.Prelude.{◌≡◌, ◌<◌, ◌≤◌, ◌+◌, ◌*◌, MatchBool, MatchOption, MatchResult, length, get_or, nat_lt};
ghost use Rattle.rules_maps.specs.CacheUse.{useful_ways};
ghost use Rattle.spec_cache.specs.Held.{maps};
ghost use Rattle.spec_cache.specs.Useful.{wants_of, useful_in, awaited_set};
ghost use Rattle.spec_cache.specs.PerSet.{count_set, IsNthWay, IsUsefulWay, useful_before};

use crate::cache::SpecCache;
use crate::useful::Wants;
use crate::ways::Ways;

/// The first set after a block, of as many sets, where the block begins at `first`.
fn end_of(first: u16, sets: u16) -> u16
    requires { first < sets }
    ensures later { first ≤ result }
    ensures inside { result ≤ sets }
    ensures end { MatchBool (nat_lt (first + 32) sets) (result ≡ first + 32) (result ≡ sets) }
{
    if sets - first > 32 { first + 32 } else { sets }
}

impl SpecCache {
    /// The set and way of the `k`-th way that may be emptied with use, from 0, in the order of set and way; None exactly where
    /// there are no more than `k`. Takes a step for each 32 sets, one for each set of the 32 among which the way is, of those among
    /// which the awaited line's set is and of those among which room is wanted, and one for each way of these three sets.
    pub fn useful_way(&self, wants: Wants, k: usize) -> Option<(u16, u8)>
        ensures { let all = useful_ways self.now.config (wants_of wants) (maps self.now) in
            MatchOption result (length all ≤ k) (λ p. (k < length all) × (p.0 < self.now.config.sets) × (p.1 < self.now.config.ways)
            × (get_or all k 0 ≡ p.0 * self.now.config.ways + p.1)) }
    {
        let sets = self.frames.config().sets();
        let line = wants.awaited_set(sets);
        let mut left = k;
        for block in 0..(sets + 31) / 32 {
            match self.nth_in_block(wants, line, block, left) {
                Ok(way) => return Some(way),
                Err(rest) => left = rest,
            }
        }
        None
    }

    /// The `left`-th way of a block of 32 sets, from 0, that may be emptied with use; where they have no more than `left`, Err of
    /// `left` less these. `line` is the set of the awaited line.
    fn nth_in_block(
        &self,
        wants: Wants,
        line: Option<u16>,
        block: u16,
        left: usize,
    ) -> Result<(u16, u8), usize>
        requires line { line ≡ awaited_set self.now.config.sets (wants_of wants) }
        requires exists { block * 32 < self.now.config.sets }
        requires few { block < 32 }
        ensures { MatchResult result (IsUsefulWay self.now (wants_of wants) (useful_before self.now (wants_of wants) (block * 32) + left))
            (λ rest. useful_before self.now (wants_of wants) ((block + 1) * 32) + rest
            ≡ useful_before self.now (wants_of wants) (block * 32) + left) }
    {
        if !wants.touches_block(line, block) {
            let here = self.frames.useful_in_block(wants.alone, block as usize);
            if here <= left {
                return Err(left - here);
            }
        }
        self.nth_in_sets(wants, line, block, left)
    }

    /// The same, set by set.
    fn nth_in_sets(
        &self,
        wants: Wants,
        line: Option<u16>,
        block: u16,
        left: usize,
    ) -> Result<(u16, u8), usize>
        requires line { line ≡ awaited_set self.now.config.sets (wants_of wants) }
        requires exists { block * 32 < self.now.config.sets }
        requires few { block < 32 }
        ensures { MatchResult result (IsUsefulWay self.now (wants_of wants) (useful_before self.now (wants_of wants) (block * 32) + left))
            (λ rest. useful_before self.now (wants_of wants) ((block + 1) * 32) + rest
            ≡ useful_before self.now (wants_of wants) (block * 32) + left) }
    {
        let first = block * 32;
        let end = end_of(first, self.frames.config().sets());
        let mut left = left;
        for set in first..end {
            let here = self.useful_in_set(wants, line, set as usize);
            if left < here {
                return Ok((set, self.nth_in_set(wants, set as usize, left)));
            }
            left -= here;
        }
        Err(left)
    }

    /// How many ways of a set may be emptied with use.
    fn useful_in_set(&self, wants: Wants, line: Option<u16>, set: usize) -> usize
        requires line { line ≡ awaited_set self.now.config.sets (wants_of wants) }
        requires exists { set < self.now.config.sets }
        ensures number { result ≡ count_set (useful_in (wants_of wants) set) self.now set }
        ensures few { result ≤ 16 }
    {
        if wants.touches(line, set) {
            self.look_at_set(wants, set)
        } else {
            self.frames.useful_in_set(wants.alone, set)
        }
    }

    /// The `left`-th way of a set, from 0, that may be emptied with use, where there are more than `left`.
    fn nth_in_set(&self, wants: Wants, set: usize, left: usize) -> u8
        requires exists { set < self.now.config.sets }
        requires more { left < count_set (useful_in (wants_of wants) set) self.now set }
        ensures { IsNthWay (useful_in (wants_of wants) set) self.now set left result }
    {
        let ways = self.frames.config().ways();
        let mut left = left;
        for way in 0..ways {
            if wants.finds(set, &self.frames.way(set * ways as usize + way as usize)) {
                if left == 0 {
                    return way;
                }
                left -= 1;
            }
        }
        unreachable!()
    }
}
