// Numbers in blocks of 16, and where a number falls among them.
ghost use Rattle.std.specs.Prelude.{◌≡◌, ◌+◌, ◌/◌, ◌^◌, ◌<◌, ◌≤◌, drop, sum};
ghost use Rattle.base_sums.specs.Falls.{FallsFrom};

/// How many numbers a block has.
pub const BLOCK: usize = 16;

/// How many blocks so many numbers have.
pub fn blocks_of(numbers: usize) -> usize
    requires { numbers ≤ 2 ^ 16 }
    ensures { result ≡ (numbers + 15) / 16 }
{
    (numbers + BLOCK - 1) / BLOCK
}

/// The place in which the k-th falls of what is counted from a place on, and how far into it. It goes from place to place.
pub fn fall_in_counts(counts: &[u32], from: usize, k: u64) -> (usize, u64)
    requires { k < sum (drop from counts.now) }
    ensures { FallsFrom counts.now from k result.0 result.1 }
{
    let mut at = from;
    let mut left = k;
    while left >= u64::from(counts[at]) {
        left -= u64::from(counts[at]);
        at += 1;
    }
    (at, left)
}

/// The same among sums.
pub fn fall_in_sums(sums: &[u64], from: usize, k: u64) -> (usize, u64)
    requires { k < sum (drop from sums.now) }
    ensures { FallsFrom sums.now from k result.0 result.1 }
{
    let mut at = from;
    let mut left = k;
    while left >= sums[at] {
        left -= sums[at];
        at += 1;
    }
    (at, left)
}
