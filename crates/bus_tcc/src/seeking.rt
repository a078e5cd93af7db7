// Where the k-th of a number's set bits is, found by halves.
ghost use Rattle.std.specs.Prelude.{◌≡◌, ◌+◌, ◌<◌, ◌≤◌, ◌%◌, ◌^◌, ℕ, true, count_ones};
ghost use Rattle.rules_maps.specs.Masks.{has};
ghost use Rattle.bus_tcc.specs.Seeking.{IsAmong};

/// Some bits of a number, with one that is set among them, which is sought.
#[derive(Clone, Copy)]
pub(crate) struct Among {
    /// Where they begin.
    pub(crate) at: u8,
    pub(crate) bits: u64,
    /// How many set ones are below it.
    pub(crate) left: u64,
}

/// The half of them in which it is.
#[inline(always)]
fn half(all: Among, width: u8) -> Among
    requires { all.at + width < 64 }
    ensures place { result.at ≤ all.at + width }
    ensures among { (m k : ℕ) → IsAmong m k (width + width) all → IsAmong m k width result }
{
    let low = all.bits % (1 << width);
    let ones = u64::from(low.count_ones());
    if all.left < ones {
        Among {
            at: all.at,
            bits: low,
            left: all.left,
        }
    } else {
        Among {
            at: all.at + width,
            bits: all.bits >> width,
            left: all.left - ones,
        }
    }
}

/// Sixteen of 64 bits among which it is.
#[inline(always)]
fn sixteen(all: Among) -> Among
    requires { all.at ≡ 0 }
    ensures place { result.at ≤ 48 }
    ensures among { (m k : ℕ) → IsAmong m k 64 all → IsAmong m k 16 result }
{
    if all.bits < 0x1_0000 {
        all
    } else {
        half(half(all, 32), 16)
    }
}

/// The place of the set bit that has so many below it.
pub(crate) fn nth_one(bits: u64, k: u64) -> u8
    requires { k < count_ones bits }
    ensures small { result < 64 }
    ensures set { has bits result ≡ true }
    ensures before { count_ones (bits % 2 ^ result) ≡ k }
{
    let all = Among {
        at: 0,
        bits,
        left: k,
    };
    let few = half(half(sixteen(all), 8), 4);
    half(half(few, 2), 1).at
}
