// Masks of a line's eight words as bits of a byte.
ghost use Rattle.std.specs.Prelude.{◌≡◌, ◌^◌, ◌<◌, ◌≤◌};
ghost use Rattle.rules_maps.specs.Masks.{has as has_word, minus, meet, join};

/// The mask of the word at place `k` alone.
pub(crate) fn bit(k: usize) -> u8
    requires { k < 8 }
    ensures { result ≡ 2 ^ k }
{
    1 << k
}

/// Whether the mask holds the word at place `k`.
pub(crate) fn has(mask: u8, k: usize) -> bool
    requires { k < 8 }
    ensures { result ≡ has_word mask k }
{
    mask >> k & 1 == 1
}

/// The words of the one that aren't in the other.
pub(crate) fn without(mask: u8, other: u8) -> u8
    ensures { result ≡ minus mask other }
{
    mask ^ (mask & other)
}
