// Sets of cores and directories, each the bits of a number, and how they are written. Where memory runs out, the text holds a part of it.
ghost use Rattle.std.specs.Prelude.{◌≡◌, ◌<◌, ◌≤◌, ◌++◌, OnOk, string_bytes};
ghost use Rattle.rules_maps.specs.Masks.{has};
ghost use Rattle.rules_maps.specs.Words.{any_below, those};
ghost use Rattle.watch_state.specs.Lines.{number_words, numbers_or_none};

use commit_engine::DirSet;
use std::alloc::AllocError;
use tcc_base::DirId;

/// Whether the number is in the set.
pub(crate) fn contains(bits: u64, number: u8) -> bool
    requires { number < 64 }
    ensures { result ≡ has bits number }
{
    DirSet { bits }.contains(DirId(number))
}

/// Whether a number below this count is in the set.
pub(crate) fn any_in(bits: u64, count: u8) -> bool
    requires { count ≤ 64 }
    ensures { result ≡ any_below (has bits) count }
{
    !DirSet { bits }.is_empty_below(count)
}

/// The set without the numbers from this count on.
pub fn only_below(bits: u64, count: u8) -> u64
    requires { count ≤ 64 }
    ensures { those (has result) 64 ≡ those (has bits) count }
{
    let beyond = DirSet { bits }.minus(DirSet::below(count));
    DirSet { bits }.minus(beyond).bits
}

/// Appends the numbers below this count that are in the set, each behind a space. After want of memory a part of them may stand there.
#[tactic(auto, unfolding(rules_maps::specs::Words::those))]
pub fn push_numbers(text: &mut String, bits: u64, count: u8) -> Result<(), AllocError>
    requires { count ≤ 64 }
    ensures { OnOk result (string_bytes text.new ≡ string_bytes text.old ++ number_words (those (has bits) count)) }
{
    for number in 0..count {
        if contains(bits, number) {
            write!(text, " {number}")?;
        }
    }
    Ok(())
}

/// The same, or "none".
#[tactic(auto, using(crate::proofs::Growing::number_cases))]
pub(crate) fn push_numbers_or_none(
    text: &mut String,
    bits: u64,
    count: u8,
) -> Result<(), AllocError>
    requires { count ≤ 64 }
    ensures { OnOk result (string_bytes text.new ≡ string_bytes text.old ++ numbers_or_none (those (has bits) count)) }
{
    if any_in(bits, count) {
        push_numbers(text, bits, count)
    } else {
        text.push_str(" none")
    }
}
