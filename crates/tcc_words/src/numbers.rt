// Numbers as words write them.
ghost use Rattle.std.specs.Prelude.{◌≡◌, ◌⊎◌, ℕ, ◌^◌, ◌<◌, ◌≤◌, MatchOption};
ghost use Rattle.std.specs.Str.Parse.{IsNumeral, digits_value};
ghost use Rattle.tcc_words.specs.Numbers.{IsNumber};

/// The number below 2^64 that a word writes in decimal digits, or in hexadecimal ones behind `0x`; None exactly where it writes
/// none. Takes no memory.
pub fn number(text: &str) -> Option<u64>
    ensures { MatchOption result ((n : ℕ) → IsNumber text.now n → ⊥) (IsNumber text.now) }
{
    match text.strip_prefix("0x") {
        Some(digits) => unsigned(digits, 16),
        None => unsigned(text, 10),
    }
}

// The number that these digits write. A sign is no digit.
fn unsigned(digits: &str, radix: u32) -> Option<u64>
    requires { radix ≡ 10 ⊎ radix ≡ 16 }
    ensures { MatchOption result (IsNumeral radix digits.now → 2 ^ 64 ≤ digits_value radix digits.now)
        (λ n. IsNumeral radix digits.now × (digits_value radix digits.now ≡ n) × (n < 2 ^ 64)) }
{
    if digits.starts_with('+') {
        return None;
    }
    u64::from_str_radix(digits, radix).ok()
}
