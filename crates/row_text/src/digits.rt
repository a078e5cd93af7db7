// A number in decimal digits.
ghost use Rattle.std.specs.Prelude.{◌≡◌, ℕ, MatchOption};
ghost use Rattle.row_text.specs.Rows.{IsNumber};

/// The number below 2^64 that these digits write without leading zeros; None exactly where they write none. Takes no memory.
pub fn read_decimal(digits: &str) -> Option<u64>
    ensures { MatchOption result ((n : ℕ) → IsNumber digits.now n → ⊥) (IsNumber digits.now) }
{
    if digits.starts_with('0') {
        return if digits.len() == 1 { Some(0) } else { None };
    }
    if digits.starts_with('+') {
        return None;
    }
    match u64::from_str_radix(digits, 10) {
        Ok(number) => Some(number),
        Err(_) => None,
    }
}
