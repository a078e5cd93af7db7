// The words and numbers of a line, each read from the front: what stands there, and the bytes after it. None of them takes
// memory, and each takes time for what it reads alone.
ghost use Rattle.std.specs.Prelude.{◌≡◌, ◌<◌, IfSome};
ghost use Rattle.schedule_text.specs.Reading.{Reads, word_at, more_at, digits_at, number_at, below_at, field_at};

/// Numbers in a text are at most this, 2^62 - 1.
const LARGEST: u64 = 0x3fff_ffff_ffff_ffff;

/// These bytes.
pub fn word<'a>(bytes: &'a [u8], word: &[u8]) -> Option<&'a [u8]>
    ensures { Reads (λ x. x.now) result (word_at word.now bytes.now) }
{
    bytes.strip_prefix(word)
}

/// The number with one more digit, where that is below 2^62.
#[tactic(auto, unfolding(crate::specs::Reading::more_at))]
fn more_digits(number: u64, byte: u8) -> Option<u64>
    ensures { result ≡ more_at number byte }
{
    if !byte.is_ascii_digit() {
        return None;
    }
    let digit = (byte - b'0') as u64;
    if number <= (LARGEST - digit) / 10 {
        Some(10 * number + digit)
    } else {
        None
    }
}

/// The further digits of a number that begins with `first`, and the byte after it.
fn digits(bytes: &[u8], end: u8, first: u64) -> Option<(u64, &[u8])>
    ensures { Reads (λ x. (x.0, x.1.now)) result (digits_at end first bytes.now) }
{
    let mut number = first;
    for (i, byte) in bytes.iter().enumerate() {
        if *byte == end {
            return Some((number, &bytes[i + 1..]));
        }
        number = more_digits(number, *byte)?;
    }
    None
}

/// A number below 2^62 without leading zeros, and the byte after it.
#[tactic(auto, unfolding(crate::specs::Reading::number_at))]
pub fn number(bytes: &[u8], end: u8) -> Option<(u64, &[u8])>
    ensures { Reads (λ x. (x.0, x.1.now)) result (number_at end bytes.now) }
{
    match bytes {
        [b'0', rest @ ..] => {
            let rest = word(rest, &[end])?;
            Some((0, rest))
        }
        [first @ b'1'..=b'9', rest @ ..] => digits(rest, end, (*first - b'0') as u64),
        _ => None,
    }
}

/// A number below a limit, and the byte after it.
#[tactic(auto, unfolding(crate::specs::Reading::below_at))]
pub fn below(bytes: &[u8], end: u8, limit: u64) -> Option<(u64, &[u8])>
    ensures read { Reads (λ x. (x.0, x.1.now)) result (below_at end limit bytes.now) }
    ensures below { IfSome result (λ x. x.0 < limit) }
{
    let (n, rest) = number(bytes, end)?;
    if n < limit { Some((n, rest)) } else { None }
}

/// A word, a number, and the byte after it.
#[tactic(auto, unfolding(crate::specs::Reading::field_at))]
pub fn field<'a>(bytes: &'a [u8], name: &[u8], end: u8) -> Option<(u64, &'a [u8])>
    ensures { Reads (λ x. (x.0, x.1.now)) result (field_at name.now end bytes.now) }
{
    let rest = word(bytes, name)?;
    number(rest, end)
}
