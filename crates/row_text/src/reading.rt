// Reading a text from the front: what stands there, and the bytes after it. None of the readers takes memory or copies, and each takes
// time for what it reads alone.
ghost use Rattle.std.specs.Prelude.{◌≡◌, ℕ, ◌<◌, ◌≤◌, ◌++◌, ◌↔◌, List, All, IsTrue, MatchOption, codes, drop, length, take};
ghost use Rattle.std.specs.Fmt.{decimal};
ghost use Rattle.row_text.specs.Rows.{IsNumber, IsWord, is_word_byte};
ghost use Rattle.row_text.specs.Reading.{EndsField, HasNoNumber, HasNoNumbers, HasNoWord, HasNoRow};
ghost use Rattle.row_text.specs.Reading.{AreNumbersRead, IsNumberRead, IsRowRead, IsWordRead};

use crate::digits::read_decimal;
use std::str::from_utf8;

/// What follows these bytes; `None` exactly where they don't stand in front. It takes time for each of them.
pub fn behind<'a>(bytes: &'a [u8], front: &[u8]) -> Option<&'a [u8]>
    ensures { MatchOption result ((rest : List ℕ) → bytes.now ≡ front.now ++ rest → ⊥) (λ rest. bytes.now ≡ front.now ++ rest.now) }
{
    bytes.strip_prefix(front)
}

/// Where the field ends that begins here: before the first space, line feed or other byte up to 32.
fn field_end(bytes: &[u8]) -> usize
    ensures within { result ≤ length bytes.now }
    ensures inside { All (λ b. 32 < b) (take result bytes.now) }
    ensures ends { EndsField (drop result bytes.now) }
{
    for (i, byte) in bytes.iter().enumerate() {
        if *byte <= b' ' {
            return i;
        }
    }
    bytes.len()
}

/// Whether a word may have this byte: a letter, a digit or `-`.
#[tactic(auto, unfolding(crate::specs::Rows::is_word_byte))]
fn is_word_byte(byte: u8) -> bool
    ensures { result ≡ is_word_byte byte }
{
    matches!(byte, b'0'..=b'9' | b'A'..=b'Z' | b'a'..=b'z' | b'-')
}

fn are_word_bytes(bytes: &[u8]) -> bool
    ensures { IsTrue result ↔ All (λ b. IsTrue (is_word_byte b)) bytes.now }
{
    for byte in bytes {
        if !is_word_byte(*byte) {
            return false;
        }
    }
    true
}

/// The word that stands in front, and what follows it: the end of the bytes, or a byte that ends the word. None exactly where no word
/// stands in front.
pub fn word(bytes: &[u8]) -> Option<(&[u8], &[u8])>
    ensures { MatchOption result (HasNoWord bytes.now) (λ x. IsWordRead bytes.now x.0.now x.1.now) }
{
    let end = field_end(bytes);
    if end == 0 {
        return None;
    }
    let word = &bytes[..end];
    if !are_word_bytes(word) {
        return None;
    }
    Some((word, &bytes[end..]))
}

/// The number below 2^64 that these bytes write without leading zeros; None exactly where they write none.
fn decimal_number(digits: &[u8]) -> Option<u64>
    ensures { MatchOption result ((n : ℕ) → IsNumber digits.now n → ⊥) (IsNumber digits.now) }
{
    match from_utf8(digits) {
        Ok(text) => read_decimal(text),
        Err(_) => None,
    }
}

/// The number that stands in front behind one space, and what follows it: the end of the bytes, or a byte that ends the number. None
/// exactly where no number stands in front: where a row has none left, `end` reads its end.
pub fn number(bytes: &[u8]) -> Option<(u64, &[u8])>
    ensures { MatchOption result (HasNoNumber bytes.now) (λ x. IsNumberRead bytes.now x.0 x.1.now) }
{
    let digits = behind(bytes, b" ")?;
    let end = field_end(digits);
    let number = decimal_number(&digits[..end])?;
    Some((number, &digits[end..]))
}

/// What follows the line feed that stands in front; None exactly where none stands there.
pub fn end(bytes: &[u8]) -> Option<&[u8]>
    ensures { MatchOption result ((rest : List ℕ) → bytes.now ≡ codes "\n" ++ rest → ⊥) (λ rest. bytes.now ≡ codes "\n" ++ rest.now) }
{
    behind(bytes, b"\n")
}

/// Reads as many numbers as there are places: what follows the last of them; None where one of them doesn't stand there.
fn read_numbers<'a>(bytes: &'a [u8], numbers: &mut [u64]) -> Option<&'a [u8]>
    ensures length { length numbers.new ≡ length numbers.old }
    ensures read { MatchOption result (HasNoNumbers bytes.now (length numbers.old))
        (λ rest. AreNumbersRead bytes.now numbers.new rest.now) }
{
    let mut rest = bytes;
    for i in 0..numbers.len() {
        let (n, after) = number(rest)?;
        numbers[i] = n;
        rest = after;
    }
    Some(rest)
}

/// Reads the row that stands in front, where it has this word and as many numbers as there are places: the numbers, and what follows the
/// row. None exactly where no such row stands in front; then some of the places may be written.
pub fn read_row<'a>(bytes: &'a [u8], word: &[u8], numbers: &mut [u64]) -> Option<&'a [u8]>
    ensures length { length numbers.new ≡ length numbers.old }
    ensures read { MatchOption result (HasNoRow bytes.now word.now (length numbers.old))
        (λ rest. IsRowRead bytes.now word.now numbers.new rest.now) }
{
    let after_word = behind(bytes, word)?;
    let after_numbers = read_numbers(after_word, numbers)?;
    end(after_numbers)
}
