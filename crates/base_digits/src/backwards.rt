// Words and numbers, each written before what stands in a place of fixed size already: a line is written from its last byte to its
// first. The last digit of a number is what is found first, so no number is written twice, and there is nothing to test or to move
// between two bytes.
ghost use Rattle.std.specs.Prelude.{◌≡◌, ◌+◌, ◌<◌, ◌≤◌, false, [], ◌∷◌, ◌++◌, length, drop, IsAscii};
ghost use Rattle.std.specs.Fmt.{decimal, digit_glyph};
ghost use Rattle.base_digits.specs.Digits.{hex, last_digits};

use itoa::write_digits;

/// The bytes that a line has room for.
pub const ROOM: usize = 56;

/// Writes a byte before `end`. Gives where it is.
#[inline(always)]
pub fn put_byte(byte: u8, line: &mut [u8; ROOM], end: usize) -> usize
    requires { (0 < end) × (end ≤ 56) }
    ensures at { result + 1 ≡ end }
    ensures written { drop result line.new ≡ byte ∷ drop end line.old }
{
    line[end - 1] = byte;
    end - 1
}

/// Writes bytes before `end`. Gives where they begin.
#[inline(always)]
pub fn put_word(word: &[u8], line: &mut [u8; ROOM], end: usize) -> usize
    requires { (length word.now ≤ end) × (end ≤ 56) }
    ensures at { result + length word.now ≡ end }
    ensures written { drop result line.new ≡ word.now ++ drop end line.old }
{
    let at = end - word.len();
    line[at..end].copy_from_slice(word);
    at
}

/// Writes a number before `end`. Gives where it begins.
#[inline(always)]
pub fn put_number(number: u64, line: &mut [u8; ROOM], end: usize) -> usize
    requires { (20 ≤ end) × (end ≤ 56) }
    ensures at { (result ≤ end) × (end ≤ result + 20) }
    ensures written { drop result line.new ≡ decimal number ++ drop end line.old }
    ensures ascii { IsAscii (decimal number) }
{
    write_digits(number, line, end)
}

/// Writes a small number before `end`. Gives where it begins.
#[inline(always)]
pub fn put_small(number: u8, line: &mut [u8; ROOM], end: usize) -> usize
    requires { (3 ≤ end) × (end ≤ 56) }
    ensures at { (result ≤ end) × (end ≤ result + 3) }
    ensures written { drop result line.new ≡ decimal number ++ drop end line.old }
    ensures ascii { IsAscii (decimal number) }
{
    write_digits(number as u64, line, end)
}

/// Writes a space and a number before `end`. Gives where the space is.
#[inline(always)]
pub fn put_field(number: u64, line: &mut [u8; ROOM], end: usize) -> usize
    requires { (21 ≤ end) × (end ≤ 56) }
    ensures at { (result ≤ end) × (end ≤ result + 21) }
    ensures written { drop result line.new ≡ 32 ∷ decimal number ++ drop end line.old }
    ensures ascii { IsAscii (decimal number) }
{
    let at = put_number(number, line, end);
    put_byte(b' ', line, at)
}

/// Writes a space and a small number before `end`. Gives where the space is.
#[inline(always)]
pub fn put_small_field(number: u8, line: &mut [u8; ROOM], end: usize) -> usize
    requires { (4 ≤ end) × (end ≤ 56) }
    ensures at { (result ≤ end) × (end ≤ result + 4) }
    ensures written { drop result line.new ≡ 32 ∷ decimal number ++ drop end line.old }
    ensures ascii { IsAscii (decimal number) }
{
    let at = put_small(number, line, end);
    put_byte(b' ', line, at)
}

/// Writes a hexadecimal digit before `end`. Gives where it is.
#[inline(always)]
fn put_digit(digit: u8, line: &mut [u8; ROOM], end: usize) -> usize
    requires { (digit < 16) × (0 < end) × (end ≤ 56) }
    ensures at { result + 1 ≡ end }
    ensures written { drop result line.new ≡ digit_glyph false digit ∷ drop end line.old }
{
    let glyph = if digit < 10 {
        b'0' + digit
    } else {
        b'a' - 10 + digit
    };
    put_byte(glyph, line, end)
}

#[inline(always)]
fn put_two_digits(byte: u8, line: &mut [u8; ROOM], end: usize) -> usize
    requires { (2 ≤ end) × (end ≤ 56) }
    ensures at { result + 2 ≡ end }
    ensures written { drop result line.new ≡ last_digits 2 byte [] ++ drop end line.old }
{
    let at = put_digit(byte % 16, line, end);
    put_digit(byte / 16, line, at)
}

/// Writes a byte in two hexadecimal digits before `end`. Gives where they begin.
#[inline(always)]
pub fn put_hex_byte(byte: u8, line: &mut [u8; ROOM], end: usize) -> usize
    requires { (2 ≤ end) × (end ≤ 56) }
    ensures at { result + 2 ≡ end }
    ensures written { drop result line.new ≡ hex 2 byte ++ drop end line.old }
    ensures ascii { IsAscii (hex 2 byte) }
{
    put_two_digits(byte, line, end)
}

#[inline(always)]
fn put_four_digits(value: u16, line: &mut [u8; ROOM], end: usize) -> usize
    requires { (4 ≤ end) × (end ≤ 56) }
    ensures at { result + 4 ≡ end }
    ensures written { drop result line.new ≡ last_digits 4 value [] ++ drop end line.old }
{
    let at = put_two_digits((value % 256) as u8, line, end);
    put_two_digits((value / 256) as u8, line, at)
}

/// Writes a word in eight hexadecimal digits before `end`. Gives where they begin.
#[inline(always)]
pub fn put_hex(value: u32, line: &mut [u8; ROOM], end: usize) -> usize
    requires { (8 ≤ end) × (end ≤ 56) }
    ensures at { result + 8 ≡ end }
    ensures written { drop result line.new ≡ hex 8 value ++ drop end line.old }
    ensures ascii { IsAscii (hex 8 value) }
{
    let at = put_four_digits((value % 65536) as u16, line, end);
    put_four_digits((value / 65536) as u16, line, at)
}

/// Writes a space and a word in eight hexadecimal digits before `end`. Gives where the space is.
#[inline(always)]
pub fn put_hex_field(value: u32, line: &mut [u8; ROOM], end: usize) -> usize
    requires { (9 ≤ end) × (end ≤ 56) }
    ensures at { result + 9 ≡ end }
    ensures written { drop result line.new ≡ 32 ∷ hex 8 value ++ drop end line.old }
    ensures ascii { IsAscii (hex 8 value) }
{
    let at = put_hex(value, line, end);
    put_byte(b' ', line, at)
}
