// What stands in front of a text, row by row, and numbers of rows as values of a machine.
ghost use Rattle.std.specs.Prelude.{◌≡◌, ◌<◌, IfSome, length};

use row_text::{number, read_row};
use tcc_base::{Load, Mask, NoMemory, Size, Stored};

/// Why a text is no machine's.
#[derive(Clone, Copy, Debug, PartialEq, Eq)]
pub enum Fault {
    /// A row that isn't in its place, or tells no value; it begins so many bytes before the end.
    Row(usize),
    NoMemory,
}

impl From<NoMemory> for Fault {
    fn from(_: NoMemory) -> Fault {
        Fault::NoMemory
    }
}

/// A number as a word.
pub(crate) fn word(number: u64) -> Option<u32> {
    if number <= 0xffff_ffff {
        Some(number as u32)
    } else {
        None
    }
}

/// A number as a byte.
pub(crate) fn byte(number: u64) -> Option<u8> {
    if number <= 0xff {
        Some(number as u8)
    } else {
        None
    }
}

/// A number as a mask of the words of a line.
pub(crate) fn mask(number: u64) -> Option<Mask> {
    Some(Mask(byte(number)?))
}

/// 0 and 1 as no and yes.
pub(crate) fn flag(number: u64) -> Option<bool> {
    match number {
        0 => Some(false),
        1 => Some(true),
        _ => None,
    }
}

/// Eight numbers as the words of a line.
pub(crate) fn words(numbers: &[u64]) -> Option<[u32; 8]> {
    if numbers.len() != 8 {
        return None;
    }
    let mut found = [0; 8];
    for k in 0..8 {
        found[k] = word(numbers[k])?;
    }
    Some(found)
}

/// A kind of 0 with 0 as none, of 1 as some number.
pub(crate) fn optional(kind: u64, number: u64) -> Option<Option<u64>> {
    match (kind, number) {
        (0, 0) => Some(None),
        (1, number) => Some(Some(number)),
        _ => None,
    }
}

fn size(number: u64) -> Option<Size> {
    match number {
        1 => Some(Size::Byte),
        2 => Some(Size::Half),
        4 => Some(Size::Word),
        _ => None,
    }
}

/// The number that stands in front behind one space, and what follows it.
pub(crate) fn number_in_front(bytes: &[u8]) -> Option<(u64, &[u8])>
    ensures { IfSome result (λ x. length x.1.now < length bytes.now) }
{
    number(bytes)
}

/// Reads the row that stands in front, where it has this word and as many numbers as there are places, and gives what follows the row.
/// `None` where no such row stands in front; then some of the places may be written.
pub(crate) fn row_in_front<'a>(
    bytes: &'a [u8],
    word_of_row: &[u8],
    numbers: &mut [u64],
) -> Option<&'a [u8]>
    ensures length { length numbers.new ≡ length numbers.old }
    ensures shorter { IfSome result (λ rest. length rest.now < length bytes.now) }
{
    read_row(bytes, word_of_row, numbers)
}

/// The row of a load or a store that stands in front, with this word: whose it is, its address, size and value, and what follows.
fn access_in_front<'a>(
    bytes: &'a [u8],
    word_of_row: &[u8],
) -> Option<(u64, (u32, Size, u32), &'a [u8])>
    ensures { IfSome result (λ x. length x.2.now < length bytes.now) }
{
    let mut row = [0; 4];
    let rest = row_in_front(bytes, word_of_row, &mut row)?;
    Some((row[0], (word(row[1])?, size(row[2])?, word(row[3])?), rest))
}

/// The row of a load that stands in front, with this word: whose it is, the load, and what follows.
pub(crate) fn load_in_front<'a>(
    bytes: &'a [u8],
    word_of_row: &[u8],
) -> Option<(u64, Load, &'a [u8])>
    ensures { IfSome result (λ x. length x.2.now < length bytes.now) }
{
    let (number, (addr, size, value), rest) = access_in_front(bytes, word_of_row)?;
    Some((number, Load { addr, size, value }, rest))
}

/// The same of a store.
pub(crate) fn store_in_front<'a>(
    bytes: &'a [u8],
    word_of_row: &[u8],
) -> Option<(u64, Stored, &'a [u8])>
    ensures { IfSome result (λ x. length x.2.now < length bytes.now) }
{
    let (number, (addr, size, value), rest) = access_in_front(bytes, word_of_row)?;
    Some((number, Stored { addr, size, value }, rest))
}

/// The same of a console byte.
pub(crate) fn byte_in_front<'a>(bytes: &'a [u8], word_of_row: &[u8]) -> Option<(u64, u8, &'a [u8])>
    ensures { IfSome result (λ x. length x.2.now < length bytes.now) }
{
    let mut row = [0; 2];
    let rest = row_in_front(bytes, word_of_row, &mut row)?;
    Some((row[0], byte(row[1])?, rest))
}
