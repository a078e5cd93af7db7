// Reading the text of counts.
ghost use Rattle.std.specs.Prelude.{◌≡◌, ◌++◌, IfOk, length};
ghost use Rattle.count_rows.specs.Rows.{counts_text};

use crate::reading::{Numbers, read_numbers};
use crate::rows::Fault;
use crate::writing::push_counts;
use row_text::behind;
use std::alloc::Global;
use tcc_base::{List, NoMemory};
use watch_count::Counts;

/// The counts that go on from these numbers.
fn restored(alloc: Global, numbers: Numbers) -> Result<Counts, Fault>
    ensures { IfOk result (λ c. length c.cores ≡ length numbers.cores) }
{
    let Numbers {
        cores,
        messages,
        lines,
        conflicts,
        bound,
    } = numbers;
    match Counts::restored(alloc, &cores.items, messages, lines, conflicts, bound) {
        Ok(Some(counts)) => Ok(counts),
        Ok(None) => Err(Fault::Unsound),
        Err(_) => Err(Fault::NoMemory),
    }
}

fn text_of(alloc: Global, counts: &Counts) -> Result<List<u8>, NoMemory>
    ensures { IfOk result (λ text. text ≡ counts_text counts.now) }
{
    let mut text = List::new(alloc);
    push_counts(&mut text, counts)?;
    Ok(text)
}

/// What follows the text of these counts, which is to stand in front.
fn behind_text<'a>(alloc: Global, bytes: &'a [u8], counts: &Counts) -> Result<&'a [u8], Fault>
    ensures { IfOk result (λ rest. bytes.now ≡ counts_text counts.now ++ rest.now) }
{
    let text = text_of(alloc, counts)?;
    behind(bytes, &text.items).ok_or(Fault::Other)
}

/// The counts of so many cores whose text stands in front of these bytes, and what follows it. The text ends where no further row of a line
/// or of a conflict follows: one that tells no value stands in what follows.
///
/// `Row` of the first row that isn't in its place or tells no value. It takes the time and the memory of `Counts::restored`, and time and
/// memory for the text, which it writes again.
pub fn read_counts(alloc: Global, bytes: &[u8], cores: u8) -> Result<(Counts, &[u8]), Fault>
    ensures text { IfOk result (λ x. bytes.now ≡ counts_text x.0 ++ x.1.now) }
    ensures cores { IfOk result (λ x. length x.0.cores ≡ cores) }
{
    let numbers = read_numbers(alloc, bytes, cores)?;
    let counts = restored(alloc, numbers)?;
    match behind_text(alloc, bytes, &counts) {
        Ok(rest) => Ok((counts, rest)),
        Err(fault) => Err(fault),
    }
}
