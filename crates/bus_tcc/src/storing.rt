// What a commit writes to memory.
ghost use Rattle.std.specs.Prelude.{◌≡◌, ◌<◌, ◌≤◌, ◌+◌, ◌*◌, ℕ, length, get_or, slice_set, if◌then◌else◌};
ghost use Rattle.rules_maps.specs.Masks.{has, hit};
ghost use Rattle.rules_maps.specs.Words.{place_of};
ghost use Rattle.rules_bus.specs.Commit.{with_words};
ghost use Rattle.core_node.specs.AtHand.{words_in};
ghost use Rattle.bus_tcc.specs.Machine.{word_in};
ghost use Rattle.bus_tcc.specs.Storing.{AreInside};

use tcc_base::{List, Tagged};

/// Whether a mask holds the word at a place.
fn holds(mask: u8, k: usize) -> bool
    requires { k < 8 }
    ensures { result ≡ has mask k }
{
    mask >> k & 1 == 1
}

/// A word of memory changes, or not.
fn store_if(ram: &mut [u32], at: usize, does: bool, word: u32)
    requires { at < length ram.old }
    ensures { ram.new ≡ (if does then slice_set ram.old at word else ram.old) }
{
    if does {
        ram[at] = word;
    }
}

/// The masked words of a line go to memory.
fn store_line(ram: &mut [u32], line: &Tagged)
    requires { 8 * line.now.line.0 + 8 ≤ length ram.old }
    ensures count { length ram.new ≡ length ram.old }
    ensures words { (w : ℕ)
        → get_or ram.new w 0 ≡ (if hit line.now.line.0 line.now.mask.0 w then get_or line.now.words (place_of w) 0
        else get_or ram.old w 0) }
{
    let first = 8 * line.line.0 as usize;
    for k in 0..8 {
        store_if(ram, first + k, holds(line.mask.0, k), line.words[k]);
    }
}

/// The words of these lines go to memory, each from the first line that has it.
pub(crate) fn store_lines(ram: &mut [u32], lines: &[Tagged])
    requires { AreInside (length ram.old) lines.now }
    ensures count { length ram.new ≡ length ram.old }
    ensures words { word_in ram.new ≡ with_words (words_in lines.now) (word_in ram.old) }
{
    let mut left = lines.len();
    while left > 0 {
        left -= 1;
        store_line(ram, &lines[left]);
    }
}

/// The same of all memory.
pub(crate) fn store_all(ram: &mut List<u32>, lines: &[Tagged])
    requires { AreInside (length ram.old) lines.now }
    ensures count { length ram.new ≡ length ram.old }
    ensures words { word_in ram.new ≡ with_words (words_in lines.now) (word_in ram.old) }
{
    store_lines(&mut ram.items, lines);
}
