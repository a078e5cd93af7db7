// The bytes of RAM and the marks that tell for each whether it is code: reading words of them, and writing and marking parts.
ghost use Rattle.std.specs.Prelude.{◌≡◌, ℕ, ◌+◌, ◌-◌, ◌≤◌, ◌<◌, ◌↔◌, true, false, length, slice_index, IsTrue, EachIndex, IfSome};
ghost use Rattle.image_load.specs.Memory.{word_of};
ghost use Rattle.image_load.specs.Contents.{code_at, code_place};

use byteorder::{ByteOrder, LittleEndian};

/// The little-endian word of four bytes.
pub fn word_at(ram: &[u8], place: usize) -> u32
    requires { place + 4 ≤ length ram.now }
    ensures { result ≡ word_of (slice_index ram.now) place }
{
    LittleEndian::read_u32(&ram[place..])
}

/// The place in RAM of the four bytes from an address on, where all four are code.
pub fn code_place(base: u32, code: &[bool], addr: u32) -> Option<usize>
    ensures value { result ≡ code_place base code.now addr }
    ensures within { IfSome result (λ place. place + 4 ≤ length code.now) }
{
    if addr < base {
        return None;
    }
    let place = (addr - base) as usize;
    if place + 4 > code.len() {
        return None;
    }
    if code[place] && code[place + 1] && code[place + 2] && code[place + 3] {
        Some(place)
    } else {
        None
    }
}

/// Whether no byte is marked.
pub fn is_free(marks: &[bool]) -> bool
    ensures { IsTrue result ↔ EachIndex marks.now (λ k. code_at marks.now k ≡ false) }
{
    marks.iter().all(|mark| !*mark)
}

/// Gives the bytes from `first` up to `end` this mark.
pub fn mark(marks: &mut [bool], first: usize, end: usize, value: bool)
    requires ordered { first ≤ end }
    requires within { end ≤ length marks.old }
    ensures marked { (k : ℕ) → first ≤ k → k < end → code_at marks.new k ≡ value }
    ensures below { (k : ℕ) → k < first → code_at marks.new k ≡ code_at marks.old k }
    ensures above { (k : ℕ) → end ≤ k → code_at marks.new k ≡ code_at marks.old k }
{
    marks[first..end].fill(value);
}

/// Writes bytes from `first` on.
pub fn write_at(ram: &mut [u8], first: usize, bytes: &[u8])
    requires { first + length bytes.now ≤ length ram.old }
    ensures written { (k : ℕ) → first ≤ k → k < first + length bytes.now →
        slice_index ram.new k ≡ slice_index bytes.now (k - first) }
    ensures below { (k : ℕ) → k < first → slice_index ram.new k ≡ slice_index ram.old k }
    ensures above { (k : ℕ) → first + length bytes.now ≤ k → slice_index ram.new k ≡ slice_index ram.old k }
{
    ram[first..first + bytes.len()].copy_from_slice(bytes);
}
