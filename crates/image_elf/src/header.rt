// The fields of a file that say what it is and what it holds, read at their offsets.
ghost use Rattle.std.specs.Prelude.{◌≡◌, ◌+◌, ◌≤◌, length};
ghost use Rattle.image_elf.specs.Elf.{half_at, word_at};

use byteorder::{ByteOrder, LittleEndian};

/// The half word at an offset.
pub fn half_at(file: &[u8], at: usize) -> u16
    requires { at + 2 ≤ length file.now }
    ensures { result ≡ half_at file.now at }
{
    LittleEndian::read_u16(&file[at..])
}

/// The word at an offset.
pub fn word_at(file: &[u8], at: usize) -> u32
    requires { at + 4 ≤ length file.now }
    ensures { result ≡ word_at file.now at }
{
    LittleEndian::read_u32(&file[at..])
}

/// A program header, by the names of the System V ABI. What the machine has no use for, p_paddr and p_align, is left out.
#[derive(Clone, Copy, Debug, PartialEq, Eq)]
pub struct ProgramHeader {
    pub p_type: u32,
    pub p_offset: u32,
    pub p_vaddr: u32,
    pub p_filesz: u32,
    pub p_memsz: u32,
    pub p_flags: u32,
}

impl ProgramHeader {
    ghost use Rattle.image_elf.specs.Elf.{header_at};

    /// The program header at an offset.
    pub fn read(file: &[u8], at: usize) -> ProgramHeader
        requires { at + 32 ≤ length file.now }
        ensures { result ≡ header_at file.now at }
    {
        ProgramHeader {
            p_type: word_at(file, at),
            p_offset: word_at(file, at + 4),
            p_vaddr: word_at(file, at + 8),
            p_filesz: word_at(file, at + 16),
            p_memsz: word_at(file, at + 20),
            p_flags: word_at(file, at + 24),
        }
    }
}
