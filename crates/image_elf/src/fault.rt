// Why a file isn't an image of the machine.
ghost use Rattle.std.specs.Prelude.{◌≡◌};
ghost use Rattle.image_elf.specs.Faults.{number_of, place_of};
ghost use Rattle.image_elf.specs.declared.fault.ElfFault.TheVariants.{Memory};

use std::alloc::{AllocError, AllocFailed};
use std::error::Error;
use std::fmt;

/// Why a file isn't an image, in the order in which the program numbers the causes.
#[derive(Clone, Copy, Debug, PartialEq, Eq)]
pub enum ElfFault {
    /// The file must have this many bytes.
    Short(u64),
    /// The file doesn't begin with ELF's magic number.
    NotElf,
    /// What stands at this offset isn't that of a 32-bit little-endian RISC-V file of ELF version 1.
    NotRv32(u64),
    /// The file isn't executable, but relocatable, shared or a core dump.
    Kind,
    /// The code is compressed.
    Compressed,
    /// The file has to be linked at run time.
    Dynamic,
    /// The segment of this program header is smaller than its part of the file, or ends beyond 32-bit addresses.
    BadSegment(u32),
    /// Out of memory for the image.
    Memory,
}

impl ElfFault {
    /// The fault's number, 1 to 8.
    pub fn number(self) -> u8
        ensures { result ≡ number_of self }
    {
        match self {
            ElfFault::Short(_) => 1,
            ElfFault::NotElf => 2,
            ElfFault::NotRv32(_) => 3,
            ElfFault::Kind => 4,
            ElfFault::Compressed => 5,
            ElfFault::Dynamic => 6,
            ElfFault::BadSegment(_) => 7,
            ElfFault::Memory => 8,
        }
    }

    /// The size, offset or index that the fault carries, and 0 where it carries none.
    pub fn place(self) -> u64
        ensures { result ≡ place_of self }
    {
        match self {
            ElfFault::Short(size) => size,
            ElfFault::NotRv32(offset) => offset,
            ElfFault::BadSegment(index) => index as u64,
            ElfFault::NotElf
            | ElfFault::Kind
            | ElfFault::Compressed
            | ElfFault::Dynamic
            | ElfFault::Memory => 0,
        }
    }
}

impl fmt::Display for ElfFault {
    fn fmt<W: fmt::Write>(&self, f: &mut fmt::Formatter<W>) -> fmt::Result {
        write!(f, "elf {} {}", self.number(), self.place())
    }
}

impl Error for ElfFault {}

impl<T: Drop> From<AllocFailed<T>> for ElfFault {
    ghost from_gives = { λ _ fault. fault ≡ Memory };

    fn from(_failed: AllocFailed<T>) -> ElfFault {
        ElfFault::Memory
    }
}

impl From<AllocError> for ElfFault {
    ghost from_gives = { λ _ fault. fault ≡ Memory };

    fn from(_error: AllocError) -> ElfFault {
        ElfFault::Memory
    }
}
