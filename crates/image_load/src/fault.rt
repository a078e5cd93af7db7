// Why images can't be laid into RAM.
ghost use Rattle.std.specs.Prelude.{◌≡◌};
ghost use Rattle.image_load.specs.Print.{image_of, number_of, place_of};
ghost use Rattle.image_load.specs.declared.fault.LoadFault.TheVariants.{Memory};

use std::alloc::{AllocError, AllocFailed};
use std::error::Error;
use std::fmt;

/// Why images can't be laid into RAM, in the order in which the program numbers the causes. Images are numbered from 0, and
/// a segment is named by its index.
#[derive(Clone, Copy, Debug, PartialEq, Eq)]
pub enum LoadFault {
    /// The segment, or a raw file, doesn't lie wholly in RAM.
    Outside {
        image: u32,
        segment: u32,
    },
    /// The segment shares a byte with an earlier one, of which the earliest is named.
    Overlap {
        image: u32,
        segment: u32,
        other_image: u32,
        other_segment: u32,
    },
    /// The entry isn't a multiple of four, or one of its four bytes isn't code.
    Entry {
        image: u32,
    },
    /// Out of memory for RAM or an image.
    Memory,
}

impl LoadFault {
    /// The number of the image that is at fault; None for `Memory`.
    pub fn image(self) -> Option<u32>
        ensures { result ≡ image_of self }
    {
        match self {
            LoadFault::Outside { image, .. }
            | LoadFault::Overlap { image, .. }
            | LoadFault::Entry { image } => Some(image),
            LoadFault::Memory => None,
        }
    }

    /// The fault's number, 1 to 4.
    pub fn number(self) -> u8
        ensures { result ≡ number_of self }
    {
        match self {
            LoadFault::Outside { .. } => 1,
            LoadFault::Overlap { .. } => 2,
            LoadFault::Entry { .. } => 3,
            LoadFault::Memory => 4,
        }
    }

    /// The index of the later segment, and 0 for a fault that names none.
    pub fn place(self) -> u32
        ensures { result ≡ place_of self }
    {
        match self {
            LoadFault::Outside { segment, .. } | LoadFault::Overlap { segment, .. } => segment,
            LoadFault::Entry { .. } | LoadFault::Memory => 0,
        }
    }
}

impl fmt::Display for LoadFault {
    fn fmt<W: fmt::Write>(&self, f: &mut fmt::Formatter<W>) -> fmt::Result {
        write!(f, "load {} {}", self.number(), self.place())
    }
}

impl Error for LoadFault {}

impl<T: Drop> From<AllocFailed<T>> for LoadFault {
    ghost from_gives = { λ _ fault. fault ≡ Memory };

    fn from(_failed: AllocFailed<T>) -> LoadFault {
        LoadFault::Memory
    }
}

impl From<AllocError> for LoadFault {
    ghost from_gives = { λ _ fault. fault ≡ Memory };

    fn from(_error: AllocError) -> LoadFault {
        LoadFault::Memory
    }
}
