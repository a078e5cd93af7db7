// Where a segment lies, and which it is: what the search for overlaps keeps of a segment.
ghost use Rattle.std.specs.Prelude.{◌≡◌, ◌+◌};
ghost use Rattle.std.specs.List.{find};
ghost use Rattle.image_load.specs.Overlap.{extent_of, shares_byte};

use image_elf::Segment;

/// The addresses of a segment, `size` from `addr` on, with the number of its image and its index there.
#[derive(Clone, Copy, Debug, PartialEq, Eq)]
pub struct Extent {
    pub image: u32,
    pub segment: u32,
    pub addr: u32,
    pub size: u32,
}

impl Extent {
    /// The extent of a segment of an image.
    pub fn of(image: u32, segment: &Segment) -> Extent
        ensures { result ≡ extent_of image segment.now }
    {
        Extent {
            image,
            segment: segment.index,
            addr: segment.addr,
            size: segment.size,
        }
    }

    /// The address after the last, at most 2^33.
    fn end(self) -> u64
        ensures { result ≡ self.addr + self.size }
    {
        self.addr as u64 + self.size as u64
    }

    /// Whether some byte lies in both.
    pub fn shares_byte(self, other: Extent) -> bool
        ensures { result ≡ shares_byte self other }
    {
        (self.addr.max(other.addr) as u64) < self.end().min(other.end())
    }
}

/// The first extent that shares a byte with this one.
pub fn first_sharing(extents: &[Extent], extent: Extent) -> Option<Extent>
    ensures { result ≡ find (shares_byte extent) extents.now }
{
    extents
        .iter()
        .copied()
        .find(|other| extent.shares_byte(*other))
}
