// RAM while images are laid into it, one segment after the other.
ghost use Rattle.std.specs.Prelude.{◌≡◌, ◌≢◌, ℕ, ◌+◌, ◌≤◌, true, List, [], ◌∷◌, ◌++◌, Some, None, length, vec_len, ◌<◌, IfOk, OnOk, IfErr};
ghost use Rattle.std.specs.List.{find};
ghost use Rattle.image_load.specs.declared.fault.LoadFault.TheVariants.{Memory};

use crate::extent::{Extent, first_sharing};
use crate::fault::LoadFault;
use crate::loaded::Loaded;
use crate::ram::{code_place, is_free, mark, write_at};
use image_elf::{Image, Segment};
use std::alloc::{AllocError, Global};
use tcc_base::Config;

/// An image's segments.
fn segments<'a, 'b>(image: &'b Image<'a>) -> &'b [Segment<'a>]
    ensures { result.now ≡ image.now.segments }
{
    &image.segments.items
}

/// What a segment holds of its file.
fn contents<'a>(segment: &Segment<'a>) -> &'a [u8]
    ensures { result.now ≡ segment.now.bytes }
{
    segment.bytes.items
}

/// The bytes of RAM with two marks for each, whether it lies in a segment and whether in an executable one, and the extents
/// of the segments so far. The marks find out in time of a segment's size whether it overlaps; the extents say which.
#[derive(Debug, Drop)]
pub struct Layout {
    config: Config,
    bytes: Vec<u8>,
    taken: Vec<bool>,
    code: Vec<bool>,
    extents: Vec<Extent>,
    ghost bytes_len: { length bytes.items ≡ config.ram },
    ghost taken_len: { length taken.items ≡ config.ram },
    ghost code_len: { length code.items ≡ config.ram },
}

impl Layout {
    ghost use Rattle.image_load.specs.Faults.{is_in_ram, is_entry, segment_fault, image_fault};
    ghost use Rattle.image_load.specs.Overlap.{Laid, laid, segments_laid, extents_laid, extent_of, shares_byte};
    ghost use Rattle.image_load.specs.Layout.{HasFilled, IsLaid};
    ghost use Rattle.image_elf.specs.Elf.{IsWithinSizes};

    /// RAM with no segments: all bytes are zero.
    pub fn new(alloc: Global, config: &Config) -> Result<Layout, AllocError>
        ensures laid { IfOk result (λ layout. IsLaid layout []) }
        ensures config { IfOk result (λ layout. layout.config ≡ config.now) }
    {
        let size = 4 * config.words() as usize;
        Ok(Layout {
            config: *config,
            bytes: vec![in alloc; 0; size]?,
            taken: vec![in alloc; false; size]?,
            code: vec![in alloc; false; size]?,
            extents: Vec::new(alloc),
        })
    }

    /// Whether a segment lies wholly in RAM, as one of size 0 always does.
    fn has_room_for(&self, segment: &Segment) -> bool
        ensures { result ≡ is_in_ram self.now.config segment.now }
    {
        let base = self.config.base() as u64;
        let end = base + 4 * self.config.words() as u64;
        let addr = segment.addr as u64;
        segment.size == 0 || base <= addr && addr + segment.size as u64 <= end
    }

    /// The earliest of the segments so far that shares a byte with one that lies in RAM.
    fn earliest_sharing(&self, image: u32, segment: &Segment) -> Option<Extent>
        requires { is_in_ram self.now.config segment.now ≡ true }
        ensures { (earlier : List Laid) → IsLaid self.now earlier →
            result ≡ find (shares_byte (extent_of image segment.now)) (extents_laid earlier) }
    {
        if segment.size == 0 {
            return None;
        }
        let first = (segment.addr - self.config.base()) as usize;
        if is_free(&self.taken[first..first + segment.size as usize]) {
            return None;
        }
        first_sharing(&self.extents, Extent::of(image, segment))
    }

    /// Writes a segment's bytes, which share none with the segments so far, and marks them.
    fn fill(&mut self, segment: &Segment)
        requires room { is_in_ram self.old.config segment.now ≡ true }
        requires within { length segment.now.bytes ≤ segment.now.size }
        ensures filled { (image : ℕ) (earlier : List Laid) → HasFilled self.old (segments_laid earlier) →
            find (shares_byte (extent_of image segment.now)) (extents_laid earlier) ≡ None →
            HasFilled self.new (segments_laid earlier ++ segment.now ∷ []) }
        ensures config { self.new.config ≡ self.old.config }
        ensures extents { self.new.extents.items ≡ self.old.extents.items }
    {
        if segment.size == 0 {
            return;
        }
        let first = (segment.addr - self.config.base()) as usize;
        let end = first + segment.size as usize;
        write_at(self.bytes.as_mut_slice(), first, contents(segment));
        mark(self.taken.as_mut_slice(), first, end, true);
        mark(self.code.as_mut_slice(), first, end, segment.exec);
    }

    /// Lays a segment of an image into RAM, or answers why it can't be.
    fn lay_segment(&mut self, image: u32, segment: &Segment) -> Result<(), LoadFault>
        requires { length segment.now.bytes ≤ segment.now.size }
        ensures passed { OnOk result ((earlier : List Laid) → IsLaid self.old earlier →
            segment_fault self.old.config image earlier segment.now ≡ None) }
        ensures laid { OnOk result ((earlier : List Laid) → IsLaid self.old earlier →
            IsLaid self.new (earlier ++ laid image (segment.now ∷ []))) }
        ensures fault { IfErr result (λ fault. fault ≢ Memory → (earlier : List Laid) → IsLaid self.old earlier →
            segment_fault self.old.config image earlier segment.now ≡ Some fault) }
        ensures config { self.new.config ≡ self.old.config }
    {
        if !self.has_room_for(segment) {
            return Err(LoadFault::Outside {
                image,
                segment: segment.index,
            });
        }
        if let Some(other) = self.earliest_sharing(image, segment) {
            return Err(LoadFault::Overlap {
                image,
                segment: segment.index,
                other_image: other.image,
                other_segment: other.segment,
            });
        }
        self.extents.push(Extent::of(image, segment))?;
        self.fill(segment);
        Ok(())
    }

    /// Whether a program may begin at an address: a multiple of four with four bytes of code.
    fn is_entry(&self, entry: u32) -> bool
        ensures { (earlier : List Laid) → IsLaid self.now earlier →
            result ≡ is_entry (segments_laid earlier) entry }
    {
        entry % 4 == 0 && code_place(self.config.base(), &self.code, entry).is_some()
    }

    /// Lays an image into RAM, its segments in order, or answers why it can't be.
    pub fn lay_image(&mut self, number: u32, image: &Image) -> Result<(), LoadFault>
        requires { IsWithinSizes image.now }
        ensures passed { OnOk result ((earlier : List Laid) → IsLaid self.old earlier →
            image_fault self.old.config number earlier image.now ≡ None) }
        ensures laid { OnOk result ((earlier : List Laid) → IsLaid self.old earlier →
            IsLaid self.new (earlier ++ laid number image.now.segments)) }
        ensures fault { IfErr result (λ fault. fault ≢ Memory → (earlier : List Laid) → IsLaid self.old earlier →
            image_fault self.old.config number earlier image.now ≡ Some fault) }
        ensures config { self.new.config ≡ self.old.config }
    {
        for segment in segments(image) {
            self.lay_segment(number, segment)?;
        }
        if !self.is_entry(image.entry) {
            return Err(LoadFault::Entry { image: number });
        }
        Ok(())
    }

    /// The loaded memory of these images, with their entries.
    pub fn into_loaded(self, entries: Vec<u32>) -> Loaded
        requires some { 0 < vec_len entries }
        requires few { vec_len entries ≤ 16 }
        ensures { result
            ≡ record { settings = self.config; ram = self.bytes.items; code = self.code.items; entries = entries.items } }
    {
        let Layout {
            config,
            bytes,
            taken: _,
            code,
            extents: _,
        } = self;
        Loaded::new(config, bytes, code, entries)
    }
}
