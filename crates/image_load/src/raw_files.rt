// Raw files as images, laid one after the other.
ghost use Rattle.std.specs.Prelude.{◌≡◌, ◌≢◌, ◌≤◌, Some, None, length, All, IfOk, OnOk, IfErr};
ghost use Rattle.image_elf.specs.Elf.{IsWithinSizes};
ghost use Rattle.image_load.specs.Raw.{raw_image, raw_images, raw_fault};
ghost use Rattle.image_load.specs.declared.fault.LoadFault.TheVariants.{Memory};

use crate::fault::LoadFault;
use image_elf::{Bytes, Image, Segment};
use std::alloc::{AllocError, Global};
use tcc_base::{Config, List};

/// The image of a raw file that begins at an address: one executable segment, with its entry at its first byte.
fn image_at<'a>(
    alloc: Global,
    addr: u32,
    size: u32,
    file: &'a [u8],
) -> Result<Image<'a>, AllocError>
    requires { size ≡ length file.now }
    ensures value { IfOk result (λ image. image ≡ raw_image addr file.now) }
    ensures within { IfOk result IsWithinSizes }
{
    let mut segments = Vec::new(alloc);
    segments.push(Segment {
        index: 0,
        addr,
        bytes: Bytes { items: file },
        size,
        exec: true,
    })?;
    Ok(Image {
        entry: addr,
        segments: List { items: segments },
    })
}

/// A file's bytes.
fn bytes(file: &List<u8>) -> &[u8]
    ensures { result.now ≡ file.now }
{
    &file.items
}

/// The images of 1 to 16 raw files, or the first file that doesn't fit. The first begins at the base of RAM, each next one at
/// the first multiple of 32 at or after the end of the one before. Each has one segment, index 0, which is executable, and its
/// entry at its first byte. `Outside` names the first file whose first address, or one of whose bytes, lies outside RAM. The images
/// stand in the files, and nothing is copied.
pub fn raw<'a>(
    alloc: Global,
    config: &Config,
    files: &'a [List<u8>],
) -> Result<Vec<Image<'a>>, LoadFault>
    requires some { 1 ≤ length files.now }
    requires few { length files.now ≤ 16 }
    ensures images { IfOk result (λ images. images.items ≡ raw_images config.now.base files.now) }
    ensures count { IfOk result (λ images. length images.items ≡ length files.now) }
    ensures within { IfOk result (λ images. All IsWithinSizes images.items) }
    ensures accepted { OnOk result (raw_fault config.now 0 config.now.base files.now ≡ None) }
    ensures fault { IfErr result (λ fault. fault ≢ Memory → raw_fault config.now 0 config.now.base files.now ≡ Some fault) }
{
    let mut images = Vec::new(alloc);
    let mut first = config.base() as u64;
    let end = first + 4 * config.words() as u64;
    for (number, file) in files.iter().enumerate() {
        let file = bytes(file);
        let past = first + file.len() as u64;
        if first >= end || past > end {
            return Err(LoadFault::Outside {
                image: number as u32,
                segment: 0,
            });
        }
        images.push(image_at(alloc, first as u32, file.len() as u32, file)?)?;
        first = past.next_multiple_of(32);
    }
    Ok(images)
}
