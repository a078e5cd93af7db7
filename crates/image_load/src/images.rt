// Images as a loaded memory.
ghost use Rattle.std.specs.Prelude.{◌≡◌, ◌≢◌, ◌≤◌, Some, None, length, All, IfOk, OnOk, IfErr};
ghost use Rattle.image_elf.specs.Elf.{IsWithinSizes};
ghost use Rattle.image_load.specs.Contents.{started};
ghost use Rattle.image_load.specs.Faults.{load_fault};
ghost use Rattle.image_load.specs.Start.{start};
ghost use Rattle.image_load.specs.declared.fault.LoadFault.TheVariants.{Memory};

use crate::fault::LoadFault;
use crate::layout::Layout;
use crate::loaded::Loaded;
use image_elf::Image;
use std::alloc::Global;
use tcc_base::Config;

/// Lays 1 to 16 images into RAM, in order, or answers their first fault. The images are gone through in order, and the
/// segments of each in order:
///
/// | Test | Fault |
/// |---|---|
/// | the segment is empty or lies wholly in RAM | `Outside` |
/// | it shares no byte with an earlier segment, also of an earlier image | `Overlap`, with the earliest one |
/// | after the segments of an image: its entry is a multiple of four, and its four bytes lie in executable segments so far | `Entry` |
///
/// RAM outside the segments is zero, and so is what a segment has beyond its bytes. It takes time of the size of RAM.
pub fn load(alloc: Global, config: &Config, images: &[Image]) -> Result<Loaded, LoadFault>
    requires some { 1 ≤ length images.now }
    requires few { length images.now ≤ 16 }
    requires sizes { All IsWithinSizes images.now }
    ensures start { IfOk result (λ loaded. started loaded ≡ start config.now images.now) }
    ensures settings { IfOk result (λ loaded. loaded.settings ≡ config.now) }
    ensures accepted { OnOk result (load_fault config.now images.now ≡ None) }
    ensures fault { IfErr result (λ fault. fault ≢ Memory → load_fault config.now images.now ≡ Some fault) }
{
    let mut layout = Layout::new(alloc, config)?;
    let mut entries = Vec::new(alloc);
    for (number, image) in images.iter().enumerate() {
        layout.lay_image(number as u32, image)?;
        entries.push(image.entry)?;
    }
    Ok(layout.into_loaded(entries))
}
