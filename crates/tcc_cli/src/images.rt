// The images of a command, from their files.
ghost use Rattle.std.specs.Prelude.{◌≡◌, ◌≢◌, ◌≤◌, length, map, All, IfOk, OnOk, IfErr, None};
ghost use Rattle.image_elf.specs.Elf.{IsWithinSizes, image_of};
ghost use Rattle.image_elf.specs.declared.fault.ElfFault.TheVariants.{Memory};
ghost use Rattle.image_load.specs.Contents.{started};
ghost use Rattle.tcc_cli.specs.Images.{images_of, start_of, elf_named, load_named, elf_fault, form_fault, fault_of};
ghost use Rattle.tcc_cli.specs.Reading.{RefusedImages};
ghost use Rattle.tcc_cli.specs.declared.refusal.Refusal.TheVariants as why;

use crate::refusal::{ImageFault, Refusal};
use image_elf::{ElfFault, Image, read_elf};
use image_load::{LoadFault, Loaded, load, raw};
use std::alloc::Global;
use tcc_base::{Config, List};

/// A file's bytes.
pub fn bytes(file: &List<u8>) -> &[u8]
    ensures { result.now ≡ file.now }
{
    &file.items
}

/// What a fault of the file of that number is to the program.
fn of_elf<'a>(number: u32, fault: ElfFault) -> Refusal<'a>
    ensures want { fault ≡ Memory → result ≡ why.Memory }
    ensures named { fault ≢ Memory → result ≡ why.Image (elf_named number fault) }
{
    if fault == ElfFault::Memory {
        Refusal::Memory
    } else {
        Refusal::Image(ImageFault::of_elf(number, fault))
    }
}

/// The images of ELF files, or the first file that isn't an image.
fn read_images<'a, 'b>(alloc: Global, files: &'b [List<u8>]) -> Result<Vec<Image<'b>>, Refusal<'a>>
    requires few { length files.now ≤ 16 }
    ensures images { IfOk result (λ images. images.items ≡ map image_of files.now) }
    ensures count { IfOk result (λ images. length images.items ≡ length files.now) }
    ensures within { IfOk result (λ images. All IsWithinSizes images.items) }
    ensures accepted { OnOk result (elf_fault 0 files.now ≡ None) }
    ensures refused { IfErr result (RefusedImages (elf_fault 0 files.now)) }
{
    let mut images = Vec::new(alloc);
    for (number, file) in files.iter().enumerate() {
        let image = match read_elf(alloc, bytes(file)) {
            Ok(image) => image,
            Err(fault) => return Err(of_elf(number as u32, fault)),
        };
        match images.push(image) {
            Ok(()) => {}
            Err(_) => return Err(Refusal::Memory),
        }
    }
    Ok(images)
}

/// What a fault of laying images is to the program.
fn of_load<'a>(fault: LoadFault) -> Refusal<'a>
    ensures { RefusedImages (load_named fault) result }
{
    match ImageFault::of_load(fault) {
        Some(fault) => Refusal::Image(fault),
        None => Refusal::Memory,
    }
}

/// The images that the files are.
#[tactic(auto, unfolding(crate::specs::Images::form_fault))]
fn images_from<'a, 'b>(
    alloc: Global,
    is_raw: bool,
    config: &Config,
    files: &'b [List<u8>],
) -> Result<Vec<Image<'b>>, Refusal<'a>>
    requires some { 1 ≤ length files.now }
    requires few { length files.now ≤ 16 }
    ensures images { IfOk result (λ images. images.items ≡ images_of is_raw config.now files.now) }
    ensures count { IfOk result (λ images. length images.items ≡ length files.now) }
    ensures within { IfOk result (λ images. All IsWithinSizes images.items) }
    ensures accepted { OnOk result (form_fault is_raw config.now files.now ≡ None) }
    ensures refused { IfErr result (RefusedImages (form_fault is_raw config.now files.now)) }
{
    if !is_raw {
        return read_images(alloc, files);
    }
    match raw(alloc, config, files) {
        Ok(images) => Ok(images),
        Err(fault) => Err(of_load(fault)),
    }
}

/// The memory that the files load, or the first of them that is no image.
pub fn load_files<'a>(
    alloc: Global,
    is_raw: bool,
    config: &Config,
    files: &[List<u8>],
) -> Result<Loaded, Refusal<'a>>
    requires some { 1 ≤ length files.now }
    requires few { length files.now ≤ 16 }
    ensures start { IfOk result (λ loaded. started loaded ≡ start_of is_raw config.now files.now) }
    ensures settings { IfOk result (λ loaded. loaded.settings ≡ config.now) }
    ensures accepted { OnOk result (fault_of is_raw config.now files.now ≡ None) }
    ensures refused { IfErr result (RefusedImages (fault_of is_raw config.now files.now)) }
{
    let images = match images_from(alloc, is_raw, config, files) {
        Ok(images) => images,
        Err(refusal) => return Err(refusal),
    };
    match load(alloc, config, &images) {
        Ok(loaded) => Ok(loaded),
        Err(fault) => Err(of_load(fault)),
    }
}
