// What machines begin with: the memory that images of a few instructions are loaded to, and a machine at its start.
ghost use Rattle.std.specs.Prelude.{◌≡◌, IfOk};

use image_load::{Loaded, load, raw};
use net_core::System;
use rv_code::Code;
use std::alloc::Global;
use std::test::Fail;
use tcc_base::{Config, List};

// addi x17,x0,93; ecall
pub(crate) const HALTS: [u32; 2] = [0x05d0_0893, 0x0000_0073];

// addi x5,x0,7; lui x6,0x80000; sw x5,64(x6); ecall; addi x17,x0,93; ecall
pub(crate) const STORES_SEVEN_AND_HALTS: [u32; 6] = [
    0x0070_0293,
    0x8000_0337,
    0x0453_2023,
    0x0000_0073,
    0x05d0_0893,
    0x0000_0073,
];

// lui x6,0x80000; sw x11,96(x6); ecall
pub(crate) const STORES_24: [u32; 3] = [0x8000_0337, 0x06b3_2023, 0x0000_0073];

// lui x6,0x80000; lw x5,96(x6); sw x5,64(x6); ecall
pub(crate) const COPIES_24_TO_16: [u32; 4] = [0x8000_0337, 0x0603_2283, 0x0453_2023, 0x0000_0073];

// A store beside a copy of what it stores.
pub(crate) const STORE_AND_COPY: [&[u32]; 2] = [&STORES_24, &COPIES_24_TO_16];

// The file of these words.
fn file(alloc: Global, words: &[u32]) -> Result<List<u8>, Fail> {
    let mut items = Vec::new(alloc);
    for word in words {
        items.extend_from_slice(&word.to_le_bytes())?;
    }
    Ok(List { items })
}

// What one image is loaded to.
pub(crate) fn one_loaded(alloc: Global, cfg: &Config, image: &[u32]) -> Result<Loaded, Fail>
    ensures { IfOk result (λ l. l.settings ≡ cfg.now) }
{
    let files = [file(alloc, image)?];
    let images = raw(alloc, cfg, &files)?;
    Ok(load(alloc, cfg, &images)?)
}

// What two images are loaded to.
fn two_loaded(alloc: Global, cfg: &Config, first: &[u32], second: &[u32]) -> Result<Loaded, Fail>
    ensures { IfOk result (λ l. l.settings ≡ cfg.now) }
{
    let files = [file(alloc, first)?, file(alloc, second)?];
    let images = raw(alloc, cfg, &files)?;
    Ok(load(alloc, cfg, &images)?)
}

// The memory of so many cores and directories that begin with these images in turn, or with the first alone where the second is empty:
// 65,536 bytes of RAM from 0x80000000 on, and caches of 16 sets of 2 ways.
pub(crate) fn loaded(
    alloc: Global,
    cores: u64,
    dirs: u64,
    images: [&[u32]; 2],
) -> Result<Loaded, Fail>
    ensures cores { IfOk result (λ l. l.settings.cores ≡ cores) }
    ensures dirs { IfOk result (λ l. l.settings.dirs ≡ dirs) }
    ensures ram { IfOk result (λ l. l.settings.ram ≡ 65536) }
{
    let cfg = Config::new(cores, dirs, 16, 2, 0x8000_0000, 65_536)?;
    let [first, second] = images;
    if second.is_empty() {
        return one_loaded(alloc, &cfg, first);
    }
    two_loaded(alloc, &cfg, first, second)
}

// A machine with that memory.
pub(crate) fn begun(
    alloc: Global,
    cores: u64,
    dirs: u64,
    images: [&[u32]; 2],
) -> Result<System, Fail>
    ensures none_taken { IfOk result (λ s. s.events ≡ 0) }
{
    let loaded = loaded(alloc, cores, dirs, images)?;
    Ok(System::start(alloc, &loaded)?)
}

// The code of this image, for so many cores and directories with 65,536 bytes of RAM from 0 on, and caches of 4 sets of one way.
pub(crate) fn code_of(alloc: Global, cores: u64, dirs: u64, image: &[u32]) -> Result<Code, Fail>
    ensures { IfOk result (λ c. c.settings.cores ≡ cores) }
{
    let cfg = Config::new(cores, dirs, 4, 1, 0, 65_536)?;
    Ok(Code::new(alloc, one_loaded(alloc, &cfg, image)?)?)
}
