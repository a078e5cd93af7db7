// Machines whose cores all execute one small image.
ghost use Rattle.std.specs.Prelude.{◌≡◌, IfOk};

use image_load::{Loaded, load, raw};
use std::alloc::Global;
use std::test::Fail;
use tcc_base::{Config, List};

/// Adds 1 to the word at 80000040, a hundred times, each time in a transaction, and halts.
const ADDS: [u8; 40] = [
    0x37, 0x03, 0x00, 0x80, // lui x6,0x80000
    0x93, 0x03, 0x40, 0x06, // addi x7,x0,100
    0x83, 0x22, 0x03, 0x04, // lw x5,64(x6)
    0x93, 0x82, 0x12, 0x00, // addi x5,x5,1
    0x23, 0x20, 0x53, 0x04, // sw x5,64(x6)
    0x73, 0x00, 0x00, 0x00, // ecall, which ends the transaction
    0x93, 0x83, 0xf3, 0xff, // addi x7,x7,-1
    0xe3, 0x96, 0x03, 0xfe, // bne x7,x0,-20
    0x93, 0x08, 0xd0, 0x05, // addi x17,x0,93
    0x73, 0x00, 0x00, 0x00, // ecall, which halts
];

/// More turns of nodes than two cores that add need.
pub(crate) const TURNS: u32 = 1_000_000;

/// The image in the memory of such a machine.
pub(crate) fn loaded(alloc: Global, config: &Config, image: &[u8]) -> Result<Loaded, Fail>
    ensures { IfOk result (λ loaded. loaded.settings ≡ config.now) }
{
    let file = List {
        items: image.to_vec(alloc)?,
    };
    Ok(load(alloc, config, &raw(alloc, config, &[file])?)?)
}

/// Two cores that add, and so many directories.
pub(crate) fn adding(alloc: Global, dirs: u64) -> Result<Loaded, Fail> {
    let config = Config::new(2, dirs, 16, 2, 0x8000_0000, 1_024)?;
    loaded(alloc, &config, &ADDS)
}
