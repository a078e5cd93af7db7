// What several tests load: the files of some words, and a machine of two cores with a program of two transactions.
ghost use Rattle.std.specs.Prelude.{◌≡◌, IfSome};

use image_load::{Loaded, load, raw};
use std::alloc::Global;
use std::test::Fail;
use tcc_base::{Config, List};

const IMAGE: [u8; 28] = [
    0x93, 0x82, 0x72, 0x00, // addi x5, x5, 7
    0x37, 0x03, 0x00, 0x80, // lui x6, 0x80000
    0x83, 0x23, 0x03, 0x04, // lw x7, 64(x6)
    0x23, 0x20, 0x53, 0x04, // sw x5, 64(x6)
    0x73, 0x00, 0x00, 0x00, // ecall: ends the transaction
    0x93, 0x08, 0xd0, 0x05, // addi x17, x0, 93
    0x73, 0x00, 0x00, 0x00, // ecall: halts with the core's number
];

// Two cores, 128 bytes of RAM from 0x80000000 on.
pub(crate) fn config() -> Option<Config>
    ensures { IfSome result (λ c. c.cores ≡ 2) }
{
    Config::new(2, 1, 16, 2, 0x8000_0000, 128).ok()
}

// The program on that machine, once for both cores.
pub(crate) fn loaded(alloc: Global) -> Option<Loaded>
    ensures { IfSome result (λ l. l.settings.cores ≡ 2) }
{
    let config = config()?;
    let file = List {
        items: IMAGE.to_vec(alloc).ok()?,
    };
    match raw(alloc, &config, &[file]) {
        Err(_) => None,
        Ok(images) => load(alloc, &config, &images).ok(),
    }
}

// The file of these words.
pub(crate) fn file(alloc: Global, words: &[u32]) -> Result<List<u8>, Fail> {
    let mut items = Vec::new(alloc);
    for word in words {
        items.extend_from_slice(&word.to_le_bytes())?;
    }
    Ok(List { items })
}
