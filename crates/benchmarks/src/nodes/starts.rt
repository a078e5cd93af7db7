// A memory with a program, and nodes that start and do nothing.
ghost use Rattle.std.specs.Prelude.{◌≡◌, IfOk};

use core_node::CoreNode;
use directory::Directory;
use image_load::{LoadFault, Loaded, load, raw};
use rv_code::Code;
use std::alloc::Global;
use tcc_base::{Config, CoreId, DirId, List, NoMemory};

/// A memory that begins with this program. One that doesn't fit counts as want of memory.
pub fn loaded(alloc: Global, config: &Config, items: Vec<u8>) -> Result<Loaded, NoMemory>
    ensures { IfOk result (λ l. l.settings ≡ config.now) }
{
    let files = [List { items }];
    let loaded = match raw(alloc, config, &files) {
        Ok(images) => load(alloc, config, &images),
        Err(fault) => Err(fault),
    };
    loaded.map_err(|_: LoadFault| NoMemory)
}

/// One ECALL.
fn smallest(alloc: Global, config: &Config) -> Result<Loaded, NoMemory>
    ensures { IfOk result (λ l. l.settings ≡ config.now) }
{
    let bytes = [0x73u8, 0, 0, 0].to_vec(alloc).map_err(|_| NoMemory)?;
    loaded(alloc, config, bytes)
}

/// Starts so many cores, 64 at most, and gives their number.
pub fn start_cores(alloc: Global, config: &Config, count: u64) -> Result<u64, NoMemory> {
    let code = Code::new(alloc, smallest(alloc, config)?)?;
    let mut cores = Vec::new(alloc);
    for number in 0..count.min(64) as u8 {
        let id = CoreId(number);
        let core = CoreNode::start(alloc, config, id, code.entry(id))?;
        cores.push(core).map_err(|_| NoMemory)?;
    }
    Ok(cores.len() as u64)
}

/// Starts the machine's one directory so often, 64 times at most, and gives their number.
pub fn start_dirs(alloc: Global, config: &Config, count: u64) -> Result<u64, NoMemory> {
    let memory = smallest(alloc, config)?;
    let mut dirs = Vec::new(alloc);
    for _ in 0..count.min(64) {
        if config.dirs() > 0 {
            let dir = Directory::start(alloc, config, &memory, DirId(0))?;
            dirs.push(dir).map_err(|_| NoMemory)?;
        }
    }
    Ok(dirs.len() as u64)
}
