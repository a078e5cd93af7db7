// Reading the tables of cores. After an error cores may be half read.
ghost use Rattle.std.specs.Prelude.{◌≡◌};

use crate::core_fields::{
    Own, Placed, Spilled, frame_in_front, local_in_front, own_in_front, read_after,
    spilled_in_front,
};
use crate::fields::{Fault, byte_in_front, load_in_front, store_in_front};
use core_node::{Core, CoreNode};
use machine_parts::Parts;
use overflow_buf::OverflowBuf;
use reg_checkpoint::{Check, Regs, State};
use spec_cache::SpecCache;
use std::alloc::Global;
use tcc_base::{Config, CoreId, List, Load, NoMemory, Stored, Tid};

/// A core that holds this, and nothing beside it.
fn begun(alloc: Global, config: &Config, id: CoreId, own: Own) -> Result<Core, NoMemory> {
    let state = State::new(Regs::new(), 0);
    let cache = SpecCache::new(alloc, config)?;
    Ok(Core {
        config: *config,
        id,
        state,
        check: Check::save(&state),
        n: own.n,
        loads: List::new(alloc),
        stores: List::new(alloc),
        console: List::new(alloc),
        ended: own.ended,
        phase: own.phase,
        owing: own.owing,
        after: [Tid(0); 64],
        cache,
        spilled: OverflowBuf::new(alloc),
        awaited: own.awaited,
    })
}

/// Appends the core that holds this.
fn begin_core(
    alloc: Global,
    config: &Config,
    id: CoreId,
    own: Own,
    cores: &mut List<Core>,
) -> Result<(), NoMemory> {
    cores.push(begun(alloc, config, id, own)?)
}

/// Reads the rows of what each core holds once, and appends the cores.
fn read_core_table<'a>(
    alloc: Global,
    bytes: &'a [u8],
    config: &Config,
    cores: &mut List<Core>,
) -> Result<&'a [u8], Fault> {
    let mut rest = bytes;
    for k in 0..config.cores() {
        let Some((own, after)) = own_in_front(rest, k as u64) else {
            return Err(Fault::Row(rest.len()));
        };
        begin_core(alloc, config, CoreId(k), own, cores)?;
        rest = after;
    }
    Ok(rest)
}

/// Reads the rows of what the registers of each core hold.
fn read_state_table<'a>(bytes: &'a [u8], cores: &mut [Core]) -> Result<&'a [u8], Fault> {
    let mut rest = bytes;
    for (k, core) in cores.iter_mut().enumerate() {
        let Some((state, after)) = local_in_front(rest, b"state", k as u64) else {
            return Err(Fault::Row(rest.len()));
        };
        core.state = state;
        rest = after;
    }
    Ok(rest)
}

/// Reads the rows of what the last commit of each core left in its registers.
fn read_saved_table<'a>(bytes: &'a [u8], cores: &mut [Core]) -> Result<&'a [u8], Fault> {
    let mut rest = bytes;
    for (k, core) in cores.iter_mut().enumerate() {
        let Some((state, after)) = local_in_front(rest, b"saved", k as u64) else {
            return Err(Fault::Row(rest.len()));
        };
        core.check = Check::save(&state);
        rest = after;
    }
    Ok(rest)
}

/// Reads the rows of the TIDs of each core's last commits.
fn read_after_table<'a>(bytes: &'a [u8], cores: &mut [Core]) -> Result<&'a [u8], Fault> {
    let mut rest = bytes;
    for (k, core) in cores.iter_mut().enumerate() {
        let Some(after) = read_after(rest, k as u64, &mut core.after) else {
            return Err(Fault::Row(rest.len()));
        };
        rest = after;
    }
    Ok(rest)
}

/// Puts a frame into its way of the cache of core `k`. False where there is no such core or way, or the frame may not stand there; then
/// nothing is changed.
fn put_frame(cores: &mut [Core], k: u64, placed: &Placed) -> bool {
    let Some(core) = cores.get_mut(k as usize) else {
        return false;
    };
    let ways = core.config.ways() as u64;
    let set = placed.way / ways;
    set <= 0xffff
        && core
            .cache
            .restore_frame(set as u16, (placed.way % ways) as u8, &placed.frame)
}

/// Reads the rows of the frames of all caches.
fn read_frame_table<'a>(bytes: &'a [u8], cores: &mut [Core]) -> Result<&'a [u8], Fault> {
    let mut rest = bytes;
    while let Some((k, placed, after)) = frame_in_front(rest) {
        if !put_frame(cores, k, &placed) {
            return Err(Fault::Row(rest.len()));
        }
        rest = after;
    }
    Ok(rest)
}

/// Gives spilled words to core `k`. False where there is no such core; then nothing is changed, as after want of memory.
fn put_spilled(cores: &mut [Core], k: u64, of: &Spilled) -> Result<bool, NoMemory> {
    let Some(core) = cores.get_mut(k as usize) else {
        return Ok(false);
    };
    core.spilled.spill(of.line, of.mask, &of.words)?;
    Ok(true)
}

/// Reads the rows of all spilled lines.
fn read_spilled_table<'a>(bytes: &'a [u8], cores: &mut [Core]) -> Result<&'a [u8], Fault> {
    let mut rest = bytes;
    while let Some((k, spilled, after)) = spilled_in_front(rest) {
        if !put_spilled(cores, k, &spilled)? {
            return Err(Fault::Row(rest.len()));
        }
        rest = after;
    }
    Ok(rest)
}

/// Appends a load to those of core `k`. False where there is no such core; then nothing is changed, as after want of memory.
fn put_load(cores: &mut [Core], k: u64, load: Load) -> Result<bool, NoMemory> {
    let Some(core) = cores.get_mut(k as usize) else {
        return Ok(false);
    };
    core.loads.push(load)?;
    Ok(true)
}

/// Reads the rows of the loads of all attempts.
fn read_load_table<'a>(bytes: &'a [u8], cores: &mut [Core]) -> Result<&'a [u8], Fault> {
    let mut rest = bytes;
    while let Some((k, load, after)) = load_in_front(rest, b"load") {
        if !put_load(cores, k, load)? {
            return Err(Fault::Row(rest.len()));
        }
        rest = after;
    }
    Ok(rest)
}

/// Appends a store to those of core `k`. False where there is no such core; then nothing is changed, as after want of memory.
fn put_store(cores: &mut [Core], k: u64, store: Stored) -> Result<bool, NoMemory> {
    let Some(core) = cores.get_mut(k as usize) else {
        return Ok(false);
    };
    core.stores.push(store)?;
    Ok(true)
}

/// Reads the rows of the stores of all attempts.
fn read_store_table<'a>(bytes: &'a [u8], cores: &mut [Core]) -> Result<&'a [u8], Fault> {
    let mut rest = bytes;
    while let Some((k, store, after)) = store_in_front(rest, b"store") {
        if !put_store(cores, k, store)? {
            return Err(Fault::Row(rest.len()));
        }
        rest = after;
    }
    Ok(rest)
}

/// Appends a console byte to those of core `k`. False where there is no such core; then nothing is changed, as after want of memory.
fn put_byte(cores: &mut [Core], k: u64, byte: u8) -> Result<bool, NoMemory> {
    let Some(core) = cores.get_mut(k as usize) else {
        return Ok(false);
    };
    core.console.push(byte)?;
    Ok(true)
}

/// Reads the rows of the console bytes of all attempts.
fn read_byte_table<'a>(bytes: &'a [u8], cores: &mut [Core]) -> Result<&'a [u8], Fault> {
    let mut rest = bytes;
    while let Some((k, byte, after)) = byte_in_front(rest, b"byte") {
        if !put_byte(cores, k, byte)? {
            return Err(Fault::Row(rest.len()));
        }
        rest = after;
    }
    Ok(rest)
}

/// Reads the tables that have a row for each core, behind that of what it holds once.
fn read_long_tables<'a>(bytes: &'a [u8], cores: &mut [Core]) -> Result<&'a [u8], Fault> {
    let rest = read_state_table(bytes, cores)?;
    let rest = read_saved_table(rest, cores)?;
    read_after_table(rest, cores)
}

/// Reads the tables that have any number of rows for each core.
fn read_sparse_tables<'a>(bytes: &'a [u8], cores: &mut [Core]) -> Result<&'a [u8], Fault> {
    let rest = read_frame_table(bytes, cores)?;
    let rest = read_spilled_table(rest, cores)?;
    let rest = read_load_table(rest, cores)?;
    let rest = read_store_table(rest, cores)?;
    read_byte_table(rest, cores)
}

/// Reads all tables of cores, and appends the cores.
fn read_tables<'a>(
    alloc: Global,
    bytes: &'a [u8],
    config: &Config,
    cores: &mut List<Core>,
) -> Result<&'a [u8], Fault> {
    let rest = read_core_table(alloc, bytes, config, cores)?;
    let rest = read_long_tables(rest, &mut cores.items)?;
    read_sparse_tables(rest, &mut cores.items)
}

/// Puts a core among the parts. False where it is no core of this machine; then nothing is changed.
fn put_core(core: Core, parts: &mut Parts) -> bool
    ensures { parts.new.cores.code ≡ parts.old.cores.code }
{
    let id = core.id;
    match CoreNode::restored(core) {
        Some(node) => parts.restore_core(id, node),
        None => false,
    }
}

/// Takes the cores away and puts them among the parts. False where one is no core of this machine; then some may be put.
fn put_cores(cores: &mut List<Core>, parts: &mut Parts) -> bool
    ensures { parts.new.cores.code ≡ parts.old.cores.code }
{
    while let Some(core) = cores.pop() {
        if !put_core(core, parts) {
            return false;
        }
    }
    true
}

/// Reads the tables of cores, and puts the cores among the parts: what follows the tables.
///
/// `Row` of a row that isn't in its place or tells no value, and of the first where the tables tell something that is no core of this
/// machine. After an error some cores may be put. It takes time in the bytes, in the caches' ways, and a step a way of a set for each
/// frame; and memory for the cores.
pub(crate) fn read_cores<'a>(
    alloc: Global,
    bytes: &'a [u8],
    config: &Config,
    parts: &mut Parts,
) -> Result<&'a [u8], Fault>
    ensures { parts.new.cores.code ≡ parts.old.cores.code }
{
    let mut cores = List::new(alloc);
    let rest = read_tables(alloc, bytes, config, &mut cores)?;
    if !put_cores(&mut cores, parts) {
        return Err(Fault::Row(bytes.len()));
    }
    Ok(rest)
}
