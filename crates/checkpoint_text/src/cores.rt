// The tables of cores, as text. After want of memory a text may have more behind its old bytes.
ghost use Rattle.std.specs.Prelude.{◌≡◌, ◌∷◌, ◌++◌, ℕ, OnOk, Some, codes, map, slice_get};
ghost use Rattle.row_text.specs.Rows.{rows_text};
ghost use Rattle.tcc_base.specs.declared.names.Tid.{Tid as TidData};
ghost use Rattle.core_node.specs.declared.state.Core.{Core as CoreData};
ghost use Rattle.net_core.specs.Machine.{settings_of};
ghost use Rattle.checkpoint_text.specs.Cores.{core_numbers, core_tables, frame_rows, spilled_numbers};
ghost use Rattle.checkpoint_text.specs.Laws.{HaveOwnCaches};
ghost use Rattle.checkpoint_text.specs.Numbers.{byte_numbers, load_numbers, local_numbers, stored_numbers};
ghost use Rattle.checkpoint_text.specs.Tables.{all, each, tables_rows};
ghost use Rattle.checkpoint_text.specs.Written.{numbered_text, table_text};

use crate::core_rows::{push_after, push_core, push_frame, push_local, push_spilled_line};
use crate::entries::{push_bytes, push_loads, push_stores};
use core_node::CoreNode;
use net_core::System;
use overflow_buf::OverflowBuf;
use spec_cache::SpecCache;
use tcc_base::{List, NoMemory};

fn push_core_table(text: &mut List<u8>, cores: &[CoreNode]) -> Result<(), NoMemory>
    ensures { OnOk result (text.new ≡ text.old ++ numbered_text (codes "core") (each core_numbers) 0 cores.now) }
{
    for (k, node) in cores.iter().enumerate() {
        push_core(text, k as u64, node.core())?;
    }
    Ok(())
}

fn push_state_table(text: &mut List<u8>, cores: &[CoreNode]) -> Result<(), NoMemory>
    ensures { OnOk result (text.new
        ≡ text.old ++ numbered_text (codes "state") (each (λ (c : CoreData). local_numbers c.state)) 0 cores.now) }
{
    for (k, node) in cores.iter().enumerate() {
        push_local(text, b"state", k as u64, &node.core().state)?;
    }
    Ok(())
}

fn push_saved_table(text: &mut List<u8>, cores: &[CoreNode]) -> Result<(), NoMemory>
    ensures { OnOk result (text.new
        ≡ text.old ++ numbered_text (codes "saved") (each (λ (c : CoreData). local_numbers c.check)) 0 cores.now) }
{
    for (k, node) in cores.iter().enumerate() {
        push_local(text, b"saved", k as u64, &node.check().restore())?;
    }
    Ok(())
}

fn push_after_table(text: &mut List<u8>, cores: &[CoreNode]) -> Result<(), NoMemory>
    ensures { OnOk result (text.new
        ≡ text.old ++ numbered_text (codes "after") (each (λ (c : CoreData). map (λ (t : TidData). t.0) c.after)) 0 cores.now) }
{
    for (k, node) in cores.iter().enumerate() {
        push_after(text, k as u64, &node.core().after)?;
    }
    Ok(())
}

/// Appends a row for each way of a core's cache that holds a line.
fn push_frames(text: &mut List<u8>, k: u64, cache: &SpecCache) -> Result<(), NoMemory>
    ensures { OnOk result (text.new
        ≡ text.old ++ table_text (codes "frame") (map (λ row. k ∷ row) (frame_rows 0 cache.now.frames))) }
{
    for way in 0..cache.way_count() {
        if let Some(frame) = cache.way_at(way) {
            push_frame(text, k, way as u64, &frame)?;
        }
    }
    Ok(())
}

fn push_frame_table(text: &mut List<u8>, cores: &[CoreNode]) -> Result<(), NoMemory>
    ensures caches { OnOk result (HaveOwnCaches cores.now) }
    ensures text { OnOk result (text.new ≡ text.old
        ++ numbered_text (codes "frame") (all (λ (c : CoreData). frame_rows 0 c.cache.frames) (λ row. row)) 0 cores.now) }
{
    for (k, node) in cores.iter().enumerate() {
        push_frames(text, k as u64, node.cache())?;
    }
    Ok(())
}

/// Appends a row for each line of which a core has spilled words.
fn push_spilled(text: &mut List<u8>, k: u64, spilled: &OverflowBuf) -> Result<(), NoMemory>
    ensures { OnOk result (text.new
        ≡ text.old ++ table_text (codes "spilled") (map (λ y. k ∷ spilled_numbers y) spilled.now)) }
{
    for i in 0..spilled.len() {
        if let Some(entry) = spilled.entry(i) {
            push_spilled_line(text, k, &entry)?;
        }
    }
    Ok(())
}

fn push_spilled_table(text: &mut List<u8>, cores: &[CoreNode]) -> Result<(), NoMemory>
    ensures { OnOk result (text.new
        ≡ text.old ++ numbered_text (codes "spilled") (all (λ (c : CoreData). c.spilled) spilled_numbers) 0 cores.now) }
{
    for (k, node) in cores.iter().enumerate() {
        push_spilled(text, k as u64, &node.core().spilled)?;
    }
    Ok(())
}

fn push_load_table(text: &mut List<u8>, cores: &[CoreNode]) -> Result<(), NoMemory>
    ensures { OnOk result (text.new
        ≡ text.old ++ numbered_text (codes "load") (all (λ (c : CoreData). c.loads) load_numbers) 0 cores.now) }
{
    for (k, node) in cores.iter().enumerate() {
        push_loads(text, b"load", k as u64, &node.core().loads.items)?;
    }
    Ok(())
}

fn push_store_table(text: &mut List<u8>, cores: &[CoreNode]) -> Result<(), NoMemory>
    ensures { OnOk result (text.new
        ≡ text.old ++ numbered_text (codes "store") (all (λ (c : CoreData). c.stores) stored_numbers) 0 cores.now) }
{
    for (k, node) in cores.iter().enumerate() {
        push_stores(text, b"store", k as u64, &node.core().stores.items)?;
    }
    Ok(())
}

fn push_byte_table(text: &mut List<u8>, cores: &[CoreNode]) -> Result<(), NoMemory>
    ensures { OnOk result (text.new
        ≡ text.old ++ numbered_text (codes "byte") (all (λ (c : CoreData). c.console) byte_numbers) 0 cores.now) }
{
    for (k, node) in cores.iter().enumerate() {
        push_bytes(text, b"byte", k as u64, &node.core().console.items)?;
    }
    Ok(())
}

/// Appends the tables of all cores. It takes time in the caches' ways and for each byte that it writes. After want of memory the text
/// may have more behind its old bytes.
pub fn push_cores(text: &mut List<u8>, system: &System) -> Result<(), NoMemory>
    ensures caches { OnOk result ((c : ℕ) (x : CoreData) → slice_get system.now.cores.cores c ≡ Some x
        → x.cache.config ≡ settings_of system.now) }
    ensures text { OnOk result (text.new ≡ text.old ++ rows_text (tables_rows (core_tables system.now.cores.cores))) }
{
    let cores = system.all_cores();
    push_core_table(text, cores)?;
    push_state_table(text, cores)?;
    push_saved_table(text, cores)?;
    push_after_table(text, cores)?;
    push_frame_table(text, cores)?;
    push_spilled_table(text, cores)?;
    push_load_table(text, cores)?;
    push_store_table(text, cores)?;
    push_byte_table(text, cores)?;
    Ok(())
}
