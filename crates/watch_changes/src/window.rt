// All records of a machine where a window begins, node by node, and then its messages in flight. Where memory runs out, the text holds a
// part of them.
ghost use Rattle.std.specs.Prelude.{◌≡◌, ◌<◌, ◌++◌, [], OnOk, string_bytes};
ghost use Rattle.std.specs.List.{flat_map};
ghost use Rattle.rules_maps.specs.Nodes.{Core, Dir, Vendor};
ghost use Rattle.rules_tcc.specs.Seen.{numbers};
ghost use Rattle.net_core.specs.Machine.{settings_of, start_of, world_of};
ghost use Rattle.watch_state.specs.Text.{state_records};
ghost use Rattle.watch_changes.specs.Changes.{all_lines, change_lines, changes};
ghost use Rattle.watch_changes.specs.Plain.{records_now};

use crate::lines::push_all_told;
use net_core::System;
use std::alloc::{AllocError, Global};
use tcc_base::{CoreId, DirId, List, NoMemory};
use watch_state::{add_core_of, add_directory_of, add_vendor, push_links};

#[tactic(auto, unfolding(crate::specs::Nodes::records_at))]
fn push_core(
    alloc: Global,
    text: &mut String,
    system: &System,
    core: CoreId,
) -> Result<(), AllocError>
    requires { core.0 < (settings_of system.now).cores }
    ensures { OnOk result (string_bytes text.new ≡ string_bytes text.old ++ all_lines (records_now system.now (Core core.0))) }
{
    let mut records = List::new(alloc);
    match add_core_of(&mut records, system, core) {
        Ok(()) => push_all_told(text, &records.items),
        Err(NoMemory) => Err(AllocError),
    }
}

#[tactic(auto, unfolding(crate::specs::Nodes::records_at))]
fn push_directory(
    alloc: Global,
    text: &mut String,
    system: &System,
    dir: DirId,
) -> Result<(), AllocError>
    requires { dir.0 < (settings_of system.now).dirs }
    ensures { OnOk result (string_bytes text.new ≡ string_bytes text.old ++ all_lines (records_now system.now (Dir dir.0))) }
{
    let mut records = List::new(alloc);
    match add_directory_of(&mut records, system, dir) {
        Ok(()) => push_all_told(text, &records.items),
        Err(NoMemory) => Err(AllocError),
    }
}

#[tactic(auto, unfolding(crate::specs::Nodes::records_at))]
fn push_vendor(alloc: Global, text: &mut String, system: &System) -> Result<(), AllocError>
    ensures { OnOk result (string_bytes text.new ≡ string_bytes text.old ++ all_lines (records_now system.now Vendor)) }
{
    let mut records = List::new(alloc);
    match add_vendor(&mut records, system.next_tid()) {
        Ok(()) => push_all_told(text, &records.items),
        Err(NoMemory) => Err(AllocError),
    }
}

#[tactic(auto, unfolding(rules_maps::specs::Words::those))]
fn push_cores(alloc: Global, text: &mut String, system: &System) -> Result<(), AllocError>
    ensures { OnOk result (string_bytes text.new ≡ string_bytes text.old
        ++ flat_map (λ c. all_lines (records_now system.now (Core c))) (numbers (settings_of system.now).cores)) }
{
    for core in 0..system.config().cores() {
        push_core(alloc, text, system, CoreId(core))?;
    }
    Ok(())
}

#[tactic(auto, unfolding(rules_maps::specs::Words::those))]
fn push_directories(alloc: Global, text: &mut String, system: &System) -> Result<(), AllocError>
    ensures { OnOk result (string_bytes text.new ≡ string_bytes text.old
        ++ flat_map (λ d. all_lines (records_now system.now (Dir d))) (numbers (settings_of system.now).dirs)) }
{
    for dir in 0..system.config().dirs() {
        push_directory(alloc, text, system, DirId(dir))?;
    }
    Ok(())
}

/// Appends the lines of all records of a machine, as it is, node by node, and then of the messages in flight, as where a window begins.
/// All that was sent stands on its links.
///
/// It takes time for the records of each node, for each line of RAM and directory, and for each pair of nodes and each message; and memory
/// for the records of one node and for the growth of the text, of which a part may stand there after want of memory.
pub fn begin(alloc: Global, text: &mut String, system: &System) -> Result<(), AllocError>
    requires { system.now.unsent ≡ [] }
    ensures { OnOk result (string_bytes text.new ≡ string_bytes text.old
        ++ change_lines (changes [] (state_records (start_of system.now) (world_of system.now)))) }
{
    push_cores(alloc, text, system)?;
    push_directories(alloc, text, system)?;
    push_vendor(alloc, text, system)?;
    push_links(text, " ", system)?;
    Ok(())
}
