// All nodes of a machine, the records of each appended to a text. Where memory runs out, the text holds a part of them.
ghost use Rattle.std.specs.Prelude.{◌≡◌, ◌++◌, ◌<◌, ◌∷◌, [], OnOk, string_bytes, map};
ghost use Rattle.std.specs.List.{All, flat_map};
ghost use Rattle.image_load.specs.Start.{first_ram};
ghost use Rattle.rules_maps.specs.Shape.{lines};
ghost use Rattle.rules_tcc.specs.Seen.{numbers};
ghost use Rattle.net_core.specs.Machine.{settings_of, start_of, world_of};
ghost use Rattle.watch_state.specs.Cores.{core_part, core_records};
ghost use Rattle.watch_state.specs.Directories.{directory_part, directory_records};
ghost use Rattle.watch_state.specs.Lines.{record_lines};
ghost use Rattle.watch_state.specs.Plain.{record_of};
ghost use Rattle.watch_state.specs.Records.{VendorIs};
ghost use Rattle.watch_state.specs.Text.{node_records};

use crate::attempts::add;
use crate::cores::{add_core, add_part_of_core};
use crate::directories::{add_directory, add_part};
use crate::lines::push_records;
use crate::records::Record;
use net_core::System;
use std::alloc::{AllocError, Global};
use tcc_base::{CoreId, DirId, LineAddr, List, NoMemory, Tid};

/// Appends the record of the vendor, with the TID that it gives next. After want of memory the list is as before.
pub fn add_vendor(records: &mut List<Record>, next: Tid) -> Result<(), NoMemory>
    ensures { OnOk result (map record_of records.new ≡ map record_of records.old ++ VendorIs next.0 ∷ []) }
{
    add(records, Record::VendorIs { next })
}

/// Appends the records of a core of the machine. It takes the time of `add_core`. After want of memory a part of them may stand there.
pub fn add_core_of(
    records: &mut List<Record>,
    system: &System,
    core: CoreId,
) -> Result<(), NoMemory>
    requires { core.0 < (settings_of system.now).cores }
    ensures { OnOk result (map record_of records.new ≡ map record_of records.old
        ++ core_records (settings_of system.now) core.0 ((world_of system.now).cores core.0)) }
{
    add_core(records, core, system.core(core))
}

/// Appends the records of a core of the machine, but of its frames only those of some sets. It takes time in its registers, the
/// directories and the ways of these sets, and in the lines of RAM only while it has spilled words. After want of memory a part of them may
/// stand there.
pub fn add_core_part(
    records: &mut List<Record>,
    system: &System,
    core: CoreId,
    sets: &[u16],
) -> Result<(), NoMemory>
    requires exists { core.0 < (settings_of system.now).cores }
    requires sets { All (λ x. x < (settings_of system.now).sets) sets.now }
    ensures { OnOk result (map record_of records.new ≡ map record_of records.old
        ++ core_part (settings_of system.now) core.0 sets.now ((world_of system.now).cores core.0)) }
{
    add_part_of_core(records, core, system.core(core), sets)
}

/// Appends the records of a directory of the machine. It takes the time of `add_directory`. After want of memory a part of them may stand
/// there.
pub fn add_directory_of(
    records: &mut List<Record>,
    system: &System,
    dir: DirId,
) -> Result<(), NoMemory>
    requires { dir.0 < (settings_of system.now).dirs }
    ensures { OnOk result (map record_of records.new ≡ map record_of records.old ++ directory_records
        (settings_of system.now) (first_ram (start_of system.now)) dir.0 ((world_of system.now).dirs dir.0)) }
{
    add_directory(records, dir, system.directory(dir), system.code())
}

/// Appends the records of a directory of the machine, but of what it knows of lines only that of some lines of RAM, and of the home words
/// only those of some. It takes time in these lines, and in the TIDs that the directory keeps as skipped. After want of memory a part of
/// them may stand there.
pub fn add_directory_part(
    records: &mut List<Record>,
    system: &System,
    dir: DirId,
    known: &[LineAddr],
    words: &[LineAddr],
) -> Result<(), NoMemory>
    requires exists { dir.0 < (settings_of system.now).dirs }
    requires known { All (λ l. l.0 < lines (settings_of system.now)) known.now }
    requires words { All (λ l. l.0 < lines (settings_of system.now)) words.now }
    ensures { OnOk result (map record_of records.new ≡ map record_of records.old ++ directory_part
        (settings_of system.now) (first_ram (start_of system.now)) dir.0 (map (λ l. l.0) known.now) (map (λ l. l.0) words.now)
        ((world_of system.now).dirs dir.0)) }
{
    add_part(
        records,
        dir,
        system.directory(dir),
        system.code(),
        known,
        words,
    )
}

fn push_core(
    text: &mut String,
    records: &mut List<Record>,
    id: CoreId,
    system: &System,
) -> Result<(), AllocError>
    requires { id.0 < (settings_of system.now).cores }
    ensures { OnOk result (string_bytes text.new ≡ string_bytes text.old
        ++ record_lines (core_records (settings_of system.now) id.0 ((world_of system.now).cores id.0))) }
{
    records.items.clear();
    add_core_of(records, system, id).map_err(|_| AllocError)?;
    push_records(text, &records.items)
}

fn push_directory(
    text: &mut String,
    records: &mut List<Record>,
    id: DirId,
    system: &System,
) -> Result<(), AllocError>
    requires { id.0 < (settings_of system.now).dirs }
    ensures { OnOk result (string_bytes text.new ≡ string_bytes text.old ++ record_lines
        (directory_records (settings_of system.now) (first_ram (start_of system.now)) id.0 ((world_of system.now).dirs id.0))) }
{
    records.items.clear();
    add_directory_of(records, system, id).map_err(|_| AllocError)?;
    push_records(text, &records.items)
}

fn push_vendor(text: &mut String, records: &mut List<Record>, next: Tid) -> Result<(), AllocError>
    ensures { OnOk result (string_bytes text.new ≡ string_bytes text.old ++ record_lines (VendorIs next.0 ∷ [])) }
{
    records.items.clear();
    add_vendor(records, next).map_err(|_| AllocError)?;
    push_records(text, &records.items)
}

#[tactic(auto, unfolding(rules_maps::specs::Words::those, crate::specs::Lines::record_lines))]
fn push_cores(
    text: &mut String,
    records: &mut List<Record>,
    system: &System,
) -> Result<(), AllocError>
    ensures { let sh = settings_of system.now in OnOk result (string_bytes text.new ≡ string_bytes text.old
        ++ record_lines (flat_map (λ c. core_records sh c ((world_of system.now).cores c)) (numbers sh.cores))) }
{
    for core in 0..system.config().cores() {
        push_core(text, records, CoreId(core), system)?;
    }
    Ok(())
}

#[tactic(auto, unfolding(rules_maps::specs::Words::those, crate::specs::Lines::record_lines))]
fn push_directories(
    text: &mut String,
    records: &mut List<Record>,
    system: &System,
) -> Result<(), AllocError>
    ensures { let sh = settings_of system.now in let first = first_ram (start_of system.now) in
        OnOk result (string_bytes text.new ≡ string_bytes text.old
        ++ record_lines (flat_map (λ d. directory_records sh first d ((world_of system.now).dirs d)) (numbers sh.dirs))) }
{
    for dir in 0..system.config().dirs() {
        push_directory(text, records, DirId(dir), system)?;
    }
    Ok(())
}

/// The records of all nodes. It takes memory for those of one.
pub(crate) fn push_nodes(
    alloc: Global,
    text: &mut String,
    system: &System,
) -> Result<(), AllocError>
    ensures { OnOk result (string_bytes text.new ≡ string_bytes text.old
        ++ record_lines (node_records (settings_of system.now) (first_ram (start_of system.now)) (world_of system.now))) }
{
    let mut records = List::new(alloc);
    push_cores(text, &mut records, system)?;
    push_directories(text, &mut records, system)?;
    push_vendor(text, &mut records, system.next_tid())?;
    Ok(())
}
