// The records of a core of a machine, as it is, compared with those that were kept.
ghost use Rattle.std.specs.Prelude.{◌≡◌, ◌<◌, ◌++◌, ◌∷◌, [], IfOk, OnOk, get_or, length, map, set, string_bytes};
ghost use Rattle.std.specs.List.{flat_map};
ghost use Rattle.rules_tcc.specs.Seen.{numbers};
ghost use Rattle.bus_tcc.specs.Machine.{bus_settings_of};
ghost use Rattle.watch_state.specs.Plain.{record_of};
ghost use Rattle.watch_changes.specs.Changes.{all_lines, change_lines, changes};
ghost use Rattle.bus_changes.specs.Plain.{core_records_now};

use bus_state::add_bus_core;
use bus_tcc::BusSystem;
use std::alloc::{AllocError, Global};
use tcc_base::{CoreId, List, NoMemory};
use watch_changes::push_changes;
use watch_state::Record;

pub(crate) fn fresh_core(
    alloc: Global,
    system: &BusSystem,
    core: CoreId,
) -> Result<List<Record>, AllocError>
    requires { core.0 < (bus_settings_of system.now).cores }
    ensures { IfOk result (λ fresh. map record_of fresh ≡ core_records_now system.now core.0) }
{
    let mut fresh = List::new(alloc);
    match add_bus_core(&mut fresh, system, core) {
        Ok(()) => Ok(fresh),
        Err(NoMemory) => Err(AllocError),
    }
}

/// All records of a list are new.
#[tactic(auto, unfolding(watch_changes::specs::Changes::changes))]
fn push_all(text: &mut String, fresh: &[Record]) -> Result<(), AllocError>
    ensures { OnOk result (string_bytes text.new ≡ string_bytes text.old ++ all_lines (map record_of fresh.now)) }
{
    push_changes(text, &[], fresh)
}

/// The records of each core, and their lines.
#[tactic(auto, unfolding(rules_maps::specs::Words::those))]
pub(crate) fn begin_cores(
    alloc: Global,
    text: &mut String,
    system: &BusSystem,
) -> Result<List<List<Record>>, AllocError>
    ensures kept { IfOk result (λ lists. map (map record_of) lists
        ≡ map (core_records_now system.now) (numbers (bus_settings_of system.now).cores)) }
    ensures told { OnOk result (string_bytes text.new ≡ string_bytes text.old
        ++ flat_map (λ c. all_lines (core_records_now system.now c)) (numbers (bus_settings_of system.now).cores)) }
{
    let mut lists = List::new(alloc);
    for core in 0..system.config().cores() {
        let fresh = fresh_core(alloc, system, CoreId(core))?;
        push_all(text, &fresh.items)?;
        keep(&mut lists, fresh)?;
    }
    Ok(lists)
}

/// One list more.
fn keep(lists: &mut List<List<Record>>, fresh: List<Record>) -> Result<(), AllocError>
    ensures { OnOk result (lists.new ≡ lists.old ++ fresh ∷ []) }
{
    match lists.push(fresh) {
        Ok(()) => Ok(()),
        Err(NoMemory) => Err(AllocError),
    }
}

/// The changes from the kept records of a core to the fresh ones, which are kept from now on.
fn renew(text: &mut String, kept: &mut List<Record>, fresh: List<Record>) -> Result<(), AllocError>
    ensures told { OnOk result (string_bytes text.new ≡ string_bytes text.old
        ++ change_lines (changes (map record_of kept.old) (map record_of fresh))) }
    ensures kept { OnOk result (kept.new ≡ fresh) }
{
    push_changes(text, &kept.items, &fresh.items)?;
    *kept = fresh;
    Ok(())
}

/// The same of one of several lists.
fn renew_in(
    text: &mut String,
    lists: &mut [List<Record>],
    place: u8,
    fresh: List<Record>,
) -> Result<(), AllocError>
    requires { place < length lists.old }
    ensures told { OnOk result (string_bytes text.new ≡ string_bytes text.old
        ++ change_lines (changes (map record_of (get_or lists.old place [])) (map record_of fresh))) }
    ensures kept { OnOk result (lists.new ≡ set lists.old place fresh) }
{
    let kept = &mut lists[place as usize];
    renew(text, kept, fresh)
}

/// The same.
pub(crate) fn renew_at(
    text: &mut String,
    lists: &mut List<List<Record>>,
    place: u8,
    fresh: List<Record>,
) -> Result<(), AllocError>
    requires { place < length lists.old }
    ensures told { OnOk result (string_bytes text.new ≡ string_bytes text.old
        ++ change_lines (changes (map record_of (get_or lists.old place [])) (map record_of fresh))) }
    ensures kept { OnOk result (lists.new ≡ set lists.old place fresh) }
{
    renew_in(text, &mut lists.items, place, fresh)
}
