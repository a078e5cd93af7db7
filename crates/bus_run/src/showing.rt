// What each event did as a text, with the records that changed below it.
ghost use Rattle.std.specs.Prelude.{◌≡◌, ◌<◌, ◌≤◌, ◌+◌, ◌++◌, [], IfOk, IsTrue, OnOk, if◌then◌else◌, map, string_bytes, true};
ghost use Rattle.image_load.specs.Start.{first_ram};
ghost use Rattle.rules_bus.specs.State.{BusWorld};
ghost use Rattle.bus_tcc.specs.Machine.{bus_event_of, bus_settings_of, bus_start_of, bus_world_of};
ghost use Rattle.bus_tcc.specs.Refined.{IsBusRefined};
ghost use Rattle.bus_tcc.specs.Whole.{BusReached};
ghost use Rattle.bus_trace.specs.Text.{bus_event_and_facts};
ghost use Rattle.bus_watch.specs.Plain.{bus_fact_of};
ghost use Rattle.text_runs.specs.Pieces.{Tells};
ghost use Rattle.bus_changes.specs.Following.{Follows};
ghost use Rattle.bus_changes.specs.Plain.{Fits, IsKept};
ghost use Rattle.bus_changes.specs.Text.{bus_all_lines};
ghost use Rattle.bus_run.specs.Going.{Led, coming};
ghost use Rattle.bus_run.specs.Laws.{led-more, led-none};
ghost use Rattle.bus_run.specs.Shown.{CanShow, IsShown};
ghost use Rattle.tcc_base.specs.Limits.{run_limit};

use crate::counting::core_of;
use crate::running::BusRun;
use crate::telling::push_shown;
use bus_changes::BusKept;
use bus_tcc::BusEvent;
use std::alloc::Global;
use tcc_base::{CoreId, NoMemory};
use text_runs::TextRun;

/// A run, with what is kept of its machine for the records that the next event changes.
#[derive(Drop)]
pub(crate) struct KeptRun {
    alloc: Global,
    pub(crate) run: BusRun,
    kept: BusKept,
}

/// Appends what an event of this core changed, where it is shown, and keeps what there is now.
fn push_changed(
    alloc: Global,
    kept: &mut BusKept,
    shown: bool,
    run: &BusRun,
    core: CoreId,
    text: &mut String,
) -> Result<(), NoMemory>
    requires exists { core.0 < (bus_settings_of run.now.system).cores }
    requires fits { Fits kept.old (bus_settings_of run.now.system) }
    ensures { (w : BusWorld) → IsKept kept.old (bus_settings_of run.now.system) w
        → Follows (bus_settings_of run.now.system) core.0 w (bus_world_of run.now.system)
        → OnOk result (IsShown shown kept.new run.now.system core.0 w (string_bytes text.old) (string_bytes text.new)) }
{
    if shown {
        return kept
            .event(alloc, text, &run.system, core)
            .map_err(|_| NoMemory);
    }
    let mut unshown = String::new(alloc);
    kept.event(alloc, &mut unshown, &run.system, core)
        .map_err(|_| NoMemory)
}

/// Appends what the last event did, where it is shown.
fn push_facts(text: &mut String, shown: bool, e: BusEvent, run: &BusRun) -> Result<(), NoMemory>
    ensures { OnOk result (string_bytes text.new ≡ string_bytes text.old
        ++ (if shown then bus_event_and_facts (bus_event_of e) (map bus_fact_of run.now.facts) else [])) }
{
    push_shown(text, shown, &e, &run.facts.items)
}

/// What the machine has come to: constant time, for what is known of it.
fn look(run: &BusRun)
    ensures refined { IsBusRefined run.now.system }
    ensures reached { BusReached run.now.system }
{
    run.system.events();
    run.system.commits();
}

/// Takes the next event, where one comes, and appends what it did and changed, where it is shown. Whether one came.
fn tell_one(
    alloc: Global,
    run: &mut BusRun,
    kept: &mut BusKept,
    shown: bool,
    text: &mut String,
) -> Result<bool, NoMemory>
    requires few { run.old.system.events + run.old.left ≤ run_limit }
    requires kept { IsKept kept.old (bus_settings_of run.old.system) (bus_world_of run.old.system) }
    ensures tells { IfOk result (Tells (Led true run.old run.new) (coming run.new ≡ []) shown
        (string_bytes text.old) (string_bytes text.new)) }
    ensures fewer { IfOk result (λ more. IsTrue more → run.new.left < run.old.left) }
    ensures few { OnOk result (run.new.system.events + run.new.left ≤ run_limit) }
    ensures kept { OnOk result (IsKept kept.new (bus_settings_of run.new.system) (bus_world_of run.new.system)) }
{
    look(run);
    let Some(e) = run.take_next()? else {
        return Ok(false);
    };
    push_facts(text, shown, e, run)?;
    push_changed(alloc, kept, shown, run, core_of(e), text)?;
    Ok(true)
}

impl KeptRun {
    /// The run from here on. Appends the lines of all records, as where a window begins.
    pub(crate) fn begin(alloc: Global, run: BusRun, text: &mut String) -> Result<KeptRun, NoMemory>
        ensures run { IfOk result (λ r. r.run ≡ run) }
        ensures kept { IfOk result (λ r. IsKept r.kept (bus_settings_of run.system) (bus_world_of run.system)) }
        ensures told { OnOk result (string_bytes text.new ≡ string_bytes text.old
            ++ bus_all_lines (bus_settings_of run.system) (first_ram (bus_start_of run.system)) (bus_world_of run.system)) }
    {
        match BusKept::begin(alloc, text, &run.system) {
            Ok(kept) => Ok(KeptRun { alloc, run, kept }),
            Err(_) => Err(NoMemory),
        }
    }
}

impl TextRun for KeptRun {
    ghost leads = { λ r n told. Led true r.run n.run told };

    ghost left = { λ r. r.run.left };

    ghost can = { CanShow };

    ghost ended = { λ r. coming r.run ≡ [] };

    fn tell_next(&mut self, shown: bool, text: &mut String) -> Result<bool, NoMemory> {
        tell_one(self.alloc, &mut self.run, &mut self.kept, shown, text)
    }

    ghost stays = { λ r. led-none true r.run };

    ghost goes_on = { λ r s t xs ys. led-more true r.run s.run t.run xs ys };
}
