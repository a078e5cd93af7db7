// The machine after the events that a seed picks. No list of them is held; their schedule is written as they come, where it is recorded.
ghost use Rattle.std.specs.Prelude.{◌≡◌, ◌≢◌, ◌++◌, ◌≤◌, [], ℕ, List as Seq, IfErr, IfOk, OnOk, Some};
ghost use Rattle.std.specs.List.{flat_map};
ghost use Rattle.std.specs.String.{string_bytes};
ghost use Rattle.image_load.specs.Contents.{started};
ghost use Rattle.net_core.specs.Machine.{history_of};
ghost use Rattle.rules_riscv.specs.Starting.{at_start};
ghost use Rattle.schedule_text.specs.Grammar.{config_line, event_line, version_line, version_of};
ghost use Rattle.tcc_cli.specs.Failing.{IsNotWritten};
ghost use Rattle.tcc_cli.specs.Schedules.{HasTaken, IsPicked, IsRecorded, IsScheduleOf};
ghost use Rattle.tcc_base.specs.Limits.{run_limit};

use crate::laid::settings_are_allowed;
use crate::records::write_record;
use crate::refusal::Refusal;
use image_load::Loaded;
use net_core::System;
use rules_tcc::a_picked_schedule_is_a_run;
use schedule_text::{push_config, push_end, push_event, push_version, version_needed};
use std::alloc::{AllocError, Global};
use tcc_base::{Config, NoMemory, Text};
use tcc_msg::Event;
use tcc_pick::{Chooser, Recorder, Unrecorded};
use tcc_replay::what_was_taken_has_a_text;
use tcc_world::Store;

/// A machine at its start takes at most so many events that a seed picks, and the recorder is told of each.
fn take_picked<R: Recorder>(
    loaded: &Loaded,
    system: &mut System,
    seed: u64,
    steps: u64,
    recorder: &mut R,
) -> Result<(), NoMemory>
    requires few { steps ≤ run_limit }
    requires code { system.old.cores.code ≡ loaded.now }
    requires start { history_of system.old ≡ at_start (started loaded.now) }
    requires events { system.old.events ≡ 0 }
    ensures code { OnOk result (system.new.cores.code ≡ loaded.now) }
    ensures taken { OnOk result (HasTaken (started loaded.now) (λ es. IsPicked (started loaded.now) seed steps es
        × (R.bytes recorder.new ≡ R.bytes recorder.old ++ flat_map R.line es)) system.new) }
    ensures settled { OnOk result (system.new.unsent ≡ []) }
{
    Chooser::new(seed).run(system, steps as u32, recorder)
}

/// The machine after at most so many events that a seed picks.
pub fn pick(alloc: Global, loaded: &Loaded, seed: u64, steps: u64) -> Result<System, NoMemory>
    requires few { steps ≤ run_limit }
    ensures code { IfOk result (λ m. m.cores.code ≡ loaded.now) }
    ensures taken { IfOk result (HasTaken (started loaded.now) (IsPicked (started loaded.now) seed steps)) }
    ensures settled { IfOk result (λ m. m.unsent ≡ []) }
{
    let mut system = System::start(alloc, loaded)?;
    take_picked(loaded, &mut system, seed, steps, &mut Unrecorded)?;
    Ok(system)
}

/// The text of a schedule, to which each event adds its line.
#[derive(Drop)]
struct PickedText {
    text: String,
}

impl Recorder for PickedText {
    ghost bytes = { λ t. string_bytes t.text };

    ghost line = { event_line };

    fn note(&mut self, event: &Event) -> Result<(), NoMemory> {
        match push_event(&mut self.text, event) {
            Ok(()) => Ok(()),
            Err(_) => Err(NoMemory),
        }
    }
}

/// The lines of a schedule before its events.
fn first_lines(alloc: Global, config: &Config) -> Result<PickedText, AllocError>
    ensures { IfOk result (λ t. string_bytes t.text ≡ version_line (version_of config.now) ++ config_line config.now) }
{
    let mut text = String::new(alloc);
    push_version(&mut text, version_needed(config))?;
    push_config(&mut text, config)?;
    Ok(PickedText { text })
}

/// A machine at its start takes at most so many events that a seed picks: the text of their schedule.
fn picked_text(
    alloc: Global,
    loaded: &Loaded,
    system: &mut System,
    seed: u64,
    steps: u64,
) -> Result<String, NoMemory>
    requires few { steps ≤ run_limit }
    requires code { system.old.cores.code ≡ loaded.now }
    requires start { history_of system.old ≡ at_start (started loaded.now) }
    requires events { system.old.events ≡ 0 }
    ensures code { OnOk result (system.new.cores.code ≡ loaded.now) }
    ensures taken { IfOk result (λ text. HasTaken (started loaded.now) (λ es. IsPicked (started loaded.now) seed steps es
        × IsScheduleOf loaded.now.settings es (string_bytes text)) system.new) }
    ensures settled { OnOk result (system.new.unsent ≡ []) }
{
    settings_are_allowed(loaded.config());
    a_picked_schedule_is_a_run();
    what_was_taken_has_a_text();
    let Ok(mut picked) = first_lines(alloc, loaded.config()) else {
        return Err(NoMemory);
    };
    take_picked(loaded, system, seed, steps, &mut picked)?;
    let PickedText { mut text } = picked;
    match push_end(&mut text, system.events()) {
        Ok(()) => Ok(text),
        Err(_) => Err(NoMemory),
    }
}

/// A machine at its start takes at most so many events that a seed picks, and their schedule is written to the file of this name, where
/// there is one.
pub fn take_and_record<'a, F: Store>(
    alloc: Global,
    loaded: &Loaded,
    system: &mut System,
    seed: u64,
    steps: u64,
    keep: &'a Option<Text>,
    files: &mut F,
) -> Result<(), Refusal<'a>>
    requires few { steps ≤ run_limit }
    requires code { system.old.cores.code ≡ loaded.now }
    requires start { history_of system.old ≡ at_start (started loaded.now) }
    requires events { system.old.events ≡ 0 }
    ensures code { OnOk result (system.new.cores.code ≡ loaded.now) }
    ensures taken { OnOk result (HasTaken (started loaded.now) (λ es. IsPicked (started loaded.now) seed steps es
        × IsRecorded keep.now (F.disk files.old).tells (F.disk files.new).contents (record { config = loaded.now.settings; events = es }))
        system.new) }
    ensures settled { OnOk result (system.new.unsent ≡ []) }
    ensures failed { IfErr result (IsNotWritten keep.now (record { before = F.disk files.old; after = F.disk files.new })) }
    ensures others { (n : Seq ℕ) → keep.now ≢ Some n → (F.disk files.new).contents n ≡ (F.disk files.old).contents n }
{
    let Some(name) = keep else {
        return match take_picked(loaded, system, seed, steps, &mut Unrecorded) {
            Ok(()) => Ok(()),
            Err(NoMemory) => Err(Refusal::Memory),
        };
    };
    let text = match picked_text(alloc, loaded, system, seed, steps) {
        Ok(text) => text,
        Err(NoMemory) => return Err(Refusal::Memory),
    };
    write_record(alloc, name, text.as_bytes(), files)
}
