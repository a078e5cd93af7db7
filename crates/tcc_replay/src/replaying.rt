// A list of events, taken by a machine from its start.
ghost use Rattle.std.specs.Prelude.{◌≡◌, ◌≤◌, [], IfErr, IfOk, length};
ghost use Rattle.image_load.specs.Contents.{started};
ghost use Rattle.tcc_replay.specs.Replayed.{EqualEventsGiveEqualMachines, IsReplayFault, RunsAreNotRefused, TakenHasText};
ghost use Rattle.tcc_base.specs.Limits.{run_limit};

use image_load::Loaded;
use net_core::StepError;
use std::alloc::Global;
use tcc_msg::Event;
use tcc_refine::Refined;

/// Why a list of events isn't replayed.
#[derive(Clone, Copy, Debug, PartialEq, Eq)]
pub enum ReplayFault {
    /// The event at this place, from 0, is the first that isn't enabled at its turn.
    Refused(u64),
    /// Memory ran out.
    Memory,
}

/// The machine that starts with what was loaded and takes these events, all of them and no other, one after another.
///
/// `Refused(i)` exactly where event i is the first that isn't enabled at its turn, unless memory ran out before. The time is that of
/// the events, each by `Refined::step`.
pub fn replay(alloc: Global, loaded: &Loaded, events: &[Event]) -> Result<Refined, ReplayFault>
    requires { length events.now ≤ run_limit }
    ensures code { IfOk result (λ r. r.machine.cores.code ≡ loaded.now) }
    ensures taken { IfOk result (λ r. r.taken ≡ events.now) }
    ensures settled { IfOk result (λ r. r.machine.unsent ≡ []) }
    ensures fault { IfErr result (IsReplayFault (started loaded.now) events.now) }
{
    let mut machine = match Refined::start(alloc, loaded) {
        Ok(machine) => machine,
        Err(_) => return Err(ReplayFault::Memory),
    };
    for &e in events {
        let place = machine.taken().len() as u64;
        match machine.step(e) {
            Ok(_) => {}
            Err(StepError::Refused) => return Err(ReplayFault::Refused(place)),
            Err(StepError::Memory) => return Err(ReplayFault::Memory),
        }
    }
    match machine.settle() {
        Ok(()) => Ok(machine),
        Err(_) => Err(ReplayFault::Memory),
    }
}

/// Two machines that began with the same images and took the same events hold the same, and have the same commits.
pub fn equal_events_give_equal_machines()
    ensures { EqualEventsGiveEqualMachines }
{}

/// The events of a run are refused nowhere when they are replayed from the same start.
pub fn what_runs_is_not_refused()
    ensures { RunsAreNotRefused }
{}

/// The events that a machine took, with its settings, are a well-formed schedule, so they have a text.
pub fn what_was_taken_has_a_text()
    ensures { TakenHasText }
{}
