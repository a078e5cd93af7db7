// The machine takes events, each of which is enabled and isn't held back.
ghost use Rattle.std.specs.Prelude.{◌≡◌, ◌+◌, ◌<◌, ◌≤◌, ◌↔◌, ◌++◌, [], ◌∷◌, IfErr, IfOk, IsErrOf, None, OnErr, OnOk, Some, is_ok, is_some};
ghost use Rattle.std.specs.Prelude.{option_map};
ghost use Rattle.std.specs.Prelude.{length, if◌then◌else◌};
ghost use Rattle.tcc_msg.specs.Plain.{event_of};
ghost use Rattle.rules_tcc.specs.Step.{next_history};
ghost use Rattle.net_core.specs.Answers.{step_of, tid_noted, tid_told};
ghost use Rattle.net_core.specs.Machine.{history_of, program_of, settings_of};
ghost use Rattle.tcc_phase.specs.Answers.{Ran, StoppedAt, cause_of, next_of};
ghost use Rattle.tcc_phase.specs.Requests.{asker};
ghost use Rattle.net_core.specs.Limits.{machine_limit};

use crate::system::PhaseSystem;
use net_core::{Step, StepError, System};
use rules_tcc::an_event_acts_on_one_node;
use tcc_base::{CoreId, NoMemory, NodeId};
use tcc_msg::{Event, Name};

/// The core whose message to the vendor the event delivers, if it is such an event.
fn asker(e: Event) -> Option<CoreId>
    ensures { option_map (λ c. c.0) result ≡ asker (event_of e) }
{
    match e {
        Event::Deliver(
            Name {
                src: NodeId::Core(core),
                dst: NodeId::Vendor,
                ..
            },
        ) => Some(core),
        _ => None,
    }
}

/// Why an event isn't taken that isn't held back, where there is no memory for it.
fn cause(system: &System, e: Event) -> StepError
    ensures { result ≡ cause_of (is_some (step_of system.now (event_of e))) }
{
    if system.enabled(e) {
        StepError::Memory
    } else {
        StepError::Refused
    }
}

impl PhaseSystem {
    /// Whether an event, which may name anything, is held back.
    fn holds_back(&self, e: Event) -> bool
        ensures { next_of self.now.refined.machine (event_of e)
            ≡ (if result then None else next_history (settings_of self.now.refined.machine) (program_of self.now.refined.machine)
            (history_of self.now.refined.machine) (event_of e)) }
    {
        let system = self.refined.system();
        match asker(e) {
            Some(core) => core.0 < system.config().cores() && self.standing.is_late(core),
            None => false,
        }
    }

    /// Whether an event, which may name anything, is enabled and not held back. It takes constant time, and the logarithm of what is in
    /// flight.
    pub fn enabled(&self, e: Event) -> bool
        ensures { result ≡ is_some (next_of self.now.refined.machine (event_of e)) }
    {
        !self.holds_back(e) && self.refined.system().enabled(e)
    }

    /// Takes an event, which may name anything: `Refused` comes exactly where it isn't enabled or is held back. `Memory` comes where it
    /// could be taken, and memory is wanting. After either nothing has happened.
    ///
    /// It costs what `System::step` does, and nothing that grows besides but at two kinds of event. A commit takes time in the numbers of
    /// cores and of commits with greater TIDs, and for each late core in the logarithm of what is in flight. An instruction of a late core
    /// takes that logarithm, and where it sends the core's request also time in the number of requests that are held back.
    pub fn step(&mut self, e: Event) -> Result<Step, StepError>
        requires { self.old.refined.machine.events < machine_limit }
        ensures next { OnOk result (next_of self.old.refined.machine (event_of e) ≡ Some (history_of self.new.refined.machine)) }
        ensures told { IfOk result (λ s. tid_told s ≡ tid_noted (step_of self.old.refined.machine (event_of e))) }
        ensures refused { IsErrOf result StepError.Refused ↔ (next_of self.old.refined.machine (event_of e) ≡ None) }
        ensures unchanged { OnErr result (history_of self.new.refined.machine ≡ history_of self.old.refined.machine) }
        ensures taken { self.new.refined.taken ≡ (if is_ok result then self.old.refined.taken ++ e ∷ [] else self.old.refined.taken) }
        ensures counted { self.new.refined.machine.events
            ≡ (if is_ok result then self.old.refined.machine.events + 1 else self.old.refined.machine.events) }
        ensures code { self.new.refined.machine.cores.code ≡ self.old.refined.machine.cores.code }
    {
        if self.holds_back(e) {
            return Err(StepError::Refused);
        }
        if self.standing.reserve().is_err() {
            return Err(cause(self.refined.system(), e));
        }
        an_event_acts_on_one_node();
        match self.refined.step(e) {
            Err(error) => Err(error),
            Ok(done) => {
                self.standing.note(self.refined.system(), e, done);
                Ok(done)
            }
        }
    }

    /// Takes the events one after another. Where one isn't taken its number, from 0, is answered with the cause, and those before it
    /// have been taken.
    pub fn run(&mut self, events: &[Event]) -> Result<(), (u64, StepError)>
        requires { self.old.refined.machine.events + length events.now ≤ machine_limit }
        ensures ran { OnOk result (Ran self.old.refined.machine self.new.refined.machine (length events.now) events.now) }
        ensures stopped { IfErr result (λ f. StoppedAt self.old.refined.machine self.new.refined.machine f.0 events.now f.1) }
        ensures counted { OnOk result (self.new.refined.machine.events ≡ self.old.refined.machine.events + length events.now) }
        ensures code { self.new.refined.machine.cores.code ≡ self.old.refined.machine.cores.code }
    {
        for (i, &e) in events.iter().enumerate() {
            match self.step(e) {
                Ok(_) => {}
                Err(error) => return Err((i as u64, error)),
            }
        }
        Ok(())
    }

    /// Puts what was sent on its links: `Refined::settle`.
    pub fn settle(&mut self) -> Result<(), NoMemory>
        ensures settled { OnOk result (self.new.refined.machine.unsent ≡ []) }
        ensures history { history_of self.new.refined.machine ≡ history_of self.old.refined.machine }
        ensures taken { self.new.refined.taken ≡ self.old.refined.taken }
        ensures events { self.new.refined.machine.events ≡ self.old.refined.machine.events }
        ensures code { self.new.refined.machine.cores.code ≡ self.old.refined.machine.cores.code }
    {
        self.refined.settle()
    }
}
