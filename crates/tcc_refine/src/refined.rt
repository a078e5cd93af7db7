// The machine and its events.
ghost use Rattle.std.specs.Prelude.{◌≡◌, ◌+◌, ◌<◌, ◌≤◌, ◌↔◌, ◌++◌, [], ◌∷◌, IfErr, IfOk, IsErrOf, None, OnErr, OnOk, Some, is_ok};
ghost use Rattle.std.specs.Prelude.{length, take, if◌then◌else◌};
ghost use Rattle.image_load.specs.Contents.{started};
ghost use Rattle.net_core.specs.Limits.{machine_limit};
ghost use Rattle.tcc_base.specs.Settings.{IsAllowed};
ghost use Rattle.tcc_msg.specs.Plain.{event_of};
ghost use Rattle.rules_tcc.specs.Step.{next_history};
ghost use Rattle.net_core.specs.Answers.{step_of, tid_noted, tid_told};
ghost use Rattle.net_core.specs.Machine.{history_of, program_of, settings_of};
ghost use Rattle.rules_riscv.specs.Starting.{at_start};
ghost use Rattle.tcc_refine.specs.Refined.{IsRefined};

use image_load::Loaded;
use net_core::{Step, StepError, System};
use std::alloc::Global;
use std::marker::Model;
use tcc_base::{Config, NoMemory};
use tcc_msg::Event;

/// A machine with the list of the events that it took. Its type says that the rules lead from its start by just these events to what
/// it holds, and that its commits are a serial execution of the plain machine.
#[derive(Debug, Drop)]
pub struct Refined {
    system: System,
    taken: Vec<Event>,
}

impl Model for Refined {
    ghost use Rattle.tcc_refine.specs.Refined.{IsRefined, Refined as Plain};

    ghost Value = { Plain };

    ghost view = { λ r. record { machine = r.system; taken = r.taken.items } };

    ghost invariant = { λ r. IsRefined (record { machine = r.system; taken = r.taken.items }) };
}

/// A law: settings that are there are allowed.
fn settings_are_allowed(config: &Config)
    ensures { IsAllowed config.now }
{
    config.cores();
}

impl Refined {
    /// The machine before its first event: `System::start`.
    pub fn start(alloc: Global, loaded: &Loaded) -> Result<Refined, NoMemory>
        ensures code { IfOk result (λ r. r.machine.cores.code ≡ loaded.now) }
        ensures start { IfOk result (λ r. history_of r.machine ≡ at_start (started loaded.now)) }
        ensures taken { IfOk result (λ r. r.taken ≡ []) }
        ensures settled { IfOk result (λ r. r.machine.unsent ≡ []) }
    {
        let system = System::start(alloc, loaded)?;
        settings_are_allowed(loaded.config());
        Ok(Refined {
            system,
            taken: Vec::new(alloc),
        })
    }

    /// The machine, for all that is read of it. It takes constant time.
    pub fn system(&self) -> &System
        ensures machine { result.now ≡ self.now.machine }
    {
        &self.system
    }

    /// The events that it took, in order. It takes constant time.
    pub fn taken(&self) -> &[Event]
        ensures taken { result.now ≡ self.now.taken }
        ensures refined { IsRefined self.now }
    {
        &self.taken
    }

    /// Takes an event: `System::step`. Room in the list is made before.
    #[inline(always)]
    pub fn step(&mut self, e: Event) -> Result<Step, StepError>
        requires { self.old.machine.events < machine_limit }
        ensures next { OnOk result
            (next_history (settings_of self.old.machine) (program_of self.old.machine) (history_of self.old.machine) (event_of e)
            ≡ Some (history_of self.new.machine)) }
        ensures told { IfOk result (λ s. tid_told s ≡ tid_noted (step_of self.old.machine (event_of e))) }
        ensures refused { IsErrOf result StepError.Refused ↔ (step_of self.old.machine (event_of e) ≡ None) }
        ensures unchanged { OnErr result (history_of self.new.machine ≡ history_of self.old.machine) }
        ensures taken { self.new.taken ≡ (if is_ok result then self.old.taken ++ e ∷ [] else self.old.taken) }
        ensures counted { self.new.machine.events ≡ (if is_ok result then self.old.machine.events + 1 else self.old.machine.events) }
        ensures code { self.new.machine.cores.code ≡ self.old.machine.cores.code }
    {
        if self.taken.reserve(1).is_err() {
            return Err(if self.system.enabled(e) {
                StepError::Memory
            } else {
                StepError::Refused
            });
        }
        match self.system.step(e) {
            Err(error) => Err(error),
            Ok(done) => {
                self.taken.push_reserved(e);
                Ok(done)
            }
        }
    }

    /// Puts what was sent on its links: `System::settle`.
    #[inline(always)]
    pub fn settle(&mut self) -> Result<(), NoMemory>
        ensures settled { OnOk result (self.new.machine.unsent ≡ []) }
        ensures history { history_of self.new.machine ≡ history_of self.old.machine }
        ensures taken { self.new.taken ≡ self.old.taken }
        ensures events { self.new.machine.events ≡ self.old.machine.events }
        ensures code { self.new.machine.cores.code ≡ self.old.machine.cores.code }
    {
        self.system.settle()
    }
}
