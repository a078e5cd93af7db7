// The machine takes events.
ghost use Rattle.std.specs.Prelude.{◌≡◌, ◌≢◌, ◌+◌, ◌<◌, ◌≤◌, ◌↔◌, [], length, Err, IsTrue, None, Some, IsErrOf, IfOk, IfErr, OnOk, OnErr};
ghost use Rattle.std.specs.Prelude.{is_ok, if◌then◌else◌};
ghost use Rattle.tcc_msg.specs.Plain.{event_of, sends_of};
ghost use Rattle.rules_tcc.specs.Step.{next_history};
ghost use Rattle.net_core.specs.Answers.{Answers, IsSent, Kept, Ran, StoppedAt, acts_in, step_of, tid_noted, tid_told};
ghost use Rattle.net_core.specs.Machine.{history_of, program_of, settings_of, world_of};
ghost use Rattle.net_core.specs.Limits.{machine_limit};

use crate::system::System;
use tcc_base::Tid;
use tcc_msg::Event;

/// What an event that was taken did.
#[derive(Clone, Copy, Debug, PartialEq, Eq)]
pub enum Step {
    Moved,
    /// The event noted the commit of this TID.
    Committed(Tid),
}

/// Why an event wasn't taken. Nothing has happened then.
#[derive(Clone, Copy, Debug, PartialEq, Eq)]
pub enum StepError {
    /// The event isn't enabled.
    Refused,
    /// Out of memory.
    Memory,
}

impl System {
    /// Makes room for what an event may note, and puts on its links what was sent before.
    #[inline(always)]
    fn prepare(&mut self) -> bool
        ensures ready { IsTrue result → (self.new.unsent ≡ []) × (0 < self.new.room) }
        ensures kept { Kept self.old self.new }
    {
        self.settle().is_ok() && self.commits.reserve().is_ok()
    }

    /// Takes an event, where all that was sent stands on its links and there is room for a commit.
    fn take(&mut self, e: Event) -> Result<Step, StepError>
        requires few { self.old.events < machine_limit }
        requires settled { self.old.unsent ≡ [] }
        requires room { 0 < self.old.room }
        ensures { Answers self.old self.new (event_of e) result }
    {
        match e {
            Event::Exec(core) => self.exec(core),
            Event::Evict(core, set, way) => self.evict(core, set, way),
            Event::Deliver(name) => self.deliver(name),
        }
    }

    /// Takes an event, which may name anything: `Refused` comes exactly where it isn't enabled. `Memory` comes where it is, and memory
    /// is wanting. After either nothing has happened.
    ///
    /// An instruction or a message that hits one line costs a constant and the logarithm of what is in flight; what a directory handles
    /// costs in the messages that wait for it.
    #[inline(always)]
    pub fn step(&mut self, e: Event) -> Result<Step, StepError>
        requires { self.old.events < machine_limit }
        ensures next { OnOk result
            (next_history (settings_of self.old) (program_of self.old) (history_of self.old) (event_of e) ≡ Some (history_of self.new)) }
        ensures told { IfOk result (λ s. tid_told s ≡ tid_noted (step_of self.old (event_of e))) }
        ensures sent { OnOk result (IsSent (world_of self.old) (world_of self.new) (acts_in (event_of e)) (sends_of self.new.last)) }
        ensures refused { IsErrOf result StepError.Refused ↔ (step_of self.old (event_of e) ≡ None) }
        ensures unchanged { OnErr result (history_of self.new ≡ history_of self.old) }
        ensures counted { self.new.events ≡ (if is_ok result then self.old.events + 1 else self.old.events) }
        ensures code { self.new.cores.code ≡ self.old.cores.code }
    {
        if !self.prepare() {
            return Err(if self.enabled(e) {
                StepError::Memory
            } else {
                StepError::Refused
            });
        }
        match self.take(e) {
            Err(error) => Err(error),
            Ok(done) => {
                // What finds no room on its link now is put there before the next event.
                let _ = self.settle();
                Ok(done)
            }
        }
    }

    /// Takes the events one after another. Where one isn't taken its number, from 0, is answered with the cause, and those before it
    /// have been taken.
    pub fn run(&mut self, events: &[Event]) -> Result<(), (u64, StepError)>
        requires { self.old.events + length events.now ≤ machine_limit }
        ensures ran { OnOk result (Ran self.old self.new (length events.now) events.now) }
        ensures stopped { IfErr result (λ f. StoppedAt self.old self.new f.0 events.now f.1) }
        ensures counted { OnOk result (self.new.events ≡ self.old.events + length events.now) }
        ensures code { self.new.cores.code ≡ self.old.cores.code }
    {
        for (i, &e) in events.iter().enumerate() {
            match self.step(e) {
                Ok(_) => {}
                Err(error) => return Err((i as u64, error)),
            }
        }
        Ok(())
    }
}
