// The machine takes an event.
ghost use Rattle.std.specs.Prelude.{◌≡◌, ◌<◌, true, ◌≢◌, ◌+◌, ◌↔◌, ℕ, Err, None, Some, IsTrue, IsErrOf, IfOk, OnOk, OnErr, is_ok};
ghost use Rattle.std.specs.Prelude.{if◌then◌else◌, is_some};
ghost use Rattle.rules_tcc.specs.Attempt.{is_solo};
ghost use Rattle.rules_bus.specs.State.{Exec, Evict};
ghost use Rattle.bus_tcc.specs.Answers.{Answers, bus_step_of, refusal_of, tid_noted, tid_told};
ghost use Rattle.bus_tcc.specs.Machine.{bus_event_of, bus_settings_of, bus_world_of, bus_history_of, bus_program_of};
ghost use Rattle.bus_tcc.specs.Parts.{CountedIn};
ghost use Rattle.tcc_base.specs.Limits.{run_limit};
ghost use Rattle.rules_bus.specs.Step.{bus_next};

use crate::counts::Counts;
use crate::engine::Engine;
use crate::event::{BusError, BusEvent, BusStep};
use core_node::CoreError;
use tcc_base::{Config, CoreId};

/// Why an event of a core wasn't taken.
pub(crate) fn refusal(error: CoreError) -> BusError
    ensures { result ≡ refusal_of error }
{
    match error {
        CoreError::Blocked => BusError::Refused,
        CoreError::Memory => BusError::Memory,
    }
}

/// Whether there are such a core, set and way.
pub(crate) fn has_way(config: &Config, core: CoreId, set: u16, way: u8) -> bool
    ensures { IsTrue result ↔ (core.0 < config.now.cores) × (set < config.now.sets) × (way < config.now.ways) }
{
    core.0 < config.cores() && set < config.sets() && way < config.ways()
}

impl Engine {
    /// A core empties a way.
    pub(crate) fn evict(&mut self, core: CoreId, set: u16, way: u8) -> Result<BusStep, BusError>
        requires { self.old.events < run_limit }
        ensures { Answers self.old self.new (Evict core.0 set way) result }
    {
        if !has_way(self.config(), core, set, way) {
            return Err(BusError::Refused);
        }
        self.out.clear();
        match self.cores.evict(core, set, way, &mut self.out) {
            Err(error) => Err(refusal(error)),
            Ok(()) => {
                self.events += 1;
                Ok(BusStep::Moved)
            }
        }
    }
}

impl Engine {
    /// A core that is alone executes, or commits where its transaction ends.
    #[inline(never)]
    fn exec_alone(&mut self, core: CoreId) -> Result<BusStep, BusError>
        requires few { self.old.events < run_limit }
        requires exists { core.0 < (bus_settings_of self.old).cores }
        requires enabled { is_some (bus_step_of self.old (Exec core.0)) ≡ true }
        requires alone { is_solo ((bus_world_of self.old).cores core.0).phase ≡ true }
        ensures { Answers self.old self.new (Exec core.0) result }
    {
        if self.cores.ends(core) {
            self.publish(core)
        } else {
            self.execute(core)
        }
    }

    /// A core executes, or commits where its transaction ends or has ended.
    fn exec(&mut self, counts: &Counts, core: CoreId) -> Result<BusStep, BusError>
        requires few { self.old.events < run_limit }
        requires counted { CountedIn self.old counts.now }
        ensures { Answers self.old self.new (Exec core.0) result }
    {
        if !self.allows_exec(counts, core) {
            return Err(BusError::Refused);
        }
        if self.cores.core(core).phase().is_alone() {
            self.exec_alone(core)
        } else {
            self.exec_together(core)
        }
    }

    /// Takes an event. The counts say whether a core may execute.
    pub(crate) fn step(&mut self, counts: &Counts, event: BusEvent) -> Result<BusStep, BusError>
        requires few { self.old.events < run_limit }
        requires counted { CountedIn self.old counts.now }
        ensures { Answers self.old self.new (bus_event_of event) result }
    {
        match event {
            BusEvent::Exec(core) => self.exec(counts, core),
            BusEvent::Evict(core, set, way) => self.evict(core, set, way),
            BusEvent::Take(core) => self.take(core),
        }
    }
}
