// A core that isn't alone.
ghost use Rattle.std.specs.Prelude.{◌≡◌, ◌<◌, false, true, is_some};
ghost use Rattle.rules_tcc.specs.Attempt.{is_solo};
ghost use Rattle.rules_bus.specs.State.{Exec};
ghost use Rattle.bus_tcc.specs.Answers.{Answers, bus_step_of};
ghost use Rattle.bus_tcc.specs.Machine.{bus_settings_of, bus_world_of};
ghost use Rattle.tcc_base.specs.Limits.{run_limit};

use crate::engine::Engine;
use crate::event::{BusError, BusStep};
use commit_engine::Phase;
use tcc_base::CoreId;

impl Engine {
    /// A core that isn't alone executes, or commits where its transaction has ended.
    pub(crate) fn exec_together(&mut self, core: CoreId) -> Result<BusStep, BusError>
        requires few { self.old.events < run_limit }
        requires exists { core.0 < (bus_settings_of self.old).cores }
        requires enabled { is_some (bus_step_of self.old (Exec core.0)) ≡ true }
        requires together { is_solo ((bus_world_of self.old).cores core.0).phase ≡ false }
        ensures { Answers self.old self.new (Exec core.0) result }
    {
        match self.cores.core(core).phase() {
            Phase::Running => self.execute(core),
            Phase::AwaitTid => self.commit(core),
            Phase::DoomedTid => Err(BusError::Refused),
            Phase::Probing(_) => Err(BusError::Refused),
            Phase::Ready(_) => Err(BusError::Refused),
            Phase::Overflowing(_) => Err(BusError::Refused),
            Phase::Solo(_) => Err(BusError::Refused),
            Phase::Halted => Err(BusError::Refused),
        }
    }
}
