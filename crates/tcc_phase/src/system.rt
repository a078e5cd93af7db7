// The machine and what is read of it.
ghost use Rattle.std.specs.Prelude.{◌≡◌, ◌<◌, [], IfOk};
ghost use Rattle.image_load.specs.Contents.{started};
ghost use Rattle.rules_phases.specs.Phases.{phase_of, phases_of};
ghost use Rattle.net_core.specs.Machine.{history_of, settings_of, start_of};
ghost use Rattle.rules_riscv.specs.Starting.{at_start};
ghost use Rattle.tcc_phase.specs.Phased.{IsPhased};

use crate::standing::Standing;
use image_load::Loaded;
use std::alloc::Global;
use std::marker::Model;
use tcc_base::{CoreId, NoMemory};
use tcc_refine::Refined;

/// A machine that runs by phases: it takes an event exactly where the machine does and the event isn't the delivery of a request for a
/// TID by a core whose phase is above that of another core that hasn't halted. A core's phase is the greatest value that x27 had at its
/// commits' starts and at its checkpoint. So along rising TIDs the phases of the commits never fall. Its type says so.
#[derive(Debug, Drop)]
pub struct PhaseSystem {
    pub(crate) refined: Refined,
    pub(crate) standing: Standing,
}

impl Model for PhaseSystem {
    ghost use Rattle.tcc_phase.specs.Phased.{PhaseMachine};

    ghost Value = { PhaseMachine };

    ghost use Rattle.tcc_phase.specs.Inside.{machine_of, IsPhaseSystem};

    ghost view = { machine_of };

    ghost invariant = { IsPhaseSystem };
}

impl PhaseSystem {
    /// The machine before its first event: `Refined::start`. All cores are in phase 0.
    pub fn start(alloc: Global, loaded: &Loaded) -> Result<PhaseSystem, NoMemory>
        ensures code { IfOk result (λ p. p.refined.machine.cores.code ≡ loaded.now) }
        ensures start { IfOk result (λ p. history_of p.refined.machine ≡ at_start (started loaded.now)) }
        ensures taken { IfOk result (λ p. p.refined.taken ≡ []) }
        ensures events { IfOk result (λ p. p.refined.machine.events ≡ 0) }
        ensures settled { IfOk result (λ p. p.refined.machine.unsent ≡ []) }
    {
        let refined = Refined::start(alloc, loaded)?;
        let Ok(standing) = Standing::start(alloc, loaded.config().cores()) else {
            return Err(NoMemory);
        };
        refined.taken();
        Ok(PhaseSystem { refined, standing })
    }

    /// The machine with the list of its events, for all that is read of it. It takes constant time.
    pub fn inner(&self) -> &Refined
        ensures inner { result.now ≡ self.now.refined }
        ensures phased { IsPhased self.now }
    {
        &self.refined
    }

    /// The phase that a core is in. It takes constant time.
    pub fn phase(&self, core: CoreId) -> u32
        requires { core.0 < (settings_of self.now.refined.machine).cores }
        ensures { result ≡ phase_of (start_of self.now.refined.machine) (history_of self.now.refined.machine) core.0 }
    {
        self.standing.own[core.0 as usize]
    }

    /// The phase of each commit, by rising TID. It takes constant time.
    pub fn phases(&self) -> &[u32]
        ensures { result.now ≡ phases_of (start_of self.now.refined.machine) (history_of self.now.refined.machine) }
    {
        &self.standing.each
    }
}
