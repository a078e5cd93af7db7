// A run of the machine with one bus that goes on event by event, as the words of a seed pick them.
ghost use Rattle.std.specs.Prelude.{◌≡◌, ◌+◌, ◌≤◌, IfOk, option_map};
ghost use Rattle.bus_tcc.specs.Machine.{bus_event_of};
ghost use Rattle.tcc_base.specs.Limits.{run_limit};

use bus_tcc::{BusEvent, BusSystem};
use bus_tool::pick;
use bus_watch::{BusFact, watch_bus};
use image_load::Loaded;
use rand_core::SeedableRng;
use rand_pcg::Lcg64Xsh32;
use std::alloc::Global;
use tcc_base::{List, NoMemory};

/// A machine, with the generator whose words pick its events, and how many words are left.
#[derive(Drop)]
pub(crate) struct BusRun {
    pub(crate) system: BusSystem,
    words: Lcg64Xsh32,
    pub(crate) left: u64,
    /// What the last event did.
    pub(crate) facts: List<BusFact>,
}

impl BusRun {
    ghost use Rattle.bus_run.specs.Going.{Moves, Starts};

    /// The machine before its first event, with so many words of this seed. The settings have one directory.
    pub(crate) fn start(
        alloc: Global,
        loaded: &Loaded,
        seed: u64,
        steps: u64,
    ) -> Result<BusRun, NoMemory>
        requires { loaded.now.settings.dirs ≡ 1 }
        ensures { IfOk result (Starts loaded.now seed steps) }
    {
        Ok(BusRun {
            system: BusSystem::start(alloc, loaded)?,
            words: Lcg64Xsh32::seed_from_u64(seed),
            left: steps,
            facts: List::new(alloc),
        })
    }

    /// Takes the event that the next word picks, and leaves in `facts` what it did. None where no event is useful, or no word is left.
    /// After want of memory the run is of no use.
    pub(crate) fn take_next(&mut self) -> Result<Option<BusEvent>, NoMemory>
        requires few { self.old.system.events + self.old.left ≤ run_limit }
        ensures { IfOk result (λ e. Moves self.old self.new (option_map bus_event_of e)) }
    {
        if self.left == 0 {
            return Ok(None);
        }
        let Some(e) = pick(&mut self.words, &self.system) else {
            return Ok(None);
        };
        self.left -= 1;
        match watch_bus(&mut self.system, e, &mut self.facts) {
            Ok(()) => Ok(Some(e)),
            Err(_) => Err(NoMemory),
        }
    }
}
