// The machine as a report reads it: memory as it is and as it was loaded, and the cores.
ghost use Rattle.std.specs.Prelude.{◌/◌};
ghost use Rattle.image_load.specs.Contents.{started};
ghost use Rattle.tcc_base.specs.Settings.{IsAllowed};
ghost use Rattle.theorem_bus.specs.Given.{bus_committed};
ghost use Rattle.bus_tcc.specs.Machine.{bus_history_of, bus_settings_of, bus_start_of, bus_world_of};

use bus_tcc::BusSystem;
use reg_checkpoint::Check;
use report_text::{ShownCores, ShownWords};
use rv_code::Code;
use std::alloc::Global;
use tcc_base::{Config, CoreEnd, CoreId, LineAddr, List, NoMemory, WordAddr};

/// A law: settings that are there are allowed.
fn settings_are_allowed(config: &Config)
    ensures { IsAllowed config.now }
{
    config.cores();
}

/// What the machine has committed.
#[derive(Clone, Copy)]
pub struct Committed<'a> {
    pub bus: &'a BusSystem,
}

impl<'a> ShownWords for Committed<'a> {
    ghost words = { λ m. (bus_world_of m.bus.now).ram };

    ghost count = { λ m. (bus_settings_of m.bus.now).ram / 4 };

    fn line_count(&self) -> usize {
        self.bus.config().words() as usize / 8
    }

    fn line(&self, line: LineAddr) -> [u32; 8] {
        self.bus.line(line)
    }
}

#[tactic(auto, unfolding(theorem_bus::specs::Given::bus_committed, bus_tcc::specs::Machine::bus_history_of, image_load::specs::Contents::started))]
impl<'a> ShownCores for Committed<'a> {
    ghost plain = { λ m. bus_committed (bus_start_of m.bus.now) (bus_history_of m.bus.now) };

    ghost count = { λ m. (bus_settings_of m.bus.now).cores };

    fn core_count(&self) -> u8 {
        self.bus.config().cores()
    }

    fn ended(&self, core: CoreId) -> CoreEnd {
        self.bus.ended(core)
    }

    fn committed(&self, core: CoreId) -> &Check {
        self.bus.committed(core)
    }

    fn console(&self, alloc: Global, core: CoreId) -> Result<List<u8>, NoMemory> {
        self.bus.console(alloc, core)
    }
}

/// Memory as it was loaded, beside the code.
#[derive(Clone, Copy)]
pub struct FirstMemory<'a> {
    pub code: &'a Code,
}

impl<'a> ShownWords for FirstMemory<'a> {
    ghost words = { λ m. (started m.code.now).word };

    ghost count = { λ m. m.code.now.settings.ram / 4 };

    fn line_count(&self) -> usize {
        self.code.config().words() as usize / 8
    }

    fn line(&self, line: LineAddr) -> [u32; 8] {
        settings_are_allowed(self.code.config());
        let first = 8 * line.0;
        [
            self.code.word(WordAddr(first)),
            self.code.word(WordAddr(first + 1)),
            self.code.word(WordAddr(first + 2)),
            self.code.word(WordAddr(first + 3)),
            self.code.word(WordAddr(first + 4)),
            self.code.word(WordAddr(first + 5)),
            self.code.word(WordAddr(first + 6)),
            self.code.word(WordAddr(first + 7)),
        ]
    }
}
