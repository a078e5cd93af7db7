// The text of a machine as it stands: the report of a run, the summary of a workload's, and why messages wait.
ghost use Rattle.std.specs.Prelude.{◌≡◌, ◌/◌, [], IfOk, length};
ghost use Rattle.std.specs.String.{string_bytes};
ghost use Rattle.image_load.specs.Contents.{started};
ghost use Rattle.theorem_riscv.specs.Given.{committed};
ghost use Rattle.rules_tcc.specs.Seen.{seen};
ghost use Rattle.net_core.specs.Machine.{history_of, settings_of, start_of, world_of};
ghost use Rattle.tcc_cli.specs.Runs.{EndsBy, RunsTo, run_text, summary_text};
ghost use Rattle.text_why.specs.Text.{why_text};

use crate::laid::{Laid, settings_are_allowed};
use image_load::Loaded;
use net_core::{SeenRam, System};
use reg_checkpoint::Check;
use report_text::{Ending, ShownCores, ShownWords, Trial, consoles, cores, report, trial_summary};
use std::alloc::Global;
use std::marker::Model;
use tcc_base::{CoreEnd, CoreId, LineAddr, List, NoMemory};
use tcc_refine::Refined;
use text_why::why;
use work_gen::Work;

/// A text, and whether what it tells of has run to its end.
#[derive(Debug, Drop)]
pub struct Finished {
    pub done: bool,
    pub text: String,
}

/// RAM as the machine has committed it.
#[derive(Drop)]
struct Committed<'a> {
    ram: SeenRam<'a>,
}

impl<'a> Model for Committed<'a> {
    ghost use Rattle.net_core.specs.Machine.{Machine};

    ghost Value = { Machine };

    ghost view = { λ c. c.ram };
}

impl<'a> ShownWords for Committed<'a> {
    ghost words = { λ m. seen (settings_of m) (world_of m) };

    ghost count = { λ m. (settings_of m).ram / 4 };

    fn line_count(&self) -> usize {
        self.ram.line_count()
    }

    fn line(&self, line: LineAddr) -> [u32; 8] {
        self.ram.line(line)
    }
}

/// The cores as their commits left them.
#[derive(Clone, Copy)]
struct Cores<'a> {
    system: &'a System,
}

#[tactic(auto, unfolding(theorem_riscv::specs::Given::committed, net_core::specs::Machine::history_of, image_load::specs::Contents::started))]
impl<'a> ShownCores for Cores<'a> {
    ghost plain = { λ m. committed (start_of m.system.now) (history_of m.system.now) };

    ghost count = { λ m. (settings_of m.system.now).cores };

    fn core_count(&self) -> u8 {
        self.system.config().cores()
    }

    fn ended(&self, core: CoreId) -> CoreEnd {
        self.system.ended(core)
    }

    fn committed(&self, core: CoreId) -> &Check {
        self.system.committed(core)
    }

    fn console(&self, alloc: Global, core: CoreId) -> Result<List<u8>, NoMemory> {
        self.system.console(alloc, core)
    }
}

/// The report of a machine as it stands, which began with what was loaded: of the run by any events that led there.
pub fn machine_report(alloc: Global, loaded: &Loaded, system: &System) -> Result<Finished, NoMemory>
    requires code { system.now.cores.code ≡ loaded.now }
    requires settled { system.now.unsent ≡ [] }
    ensures runs { IfOk result (λ f. EndsBy (started loaded.now) f.done (history_of system.now)) }
    ensures text { IfOk result (λ f. string_bytes f.text
        ≡ run_text (started loaded.now) f.done system.now.events (history_of system.now)) }
{
    settings_are_allowed(loaded.config());
    let done = system.done();
    let shown = Cores { system };
    let consoles = consoles(alloc, &shown)?;
    let cores = cores(alloc, &shown, &consoles)?;
    let ram = system.seen_ram(alloc)?;
    let ending = Ending {
        commits: system.commits(),
        cores: &cores.items,
        base: system.config().base(),
        ram: &Committed { ram },
        loaded: &Laid { loaded },
    };
    let text = report(alloc, done, system.events(), &ending)?;
    Ok(Finished { done, text })
}

/// The report of a machine with the list of its events, as it stands, which began with what was loaded.
pub fn report_of(alloc: Global, loaded: &Loaded, refined: &Refined) -> Result<Finished, NoMemory>
    requires code { refined.now.machine.cores.code ≡ loaded.now }
    requires settled { refined.now.machine.unsent ≡ [] }
    ensures runs { IfOk result (λ f. RunsTo (started loaded.now) refined.now.taken f.done (history_of refined.now.machine)) }
    ensures text { IfOk result (λ f. string_bytes f.text
        ≡ run_text (started loaded.now) f.done (length refined.now.taken) (history_of refined.now.machine)) }
{
    refined.taken();
    machine_report(alloc, loaded, refined.system())
}

/// The summary of a workload's run as it stands, which began with what was loaded.
pub fn summary_of(
    alloc: Global,
    loaded: &Loaded,
    system: &System,
    work: Work,
    number: u32,
) -> Result<Finished, NoMemory>
    requires code { system.now.cores.code ≡ loaded.now }
    requires settled { system.now.unsent ≡ [] }
    ensures runs { IfOk result (λ f. EndsBy (started loaded.now) f.done (history_of system.now)) }
    ensures text { IfOk result (λ f. string_bytes f.text
        ≡ summary_text (started loaded.now) work number f.done system.now.events (history_of system.now)) }
{
    settings_are_allowed(loaded.config());
    let done = system.done();
    let ram = system.seen_ram(alloc)?;
    let trial = Trial {
        work,
        number,
        done,
        events: system.events(),
        commits: system.commits().len(),
        ram: &Committed { ram },
        loaded: &Laid { loaded },
    };
    let text = trial_summary(alloc, &trial)?;
    Ok(Finished { done, text })
}

/// Why messages wait in a machine as it stands, which began with what was loaded.
pub fn waits_of(alloc: Global, loaded: &Loaded, refined: &Refined) -> Result<Finished, NoMemory>
    requires code { refined.now.machine.cores.code ≡ loaded.now }
    requires settled { refined.now.machine.unsent ≡ [] }
    ensures runs { IfOk result (λ f. RunsTo (started loaded.now) refined.now.taken f.done (history_of refined.now.machine)) }
    ensures text { IfOk result (λ f. string_bytes f.text
        ≡ why_text (started loaded.now) f.done (length refined.now.taken) (history_of refined.now.machine)) }
{
    let system = refined.system();
    let done = system.done();
    let text = why(alloc, done, refined.taken().len() as u64, system)?;
    Ok(Finished { done, text })
}
