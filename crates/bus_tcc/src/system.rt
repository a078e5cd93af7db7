// The machine as one object.
ghost use Rattle.std.specs.Prelude.{◌≡◌, ◌<◌, ◌↔◌, IsTrue, IfOk, map};
ghost use Rattle.image_load.specs.Contents.{started};
ghost use Rattle.rules_bus.specs.Exec.{line_words};
ghost use Rattle.rules_bus.specs.Useful.{BusIsDone};
ghost use Rattle.theorem_bus.specs.Given.{bus_at_start};
ghost use Rattle.bus_tcc.specs.Answers.{Answers};
ghost use Rattle.bus_tcc.specs.Left.{packet_words};
ghost use Rattle.bus_tcc.specs.Machine.{bus_event_of, bus_history_of, bus_of, bus_settings_of, bus_world_of};
ghost use Rattle.bus_tcc.specs.Packets.{lines_on, packet_line_of, packet_lines};
ghost use Rattle.core_node.specs.View.{core_of as state_of};
ghost use Rattle.bus_tcc.specs.Refined.{IsBusRefined};
ghost use Rattle.bus_tcc.specs.Parts.{CountedBut, CountedIn, core_named};
ghost use Rattle.bus_tcc.specs.Whole.{BusReached};
ghost use Rattle.rules_program.specs.Cores.{printed};
ghost use Rattle.theorem_serial.specs.Commits.{end_after};
ghost use Rattle.tcc_base.specs.Limits.{run_limit};

use crate::bus::Bus;
use crate::counts::Counts;
use crate::engine::Engine;
use crate::event::{BusError, BusEvent, BusStep};
use core_node::CoreNode;
use image_load::Loaded;
use reg_checkpoint::Check;
use rv_code::Code;
use std::alloc::Global;
use std::marker::Model;
use tcc_base::{Commit, Config, CoreEnd, CoreId, LineAddr, List, NoMemory, Tid, WordAddr};

/// The machine. In a clause `bus_history_of` makes of it the state of the rules with the commits so far, which some list of events
/// leads to from the start: `events` says so.
#[derive(Debug, Drop)]
pub struct BusSystem {
    pub(crate) engine: Engine,
    /// Of its cores.
    pub(crate) counts: Counts,
}

impl Model for BusSystem {
    ghost use Rattle.bus_tcc.specs.Machine.{BusMachine};
    ghost use Rattle.bus_tcc.specs.Parts.{CountedIn};

    ghost Value = { BusMachine };

    ghost view = { λ s. s.engine };

    ghost invariant = { λ s. CountedIn s.engine s.counts };
}

/// The core that an event names.
fn core_of(event: BusEvent) -> CoreId
    ensures { result.0 ≡ core_named (bus_event_of event) }
{
    match event {
        BusEvent::Exec(core) => core,
        BusEvent::Evict(core, _, _) => core,
        BusEvent::Take(core) => core,
    }
}

/// Counts a core of the machine anew, where there is such a core.
#[inline(always)]
fn renew(engine: &Engine, counts: &mut Counts, core: CoreId)
    requires { CountedBut engine.now core.0 counts.old }
    ensures { CountedIn engine.now counts.new }
{
    if core.0 < engine.config().cores() {
        counts.renew(core, engine.bank(), engine.bus().is_free());
    }
}

impl BusSystem {
    /// The machine before its first event: all cores at their entries with empty frames, and the bus is free. Takes time and memory
    /// in RAM's bytes and in the caches' frames; the loaded memory is copied.
    pub fn start(alloc: Global, loaded: &Loaded) -> Result<BusSystem, NoMemory>
        requires { loaded.now.settings.dirs ≡ 1 }
        ensures code { IfOk result (λ m. m.code ≡ loaded.now) }
        ensures start { IfOk result (λ m. bus_history_of m ≡ bus_at_start (started loaded.now)) }
        ensures events { IfOk result (λ m. m.events ≡ 0) }
    {
        let engine = Engine::start(alloc, loaded)?;
        let counts = Counts::new(alloc, engine.bank(), engine.bus().is_free())?;
        Ok(BusSystem { engine, counts })
    }

    /// Takes an event: Refused exactly where it isn't enabled, so also where it names a core, set or way that doesn't exist; Memory
    /// where it is, but memory is wanting. After an error the machine is as before. Fewer than 4,194,304 events were taken before it.
    ///
    /// Takes constant time, but for a commit, which takes time in the lines that it writes and in the cache's frames, a core that goes
    /// alone or begins anew, which takes time in the cache's frames, and a Take, which takes time in the packet's lines.
    #[inline(always)]
    pub fn step(&mut self, event: BusEvent) -> Result<BusStep, BusError>
        requires { self.old.events < run_limit }
        ensures { Answers self.old self.new (bus_event_of event) result }
    {
        let done = self.engine.step(&self.counts, event);
        renew(&self.engine, &mut self.counts, core_of(event));
        done
    }

    /// How many events were taken.
    pub fn events(&self) -> u64
        ensures count { result ≡ self.now.events }
        ensures reached { BusReached self.now }
    {
        self.engine.events()
    }

    /// The settings.
    pub fn config(&self) -> &Config
        ensures { result.now ≡ bus_settings_of self.now }
    {
        self.engine.config()
    }

    /// The program as it was loaded, and the settings.
    pub fn code(&self) -> &Code
        ensures { result.now ≡ self.now.code }
    {
        self.engine.code()
    }

    /// The commits so far, by rising TID. It takes constant time.
    pub fn commits(&self) -> &[Commit]
        ensures commits { result.now ≡ self.now.commits }
        ensures refined { IsBusRefined self.now }
    {
        self.engine.commits()
    }

    /// The bytes that a core's commits printed, one after another. Its time goes with the number of commits and of these bytes.
    pub fn console(&self, alloc: Global, core: CoreId) -> Result<List<u8>, NoMemory>
        ensures { IfOk result (λ bytes. bytes ≡ printed core.0 self.now.commits) }
    {
        self.engine.console(alloc, core)
    }

    /// The registers and pc of a core as its last commit left them.
    pub fn committed(&self, core: CoreId) -> &Check
        requires { core.0 < (bus_settings_of self.now).cores }
        ensures { result.now ≡ ((bus_world_of self.now).cores core.0).saved }
    {
        self.engine.committed(core)
    }

    /// Whether a core has halted, and how.
    pub fn ended(&self, core: CoreId) -> CoreEnd
        requires { core.0 < (bus_settings_of self.now).cores }
        ensures { let c = (bus_world_of self.now).cores core.0 in result ≡ end_after c.phase c.ended }
    {
        self.engine.ended(core)
    }

    /// A core. It takes constant time.
    pub fn core(&self, core: CoreId) -> &CoreNode
        requires { core.0 < (bus_settings_of self.now).cores }
        ensures config { result.now.config ≡ bus_settings_of self.now }
        ensures id { result.now.id ≡ core }
        ensures state { state_of result.now ≡ (bus_world_of self.now).cores core.0 }
    {
        self.engine.core(core)
    }

    /// Who has the bus, with the packet that is on it: its lines stand by rising line, each once with all its words. It takes constant
    /// time.
    pub fn bus(&self) -> &Bus
        ensures bus { bus_of result.now ≡ (bus_world_of self.now).bus }
        ensures lines { map packet_line_of (lines_on result.now)
            ≡ packet_lines (bus_settings_of self.now) (packet_words (bus_world_of self.now).bus) }
    {
        self.engine.bus()
    }

    /// The TID of the next commit. That of the packet that is on the bus is one less.
    pub fn next(&self) -> Tid
        ensures { result.0 ≡ (bus_world_of self.now).next }
    {
        self.engine.next()
    }

    /// A word of memory, zero beyond it. It takes constant time.
    pub fn word(&self, w: WordAddr) -> u32
        ensures { result ≡ (bus_world_of self.now).ram w.0 }
    {
        self.engine.word(w)
    }

    /// The eight words of a line of memory, zero beyond it. It takes constant time.
    pub fn line(&self, line: LineAddr) -> [u32; 8]
        ensures { result ≡ line_words (bus_world_of self.now).ram line.0 }
    {
        self.engine.line(line)
    }

    /// Whether every core has halted, and no packet is on the bus. Takes time in the number of cores.
    pub fn done(&self) -> bool
        ensures { IsTrue result ↔ BusIsDone (bus_settings_of self.now) (bus_world_of self.now) }
    {
        self.engine.done()
    }
}
