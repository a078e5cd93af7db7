// What is committed, and what memory holds.
ghost use Rattle.std.specs.Prelude.{◌≡◌, ◌<◌, ◌/◌, ◌*◌, ◌↔◌, IsTrue, IfOk, map};
ghost use Rattle.rules_bus.specs.Exec.{line_words};
ghost use Rattle.rules_bus.specs.Useful.{BusIsDone};
ghost use Rattle.core_node.specs.View.{core_of};
ghost use Rattle.rv_exec.specs.Outcomes.{outcome_of};
ghost use Rattle.rules_tcc.specs.State.{Halted};
ghost use Rattle.bus_tcc.specs.Left.{packet_words};
ghost use Rattle.bus_tcc.specs.Machine.{bus_of, bus_settings_of, bus_world_of, word_in};
ghost use Rattle.bus_tcc.specs.Packets.{lines_on, packet_line_of, packet_lines};
ghost use Rattle.bus_tcc.specs.Refined.{IsBusRefined};
ghost use Rattle.rules_program.specs.Cores.{printed};
ghost use Rattle.theorem_serial.specs.Commits.{end_after};

use crate::bus::Bus;
use crate::engine::Engine;
use commit_engine::Phase;
use core_node::CoreNode;
use reg_checkpoint::Check;
use rv_code::Code;
use rv_exec::Outcome;
use std::alloc::Global;
use tcc_base::{Commit, Config, CoreEnd, CoreId, LineAddr, List, NoMemory, Tid, WordAddr};

impl Engine {
    /// The settings.
    pub(crate) fn config(&self) -> &Config
        ensures { result.now ≡ bus_settings_of self.now }
    {
        self.cores.code.config()
    }

    /// The program as it was loaded, and the settings.
    pub(crate) fn code(&self) -> &Code
        ensures { result.now ≡ self.now.code }
    {
        &self.cores.code
    }

    /// The commits so far, by rising TID. It takes constant time.
    pub(crate) fn commits(&self) -> &[Commit]
        ensures commits { result.now ≡ self.now.commits }
        ensures refined { IsBusRefined self.now }
    {
        self.commits.as_slice()
    }

    /// The bytes that a core's commits printed, one after another. Its time goes with the number of commits and of these bytes.
    pub(crate) fn console(&self, alloc: Global, core: CoreId) -> Result<List<u8>, NoMemory>
        ensures { IfOk result (λ bytes. bytes ≡ printed core.0 self.now.commits) }
    {
        self.commits.console(alloc, core)
    }

    /// The registers and pc of a core as its last commit left them.
    pub(crate) fn committed(&self, core: CoreId) -> &Check
        requires { core.0 < (bus_settings_of self.now).cores }
        ensures { result.now ≡ ((bus_world_of self.now).cores core.0).saved }
    {
        self.cores.core(core).check()
    }

    /// Whether a core has halted, and how.
    pub(crate) fn ended(&self, core: CoreId) -> CoreEnd
        requires { core.0 < (bus_settings_of self.now).cores }
        ensures { let c = (bus_world_of self.now).cores core.0 in result ≡ end_after c.phase c.ended }
    {
        end_of(self.cores.core(core))
    }

    /// A core. It takes constant time.
    pub(crate) fn core(&self, core: CoreId) -> &CoreNode
        requires { core.0 < (bus_settings_of self.now).cores }
        ensures config { result.now.config ≡ bus_settings_of self.now }
        ensures id { result.now.id ≡ core }
        ensures state { core_of result.now ≡ (bus_world_of self.now).cores core.0 }
    {
        self.cores.core(core)
    }

    /// Who has the bus, with the packet that is on it. It takes constant time.
    pub(crate) fn bus(&self) -> &Bus
        ensures bus { bus_of result.now ≡ (bus_world_of self.now).bus }
        ensures lines { map packet_line_of (lines_on result.now)
            ≡ packet_lines (bus_settings_of self.now) (packet_words (bus_world_of self.now).bus) }
    {
        &self.bus
    }

    /// The TID of the next commit.
    pub(crate) fn next(&self) -> Tid
        ensures { result.0 ≡ (bus_world_of self.now).next }
    {
        self.next
    }

    /// A word of memory, zero beyond it. It takes constant time.
    pub(crate) fn word(&self, w: WordAddr) -> u32
        ensures { result ≡ (bus_world_of self.now).ram w.0 }
    {
        word_at(&self.ram, w.0 as usize)
    }

    /// The eight words of a line of memory, zero beyond it. It takes constant time.
    pub(crate) fn line(&self, line: LineAddr) -> [u32; 8]
        ensures { result ≡ line_words (bus_world_of self.now).ram line.0 }
    {
        words_of_line(&self.ram, line)
    }

    /// Whether every core has halted, and no packet is on the bus. Takes time in the number of cores.
    pub(crate) fn done(&self) -> bool
        ensures { IsTrue result ↔ BusIsDone (bus_settings_of self.now) (bus_world_of self.now) }
    {
        !self.bus.is_packet() && self.cores.all_halted()
    }
}

/// How a core stands after its last commit.
fn end_of(core: &CoreNode) -> CoreEnd
    ensures { result ≡ end_after (core_of core.now).phase (core_of core.now).ended }
{
    match core.phase() {
        Phase::Halted => end_by(core.ended()),
        _ => CoreEnd::Run,
    }
}

/// How a core that halted did.
fn end_by(outcome: Outcome) -> CoreEnd
    ensures { result ≡ end_after Halted (outcome_of outcome) }
{
    match outcome {
        Outcome::Halted(code) => CoreEnd::Halt(code),
        Outcome::Trapped(code) => CoreEnd::Trap(code),
        Outcome::Goes | Outcome::Ended => CoreEnd::Run,
    }
}

/// The eight words of a line, zero beyond memory.
fn words_of_line(ram: &List<u32>, line: LineAddr) -> [u32; 8]
    ensures { result ≡ line_words (word_in ram.now) line.0 }
{
    let first = 8 * line.0 as usize;
    [
        word_at(ram, first),
        word_at(ram, first + 1),
        word_at(ram, first + 2),
        word_at(ram, first + 3),
        word_at(ram, first + 4),
        word_at(ram, first + 5),
        word_at(ram, first + 6),
        word_at(ram, first + 7),
    ]
}

/// A word of memory, zero beyond it.
fn word_at(ram: &List<u32>, at: usize) -> u32
    ensures { result ≡ word_in ram.now at }
{
    match ram.items.get(at) {
        Some(word) => *word,
        None => 0,
    }
}

/// The words of memory.
pub(crate) fn words_of(ram: &List<u32>) -> &[u32]
    ensures { result.now ≡ ram.now }
{
    &ram.items
}
