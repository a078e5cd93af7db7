// The cores of the machine.
ghost use Rattle.std.specs.Prelude.{◌≡◌, ◌<◌, ◌↔◌, ℕ, true, IsTrue, IfOk, OnOk, OnErr, Some, None};
ghost use Rattle.image_load.specs.Contents.{started};
ghost use Rattle.rules_tcc.specs.CoreEvict.{core_evict};
ghost use Rattle.rules_tcc.specs.State.{Halted};
ghost use Rattle.core_node.specs.Answers.{IsBlocked, IsMemory};
ghost use Rattle.core_node.specs.View.{core_of};
ghost use Rattle.machine_cores.specs.Bank.{cores_of, first_core};
ghost use Rattle.rules_bus.specs.Commit.{all_clean, commit_out};
ghost use Rattle.rules_bus.specs.Exec.{instruction};
ghost use Rattle.bus_tcc.specs.Committing.{CanCommit, IsCommitOf};
ghost use Rattle.bus_tcc.specs.Bank.{Acted, ExecutedAt};
ghost use Rattle.bus_tcc.specs.Ending.{CommitsBy, at_commit};
ghost use Rattle.bus_tcc.specs.Machine.{word_in};
ghost use Rattle.bus_tcc.specs.Taking.{took};
ghost use Rattle.tcc_base.specs.Put.{put};
ghost use Rattle.core_node.specs.AtHand.{ends_by, executes};
ghost use Rattle.rv_code.specs.Machine.{program};

use crate::commit::{Written, commit_one};
use crate::exec::execute_one;
use crate::take::take_lines;
use commit_engine::Phase;
use core_node::{CoreError, CoreNode};
use machine_cores::start_cores;
use rv_code::Code;
use std::alloc::Global;
use std::marker::Model;
use tcc_base::{CoreId, List, NoMemory, Tagged, Tid};
use tcc_msg::Outgoing;

/// All cores of a machine with the program that they run. In a clause `cores_of` makes of it the states of the rules by core.
#[derive(Debug, Drop)]
pub struct BusBank {
    pub(crate) code: Code,
    pub(crate) cores: List<CoreNode>,
}

impl Model for BusBank {
    ghost use Rattle.machine_cores.specs.Bank.{CoresData};

    ghost Value = { CoresData };

    ghost use Rattle.bus_tcc.specs.BankInside.{bank_of, IsBank};

    ghost view = { bank_of };

    ghost invariant = { IsBank };
}

impl BusBank {
    /// All cores at their entries with empty frames. All memory of their caches is taken here.
    pub fn start(alloc: Global, code: Code) -> Result<BusBank, NoMemory>
        ensures code { IfOk result (λ b. b.code ≡ code) }
        ensures start { IfOk result (λ b. cores_of b ≡ first_core (started code)) }
    {
        let cores = start_cores(alloc, &code)?;
        Ok(BusBank { code, cores })
    }

    /// The core of this number.
    pub fn core(&self, core: CoreId) -> &CoreNode
        requires { core.0 < self.now.code.settings.cores }
        ensures config { result.now.config ≡ self.now.code.settings }
        ensures id { result.now.id ≡ core }
        ensures state { core_of result.now ≡ cores_of self.now core.0 }
    {
        &self.cores.items[core.0 as usize]
    }

    /// A core empties a way: `CoreNode::evict` for the core of that number.
    pub fn evict(
        &mut self,
        core: CoreId,
        set: u16,
        way: u8,
        out: &mut Outgoing,
    ) -> Result<(), CoreError>
        requires exists { core.0 < self.old.code.settings.cores }
        requires set_exists { set < self.old.code.settings.sets }
        requires way_exists { way < self.old.code.settings.ways }
        ensures does { OnOk result (Acted (core_evict self.old.code.settings set way (cores_of self.old core.0)) core.0 self.old self.new) }
        ensures blocked { IsBlocked result (core_evict self.old.code.settings set way (cores_of self.old core.0)) }
        ensures code { self.new.code ≡ self.old.code }
        ensures unchanged { OnErr result (cores_of self.new ≡ cores_of self.old) }
    {
        self.cores.items[core.0 as usize].evict(set, way, out)
    }

    /// A core that runs or is alone executes: one that finds its set full of marked lines goes alone by this TID. Says whether it is
    /// alone then. After an error the cores are as before.
    pub fn execute(
        &mut self,
        core: CoreId,
        ram: &[u32],
        tid: Tid,
        out: &mut Outgoing,
    ) -> Result<bool, CoreError>
        requires exists { core.0 < self.old.code.settings.cores }
        requires executes { executes (cores_of self.old core.0).phase ≡ true }
        requires idle { (cores_of self.old core.0).awaited ≡ None }
        ensures does { IfOk result
            (λ alone. ExecutedAt alone tid.0
            (instruction self.old.code.settings (program (started self.old.code)) (word_in ram.now) core.0
            (cores_of self.old core.0)) core.0 self.old self.new) }
        ensures blocked { IsBlocked result
            (instruction self.old.code.settings (program (started self.old.code)) (word_in ram.now) core.0 (cores_of self.old core.0)) }
        ensures code { self.new.code ≡ self.old.code }
        ensures unchanged { OnErr result (cores_of self.new ≡ cores_of self.old) }
    {
        execute_one(
            &mut self.cores.items[core.0 as usize],
            &self.code,
            ram,
            tid,
            out,
        )
    }

    /// Whether the instruction at the core's pc ends its transaction.
    pub fn ends(&self, core: CoreId) -> bool
        requires { core.0 < self.now.code.settings.cores }
        ensures { result ≡ ends_by ((program (started self.now.code)).need (cores_of self.now core.0).local) }
    {
        self.core(core).ends(&self.code)
    }

    /// A core that waits for the bus, or is alone at the end of its transaction, commits by this TID, and says what it wrote. After want
    /// of memory the cores are as before.
    pub(crate) fn commit(
        &mut self,
        core: CoreId,
        tid: Tid,
        out: &mut Outgoing,
    ) -> Result<Written, CoreError>
        requires exists { core.0 < self.old.code.settings.cores }
        requires idle { (cores_of self.old core.0).awaited ≡ None }
        requires commits { CommitsBy (program (started self.old.code)) tid.0 (cores_of self.old core.0) (cores_of self.old core.0).phase }
        requires can { CanCommit self.old.code.settings (cores_of self.old core.0) }
        ensures does { OnOk result
            (cores_of self.new ≡ put (cores_of self.old) core.0
            (all_clean (commit_out self.old.code.settings core.0 tid.0
            (at_commit (program (started self.old.code)) (cores_of self.old core.0))).core)) }
        ensures wrote { IfOk result
            (λ w. IsCommitOf self.old.code.settings core.0 tid.0
            (at_commit (program (started self.old.code)) (cores_of self.old core.0)) w) }
        ensures cause { OnErr result (IsMemory result) }
        ensures code { self.new.code ≡ self.old.code }
        ensures unchanged { OnErr result (cores_of self.new ≡ cores_of self.old) }
    {
        commit_one(&mut self.cores.items[core.0 as usize], &self.code, tid, out)
    }

    /// A core takes the lines of a packet. Takes time in these lines, and where the core begins anew in its cache's frames.
    pub fn take(&mut self, core: CoreId, lines: &[Tagged])
        requires exists { core.0 < self.old.code.settings.cores }
        ensures does { cores_of self.new ≡ put (cores_of self.old) core.0 (took lines.now (cores_of self.old core.0)) }
        ensures code { self.new.code ≡ self.old.code }
    {
        take_lines(&mut self.cores.items[core.0 as usize], lines);
    }

    /// Whether every core has halted. Takes time in the number of cores.
    pub fn all_halted(&self) -> bool
        ensures { IsTrue result ↔ ((c : ℕ) → c < self.now.code.settings.cores → (cores_of self.now c).phase ≡ Halted) }
    {
        for core in &self.cores.items {
            if !halted(core) {
                return false;
            }
        }
        true
    }
}

/// Whether a core has halted.
fn halted(core: &CoreNode) -> bool
    ensures { IsTrue result ↔ ((core_of core.now).phase ≡ Halted) }
{
    core.phase() == Phase::Halted
}
