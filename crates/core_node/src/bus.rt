// What a core does on a machine whose memory is at hand, where it sends no message: the machine fills its lines, gives it TIDs and
// tells it what others commit.
ghost use Rattle.std.specs.Prelude.{◌≡◌, ◌<◌, ℕ, true, Some, None, IfOk, OnOk, OnErr};
ghost use Rattle.image_load.specs.Contents.{started};
ghost use Rattle.rv_code.specs.Machine.{program};
ghost use Rattle.rules_maps.specs.CacheChange.{cleaned, read_cleared};
ghost use Rattle.rules_maps.specs.CacheLook.{reads_masked};
ghost use Rattle.rules_maps.specs.Shape.{lines};
ghost use Rattle.rules_maps.specs.Words.{line_of};
ghost use Rattle.rules_tcc.specs.Attempt.{roll_back as rolled};
ghost use Rattle.rules_tcc.specs.Commit.{commit as commit_rule};
ghost use Rattle.rules_tcc.specs.CoreDeliver.{words_invalidated};
ghost use Rattle.rules_tcc.specs.CoreExec.{core_exec};
ghost use Rattle.rules_tcc.specs.State.{Running, Solo};
ghost use Rattle.core_node.specs.Answers.{IsBlocked, IsMemory};
ghost use Rattle.core_node.specs.AtHand.{Leaves, ends_by, executes, goes_alone, line_at, lines_told, ready};
ghost use Rattle.core_node.specs.View.{core_of, IsCore, Stays};

use crate::at_hand::{ends, exec_from};
use crate::delivering::CoreError;
use crate::exec::commit_ready;
use crate::messages::strike;
use crate::node::CoreNode;
use crate::overflowing::overflows;
use crate::rolling::roll_back;
use crate::state::Core;
use crate::writing::written;
use commit_engine::Phase;
use rv_code::Code;
use tcc_base::{Commit, LineAddr, List, Mask, Tagged, Tid};
use tcc_msg::Outgoing;

/// The core is alone by this TID, and reads without marks.
#[tactic(auto, unfolding(crate::specs::View::core_of))]
fn go_alone(core: &mut Core, tid: Tid)
    requires whole { IsCore core.old }
    ensures does { core_of core.new ≡ record (core_of core.old) { phase = Solo tid.0; cache = read_cleared (core_of core.old).cache } }
    ensures stays { Stays core.old core.new }
{
    core.cache.clear_read();
    core.phase = Phase::Solo(tid);
}

/// The core runs anew from its checkpoint.
#[tactic(auto, unfolding(crate::specs::View::core_of))]
fn restart(core: &mut Core)
    requires whole { IsCore core.old }
    ensures does { core_of core.new ≡ record (rolled (core_of core.old)) { phase = Running } }
    ensures stays { Stays core.old core.new }
{
    roll_back(core);
    core.phase = Phase::Running;
}

/// Words of the line that are dirty are so no more.
#[tactic(auto, unfolding(crate::specs::View::core_of))]
fn clean(core: &mut Core, line: LineAddr)
    requires whole { IsCore core.old }
    ensures does { core_of core.new ≡ record (core_of core.old) { cache = cleaned line.0 (core_of core.old).cache } }
    ensures stays { Stays core.old core.new }
{
    core.cache.take_dirty(line);
}

impl CoreNode {
    /// Whether an execution would make the core wait to go on alone: it runs, and the set in which it wants a line is full of marked
    /// ones. The code is of the same machine. Takes no memory.
    pub fn overflows(&self, code: &Code) -> bool
        requires { code.now.settings ≡ self.now.config }
        ensures { result ≡ goes_alone (core_exec self.now.config (program (started code.now)) self.now.id.0 (core_of self.now)) }
    {
        overflows(&self.core, code)
    }

    /// Whether the instruction at pc ends its transaction. The code is of the same machine. Takes no memory.
    pub fn ends(&self, code: &Code) -> bool
        requires { code.now.settings ≡ self.now.config }
        ensures { result ≡ ends_by ((program (started code.now)).need (core_of self.now).local) }
    {
        ends(&self.core, code)
    }

    /// The core is alone by this TID, and reads without marks. Takes time in the cache's frames.
    pub fn go_alone(&mut self, tid: Tid)
        ensures does { core_of self.new ≡ record (core_of self.old) { phase = Solo tid.0; cache = read_cleared (core_of self.old).cache } }
        ensures stays { Stays self.old self.new }
    {
        go_alone(&mut self.core, tid);
    }

    /// The core begins its transaction anew, and runs. Takes time in the cache's frames.
    pub fn restart(&mut self)
        ensures does { core_of self.new ≡ record (rolled (core_of self.old)) { phase = Running } }
        ensures stays { Stays self.old self.new }
    {
        restart(&mut self.core);
    }

    /// The masked words of the line that aren't modified are dropped, and an awaited line becomes stale. Says whether a masked word was
    /// marked read.
    pub fn strike(&mut self, line: LineAddr, mask: Mask) -> bool
        ensures does { core_of self.new ≡ words_invalidated line.0 mask.0 (core_of self.old) }
        ensures read { result ≡ reads_masked line.0 mask.0 (core_of self.old).cache }
        ensures stays { Stays self.old self.new }
    {
        strike(&mut self.core, line, mask)
    }

    /// The line's dirty words are known elsewhere: they are dirty no more.
    pub fn clean(&mut self, line: LineAddr)
        ensures does { core_of self.new ≡ record (core_of self.old) { cache = cleaned line.0 (core_of self.old).cache } }
        ensures stays { Stays self.old self.new }
    {
        clean(&mut self.core, line);
    }

    /// The commit point of a transaction that has ended, by this TID. After want of memory the core is as before.
    pub fn commit(&mut self, tid: Tid, out: &mut Outgoing) -> Result<Commit, CoreError>
        ensures does { OnOk result (core_of self.new ≡ (commit_rule self.old.config self.old.id.0 tid.0 (core_of self.old)).core) }
        ensures noted { IfOk result (λ c. Some c ≡ (commit_rule self.old.config self.old.id.0 tid.0 (core_of self.old)).commit) }
        ensures cause { OnErr result (IsMemory result) }
        ensures stays { Stays self.old self.new }
        ensures unchanged { OnErr result (core_of self.new ≡ core_of self.old) }
    {
        match commit_ready(&mut self.core, tid, out)? {
            Some(commit) => Ok(commit),
            None => unreachable!(),
        }
    }

    /// Executes one instruction of a core that runs or is alone and awaits no line. Where it reads a word that isn't spilled, all words of
    /// its line that aren't valid come from memory, whose words these are. Blocked exactly where it waits for room. After an error the
    /// core is as before. In an attempt of 2^32 - 1 instructions, which is as long as can be counted, one that the rules allow finds no
    /// memory.
    pub fn exec_from(
        &mut self,
        code: &Code,
        ram: &[u32],
        out: &mut Outgoing,
    ) -> Result<(), CoreError>
        requires same { code.now.settings ≡ self.old.config }
        requires executes { executes (core_of self.old).phase ≡ true }
        requires idle { (core_of self.old).awaited ≡ None }
        ensures does { OnOk result
            (Leaves (core_exec self.old.config (program (started code.now)) self.old.id.0
            (ready self.old.config (program (started code.now)) (line_at ram.now) (core_of self.old))) (core_of self.new)) }
        ensures blocked { IsBlocked result
            (core_exec self.old.config (program (started code.now)) self.old.id.0
            (ready self.old.config (program (started code.now)) (line_at ram.now) (core_of self.old))) }
        ensures stays { Stays self.old self.new }
        ensures unchanged { OnErr result (core_of self.new ≡ core_of self.old) }
    {
        exec_from(&mut self.core, code, ram, out)
    }

    /// All lines that the attempt has written, each with the mask of these words, what the core has of it and this TID. Takes time in
    /// the cache's marked frames, and in the spilled lines, which it puts in order.
    pub fn written(&self, tid: Tid) -> Result<List<Tagged>, CoreError>
        requires small { lines self.now.config < 536870911 }
        ensures lines { IfOk result (λ ts. ts ≡ lines_told self.now.config tid.0 (core_of self.now)) }
        ensures cause { OnErr result (IsMemory result) }
    {
        written(&self.core, tid)
    }
}
