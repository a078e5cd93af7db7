// A core of the machine, with the calls by which it takes messages, empties frames and is looked at.
ghost use Rattle.std.specs.Prelude.{◌≡◌, ◌<◌, IfOk, IsTrue, MatchOption, OnOk, OnErr, is_some, length, slice_get, false, true, Some, None, ℕ};
ghost use Rattle.rules_maps.specs.Bridge.{node_of};
ghost use Rattle.tcc_msg.specs.Plain.{msg_of};
ghost use Rattle.rules_tcc.specs.CoreDeliver.{core_deliver};
ghost use Rattle.image_load.specs.Contents.{started};
ghost use Rattle.rv_code.specs.Machine.{program};
ghost use Rattle.rules_tcc.specs.CoreEvict.{core_evict};
ghost use Rattle.rules_tcc.specs.CoreExec.{core_exec};
ghost use Rattle.rules_tcc.specs.Useful.{room};
ghost use Rattle.rules_tcc.specs.State.{core_start};
ghost use Rattle.rules_maps.specs.Cache.{is_dirty, IsCache};
ghost use Rattle.rules_maps.specs.Shape.{lines};
ghost use Rattle.rules_maps.specs.Words.{any_below};
ghost use Rattle.spec_cache.specs.Held.{maps};
ghost use Rattle.spec_cache.specs.Look.{Views};
ghost use Rattle.commit_engine.specs.Engine.{phase_of, after_of};
ghost use Rattle.rv_code.specs.Machine.{start_local};
ghost use Rattle.core_node.specs.Executing.{TellsOfEvent};
ghost use Rattle.core_node.specs.Useful.{useful_evicts as useful_pairs};
ghost use Rattle.core_node.specs.View.{core_of, IsKnown, Stays};
ghost use Rattle.core_node.specs.Answers.{Happened, IsBlocked};

use crate::delivering::{CoreError, from_dir, from_vendor};
use crate::evicting::{can_evict, evict};
use crate::exec::{Executed, exec};
use crate::state::Core;
use crate::useful::{useful_evict, useful_evicts, uses};
use crate::waiting::{may_exec, waits_for_room};
use commit_engine::{DirSet, Phase};
use overflow_buf::OverflowBuf;
use reg_checkpoint::Check;
use rv_code::{Code, start_state};
use rv_exec::Outcome;
use spec_cache::{FrameView, SpecCache};
use std::alloc::Global;
use std::marker::Model;
use tcc_base::{Config, CoreId, LineAddr, List, NoMemory, NodeId, Tid};
use tcc_msg::{Msg, Outgoing};

/// A core. Contracts speak of the state of the rules that it stands for.
#[derive(Debug, Drop)]
pub struct CoreNode {
    pub(crate) core: Core,
}

impl Model for CoreNode {
    ghost use Rattle.core_node.specs.View.{IsCore};
    ghost use Rattle.core_node.specs.declared.state.Core.{Core};

    ghost Value = { Core };

    ghost view = { λ n. n.core };

    ghost invariant = { λ n. IsCore n.core };
}

/// No commit yet at any directory.
fn no_commits() -> [Tid; 64]
    ensures none { after_of result ≡ (λ d. 0) }
    ensures count { length result ≡ 64 }
{
    [Tid(0); 64]
}

impl CoreNode {
    /// A core that runs from its entry, with empty frames. All memory of its cache is taken here.
    #[tactic(auto, unfolding(crate::specs::View::core_of))]
    pub fn start(alloc: Global, cfg: &Config, id: CoreId, entry: u32) -> Result<CoreNode, NoMemory>
        ensures state { IfOk result (λ n. core_of n ≡ core_start (start_local cfg.now.cores id.0 entry)) }
        ensures config { IfOk result (λ n. n.config ≡ cfg.now) }
        ensures id { IfOk result (λ n. n.id ≡ id) }
    {
        let state = start_state(cfg.cores(), id.0, entry);
        Ok(CoreNode {
            core: Core {
                config: *cfg,
                id,
                state,
                check: Check::save(&state),
                n: 0,
                loads: List::new(alloc),
                stores: List::new(alloc),
                console: List::new(alloc),
                ended: Outcome::Goes,
                phase: Phase::Running,
                owing: DirSet::none(),
                after: no_commits(),
                cache: SpecCache::new(alloc, cfg)?,
                spilled: OverflowBuf::new(alloc),
                awaited: None,
            },
        })
    }

    /// Takes a message. Blocked exactly where the rules know no such message to a core; after an error the core is as before
    /// and nothing is sent. The sender exists.
    #[tactic(auto, unfolding(rules_tcc::specs::CoreDeliver::core_deliver))]
    #[inline(always)]
    pub fn deliver(&mut self, src: NodeId, msg: &Msg, out: &mut Outgoing) -> Result<(), CoreError>
        requires { IsKnown self.old.config src }
        ensures does { OnOk result
            (Happened (core_deliver self.old.config (core_of self.old) (node_of src) (msg_of msg.now)) out.old self.new out.new) }
        ensures blocked { IsBlocked result (core_deliver self.old.config (core_of self.old) (node_of src) (msg_of msg.now)) }
        ensures stays { Stays self.old self.new }
        ensures unchanged { OnErr result (self.new ≡ self.old) }
        ensures unsent { OnErr result (out.new.list.items ≡ out.old.list.items) }
    {
        match src {
            NodeId::Core(_) => Err(CoreError::Blocked),
            NodeId::Dir(d) => from_dir(&mut self.core, d, msg, out),
            NodeId::Vendor => from_vendor(&mut self.core, msg, out),
        }
    }

    /// Executes one instruction of a core that runs or is alone, or commits a transaction whose directories all serve its TID. Blocked
    /// exactly where the rules don't allow it: in any other phase, while a line is awaited, and while the instruction waits for room.
    /// After an error the core is as before and nothing is sent. An attempt of 2^32 - 1 instructions is as long as can be counted: an
    /// instruction that the rules allow then finds no memory. Takes constant time, but for a commit, which takes time in the cache's
    /// frames, and for one of a core that is alone also in the spilled lines.
    #[inline(always)]
    pub fn exec(&mut self, code: &Code, out: &mut Outgoing) -> Result<Executed, CoreError>
        requires same { code.now.settings ≡ self.old.config }
        ensures does { OnOk result
            (Happened (core_exec self.old.config (program (started code.now)) self.old.id.0 (core_of self.old)) out.old self.new
            out.new) }
        ensures told { IfOk result (λ e. TellsOfEvent e
            (core_exec self.old.config (program (started code.now)) self.old.id.0 (core_of self.old))) }
        ensures blocked { IsBlocked result (core_exec self.old.config (program (started code.now)) self.old.id.0 (core_of self.old)) }
        ensures stays { Stays self.old self.new }
        ensures unchanged { OnErr result (core_of self.new ≡ core_of self.old) }
        ensures unsent { OnErr result (out.new.list.items ≡ out.old.list.items) }
    {
        exec(&mut self.core, code, out)
    }

    /// Empties a way: its dirty words go home and its modified words to the overflow buffer. Blocked exactly where the rules
    /// don't allow it; after an error the core is as before and nothing is sent.
    #[inline(always)]
    pub fn evict(&mut self, set: u16, way: u8, out: &mut Outgoing) -> Result<(), CoreError>
        requires set_exists { set < self.old.config.sets }
        requires way_exists { way < self.old.config.ways }
        ensures does { OnOk result (Happened (core_evict self.old.config set way (core_of self.old)) out.old self.new out.new) }
        ensures blocked { IsBlocked result (core_evict self.old.config set way (core_of self.old)) }
        ensures stays { Stays self.old self.new }
        ensures unchanged { OnErr result (core_of self.new ≡ core_of self.old) }
        ensures unsent { OnErr result (out.new.list.items ≡ out.old.list.items) }
    {
        evict(&mut self.core, set, way, out)
    }

    /// Whether the way may be emptied now. Takes no memory.
    pub fn can_evict(&self, set: u16, way: u8) -> bool
        requires set_exists { set < self.now.config.sets }
        requires way_exists { way < self.now.config.ways }
        ensures { result ≡ is_some (core_evict self.now.config set way (core_of self.now)) }
    {
        can_evict(&self.core, set, way)
    }

    /// Whether the core may execute. The code is of the same machine. Takes no memory.
    pub fn can_exec(&self, code: &Code) -> bool
        requires { code.now.settings ≡ self.now.config }
        ensures { result ≡ is_some (core_exec self.now.config (program (started code.now)) self.now.id.0 (core_of self.now)) }
    {
        may_exec(&self.core, waits_for_room(&self.core, code))
    }

    /// The set in which the core waits for room, so that it is of use to empty a frame there; None where it doesn't wait. The code
    /// is of the same machine. Takes no memory.
    pub fn waits_for_room(&self, code: &Code) -> Option<u16>
        requires { code.now.settings ≡ self.now.config }
        ensures { result ≡ room self.now.config (program (started code.now)) (core_of self.now) }
    {
        waits_for_room(&self.core, code)
    }

    /// Whether the core may execute, and the set in which it waits for room: `can_exec` and `waits_for_room` at the price of one.
    pub fn outlook(&self, code: &Code) -> (bool, Option<u16>)
        requires { code.now.settings ≡ self.now.config }
        ensures exec { result.0 ≡ is_some (core_exec self.now.config (program (started code.now)) self.now.id.0 (core_of self.now)) }
        ensures room { result.1 ≡ room self.now.config (program (started code.now)) (core_of self.now) }
    {
        let waits = waits_for_room(&self.core, code);
        (may_exec(&self.core, waits), waits)
    }

    /// How many evictions are useful: those that the rules allow, where words leave the way or the core waits for room in its set.
    /// The code is of the same machine. Takes no memory.
    pub fn useful_evicts(&self, code: &Code) -> usize
        requires { code.now.settings ≡ self.now.config }
        ensures { result ≡ length (useful_pairs self.now.config (program (started code.now)) (core_of self.now)) }
    {
        useful_evicts(&self.core, code)
    }

    /// Whether the core may execute, and how many evictions are useful: `can_exec` and `useful_evicts` at the price of one.
    #[inline(always)]
    pub fn uses(&self, code: &Code) -> (bool, usize)
        requires { code.now.settings ≡ self.now.config }
        ensures exec { result.0 ≡ is_some (core_exec self.now.config (program (started code.now)) self.now.id.0 (core_of self.now)) }
        ensures evicts { result.1 ≡ length (useful_pairs self.now.config (program (started code.now)) (core_of self.now)) }
    {
        uses(&self.core, code)
    }

    /// The set and way of the `k`-th useful eviction, from 0, in the order of set and way; None exactly where there are no more than
    /// `k`. The code is of the same machine. Takes no memory.
    pub fn useful_evict(&self, code: &Code, k: usize) -> Option<(u16, u8)>
        requires { code.now.settings ≡ self.now.config }
        ensures { result ≡ slice_get (useful_pairs self.now.config (program (started code.now)) (core_of self.now)) k }
    {
        useful_evict(&self.core, code, k)
    }

    /// Whether the cache has a dirty word, of which the home doesn't know yet. It takes constant time.
    #[tactic(auto, unfolding(crate::specs::View::core_of))]
    pub fn any_dirty(&self) -> bool
        ensures { result ≡ any_below (is_dirty (core_of self.now).cache) (lines self.now.config) }
    {
        self.core.cache.any_dirty()
    }

    /// A law of every core: the maps of its cache are consistent, and each line that has a frame is one of memory. It takes constant
    /// time.
    #[tactic(auto, unfolding(crate::specs::View::core_of))]
    pub fn keeps_cache(&self)
        ensures consistent { IsCache self.now.config (core_of self.now).cache }
        ensures in_memory { (l : ℕ) → (core_of self.now).cache.held l ≡ true → l < lines self.now.config }
    {
        self.core.cache.keeps_order();
    }

    /// How far the core has come with its transaction.
    #[tactic(auto, unfolding(crate::specs::View::core_of))]
    pub fn phase(&self) -> Phase
        ensures { phase_of result ≡ (core_of self.now).phase }
    {
        self.core.phase
    }

    /// The frame of a way; None exactly where it holds no line.
    #[tactic(auto, unfolding(crate::specs::View::core_of))]
    pub fn frame(&self, set: u16, way: u8) -> Option<FrameView>
        requires set_exists { set < self.now.config.sets }
        requires way_exists { way < self.now.config.ways }
        ensures { let c = (core_of self.now).cache in
            MatchOption result (c.at set way ≡ None) (λ f. (c.at set way ≡ Some f.line.0) × Views c f.line.0 f) }
    {
        self.core.cache.frame(set, way)
    }

    /// The frame of a line; None exactly where it has none.
    #[tactic(auto, unfolding(crate::specs::View::core_of))]
    pub fn frame_of(&self, line: LineAddr) -> Option<FrameView>
        ensures { let c = (core_of self.now).cache in
            MatchOption result (c.held line.0 ≡ false) (λ f. IsTrue (c.held line.0) × Views c line.0 f) }
    {
        self.core.cache.frame_of(line)
    }

    /// All that the core holds, to be read. It takes constant time.
    pub fn core(&self) -> &Core
        ensures { result.now ≡ self.now }
    {
        &self.core
    }

    /// The core's cache, to be read. It takes constant time.
    pub fn cache(&self) -> &SpecCache
        ensures data { result.now ≡ self.now.cache }
        ensures config { result.now.config ≡ self.now.config }
    {
        &self.core.cache
    }

    /// The checkpoint: registers and pc as the last commit left them.
    pub fn check(&self) -> &Check
        ensures { result.now ≡ self.now.check }
    {
        &self.core.check
    }

    /// How the present attempt ended, and how a halted core did.
    pub fn ended(&self) -> Outcome
        ensures { result ≡ self.now.ended }
    {
        self.core.ended
    }

    /// The number of instructions that the present attempt has done.
    pub fn instructions(&self) -> u32
        ensures { result ≡ self.now.n }
    {
        self.core.n
    }

    /// The number of console bytes of the present attempt.
    pub fn console_len(&self) -> usize
        ensures { result ≡ length self.now.console }
    {
        self.core.console.items.len()
    }
}
