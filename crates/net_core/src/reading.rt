// What is committed, and what the nodes hold.
ghost use Rattle.std.specs.Prelude.{◌≡◌, ◌<◌, ◌↔◌, [], ℕ, IsTrue, IfOk, Some, length, slice_get};
ghost use Rattle.core_node.specs.View.{core_of};
ghost use Rattle.core_node.specs.declared.state.Core.{Core as CoreData};
ghost use Rattle.rules_maps.specs.Bridge.{node_of};
ghost use Rattle.rules_maps.specs.Shape.{lines};
ghost use Rattle.rules_program.specs.Cores.{printed};
ghost use Rattle.rules_tcc.specs.Seen.{IsDone};
ghost use Rattle.theorem_serial.specs.Commits.{end_after};
ghost use Rattle.net_core.specs.Machine.{settings_of, world_of};

use crate::system::System;
use core_node::CoreNode;
use reg_checkpoint::Check;
use rv_code::Code;
use std::alloc::Global;
use tcc_base::{Commit, Config, CoreEnd, CoreId, List, NoMemory, NodeId};
use tcc_msg::Msg;

impl System {
    /// The settings.
    pub fn config(&self) -> &Config
        ensures { result.now ≡ settings_of self.now }
    {
        self.cores.code().config()
    }

    /// The program as it was loaded, and the settings.
    pub fn code(&self) -> &Code
        ensures { result.now ≡ self.now.cores.code }
    {
        self.cores.code()
    }

    /// The commits so far, by rising TID, but for those that `forget` forgot. It takes constant time.
    pub fn commits(&self) -> &[Commit]
        ensures { result.now ≡ self.now.commits }
    {
        self.commits.as_slice()
    }

    /// The core of this number, to be read. It takes constant time.
    pub fn core(&self, core: CoreId) -> &CoreNode
        requires { core.0 < (settings_of self.now).cores }
        ensures state { core_of result.now ≡ (world_of self.now).cores core.0 }
        ensures config { result.now.config ≡ settings_of self.now }
        ensures data { slice_get self.now.cores.cores core.0 ≡ Some result.now }
    {
        self.cores.core(core)
    }

    /// All cores by number, to be read. It takes constant time.
    pub fn all_cores(&self) -> &[CoreNode]
        ensures data { result.now ≡ self.now.cores.cores }
        ensures count { length self.now.cores.cores ≡ (settings_of self.now).cores }
        ensures config { (c : ℕ) (x : CoreData) → slice_get self.now.cores.cores c ≡ Some x → x.config ≡ settings_of self.now }
    {
        self.cores.all_cores()
    }

    /// What the last event sent, in order, with the destinations; nothing behind a call that failed. It takes constant time.
    pub fn last_sent(&self) -> &[(NodeId, Msg)]
        ensures { result.now ≡ self.now.last }
    {
        self.out.list.as_slice()
    }

    /// How many messages were sent on a link, where all that was sent stands on its links; 0 where there is no such link. It takes
    /// constant time.
    pub fn sent_on(&self, src: NodeId, dst: NodeId) -> u64
        requires { self.now.unsent ≡ [] }
        ensures { result ≡ length ((world_of self.now).net (node_of src) (node_of dst)) }
    {
        self.flights.sent(src, dst)
    }

    /// The registers and pc of a core as its last commit left them.
    pub fn committed(&self, core: CoreId) -> &Check
        requires { core.0 < (settings_of self.now).cores }
        ensures { result.now ≡ ((world_of self.now).cores core.0).saved }
    {
        self.cores.committed(core)
    }

    /// Whether a core has halted, and how.
    pub fn ended(&self, core: CoreId) -> CoreEnd
        requires { core.0 < (settings_of self.now).cores }
        ensures { let c = (world_of self.now).cores core.0 in result ≡ end_after c.phase c.ended }
    {
        self.cores.ended(core)
    }

    /// The bytes that a core's commits printed, one after another, but for those that `forget` forgot. Its time goes with the number of
    /// commits and of these bytes.
    pub fn console(&self, alloc: Global, core: CoreId) -> Result<List<u8>, NoMemory>
        ensures { IfOk result (λ bytes. bytes ≡ printed core.0 self.now.commits) }
    {
        self.commits.console(alloc, core)
    }

    /// Whether every core has halted, nothing is in flight, and no frame has a dirty word. Takes time in the number of cores where
    /// nothing is in flight, else constant time.
    pub fn done(&self) -> bool
        ensures { IsTrue result ↔ IsDone (settings_of self.now) (world_of self.now) }
    {
        self.is_settled() && self.flights.is_empty() && self.cores.all_rest()
    }
}
