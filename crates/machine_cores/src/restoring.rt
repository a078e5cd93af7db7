// A bank whose cores are made from their plain data.
ghost use Rattle.std.specs.Prelude.{◌≡◌, ◌↔◌, IsTrue, MatchBool, slice_set};
ghost use Rattle.machine_cores.specs.Restored.{IsOwnCore};

use crate::bank::CoreBank;
use crate::counting::recount;
use core_node::CoreNode;
use tcc_base::CoreId;

impl CoreBank {
    /// Whether the machine has a core of this number, and this one has that number and the machine's settings.
    fn is_own(&self, id: CoreId, node: &CoreNode) -> bool
        ensures { IsTrue result ↔ IsOwnCore self.now.code.settings id node.now }
    {
        let core = node.core();
        if id.0 >= self.code.config().cores() {
            return false;
        }
        if core.id.0 != id.0 {
            return false;
        }
        core.config == *self.code.config()
    }

    /// Puts a core in the place of the one of this number, and says whether it may: the number exists, and the core has that number
    /// and the machine's settings. Else nothing is changed. It takes the time in which the core's useful events are counted.
    pub fn restore(&mut self, id: CoreId, node: CoreNode) -> bool
        ensures cores { MatchBool result
            (self.new ≡ record self.old { cores = slice_set self.old.cores id.0 node })
            (self.new ≡ self.old) }
        ensures own { IsTrue result ↔ IsOwnCore self.old.code.settings id node }
    {
        if !self.is_own(id, &node) {
            return false;
        }
        let c = id.0 as usize;
        self.cores.items[c] = node;
        recount(
            &self.cores.items[c],
            c,
            &self.code,
            &mut self.execs,
            &mut self.evicts,
        );
        true
    }
}
