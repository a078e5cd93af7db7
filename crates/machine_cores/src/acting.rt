// What one core of a machine does.
ghost use Rattle.std.specs.Prelude.{◌≡◌, ◌<◌, IfOk, OnOk, OnErr, length};
ghost use Rattle.image_load.specs.Contents.{started};
ghost use Rattle.rv_code.specs.Machine.{program};
ghost use Rattle.rules_maps.specs.Bridge.{node_of};
ghost use Rattle.tcc_msg.specs.Plain.{msg_of};
ghost use Rattle.rules_tcc.specs.CoreDeliver.{core_deliver};
ghost use Rattle.rules_tcc.specs.CoreEvict.{core_evict};
ghost use Rattle.rules_tcc.specs.CoreExec.{core_exec};
ghost use Rattle.core_node.specs.Answers.{IsBlocked};
ghost use Rattle.core_node.specs.Executing.{TellsOfEvent};
ghost use Rattle.core_node.specs.View.{IsKnown};
ghost use Rattle.machine_cores.specs.Acted.{Acted};
ghost use Rattle.machine_cores.specs.Bank.{cores_of};

use crate::bank::CoreBank;
use crate::counting::recount;
use core_node::{CoreError, Executed};
use tcc_base::{CoreId, NodeId};
use tcc_msg::{Msg, Outgoing};

impl CoreBank {
    /// A core executes: `CoreNode::exec` for the core of that number.
    pub fn exec(&mut self, core: CoreId, out: &mut Outgoing) -> Result<Executed, CoreError>
        requires exists { core.0 < self.old.code.settings.cores }
        ensures does { OnOk result
            (Acted (core_exec self.old.code.settings (program (started self.old.code)) core.0 (cores_of self.old core.0)) core.0
            self.old self.new out.old out.new) }
        ensures told { IfOk result (λ e. TellsOfEvent e
            (core_exec self.old.code.settings (program (started self.old.code)) core.0 (cores_of self.old core.0))) }
        ensures blocked { IsBlocked result
            (core_exec self.old.code.settings (program (started self.old.code)) core.0 (cores_of self.old core.0)) }
        ensures code { self.new.code ≡ self.old.code }
        ensures unchanged { OnErr result (cores_of self.new ≡ cores_of self.old) }
        ensures unsent { OnErr result (out.new.list.items ≡ out.old.list.items) }
    {
        let c = core.0 as usize;
        let done = self.cores.items[c].exec(&self.code, out);
        recount(
            &self.cores.items[c],
            c,
            &self.code,
            &mut self.execs,
            &mut self.evicts,
        );
        done
    }

    /// A core empties a way: `CoreNode::evict` for the core of that number.
    pub fn evict(
        &mut self,
        core: CoreId,
        set: u16,
        way: u8,
        out: &mut Outgoing,
    ) -> Result<(), CoreError>
        requires exists { core.0 < self.old.code.settings.cores }
        requires set_exists { set < self.old.code.settings.sets }
        requires way_exists { way < self.old.code.settings.ways }
        ensures does { OnOk result
            (Acted (core_evict self.old.code.settings set way (cores_of self.old core.0)) core.0 self.old self.new out.old out.new) }
        ensures blocked { IsBlocked result (core_evict self.old.code.settings set way (cores_of self.old core.0)) }
        ensures code { self.new.code ≡ self.old.code }
        ensures unchanged { OnErr result (cores_of self.new ≡ cores_of self.old) }
        ensures unsent { OnErr result (out.new.list.items ≡ out.old.list.items) }
    {
        let c = core.0 as usize;
        let done = self.cores.items[c].evict(set, way, out);
        recount(
            &self.cores.items[c],
            c,
            &self.code,
            &mut self.execs,
            &mut self.evicts,
        );
        done
    }

    /// A core takes a message: `CoreNode::deliver` for the core of that number.
    pub fn deliver(
        &mut self,
        core: CoreId,
        src: NodeId,
        msg: &Msg,
        out: &mut Outgoing,
    ) -> Result<(), CoreError>
        requires exists { core.0 < self.old.code.settings.cores }
        requires known { IsKnown self.old.code.settings src }
        ensures does { OnOk result
            (Acted (core_deliver self.old.code.settings (cores_of self.old core.0) (node_of src) (msg_of msg.now)) core.0 self.old
            self.new out.old out.new) }
        ensures blocked { IsBlocked result (core_deliver self.old.code.settings (cores_of self.old core.0) (node_of src) (msg_of msg.now)) }
        ensures code { self.new.code ≡ self.old.code }
        ensures unchanged { OnErr result (cores_of self.new ≡ cores_of self.old) }
        ensures unsent { OnErr result (out.new.list.items ≡ out.old.list.items) }
    {
        let c = core.0 as usize;
        let done = self.cores.items[c].deliver(src, msg, out);
        recount(
            &self.cores.items[c],
            c,
            &self.code,
            &mut self.execs,
            &mut self.evicts,
        );
        done
    }
}
