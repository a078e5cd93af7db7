// A core commits, with what it wrote.
ghost use Rattle.std.specs.Prelude.{◌≡◌, ◌<◌, Some, None, IfOk, OnOk, OnErr};
ghost use Rattle.rules_bus.specs.Commit.{bus_commit, all_clean, commit_out};
ghost use Rattle.rules_bus.specs.State.{Exec};
ghost use Rattle.rules_tcc.specs.State.{AwaitTid};
ghost use Rattle.bus_tcc.specs.Answers.{Answers, bus_step_of};
ghost use Rattle.bus_tcc.specs.Ending.{CommitsBy, at_commit};
ghost use Rattle.bus_tcc.specs.Machine.{bus_program_of, bus_settings_of, bus_world_of};
ghost use Rattle.tcc_base.specs.Limits.{run_limit};
ghost use Rattle.image_load.specs.Contents.{started};
ghost use Rattle.rv_code.specs.Machine.{program};
ghost use Rattle.core_node.specs.Answers.{IsMemory};
ghost use Rattle.core_node.specs.View.{core_of};
ghost use Rattle.rules_maps.specs.Shape.{lines};
ghost use Rattle.bus_tcc.specs.Committing.{CanCommit, IsCommitOf};

use crate::cleaning::clean_all;
use crate::ending::end;
use crate::engine::Engine;
use crate::event::{BusError, BusStep};
use crate::publishing::bus_with;
use crate::step::refusal;
use crate::storing::store_all;
use core_node::{CoreError, CoreNode};
use rv_code::Code;
use tcc_base::{Commit, CoreId, List, Tagged, Tid};
use tcc_msg::Outgoing;

/// What a commit noted, and all lines that it wrote.
#[derive(Debug, Drop)]
pub(crate) struct Written {
    pub(crate) commit: Commit,
    pub(crate) lines: List<Tagged>,
}

/// Commits the transaction of a core that waits for the bus, or is alone at its end, by this TID. After want of memory the core is as
/// before.
pub(crate) fn commit_one(
    core: &mut CoreNode,
    code: &Code,
    tid: Tid,
    out: &mut Outgoing,
) -> Result<Written, CoreError>
    requires small { lines core.old.config < 536870911 }
    requires same { code.now.settings ≡ core.old.config }
    requires idle { (core_of core.old).awaited ≡ None }
    requires commits { CommitsBy (program (started code.now)) tid.0 (core_of core.old) (core_of core.old).phase }
    requires can { CanCommit core.old.config (core_of core.old) }
    ensures does { OnOk result
        (core_of core.new ≡ all_clean
        (commit_out core.old.config core.old.id.0 tid.0 (at_commit (program (started code.now)) (core_of core.old))).core) }
    ensures wrote { IfOk result
        (λ w. IsCommitOf core.old.config core.old.id.0 tid.0 (at_commit (program (started code.now)) (core_of core.old)) w) }
    ensures cause { OnErr result (IsMemory result) }
    ensures config { core.new.config ≡ core.old.config }
    ensures id { core.new.id ≡ core.old.id }
    ensures unchanged { OnErr result (core_of core.new ≡ core_of core.old) }
{
    let lines = core.written(tid)?;
    let commit = end(core, code, tid, out)?;
    clean_all(core, tagged(&lines));
    Ok(Written { commit, lines })
}

/// The lines.
pub(crate) fn tagged(lines: &List<Tagged>) -> &[Tagged]
    ensures { result.now ≡ lines.now }
{
    &lines.items
}

impl Engine {
    /// A core commits that the rules let commit now.
    pub(crate) fn publish(&mut self, core: CoreId) -> Result<BusStep, BusError>
        requires few { self.old.events < run_limit }
        requires exists { core.0 < (bus_settings_of self.old).cores }
        requires may { let s = (bus_world_of self.old).cores core.0 in
            CommitsBy (bus_program_of self.old) (bus_world_of self.old).next s s.phase }
        requires commits { bus_step_of self.old (Exec core.0) ≡ Some
            (bus_commit (bus_settings_of self.old) (bus_world_of self.old) core.0
            (at_commit (bus_program_of self.old) ((bus_world_of self.old).cores core.0))) }
        ensures { Answers self.old self.new (Exec core.0) result }
    {
        let cores = self.config().cores();
        let Ok(()) = self.commits.reserve() else {
            return Err(BusError::Memory);
        };
        self.out.clear();
        let tid = self.next;
        match self.cores.commit(core, tid, &mut self.out) {
            Err(error) => Err(refusal(error)),
            Ok(Written { commit, lines }) => {
                store_all(&mut self.ram, tagged(&lines));
                self.bus = bus_with(lines, core, cores);
                self.commits.insert(commit);
                self.next = Tid(tid.0 + 1);
                self.events += 1;
                Ok(BusStep::Committed(tid))
            }
        }
    }

    /// A core whose transaction has ended commits, where the bus is free.
    pub(crate) fn commit(&mut self, core: CoreId) -> Result<BusStep, BusError>
        requires few { self.old.events < run_limit }
        requires exists { core.0 < (bus_settings_of self.old).cores }
        requires waits { ((bus_world_of self.old).cores core.0).phase ≡ AwaitTid }
        ensures { Answers self.old self.new (Exec core.0) result }
    {
        if !self.bus.is_free() {
            return Err(BusError::Refused);
        }
        self.publish(core)
    }
}
