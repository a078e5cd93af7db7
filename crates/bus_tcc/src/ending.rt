// The commit point of a core: it waits for the bus, or is alone and executes the instruction that ends its transaction.
ghost use Rattle.std.specs.Prelude.{◌≡◌, true, None, Some, IfOk, OnOk, OnErr};
ghost use Rattle.image_load.specs.Contents.{started};
ghost use Rattle.rv_code.specs.Machine.{program};
ghost use Rattle.rules_bus.specs.Commit.{commit_out};
ghost use Rattle.core_node.specs.Answers.{IsMemory};
ghost use Rattle.core_node.specs.View.{core_of};
ghost use Rattle.rules_tcc.specs.Attempt.{is_solo};
ghost use Rattle.bus_tcc.specs.Ending.{CommitsBy, at_commit};

use core_node::{CoreError, CoreNode, Executed};
use rv_code::Code;
use tcc_base::{Commit, Tid};
use tcc_msg::Outgoing;

/// A core that is alone executes the instruction that ends its transaction, and so commits it. After want of memory the core is as
/// before.
fn execute_end(
    core: &mut CoreNode,
    code: &Code,
    tid: Tid,
    out: &mut Outgoing,
) -> Result<Commit, CoreError>
    requires same { code.now.settings ≡ core.old.config }
    requires idle { (core_of core.old).awaited ≡ None }
    requires alone { is_solo (core_of core.old).phase ≡ true }
    requires commits { CommitsBy (program (started code.now)) tid.0 (core_of core.old) (core_of core.old).phase }
    ensures does { OnOk result
        (core_of core.new ≡ (commit_out core.old.config core.old.id.0 tid.0
        (at_commit (program (started code.now)) (core_of core.old))).core) }
    ensures noted { IfOk result
        (λ c. Some c ≡ (commit_out core.old.config core.old.id.0 tid.0
        (at_commit (program (started code.now)) (core_of core.old))).commit) }
    ensures cause { OnErr result (IsMemory result) }
    ensures config { core.new.config ≡ core.old.config }
    ensures id { core.new.id ≡ core.old.id }
    ensures unchanged { OnErr result (core_of core.new ≡ core_of core.old) }
{
    match core.exec(code, out) {
        Err(error) => Err(error),
        Ok(Executed::Committed(commit)) => Ok(commit),
        Ok(Executed::Stepped) => unreachable!(),
        Ok(Executed::Asked) => unreachable!(),
    }
}

/// The commit point of a core that waits for the bus, or is alone at the end of its transaction, by this TID. After want of memory
/// the core is as before.
pub(crate) fn end(
    core: &mut CoreNode,
    code: &Code,
    tid: Tid,
    out: &mut Outgoing,
) -> Result<Commit, CoreError>
    requires same { code.now.settings ≡ core.old.config }
    requires idle { (core_of core.old).awaited ≡ None }
    requires commits { CommitsBy (program (started code.now)) tid.0 (core_of core.old) (core_of core.old).phase }
    ensures does { OnOk result
        (core_of core.new ≡ (commit_out core.old.config core.old.id.0 tid.0
        (at_commit (program (started code.now)) (core_of core.old))).core) }
    ensures noted { IfOk result
        (λ c. Some c ≡ (commit_out core.old.config core.old.id.0 tid.0
        (at_commit (program (started code.now)) (core_of core.old))).commit) }
    ensures cause { OnErr result (IsMemory result) }
    ensures config { core.new.config ≡ core.old.config }
    ensures id { core.new.id ≡ core.old.id }
    ensures unchanged { OnErr result (core_of core.new ≡ core_of core.old) }
{
    if core.phase().is_alone() {
        execute_end(core, code, tid, out)
    } else {
        core.commit(tid, out)
    }
}
