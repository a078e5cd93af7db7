// Where a node has come to: a core's phase, the TID that a directory serves.
ghost use Rattle.std.specs.Prelude.{◌≡◌, ◌++◌, OnOk, map};
ghost use Rattle.commit_engine.specs.Engine.{phase_of};
ghost use Rattle.watch.specs.Happened.{phase_fact, serves_fact};
ghost use Rattle.watch.specs.Plain.{fact_of};

use commit_engine::Phase;
use tcc_base::{CoreId, DirId, List, NoMemory, Tid};
use watch::Fact;
use watch_core::same_phase;

/// Tells of a core's phase, where it isn't what it was.
pub(crate) fn tell_phase(
    core: CoreId,
    before: Phase,
    after: Phase,
    facts: &mut List<Fact>,
) -> Result<(), NoMemory>
    ensures { OnOk result (map fact_of facts.new ≡ map fact_of facts.old ++ phase_fact core.0 (phase_of before) (phase_of after)) }
{
    if same_phase(before, after) {
        return Ok(());
    }
    facts.push(Fact::CameTo(core, after))
}

/// Tells of what a directory serves, where it isn't what it was.
pub(crate) fn tell_serving(
    dir: DirId,
    before: Tid,
    after: Tid,
    facts: &mut List<Fact>,
) -> Result<(), NoMemory>
    ensures { OnOk result (map fact_of facts.new ≡ map fact_of facts.old ++ serves_fact dir.0 before.0 after.0) }
{
    if before.0 == after.0 {
        return Ok(());
    }
    facts.push(Fact::Serves(dir, after))
}
