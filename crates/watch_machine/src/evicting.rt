// A way is emptied.
ghost use Rattle.std.specs.Prelude.{◌≡◌, ◌≢◌, ◌++◌, ◌<◌, [], None, OnOk, map};
ghost use Rattle.std.specs.Option.{option_to_list};
ghost use Rattle.rules_maps.specs.Nodes.{Evict};
ghost use Rattle.commit_engine.specs.Engine.{phase_of};
ghost use Rattle.net_core.specs.Answers.{step_of};
ghost use Rattle.net_core.specs.Machine.{settings_of, world_of};
ghost use Rattle.watch.specs.Happened.{commit_fact, phase_fact};
ghost use Rattle.watch.specs.Plain.{fact_of};
ghost use Rattle.watch_machine.specs.Watched.{WatchedNode, told_commit};
ghost use Rattle.net_core.specs.Limits.{machine_limit};

use crate::commits::tell_commit;
use crate::moving::tell_phase;
use crate::sending::advance;
use commit_engine::Phase;
use net_core::{Step, StepError, System};
use tcc_base::{CoreId, List, NoMemory};
use tcc_msg::Event;
use watch::Fact;
use watch_core::evicted;

/// Tells of an eviction: what stood in the way, and the machine after it.
fn tell_evict(
    system: &System,
    id: CoreId,
    held: Option<Fact>,
    before: Phase,
    step: Step,
    facts: &mut List<Fact>,
) -> Result<(), NoMemory>
    requires { id.0 < (settings_of system.now).cores }
    ensures { OnOk result (map fact_of facts.new ≡ map fact_of facts.old ++ (map fact_of (option_to_list held)
        ++ (commit_fact (told_commit step system.now.commits)
        ++ phase_fact id.0 (phase_of before) ((world_of system.now).cores id.0).phase))) }
{
    if let Some(fact) = held {
        facts.push(fact)?;
    }
    tell_commit(system.commits(), step, facts)?;
    tell_phase(id, before, system.core(id).phase(), facts)
}

/// A way of a core is emptied, which is enabled.
pub(crate) fn watch_evict(
    system: &mut System,
    id: CoreId,
    set: u16,
    way: u8,
    facts: &mut List<Fact>,
) -> Result<Step, StepError>
    requires few { system.old.events < machine_limit }
    requires empty { facts.old ≡ [] }
    requires enabled { step_of system.old (Evict id.0 set way) ≢ None }
    ensures { WatchedNode system.old system.new (Evict id.0 set way) facts.new result }
{
    let core = system.core(id);
    let held = evicted(core, id, set, way);
    let before = core.phase();
    system.events();
    let step = advance(system, Event::Evict(id, set, way))?;
    match tell_evict(system, id, held, before, step, facts) {
        Ok(()) => Ok(step),
        Err(NoMemory) => Err(StepError::Memory),
    }
}
