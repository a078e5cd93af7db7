// A core executes: the instruction, the commit, the new phase and what was sent.
ghost use Rattle.std.specs.Prelude.{◌≡◌, ◌≢◌, ◌++◌, ◌<◌, [], None, OnOk, map};
ghost use Rattle.std.specs.Option.{option_to_list};
ghost use Rattle.rules_program.specs.Program.{Program};
ghost use Rattle.rules_maps.specs.Nodes.{Exec};
ghost use Rattle.rules_tcc.specs.State.{CoreState};
ghost use Rattle.core_node.specs.View.{core_of};
ghost use Rattle.net_core.specs.Answers.{step_of};
ghost use Rattle.watch.specs.Happened.{commit_fact, phase_fact};
ghost use Rattle.net_core.specs.Machine.{program_of, settings_of, world_of};
ghost use Rattle.watch.specs.Instructions.{executed};
ghost use Rattle.watch.specs.Plain.{fact_of};
ghost use Rattle.watch_core.specs.Seen.{Saw};
ghost use Rattle.watch_machine.specs.Watched.{WatchedNode, told_commit};
ghost use Rattle.net_core.specs.Limits.{machine_limit};

use crate::commits::tell_commit;
use crate::moving::tell_phase;
use crate::sending::advance;
use commit_engine::Phase;
use core_node::CoreNode;
use net_core::{Step, StepError, System};
use tcc_base::{Config, CoreId, List, NoMemory};
use tcc_msg::Event;
use watch::Fact;
use watch_core::{Seen, addr_of, line_at, look_at, what_done};

/// What is seen of a core before it executes.
fn look(system: &System, id: CoreId) -> Seen
    requires { id.0 < (settings_of system.now).cores }
    ensures { Saw result (program_of system.now) ((world_of system.now).cores id.0) }
{
    look_at(system.core(id), system.code())
}

/// What became of the instruction that a core was to execute: its line was asked for, it needs room, or it is finished.
#[tactic(auto, unfolding(watch::specs::Instructions::executed, core_node::specs::View::core_of))]
fn attempted(config: &Config, node: &CoreNode, id: CoreId, seen: Seen) -> Option<Fact>
    ensures { (p : Program) (s : CoreState) → Saw seen p s
        → map fact_of (option_to_list result) ≡ executed config.now p id.0 s (core_of node.now) }
{
    let Seen { phase, pc, need } = seen;
    if let Phase::Ready(_) = phase {
        return None;
    }
    let core = node.core();
    let addr = addr_of(need);
    if let Some(awaited) = core.awaited {
        return Some(Fact::Missed {
            core: id,
            pc,
            addr,
            line: awaited.line,
        });
    }
    match core.phase {
        Phase::Overflowing(None) => Some(Fact::Overflowed {
            core: id,
            pc,
            addr,
            line: line_at(config, addr),
        }),
        _ => Some(Fact::Did {
            core: id,
            pc,
            done: what_done(node, need),
        }),
    }
}

/// Tells of an execution: what was seen before it, and the machine after it.
fn tell_exec(
    system: &System,
    id: CoreId,
    seen: Seen,
    step: Step,
    facts: &mut List<Fact>,
) -> Result<(), NoMemory>
    requires { id.0 < (settings_of system.now).cores }
    ensures { (s : CoreState) → Saw seen (program_of system.now) s → OnOk result (map fact_of facts.new ≡ map fact_of facts.old
        ++ (executed (settings_of system.now) (program_of system.now) id.0 s ((world_of system.now).cores id.0)
        ++ (commit_fact (told_commit step system.now.commits)
        ++ phase_fact id.0 s.phase ((world_of system.now).cores id.0).phase))) }
{
    let node = system.core(id);
    if let Some(fact) = attempted(system.config(), node, id, seen) {
        facts.push(fact)?;
    }
    tell_commit(system.commits(), step, facts)?;
    tell_phase(id, seen.phase, node.phase(), facts)
}

/// A core executes, which is enabled.
pub(crate) fn watch_exec(
    system: &mut System,
    id: CoreId,
    facts: &mut List<Fact>,
) -> Result<Step, StepError>
    requires few { system.old.events < machine_limit }
    requires empty { facts.old ≡ [] }
    requires enabled { step_of system.old (Exec id.0) ≢ None }
    ensures { WatchedNode system.old system.new (Exec id.0) facts.new result }
{
    let seen = look(system, id);
    system.events();
    let step = advance(system, Event::Exec(id))?;
    match tell_exec(system, id, seen, step, facts) {
        Ok(()) => Ok(step),
        Err(NoMemory) => Err(StepError::Memory),
    }
}
