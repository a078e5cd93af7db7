// A core takes the packet that is on the bus.
ghost use Rattle.std.specs.Prelude.{◌≡◌, ◌≢◌, ◌<◌, ◌++◌, [], None, OnOk, map};
ghost use Rattle.std.specs.Option.{option_map};
ghost use Rattle.rules_bus.specs.State.{Take};
ghost use Rattle.core_node.specs.View.{core_of};
ghost use Rattle.bus_tcc.specs.Answers.{bus_step_of};
ghost use Rattle.bus_tcc.specs.Machine.{bus_settings_of, bus_world_of};
ghost use Rattle.bus_tcc.specs.Packets.{packet_line_of};
ghost use Rattle.bus_watch.specs.Happened.{first_read as first_of, taken, violated};
ghost use Rattle.bus_watch.specs.Plain.{bus_fact_of};
ghost use Rattle.bus_watch.specs.Telling.{words_of_line};
ghost use Rattle.bus_watch.specs.Watched.{BusWatched};
ghost use Rattle.tcc_base.specs.Limits.{run_limit};

use crate::behind::{last_tid, watch_told};
use crate::fact::BusFact;
use bus_tcc::{BusError, BusEvent, BusSystem};
use core_node::CoreNode;
use tcc_base::{Commit, CoreId, LineAddr, List, Mask, NoMemory, Tagged, Tid};
use watch::Fact;
use watch_core::{committer, words_read};

/// The first of these lines of which a core has read a word, with the words that it has read.
#[tactic(auto, unfolding(crate::specs::Happened::first_read))]
fn first_read(core: &CoreNode, lines: &[Tagged]) -> Option<(LineAddr, Mask)>
    ensures { option_map words_of_line result ≡ first_of (map packet_line_of lines.now) (core_of core.now) }
{
    for line in lines {
        let read = words_read(core, line.line, line.mask);
        if read.0 != 0 {
            return Some((line.line, read));
        }
    }
    None
}

/// Tells of the attempt of a core that has read a word of these lines, which were committed by this TID.
#[tactic(auto, unfolding(core_node::specs::View::core_of))]
fn tell_violated(
    core: &CoreNode,
    id: CoreId,
    commits: &[Commit],
    tid: Tid,
    lines: &[Tagged],
    facts: &mut List<BusFact>,
) -> Result<(), NoMemory>
    ensures { OnOk result (map bus_fact_of facts.new ≡ map bus_fact_of facts.old
        ++ violated id.0 commits.now tid.0 (core_of core.now) (first_of (map packet_line_of lines.now) (core_of core.now))) }
{
    match first_read(core, lines) {
        Some((line, words)) => facts.push(BusFact::Common(Fact::Violated {
            core: id,
            by: committer(commits, tid),
            tid,
            line,
            words,
            lost: core.instructions(),
            phase: core.phase(),
        })),
        None => Ok(()),
    }
}

/// Tells of the packet that a core is about to take, and of its attempt where that begins anew.
#[tactic(auto, unfolding(crate::specs::Happened::taken))]
fn tell_taken(system: &BusSystem, id: CoreId, facts: &mut List<BusFact>) -> Result<(), NoMemory>
    requires { id.0 < (bus_settings_of system.now).cores }
    ensures { OnOk result (map bus_fact_of facts.new ≡ map bus_fact_of facts.old
        ++ taken (bus_settings_of system.now) system.now.commits (bus_world_of system.now) id.0) }
{
    let tid = last_tid(system);
    facts.push(BusFact::TookPacket(tid))?;
    tell_violated(
        system.core(id),
        id,
        system.commits(),
        tid,
        system.bus().lines(),
        facts,
    )
}

/// A core takes the packet, which is enabled.
pub(crate) fn watch_take(
    system: &mut BusSystem,
    id: CoreId,
    facts: &mut List<BusFact>,
) -> Result<(), BusError>
    requires few { system.old.events < run_limit }
    requires empty { facts.old ≡ [] }
    requires enabled { bus_step_of system.old (Take id.0) ≢ None }
    ensures { BusWatched system.old system.new (Take id.0) facts.new result }
{
    match tell_taken(system, id, facts) {
        Ok(()) => watch_told(system, BusEvent::Take(id), id, facts),
        Err(NoMemory) => Err(BusError::Memory),
    }
}
