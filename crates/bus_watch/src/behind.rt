// What is told behind each event: its commit, the core's phase, who has the bus, and what was sent.
ghost use Rattle.std.specs.Prelude.{◌≡◌, ◌≢◌, ◌<◌, ◌-◌, ◌++◌, None, OnOk, map};
ghost use Rattle.commit_engine.specs.Engine.{phase_of};
ghost use Rattle.rules_bus.specs.State.{BusWorld};
ghost use Rattle.bus_tcc.specs.Answers.{bus_step_of, tid_told};
ghost use Rattle.bus_tcc.specs.Machine.{bus_event_of, bus_program_of, bus_settings_of, bus_world_of};
ghost use Rattle.bus_tcc.specs.Packets.{packet_line_of};
ghost use Rattle.rules_tcc.specs.State.{CoreState};
ghost use Rattle.watch.specs.Happened.{phase_fact};
ghost use Rattle.bus_watch.specs.Facts.{Common, Holder as PlainHolder, SentLine};
ghost use Rattle.bus_watch.specs.Happened.{acted, core_of, holder, holder_fact, same_holder as are_same};
ghost use Rattle.bus_watch.specs.Plain.{bus_fact_of, holder_of as plain_holder};
ghost use Rattle.bus_watch.specs.Telling.{SawBefore, behind_told, commit_told, sent_told};
ghost use Rattle.bus_watch.specs.Watched.{BusWatched};
ghost use Rattle.tcc_base.specs.Limits.{run_limit};

use crate::fact::{BusFact, Holder};
use bus_tcc::{Bus, BusError, BusEvent, BusStep, BusSystem};
use commit_engine::Phase;
use tcc_base::{Commit, CoreId, List, NoMemory, Tagged, Tid};
use watch::Fact;
use watch_core::same_phase;

/// What is seen before an event.
#[derive(Clone, Copy, Debug)]
pub struct Before {
    /// The core's phase.
    pub phase: Phase,
    pub holder: Holder,
}

/// Who has the bus.
pub(crate) fn holder_of(system: &BusSystem) -> Holder
    ensures { plain_holder result ≡ holder (bus_world_of system.now) }
{
    match system.bus() {
        Bus::Free => Holder::Nobody,
        Bus::Alone(core) => Holder::Core(*core),
        Bus::Packet(_) => Holder::Packet(last_tid(system)),
    }
}

/// The TID of the last commit.
pub(crate) fn last_tid(system: &BusSystem) -> Tid
    ensures { result.0 ≡ (bus_world_of system.now).next - 1 }
{
    Tid(system.next().0.saturating_sub(1))
}

/// What is seen of a core and of the bus before an event.
pub(crate) fn look_before(system: &BusSystem, core: CoreId) -> Before
    requires { core.0 < (bus_settings_of system.now).cores }
    ensures { SawBefore result ((bus_world_of system.now).cores core.0) (holder (bus_world_of system.now)) }
{
    Before {
        phase: system.core(core).phase(),
        holder: holder_of(system),
    }
}

/// Whether the bus is held by the same.
fn same_holder(a: Holder, b: Holder) -> bool
    ensures { result ≡ are_same (plain_holder a) (plain_holder b) }
{
    match (a, b) {
        (Holder::Nobody, Holder::Nobody) => true,
        (Holder::Core(c), Holder::Core(d)) => c.0 == d.0,
        (Holder::Packet(t), Holder::Packet(u)) => t.0 == u.0,
        _ => false,
    }
}

/// Tells of the commit that a step noted, where it noted one.
fn tell_commit(commits: &[Commit], step: BusStep, facts: &mut List<BusFact>) -> Result<(), NoMemory>
    ensures { OnOk result (map bus_fact_of facts.new ≡ map bus_fact_of facts.old ++ commit_told (tid_told step) commits.now) }
{
    let BusStep::Committed(_) = step else {
        return Ok(());
    };
    match commits.last() {
        Some(commit) => facts.push(BusFact::Common(Fact::Committed {
            tid: commit.tid,
            core: commit.core,
            n: commit.n,
        })),
        None => Ok(()),
    }
}

/// Tells of a core's phase, where it isn't what it was.
fn tell_phase(
    core: CoreId,
    before: Phase,
    after: Phase,
    facts: &mut List<BusFact>,
) -> Result<(), NoMemory>
    ensures { OnOk result (map bus_fact_of facts.new
        ≡ map bus_fact_of facts.old ++ map Common (phase_fact core.0 (phase_of before) (phase_of after))) }
{
    if same_phase(before, after) {
        return Ok(());
    }
    facts.push(BusFact::Common(Fact::CameTo(core, after)))
}

/// Tells of who has the bus, where it isn't who had it.
fn tell_holder(before: Holder, after: Holder, facts: &mut List<BusFact>) -> Result<(), NoMemory>
    ensures { OnOk result (map bus_fact_of facts.new
        ≡ map bus_fact_of facts.old ++ holder_fact (plain_holder before) (plain_holder after)) }
{
    if same_holder(before, after) {
        return Ok(());
    }
    facts.push(BusFact::HeldBy(after))
}

/// Tells of the lines of a packet.
fn tell_lines(lines: &[Tagged], facts: &mut List<BusFact>) -> Result<(), NoMemory>
    ensures { OnOk result (map bus_fact_of facts.new
        ≡ map bus_fact_of facts.old ++ map SentLine (map packet_line_of lines.now)) }
{
    for line in lines {
        facts.push(BusFact::SentLine(*line))?;
    }
    Ok(())
}

/// Tells of the packet that a commit sent, where there was a commit.
fn tell_sent(system: &BusSystem, step: BusStep, facts: &mut List<BusFact>) -> Result<(), NoMemory>
    ensures { OnOk result (map bus_fact_of facts.new ≡ map bus_fact_of facts.old
        ++ sent_told (bus_settings_of system.now) (tid_told step) (bus_world_of system.now).bus) }
{
    match step {
        BusStep::Committed(_) => tell_lines(system.bus().lines(), facts),
        BusStep::Moved => Ok(()),
    }
}

/// Tells what is told behind an event of this core.
pub(crate) fn tell_behind(
    system: &BusSystem,
    id: CoreId,
    before: Before,
    step: BusStep,
    facts: &mut List<BusFact>,
) -> Result<(), NoMemory>
    requires { id.0 < (bus_settings_of system.now).cores }
    ensures { (s : CoreState) (h : PlainHolder) → SawBefore before s h
        → OnOk result (map bus_fact_of facts.new
        ≡ map bus_fact_of facts.old ++ behind_told system.now id.0 s.phase h (tid_told step)) }
{
    tell_commit(system.commits(), step, facts)?;
    tell_phase(id, before.phase, system.core(id).phase(), facts)?;
    tell_holder(before.holder, holder_of(system), facts)?;
    tell_sent(system, step, facts)
}

/// Takes an event of which what its core does is told already, as it stands in the state before it, and tells what is told behind it.
pub(crate) fn watch_told(
    system: &mut BusSystem,
    e: BusEvent,
    id: CoreId,
    facts: &mut List<BusFact>,
) -> Result<(), BusError>
    requires few { system.old.events < run_limit }
    requires core { core_of (bus_event_of e) ≡ id.0 }
    requires exists { id.0 < (bus_settings_of system.old).cores }
    requires enabled { bus_step_of system.old (bus_event_of e) ≢ None }
    requires told { (v : BusWorld) → map bus_fact_of facts.old ≡ acted (bus_settings_of system.old) (bus_program_of system.old)
        system.old.commits (bus_world_of system.old) v (bus_event_of e) }
    ensures { BusWatched system.old system.new (bus_event_of e) facts.new result }
{
    let before = look_before(system, id);
    let step = system.step(e)?;
    match tell_behind(system, id, before, step, facts) {
        Ok(()) => Ok(()),
        Err(NoMemory) => Err(BusError::Memory),
    }
}
