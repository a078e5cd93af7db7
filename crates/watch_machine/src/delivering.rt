// A message is delivered: to a core, to a directory, or to the vendor.
ghost use Rattle.std.specs.Prelude.{List as Seq, ◌≡◌, ◌++◌, ◌∷◌, ◌<◌, [], None, OnOk, Some, map};
ghost use Rattle.std.specs.Option.{option_map};
ghost use Rattle.rules_maps.specs.Bridge.{node_of};
ghost use Rattle.rules_maps.specs.Cache.{is_dirty};
ghost use Rattle.rules_maps.specs.Nodes.{Node, Msg as PlainMsg, Core, Dir, Vendor, Deliver};
ghost use Rattle.tcc_msg.specs.Plain.{msg_of};
ghost use Rattle.rules_tcc.specs.Links.{in_flight};
ghost use Rattle.rules_tcc.specs.State.{CoreState};
ghost use Rattle.core_node.specs.View.{awaited_of, core_of, IsKnown};
ghost use Rattle.commit_engine.specs.Engine.{phase_of};
ghost use Rattle.net_core.specs.Machine.{settings_of, world_of};
ghost use Rattle.watch.specs.Happened.{commit_fact, phase_fact, serves_fact};
ghost use Rattle.watch.specs.Facts.{Took};
ghost use Rattle.watch.specs.Messages.{awaits as awaits_line, grant_given_up, has_probed as probed, is_of_use as of_use};
ghost use Rattle.watch.specs.Messages.{taken, tid_in as tid_of_phase, violated, waits_for_tid as waits};
ghost use Rattle.watch.specs.Plain.{fact_of};
ghost use Rattle.watch_machine.specs.Telling.{SawMessage, told_of};
ghost use Rattle.watch_machine.specs.Watched.{WatchedNode, told_commit};
ghost use Rattle.net_core.specs.Limits.{machine_limit};

use crate::answering::{Became, what_became};
use crate::commits::tell_commit;
use crate::moving::{tell_phase, tell_serving};
use crate::sending::advance;
use commit_engine::Phase;
use core_node::{Awaited, CoreNode};
use net_core::{Step, StepError, System};
use tcc_base::{Commit, CoreId, DirId, LineAddr, List, Mask, NoMemory, NodeId, Tid};
use tcc_msg::{Event, Msg, Name};
use watch::Fact;
use watch_core::{committer, words_read};

/// Whether a core waits for a TID.
fn waits_for_tid(phase: Phase) -> bool
    ensures { result ≡ waits (phase_of phase) }
{
    match phase {
        Phase::AwaitTid => true,
        Phase::DoomedTid => true,
        Phase::Overflowing(None) => true,
        Phase::Overflowing(Some(_)) => false,
        Phase::Running => false,
        Phase::Probing(_) => false,
        Phase::Ready(_) => false,
        Phase::Solo(_) => false,
        Phase::Halted => false,
    }
}

/// Whether a core has probed with this TID.
fn has_probed(tid: Tid, phase: Phase) -> bool
    ensures { result ≡ probed tid.0 (phase_of phase) }
{
    match phase {
        Phase::Probing(own) => own.0 == tid.0,
        Phase::Overflowing(Some(own)) => own.0 == tid.0,
        Phase::Overflowing(None) => false,
        Phase::AwaitTid => false,
        Phase::DoomedTid => false,
        Phase::Running => false,
        Phase::Ready(_) => false,
        Phase::Solo(_) => false,
        Phase::Halted => false,
    }
}

/// The TID that a core has.
fn tid_in(phase: Phase) -> Option<Tid>
    ensures { option_map (λ t. t.0) result ≡ tid_of_phase (phase_of phase) }
{
    match phase {
        Phase::Probing(tid) => Some(tid),
        Phase::Ready(tid) => Some(tid),
        Phase::Overflowing(tid) => tid,
        Phase::Solo(tid) => Some(tid),
        Phase::Running => None,
        Phase::AwaitTid => None,
        Phase::DoomedTid => None,
        Phase::Halted => None,
    }
}

/// Whether a core awaits this line.
fn awaits(line: LineAddr, awaited: Option<Awaited>) -> bool
    ensures { result ≡ awaits_line line.0 (awaited_of awaited) }
{
    match awaited {
        Some(awaited) => awaited.line.0 == line.0,
        None => false,
    }
}

/// Whether a core has dirty words of this line.
fn has_dirty(core: &CoreNode, line: LineAddr) -> bool
    ensures { result ≡ is_dirty (core_of core.now).cache line.0 }
{
    match core.frame_of(line) {
        Some(frame) => frame.dirty.0 != 0,
        None => false,
    }
}

/// Whether a core has a use for a message.
fn is_of_use(src: NodeId, msg: &Msg, core: &CoreNode) -> bool
    requires { IsKnown core.now.config src }
    ensures { result ≡ of_use (node_of src) (msg_of msg.now) (core_of core.now) }
{
    match src {
        NodeId::Core(_) => false,
        NodeId::Vendor => match *msg {
            Msg::TidGrant { .. } => waits_for_tid(core.phase()),
            _ => false,
        },
        NodeId::Dir(dir) => is_of_use_from(dir, msg, core),
    }
}

/// Whether a core has a use for a directory's message.
#[tactic(auto, unfolding(core_node::specs::View::core_of))]
fn is_of_use_from(dir: DirId, msg: &Msg, core: &CoreNode) -> bool
    requires { dir.0 < core.now.config.dirs }
    ensures { result ≡ of_use (Dir dir.0) (msg_of msg.now) (core_of core.now) }
{
    match *msg {
        Msg::ProbeReply { tid, .. } => {
            let core = core.core();
            // The set has a place for each directory that exists.
            dir.0 < core.config.dirs() && has_probed(tid, core.phase) && core.owing.contains(dir)
        }
        Msg::Fill { line, .. } => awaits(line, core.core().awaited),
        Msg::DataReq { line } => has_dirty(core, line),
        Msg::Inv { .. } => true,
        _ => false,
    }
}

/// What is seen of a core before a message is delivered to it.
#[derive(Clone, Copy, Debug)]
pub struct SeenBy {
    pub msg: Msg,
    /// Whether the core has a use for the message.
    pub of_use: bool,
    /// The phase, and how many instructions the attempt has.
    pub phase: Phase,
    pub n: u32,
    /// Of an Inv, its words that are marked read, and the core that committed its TID.
    pub words: Mask,
    pub by: CoreId,
}

/// What is seen of a core before a message is delivered to it.
#[tactic(auto, unfolding(core_node::specs::View::core_of))]
fn look(core: &CoreNode, commits: &[Commit], src: NodeId, msg: Msg) -> SeenBy
    requires { IsKnown core.now.config src }
    ensures { SawMessage result (node_of src) (msg_of msg) commits.now (core_of core.now) }
{
    let (words, by) = match msg {
        Msg::Inv { line, mask, tid } => (words_read(core, line, mask), committer(commits, tid)),
        _ => (Mask(0), CoreId(0)),
    };
    SeenBy {
        msg,
        of_use: is_of_use(src, &msg, core),
        phase: core.phase(),
        n: core.instructions(),
        words,
        by,
    }
}

/// Tells of what became of the message at the core.
#[tactic(auto, unfolding(watch::specs::Messages::taken))]
fn tell_taken(seen: &SeenBy, facts: &mut List<Fact>) -> Result<(), NoMemory>
    ensures { (src : Node) (m : PlainMsg) (cs : Seq Commit) (s : CoreState) → SawMessage seen.now src m cs s
        → OnOk result (map fact_of facts.new ≡ map fact_of facts.old ++ taken src m s) }
{
    facts.push(if seen.of_use {
        Fact::Took(seen.msg)
    } else {
        Fact::Dropped(seen.msg)
    })
}

/// Tells of an attempt that an invalidation undid, and of the TID that was given up with it. `n` is what the attempt has now.
fn tell_violated(id: CoreId, seen: &SeenBy, n: u32, facts: &mut List<Fact>) -> Result<(), NoMemory>
    ensures { (src : Node) (m : PlainMsg) (cs : Seq Commit) (s t : CoreState) → SawMessage seen.now src m cs s → n ≡ t.n
        → OnOk result (map fact_of facts.new ≡ map fact_of facts.old ++ violated id.0 cs m s t) }
{
    let Msg::Inv { line, tid, .. } = seen.msg else {
        return Ok(());
    };
    if seen.n == 0 || n != 0 {
        return Ok(());
    }
    facts.push(Fact::Violated {
        core: id,
        by: seen.by,
        tid,
        line,
        words: seen.words,
        lost: seen.n,
        phase: seen.phase,
    })?;
    match tid_in(seen.phase) {
        Some(tid) => facts.push(Fact::GaveUp { tid, core: id }),
        None => Ok(()),
    }
}

/// Tells of a grant that is given up, since its attempt was undone before.
fn tell_given_up(id: CoreId, seen: &SeenBy, facts: &mut List<Fact>) -> Result<(), NoMemory>
    ensures { OnOk result (map fact_of facts.new
        ≡ map fact_of facts.old ++ grant_given_up id.0 (msg_of seen.now.msg) (phase_of seen.now.phase)) }
{
    match (seen.msg, seen.phase) {
        (Msg::TidGrant { tid }, Phase::DoomedTid) => facts.push(Fact::GaveUp { tid, core: id }),
        _ => Ok(()),
    }
}

/// Tells of a delivery to a core: what was seen before it, and the machine after it.
fn tell_core(
    system: &System,
    id: CoreId,
    seen: &SeenBy,
    step: Step,
    facts: &mut List<Fact>,
) -> Result<(), NoMemory>
    requires { id.0 < (settings_of system.now).cores }
    ensures { (src : Node) (m : PlainMsg) (cs : Seq Commit) (s : CoreState) → SawMessage seen.now src m cs s
        → OnOk result (map fact_of facts.new ≡ map fact_of facts.old
        ++ (taken src m s
        ++ (violated id.0 cs m s ((world_of system.now).cores id.0)
        ++ (grant_given_up id.0 m s.phase
        ++ (commit_fact (told_commit step system.now.commits)
        ++ phase_fact id.0 s.phase ((world_of system.now).cores id.0).phase))))) }
{
    let core = system.core(id);
    tell_taken(seen, facts)?;
    tell_violated(id, seen, core.instructions(), facts)?;
    tell_given_up(id, seen, facts)?;
    tell_commit(system.commits(), step, facts)?;
    tell_phase(id, seen.phase, core.phase(), facts)
}

/// A message that is in flight to a core is delivered.
pub(crate) fn watch_core(
    system: &mut System,
    id: CoreId,
    name: Name,
    msg: Msg,
    facts: &mut List<Fact>,
) -> Result<Step, StepError>
    requires few { system.old.events < machine_limit }
    requires empty { facts.old ≡ [] }
    requires flies { in_flight (world_of system.old).net (node_of name.src) (Core id.0) name.seq ≡ Some (msg_of msg) }
    requires destination { name.dst ≡ NodeId.Core id }
    ensures { WatchedNode system.old system.new (Deliver (node_of name.src) (Core id.0) name.seq) facts.new result }
{
    system.events();
    let seen = look(system.core(id), system.commits(), name.src, msg);
    let step = advance(system, Event::Deliver(name))?;
    match tell_core(system, id, &seen, step, facts) {
        Ok(()) => Ok(step),
        Err(NoMemory) => Err(StepError::Memory),
    }
}

/// Tells of a delivery to a directory: what became of the message, what was served before, and the machine after it.
fn tell_dir(
    system: &System,
    dir: DirId,
    fact: Fact,
    before: Tid,
    step: Step,
    facts: &mut List<Fact>,
) -> Result<(), NoMemory>
    requires { dir.0 < (settings_of system.now).dirs }
    ensures { OnOk result (map fact_of facts.new ≡ map fact_of facts.old
        ++ (fact_of fact ∷ (commit_fact (told_commit step system.now.commits)
        ++ serves_fact dir.0 before.0 ((world_of system.now).dirs dir.0).serving.serving))) }
{
    facts.push(fact)?;
    tell_commit(system.commits(), step, facts)?;
    tell_serving(dir, before, system.serving(dir), facts)
}

/// The fact of what became of a message.
fn fact_of_message(became: Became, msg: Msg) -> Fact
    ensures { fact_of result ∷ [] ≡ told_of became (msg_of msg) }
{
    match became {
        Became::Taken => Fact::Took(msg),
        Became::Dropped => Fact::Dropped(msg),
        Became::Asked => Fact::AskedOwner(msg),
    }
}

/// A core's message that is in flight to a directory is delivered, if the directory takes it now.
pub(crate) fn watch_dir(
    system: &mut System,
    core: CoreId,
    dir: DirId,
    name: Name,
    msg: Msg,
    facts: &mut List<Fact>,
) -> Result<Step, StepError>
    requires few { system.old.events < machine_limit }
    requires empty { facts.old ≡ [] }
    requires flies { in_flight (world_of system.old).net (Core core.0) (Dir dir.0) name.seq ≡ Some (msg_of msg) }
    requires source { name.src ≡ NodeId.Core core }
    requires destination { name.dst ≡ NodeId.Dir dir }
    ensures { WatchedNode system.old system.new (Deliver (Core core.0) (Dir dir.0) name.seq) facts.new result }
{
    system.events();
    let fact = fact_of_message(what_became(system, dir, core, &msg), msg);
    let before = system.serving(dir);
    let step = advance(system, Event::Deliver(name))?;
    match tell_dir(system, dir, fact, before, step, facts) {
        Ok(()) => Ok(step),
        Err(NoMemory) => Err(StepError::Memory),
    }
}

/// Tells of a delivery to the vendor.
fn tell_vendor(
    system: &System,
    msg: Msg,
    step: Step,
    facts: &mut List<Fact>,
) -> Result<(), NoMemory>
    ensures { OnOk result (map fact_of facts.new ≡ map fact_of facts.old ++ (Took (msg_of msg)
        ∷ commit_fact (told_commit step system.now.commits))) }
{
    facts.push(Fact::Took(msg))?;
    tell_commit(system.commits(), step, facts)
}

/// A core's message that is in flight to the vendor is delivered.
pub(crate) fn watch_vendor(
    system: &mut System,
    core: CoreId,
    name: Name,
    msg: Msg,
    facts: &mut List<Fact>,
) -> Result<Step, StepError>
    requires few { system.old.events < machine_limit }
    requires empty { facts.old ≡ [] }
    requires flies { in_flight (world_of system.old).net (Core core.0) Vendor name.seq ≡ Some (msg_of msg) }
    requires source { name.src ≡ NodeId.Core core }
    requires destination { name.dst ≡ NodeId.Vendor }
    ensures { WatchedNode system.old system.new (Deliver (Core core.0) Vendor name.seq) facts.new result }
{
    system.events();
    let step = advance(system, Event::Deliver(name))?;
    match tell_vendor(system, msg, step, facts) {
        Ok(()) => Ok(step),
        Err(NoMemory) => Err(StepError::Memory),
    }
}
