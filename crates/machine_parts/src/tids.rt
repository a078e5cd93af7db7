// Whether each TID is in one place: with a core, on its way to one, committed, or not granted yet.
ghost use Rattle.std.specs.Prelude.{◌≡◌, ◌<◌, ◌↔◌, ◌==◌, ℕ, [], IfOk, IsTrue, false, length};
ghost use Rattle.rules_maps.specs.Bridge.{node_of};
ghost use Rattle.rules_maps.specs.Nodes.{Core, Vendor};
ghost use Rattle.rules_maps.specs.Words.{num};
ghost use Rattle.tcc_msg.specs.Plain.{msg_of};
ghost use Rattle.commit_engine.specs.Engine.{phase_of};
ghost use Rattle.machine_cores.specs.Bank.{cores_of};
ghost use Rattle.machine_links.specs.Flights.{net_of};
ghost use Rattle.theorem_serial.specs.Count.{Grants, live, passes};
ghost use Rattle.theorem_serial.specs.Owners.{times};
ghost use Rattle.theorem_serial.specs.Tids.{has_tid};
ghost use Rattle.machine_commits.specs.Rising.{Rising};
ghost use Rattle.machine_parts.specs.Tids.{AreNoted, AreSingle, IsNoted, IsOver, IsSingle, among, held_by, is_own};

use commit_engine::Phase;
use machine_commits::CommitList;
use machine_cores::CoreBank;
use machine_links::InFlight;
use std::alloc::Global;
use tcc_base::{Commit, CoreId, NoMemory, NodeId, Tid};
use tcc_msg::Msg;

/// Whether a commit has the TID.
fn has_committed(commits: &[Commit], tid: Tid) -> bool
    ensures { IsTrue result ↔ 0 < times tid.0 commits.now }
{
    for commit in commits {
        if commit.tid.0 == tid.0 {
            return true;
        }
    }
    false
}

/// Whether a TID is among these.
fn is_among(held: &[u64], tid: u64) -> bool
    ensures { IsTrue result ↔ 0 < among tid held.now }
{
    for own in held {
        if *own == tid {
            return true;
        }
    }
    false
}

/// Notes a TID that a core has. False exactly where it is in another place too; then none is noted.
fn note(held: &mut Vec<u64>, commits: &[Commit], next: Tid, tid: Tid) -> Result<bool, NoMemory>
    ensures noted { IfOk result (λ b. IsTrue b → IsNoted held.old.items held.new.items commits.now next.0 tid.0) }
    ensures refused { IfOk result (λ b. b ≡ false → IsOver held.old.items commits.now next.0 (λ t. num (tid.0 == t))) }
{
    if tid.0 >= next.0 || is_among(held, tid.0) || has_committed(commits, tid) {
        return Ok(false);
    }
    match held.push(tid.0) {
        Ok(()) => Ok(true),
        Err(_) => Err(NoMemory),
    }
}

/// The TID that a core has in this phase.
#[tactic(auto, unfolding(theorem_serial::specs::Tids::has_tid))]
fn tid_in(phase: Phase) -> Option<Tid>
    ensures { (t : ℕ) → is_own result t ≡ has_tid (phase_of phase) t }
{
    match phase {
        Phase::Probing(tid) | Phase::Ready(tid) | Phase::Solo(tid) => Some(tid),
        Phase::Overflowing(tid) => tid,
        Phase::Running | Phase::AwaitTid | Phase::DoomedTid | Phase::Halted => None,
    }
}

/// Notes the TID that a message grants, if it does. False exactly where this is in another place too.
fn note_grant(
    held: &mut Vec<u64>,
    commits: &[Commit],
    next: Tid,
    msg: &Msg,
) -> Result<bool, NoMemory>
    ensures noted { IfOk result (λ b. IsTrue b → AreNoted held.old.items held.new.items commits.now next.0
        (λ t. num (passes (Grants t) (msg_of msg.now)))) }
    ensures refused { IfOk result (λ b. b ≡ false → IsOver held.old.items commits.now next.0
        (λ t. num (passes (Grants t) (msg_of msg.now)))) }
{
    match *msg {
        Msg::TidGrant { tid } => note(held, commits, next, tid),
        _ => Ok(true),
    }
}

/// Notes the TIDs that are on their way to a core. False exactly where one is in another place too.
fn note_grants(
    held: &mut Vec<u64>,
    flights: &InFlight,
    commits: &[Commit],
    next: Tid,
    core: CoreId,
) -> Result<bool, NoMemory>
    ensures noted { IfOk result (λ b. IsTrue b → AreNoted held.old.items held.new.items commits.now next.0
        (λ t. live (Grants t) (net_of flights.now Vendor (Core core.0)))) }
    ensures refused { IfOk result (λ b. b ≡ false → IsOver held.old.items commits.now next.0
        (λ t. live (Grants t) (net_of flights.now Vendor (Core core.0)))) }
{
    let to = NodeId::Core(core);
    for i in 0..flights.waiting(NodeId::Vendor, to) {
        if let Some((_, msg)) = flights.waiting_at(NodeId::Vendor, to, i) {
            if !note_grant(held, commits, next, msg)? {
                return Ok(false);
            }
        }
    }
    Ok(true)
}

/// Notes the TIDs that a core has, or that are on their way to it. False exactly where one is in another place too.
fn note_core(
    held: &mut Vec<u64>,
    cores: &CoreBank,
    flights: &InFlight,
    commits: &[Commit],
    next: Tid,
    core: CoreId,
) -> Result<bool, NoMemory>
    requires { core.0 < cores.now.code.settings.cores }
    ensures noted { IfOk result (λ b. IsTrue b → AreNoted held.old.items held.new.items commits.now next.0
        (held_by (cores_of cores.now core.0) (net_of flights.now Vendor (Core core.0)))) }
    ensures refused { IfOk result (λ b. b ≡ false → IsOver held.old.items commits.now next.0
        (held_by (cores_of cores.now core.0) (net_of flights.now Vendor (Core core.0)))) }
{
    if !note_grants(held, flights, commits, next, core)? {
        return Ok(false);
    }
    match tid_in(cores.core(core).phase()) {
        Some(tid) => note(held, commits, next, tid),
        None => Ok(true),
    }
}

/// Whether all of these have TIDs below the next one.
fn are_granted(commits: &[Commit], next: Tid) -> bool
    requires { Rising commits.now }
    ensures granted { IsTrue result → IsSingle [] commits.now next.0 }
    ensures refused { result ≡ false → IsOver [] commits.now next.0 (λ t. 0) }
{
    for commit in commits {
        if commit.tid.0 >= next.0 {
            return false;
        }
    }
    true
}

/// Whether each TID is in one place: with a core or on its way to it, committed, or still to be granted. It takes memory for those that
/// cores have.
pub(crate) fn are_single(
    alloc: Global,
    cores: &CoreBank,
    flights: &InFlight,
    commits: &CommitList,
    next: Tid,
) -> Result<bool, NoMemory>
    ensures { IfOk result (λ b. IsTrue b ↔ AreSingle cores.now.code.settings.cores (cores_of cores.now) (net_of flights.now)
        commits.now.list next.0) }
{
    let commits = commits.as_slice();
    if !are_granted(commits, next) {
        return Ok(false);
    }
    let mut held = Vec::new(alloc);
    for c in 0..cores.code().config().cores() {
        if !note_core(&mut held, cores, flights, commits, next, CoreId(c))? {
            return Ok(false);
        }
    }
    Ok(true)
}
