// What a core does with its TID, and with the replies of the directories that it probed.
ghost use Rattle.std.specs.Prelude.{◌≡◌, ◌≤◌, ◌==◌, ◌&&◌, ◌*◌, ◌<◌, length, map, Some, None};
ghost use Rattle.rules_maps.specs.Cache.{marks_by_home};
ghost use Rattle.rules_maps.specs.Masks.{has};
ghost use Rattle.rules_tcc.specs.CoreDeliver.{grant_in_phase, probing_or_ready, reply_in_phase, ready_once_replied, solo_once_replied};
ghost use Rattle.rules_tcc.specs.CoreDeliver.{replied};
ghost use Rattle.rules_tcc.specs.Attempt.{moves};
ghost use Rattle.rules_tcc.specs.Sends.{nothing, to, marks_for};
ghost use Rattle.rules_tcc.specs.State.{AwaitTid, DoomedTid, Overflowing, Probing};
ghost use Rattle.rules_maps.specs.Nodes.{Dir};
ghost use Rattle.rules_maps.specs.Words.{any_below};
ghost use Rattle.spec_cache.specs.Held.{maps};
ghost use Rattle.spec_cache.specs.Home.{mark_of};
ghost use Rattle.commit_engine.specs.Engine.{phase_of};
ghost use Rattle.commit_engine.specs.Sent.{HasRoom};
ghost use Rattle.core_node.specs.View.{core_of, IsCore, Did, Stays};

use crate::state::Core;
use commit_engine::{
    DirSet, Phase, read_homes, send_granted, send_marks, send_probes, send_skips, written_homes,
};
use tcc_base::{DirId, LineAddr, Mask, Tid};
use tcc_msg::Outgoing;

/// The TID of a transaction that has ended: each directory gets a skip or a probe, and those probed owe a reply.
#[tactic(auto, unfolding(crate::specs::View::core_of))]
fn probe_marked(core: &mut Core, tid: Tid, out: &mut Outgoing)
    requires whole { IsCore core.old }
    requires room { HasRoom out.old (2 * core.old.config.dirs) }
    ensures does { Did (grant_in_phase core.old.config tid.0 (core_of core.old) AwaitTid)
        (2 * core.old.config.dirs) out.old core.new out.new }
    ensures stays { Stays core.old core.new }
{
    let written = written_homes(&core.config, &core.cache);
    let read = read_homes(&core.config, &core.cache);
    send_granted(&core.config, &core.cache, written, read, tid, out);
    let probed = written.or(read);
    core.owing = probed;
    core.phase = awaiting(tid, probed, core.config.dirs());
}

/// The phase in which a core waits for the replies of these directories, if any.
fn awaiting(tid: Tid, probed: DirSet, dirs: u8) -> Phase
    requires { dirs ≤ 64 }
    ensures { phase_of result ≡ probing_or_ready (any_below (has probed.bits) dirs) tid.0 }
{
    if probed.is_empty_below(dirs) {
        Phase::Ready(tid)
    } else {
        Phase::Probing(tid)
    }
}

/// The TID of a transaction that was violated since: it is given up.
#[tactic(auto, unfolding(crate::specs::View::core_of))]
fn skip_granted(core: &mut Core, tid: Tid, out: &mut Outgoing)
    requires whole { IsCore core.old }
    requires room { HasRoom out.old (2 * core.old.config.dirs) }
    ensures does { Did (grant_in_phase core.old.config tid.0 (core_of core.old) DoomedTid)
        (2 * core.old.config.dirs) out.old core.new out.new }
    ensures stays { Stays core.old core.new }
{
    send_skips(&core.config, tid, out);
    core.phase = Phase::Running;
}

/// The TID of a core that needs room: every directory is asked to serve it.
#[tactic(auto, unfolding(crate::specs::View::core_of))]
fn probe_all(core: &mut Core, tid: Tid, out: &mut Outgoing)
    requires whole { IsCore core.old }
    requires room { HasRoom out.old (2 * core.old.config.dirs) }
    ensures does { Did (grant_in_phase core.old.config tid.0 (core_of core.old) (Overflowing None))
        (2 * core.old.config.dirs) out.old core.new out.new }
    ensures stays { Stays core.old core.new }
{
    send_probes(&core.config, tid, out);
    core.owing = DirSet::below(core.config.dirs());
    core.phase = Phase::Overflowing(Some(tid));
}

/// The TID of a core that needs room, unless it has one.
fn grant_room(core: &mut Core, own: Option<Tid>, tid: Tid, out: &mut Outgoing)
    requires whole { IsCore core.old }
    requires room { HasRoom out.old (2 * core.old.config.dirs) }
    ensures does { Did (grant_in_phase core.old.config tid.0 (core_of core.old) (phase_of (Phase.Overflowing own)))
        (2 * core.old.config.dirs) out.old core.new out.new }
    ensures stays { Stays core.old core.new }
{
    match own {
        None => probe_all(core, tid, out),
        Some(_) => {}
    }
}

/// The TID that a core asked for, by its phase.
#[tactic(auto, using(crate::proofs::Steps::did_silently))]
pub(crate) fn grant(core: &mut Core, tid: Tid, out: &mut Outgoing)
    requires whole { IsCore core.old }
    requires room { HasRoom out.old (2 * core.old.config.dirs) }
    ensures does { Did (grant_in_phase core.old.config tid.0 (core_of core.old) (phase_of core.old.phase))
        (2 * core.old.config.dirs) out.old core.new out.new }
    ensures stays { Stays core.old core.new }
{
    match core.phase {
        Phase::AwaitTid => probe_marked(core, tid, out),
        Phase::DoomedTid => skip_granted(core, tid, out),
        Phase::Overflowing(own) => grant_room(core, own, tid, out),
        Phase::Running => {}
        Phase::Probing(_) => {}
        Phase::Ready(_) => {}
        Phase::Solo(_) => {}
        Phase::Halted => {}
    }
}

/// A directory that was probed serves the TID now: the lines that were written there are marked.
#[tactic(auto, unfolding(crate::specs::View::core_of))]
fn mark_replied(core: &mut Core, d: DirId, tid: Tid, marks: &[(LineAddr, Mask)], out: &mut Outgoing)
    requires whole { IsCore core.old }
    requires exists { d.0 < core.old.config.dirs }
    requires marks { map mark_of marks.now ≡ marks_by_home core.old.config (maps core.old.cache) d.0 }
    requires room { HasRoom out.old (length marks.now) }
    ensures does { Did (moves (ready_once_replied core.old.config tid.0 (replied d.0 (core_of core.old)))
        (to (Dir d.0) (marks_for core.old.config (maps core.old.cache) tid.0 d.0))) (length marks.now) out.old core.new out.new }
    ensures stays { Stays core.old core.new }
{
    let dirs = core.config.dirs();
    send_marks(d, marks, tid, out);
    let owing = core.owing.without(d);
    core.owing = owing;
    if owing.is_empty_below(dirs) {
        core.phase = Phase::Ready(tid);
    }
}

/// A directory serves the TID of a core that needs room: with the last of them the core is alone, and reads without marks.
#[tactic(auto, using(crate::proofs::Cores::whole_cache), unfolding(crate::specs::View::core_of, rules_maps::specs::CacheChange::read_cleared))]
fn count_alone(core: &mut Core, d: DirId, tid: Tid)
    requires whole { IsCore core.old }
    requires exists { d.0 < core.old.config.dirs }
    ensures does { core_of core.new ≡ solo_once_replied core.old.config tid.0 (replied d.0 (core_of core.old)) }
    ensures stays { Stays core.old core.new }
{
    let dirs = core.config.dirs();
    let owing = core.owing.without(d);
    core.owing = owing;
    if owing.is_empty_below(dirs) {
        core.cache.clear_read();
        core.phase = Phase::Solo(tid);
    }
}

/// Whether this is the reply that the core waits for: for its TID, from a directory that owes one.
fn is_awaited(own: Tid, tid: Tid, owing: DirSet, d: DirId) -> bool
    requires { d.0 < 64 }
    ensures { result ≡ (own.0 == tid.0 && has owing.bits d.0) }
{
    own.0 == tid.0 && owing.contains(d)
}

/// A directory's reply to a core that probes. `marks` are the core's lines with modified words at home there.
#[tactic(auto, using(crate::proofs::Steps::did_silently), unfolding(crate::specs::View::core_of))]
fn reply_probing(
    core: &mut Core,
    own: Tid,
    d: DirId,
    tid: Tid,
    marks: &[(LineAddr, Mask)],
    out: &mut Outgoing,
)
    requires whole { IsCore core.old }
    requires exists { d.0 < core.old.config.dirs }
    requires marks { map mark_of marks.now ≡ marks_by_home core.old.config (maps core.old.cache) d.0 }
    requires room { HasRoom out.old (length marks.now) }
    ensures does { Did (reply_in_phase core.old.config d.0 tid.0 (core_of core.old) (Probing own.0))
        (length marks.now) out.old core.new out.new }
    ensures stays { Stays core.old core.new }
{
    let _dirs = core.config.dirs();
    if is_awaited(own, tid, core.owing, d) {
        mark_replied(core, d, tid, marks, out);
    }
}

/// A directory's reply to a core that needs room and has its TID.
#[tactic(auto, unfolding(crate::specs::View::core_of))]
fn reply_overflowing(core: &mut Core, own: Tid, d: DirId, tid: Tid)
    requires whole { IsCore core.old }
    requires exists { d.0 < core.old.config.dirs }
    ensures does { reply_in_phase core.old.config d.0 tid.0 (core_of core.old) (Overflowing (Some own.0)) ≡ moves
        (core_of core.new) nothing }
    ensures stays { Stays core.old core.new }
{
    let _dirs = core.config.dirs();
    if is_awaited(own, tid, core.owing, d) {
        count_alone(core, d, tid);
    }
}

/// A directory's reply to a core that needs room.
fn reply_room(core: &mut Core, own: Option<Tid>, d: DirId, tid: Tid)
    requires whole { IsCore core.old }
    requires exists { d.0 < core.old.config.dirs }
    ensures does { reply_in_phase core.old.config d.0 tid.0 (core_of core.old) (phase_of (Phase.Overflowing own)) ≡ moves
        (core_of core.new) nothing }
    ensures stays { Stays core.old core.new }
{
    match own {
        None => {}
        Some(own) => reply_overflowing(core, own, d, tid),
    }
}

/// A directory's reply to a probe, by the core's phase. `marks` are the core's lines with modified words at home there.
#[tactic(auto, using(crate::proofs::Steps::did_silently), unfolding(crate::specs::View::core_of))]
pub(crate) fn reply(
    core: &mut Core,
    d: DirId,
    tid: Tid,
    marks: &[(LineAddr, Mask)],
    out: &mut Outgoing,
)
    requires whole { IsCore core.old }
    requires exists { d.0 < core.old.config.dirs }
    requires marks { map mark_of marks.now ≡ marks_by_home core.old.config (maps core.old.cache) d.0 }
    requires room { HasRoom out.old (length marks.now) }
    ensures does { Did (reply_in_phase core.old.config d.0 tid.0 (core_of core.old) (phase_of core.old.phase))
        (length marks.now) out.old core.new out.new }
    ensures stays { Stays core.old core.new }
{
    match core.phase {
        Phase::Probing(own) => reply_probing(core, own, d, tid, marks, out),
        Phase::Overflowing(own) => reply_room(core, own, d, tid),
        Phase::Running => {}
        Phase::AwaitTid => {}
        Phase::DoomedTid => {}
        Phase::Ready(_) => {}
        Phase::Solo(_) => {}
        Phase::Halted => {}
    }
}
