// Why a message waits.
ghost use Rattle.std.specs.Prelude.{◌≡◌, ◌<◌, ◌&&◌, IfSome, is_some, not};
ghost use Rattle.std.specs.Option.{option_map};
ghost use Rattle.rules_maps.specs.Messages.{line_named};
ghost use Rattle.rules_maps.specs.Bridge.{node_of};
ghost use Rattle.rules_maps.specs.Nodes.{Deliver};
ghost use Rattle.rules_maps.specs.Shape.{home, lines};
ghost use Rattle.tcc_msg.specs.Plain.{msg_of};
ghost use Rattle.rules_tcc.specs.Links.{in_flight};
ghost use Rattle.net_core.specs.Answers.{step_of};
ghost use Rattle.net_core.specs.Machine.{settings_of, world_of};
ghost use Rattle.live_core.specs.Plain.{plain_reason};
ghost use Rattle.live_core.specs.Reasons.{commit_waits, load_waits, mark_waits, owner_asked, probe_waits, reason_of, words_wait};
ghost use Rattle.live_core.specs.Waiting.{reason_in};

use crate::reason::Reason;
use directory::LineState;
use net_core::System;
use tcc_base::{DirId, LineAddr, Mask, NodeId, Tid};
use tcc_msg::{Msg, Name};

/// A Probe waits until its TID is served.
fn probe_waits(system: &System, dir: DirId, tid: Tid) -> Option<Reason>
    requires { dir.0 < (settings_of system.now).dirs }
    ensures { option_map plain_reason result ≡ probe_waits tid.0 ((world_of system.now).dirs dir.0) }
{
    let serving = system.serving(dir);
    (serving.0 < tid.0).then_some(Reason::Early(serving))
}

/// Whether the line's owner was asked for its words, and which core that is.
fn owner_asked(line: &LineState) -> Option<Reason>
    ensures { option_map plain_reason result ≡ owner_asked line.now.asked (option_map (λ c. c.0) line.now.owner) }
{
    if line.asked {
        line.owner.map(Reason::Asked)
    } else {
        None
    }
}

/// A LoadReq waits for the core's own last commit at the directory, and while its line is marked or the owner is asked.
fn load_waits(system: &System, dir: DirId, line: LineAddr, after: Tid) -> Option<Reason>
    requires dir { dir.0 < (settings_of system.now).dirs }
    requires line { line.0 < lines (settings_of system.now) }
    requires home { home (settings_of system.now) line.0 ≡ dir.0 }
    ensures { option_map plain_reason result ≡ load_waits line.0 after.0 ((world_of system.now).dirs dir.0) }
{
    let serving = system.serving(dir);
    if serving.0 <= after.0 {
        return Some(Reason::Early(serving));
    }
    let state = system.line_state(line);
    if state.mark.0 > 0 {
        return Some(Reason::Marked(state.mark));
    }
    owner_asked(&state)
}

/// A Mark waits until its TID is served, and while the owner of a line that isn't wholly stored to is asked.
fn mark_waits(system: &System, dir: DirId, line: LineAddr, mask: Mask, tid: Tid) -> Option<Reason>
    requires dir { dir.0 < (settings_of system.now).dirs }
    requires line { line.0 < lines (settings_of system.now) }
    requires home { home (settings_of system.now) line.0 ≡ dir.0 }
    ensures { option_map plain_reason result ≡ mark_waits line.0 mask.0 tid.0 ((world_of system.now).dirs dir.0) }
{
    let serving = system.serving(dir);
    if serving.0 < tid.0 {
        return Some(Reason::Early(serving));
    }
    if tid.0 < serving.0 || mask.0 == 255 {
        return None;
    }
    let state = system.line_state(line);
    owner_asked(&state)
}

/// A Commit waits until its TID is served, and until all of its lines are marked.
fn commit_waits(system: &System, dir: DirId, tid: Tid, count: u32) -> Option<Reason>
    requires { dir.0 < (settings_of system.now).dirs }
    ensures { option_map plain_reason result ≡ commit_waits (settings_of system.now) tid.0 count ((world_of system.now).dirs dir.0) }
{
    let serving = system.serving(dir);
    if serving.0 != tid.0 {
        return Some(Reason::Early(serving));
    }
    let marked = system.marked_lines(dir);
    (marked != count).then_some(Reason::Count(marked))
}

/// Words that come home wait for the commit that made them.
fn words_wait(system: &System, dir: DirId, line: LineAddr, tag: Tid) -> Option<Reason>
    requires line { line.0 < lines (settings_of system.now) }
    requires home { home (settings_of system.now) line.0 ≡ dir.0 }
    ensures { option_map plain_reason result ≡ words_wait line.0 tag.0 ((world_of system.now).dirs dir.0) }
{
    let last = system.line_state(line).tag;
    (last.0 < tag.0).then_some(Reason::Tag(last))
}

/// Why a message that goes to a directory waits there.
fn reason_of(system: &System, dir: DirId, msg: &Msg) -> Option<Reason>
    requires dir { dir.0 < (settings_of system.now).dirs }
    requires line { IfSome (line_named (msg_of msg.now)) (λ l.
        (l < lines (settings_of system.now)) × (home (settings_of system.now) l ≡ dir.0)) }
    ensures { option_map plain_reason result ≡ reason_of (settings_of system.now) ((world_of system.now).dirs dir.0) (msg_of msg.now) }
{
    match *msg {
        Msg::Probe { tid } => probe_waits(system, dir, tid),
        Msg::LoadReq { line, after } => load_waits(system, dir, line, after),
        Msg::Mark { line, mask, tid } => mark_waits(system, dir, line, mask, tid),
        Msg::Commit { tid, count } => commit_waits(system, dir, tid, count),
        Msg::WriteBack { line, tag, .. } => words_wait(system, dir, line, tag),
        Msg::Flush { line, tag, .. } => words_wait(system, dir, line, tag),
        _ => None,
    }
}

/// Why the message of that name waits: the first reason that holds, of those that its directory has for its kind. `None` exactly where
/// no message of that name is in flight, or its delivery is enabled: cores and the vendor take all that comes to them. Takes no memory,
/// and time in the logarithm of what is in flight.
pub fn waits_because(system: &System, name: Name) -> Option<Reason>
    ensures reason { option_map plain_reason result
        ≡ reason_in (settings_of system.now) (world_of system.now) (node_of name.src) (node_of name.dst) name.seq }
    ensures waits { is_some result ≡ (is_some (in_flight (world_of system.now).net (node_of name.src) (node_of name.dst) name.seq)
        && not (is_some (step_of system.now (Deliver (node_of name.src) (node_of name.dst) name.seq)))) }
{
    system.events();
    let msg = system.in_flight(name)?;
    let NodeId::Dir(dir) = name.dst else {
        return None;
    };
    reason_of(system, dir, msg)
}
