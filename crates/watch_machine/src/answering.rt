// What becomes of a message that a directory takes.
ghost use Rattle.std.specs.Prelude.{◌≡◌, ◌<◌, IfSome};
ghost use Rattle.rules_maps.specs.Messages.{line_named};
ghost use Rattle.rules_maps.specs.Nodes.{Skip, Abort, Mark, InvAck, LoadReq, WriteBack, Flush};
ghost use Rattle.rules_maps.specs.Shape.{home, lines};
ghost use Rattle.tcc_msg.specs.Plain.{msg_of};
ghost use Rattle.rules_tcc.specs.DirDeliver.{abort, acknowledgement, dir_deliver, load_request, mark, skip, write_back};
ghost use Rattle.net_core.specs.Machine.{settings_of, world_of};
ghost use Rattle.watch_machine.specs.Telling.{IsAnswer};

use net_core::System;
use tcc_base::{CoreId, DirId, LineAddr, Mask, Tagged, Tid};
use tcc_msg::Msg;
use write_back::{Take, judge};

/// What became of a message that was delivered.
#[derive(Clone, Copy, Debug, PartialEq, Eq)]
pub enum Became {
    /// It was of use.
    Taken,
    /// It was consumed without effect.
    Dropped,
    /// The line's owner was asked for its words, and the message stays in flight.
    Asked,
}

/// A Skip or an Abort is dropped below the served TID.
#[tactic(auto, unfolding(rules_tcc::specs::DirDeliver::skip, rules_tcc::specs::DirDeliver::abort))]
fn given_up(system: &System, dir: DirId, tid: Tid) -> Became
    requires { dir.0 < (settings_of system.now).dirs }
    ensures skip { IsAnswer result (Skip tid.0) (skip tid.0 ((world_of system.now).dirs dir.0)) }
    ensures abort { IsAnswer result (Abort tid.0) (abort tid.0 ((world_of system.now).dirs dir.0)) }
{
    if tid.0 < system.serving(dir).0 {
        Became::Dropped
    } else {
        Became::Taken
    }
}

/// A LoadReq asks the owner, where the line has one.
#[tactic(auto, unfolding(rules_tcc::specs::DirDeliver::load_request, rules_tcc::specs::DirDeliver::ask_owner))]
fn load(system: &System, dir: DirId, core: CoreId, line: LineAddr, after: Tid) -> Became
    requires line { line.0 < lines (settings_of system.now) }
    requires home { home (settings_of system.now) line.0 ≡ dir.0 }
    ensures { IsAnswer result (LoadReq line.0 after.0) (load_request core.0 line.0 after.0 ((world_of system.now).dirs dir.0)) }
{
    match system.line_state(line).owner {
        Some(_) => Became::Asked,
        None => Became::Taken,
    }
}

/// A Mark is dropped below the served TID, and asks the owner of a line that isn't wholly stored to.
#[tactic(auto, unfolding(rules_tcc::specs::DirDeliver::mark, rules_tcc::specs::DirDeliver::ask_owner))]
fn mark(system: &System, dir: DirId, line: LineAddr, mask: Mask, tid: Tid) -> Became
    requires dir { dir.0 < (settings_of system.now).dirs }
    requires line { line.0 < lines (settings_of system.now) }
    requires home { home (settings_of system.now) line.0 ≡ dir.0 }
    ensures { IsAnswer result (Mark line.0 mask.0 tid.0) (mark line.0 mask.0 tid.0 ((world_of system.now).dirs dir.0)) }
{
    if tid.0 < system.serving(dir).0 {
        return Became::Dropped;
    }
    if mask.0 == 255 {
        return Became::Taken;
    }
    match system.line_state(line).owner {
        Some(_) => Became::Asked,
        None => Became::Taken,
    }
}

/// An acknowledgement is dropped where none is owed.
#[tactic(auto, unfolding(rules_tcc::specs::DirDeliver::acknowledgement))]
fn acknowledged(system: &System, dir: DirId, core: CoreId, line: LineAddr, keeps: bool) -> Became
    requires { dir.0 < (settings_of system.now).dirs }
    ensures { IsAnswer result (InvAck line.0 keeps) (acknowledgement core.0 line.0 keeps ((world_of system.now).dirs dir.0)) }
{
    if system.directory(dir).owed() == 0 {
        Became::Dropped
    } else {
        Became::Taken
    }
}

/// Words that come home are dropped where they are of an earlier commit than the line's last, or came already.
#[tactic(auto, unfolding(rules_tcc::specs::DirDeliver::write_back))]
fn came_home(system: &System, dir: DirId, core: CoreId, tagged: &Tagged) -> Became
    requires line { tagged.now.line.0 < lines (settings_of system.now) }
    requires home { home (settings_of system.now) tagged.now.line.0 ≡ dir.0 }
    ensures back { let t = tagged.now in IsAnswer result (WriteBack t.line.0 t.mask.0 t.words t.tag.0)
        (write_back core.0 t.line.0 t.mask.0 t.words t.tag.0 ((world_of system.now).dirs dir.0)) }
    ensures flush { let t = tagged.now in IsAnswer result (Flush t.line.0 t.mask.0 t.words t.tag.0)
        (write_back core.0 t.line.0 t.mask.0 t.words t.tag.0 ((world_of system.now).dirs dir.0)) }
{
    let state = system.line_state(tagged.line);
    match judge(state.owner, state.tag, core, tagged.tag) {
        Take::Take => Became::Taken,
        Take::Drop => Became::Dropped,
        Take::Wait => Became::Taken,
    }
}

/// What becomes of a message to a directory that takes it now.
#[tactic(auto, unfolding(rules_tcc::specs::DirDeliver::dir_deliver))]
pub(crate) fn what_became(system: &System, dir: DirId, core: CoreId, msg: &Msg) -> Became
    requires dir { dir.0 < (settings_of system.now).dirs }
    requires line { IfSome (line_named (msg_of msg.now)) (λ l.
        (l < lines (settings_of system.now)) × (home (settings_of system.now) l ≡ dir.0)) }
    ensures { IsAnswer result (msg_of msg.now)
        (dir_deliver (settings_of system.now) ((world_of system.now).dirs dir.0) core.0 (msg_of msg.now)) }
{
    match *msg {
        Msg::Skip { tid } => given_up(system, dir, tid),
        Msg::Abort { tid } => given_up(system, dir, tid),
        Msg::LoadReq { line, after } => load(system, dir, core, line, after),
        Msg::Mark { line, mask, tid } => mark(system, dir, line, mask, tid),
        Msg::InvAck { line, keeps } => acknowledged(system, dir, core, line, keeps),
        Msg::WriteBack {
            mask,
            line,
            words,
            tag,
        } => came_home(
            system,
            dir,
            core,
            &Tagged {
                line,
                mask,
                words,
                tag,
            },
        ),
        Msg::Flush {
            mask,
            line,
            words,
            tag,
        } => came_home(
            system,
            dir,
            core,
            &Tagged {
                line,
                mask,
                words,
                tag,
            },
        ),
        Msg::Probe { .. } => Became::Taken,
        Msg::Commit { .. } => Became::Taken,
        Msg::TidReq => Became::Taken,
        Msg::TidGrant { .. } => Became::Taken,
        Msg::Fill { .. } => Became::Taken,
        Msg::ProbeReply { .. } => Became::Taken,
        Msg::DataReq { .. } => Became::Taken,
        Msg::Inv { .. } => Became::Taken,
    }
}
