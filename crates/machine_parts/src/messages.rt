// Which messages may stand on a link.
ghost use Rattle.std.specs.Prelude.{◌≡◌, ◌↔◌, IfSome, IsTrue, option_map};
ghost use Rattle.rules_maps.specs.Bridge.{node_of};
ghost use Rattle.rules_maps.specs.Messages.{IsLine, fits, goes_to_core, goes_to_dir, is_grant, is_request, line_named};
ghost use Rattle.tcc_msg.specs.Plain.{msg_of};
ghost use Rattle.theorem_sound.specs.Sound.{GoodMessage, tid_resolved};

use tcc_base::{Config, LineAddr, NodeId, Tid};
use tcc_msg::Msg;

fn goes_to_core(msg: &Msg) -> bool
    ensures { result ≡ goes_to_core (msg_of msg.now) }
{
    match msg {
        Msg::Fill { .. } | Msg::ProbeReply { .. } | Msg::DataReq { .. } | Msg::Inv { .. } => true,
        _ => false,
    }
}

fn goes_to_dir(msg: &Msg) -> bool
    ensures { result ≡ goes_to_dir (msg_of msg.now) }
{
    match msg {
        Msg::LoadReq { .. }
        | Msg::Skip { .. }
        | Msg::Probe { .. }
        | Msg::Mark { .. }
        | Msg::Commit { .. }
        | Msg::Abort { .. }
        | Msg::WriteBack { .. }
        | Msg::Flush { .. }
        | Msg::InvAck { .. } => true,
        _ => false,
    }
}

fn is_request(msg: &Msg) -> bool
    ensures { result ≡ is_request (msg_of msg.now) }
{
    match msg {
        Msg::TidReq => true,
        _ => false,
    }
}

fn is_grant(msg: &Msg) -> bool
    ensures { result ≡ is_grant (msg_of msg.now) }
{
    match msg {
        Msg::TidGrant { .. } => true,
        _ => false,
    }
}

/// Whether the source says such messages to the destination, and the machine has both.
#[tactic(auto, unfolding(rules_maps::specs::Messages::fits))]
fn fits(config: &Config, src: NodeId, dst: NodeId, msg: &Msg) -> bool
    ensures { result ≡ fits config.now (node_of src) (node_of dst) (msg_of msg.now) }
{
    match (src, dst) {
        (NodeId::Core(c), NodeId::Dir(d)) => {
            c.0 < config.cores() && (d.0 < config.dirs() && goes_to_dir(msg))
        }
        (NodeId::Core(c), NodeId::Vendor) => c.0 < config.cores() && is_request(msg),
        (NodeId::Dir(d), NodeId::Core(c)) => {
            c.0 < config.cores() && (d.0 < config.dirs() && goes_to_core(msg))
        }
        (NodeId::Vendor, NodeId::Core(c)) => c.0 < config.cores() && is_grant(msg),
        _ => false,
    }
}

/// The line that a message names.
fn line_named(msg: &Msg) -> Option<LineAddr>
    ensures { option_map (λ l. l.0) result ≡ line_named (msg_of msg.now) }
{
    match *msg {
        Msg::LoadReq { line, .. }
        | Msg::Fill { line, .. }
        | Msg::Mark { line, .. }
        | Msg::WriteBack { line, .. }
        | Msg::Flush { line, .. }
        | Msg::DataReq { line }
        | Msg::Inv { line, .. }
        | Msg::InvAck { line, .. } => Some(line),
        _ => None,
    }
}

/// The TID that a message says is given up or committed.
fn tid_resolved(msg: &Msg) -> Option<Tid>
    ensures { option_map (λ t. t.0) result ≡ tid_resolved (msg_of msg.now) }
{
    match *msg {
        Msg::Skip { tid } | Msg::Abort { tid } | Msg::Commit { tid, .. } => Some(tid),
        _ => None,
    }
}

/// Whether a line is one of memory that is at home at the directory of the link.
fn is_line(config: &Config, src: NodeId, dst: NodeId, line: LineAddr) -> bool
    ensures { IsTrue result ↔ IsLine config.now (node_of src) (node_of dst) line.0 }
{
    match (src, dst) {
        (NodeId::Core(_), NodeId::Dir(dir)) | (NodeId::Dir(dir), NodeId::Core(_)) => {
            line.0 < config.words() / 8 && config.home(line).0 == dir.0
        }
        _ => false,
    }
}

/// Whether a message may stand on the link: its source says such messages to its destination, a line that it names is one of memory, at
/// home at the link's directory, and a TID that it gives up or commits is below the next one.
pub fn is_good(config: &Config, next: Tid, src: NodeId, dst: NodeId, msg: &Msg) -> bool
    ensures { IsTrue result ↔ GoodMessage config.now next.0 (node_of src) (node_of dst) (msg_of msg.now) }
{
    if !fits(config, src, dst, msg) {
        return false;
    }
    if let Some(line) = line_named(msg) {
        if !is_line(config, src, dst, line) {
            return false;
        }
    }
    match tid_resolved(msg) {
        Some(tid) => tid.0 < next.0,
        None => true,
    }
}
