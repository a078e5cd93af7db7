// The steps of a row, as they are written.
use crate::messages::read_msg;
use crate::words::{Words, node};
use tcc_base::{CoreId, NodeId};
use tcc_msg::{Msg, Name};

/// What one node does.
#[derive(Clone, Copy)]
pub enum Step {
    /// `e CORE`: the core executes.
    Exec(CoreId),
    /// `x CORE SET WAY`: the core empties a way.
    Evict(CoreId, u16, u8),
    /// `d NODE NODE SEQ`: the second node gets a message that the first one sent it in this row, by its number, from 0.
    Deliver(Name),
    /// `NODE NODE MESSAGE`: the second node gets a message that is made up, with the first one as its sender.
    Hand(NodeId, NodeId, Msg),
}

impl Step {
    /// The node that acts.
    pub fn node(self) -> NodeId {
        match self {
            Step::Exec(core) => NodeId::Core(core),
            Step::Evict(core, _, _) => NodeId::Core(core),
            Step::Deliver(name) => name.dst,
            Step::Hand(_, dst, _) => dst,
        }
    }
}

fn read_evict(from: &mut Words<'_>) -> Option<Step> {
    let core = from.core()?;
    let set = from.set()?;
    let way = from.way()?;
    Some(Step::Evict(core, set, way))
}

fn read_deliver(from: &mut Words<'_>) -> Option<Step> {
    let src = from.node()?;
    let dst = from.node()?;
    let seq = from.number()?;
    Some(Step::Deliver(Name { src, dst, seq }))
}

fn read_hand(src: NodeId, from: &mut Words<'_>) -> Option<Step> {
    let dst = from.node()?;
    let msg = read_msg(from)?;
    Some(Step::Hand(src, dst, msg))
}

/// The step that begins with this word.
pub fn read_step(word: &str, from: &mut Words<'_>) -> Option<Step> {
    match word {
        "e" => Some(Step::Exec(from.core()?)),
        "x" => read_evict(from),
        "d" => read_deliver(from),
        _ => read_hand(node(word)?, from),
    }
}
