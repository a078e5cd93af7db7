// What a node sends in one event, in order, each message with its destination.
ghost use Rattle.std.specs.Prelude.{◌≡◌, ◌==◌, ◌+◌, ◌<◌, ◌≤◌, [], ◌∷◌, ◌++◌, length, take, OnOk, OnErr, vec_capacity, if◌then◌else◌};
ghost use Rattle.rules_maps.specs.Nodes.{Node, node_eq};
ghost use Rattle.rules_maps.specs.Bridge.{node_of};
ghost use Rattle.tcc_msg.specs.Plain.{msg_of, sends_of};

use crate::msg::Msg;
use std::alloc::Global;
use tcc_base::{NoMemory, NodeId};

/// The messages that a node sends, in order.
#[derive(Debug, Drop)]
pub struct Outgoing {
    pub list: Vec<(NodeId, Msg)>,
}

impl Outgoing {
    /// Nothing is sent. No memory is taken yet.
    pub fn new(alloc: Global) -> Self
        ensures { result.list.items ≡ [] }
    {
        Outgoing {
            list: Vec::new(alloc),
        }
    }

    /// The number of messages.
    pub fn len(&self) -> usize
        ensures { result ≡ length self.now.list.items }
    {
        self.list.len()
    }

    /// Whether nothing is sent.
    pub fn is_empty(&self) -> bool
        ensures { result ≡ (length self.now.list.items == 0) }
    {
        self.list.is_empty()
    }

    /// Makes room for so many more messages, so that `hand_out` can send them after the node has changed. What is sent stays as it
    /// is, also after want of memory.
    pub fn reserve(&mut self, more: usize) -> Result<(), NoMemory>
        ensures room { OnOk result (length self.new.list.items + more ≤ vec_capacity self.new.list) }
        ensures unchanged { self.new.list.items ≡ self.old.list.items }
    {
        self.list.reserve(more).map_err(|_| NoMemory)
    }

    /// Sends one more message, behind the others, where there is room for it. It takes constant time and no memory.
    pub fn hand_out(&mut self, dst: NodeId, msg: Msg)
        requires { length self.old.list.items < vec_capacity self.old.list }
        ensures sent { self.new.list.items ≡ self.old.list.items ++ (dst, msg) ∷ [] }
        ensures room { vec_capacity self.new.list ≡ vec_capacity self.old.list }
    {
        self.list.push_reserved((dst, msg));
    }

    /// Sends one more message, behind the others. After want of memory nothing is changed. It takes constant time but for the
    /// growth of the list.
    pub fn push(&mut self, dst: NodeId, msg: Msg) -> Result<(), NoMemory>
        ensures sent { OnOk result (self.new.list.items ≡ self.old.list.items ++ (dst, msg) ∷ []) }
        ensures unchanged { OnErr result (self.new.list.items ≡ self.old.list.items) }

        // What each node gets: the destination gets one more, last, and all others the same as before.
        ensures sends { OnOk result ((n : Node) → sends_of self.new.list.items n ≡ sends_of self.old.list.items n
            ++ (if node_eq n (node_of dst) then msg_of msg ∷ [] else [])) }
    {
        match self.list.push((dst, msg)) {
            Ok(()) => Ok(()),
            Err(_) => Err(NoMemory),
        }
    }

    /// Takes back all messages but the first `len`: what a call that found no memory halfway does with those that it had sent.
    pub fn truncate(&mut self, len: usize)
        ensures { self.new.list.items ≡ take len self.old.list.items }
    {
        self.list.truncate(len);
    }

    /// Takes back all messages. The memory is kept for the next event.
    pub fn clear(&mut self)
        ensures { self.new.list.items ≡ [] }
    {
        self.list.clear();
    }
}
