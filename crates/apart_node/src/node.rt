// A node with its links, its log and what waits for it.
ghost use Rattle.std.specs.Prelude.{◌≡◌, ◌==◌, ◌++◌, [], List as Seq, length, All, IfOk};
ghost use Rattle.image_load.specs.Contents.{started};
ghost use Rattle.rules_riscv.specs.Starting.{world_at_start};
ghost use Rattle.rules_maps.specs.Bridge.{node_of};
ghost use Rattle.rules_tcc.specs.Local.{state_at, Mail as Sent};
ghost use Rattle.apart_member.specs.Data.{state_of};
ghost use Rattle.apart_node.specs.Linked.{IsLinkedTo};
ghost use Rattle.apart_node.specs.Node.{IsNode, got_from, sent_to, here};
ghost use Rattle.apart_node.specs.Ports.{ArePorts, IsUnused};

use crate::port::Port;
use crate::room::Mailroom;
use apart_member::Member;
use rules_apart::Logged;
use std::alloc::Global;
use std::marker::Model;
use std::sync::Wait;
use tcc_base::{Config, List, NoMemory, NodeId};

/// How a call of `Node::act` ended.
#[derive(Clone, Copy, Debug, PartialEq, Eq)]
pub enum Act {
    /// It did an event.
    Moved,
    /// No event is useful now, or the log is full.
    Idle,
    /// It did nothing for want of memory.
    Memory,
}

/// A node of a machine whose nodes are kept apart, with its ends of the links to its peers, the messages that have arrived there and wait,
/// and the log of its events. By the rules it does what its log says with what came to it, and that sends what it has sent.
#[derive(Drop)]
pub struct Node {
    pub(crate) member: Member,
    pub(crate) log: Vec<Logged>,
    /// The stamp of the last entry, or 0.
    pub(crate) last: u64,
    pub(crate) room: Mailroom,
    /// How many events of the member's own are useful.
    pub(crate) own: usize,
}

impl Model for Node {
    ghost use Rattle.apart_node.specs.Node.{NodeData};

    ghost Value = { NodeData };

    ghost use Rattle.apart_node.specs.NodeInside.{node_of_parts, IsNodeInside};

    ghost view = { node_of_parts };

    ghost invariant = { IsNodeInside };
}

impl Node {
    /// A node that has done nothing, with a port to each of its peers in their order: of a core the directories and then the vendor, of a
    /// directory or the vendor the cores. Takes memory for counts of what waits at each port; when it runs out, nothing is left of them.
    pub fn new(
        alloc: Global,
        config: &Config,
        member: Member,
        ports: Vec<Port>,
    ) -> Result<Node, NoMemory>
        requires settings { config.now ≡ member.code.settings }
        requires idle { member.done ≡ 0 }
        requires start { state_of member ≡ state_at (world_at_start (started member.code)) (node_of member.node) }
        requires ports { ArePorts config.now (node_of member.node) ports.items }
        requires unused { All IsUnused ports.items }
        ensures { IfOk result (λ node.
            node ≡ record {
              member = member;
              log = [];
              room = record { settings = config.now; own = member.node; ports = ports.items; unsent = [] };
            }) }
    {
        let room = Mailroom::new(alloc, *config, member.node(), ports)?;
        let own = member.own_count();
        Ok(Node {
            member,
            log: Vec::new(alloc),
            last: 0,
            room,
            own,
        })
    }

    /// From now on it rings a bell at the peer for what it sends there, where they are linked. Nothing else is changed. The error is that
    /// there are too many bells.
    pub fn ring_at(&mut self, peer: &Node) -> Result<(), NoMemory>
        ensures { self.new ≡ self.old }
    {
        self.room.ring_at(&peer.room)
    }

    /// Which node it is.
    pub fn node(&self) -> NodeId
        ensures value { result ≡ self.now.member.node }
        ensures whole { IsNode self.now }
    {
        let _ = &self.log;
        self.member.node()
    }

    /// How many entries its log has, at most 4,194,304.
    pub fn len(&self) -> usize
        ensures { result ≡ length self.now.log }
    {
        self.log.len()
    }

    /// Whether it has done nothing yet.
    pub fn is_empty(&self) -> bool
        ensures { result ≡ (length self.now.log == 0) }
    {
        self.log.is_empty()
    }

    /// What the peer has taken of this node is a beginning of what this node sent to it. Both are as before. Takes no memory; may wait for
    /// a moment where a message is being sent.
    pub fn hear<R: Wait>(&mut self, rt: &R, peer: &mut Node)
        requires { IsLinkedTo self.old.room peer.old.room }
        ensures begins { (rest : Seq Sent) × (sent_to self.old (here peer.old) ≡ got_from peer.old (here self.old) ++ rest) }
        ensures unchanged { self.new ≡ self.old }
        ensures peer { peer.new ≡ peer.old }
    {
        self.room.hear(rt, &mut peer.room);
    }

    /// Its log.
    pub fn into_log(self) -> List<Logged>
        ensures { result ≡ self.log }
    {
        let Node { log, .. } = self;
        List { items: log }
    }
}
