// A node's ends of the links to and from one peer, and the messages from there that wait.
ghost use Rattle.std.specs.Prelude.{◌≡◌, ◌^◌, ◌<◌, ◌≤◌, ◌∷◌, ◌++◌, [], ℕ, List, length, slice_get, Some, if◌then◌else◌, OnOk, OnErr, IfOk};
ghost use Rattle.std.specs.Prelude.{IfErr, IsTrue, max};
ghost use Rattle.rules_maps.specs.Bridge.{node_of};
ghost use Rattle.rules_maps.specs.Nodes.{Deliver};
ghost use Rattle.tcc_msg.specs.Plain.{msg_of};
ghost use Rattle.rules_apart.specs.Carried.{IsCarried};
ghost use Rattle.apart_member.specs.Acting.{MayDo};
ghost use Rattle.apart_node.specs.Choice.{is_ready as may_take, ready_in};
ghost use Rattle.apart_node.specs.Deeds.{IsLetter};
ghost use Rattle.apart_node.specs.Moves.{Takes};
ghost use Rattle.apart_node.specs.Ports.{ArePaired, IsPort, all_but};
ghost use Rattle.apart_node.specs.Tally.{hanging_in, hangs as may_wait};

use crate::bell::Bell;
use apart_member::{Member, never_waits};
use net_links::{Inlet, Outlet, link};
use rules_apart::Mail;
use std::alloc::Global;
use std::marker::Model;
use std::sync::Wait;
use tcc_base::{Config, NoMemory, NodeId};
use tcc_msg::{Name, Pool};

/// No event has a later stamp.
const LAST_STAMP: u64 = 0x4000_0000_0000_0000;

/// No more messages wait at one port.
const MOST: usize = 0xffff_ffff;

/// A message that waits: its place in the pool, and its number on the link.
#[derive(Clone, Copy, Debug)]
pub(crate) struct Letter {
    pub place: usize,
    pub number: u64,
    pub mail: Mail,
}

/// A node's ends of the links to and from one peer, and the pool of messages from there that have arrived and aren't handled.
#[derive(Drop)]
pub struct Port {
    own: NodeId,
    peer: NodeId,
    outlet: Outlet,
    inlet: Inlet,
    pool: Pool<Mail>,
    /// How many messages were taken from the inlet.
    taken: u64,
    /// How many in the pool may have to wait.
    hanging: u32,
    /// It is rung at the peer for what is sent there. Without one the peer isn't told.
    bell: Option<Bell>,
}

impl Model for Port {
    ghost use Rattle.apart_node.specs.Ports.{PortData};

    ghost Value = { PortData };

    ghost use Rattle.apart_node.specs.PortInside.{port_of, IsPortInside};

    ghost view = { port_of };

    ghost invariant = { IsPortInside };
}

// 1 where the node may let it wait, or there is no stamp after it, and otherwise 0.
#[tactic(auto, unfolding(crate::specs::Tally::hangs))]
fn hangs(own: NodeId, mail: &Mail) -> u32
    ensures { (number : ℕ) → result ≡ (if may_wait (node_of own) (number, mail.now) then 1 else 0) }
{
    if mail.stamp < LAST_STAMP && never_waits(own, &mail.msg) {
        0
    } else {
        1
    }
}

// Whether the member would take the message now, and there is a stamp for that.
fn is_ready(member: &Member, last: u64, src: NodeId, mail: &Mail) -> bool
    requires { IsCarried member.now.code.settings (node_of src) (node_of member.now.node) (msg_of mail.now.msg) }
    ensures ready { result ≡ may_take member.now last (node_of src) mail.now }
    ensures early { IsTrue result → max last mail.now.stamp < 2 ^ 62 }
    ensures may { (seq : ℕ) → IsTrue result
        → MayDo member.now (Deliver (node_of src) (node_of member.now.node) seq) (Some (msg_of mail.now.msg)) }
{
    last.max(mail.stamp) < LAST_STAMP && member.takes(src, &mail.msg)
}

impl Port {
    /// A node's port to this peer, from whose link nothing was taken. Takes no memory.
    pub fn new(alloc: Global, own: NodeId, peer: NodeId, outlet: Outlet, inlet: Inlet) -> Port
        requires own { inlet.ends.dst ≡ own }
        requires peer { inlet.ends.src ≡ peer }
        requires unused { inlet.got ≡ [] }
        ensures { result ≡ record { outlet = outlet; inlet = inlet; pool = [] } }
    {
        Port {
            own,
            peer,
            outlet,
            inlet,
            pool: Pool::new(alloc),
            taken: 0,
            hanging: 0,
            bell: None,
        }
    }

    /// The ports of two nodes to one another, over two new links. Takes memory for the links; when it runs out, nothing is
    /// left of them.
    pub fn pair(
        alloc: Global,
        config: &Config,
        one: NodeId,
        other: NodeId,
    ) -> Result<(Port, Port), NoMemory>
        ensures { IfOk result (λ p. ArePaired config.now one other p.0 p.1) }
    {
        let (there, arrives) = link(alloc, config, one, other)?;
        let (back, returns) = link(alloc, config, other, one)?;
        Ok((
            Port::new(alloc, one, other, there, returns),
            Port::new(alloc, other, one, back, arrives),
        ))
    }

    /// Which node the peer is.
    pub(crate) fn peer(&self) -> NodeId
        ensures { result ≡ self.now.inlet.ends.src }
    {
        self.peer
    }

    /// Sends a message to the peer. After want of memory nothing is changed.
    pub(crate) fn send<R: Wait>(&mut self, rt: &R, mail: Mail) -> Result<(), NoMemory>
        requires { IsCarried self.old.outlet.ends.settings (node_of self.old.outlet.ends.src) (node_of self.old.outlet.ends.dst)
            (msg_of mail.msg) }
        ensures sent { OnOk result
            (self.new ≡ record self.old { outlet = record self.old.outlet { sent = self.old.outlet.sent ++ mail ∷ [] } }) }
        ensures unchanged { OnErr result (self.new ≡ self.old) }
    {
        self.outlet.push(rt, mail)?;
        if let Some(bell) = &self.bell {
            bell.ring();
        }
        Ok(())
    }

    /// Rings this bell from now on for what is sent.
    pub(crate) fn hang(&mut self, bell: Bell)
        ensures { self.new ≡ self.old }
    {
        self.bell = Some(bell);
    }

    /// Takes the next message from the link into the pool, and tells whether there was one.
    fn take_in<R: Wait>(&mut self, rt: &R) -> Result<bool, NoMemory>
        ensures { Takes self.old self.new }
    {
        if self.taken == u64::MAX || self.pool.len() >= MOST {
            return Ok(false);
        }
        self.pool.reserve()?;
        let Some(mail) = self.inlet.pop(rt) else {
            return Ok(false);
        };
        let name = Name {
            src: self.peer,
            dst: self.own,
            seq: self.taken,
        };
        self.pool.add_reserved(name, mail);
        self.taken += 1;
        self.hanging += hangs(self.own, &mail);
        Ok(true)
    }

    /// Takes all that has arrived from the link into the pool. After want of memory the rest is on the link as before.
    pub(crate) fn gather<R: Wait>(&mut self, rt: &R) -> Result<(), NoMemory>
        ensures { Takes self.old self.new }
    {
        for _ in rt.forever() {
            if !self.take_in(rt)? {
                break;
            }
        }
        Ok(())
    }

    /// The message that waits at a place of the pool.
    fn letter(&self, place: usize) -> Letter
        requires { place < length self.now.pool }
        ensures place { result.place ≡ place }
        ensures letter { IsLetter self.now result }
    {
        let (name, mail) = self.pool.at(place).unwrap();
        Letter {
            place,
            number: name.seq,
            mail: *mail,
        }
    }

    /// How many messages wait.
    pub(crate) fn waiting(&self) -> u32
        ensures count { result ≡ length self.now.pool }
        ensures whole { IsPort self.now }
    {
        self.pool.len() as u32
    }

    /// How many of them may have to wait on, as the node may be.
    pub(crate) fn hanging(&self) -> u32
        ensures { result ≡ length (hanging_in self.now) }
    {
        self.hanging
    }

    /// How many of the waiting messages the member would take now.
    pub(crate) fn ready_count(&self, member: &Member, last: u64) -> u32
        requires settings { self.now.inlet.ends.settings ≡ member.now.code.settings }
        requires own { node_of self.now.inlet.ends.dst ≡ node_of member.now.node }
        ensures { result ≡ length (ready_in member.now last self.now) }
    {
        let mut count = 0;
        for place in 0..self.pool.len() {
            let letter = self.letter(place);
            if is_ready(member, last, self.peer, &letter.mail) {
                count += 1;
            }
        }
        count
    }

    /// The k-th of them, from 0; where there is none, how many there are.
    pub(crate) fn ready_at(&self, member: &Member, last: u64, k: usize) -> Result<Letter, usize>
        requires settings { self.now.inlet.ends.settings ≡ member.now.code.settings }
        requires own { node_of self.now.inlet.ends.dst ≡ node_of member.now.node }
        ensures letter { IfOk result (λ l. IsLetter self.now l) }
        ensures kth { IfOk result (λ l. slice_get (ready_in member.now last self.now) k ≡ Some (l.number, l.mail)) }
        ensures early { IfOk result (λ l. max last l.mail.stamp < 2 ^ 62) }
        ensures may { IfOk result
            (λ l. MayDo member.now (Deliver (node_of self.now.inlet.ends.src) (node_of member.now.node) l.number)
            (Some (msg_of l.mail.msg))) }
        ensures count { IfErr result (λ n. n ≡ length (ready_in member.now last self.now)) }
        ensures past { IfErr result (λ n. n ≤ k) }
    {
        let mut count = 0;
        for place in 0..self.pool.len() {
            let letter = self.letter(place);
            if is_ready(member, last, self.peer, &letter.mail) {
                if count == k {
                    return Ok(letter);
                }
                count += 1;
            }
        }
        Err(count)
    }

    /// Takes a message out of the pool. The others stay in their order.
    pub(crate) fn drop_letter(&mut self, letter: &Letter)
        requires { IsLetter self.old letter.now }
        ensures { self.new ≡ record self.old { pool = all_but letter.now.number self.old.pool } }
    {
        let _ = self.pool.remove_at(letter.place);
        self.hanging -= hangs(self.own, &letter.mail);
    }

    /// What the peer's port has taken is a beginning of what was sent here.
    pub(crate) fn hear<R: Wait>(&mut self, rt: &R, peer: &mut Port)
        requires { peer.old.inlet.link ≡ self.old.outlet.link }
        ensures begins { (rest : List Mail) × (self.old.outlet.sent ≡ peer.old.inlet.got ++ rest) }
        ensures unchanged { self.new ≡ self.old }
        ensures peer { peer.new ≡ peer.old }
    {
        self.outlet.hear(rt, &mut peer.inlet);
    }
}
