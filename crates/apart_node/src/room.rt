// All ports of a node, and what its last event sent.
ghost use Rattle.std.specs.Prelude.{All, ◌≡◌, ◌+◌, ◌<◌, ◌++◌, [], ℕ, List, true, drop, length, OnOk, OnErr, IfOk};
ghost use Rattle.std.specs.Option.{option_map};
ghost use Rattle.rules_maps.specs.Bridge.{node_of};
ghost use Rattle.rules_maps.specs.Nodes.{Deliver};
ghost use Rattle.tcc_msg.specs.Plain.{event_of, msg_of};
ghost use Rattle.rules_tcc.specs.Local.{Mail as Sent};
ghost use Rattle.apart_member.specs.Acting.{Acts, MayDo};
ghost use Rattle.apart_member.specs.Data.{state_of};
ghost use Rattle.apart_node.specs.Acts.{Loses};
ghost use Rattle.apart_node.specs.Deeds.{IsWaiting};
ghost use Rattle.apart_node.specs.Linked.{IsLinkedTo};
ghost use Rattle.apart_node.specs.Moves.{AtEach, Grows, Room, SameSent, Stands, Takes};
ghost use Rattle.apart_node.specs.Ports.{ArePorts, IsUnused, handed_to, taken_from};
ghost use Rattle.apart_node.specs.Tally.{IsTallied};
ghost use Rattle.tcc_base.specs.Limits.{run_limit};

use crate::bell::Bell;
use crate::peers::seat_of;
use crate::port::{Letter, Port};
use crate::tally::Tally;
use apart_member::Member;
use net_links::{BELLS, Bells, Rung};
use rules_apart::Mail;
use std::alloc::Global;
use std::marker::Model;
use std::sync::{Arc, Wait};
use tcc_base::{Config, NoMemory, NodeId};
use tcc_msg::{Event, Msg, Outgoing};

/// A message that waits, with its sender and the place of the sender's port.
#[derive(Clone, Copy, Debug)]
pub(crate) struct Waiting {
    pub seat: usize,
    pub src: NodeId,
    pub letter: Letter,
}

/// The ports of a node, and what its last event sent, as far as the links don't hold it yet.
#[derive(Drop)]
pub(crate) struct Mailroom {
    config: Config,
    own: NodeId,
    pub(crate) ports: Vec<Port>,
    pub(crate) tally: Tally,
    /// The peers ring here for what they send.
    bells: Arc<Bells, Global>,
    /// Where they have rung, and not all may have been taken.
    rung: Rung,
    out: Outgoing,
    /// How many of the messages in `out` the links hold.
    placed: usize,
}

impl Model for Mailroom {
    ghost use Rattle.apart_node.specs.Ports.{RoomData};

    ghost Value = { RoomData };

    ghost use Rattle.apart_node.specs.RoomInside.{room_of, IsRoomInside};

    ghost view = { room_of };

    ghost invariant = { IsRoomInside };
}

// Takes what has arrived at the port of that place.
fn gather_at<R: Wait>(
    rt: &R,
    ports: &mut [Port],
    tally: &mut Tally,
    seat: usize,
) -> Result<(), NoMemory>
    requires exists { seat < length ports.old }
    requires tallied { IsTallied ports.old tally.old }
    ensures takes { AtEach Takes ports.old ports.new }
    ensures tallied { IsTallied ports.new tally.new }
{
    let met = ports[seat].gather(rt);
    tally.note(seat, &ports[seat]);
    met
}

// Takes what has arrived at the ports whose bells were rung. These bells are silent then; after want of memory, those where all was taken.
fn gather_rung<R: Wait>(
    rt: &R,
    ports: &mut [Port],
    tally: &mut Tally,
    rung: &mut Rung,
) -> Result<(), NoMemory>
    requires tallied { IsTallied ports.old tally.old }
    ensures takes { AtEach Takes ports.old ports.new }
    ensures tallied { IsTallied ports.new tally.new }
{
    for _ in 0..BELLS {
        let seat = rung.first();
        if seat >= ports.len() {
            break;
        }
        gather_at(rt, ports, tally, seat)?;
        *rung = rung.rest();
    }
    Ok(())
}

impl Mailroom {
    pub(crate) fn new(
        alloc: Global,
        config: Config,
        own: NodeId,
        ports: Vec<Port>,
    ) -> Result<Mailroom, NoMemory>
        requires ports { ArePorts config (node_of own) ports.items }
        requires unused { All IsUnused ports.items }
        ensures { IfOk result (λ room. room ≡ record { settings = config; own = own; ports = ports.items; unsent = [] }) }
    {
        let tally = Tally::new(alloc, &ports)?;
        let Ok(bells) = Arc::new(alloc, Bells::new()) else {
            return Err(NoMemory);
        };
        Ok(Mailroom {
            config,
            own,
            ports,
            tally,
            bells,
            rung: Rung::none(),
            out: Outgoing::new(alloc),
            placed: 0,
        })
    }

    /// From now on it rings at the peer for what it sends there. The error is that there are too many bells.
    pub(crate) fn ring_at(&mut self, peer: &Mailroom) -> Result<(), NoMemory>
        ensures { self.new ≡ self.old }
    {
        let (Some(there), Some(place)) = (
            seat_of(&self.config, self.own, peer.own),
            seat_of(&peer.config, peer.own, self.own),
        ) else {
            return Ok(());
        };
        let Ok(bells) = Arc::try_clone(&peer.bells) else {
            return Err(NoMemory);
        };
        if let Some(port) = self.ports.get_mut(there) {
            port.hang(Bell::new(bells, place));
        }
        Ok(())
    }

    // Puts the first message that isn't sent yet onto its link.
    fn post_next<R: Wait>(&mut self, rt: &R, stamp: u64) -> Result<(), NoMemory>
        requires { 0 < length self.old.unsent }
        ensures room { Room (λ peer. Stands) self.old self.new }
        ensures sent { SameSent stamp self.old self.new }
        ensures next { OnOk result (self.new.unsent ≡ drop 1 self.old.unsent) }
    {
        let (dst, msg) = self.out.list[self.placed];
        let Some(seat) = seat_of(&self.config, self.own, dst) else {
            unreachable!()
        };
        self.ports[seat].send(rt, Mail { stamp, msg })?;
        self.placed += 1;
        Ok(())
    }

    // How many messages the links don't hold yet.
    fn unsent_count(&self) -> usize
        ensures { result ≡ length self.now.unsent }
    {
        self.out.len() - self.placed
    }

    /// Puts all that isn't sent yet onto the links. After want of memory the rest is as before.
    pub(crate) fn flush<R: Wait>(&mut self, rt: &R, stamp: u64) -> Result<(), NoMemory>
        ensures room { Room (λ peer. Stands) self.old self.new }
        ensures sent { SameSent stamp self.old self.new }
        ensures emptied { OnOk result (self.new.unsent ≡ []) }
    {
        for _ in 0..self.unsent_count() {
            self.post_next(rt, stamp)?;
        }
        Ok(())
    }

    /// Takes all that has arrived from the links on which a peer has rung. After want of memory the rest is on them as before.
    pub(crate) fn gather<R: Wait>(&mut self, rt: &R) -> Result<(), NoMemory>
        ensures room { Room (λ peer. Grows) self.old self.new }
        ensures sent { (stamp : ℕ) → SameSent stamp self.old self.new }
        ensures unsent { self.new.unsent ≡ self.old.unsent }
    {
        let Mailroom {
            ports,
            tally,
            bells,
            rung,
            ..
        } = self;
        *rung = rung.and(bells.listen());
        gather_rung(rt, ports.as_mut_slice(), tally, rung)
    }

    /// The member does an event; what it sends is kept here until it is put onto the links.
    pub(crate) fn act(
        &mut self,
        member: &mut Member,
        event: Event,
        msg: Option<Msg>,
    ) -> Result<bool, NoMemory>
        requires settings { self.old.settings ≡ member.old.code.settings }
        requires own { self.old.own ≡ member.old.node }
        requires flushed { self.old.unsent ≡ [] }
        requires may { MayDo member.old (event_of event) (option_map msg_of msg) }
        requires few { member.old.done < run_limit }
        ensures acted { IfOk result (Acts member.old member.new (event_of event) (option_map msg_of msg) self.new.unsent) }
        ensures ports { self.new ≡ record self.old { unsent = self.new.unsent } }
        ensures done { OnOk result (member.new.done ≡ member.old.done + 1) }
        ensures code { member.new.code ≡ member.old.code }
        ensures node { member.new.node ≡ member.old.node }
        ensures unchanged { OnErr result (state_of member.new ≡ state_of member.old) }
        ensures uncounted { OnErr result (member.new.done ≡ member.old.done) }
        ensures unsent { OnErr result (self.new.unsent ≡ []) }
    {
        self.out.clear();
        self.placed = 0;
        member.act(event, msg, &mut self.out)
    }

    /// Takes a message out of its pool.
    pub(crate) fn drop_waiting(&mut self, waiting: &Waiting)
        requires { IsWaiting self.old waiting.now }
        ensures room { Room (Loses true (Deliver (node_of waiting.now.src) (node_of self.old.own) waiting.now.letter.number)) self.old
            self.new }
        ensures sent { (stamp : ℕ) → SameSent stamp self.old self.new }
    {
        self.ports[waiting.seat].drop_letter(&waiting.letter);
        self.tally.note(waiting.seat, &self.ports[waiting.seat]);
    }

    /// What the peer has taken is a beginning of what was sent to it and is on the link.
    pub(crate) fn hear<R: Wait>(&mut self, rt: &R, peer: &mut Mailroom)
        requires { IsLinkedTo self.old peer.old }
        ensures begins { (stamp : ℕ)
            → (rest : List Sent) × (handed_to self.old stamp (node_of peer.old.own) ≡ taken_from peer.old (node_of self.old.own)
            ++ rest) }
        ensures unchanged { self.new ≡ self.old }
        ensures peer { peer.new ≡ peer.old }
    {
        let Some(there) = seat_of(&self.config, self.own, peer.own) else {
            unreachable!()
        };
        let Some(back) = seat_of(&peer.config, peer.own, self.own) else {
            unreachable!()
        };
        self.ports[there].hear(rt, &mut peer.ports[back]);
    }
}
