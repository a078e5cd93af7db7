// The messages in flight of a machine, and which of them may be delivered.
ghost use Rattle.std.specs.Prelude.{◌≡◌, ◌↔◌, ◌+◌, ◌-◌, ◌^◌, ◌≤◌, ◌<◌, ℕ, true, false, [], ◌∷◌, length, replicate, IsTrue, IfOk, OnOk};
ghost use Rattle.std.specs.Prelude.{OnErr};
ghost use Rattle.std.specs.Bool.{OnTrue, OnFalse};
ghost use Rattle.std.specs.Prelude.{slice_get, slice_index, slice_set, Option, Some, None, IsSome, IfNone, IfSome, option_map, is_some};
ghost use Rattle.rules_maps.specs.Words.{those, num};
ghost use Rattle.rules_maps.specs.Nodes.{Node, Core, Dir, Deliver, Msg as PlainMsg};
ghost use Rattle.rules_maps.specs.Bridge.{node_of};
ghost use Rattle.tcc_msg.specs.Plain.{msg_of, sends_of};
ghost use Rattle.rules_tcc.specs.Links.{in_flight, sending, taking};

use crate::grid::Grid;
use crate::index::Index;
use crate::lane::{Held, Lane};
use crate::subject::{Entry, Subject, entry_of};
use base_sums::SumTree;
use std::alloc::Global;
use std::marker::Model;
use tcc_base::{NoMemory, NodeId};
use tcc_msg::{Msg, Name};

/// The most messages that are in flight at once: more than memory has room for, and their number fits beside others.
pub const MAX_FLYING: u64 = 281_474_976_710_656;

/// The messages in flight of a machine, each with a mark that says whether it may be delivered. There is a link from each core to
/// each directory and to the vendor, and from each of these to each core. In a clause `net_of` makes of it the links of the rules, and
/// `is_ready` the marks; only a message in flight is ever marked.
///
/// Only `take` copies a message. On a link they stand in stretches of at most 256, none of them empty but the first. A call that names one
/// finds its stretch by halves, and it in there, so with n messages in flight on a link it takes time in log n; `take` and `discard`
/// also move those behind it in its stretch, and where that is empty then, the stretches behind that. A call that asks for the i-th of
/// a link passes over the stretches before it: that takes time in n / 256, and more only where most messages of its stretches were
/// taken and not the last ones. A change of a mark takes constant time once it is found, and `ready_at` goes with the number of links
/// divided by 256, and through one link. Only `new` and `push` take memory.
#[derive(Debug, Drop)]
pub struct InFlight {
    grid: Grid,
    lanes: Vec<Lane>,
    ready: SumTree,
    flying: u64,
    index: Index,
}

impl Model for InFlight {
    ghost use Rattle.machine_links.specs.Flights.{Flights};

    ghost Value = { Flights };

    ghost use Rattle.machine_links.specs.FlightsInside.{flights_of, IsFlights};

    ghost view = { flights_of };

    ghost invariant = { IsFlights };
}

impl InFlight {
    ghost use Rattle.machine_links.specs.Flights.{lane, net_of, is_ready, with_mark, ready_list, flying};
    ghost use Rattle.machine_links.specs.Passed.{passed_to};
    ghost use Rattle.machine_links.specs.Places.{is_link};
    ghost use Rattle.machine_links.specs.Subject.{IsListed, about, bucket, entry, key, of_key, subject_of};

    /// Nothing was sent. Its time and memory go with the number of pairs of nodes.
    pub fn new(alloc: Global, cores: u8, dirs: u8) -> Result<InFlight, NoMemory>
        requires cores { cores ≤ 64 }
        requires dirs { dirs ≤ 64 }
        ensures cores { IfOk result (λ f. f.cores ≡ cores) }
        ensures dirs { IfOk result (λ f. f.dirs ≡ dirs) }
        ensures net { IfOk result (λ f. net_of f ≡ (λ src dst. [])) }
        ensures ready { IfOk result (λ f. is_ready f ≡ (λ src dst k. false)) }
    {
        let grid = Grid { cores, dirs };
        let pairs = grid.pairs();
        Ok(InFlight {
            grid,
            lanes: empty_lanes(alloc, pairs)?,
            ready: SumTree::new(alloc, pairs)?,
            flying: 0,
            index: Index::new(alloc)?,
        })
    }

    /// The number of cores.
    pub fn cores(&self) -> u8
        ensures { result ≡ self.now.cores }
    {
        self.grid.cores
    }

    /// The number of directories.
    pub fn dirs(&self) -> u8
        ensures { result ≡ self.now.dirs }
    {
        self.grid.dirs
    }

    /// Whether there is such a link: one of the two is a core, and the other a directory or the vendor. It takes constant time.
    pub fn has_link(&self, src: NodeId, dst: NodeId) -> bool
        ensures { result ≡ is_link self.now.cores self.now.dirs (node_of src) (node_of dst) }
    {
        self.grid.is_link(src, dst)
    }

    /// How many messages were sent on a link: 0 where there is no such link. It takes constant time.
    pub fn sent(&self, src: NodeId, dst: NodeId) -> u64
        ensures { result ≡ length (net_of self.now (node_of src) (node_of dst)) }
    {
        match self.lane(src, dst) {
            Some(lane) => lane.sent(),
            None => 0,
        }
    }

    /// How many messages are in flight. It takes constant time.
    pub fn len(&self) -> u64
        ensures { result ≡ flying self.now }
    {
        self.flying
    }

    /// Whether no message is in flight. It takes constant time.
    pub fn is_empty(&self) -> bool
        ensures count { IsTrue result ↔ (flying self.now ≡ 0) }
        ensures quiet { IsTrue result ↔ ((src dst : Node) (k : ℕ) → in_flight (net_of self.now) src dst k ≡ None) }
    {
        self.flying == 0
    }

    /// The message of that name with its mark; `None` exactly where it isn't in flight.
    pub fn held(&self, name: Name) -> Option<&Held>
        ensures message { option_map (λ h. msg_of h.now.msg) result
            ≡ in_flight (net_of self.now) (node_of name.src) (node_of name.dst) name.seq }
        ensures mark { IfSome result (λ h. h.now.ready ≡ is_ready self.now (node_of name.src) (node_of name.dst) name.seq) }
    {
        let held = self.lane(name.src, name.dst)?.get(name.seq)?;
        Some(held)
    }

    /// The message of that name; `None` exactly where it isn't in flight.
    pub fn get(&self, name: Name) -> Option<&Msg>
        ensures { option_map (λ m. msg_of m.now) result ≡ in_flight (net_of self.now) (node_of name.src) (node_of name.dst) name.seq }
    {
        let held = self.held(name)?;
        Some(&held.msg)
    }

    /// Whether the message of that name is in flight and marked.
    pub fn is_ready(&self, name: Name) -> bool
        ensures { result ≡ is_ready self.now (node_of name.src) (node_of name.dst) name.seq }
    {
        match self.held(name) {
            Some(held) => held.ready,
            None => false,
        }
    }

    /// Sends one message, behind the others on its link, marked or not. After want of memory nothing is changed. It takes constant
    /// time but for the growth of the link.
    pub fn push(&mut self, src: NodeId, dst: NodeId, msg: Msg, ready: bool) -> Result<(), NoMemory>
        requires { is_link self.old.cores self.old.dirs (node_of src) (node_of dst) ≡ true }
        ensures cores { self.new.cores ≡ self.old.cores }
        ensures dirs { self.new.dirs ≡ self.old.dirs }
        ensures net { OnOk result (net_of self.new ≡ sending (net_of self.old) (node_of src) (sends_of ((dst, msg) ∷ []))) }
        ensures ready { OnOk result
            (is_ready self.new ≡ with_mark (is_ready self.old) (node_of src) (node_of dst)
            (length (net_of self.old (node_of src) (node_of dst))) ready) }
        ensures unchanged { OnErr result (self.new ≡ self.old) }
    {
        if self.flying >= MAX_FLYING {
            return Err(NoMemory);
        }
        let at = self.grid.link(src, dst);
        let entry = entry_of(src, dst, self.lanes[at].sent(), &msg);
        self.index.list(entry)?;
        match self.lanes[at].send(Held { msg, ready }) {
            Ok(()) => {
                self.flying += 1;
                count_mark(&mut self.ready, at, false, ready);
                Ok(())
            }
            Err(NoMemory) => {
                self.index.take_back(entry);
                Err(NoMemory)
            }
        }
    }

    /// Lets so many messages have been sent on a link, of which those that are new are consumed, so that the next one gets that number.
    /// False exactly where there is no such link, or more were sent on it, and then nothing is changed. It takes constant time and
    /// no memory.
    pub fn restore_sent(&mut self, src: NodeId, dst: NodeId, sent: u64) -> bool
        ensures fits { IsTrue result ↔ (is_link self.old.cores self.old.dirs (node_of src) (node_of dst) ≡ true)
            × (length (net_of self.old (node_of src) (node_of dst)) ≤ sent) }
        ensures cores { self.new.cores ≡ self.old.cores }
        ensures dirs { self.new.dirs ≡ self.old.dirs }
        ensures net { OnTrue result (net_of self.new ≡ passed_to (net_of self.old) (node_of src) (node_of dst) sent) }
        ensures ready { is_ready self.new ≡ is_ready self.old }
        ensures index { self.new.index ≡ self.old.index }
        ensures unchanged { OnFalse result (self.new ≡ self.old) }
    {
        let Some(at) = self.grid.place(src, dst) else {
            return false;
        };
        if self.lanes[at].sent() > sent {
            return false;
        }
        self.lanes[at].pass_to(sent);
        true
    }

    /// Takes the message of that name out; `None` exactly where it isn't in flight, and then nothing is changed.
    pub fn take(&mut self, name: Name) -> Option<Msg>
        ensures given { option_map msg_of result ≡ in_flight (net_of self.old) (node_of name.src) (node_of name.dst) name.seq }
        ensures cores { self.new.cores ≡ self.old.cores }
        ensures dirs { self.new.dirs ≡ self.old.dirs }
        ensures net { net_of self.new ≡ taking (net_of self.old) (node_of name.src) (node_of name.dst) name.seq }
        ensures ready { is_ready self.new ≡ with_mark (is_ready self.old) (node_of name.src) (node_of name.dst) name.seq false }
        ensures unchanged { IfNone result (self.new ≡ self.old) }
    {
        let msg = *self.get(name)?;
        self.discard(name, &msg);
        Some(msg)
    }

    /// Takes the message of that name out, which is this one.
    pub fn discard(&mut self, name: Name, msg: &Msg)
        requires { in_flight (net_of self.old) (node_of name.src) (node_of name.dst) name.seq ≡ Some (msg_of msg.now) }
        ensures cores { self.new.cores ≡ self.old.cores }
        ensures dirs { self.new.dirs ≡ self.old.dirs }
        ensures net { net_of self.new ≡ taking (net_of self.old) (node_of name.src) (node_of name.dst) name.seq }
        ensures ready { is_ready self.new ≡ with_mark (is_ready self.old) (node_of name.src) (node_of name.dst) name.seq false }
    {
        let at = self.grid.link(name.src, name.dst);
        let was = self.lanes[at].discard(name.seq);
        self.index
            .unlist(entry_of(name.src, name.dst, name.seq, msg));
        self.flying -= 1;
        count_mark(&mut self.ready, at, was, false);
    }

    /// How many messages are in flight on a link. It takes constant time.
    pub fn waiting(&self, src: NodeId, dst: NodeId) -> usize
        ensures { let net = net_of self.now in
            result ≡ length (those (λ k. is_some (in_flight net (node_of src) (node_of dst) k)) (length (net (node_of src) (node_of dst)))) }
    {
        match self.lane(src, dst) {
            Some(lane) => lane.waiting(),
            None => 0,
        }
    }

    /// The i-th message in flight on a link by rising number, with its number; `None` exactly where there are no more than i. It
    /// passes over the stretches before it.
    pub fn waiting_at(&self, src: NodeId, dst: NodeId, i: usize) -> Option<(u64, &Msg)>
        ensures number { let net = net_of self.now in option_map (λ p. p.0) result
            ≡ slice_get (those (λ k. is_some (in_flight net (node_of src) (node_of dst) k)) (length (net (node_of src) (node_of dst)))) i }
        ensures own { IfSome result (λ p. in_flight (net_of self.now) (node_of src) (node_of dst) p.0 ≡ Some (msg_of p.1.now)) }
    {
        let (seq, held) = self.lane(src, dst)?.waiting_at(i)?;
        Some((seq, &held.msg))
    }

    /// The links of all pairs of nodes by source and then destination, in the order of cores, directories and the vendor, to be read.
    /// Nothing was sent where two nodes have no link. It takes constant time.
    pub fn all_lanes(&self) -> &[Lane]
        ensures { result.now ≡ self.now.lanes }
    {
        self.lanes.as_slice()
    }

    /// Marks a message in flight, or takes its mark.
    pub fn set_ready(&mut self, src: NodeId, dst: NodeId, seq: u64, ready: bool)
        requires { IsSome (in_flight (net_of self.old) (node_of src) (node_of dst) seq) }
        ensures cores { self.new.cores ≡ self.old.cores }
        ensures dirs { self.new.dirs ≡ self.old.dirs }
        ensures net { net_of self.new ≡ net_of self.old }
        ensures index { self.new.index ≡ self.old.index }
        ensures ready { is_ready self.new ≡ with_mark (is_ready self.old) (node_of src) (node_of dst) seq ready }
    {
        if let Some(at) = self.grid.place(src, dst) {
            let was = self.lanes[at].set_ready(seq, ready);
            count_mark(&mut self.ready, at, was, ready);
        }
    }

    /// How many messages are listed together with those that are about this. It takes constant time.
    pub fn listed(&self, on: Subject) -> usize
        ensures count { result ≡ length (bucket self.now.index (key (subject_of on))) }
        ensures all { (c d k : ℕ) (m : PlainMsg) → in_flight (net_of self.now) (Core c) (Dir d) k ≡ Some m
            → about d m ≡ Some (subject_of on) → IsListed self.now.index (entry (subject_of on) c d k) }
    {
        self.index.len(on.key())
    }

    /// The i-th of these, where it has their key. It takes constant time.
    pub fn listed_at(&self, on: Subject, i: usize) -> Option<Entry>
        ensures { result ≡ of_key (key (subject_of on)) (slice_get (bucket self.now.index (key (subject_of on))) i) }
    {
        let entry = self.index.get(on.key(), i)?;
        if entry.key == on.key() {
            Some(entry)
        } else {
            None
        }
    }

    /// How many messages are marked: all deliveries that may happen. It takes constant time.
    pub fn ready_count(&self) -> usize
        ensures count { result ≡ length (ready_list self.now) }
        ensures few { result ≤ MAX_FLYING }
        ensures only { (src dst : Node) (k : ℕ) → IsTrue (is_ready self.now src dst k) → IsSome (in_flight (net_of self.now) src dst k) }
    {
        self.ready.total() as usize
    }

    /// The name of the k-th marked message by source, destination and number; `None` exactly where there are no more than k.
    pub fn ready_at(&self, k: usize) -> Option<Name>
        ensures { option_map (λ n. Deliver (node_of n.src) (node_of n.dst) n.seq) result ≡ slice_get (ready_list self.now) k }
    {
        let (at, into) = self.ready.find(k as u64)?;
        let seq = self.lanes[at].ready_at(into)?;
        let (src, dst) = self.grid.ends(at);
        Some(Name { src, dst, seq })
    }

    // The lane of a link.
    fn lane(&self, src: NodeId, dst: NodeId) -> Option<&Lane>
        ensures some { IfSome result (λ l. l.now ≡ lane self.now (node_of src) (node_of dst)) }
        ensures none { IfNone result (lane self.now (node_of src) (node_of dst) ≡ []) }
    {
        let at = self.grid.place(src, dst)?;
        Some(&self.lanes[at])
    }
}

// Counts one mark of a lane that was there before as it is now.
fn count_mark(ready: &mut SumTree, at: usize, was: bool, now: bool)
    requires place { at < length ready.old }
    requires counted { num was ≤ slice_index ready.old at }
    requires fits { IsTrue now → slice_index ready.old at + 1 - num was < 2 ^ 32 }
    ensures { ready.new ≡ slice_set ready.old at (slice_index ready.old at + num now - num was) }
{
    let count = ready.get(at);
    if now && !was {
        ready.set(at, count + 1);
    } else if was && !now {
        ready.set(at, count - 1);
    }
}

// So many lanes on which nothing was sent.
fn empty_lanes(alloc: Global, count: usize) -> Result<Vec<Lane>, NoMemory>
    ensures { IfOk result (λ v. v.items ≡ replicate count []) }
{
    let mut lanes = Vec::new(alloc);
    for _ in 0..count {
        if lanes.push(Lane::new(alloc)).is_err() {
            return Err(NoMemory);
        }
    }
    Ok(lanes)
}
