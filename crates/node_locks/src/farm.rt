// The nodes of a machine, each behind a lock of its own.
ghost use Rattle.std.specs.Prelude.{◌≡◌, ℕ, suc, ◌+◌, ◌^◌, ◌<◌, ◌≤◌, [], All, IfOk, IfErr, length, vec_capacity, vec_len};
ghost use Rattle.std.specs.Arc.{arc_value};
ghost use Rattle.image_load.specs.Contents.{started};
ghost use Rattle.rules_apart.specs.Fitting.{FitLogs, node_count};
ghost use Rattle.node_locks.specs.Turns.{IsTurn, after_words, entries_in, moved_in};
ghost use Rattle.node_locks.specs.Wiring.{AreOf, links_of, logs_of};

use crate::acts::Acts;
use crate::closing::look_at;
use crate::desk::{Books, Desk};
use crate::nodes::Nodes;
use crate::places::all_placed;
use crate::setup::Setup;
use crate::ticket::Ticket;
use apart_node::Node;
use rand_pcg::Lcg64Xsh32;
use rules_apart::Logs;
use rv_code::Code;
use std::alloc::Global;
use std::sync::ledger::{Blank, Ledger, Share};
use std::sync::{Arc, Mutex, Wait};
use tcc_base::NoMemory;

/// The nodes of a machine, each behind a lock of its own, for any number of threads. W is the machine, E counts the entries of all logs,
/// and T the acts that moved.
#[derive(Drop)]
pub struct Farm<W: Setup, E: Ledger, T: Ledger> {
    code: Arc<Code, Global>,
    desks: Vec<Mutex<Desk<W, E>>>,
    books: Mutex<Books<E, T>>,
    ghost runs: { arc_value code ≡ W.code },
    ghost all_here: { vec_len desks ≡ node_count W.code.settings },
}

impl<W: Setup, E: Ledger, T: Ledger> Farm<W, E, T> {
    /// Puts nodes that have done nothing behind locks. The ticket is for 64 threads at most.
    pub fn new(
        alloc: Global,
        nodes: Nodes,
        entries: Blank,
        turns: Blank,
    ) -> Result<(Farm<W, E, T>, Ticket<T>), NoMemory>
        requires code { nodes.code ≡ W.code }
        requires link { W.link ≡ links_of nodes }
        requires logs { All (λ log. log ≡ []) (logs_of nodes.nodes) }
        requires entries { (entries.name ≡ E.name) × (entries.parts ≡ E.parts) × (E.parts ≡ node_count W.code.settings) }
        requires turns { (turns.name ≡ T.name) × (turns.parts ≡ T.parts) × (T.parts ≡ 64) }
        ensures moved { IfOk result (λ p. p.1.moved ≡ 0) }
        ensures parts { IfOk result (λ p. p.1.parts ≡ 64) }
    {
        let Nodes { code, nodes } = nodes;
        let Ok(room) = Vec::with_capacity(alloc, nodes.len()) else {
            return Err(NoMemory);
        };
        look_at(nodes.as_slice());
        let (entries, mut spare) = entries.open::<E>();
        let (turns, share) = turns.open::<T>();
        let desks = put_down(nodes, room, &mut spare);
        let books = Mutex::new(Books {
            entries,
            turns,
            spare,
        });
        Ok((Farm { code, desks, books }, Ticket::new(share, 64)))
    }

    /// How many nodes there are: the cores, the directories and the vendor.
    pub fn nodes(&self) -> u32
        ensures { result ≡ node_count W.code.settings }
    {
        let config = self.code.config();
        config.cores() as u32 + config.dirs() as u32 + 1
    }

    /// A turn of that node under its lock: so many acts at most, each with the next word of the generator. It ends at the first one that
    /// doesn't move. Those that moved are booked together. May wait for the lock, which is held for the whole turn.
    pub fn turn<R: Wait>(
        &self,
        rt: &R,
        node: u32,
        words: &mut Lcg64Xsh32,
        most: u32,
        ticket: &mut Ticket<T>,
    ) -> Acts
        requires exists { node < node_count W.code.settings }
        requires most { 0 < most }
        requires few { ticket.old.moved + most ≤ 2 ^ 62 }
        requires some { 0 < ticket.old.parts }
        ensures turn { IsTurn most result }
        ensures drawn { words.new ≡ after_words (suc result.before) words.old }
        ensures counted { ticket.new.moved ≡ ticket.old.moved + moved_in result }
        ensures parts { ticket.new.parts ≡ ticket.old.parts }
    {
        self.desks[node as usize]
            .lock(rt)
            .turn(rt, words, most, &self.books, ticket)
    }

    /// All logs, once all tickets are back. Memory for them is taken first, and when it runs out, the farm and the ticket
    /// come back.
    pub fn close<R: Wait>(
        self,
        rt: &R,
        alloc: Global,
        ticket: Ticket<T>,
    ) -> Result<Logs, (Farm<W, E, T>, Ticket<T>, NoMemory)>
        requires entries { E.parts ≡ node_count W.code.settings }
        requires all_back { ticket.parts ≡ T.parts }
        ensures fits { IfOk result (λ l. FitLogs (started W.code) l.by_node) }
        ensures config { IfOk result (λ l. l.config ≡ W.code.settings) }
        ensures counted { IfOk result (λ l. entries_in l.by_node ≡ ticket.moved) }
        ensures moved { IfErr result (λ e. e.1.moved ≡ ticket.moved) }
        ensures parts { IfErr result (λ e. e.1.parts ≡ ticket.parts) }
    {
        let count = self.desks.len();
        let (Ok(nodes), Ok(room)) = (
            Vec::with_capacity(alloc, count),
            Vec::with_capacity(alloc, count),
        ) else {
            return Err((self, ticket, NoMemory));
        };
        let Farm { code, desks, books } = self;
        let Books {
            mut entries,
            mut turns,
            mut spare,
        } = books.into_inner();
        let mut ticket = ticket;
        entries.audit(&mut spare);
        let nodes = take_up(desks, nodes, &mut spare);
        entries.audit(&mut spare);
        ticket.audit(&mut turns);
        match close_all::<W, R>(rt, alloc, code, nodes) {
            Ok(logs) => Ok(logs),
            Err((code, nodes)) => {
                let desks = put_down(nodes, room, &mut spare);
                let books = Mutex::new(Books {
                    entries,
                    turns,
                    spare,
                });
                Err((Farm { code, desks, books }, ticket, NoMemory))
            }
        }
    }
}

// The nodes behind their locks, with their marks.
fn put_down<W: Setup, E: Ledger>(
    nodes: Vec<Node>,
    room: Vec<Mutex<Desk<W, E>>>,
    spare: &mut Share<E>,
) -> Vec<Mutex<Desk<W, E>>>
    requires empty { vec_len room ≡ 0 }
    requires room { vec_len nodes ≤ vec_capacity room }
    requires are { AreOf W.code W.link nodes.items }
    requires parts { spare.old.parts ≡ vec_len nodes }
    requires amount { spare.old.amount ≡ entries_in (logs_of nodes.items) }
    ensures count { vec_len result ≡ vec_len nodes }
    ensures parts { spare.new.parts ≡ 0 }
    ensures amount { spare.new.amount ≡ 0 }
{
    let mut nodes = nodes;
    let mut desks = room;
    nodes.reverse();
    while let Some(node) = nodes.pop() {
        desks.push_reserved(Mutex::new(Desk::new(node, spare)));
    }
    desks
}

// The nodes from behind their locks, in order. What they are is what the locks keep; where they stand isn't known.
fn take_up<W: Setup, E: Ledger>(
    desks: Vec<Mutex<Desk<W, E>>>,
    room: Vec<Node>,
    spare: &mut Share<E>,
) -> Vec<Node>
    requires empty { vec_len room ≡ 0 }
    requires room { vec_len desks ≤ vec_capacity room }
    requires parts { spare.old.parts ≡ 0 }
    requires amount { spare.old.amount ≡ 0 }
    ensures count { vec_len result ≡ vec_len desks }
    ensures are { AreOf W.code W.link result.items }
    ensures parts { spare.new.parts ≡ vec_len desks }
    ensures amount { spare.new.amount ≡ entries_in (logs_of result.items) }
{
    let mut desks = desks;
    let mut nodes = room;
    desks.reverse();
    while let Some(desk) = desks.pop() {
        let Desk {
            node,
            mark,
            setup: _,
        } = desk.into_inner();
        spare.merge(mark);
        nodes.push_reserved(node);
    }
    nodes
}

// All logs. The nodes come back where there is no memory; and where they don't stand at their places, which never comes.
fn close_all<W: Setup, R: Wait>(
    rt: &R,
    alloc: Global,
    code: Arc<Code, Global>,
    nodes: Vec<Node>,
) -> Result<Logs, (Arc<Code, Global>, Vec<Node>)>
    requires runs { arc_value code ≡ W.code }
    requires count { vec_len nodes ≡ node_count W.code.settings }
    requires are { AreOf W.code W.link nodes.items }
    ensures fits { IfOk result (λ l. FitLogs (started W.code) l.by_node) }
    ensures config { IfOk result (λ l. l.config ≡ W.code.settings) }
    ensures logs { IfOk result (λ l. l.by_node ≡ logs_of nodes.items) }
    ensures code { IfErr result (λ e. arc_value e.0 ≡ arc_value code) }
    ensures nodes { IfErr result (λ e. e.1.items ≡ nodes.items) }
{
    look_at(nodes.as_slice());
    if !all_placed(code.config(), nodes.as_slice()) {
        return Err((code, nodes));
    }
    let all = Nodes { code, nodes };
    match all.close(rt, alloc) {
        Ok(logs) => Ok(logs),
        Err((Nodes { code, nodes }, NoMemory)) => Err((code, nodes)),
    }
}
