// What stands behind the locks of a farm.
ghost use Rattle.std.specs.Prelude.{◌≡◌, ℕ, suc, ◌+◌, ◌^◌, ◌<◌, ◌≤◌, length};
ghost use Rattle.node_locks.specs.Turns.{IsTurn, after_words, moved_in};
ghost use Rattle.node_locks.specs.Wiring.{IsOf};

use crate::acts::{Acts, act_on};
use crate::setup::Setup;
use crate::ticket::Ticket;
use apart_node::Node;
use rand_pcg::Lcg64Xsh32;
use std::marker::PhantomData;
use std::sync::ledger::{Book, Ledger, Share};
use std::sync::{Mutex, Wait};

/// A node, and its part of the ledger that counts the entries of all logs.
#[derive(Drop)]
pub struct Desk<W: Setup, E: Ledger> {
    pub(crate) node: Node,
    pub(crate) mark: Share<E>,
    pub(crate) setup: PhantomData<W>,
    ghost is: { IsOf W.code W.link node },
    ghost part: { mark.parts ≡ 1 },
    ghost same: { mark.amount ≡ length node.log },
}

/// As many entries are in all logs as acts have moved.
#[derive(Drop)]
pub struct Books<E: Ledger, T: Ledger> {
    pub(crate) entries: Book<E>,
    pub(crate) turns: Book<T>,
    // The ledger of entries without a part, to which the desks' marks come back.
    pub(crate) spare: Share<E>,
    ghost agree: { entries.total ≡ turns.total },
    ghost bare: { spare.parts ≡ 0 },
}

impl<E: Ledger, T: Ledger> Books<E, T> {
    /// Books so many entries, and the acts that made them.
    pub(crate) fn book(&mut self, mark: &mut Share<E>, ticket: &mut Ticket<T>, count: u64)
        requires few { ticket.old.moved + count ≤ 2 ^ 62 }
        requires some { 0 < ticket.old.parts }
        requires mark { 0 < mark.old.parts }
        ensures mark { mark.new.amount ≡ mark.old.amount + count }
        ensures part { mark.new.parts ≡ mark.old.parts }
        ensures moved { ticket.new.moved ≡ ticket.old.moved + count }
        ensures parts { ticket.new.parts ≡ ticket.old.parts }
    {
        let Books {
            entries,
            turns,
            spare: _,
        } = self;
        entries.add(mark, count);
        ticket.count(turns, count);
    }
}

impl<W: Setup, E: Ledger> Desk<W, E> {
    /// A node with one part of the ledger, in which all entries of its log are counted.
    pub(crate) fn new(node: Node, spare: &mut Share<E>) -> Desk<W, E>
        requires is { IsOf W.code W.link node }
        requires part { 0 < spare.old.parts }
        requires counted { length node.log ≤ spare.old.amount }
        requires backed { spare.old.parts ≡ 1 → spare.old.amount ≡ length node.log }
        ensures parts { spare.new.parts + 1 ≡ spare.old.parts }
        ensures amount { spare.new.amount + length node.log ≡ spare.old.amount }
    {
        let mark = spare.split_off(1, node.len() as u64);
        Desk {
            node,
            mark,
            setup: PhantomData,
        }
    }

    /// A turn of the node: so many acts at most, each with the next word, up to the first that doesn't move. Those that moved are booked
    /// together at its end. May wait for the books.
    pub(crate) fn turn<T: Ledger, R: Wait>(
        &mut self,
        rt: &R,
        words: &mut Lcg64Xsh32,
        most: u32,
        books: &Mutex<Books<E, T>>,
        ticket: &mut Ticket<T>,
    ) -> Acts
        requires most { 0 < most }
        requires few { ticket.old.moved + most ≤ 2 ^ 62 }
        requires some { 0 < ticket.old.parts }
        ensures turn { IsTurn most result }
        ensures drawn { words.new ≡ after_words (suc result.before) words.old }
        ensures counted { ticket.new.moved ≡ ticket.old.moved + moved_in result }
        ensures parts { ticket.new.parts ≡ ticket.old.parts }
    {
        let Desk {
            node,
            mark,
            setup: _,
        } = self;
        let acts = act_on(rt, node, words, most);
        let moved = acts.moved();
        if moved > 0 {
            books.lock(rt).book(mark, ticket, moved);
        }
        acts
    }
}
