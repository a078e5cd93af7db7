// The right to take turns, with the count of the acts that moved in them.
ghost use Rattle.std.specs.Prelude.{◌≡◌, ℕ, ◌+◌, ◌^◌, ◌<◌, ◌≤◌};

use std::sync::ledger::{Book, Ledger, Share};

/// The right to take turns at a farm, with the number of acts that moved in them. Tickets are cut from the one with which the farm began,
/// and no count can come but from turns.
#[derive(Drop)]
pub struct Ticket<T: Ledger> {
    moved: u64,
    parts: u32,
    share: Share<T>,
    ghost counted: { moved ≡ share.amount },
    ghost cut: { parts ≡ share.parts },
}

impl<T: Ledger> Ticket<T> {
    /// A ticket of a share that has counted nothing.
    pub(crate) fn new(share: Share<T>, parts: u32) -> Ticket<T>
        requires none { share.amount ≡ 0 }
        requires parts { share.parts ≡ parts }
        ensures moved { result.moved ≡ 0 }
        ensures parts { result.parts ≡ parts }
    {
        Ticket {
            moved: 0,
            parts,
            share,
        }
    }

    /// How many acts moved in the turns that were taken with it.
    pub fn moved(&self) -> u64
        ensures { result ≡ self.now.moved }
    {
        self.moved
    }

    /// In how many tickets it can be cut.
    pub fn parts(&self) -> u32
        ensures { result ≡ self.now.parts }
    {
        self.parts
    }

    /// One part of it, which has counted nothing. At least one part stays.
    pub fn split(&mut self) -> Ticket<T>
        requires { 2 ≤ self.old.parts }
        ensures none { result.moved ≡ 0 }
        ensures one { result.parts ≡ 1 }
        ensures moved { self.new.moved ≡ self.old.moved }
        ensures parts { self.new.parts + 1 ≡ self.old.parts }
    {
        let Ticket {
            moved: _,
            parts,
            share,
        } = self;
        let part = share.split_off(1, 0);
        *parts -= 1;
        Ticket::new(part, 1)
    }

    /// Takes the parts and the count of another ticket of the same farm.
    pub fn join(&mut self, other: Ticket<T>)
        requires counts { self.old.moved + other.moved < 2 ^ 63 }
        requires all_parts { self.old.parts + other.parts < 2 ^ 32 }
        ensures moved { self.new.moved ≡ self.old.moved + other.moved }
        ensures parts { self.new.parts ≡ self.old.parts + other.parts }
    {
        let Ticket {
            moved,
            parts,
            share,
        } = self;
        let Ticket {
            moved: more,
            parts: beside,
            share: theirs,
        } = other;
        share.merge(theirs);
        *moved += more;
        *parts += beside;
    }

    /// So many acts more that moved, in the book too.
    pub(crate) fn count(&mut self, book: &mut Book<T>, more: u64)
        requires few { self.old.moved + more ≤ 2 ^ 62 }
        requires some { 0 < self.old.parts }
        ensures total { book.new.total ≡ book.old.total + more }
        ensures moved { self.new.moved ≡ self.old.moved + more }
        ensures parts { self.new.parts ≡ self.old.parts }
    {
        let Ticket {
            moved,
            parts: _,
            share,
        } = self;
        book.add(share, more);
        *moved += more;
    }

    /// With all parts of a ledger, it has counted the book's total. Nothing is changed.
    pub(crate) fn audit(&mut self, book: &mut Book<T>)
        ensures whole { self.old.parts ≡ T.parts → self.old.moved ≡ book.old.total }
        ensures moved { self.new.moved ≡ self.old.moved }
        ensures parts { self.new.parts ≡ self.old.parts }
        ensures total { book.new.total ≡ book.old.total }
    {
        let Ticket {
            moved: _,
            parts: _,
            share,
        } = self;
        book.audit(share);
    }
}
