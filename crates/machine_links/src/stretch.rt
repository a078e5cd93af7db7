// A few messages of a link that follow each other, with the number of those that are marked.
ghost use Rattle.std.specs.Prelude.{◌≡◌, ◌+◌, ◌-◌, ◌^◌, ◌<◌, ◌≤◌, [], ◌∷◌, ◌++◌, length, map, false, IsTrue, slice_index_or, slice_set};
ghost use Rattle.std.specs.Prelude.{slice_get, Option, Some, None, OnOk, OnErr, IfOk, IfSome, IfNone, option_copied};
ghost use Rattle.std.specs.List.{count_by, filter, remove};
ghost use Rattle.std.specs.List.Sorted.{IsNonDecreasingBy};
ghost use Rattle.rules_maps.specs.Words.{num};
ghost use Rattle.machine_links.specs.Laid.{held_at};

use crate::lane::{Held, Waiting};
use std::alloc::Global;
use std::marker::Model;
use tcc_base::NoMemory;

/// How many messages a stretch has at most. Where one is taken out, those behind it are moved.
pub(crate) const ROOM: usize = 256;

/// Messages by rising number. In a clause it is the list of them.
#[derive(Debug, Drop)]
pub(crate) struct Stretch {
    waiting: Vec<Waiting>,
    marked: u64,
}

impl Model for Stretch {
    ghost use Rattle.std.specs.Prelude.{◌≡◌, List};
    ghost use Rattle.machine_links.specs.Pieces.{marked_in};
    ghost use Rattle.machine_links.specs.declared.lane.Waiting.{Waiting as Message};

    ghost Value = { List Message };

    ghost view = { λ s. s.waiting.items };

    ghost invariant = { λ s. s.marked ≡ marked_in s.waiting.items };
}

impl Stretch {
    ghost use Rattle.machine_links.specs.Pieces.{AreRising, Marked, Taken, marked_in};

    /// No message. No memory is taken yet.
    pub(crate) fn new(alloc: Global) -> Stretch
        ensures { result ≡ [] }
    {
        Stretch {
            waiting: Vec::new(alloc),
            marked: 0,
        }
    }

    /// One message, and room for as many as a stretch has.
    pub(crate) fn of_one(alloc: Global, waiting: Waiting) -> Result<Stretch, NoMemory>
        ensures { IfOk result (λ s. s ≡ waiting ∷ []) }
    {
        let waiting_here = Vec::with_capacity(alloc, ROOM).map_err(|_| NoMemory)?;
        let mut stretch = Stretch {
            waiting: waiting_here,
            marked: 0,
        };
        stretch.push(waiting)?;
        Ok(stretch)
    }

    /// How many messages it has.
    pub(crate) fn len(&self) -> usize
        ensures { result ≡ length self.now }
    {
        self.waiting.len()
    }

    /// How many of them are marked.
    pub(crate) fn marked(&self) -> u64
        ensures { result ≡ marked_in self.now }
    {
        self.marked
    }

    /// One more message, behind the others. After want of memory nothing is changed.
    pub(crate) fn push(&mut self, waiting: Waiting) -> Result<(), NoMemory>
        ensures ok { OnOk result (self.new ≡ self.old ++ waiting ∷ []) }
        ensures err { OnErr result (self.new ≡ self.old) }
    {
        match self.waiting.push(waiting) {
            Ok(()) => {
                recount(&mut self.marked, false, waiting.held.ready);
                Ok(())
            }
            Err(_) => Err(NoMemory),
        }
    }

    /// The message of that number; `None` exactly where there is none.
    pub(crate) fn get(&self, seq: u64) -> Option<&Held>
        requires { AreRising self.now }
        ensures { option_copied result ≡ held_at self.now seq }
    {
        let at = find(&self.waiting, seq)?;
        Some(&self.waiting[at].held)
    }

    /// Takes the message of that number out, and says whether it was marked; `None` where there is none, and then nothing is changed.
    pub(crate) fn discard(&mut self, seq: u64) -> Option<bool>
        requires { AreRising self.old }
        ensures some { IfSome result (λ was. Taken self.old self.new seq was) }
        ensures none { IfNone result (held_at self.old seq ≡ None) }
        ensures unchanged { IfNone result (self.new ≡ self.old) }
    {
        let at = find(&self.waiting, seq)?;
        let was = self.waiting[at].held.ready;
        discard_at(&mut self.waiting, at);
        recount(&mut self.marked, was, false);
        Some(was)
    }

    /// Marks the message of that number, or takes its mark, and says whether it was marked; `None` where there is none.
    pub(crate) fn set_ready(&mut self, seq: u64, ready: bool) -> Option<bool>
        requires { AreRising self.old }
        ensures some { IfSome result (λ was. Marked self.old self.new seq ready was) }
        ensures none { IfNone result (held_at self.old seq ≡ None) }
        ensures unchanged { IfNone result (self.new ≡ self.old) }
    {
        let at = find(&self.waiting, seq)?;
        let was = mark(self.waiting.as_mut_slice(), at, ready);
        recount(&mut self.marked, was, ready);
        Some(was)
    }

    /// The i-th message.
    pub(crate) fn at(&self, i: usize) -> Option<&Waiting>
        ensures { option_copied result ≡ slice_get self.now i }
    {
        self.waiting.get(i)
    }

    /// The number of the k-th marked message.
    pub(crate) fn nth_ready(&self, k: u64) -> Option<u64>
        ensures { result ≡ slice_get (map (λ w. w.seq) (filter (λ w. w.held.ready) self.now)) k }
    {
        nth_ready(&self.waiting, k)
    }

    /// Whether its last number is below this one.
    pub(crate) fn ends_below(&self, seq: u64) -> bool
        requires { 0 < length self.now }
        ensures below { IsTrue result → (d : Waiting) → (slice_index_or self.now (length self.now - 1) d).seq < seq }
        ensures reaches { result ≡ false → (d : Waiting) → seq ≤ (slice_index_or self.now (length self.now - 1) d).seq }
    {
        self.waiting[self.waiting.len() - 1].seq < seq
    }
}

// Counts one mark that was there before as it is now.
fn recount(marked: &mut u64, was: bool, now: bool)
    requires counted { num was ≤ marked.old }
    requires fits { marked.old + num now < 2 ^ 64 }
    ensures { marked.new + num was ≡ marked.old + num now }
{
    if now && !was {
        *marked += 1;
    } else if was && !now {
        *marked -= 1;
    }
}

// Where the message of that number is. Most links have one message, and most of those that are named are the first.
fn find(waiting: &[Waiting], seq: u64) -> Option<usize>
    requires { IsNonDecreasingBy (λ w. w.seq) waiting.now }
    ensures within { IfSome result (λ i. i < length waiting.now) }
    ensures found { IfSome result (λ i. (d : Waiting) → (slice_index_or waiting.now i d).seq ≡ seq) }
    ensures absent { IfNone result (held_at waiting.now seq ≡ None) }
{
    if !waiting.is_empty() && waiting[0].seq == seq {
        Some(0)
    } else {
        search(waiting, seq)
    }
}

// Where it is, looked for among all.
fn search(waiting: &[Waiting], seq: u64) -> Option<usize>
    requires { IsNonDecreasingBy (λ w. w.seq) waiting.now }
    ensures within { IfSome result (λ i. i < length waiting.now) }
    ensures found { IfSome result (λ i. (d : Waiting) → (slice_index_or waiting.now i d).seq ≡ seq) }
    ensures absent { IfNone result (held_at waiting.now seq ≡ None) }
{
    waiting.binary_search_by_key(&seq, |w| w.seq).ok()
}

// Takes the message at that place out. Most are the last of their stretch, and then none is moved.
fn discard_at(waiting: &mut Vec<Waiting>, at: usize)
    requires { at < length waiting.old.items }
    ensures { waiting.new.items ≡ remove waiting.old.items at }
{
    if at + 1 == waiting.len() {
        waiting.pop();
    } else {
        waiting.remove(at);
    }
}

// Gives the message at that place this mark, and tells the one that it had.
fn mark(waiting: &mut [Waiting], at: usize, ready: bool) -> bool
    requires { at < length waiting.old }
    ensures was { (d : Waiting) → result ≡ (slice_index_or waiting.old at d).held.ready }
    ensures now { (d : Waiting) → let w = slice_index_or waiting.old at d in
        waiting.new ≡ slice_set waiting.old at (record w { held = record w.held { ready = ready } }) }
{
    let was = waiting[at].held.ready;
    waiting[at].held.ready = ready;
    was
}

// The number of the k-th that is marked.
fn nth_ready(waiting: &[Waiting], k: u64) -> Option<u64>
    ensures { result ≡ slice_get (map (λ w. w.seq) (filter (λ w. w.held.ready) waiting.now)) k }
{
    let mut left = k;
    for w in waiting {
        if w.held.ready {
            if left == 0 {
                return Some(w.seq);
            }
            left -= 1;
        }
    }
    None
}
