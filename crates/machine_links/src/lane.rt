// One link with marks: the messages on it that are in flight, by rising number.
ghost use Rattle.std.specs.Prelude.{◌≡◌, ℕ, ◌+◌, ◌-◌, ◌^◌, ◌<◌, ◌≤◌, List, [], ◌∷◌, ◌++◌, length, take, map};
ghost use Rattle.std.specs.Prelude.{slice_index_or, slice_set, slice_get, Option, Some, None, false, OnOk, OnErr, IfSome, IfNone, IsSome};
ghost use Rattle.std.specs.Prelude.{option_map, option_copied};
ghost use Rattle.std.specs.List.{count_by, filter};
ghost use Rattle.std.specs.List.Sorted.{IsNonDecreasingBy};
ghost use Rattle.machine_links.specs.Laid.{held_at};
ghost use Rattle.machine_links.specs.Pieces.{AreRising, Marked, Taken};

use crate::rest::Rest;
use crate::stretch::{ROOM, Stretch};
use std::alloc::Global;
use std::marker::Model;
use tcc_base::NoMemory;
use tcc_msg::Msg;

/// A message in flight, with its mark: whether it may be delivered.
#[derive(Clone, Copy, Debug, PartialEq, Eq)]
pub struct Held {
    pub msg: Msg,
    pub ready: bool,
}

/// A message in flight with its number on its link.
#[derive(Clone, Copy, Debug, PartialEq, Eq)]
pub struct Waiting {
    pub seq: u64,
    pub held: Held,
}

/// One link. In a clause it is the list of all messages that were sent on it, by number, each `None` once it is consumed.
/// Its messages in flight stand in stretches of at most 256: most links have one stretch, and where thousands wait, a number is found
/// by halves, first its stretch and then its message.
#[derive(Debug, Drop)]
pub struct Lane {
    sent: u64,
    front: Stretch,
    rest: Rest,
}

impl Model for Lane {
    ghost use Rattle.std.specs.Prelude.{List, Option};
    ghost use Rattle.machine_links.specs.declared.lane.Held.{Held};

    ghost Value = { List (Option Held) };

    ghost use Rattle.machine_links.specs.LaneInside.{lane_of, IsLane};

    ghost view = { lane_of };

    ghost invariant = { IsLane };
}

impl Lane {
    ghost use Rattle.machine_links.specs.Lane.{is_marked, is_waiting, numbers_of, marked_as};
    ghost use Rattle.machine_links.specs.Passed.{passed};

    /// Nothing was sent. No memory is taken yet.
    pub fn new(alloc: Global) -> Self
        ensures { result ≡ [] }
    {
        Lane {
            sent: 0,
            front: Stretch::new(alloc),
            rest: Rest::new(alloc),
        }
    }

    /// How many messages were sent.
    pub fn sent(&self) -> u64
        ensures { result ≡ length self.now }
    {
        self.sent
    }

    /// Sends one more message, marked or not. `NoMemory` also where 2^32 messages are in flight here, or where 2^64 were sent; nothing is
    /// changed then. It takes constant time but for the growth of a stretch.
    pub fn send(&mut self, held: Held) -> Result<(), NoMemory>
        ensures sent { OnOk result (self.new ≡ self.old ++ Some held ∷ []) }
        ensures few { OnOk result (count_by is_marked self.new < 2 ^ 32) }
        ensures unchanged { OnErr result (self.new ≡ self.old) }
    {
        if self.sent == u64::MAX || self.front.len() + self.rest.len() >= 0xffff_ffff {
            return Err(NoMemory);
        }
        let seq = self.sent;
        match push(&mut self.front, &mut self.rest, Waiting { seq, held }) {
            Ok(()) => {
                self.sent = seq + 1;
                Ok(())
            }
            Err(NoMemory) => Err(NoMemory),
        }
    }

    /// Lets so many messages have been sent, of which those that are new are consumed. Where no fewer were sent nothing is changed.
    /// It takes constant time and no memory.
    pub fn pass_to(&mut self, sent: u64)
        ensures { self.new ≡ passed sent self.old }
    {
        if self.sent < sent {
            self.sent = sent;
        }
    }

    /// The message of that number with its mark; `None` exactly where it isn't in flight. It takes time in the logarithm of
    /// how many are in flight.
    pub fn get(&self, seq: u64) -> Option<&Held>
        ensures { option_copied result ≡ slice_index_or self.now seq None }
    {
        get(&self.front, &self.rest, seq)
    }

    /// Takes the message of that number out; `None` exactly where it isn't in flight, and then nothing is changed. It takes the time of
    /// `discard`.
    pub fn take(&mut self, seq: u64) -> Option<Held>
        ensures given { result ≡ slice_index_or self.old seq None }
        ensures taken { self.new ≡ slice_set self.old seq None }
    {
        let held = *self.get(seq)?;
        self.discard(seq);
        Some(held)
    }

    /// Takes the message of that number out, and says whether it was marked. It is found as by `get`; the messages behind it in its
    /// stretch are moved, and where none is left there, the stretches behind that.
    pub fn discard(&mut self, seq: u64) -> bool
        requires { IsSome (slice_index_or self.old seq None) }
        ensures was { result ≡ is_marked (slice_index_or self.old seq None) }
        ensures taken { self.new ≡ slice_set self.old seq None }
    {
        match discard(&mut self.front, &mut self.rest, seq) {
            Some(was) => was,
            None => unreachable!(),
        }
    }

    /// Marks the message of that number, or takes its mark, and says whether it was marked. It is found as by `get`.
    pub fn set_ready(&mut self, seq: u64, ready: bool) -> bool
        requires { IsSome (slice_index_or self.old seq None) }
        ensures was { result ≡ is_marked (slice_index_or self.old seq None) }
        ensures marked { self.new ≡ slice_set self.old seq (marked_as ready (slice_index_or self.old seq None)) }
        ensures few { count_by is_marked self.new < 2 ^ 32 }
    {
        match mark(&mut self.front, &mut self.rest, seq, ready) {
            Some(was) => was,
            None => unreachable!(),
        }
    }

    /// How many messages are in flight. It takes constant time.
    pub fn waiting(&self) -> usize
        ensures { result ≡ length (numbers_of is_waiting self.now) }
    {
        self.front.len() + self.rest.len()
    }

    /// The i-th message in flight by rising number, with its number; `None` exactly where there are no more than i. It passes
    /// over the stretches before it.
    pub fn waiting_at(&self, i: usize) -> Option<(u64, &Held)>
        ensures number { option_map (λ p. p.0) result ≡ slice_get (numbers_of is_waiting self.now) i }
        ensures own { IfSome result (λ p. slice_index_or self.now p.0 None ≡ Some p.1.now) }
    {
        let waiting = nth(&self.front, &self.rest, i)?;
        Some((waiting.seq, &waiting.held))
    }

    /// The number of the k-th marked message; `None` exactly where there are no more than k. It passes over the
    /// stretches before it, and over the messages of one.
    pub fn ready_at(&self, k: u64) -> Option<u64>
        ensures { result ≡ slice_get (numbers_of is_marked self.now) k }
    {
        let marked = self.front.marked();
        if k < marked {
            self.front.nth_ready(k)
        } else {
            self.rest.nth_ready(k - marked)
        }
    }
}

// One more message behind the others: in front where it has room and nothing stands behind it.
fn push(front: &mut Stretch, rest: &mut Rest, waiting: Waiting) -> Result<(), NoMemory>
    requires { length rest.old < 4294967295 }
    ensures ok { OnOk result (front.new ++ rest.new ≡ (front.old ++ rest.old) ++ waiting ∷ []) }
    ensures err { OnErr result (front.new ++ rest.new ≡ front.old ++ rest.old) }
{
    if rest.len() == 0 && front.len() < ROOM {
        front.push(waiting)
    } else {
        rest.push(waiting)
    }
}

// The message of that number. Most links have one message, and most of those that are named are the first.
fn get<'a>(front: &'a Stretch, rest: &'a Rest, seq: u64) -> Option<&'a Held>
    requires { AreRising (front.now ++ rest.now) }
    ensures { option_copied result ≡ held_at (front.now ++ rest.now) seq }
{
    match front.get(seq) {
        Some(held) => Some(held),
        None => rest.get(seq),
    }
}

// Takes the message of that number out, and says whether it was marked.
fn discard(front: &mut Stretch, rest: &mut Rest, seq: u64) -> Option<bool>
    requires { AreRising (front.old ++ rest.old) }
    ensures some { IfSome result (λ was. Taken (front.old ++ rest.old) (front.new ++ rest.new) seq was) }
    ensures none { IfNone result (held_at (front.old ++ rest.old) seq ≡ None) }
    ensures unchanged { IfNone result (front.new ++ rest.new ≡ front.old ++ rest.old) }
{
    match front.discard(seq) {
        Some(was) => {
            refill(front, rest);
            Some(was)
        }
        None => rest.discard(seq),
    }
}

// Where the front is empty, the next stretch becomes it.
fn refill(front: &mut Stretch, rest: &mut Rest)
    ensures { front.new ++ rest.new ≡ front.old ++ rest.old }
{
    if front.len() == 0 {
        if let Some(next) = rest.take_first() {
            *front = next;
        }
    }
}

// Marks the message of that number, or takes its mark.
fn mark(front: &mut Stretch, rest: &mut Rest, seq: u64, ready: bool) -> Option<bool>
    requires { AreRising (front.old ++ rest.old) }
    ensures some { IfSome result (λ was. Marked (front.old ++ rest.old) (front.new ++ rest.new) seq ready was) }
    ensures none { IfNone result (held_at (front.old ++ rest.old) seq ≡ None) }
    ensures unchanged { IfNone result (front.new ++ rest.new ≡ front.old ++ rest.old) }
{
    match front.set_ready(seq, ready) {
        Some(was) => Some(was),
        None => rest.set_ready(seq, ready),
    }
}

// The i-th message.
fn nth<'a>(front: &'a Stretch, rest: &'a Rest, i: usize) -> Option<&'a Waiting>
    ensures { option_copied result ≡ slice_get (front.now ++ rest.now) i }
{
    let len = front.len();
    if i < len {
        front.at(i)
    } else {
        rest.at(i - len)
    }
}
