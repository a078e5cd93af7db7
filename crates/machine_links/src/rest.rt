// The messages of a link that stand behind its first stretch.
ghost use Rattle.std.specs.Prelude.{◌≡◌, ◌≢◌, ℕ, ◌<◌, [], ◌∷◌, ◌++◌, length, map, slice_index_or, slice_get, Option, Some, None, OnOk};
ghost use Rattle.std.specs.Prelude.{OnErr, IfSome, IfNone, option_copied};
ghost use Rattle.std.specs.List.{filter};
ghost use Rattle.machine_links.specs.Laid.{held_at};
ghost use Rattle.machine_links.specs.Pieces.{AreFull, AreRising, Marked, Taken, flat};

use crate::lane::{Held, Waiting};
use crate::stretch::{ROOM, Stretch};
use std::alloc::Global;
use std::marker::Model;
use tcc_base::NoMemory;

/// Stretches by rising number, none of them empty. In a clause it is the list of their messages. A number is found by halves, first
/// its stretch and then its message; an i-th one by passing over the stretches before it.
#[derive(Debug, Drop)]
pub(crate) struct Rest {
    pieces: Vec<Stretch>,
    count: usize,
}

impl Model for Rest {
    ghost use Rattle.std.specs.Prelude.{List};
    ghost use Rattle.machine_links.specs.Pieces.{IsRest, flat};
    ghost use Rattle.machine_links.specs.declared.lane.Waiting.{Waiting as Message};

    ghost Value = { List Message };

    ghost view = { λ r. flat r.pieces.items };

    ghost invariant = { λ r. IsRest r.pieces.items r.count };
}

impl Rest {
    /// No message. No memory is taken yet.
    pub(crate) fn new(alloc: Global) -> Rest
        ensures { result ≡ [] }
    {
        Rest {
            pieces: Vec::new(alloc),
            count: 0,
        }
    }

    /// How many messages there are.
    pub(crate) fn len(&self) -> usize
        ensures { result ≡ length self.now }
    {
        self.count
    }

    /// One more message, behind the others. After want of memory nothing is changed.
    pub(crate) fn push(&mut self, waiting: Waiting) -> Result<(), NoMemory>
        requires { length self.old < 4294967295 }
        ensures ok { OnOk result (self.new ≡ self.old ++ waiting ∷ []) }
        ensures err { OnErr result (self.new ≡ self.old) }
    {
        match push_last(&mut self.pieces, waiting) {
            Ok(()) => {
                self.count += 1;
                Ok(())
            }
            Err(NoMemory) => Err(NoMemory),
        }
    }

    /// Takes the first stretch out.
    pub(crate) fn take_first(&mut self) -> Option<Stretch>
        ensures some { IfSome result (λ s. s ++ self.new ≡ self.old) }
        ensures none { IfNone result (self.new ≡ self.old) }
    {
        if self.pieces.is_empty() {
            return None;
        }
        let first = self.pieces.remove(0);
        self.count -= first.len();
        Some(first)
    }

    /// The message of that number; `None` exactly where there is none.
    pub(crate) fn get(&self, seq: u64) -> Option<&Held>
        requires { AreRising self.now }
        ensures { option_copied result ≡ held_at self.now seq }
    {
        get_in(&self.pieces, seq)
    }

    /// Takes the message of that number out, and says whether it was marked; `None` where there is none, and then nothing is changed.
    pub(crate) fn discard(&mut self, seq: u64) -> Option<bool>
        requires { AreRising self.old }
        ensures some { IfSome result (λ was. Taken self.old self.new seq was) }
        ensures none { IfNone result (held_at self.old seq ≡ None) }
        ensures unchanged { IfNone result (self.new ≡ self.old) }
    {
        match discard_from(&mut self.pieces, seq) {
            Some(was) => {
                self.count -= 1;
                Some(was)
            }
            None => None,
        }
    }

    /// Marks the message of that number, or takes its mark, and says whether it was marked; `None` where there is none.
    pub(crate) fn set_ready(&mut self, seq: u64, ready: bool) -> Option<bool>
        requires { AreRising self.old }
        ensures some { IfSome result (λ was. Marked self.old self.new seq ready was) }
        ensures none { IfNone result (held_at self.old seq ≡ None) }
        ensures unchanged { IfNone result (self.new ≡ self.old) }
    {
        mark_in(&mut self.pieces, seq, ready)
    }

    /// The i-th message.
    pub(crate) fn at(&self, i: usize) -> Option<&Waiting>
        ensures { option_copied result ≡ slice_get self.now i }
    {
        nth(&self.pieces, i)
    }

    /// The number of the k-th marked message.
    pub(crate) fn nth_ready(&self, k: u64) -> Option<u64>
        ensures { result ≡ slice_get (map (λ w. w.seq) (filter (λ w. w.held.ready) self.now)) k }
    {
        nth_marked(&self.pieces, k)
    }
}

// One more message in the last stretch, or in a new one.
fn push_last(pieces: &mut Vec<Stretch>, waiting: Waiting) -> Result<(), NoMemory>
    ensures ok { OnOk result (flat pieces.new.items ≡ flat pieces.old.items ++ waiting ∷ []) }
    ensures err { OnErr result (flat pieces.new.items ≡ flat pieces.old.items) }
    ensures full { AreFull pieces.old.items → AreFull pieces.new.items }
{
    let len = pieces.len();
    if len != 0 && pieces[len - 1].len() < ROOM {
        return pieces[len - 1].push(waiting);
    }
    push_new(pieces, waiting)
}

fn push_new(pieces: &mut Vec<Stretch>, waiting: Waiting) -> Result<(), NoMemory>
    ensures ok { OnOk result (flat pieces.new.items ≡ flat pieces.old.items ++ waiting ∷ []) }
    ensures err { OnErr result (flat pieces.new.items ≡ flat pieces.old.items) }
    ensures full { AreFull pieces.old.items → AreFull pieces.new.items }
{
    let next = Stretch::of_one(*pieces.allocator(), waiting)?;
    if pieces.push(next).is_err() {
        return Err(NoMemory);
    }
    Ok(())
}

// The place of the stretch that has the message of that number, where there is one: the first that doesn't end below it, found by halves.
fn piece_of(pieces: &[Stretch], seq: u64) -> usize
    requires rising { AreRising (flat pieces.now) }
    requires full { AreFull pieces.now }
    ensures { held_at (flat pieces.now) seq ≡ held_at (slice_index_or pieces.now result []) seq }
{
    let mut low = 0;
    let mut high = pieces.len();
    while low < high {
        let mid = low + (high - low) / 2;
        if pieces[mid].ends_below(seq) {
            low = mid + 1;
        } else {
            high = mid;
        }
    }
    low
}

fn get_in(pieces: &[Stretch], seq: u64) -> Option<&Held>
    requires rising { AreRising (flat pieces.now) }
    requires full { AreFull pieces.now }
    ensures { option_copied result ≡ held_at (flat pieces.now) seq }
{
    let at = piece_of(pieces, seq);
    if at < pieces.len() {
        pieces[at].get(seq)
    } else {
        None
    }
}

fn discard_from(pieces: &mut Vec<Stretch>, seq: u64) -> Option<bool>
    requires rising { AreRising (flat pieces.old.items) }
    requires full { AreFull pieces.old.items }
    ensures some { IfSome result (λ was. Taken (flat pieces.old.items) (flat pieces.new.items) seq was) }
    ensures none { IfNone result (held_at (flat pieces.old.items) seq ≡ None) }
    ensures unchanged { IfNone result (flat pieces.new.items ≡ flat pieces.old.items) }
    ensures full { AreFull pieces.new.items }
{
    let at = piece_of(pieces, seq);
    if at >= pieces.len() {
        return None;
    }
    let marked = pieces[at].discard(seq)?;
    drop_empty(pieces, at);
    Some(marked)
}

// Drops this stretch, where it is empty.
fn drop_empty(pieces: &mut Vec<Stretch>, at: usize)
    requires within { at < length pieces.old.items }
    requires others { (k : ℕ) → k < length pieces.old.items → k ≢ at → 0 < length (slice_index_or pieces.old.items k []) }
    ensures same { flat pieces.new.items ≡ flat pieces.old.items }
    ensures full { AreFull pieces.new.items }
{
    if pieces[at].len() == 0 {
        pieces.remove(at);
    }
}

fn mark_in(pieces: &mut Vec<Stretch>, seq: u64, ready: bool) -> Option<bool>
    requires rising { AreRising (flat pieces.old.items) }
    requires full { AreFull pieces.old.items }
    ensures some { IfSome result (λ was. Marked (flat pieces.old.items) (flat pieces.new.items) seq ready was) }
    ensures none { IfNone result (held_at (flat pieces.old.items) seq ≡ None) }
    ensures unchanged { IfNone result (flat pieces.new.items ≡ flat pieces.old.items) }
    ensures full { AreFull pieces.new.items }
{
    let at = piece_of(pieces, seq);
    if at >= pieces.len() {
        return None;
    }
    pieces[at].set_ready(seq, ready)
}

// The i-th message of these.
fn nth(pieces: &[Stretch], i: usize) -> Option<&Waiting>
    ensures { option_copied result ≡ slice_get (flat pieces.now) i }
{
    let mut left = i;
    for at in 0..pieces.len() {
        let len = pieces[at].len();
        if left < len {
            return pieces[at].at(left);
        }
        left -= len;
    }
    None
}

// The number of the k-th marked message of these.
fn nth_marked(pieces: &[Stretch], k: u64) -> Option<u64>
    ensures { result ≡ slice_get (map (λ w. w.seq) (filter (λ w. w.held.ready) (flat pieces.now))) k }
{
    let mut left = k;
    for at in 0..pieces.len() {
        let marked = pieces[at].marked();
        if left < marked {
            return pieces[at].nth_ready(left);
        }
        left -= marked;
    }
    None
}
