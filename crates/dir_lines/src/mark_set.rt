// Which places of an array of records are marked. Few are a rising list; many are counted for each sixteen places, so that a further
// mark moves none of the others.
ghost use Rattle.std.specs.Prelude.{◌≡◌, ℕ, ◌+◌, ◌-◌, ◌*◌, ◌/◌, ◌^◌, ◌<◌, ◌≤◌, [], Bool, true, false, nat_lt, length, IfOk};
ghost use Rattle.std.specs.Prelude.{slice_get, slice_index, slice_set, option_map};
ghost use Rattle.rules_maps.specs.Words.{put, those, count_below, num};
ghost use Rattle.dir_lines.specs.Marking.{marked_at, Counts, IsMarked};

use crate::marked;
use crate::record::LineRecord;
use base_sums::SumTree;
use std::alloc::Global;
use tcc_base::{Mask, NoMemory};

// So many places are in the list at most.
const FEW: usize = 64;

// The marked places. No call but `new` takes memory. All but `nth` take constant time.
#[derive(Debug, Drop)]
pub(crate) struct MarkSet {
    // all marked places, while none is counted
    few: Vec<u32>,
    // how many of each sixteen are marked, from the first mark that the list has no room for until none is left
    many: SumTree,
}

impl MarkSet {
    // None of so many places is marked.
    pub(crate) fn new(alloc: Global, places: usize) -> Result<MarkSet, NoMemory>
        requires { places ≤ 2 ^ 20 }
        ensures none { IfOk result (λ m. (p : ℕ → Bool) → ((i : ℕ) → p i ≡ false) → IsMarked m.few.items m.many p) }
        ensures room { IfOk result (λ m. places ≤ 16 * length m.many) }
    {
        let many = SumTree::new(alloc, (places + 15) / 16)?;
        match Vec::with_capacity(alloc, FEW) {
            Ok(few) => Ok(MarkSet { few, many }),
            Err(_) => Err(NoMemory),
        }
    }

    // How many places are marked.
    pub(crate) fn len(&self) -> usize
        ensures { (p : ℕ → Bool) → IsMarked self.now.few.items self.now.many p → result ≡ length (those p (16 * length self.now.many)) }
    {
        let many = self.many.total() as usize;
        if many > 0 { many } else { self.few.len() }
    }

    // The k-th marked place, from 0. Where they are counted, it goes over one number for each 4,096 places, and over 48 more, at most.
    pub(crate) fn nth(&self, records: &[LineRecord], k: usize) -> Option<u32>
        requires marks { IsMarked self.now.few.items self.now.many (marked_at records.now) }
        requires fits { length records.now < 2 ^ 32 }
        ensures { result ≡ slice_get (those (marked_at records.now) (16 * length self.now.many)) k }
    {
        if self.many.total() == 0 {
            let place = self.few.get(k)?;
            return Some(*place);
        }
        match self.many.find(k as u64) {
            Some((sixteen, into)) => Some(nth_from(records, 16 * sixteen, into) as u32),
            None => None,
        }
    }

    // Follows a change of the mask at a place.
    pub(crate) fn update(&mut self, place: u32, was: Mask, is: Mask)
        requires marks { (p : ℕ → Bool) × (p place ≡ nat_lt 0 was.0) × IsMarked self.old.few.items self.old.many p }
        requires within { place < 16 * length self.old.many }
        ensures marks { (p : ℕ → Bool) → p place ≡ nat_lt 0 was.0 → IsMarked self.old.few.items self.old.many p
            → IsMarked self.new.few.items self.new.many (put p place (nat_lt 0 is.0)) }
        ensures room { length self.new.many ≡ length self.old.many }
    {
        match (was.0 > 0, is.0 > 0) {
            (false, true) => self.note(place),
            (true, false) => self.forget(place),
            _ => {}
        }
    }

    // Marks a place that isn't marked.
    fn note(&mut self, place: u32)
        requires marks { (p : ℕ → Bool) × (p place ≡ false) × IsMarked self.old.few.items self.old.many p }
        requires within { place < 16 * length self.old.many }
        ensures marks { (p : ℕ → Bool) → p place ≡ false → IsMarked self.old.few.items self.old.many p
            → IsMarked self.new.few.items self.new.many (put p place true) }
        ensures room { length self.new.many ≡ length self.old.many }
    {
        if self.many.total() == 0 && self.few.len() < self.few.capacity() {
            marked::note(&mut self.few, place);
        } else {
            spill(&mut self.few, &mut self.many);
            more(&mut self.many, place);
        }
    }

    // Takes the mark of a place that is marked.
    fn forget(&mut self, place: u32)
        requires marks { (p : ℕ → Bool) × (p place ≡ true) × IsMarked self.old.few.items self.old.many p }
        requires within { place < 16 * length self.old.many }
        ensures marks { (p : ℕ → Bool) → p place ≡ true → IsMarked self.old.few.items self.old.many p
            → IsMarked self.new.few.items self.new.many (put p place false) }
        ensures room { length self.new.many ≡ length self.old.many }
    {
        if self.many.total() == 0 {
            marked::forget(&mut self.few, place);
        } else {
            less(&mut self.many, place);
        }
    }
}

// Moves all of the list to the counts.
fn spill(few: &mut Vec<u32>, many: &mut SumTree)
    requires { (p : ℕ → Bool) × IsMarked few.old.items many.old p }
    ensures spilled { (p : ℕ → Bool) → IsMarked few.old.items many.old p → (few.new.items ≡ []) × Counts p many.new }
    ensures room { length many.new ≡ length many.old }
{
    while let Some(place) = few.pop() {
        more(many, place);
    }
}

// One more of a place's sixteen is marked.
fn more(many: &mut SumTree, place: u32)
    requires within { place < 16 * length many.old }
    requires fits { slice_index many.old (place / 16) ≤ 16 }
    ensures { many.new ≡ slice_set many.old (place / 16) (slice_index many.old (place / 16) + 1) }
{
    let sixteen = (place / 16) as usize;
    let was = many.get(sixteen);
    many.set(sixteen, was + 1);
}

// One less of them is.
fn less(many: &mut SumTree, place: u32)
    requires within { place < 16 * length many.old }
    requires some { 0 < slice_index many.old (place / 16) }
    ensures { many.new ≡ slice_set many.old (place / 16) (slice_index many.old (place / 16) - 1) }
{
    let sixteen = (place / 16) as usize;
    let was = many.get(sixteen);
    many.set(sixteen, was - 1);
}

// The k-th marked place from this one on.
fn nth_from(records: &[LineRecord], from: usize, k: u64) -> usize
    requires some { count_below (marked_at records.now) from + k < count_below (marked_at records.now) (length records.now) }
    requires fits { length records.now < 2 ^ 32 }
    ensures marked { marked_at records.now result ≡ true }
    ensures before { count_below (marked_at records.now) result ≡ count_below (marked_at records.now) from + k }
    ensures within { result < length records.now }
{
    let mut at = from;
    let mut left = k;
    while left >= marks_of(&records[at]) {
        left -= marks_of(&records[at]);
        at += 1;
    }
    at
}

// 1 where the record is marked, else 0.
fn marks_of(record: &LineRecord) -> u64
    ensures { result ≡ num (nat_lt 0 record.now.mark.0) }
{
    u64::from(record.mark.0 > 0)
}
