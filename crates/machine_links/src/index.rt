// Messages in flight to directories, by what they are about.
ghost use Rattle.std.specs.Prelude.{◌≡◌, ◌≢◌, ◌%◌, ◌-◌, [], Some, IfOk, OnOk, OnErr, IfSome, length, replicate, slice_get, slice_set, take};
ghost use Rattle.machine_links.specs.Subject.{Index as Lists, IsListed, bucket, with_entry, with_listed};
ghost use Rattle.machine_links.specs.declared.subject.Entry.{Entry as Listed};

use crate::subject::Entry;
use std::alloc::Global;
use std::marker::Model;
use tcc_base::{List, NoMemory};

/// How many lists there are. An entry stands in the list of its key's remainder.
const LISTS: usize = 4096;

/// Lists of messages, which hold at least those in flight. A call takes time in the entries of one list.
#[derive(Debug, Drop)]
pub(crate) struct Index {
    lists: Vec<List<Entry>>,
}

impl Model for Index {
    ghost use Rattle.machine_links.specs.Subject.{Index as Listing, IsIndex};

    ghost Value = { Listing };

    ghost view = { λ i. i.lists.items };

    ghost invariant = { λ i. IsIndex i.lists.items };
}

impl Index {
    /// Nothing is listed.
    pub(crate) fn new(alloc: Global) -> Result<Index, NoMemory>
        ensures { IfOk result (λ i. i ≡ replicate 4096 []) }
    {
        let mut lists = Vec::with_capacity(alloc, LISTS).map_err(|_| NoMemory)?;
        for _ in 0..LISTS {
            lists.push(List::new(alloc)).map_err(|_| NoMemory)?;
        }
        Ok(Index { lists })
    }

    /// Lists a message, where there is something to list. After want of memory nothing is changed.
    pub(crate) fn list(&mut self, entry: Option<Entry>) -> Result<(), NoMemory>
        ensures is { OnOk result (self.new ≡ with_listed entry self.old) }
        ensures listed { OnOk result ((e : Listed) → entry ≡ Some e → IsListed self.new e) }
        ensures others { (e : Listed) → IsListed self.old e → IsListed self.new e }
        ensures unchanged { OnErr result (self.new ≡ self.old) }
    {
        match entry {
            Some(entry) => self.add(entry),
            None => Ok(()),
        }
    }

    /// Takes back what was listed last.
    pub(crate) fn take_back(&mut self, entry: Option<Entry>)
        ensures { (x : Lists) → self.old ≡ with_listed entry x → self.new ≡ x }
    {
        if let Some(entry) = entry {
            self.take_last(entry.key);
        }
    }

    /// Lists a message no longer, where it is listed. The others stay.
    pub(crate) fn unlist(&mut self, entry: Option<Entry>)
        ensures { (e : Listed) → entry ≢ Some e → IsListed self.old e → IsListed self.new e }
    {
        if let Some(entry) = entry {
            self.remove(entry);
        }
    }

    fn add(&mut self, entry: Entry) -> Result<(), NoMemory>
        ensures is { OnOk result (self.new ≡ with_entry entry self.old) }
        ensures listed { OnOk result (IsListed self.new entry) }
        ensures others { (e : Listed) → IsListed self.old e → IsListed self.new e }
        ensures unchanged { OnErr result (self.new ≡ self.old) }
    {
        self.lists[entry.key as usize % LISTS].push(entry)
    }

    fn take_last(&mut self, key: u32)
        ensures { self.new ≡ slice_set self.old (key % 4096) (take (length (bucket self.old key) - 1) (bucket self.old key)) }
    {
        self.lists[key as usize % LISTS].pop();
    }

    fn remove(&mut self, entry: Entry)
        ensures { (e : Listed) → e ≢ entry → IsListed self.old e → IsListed self.new e }
    {
        let list = &mut self.lists[entry.key as usize % LISTS].items;
        if let Some(at) = place_of(list, entry) {
            list.remove(at);
        }
    }

    /// How many stand in the list of this key.
    pub(crate) fn len(&self, key: u32) -> usize
        ensures { result ≡ length (bucket self.now key) }
    {
        self.lists[key as usize % LISTS].items.len()
    }

    /// The i-th of them.
    pub(crate) fn get(&self, key: u32, i: usize) -> Option<Entry>
        ensures { result ≡ slice_get (bucket self.now key) i }
    {
        let list = &self.lists[key as usize % LISTS].items;
        if i < list.len() { Some(list[i]) } else { None }
    }
}

/// Where an entry stands first in a list.
fn place_of(list: &[Entry], entry: Entry) -> Option<usize>
    ensures found { IfSome result (λ i. slice_get list.now i ≡ Some entry) }
{
    for i in 0..list.len() {
        if list[i] == entry {
            return Some(i);
        }
    }
    None
}
