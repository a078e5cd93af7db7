// Numbers that are found by their keys, in constant time where few have the same key.
ghost use Rattle.std.specs.Prelude.{◌≡◌, ℕ, ◌<◌, [], ◌∷◌, ◌++◌, List as Seq, IfOk, IfSome, OnOk, OnErr, length, slice_index};
ghost use Rattle.run_outcomes.specs.Chains.{AreChained, last_with};

use indexmap::IndexMap;
use std::alloc::Global;
use tcc_base::{List, NoMemory};

/// Numbers from 0 on, each with a key: the newest number of each key, and for each number the next older one with the same key, or
/// the number itself where there is none.
#[derive(Debug, Drop)]
pub(crate) struct Chains {
    newest: IndexMap<u64, u32>,
    older: List<u32>,
}

/// A number in 32 bits. There are no more states and edges than those count.
pub(crate) fn small(number: usize) -> Result<u32, NoMemory>
    ensures { IfOk result (λ small. small ≡ number) }
{
    if number > u32::MAX as usize {
        return Err(NoMemory);
    }
    Ok(number as u32)
}

impl Chains {
    /// Chains without numbers. Takes no memory.
    pub(crate) fn new(alloc: Global) -> Chains
        ensures { AreChained [] result }
    {
        Chains {
            newest: IndexMap::new(alloc),
            older: List::new(alloc),
        }
    }

    /// How many numbers there are.
    fn len(&self) -> usize
        ensures { result ≡ length self.now.older }
    {
        self.older.items.len()
    }

    /// The newest number of this key. Constant time.
    pub(crate) fn newest(&self, key: u64) -> Option<usize>
        ensures { (keys : Seq ℕ) → AreChained keys self.now → result ≡ last_with keys key (length keys) }
    {
        let number = *self.newest.get(&key)?;
        Some(number as usize)
    }

    /// The next older number with the key of this one. Constant time.
    pub(crate) fn older(&self, number: usize) -> Option<usize>
        ensures older { (keys : Seq ℕ) → AreChained keys self.now → number < length keys
            → result ≡ last_with keys (slice_index keys number) number }
        ensures smaller { IfSome result (λ older. older < number) }
    {
        let older = *self.older.items.get(number)? as usize;
        if older < number { Some(older) } else { None }
    }

    /// Adds the next number, by this key; after want of memory the chains are as before.
    pub(crate) fn add(&mut self, key: u64) -> Result<(), NoMemory>
        ensures added { OnOk result ((keys : Seq ℕ) → AreChained keys self.old → AreChained (keys ++ key ∷ []) self.new) }
        ensures unchanged { OnErr result ((keys : Seq ℕ) → AreChained keys self.old → AreChained keys self.new) }
    {
        let number = self.len();
        let older = small(self.newest(key).unwrap_or(number))?;
        let number = small(number)?;
        self.older.push(older)?;
        match self.newest.insert(key, number) {
            Ok(_) => Ok(()),
            Err(_) => {
                self.older.pop();
                Err(NoMemory)
            }
        }
    }
}
