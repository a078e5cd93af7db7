// A store in memory, which fails at chosen calls.
ghost use Rattle.std.specs.Prelude.{◌≡◌, ◌≢◌, ℕ, ◌≤◌, List, Option, Some, None, true, false, ◌++◌, ◌∷◌, [], map, if◌then◌else◌};
ghost use Rattle.std.specs.Prelude.{string_bytes, option_map, IfOk, OnOk, OnErr, IsErrOf};
ghost use Rattle.std.specs.Option.{option_copied};
ghost use Rattle.std.specs.FinMap as by_name;
ghost use Rattle.tcc_world.specs.Told.{Gives};
ghost use Rattle.tcc_world.specs.Faults.{Rose};

use crate::names::NameList;
use crate::{Store, StoreError};
use std::alloc::{AllocError, Global};
use std::collections::BTreeMap;
use std::marker::Model;
use tcc_base::NoMemory;

/// Files in memory, for tests of what a failing store brings about. A call costs the logarithm of the number of files,
/// and the length of what it reads or writes.
#[derive(Drop)]
pub struct MapStore {
    alloc: Global,
    files: BTreeMap<String, Vec<u8>>,
    fails: Vec<u64>,
    calls: u64,
    failed_reads: NameList,
    failed_writes: NameList,
}

impl Model for MapStore {
    ghost use Rattle.std.specs.Prelude.{map, string_bytes};
    ghost use Rattle.std.specs.FinMap as by_name;
    ghost use Rattle.tcc_world.specs.Shelf.{Shelf, shelf_code};

    ghost Value = { Shelf };

    ghost coded = { shelf_code };

    ghost view = { λ s. record {
      files = by_name.from_entries (map (λ e. (string_bytes e.0, e.1.items)) s.files.entries);
      fails = s.fails.items;
      calls = s.calls;
      unread = s.failed_reads;
      unwritten = s.failed_writes;
    } };
}

impl MapStore {
    ghost use Rattle.tcc_world.specs.Shelf.{empty_shelf, holding, is_due, readable, counted, read_failed, write_failed};

    /// A store without files. Of the reads and writes, numbered together from 0, those in `fails` fail. Calls past
    /// number 2^64 - 1 have that number, and one that finds no memory has none.
    pub fn new(alloc: Global, fails: Vec<u64>) -> MapStore
        ensures { result ≡ empty_shelf fails.items }
    {
        MapStore {
            alloc,
            files: BTreeMap::new(alloc),
            fails,
            calls: 0,
            failed_reads: NameList::new(alloc),
            failed_writes: NameList::new(alloc),
        }
    }

    /// Sets the contents of a name, and leaves all other names. It isn't one of the numbered calls. After an error
    /// nothing has changed.
    pub fn set(&mut self, name: &str, bytes: &[u8]) -> Result<(), NoMemory>
        ensures set { OnOk result (self.new ≡ holding self.old name.now bytes.now) }
        ensures unchanged { OnErr result (self.new ≡ self.old) }
    {
        match self.hold(self.alloc, name, bytes) {
            Ok(()) => Ok(()),
            Err(_) => Err(NoMemory),
        }
    }

    /// The contents of a name, and `None` exactly where it has none. It takes no memory.
    pub fn get(&self, name: &str) -> Option<&[u8]>
        ensures { option_copied result ≡ by_name.get self.now.files name.now }
    {
        match self.files.get(name) {
            Some(bytes) => Some(bytes.as_slice()),
            None => None,
        }
    }

    fn hold(&mut self, alloc: Global, name: &str, bytes: &[u8]) -> Result<(), AllocError>
        ensures set { OnOk result (self.new ≡ holding self.old name.now bytes.now) }
        ensures unchanged { OnErr result (self.new ≡ self.old) }
    {
        let name = String::from_str(alloc, name)?;
        let bytes = Vec::from_slice(alloc, bytes)?;
        self.files.insert(name, bytes)?;
        Ok(())
    }

    fn is_due(&self) -> bool
        ensures { result ≡ is_due self.now }
    {
        self.fails.contains(&self.calls)
    }

    // What the coming call reads, if it doesn't fail.
    fn readable(&self, name: &str) -> Option<&[u8]>
        ensures { option_copied result ≡ readable self.now name.now }
    {
        if self.is_due() { None } else { self.get(name) }
    }

    fn count(&mut self)
        ensures { self.new ≡ counted self.old }
    {
        self.calls = self.calls.saturating_add(1);
    }

    // Books a failed read, or says that there is no memory for that.
    fn fail_read(&mut self, alloc: Global, name: &str) -> StoreError
        ensures failed { result ≡ StoreError.Failed → self.new ≡ read_failed self.old name.now }
        ensures memory { result ≡ StoreError.Memory → self.new ≡ self.old }
    {
        match self.failed_reads.book(alloc, name) {
            Ok(()) => {
                self.count();
                StoreError::Failed
            }
            Err(_) => StoreError::Memory,
        }
    }

    // Books a failed write, or says that there is no memory for that.
    fn fail_write(&mut self, alloc: Global, name: &str) -> StoreError
        ensures failed { result ≡ StoreError.Failed → self.new ≡ write_failed self.old name.now }
        ensures memory { result ≡ StoreError.Memory → self.new ≡ self.old }
    {
        match self.failed_writes.book(alloc, name) {
            Ok(()) => {
                self.count();
                StoreError::Failed
            }
            Err(_) => StoreError::Memory,
        }
    }
}

impl Store for MapStore {
    ghost use Rattle.std.specs.Prelude.{true};
    ghost use Rattle.std.specs.FinMap as by_name;
    ghost use Rattle.tcc_world.specs.Shelf.{holding, counted, readable, read_failed, write_failed, is_due};
    ghost use Rattle.tcc_world.specs.Names.{times};

    ghost disk = { λ s. record {
      tells = true;
      contents = by_name.get s.files;
      failed_reads = times s.unread;
      failed_writes = times s.unwritten;
    } };

    /// Fails exactly where its number is in the list or the name has no contents. After `Memory` nothing has changed.
    #[tactic(auto, using(crate::proofs::Holding::booking))]
    fn read(&mut self, alloc: Global, name: &str) -> Result<Vec<u8>, StoreError>
        ensures given { IfOk result (λ bytes. (readable self.old name.now ≡ Some bytes.items) × (self.new ≡ counted self.old)) }
        ensures failed { IsErrOf result StoreError.Failed → (readable self.old name.now ≡ None)
            × (self.new ≡ read_failed self.old name.now) }
        ensures memory { IsErrOf result StoreError.Memory → self.new ≡ self.old }

        ensures bytes { IfOk result (λ bytes. Gives (by_name.get self.old.files name.now) bytes.items) }
        ensures cause { IsErrOf result StoreError.Failed → Rose (times self.old.unread name.now) (times self.new.unread name.now) }
        ensures contents_stay { (n : List ℕ) → by_name.get self.new.files n ≡ by_name.get self.old.files n }
        ensures tells_stays { true ≡ true }
        ensures no_failure { OnOk result ((n : List ℕ) → times self.new.unread n ≡ times self.old.unread n) }
        ensures others_stay { (n : List ℕ) → n ≢ name.now → times self.new.unread n ≡ times self.old.unread n }
        ensures reads { (n : List ℕ) → times self.old.unread n ≤ times self.new.unread n }
        ensures writes { (n : List ℕ) → times self.new.unwritten n ≡ times self.old.unwritten n }
    {
        match self.readable(name) {
            Some(bytes) => {
                let copy = Vec::from_slice(alloc, bytes)?;
                self.count();
                Ok(copy)
            }
            None => Err(self.fail_read(alloc, name)),
        }
    }

    /// Fails exactly where its number is in the list, and then leaves the contents of all names. After `Memory` nothing
    /// has changed.
    #[tactic(auto, using(crate::proofs::Holding::holding_one))]
    fn write(&mut self, alloc: Global, name: &str, bytes: &[u8]) -> Result<(), StoreError>
        ensures held { OnOk result ((is_due self.old ≡ false) × (self.new ≡ counted (holding self.old name.now bytes.now))) }
        ensures failed { IsErrOf result StoreError.Failed → (is_due self.old ≡ true) × (self.new ≡ write_failed self.old name.now) }
        ensures memory { IsErrOf result StoreError.Memory → self.new ≡ self.old }

        ensures stored { OnOk result (by_name.get self.new.files name.now ≡ (if true then Some bytes.now else None)) }
        ensures cause { IsErrOf result StoreError.Failed → Rose (times self.old.unwritten name.now) (times self.new.unwritten name.now) }
        ensures unwritten { IsErrOf result StoreError.Memory → (n : List ℕ) → by_name.get self.new.files n ≡ by_name.get self.old.files n }
        ensures others_stay { (n : List ℕ) → n ≢ name.now → by_name.get self.new.files n ≡ by_name.get self.old.files n }
        ensures tells_stays { true ≡ true }
        ensures reads { (n : List ℕ) → times self.new.unread n ≡ times self.old.unread n }
        ensures writes { (n : List ℕ) → times self.old.unwritten n ≤ times self.new.unwritten n }
    {
        if self.is_due() {
            return Err(self.fail_write(alloc, name));
        }
        self.hold(alloc, name, bytes)?;
        self.count();
        Ok(())
    }
}
