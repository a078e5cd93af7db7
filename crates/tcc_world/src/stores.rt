// Files by name, to be read and written as a whole.
ghost use Rattle.std.specs.Prelude.{◌≡◌, ◌≢◌, ℕ, ◌≤◌, List, Some, None, if◌then◌else◌, IfOk, OnOk, IsErrOf};
ghost use Rattle.tcc_world.specs.Disk.{Disk};
ghost use Rattle.tcc_world.specs.Told.{Gives};
ghost use Rattle.tcc_world.specs.Faults.{Rose};

use std::alloc::{AllocError, Global};

/// Why a file wasn't read or written.
#[derive(Clone, Copy, Debug, PartialEq, Eq)]
pub enum StoreError {
    /// The store failed, or the file that was to be read is missing.
    Failed,
    /// There wasn't enough memory.
    Memory,
}

impl From<AllocError> for StoreError {
    ghost use Rattle.tcc_world.specs.declared.stores.StoreError.TheVariants.{Memory};

    ghost from_gives = { λ _ e. e ≡ Memory };

    fn from(_error: AllocError) -> StoreError {
        StoreError::Memory
    }
}

/// Files by name, whose reads and writes may fail. A name is any text. The counts of failures never fall;
/// one that stands at 2^64 - 1 is taken as risen.
pub trait Store {
    /// What it holds and how often its calls failed, by name.
    ghost disk: { Self → Disk };

    /// Reads a file whole, and leaves the contents of every name whatever it answers. `Failed` comes only where the
    /// name's count of failed reads rose in this call; a missing file raises it too. No other name's count changes, and
    /// none where the file was read.
    fn read(&mut self, alloc: Global, name: &str) -> Result<Vec<u8>, StoreError>
        ensures bytes { IfOk result (λ bytes. Gives ((disk self.old).contents name.now) bytes.items) }
        ensures cause { IsErrOf result StoreError.Failed → Rose ((disk self.old).failed_reads name.now) ((disk self.new).failed_reads name.now) }

        ensures contents_stay { (n : List ℕ) → (disk self.new).contents n ≡ (disk self.old).contents n }
        ensures tells_stays { (disk self.new).tells ≡ (disk self.old).tells }
        ensures no_failure { OnOk result ((n : List ℕ) → (disk self.new).failed_reads n ≡ (disk self.old).failed_reads n) }
        ensures others_stay { (n : List ℕ) → n ≢ name.now → (disk self.new).failed_reads n ≡ (disk self.old).failed_reads n }
        ensures reads { (n : List ℕ) → (disk self.old).failed_reads n ≤ (disk self.new).failed_reads n }
        ensures writes { (n : List ℕ) → (disk self.new).failed_writes n ≡ (disk self.old).failed_writes n };

    /// Makes these bytes the contents of the name, and leaves all other names. `Failed` comes only where the name's
    /// count of failed writes rose in this call, and then nothing is said of the contents of this one name. `Memory` comes
    /// before anything is written: all contents are as they were.
    fn write(&mut self, alloc: Global, name: &str, bytes: &[u8]) -> Result<(), StoreError>
        ensures stored { OnOk result ((disk self.new).contents name.now ≡ (if (disk self.old).tells then Some bytes.now else None)) }
        ensures cause { IsErrOf result StoreError.Failed → Rose ((disk self.old).failed_writes name.now) ((disk self.new).failed_writes name.now) }
        ensures unwritten { IsErrOf result StoreError.Memory → (n : List ℕ) → (disk self.new).contents n ≡ (disk self.old).contents n }

        ensures others_stay { (n : List ℕ) → n ≢ name.now → (disk self.new).contents n ≡ (disk self.old).contents n }
        ensures tells_stays { (disk self.new).tells ≡ (disk self.old).tells }
        ensures reads { (n : List ℕ) → (disk self.new).failed_reads n ≡ (disk self.old).failed_reads n }
        ensures writes { (n : List ℕ) → (disk self.old).failed_writes n ≤ (disk self.new).failed_writes n };
}
