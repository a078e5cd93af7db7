// The real files. Nothing is told of what stands in them.
ghost use Rattle.std.specs.Prelude.{◌≡◌, [], ◌≤◌, ◌^◌, length, IfOk, IfSome};

use crate::names::NameList;
use crate::{Store, StoreError};
use std::alloc::Global;
use std::fs;
use std::fs::File;
use std::io::Read;
use std::marker::Model;
use std::rt::Files;

/// How many bytes of a file are read at a time.
const CHUNK: usize = 8192;

/// The longest file that is read, in bytes. A longer one is a failed read.
const LONGEST: usize = 268_435_456;

/// The files of the system, with the names of the reads and writes that failed. A file of more than 268,435,456 bytes
/// is a failed read. What stands in the files is told by no contract.
#[derive(Drop)]
pub struct DiskStore<R> {
    rt: R,
    failed_reads: NameList,
    failed_writes: NameList,
}

impl<R> Model for DiskStore<R> {
    ghost use Rattle.tcc_world.specs.Booked.{Booked};

    ghost Value = { Booked };

    ghost view = { λ s. record { unread = s.failed_reads; unwritten = s.failed_writes } };
}

impl<R> DiskStore<R> {
    /// A store in which nothing has failed.
    pub fn new(rt: R, alloc: Global) -> DiskStore<R>
        ensures { result ≡ record { unread = []; unwritten = [] } }
    {
        DiskStore {
            rt,
            failed_reads: NameList::new(alloc),
            failed_writes: NameList::new(alloc),
        }
    }
}

// Reads to the end, chunk by chunk.
fn read_to_end<F: Read>(alloc: Global, file: &mut F) -> Result<Vec<u8>, StoreError>
    ensures within { IfOk result (λ bytes. length bytes.items ≤ 2 ^ 28) }
    ensures whole { IfOk result (λ bytes. IfSome (F.remaining file.old) (λ all. bytes.items ≡ all)) }
{
    let mut bytes = Vec::new(alloc);
    let mut chunk = [0u8; CHUNK];
    'chunks: for _ in 0..=LONGEST {
        match file.read(&mut chunk) {
            Ok(0) => return Ok(bytes),
            Ok(n) => {
                if n > LONGEST - bytes.len() {
                    return Err(StoreError::Failed);
                }
                bytes.extend_from_slice(&chunk[..n])?;
            }
            Err(_) => return Err(StoreError::Failed),
        }
    }
    Err(StoreError::Failed)
}

// Opens a file and reads it whole.
fn read_file<R: Files>(rt: &R, alloc: Global, name: &str) -> Result<Vec<u8>, StoreError>
    ensures { IfOk result (λ bytes. length bytes.items ≤ 2 ^ 28) }
{
    match File::open(rt, name) {
        Ok(mut file) => read_to_end(alloc, &mut file),
        Err(_) => Err(StoreError::Failed),
    }
}

impl<R: Files> Store for DiskStore<R> {
    ghost use Rattle.std.specs.Prelude.{false, None};
    ghost use Rattle.tcc_world.specs.Names.{times};

    ghost disk = { λ s. record {
      tells = false;
      contents = λ _. None;
      failed_reads = times s.unread;
      failed_writes = times s.unwritten;
    } };

    #[tactic(auto, using(crate::proofs::Holding::booking))]
    fn read(&mut self, alloc: Global, name: &str) -> Result<Vec<u8>, StoreError> {
        match read_file(&self.rt, alloc, name) {
            Ok(bytes) => Ok(bytes),
            Err(StoreError::Memory) => Err(StoreError::Memory),
            Err(StoreError::Failed) => {
                self.failed_reads.book(alloc, name)?;
                Err(StoreError::Failed)
            }
        }
    }

    #[tactic(auto, using(crate::proofs::Holding::booking))]
    fn write(&mut self, alloc: Global, name: &str, bytes: &[u8]) -> Result<(), StoreError> {
        // booked first, so that memory for it is found while the file is as it was
        self.failed_writes.book(alloc, name)?;
        match fs::write(&self.rt, name, bytes) {
            Ok(()) => {
                self.failed_writes.forget_last();
                Ok(())
            }
            Err(_) => Err(StoreError::Failed),
        }
    }
}
