// Looks up, removes and adds messages of a pool that holds a given number of them, and prints a checksum: the work that
// `bench/parts.sh` times.
use crate::words::fill;
use std::alloc::Global;
use std::io;
use tcc_base::{CoreId, DirId, NoMemory, NodeId, Tid};
use tcc_msg::{Msg, Name, Pool};

// A message's name on the link of one of 16 cores to a directory.
fn name(seq: u64) -> Name {
    Name {
        src: NodeId::Core(CoreId((seq % 16) as u8)),
        dst: NodeId::Dir(DirId(0)),
        seq,
    }
}

fn add(pool: &mut Pool<Msg>, seq: u64) -> Result<(), NoMemory> {
    let name = name(seq);
    if pool.get(name).is_none() {
        pool.add(name, Msg::Skip { tid: Tid(seq) })?;
    }
    Ok(())
}

// Fills a pool with `held` messages; then takes the oldest out and adds a new one, `rounds` times. Gives the sum of the TIDs
// that came out and of the number held in the end.
fn work(alloc: Global, held: u64, rounds: u64) -> Result<u64, NoMemory> {
    let mut pool = Pool::new(alloc);
    for seq in 0..held {
        add(&mut pool, seq)?;
    }
    let mut sum = 0u64;
    for seq in 0..rounds {
        if let Some(Msg::Skip { tid }) = pool.remove(name(seq)) {
            sum = sum.wrapping_add(tid.0);
        }
        add(&mut pool, seq.wrapping_add(held))?;
    }
    Ok(sum.wrapping_add(pool.len() as u64))
}

/// The numbers: how many messages are held, and how many rounds.
pub fn run(rt: &impl Print, alloc: Global, words: &[String]) -> io::Result<()> {
    let mut numbers = [10u64, 1000];
    fill(&mut numbers, words);
    match work(alloc, numbers[0], numbers[1]) {
        Ok(sum) => println!(rt; "{sum}"),
        Err(NoMemory) => println!(rt; "no memory"),
    }
}
