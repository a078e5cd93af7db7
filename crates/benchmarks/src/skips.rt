// Skips TIDs out of order in either form of the skips, and prints a checksum: the work that `bench/parts.sh` times.
use crate::words::fill;
use skip_vector::{RingSkips, SetSkips, Skips};
use std::alloc::Global;
use std::io;
use tcc_base::{NoMemory, Tid};

// Skips the TIDs of each window from the last to the first, so that all but the first are kept, and then all are passed.
// Gives the sum of the TIDs that were served after each skip.
fn work<S: Skips>(skips: &mut S, window: u64, rounds: u64) -> Result<u64, NoMemory> {
    let mut sum = 0u64;
    for _ in 0..rounds {
        let first = skips.serving().0;
        for ahead in (0..window).rev() {
            let tid = first.saturating_add(ahead);
            if tid < 1 << 62 {
                skips.skip(Tid(tid))?;
            }
            sum = sum.wrapping_add(skips.serving().0);
        }
    }
    Ok(sum)
}

/// The numbers: 0 for the ring and else the set, how many TIDs out of order, and how many rounds.
pub fn run(rt: &impl Print, alloc: Global, words: &[String]) -> io::Result<()> {
    let mut numbers = [0u64, 8, 100];
    fill(&mut numbers, words);
    let [set, window, rounds] = numbers;
    let sum = if set == 0 {
        work(&mut RingSkips::new(alloc), window, rounds)
    } else {
        work(&mut SetSkips::new(alloc), window, rounds)
    };
    match sum {
        Ok(sum) => println!(rt; "{sum}"),
        Err(NoMemory) => println!(rt; "no memory"),
    }
}
