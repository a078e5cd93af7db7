// Runs a workload on the machine of many cores, that many times from its start, and prints how the last run ended: the work that
// `bench/machine.sh` times. Without words it runs a small case.
mod runs;

use crate::words::fill;
use runs::{Task, run_times};
use std::alloc::Global;
use std::io;
use tcc_base::{Config, NoMemory};
use work_gen::{MAX_NUMBER, Work};

/// The largest number of events that a machine takes.
const MAX_STEPS: u64 = 4_194_304;

/// The task that the numbers tell, where they are allowed.
fn task(work: Work, numbers: [u64; 8]) -> Option<Task> {
    let [number, cores, dirs, sets, ways, steps, seed, times] = numbers;
    if number < 1 || number > MAX_NUMBER as u64 || steps > MAX_STEPS {
        return None;
    }
    match Config::new(cores, dirs, sets, ways, 0x8000_0000, 65_536) {
        Err(_) => None,
        Ok(config) => Some(Task {
            work,
            number: number as u32,
            config,
            steps: steps as u32,
            seed,
            times,
        }),
    }
}

/// The words: the workload, and how many of it a core does; the numbers of cores, directories, sets and ways; the most events, the
/// seed, and how many runs.
pub fn run(rt: &impl Print, alloc: Global, words: &[String]) -> io::Result<()> {
    let mut numbers = [20u64, 2, 2, 16, 2, 10_000, 1, 2];
    fill(&mut numbers, words.get(1..).unwrap_or(&[]));
    let work = match words.first() {
        Some(word) => Work::named(word.as_str()),
        None => Some(Work::Counters),
    };
    let Some(work) = work else {
        return println!(rt; "no workload has this name");
    };
    let Some(task) = task(work, numbers) else {
        return println!(rt; "these settings aren't allowed");
    };
    match run_times(alloc, &task) {
        Ok(end) => println!(rt;
            "{} {} {} {}",
            work.word(),
            end.events,
            end.word(),
            end.commits
        ),
        Err(NoMemory) => println!(rt; "no memory"),
    }
}
