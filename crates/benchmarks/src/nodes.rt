// Runs one kind of work on a core or a directory, that many rounds, and prints a checksum: the work that `bench/nodes.sh` times.
// Without words it runs a few rounds of each kind.
mod at_core;
mod at_dir;
mod programs;
mod starts;
mod work;

use crate::words::fill;
use at_core::core_rounds;
use at_dir::dir_rounds;
use starts::{start_cores, start_dirs};
use std::alloc::Global;
use std::io;
use tcc_base::{Config, NoMemory};
use work::Work;

/// A machine, a kind of work with a number of lines, and how many rounds of it.
#[derive(Clone, Copy, Debug, PartialEq, Eq)]
struct Task {
    work: Work,
    lines: u32,
    config: Config,
    rounds: u64,
}

/// Does a task, with at most 500 lines, and gives its checksum.
fn sum(alloc: Global, task: &Task) -> Result<u64, NoMemory> {
    let config = &task.config;
    let rounds = task.rounds;
    match task.work {
        Work::Hot => dir_rounds(alloc, config, true, rounds),
        Work::Quiet => dir_rounds(alloc, config, false, rounds),
        Work::StartCores => start_cores(alloc, config, rounds),
        Work::StartDirs => start_dirs(alloc, config, rounds),
        work => core_rounds(alloc, config, work, task.lines.min(500), rounds),
    }
}

fn do_task(rt: &impl Print, alloc: Global, task: &Task) -> io::Result<()> {
    match sum(alloc, task) {
        Ok(sum) => println!(rt; "{} {sum}", task.work.word()),
        Err(NoMemory) => println!(rt; "no memory"),
    }
}

/// A few rounds of each kind of work.
fn run_all(rt: &impl Print, alloc: Global, config: &Config) -> io::Result<()> {
    for work in Work::ALL {
        let task = Task {
            work,
            lines: 10,
            config: *config,
            rounds: 10,
        };
        do_task(rt, alloc, &task)?;
    }
    Ok(())
}

/// The words: the kind of work; the numbers of lines, sets and ways, the bytes of RAM, and the rounds.
pub fn run(rt: &impl Print, alloc: Global, words: &[String]) -> io::Result<()> {
    let mut numbers = [10u64, 64, 4, 65_536, 10];
    fill(&mut numbers, words.get(1..).unwrap_or(&[]));
    let [lines, sets, ways, ram, rounds] = numbers;
    let Ok(config) = Config::new(64, 1, sets, ways, 0, ram) else {
        return println!(rt; "these settings aren't allowed");
    };
    let Some(word) = words.first() else {
        return run_all(rt, alloc, &config);
    };
    let Some(work) = Work::named(word.as_str()) else {
        return println!(rt; "no kind of work has this name");
    };
    let task = Task {
        work,
        lines: u32::try_from(lines).unwrap_or(500),
        config,
        rounds,
    };
    do_task(rt, alloc, &task)
}
