// What the scripts in bench/ time: the first word names a benchmark, and those behind it say what is done, and how often. Each prints
// a checksum, or how its last run ended. Without words, a small case of each is run.
#![tactic(auto)]

mod cache;
mod machine;
mod nodes;
mod pool;
mod schedule;
mod skips;
mod words;

use std::alloc::Global;
use std::{env, io};

#[derive(Clone, Copy, Debug, PartialEq, Eq)]
enum Benchmark {
    Pool,
    Skips,
    Cache,
    Schedule,
    Nodes,
    Machine,
}

impl Benchmark {
    const ALL: [Benchmark; 6] = [
        Benchmark::Pool,
        Benchmark::Skips,
        Benchmark::Cache,
        Benchmark::Schedule,
        Benchmark::Nodes,
        Benchmark::Machine,
    ];

    fn named(word: &str) -> Option<Benchmark> {
        match word {
            "pool" => Some(Benchmark::Pool),
            "skips" => Some(Benchmark::Skips),
            "cache" => Some(Benchmark::Cache),
            "schedule" => Some(Benchmark::Schedule),
            "nodes" => Some(Benchmark::Nodes),
            "machine" => Some(Benchmark::Machine),
            _ => None,
        }
    }

    fn run(self, rt: &impl Print, alloc: Global, words: &[String]) -> io::Result<()> {
        match self {
            Benchmark::Pool => pool::run(rt, alloc, words),
            Benchmark::Skips => skips::run(rt, alloc, words),
            Benchmark::Cache => cache::run(rt, alloc, words),
            Benchmark::Schedule => schedule::run(rt, alloc, words),
            Benchmark::Nodes => nodes::run(rt, alloc, words),
            Benchmark::Machine => machine::run(rt, alloc, words),
        }
    }
}

fn main(rt: HostRuntime) -> io::Result<()> {
    let alloc = rt.alloc();
    let words: Vec<String> = env::args(&rt)?.skip(1).collect(alloc)?;
    let Some(word) = words.first() else {
        for benchmark in Benchmark::ALL {
            benchmark.run(&rt, alloc, &[])?;
        }
        return Ok(());
    };
    match Benchmark::named(word.as_str()) {
        Some(benchmark) => benchmark.run(&rt, alloc, &words[1..]),
        None => println!(rt; "no benchmark has this name"),
    }
}
