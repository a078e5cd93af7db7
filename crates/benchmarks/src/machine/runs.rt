// Runs of a workload by picked schedules.
ghost use Rattle.std.specs.Prelude.{◌≤◌};
ghost use Rattle.tcc_base.specs.Limits.{run_limit};

use image_load::{LoadFault, Loaded, load, raw};
use net_core::System;
use std::alloc::Global;
use tcc_base::{Config, List, NoMemory};
use tcc_pick::{Chooser, Unrecorded};
use work_gen::{Work, workload};

/// A workload on a machine, and how often it is run.
#[derive(Clone, Copy, Debug, PartialEq, Eq)]
pub struct Task {
    pub work: Work,
    /// How many transactions of its kind each core does.
    pub number: u32,
    pub config: Config,
    /// The most events of a run.
    pub steps: u32,
    pub seed: u64,
    pub times: u64,
    ghost least: { 1 ≤ number },
    ghost most: { number ≤ 2047 },
    ghost few: { steps ≤ run_limit },
}

/// How a run ended.
#[derive(Clone, Copy, Debug, PartialEq, Eq)]
pub struct End {
    pub events: u64,
    pub done: bool,
    pub commits: u64,
}

impl End {
    /// Whether it is done.
    pub fn word(self) -> &'static str {
        if self.done { "done" } else { "open" }
    }
}

/// The memory that begins with the task's workload. One that doesn't fit counts as want of memory.
fn loaded(alloc: Global, task: &Task) -> Result<Loaded, NoMemory> {
    let items = workload(alloc, task.work, task.number)?;
    let files = [List { items }];
    let loaded = match raw(alloc, &task.config, &files) {
        Ok(images) => load(alloc, &task.config, &images),
        Err(fault) => Err(fault),
    };
    loaded.map_err(|_: LoadFault| NoMemory)
}

/// A run from the start, of so many events at most.
fn run(alloc: Global, loaded: &Loaded, seed: u64, steps: u32) -> Result<End, NoMemory>
    requires { steps ≤ run_limit }
{
    let mut system = System::start(alloc, loaded)?;
    Chooser::new(seed).run(&mut system, steps, &mut Unrecorded)?;
    Ok(End {
        events: system.events(),
        done: system.done(),
        commits: system.commits().len() as u64,
    })
}

/// Runs the task as often as it says, and tells how the last run ended.
pub fn run_times(alloc: Global, task: &Task) -> Result<End, NoMemory> {
    let loaded = loaded(alloc, task)?;
    let mut end = End {
        events: 0,
        done: false,
        commits: 0,
    };
    for _ in 0..task.times {
        end = run(alloc, &loaded, task.seed, task.steps)?;
    }
    Ok(end)
}
