// Machines of two cores and two directories that run by a seed, with ample memory.
ghost use Rattle.std.specs.Prelude.{[]};

use crate::loading::{STORES_SEVEN_AND_HALTS, loaded};
use image_load::Loaded;
use net_core::System;
use std::alloc::Global;
use std::test::Fail;
use tcc_base::NoMemory;
use tcc_msg::Event;
use tcc_pick::{Chooser, Recorder};

/// What a core's number stands for where there is none.
const NONE: u8 = 255;

/// Where a machine has come to.
#[derive(Clone, Copy, Debug, PartialEq, Eq)]
struct State {
    events: u64,
    done: bool,
    useful: u64,
    /// Whether one more event is chosen.
    goes_on: bool,
    /// How many events were told.
    told: u64,
    /// The cores of the first of them, which execute.
    first: [u8; 5],
    /// The cores of the commits, by rising TID.
    commits: [u8; 5],
}

/// The core that an event executes on.
fn executes(e: &Event) -> u8 {
    match e {
        Event::Exec(core) => core.0,
        _ => NONE,
    }
}

/// What was told of a machine's events.
#[derive(Clone, Copy, Debug)]
struct Told {
    count: u64,
    first: [u8; 5],
}

impl Recorder for Told {
    ghost bytes = { λ _. [] };

    ghost line = { λ _. [] };

    fn note(&mut self, event: &Event) -> Result<(), NoMemory> {
        if self.count < 5 {
            self.first[self.count as usize] = executes(event);
        }
        self.count = self.count.saturating_add(1);
        Ok(())
    }
}

/// The cores of a machine's first commits.
fn committers(system: &System) -> [u8; 5] {
    let mut cores = [NONE; 5];
    for (core, commit) in cores.iter_mut().zip(system.commits()) {
        *core = commit.core.0;
    }
    cores
}

/// Calls a chooser so often, each time for so many events at most, and tells where the machine is then.
fn observe(system: &mut System, seed: u64, calls: &[u8]) -> Result<State, Fail> {
    let mut chooser = Chooser::new(seed);
    let mut told = Told {
        count: 0,
        first: [NONE; 5],
    };
    for &steps in calls {
        if system.events() > 999 {
            return Err("the machine took more events than it was asked for")?;
        }
        chooser.run(system, u32::from(steps), &mut told)?;
    }
    system.settle()?;
    Ok(State {
        events: system.events(),
        done: system.done(),
        useful: system.useful_count(),
        goes_on: chooser.next(system).is_some(),
        told: told.count,
        first: told.first,
        commits: committers(system),
    })
}

/// The state after such calls from the machine's start.
fn state_after(alloc: Global, loaded: &Loaded, seed: u64, calls: &[u8]) -> Result<State, Fail> {
    let mut system = System::start(alloc, loaded)?;
    observe(&mut system, seed, calls)
}

/// Calls of a seed's chooser, and what comes of them.
#[derive(Clone, Copy)]
struct Row<'a> {
    seed: u64,
    calls: &'a [u8],
    state: State,
}

#[test]
fn a_seed_decides_what_comes(rt: HostRuntime) -> Result<(), Fail> {
    let ended = State {
        events: 44,
        done: true,
        useful: 0,
        goes_on: false,
        told: 44,
        first: [1, 1, 1, 0, 1],
        commits: [1, 0, 1, 0, NONE],
    };
    let rows = [
        Row {
            seed: 0,
            calls: &[100],
            state: ended,
        },
        Row {
            seed: 0,
            calls: &[43],
            state: State {
                events: 43,
                done: false,
                useful: 1,
                goes_on: true,
                told: 43,
                ..ended
            },
        },
        Row {
            seed: 0,
            calls: &[20, 0, 23, 9],
            state: ended,
        },
        Row {
            seed: 5,
            calls: &[100],
            state: State {
                events: 45,
                told: 45,
                first: [0, 0, 1, 1, 0],
                commits: [0, 1, 0, 1, NONE],
                ..ended
            },
        },
    ];
    let loaded = loaded(rt.alloc(), 2, 2, [&STORES_SEVEN_AND_HALTS, &[]])?;
    for row in &rows {
        assert_eq!(rt;
            state_after(rt.alloc(), &loaded, row.seed, row.calls)?,
            row.state
        );
    }
    Ok(())
}
