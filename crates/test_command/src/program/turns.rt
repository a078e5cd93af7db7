// The record of a run on host threads is the merge of what the machine's nodes log in these turns: here one thread takes them by hand.

ghost use Rattle.std.specs.Prelude.{◌≡◌, ◌<◌};
ghost use Rattle.rules_apart.specs.Fitting.{node_count};

use super::runs::COUNT;
use super::{Given, Held, Host, answer_at, image, over};
use apart_node::Act;
use crossbeam_utils::atomic::AtomicCell;
use image_load::{Loaded, load, raw};
use node_locks::Nodes;
use rand_core::SeedableRng;
use rand_core::utils::NextWord;
use rand_pcg::Lcg64Xsh32;
use schedule_text::read;
use stamp_merge::merge;
use std::alloc::Global;
use std::sync::Wait;
use std::test::Fail;
use std::thread;
use tcc_base::{Config, List, NoMemory};
use tcc_msg::Schedule;
use tcc_world::Gate;

/// Each core adds 1 to the word at 80000040, nine times, each time in a transaction, and halts.
const COUNT_9: &[u32] = &[
    0x80000337, 0x00900393, 0x04032283, 0x00128293, 0x04532023, 0x00000073, 0xfff38393, 0xfe0396e3,
    0x05d00893, 0x00000073,
];

/// How many workers take turns here, with worker 0.
const WORKERS: usize = 4;

/// More turns than any of them takes.
const TURNS: u64 = 1_000_000;

/// A run on host threads: how many, at how many nodes, and in which order they take turns. Each leg is of one worker, until it has taken so
/// many turns in all. After the last leg no turn finds anything to do.
#[derive(Clone, Copy)]
struct Run<'a> {
    image: &'a [u32],
    cores: u64,
    dirs: u64,
    threads: u64,
    seed: u64,
    steps: u64,
    /// How many acts a turn has at most.
    batch: u64,
    legs: &'a [(u32, u64)],
    /// Of the program.
    status: u8,
}

/// A worker that takes its turns by hand.
#[derive(Drop)]
struct Worker {
    number: u64,
    words: Lcg64Xsh32,
    taken: u64,
    moved: u64,
    /// How many turns in a row found nothing to do.
    idle: u32,
}

/// How many acts of a node moved: it acts with the next words, up to the first act that doesn't move, and at most so often.
fn act_up_to<R: Wait>(
    rt: &R,
    nodes: &mut Nodes,
    node: u32,
    words: &mut Lcg64Xsh32,
    most: u64,
) -> Result<u64, NoMemory>
    requires { node < node_count nodes.old.code.settings }
    ensures { nodes.new.code ≡ nodes.old.code }
{
    for moved in 0..most {
        match nodes.act(rt, node, words.next_word()) {
            Act::Moved => {}
            Act::Idle => return Ok(moved),
            Act::Memory => return Err(NoMemory),
        }
    }
    Ok(most)
}

impl Worker {
    fn new(seed: u64, number: u64) -> Worker {
        Worker {
            number,
            words: Lcg64Xsh32::seed_from_u64(seed.wrapping_add(number)),
            taken: 0,
            moved: 0,
            idle: 0,
        }
    }

    /// Its turn k is at the node (number + k) mod n, where it acts `most` times at most.
    fn turn<R: Wait>(&mut self, rt: &R, nodes: &mut Nodes, most: u64) -> Result<(), NoMemory> {
        let count = nodes.count();
        let node = self.number.wrapping_add(self.taken) % u64::from(count);
        let moved = act_up_to(rt, nodes, node as u32, &mut self.words, most)?;
        self.taken = self.taken.wrapping_add(1);
        self.moved = self.moved.wrapping_add(moved);
        self.idle = if moved > 0 {
            0
        } else {
            self.idle.wrapping_add(1)
        };
        Ok(())
    }

    /// Turns until it has taken those of its pace, so many of its acts moved, or so many turns in a row found nothing to do.
    fn turns<R: Wait>(&mut self, rt: &R, nodes: &mut Nodes, pace: &Pace) -> Result<(), NoMemory> {
        for _ in 0..TURNS {
            if self.taken >= pace.until || self.moved >= pace.most || self.idle == pace.patience {
                break;
            }
            let left = pace.most.wrapping_sub(self.moved);
            self.turn(rt, nodes, pace.batch.min(left))?;
        }
        Ok(())
    }
}

/// How far a worker goes.
#[derive(Clone, Copy)]
struct Pace {
    /// So many turns in all.
    until: u64,
    /// So many acts in all that moved.
    most: u64,
    /// So many turns in a row that found nothing to do.
    patience: u32,
    /// So many acts in a turn at most.
    batch: u64,
}

/// How many acts have moved.
fn moved(workers: &[Worker]) -> u64 {
    workers
        .iter()
        .fold(0u64, |sum, worker| sum.wrapping_add(worker.moved))
}

/// All turns of a run, by its legs and then each worker's to its end, and those of worker 0 after them. How many each worker takes.
fn take_all(rt: &impl Host, nodes: &mut Nodes, run: &Run) -> Result<[u64; WORKERS], Fail> {
    let mut workers = [0, 1, 2, 3].map(|number| Worker::new(run.seed, number));
    let share = Pace {
        until: TURNS,
        most: run.steps / run.threads.max(1),
        patience: 1024,
        batch: run.batch,
    };
    for (number, until) in run.legs {
        if let Some(worker) = workers.get_mut(*number as usize) {
            worker.turns(
                rt,
                nodes,
                &Pace {
                    until: *until,
                    ..share
                },
            )?;
        }
    }
    let by_legs = moved(&workers);
    for worker in &mut workers {
        if 1 <= worker.number && worker.number <= run.threads {
            worker.turns(rt, nodes, &share)?;
        }
    }
    let by_all = moved(&workers);
    if !run.legs.is_empty() {
        assert_eq!(rt; by_legs, by_all, "there is more to do after the last leg");
    }
    let rounds = Pace {
        most: run.steps.wrapping_sub(by_all),
        patience: nodes.count(),
        ..share
    };
    workers[0].turns(rt, nodes, &rounds)?;
    Ok(workers.map(|worker| worker.taken))
}

/// What the nodes have logged, merged.
fn merged<R: Wait>(rt: &R, alloc: Global, nodes: Nodes) -> Result<Schedule, NoMemory> {
    let Ok(logs) = nodes.close(rt, alloc) else {
        return Err(NoMemory);
    };
    merge(alloc, &logs)
}

/// A run's image in the memory of its machine.
fn loaded(alloc: Global, run: &Run) -> Result<Loaded, Fail> {
    let config = Config::new(run.cores, run.dirs, 16, 2, 0x8000_0000, 65_536)?;
    let file = List {
        items: image(alloc, run.image)?,
    };
    Ok(load(alloc, &config, &raw(alloc, &config, &[file])?)?)
}

/// The schedule of a run whose turns are taken by hand, and how many each worker takes.
fn by_hand(rt: &impl Host, alloc: Global, run: &Run) -> Result<(Schedule, [u64; WORKERS]), Fail> {
    let mut nodes = Nodes::new(alloc, &loaded(alloc, run)?)?;
    let taken = take_all(rt, &mut nodes, run)?;
    Ok((merged(rt, alloc, nodes)?, taken))
}

/// A gate at which the workers take turns leg by leg, and after the legs at will: each waits until the worker of the leg before its own
/// comes for a turn that is no more of that leg, so that all turns of the leg are over. It gives up after ten million looks.
#[derive(Drop)]
struct InLegs<'a> {
    legs: &'a [(u32, u64)],
    /// How often each worker came.
    came: [AtomicCell<u64>; WORKERS],
    /// Another worker came, or one with another number than that of its next turn.
    strange: AtomicCell<bool>,
    gave_up: AtomicCell<bool>,
}

impl<'a> InLegs<'a> {
    fn new(legs: &'a [(u32, u64)]) -> Self {
        InLegs {
            legs,
            came: [
                AtomicCell::new(0),
                AtomicCell::new(0),
                AtomicCell::new(0),
                AtomicCell::new(0),
            ],
            strange: AtomicCell::new(false),
            gave_up: AtomicCell::new(false),
        }
    }

    /// The leg before the one to which a turn belongs.
    fn leg_before(&self, worker: u32, turn: u64) -> Option<(u32, u64)> {
        let mut before = None;
        for (other, until) in self.legs {
            if *other == worker && turn < *until {
                break;
            }
            before = Some((*other, *until));
        }
        before
    }

    fn wait_for_end(&self, leg: (u32, u64)) {
        let Some(came) = self.came.get(leg.0 as usize) else {
            return;
        };
        for _ in 0..10_000_000 {
            if came.load() > leg.1 || self.gave_up.load() {
                return;
            }
            thread::yield_now();
        }
        self.gave_up.store(true);
    }
}

impl<'a> Gate for InLegs<'a> {
    fn pass(&self, worker: u32, turn: u64) {
        let Some(came) = self.came.get(worker as usize) else {
            self.strange.store(true);
            return;
        };
        if came.fetch_add(1) != turn {
            self.strange.store(true);
        }
        if worker != 0 {
            if let Some(leg) = self.leg_before(worker, turn) {
                self.wait_for_end(leg);
            }
        }
    }
}

/// What the program answers to a run, at a gate.
fn answer_of(rt: &impl Host, alloc: Global, run: &Run, gate: &InLegs) -> Result<Given, Fail> {
    let command = format!(in alloc;
        "run --raw --threads {} --batch {} --cores {} --dirs {} --seed {} --steps {} --record s a",
        run.threads, run.batch, run.cores, run.dirs, run.seed, run.steps
    )?;
    let words: Vec<&str> = command.as_str().split_whitespace().collect(alloc)?;
    answer_at(
        rt,
        alloc,
        &words,
        &over(&[("a", Held::Image(run.image))]),
        gate,
    )
}

/// The program's record is the schedule of the turns by hand, and each worker came to the gate as often, once before each turn. A schedule
/// has one spelling, so equal schedules are equal bytes.
fn check(rt: &impl Host, alloc: Global, run: &Run) -> Result<(), Fail> {
    let gate = InLegs::new(run.legs);
    let given = answer_of(rt, alloc, run, &gate)?;
    let record = given.record.ok_or("no record was written")?;
    let Ok(recorded) = read(alloc, &record) else {
        return Err("the record is no schedule")?;
    };
    let (schedule, taken) = by_hand(rt, alloc, run)?;
    assert!(rt; !gate.gave_up.load() && !gate.strange.load());
    for (came, times) in gate.came.iter().zip(&taken) {
        assert_eq!(rt; came.load(), *times);
    }
    assert_eq!(rt; recorded.config, schedule.config);
    assert!(rt; recorded.events.items == schedule.events.items);
    assert_eq!(rt; given.status, run.status);
    Ok(())
}

/// To the end, on two cores and two directories.
const WHOLE: Run = Run {
    image: COUNT,
    cores: 2,
    dirs: 2,
    threads: 1,
    seed: 5,
    steps: 1_000_000,
    batch: 1,
    legs: &[],
    status: 0,
};

/// Runs whose schedules are determined: one worker takes all turns, or worker 0 alone, since no event is for one of sixteen.
const DETERMINED: [Run; 14] = [
    WHOLE,
    Run {
        image: COUNT_9,
        seed: 0,
        ..WHOLE
    },
    Run {
        image: COUNT_9,
        seed: 6,
        ..WHOLE
    },
    Run {
        image: COUNT_9,
        seed: 0xffff_ffff_ffff_ffff,
        ..WHOLE
    },
    Run {
        cores: 4,
        dirs: 3,
        image: COUNT_9,
        ..WHOLE
    },
    Run {
        steps: 100,
        status: 1,
        ..WHOLE
    },
    Run {
        cores: 4,
        dirs: 3,
        steps: 301,
        status: 1,
        ..WHOLE
    },
    Run {
        threads: 16,
        steps: 15,
        status: 1,
        ..WHOLE
    },
    Run {
        threads: 2,
        steps: 1,
        status: 1,
        ..WHOLE
    },
    Run {
        image: COUNT_9,
        batch: 2,
        ..WHOLE
    },
    Run {
        image: COUNT_9,
        seed: 7,
        batch: 64,
        ..WHOLE
    },
    Run {
        cores: 4,
        dirs: 3,
        image: COUNT_9,
        batch: 1024,
        ..WHOLE
    },
    Run {
        steps: 100,
        batch: 7,
        status: 1,
        ..WHOLE
    },
    Run {
        cores: 4,
        dirs: 3,
        steps: 301,
        batch: 64,
        status: 1,
        ..WHOLE
    },
];

#[test]
fn a_determined_record_is_that_of_turns_by_hand(rt: HostRuntime) -> Result<(), Fail> {
    for run in &DETERMINED {
        check(&rt, rt.alloc(), run)?;
    }
    Ok(())
}

/// Runs whose workers a gate holds up.
const HELD: [Run; 7] = [
    Run {
        image: COUNT_9,
        threads: 2,
        legs: &[(1, 7), (2, 5), (1, 20), (2, 31), (1, 200), (2, 1400)],
        ..WHOLE
    },
    Run {
        image: COUNT_9,
        threads: 2,
        seed: 8,
        legs: &[(2, 40), (1, 3), (2, 41), (1, 90), (2, 1500)],
        ..WHOLE
    },
    Run {
        image: COUNT_9,
        threads: 3,
        legs: &[(3, 4), (1, 9), (2, 6), (3, 30), (2, 25), (1, 40), (3, 1600)],
        ..WHOLE
    },
    Run {
        image: COUNT_9,
        cores: 4,
        dirs: 3,
        threads: 3,
        seed: 9,
        legs: &[(2, 50), (3, 60), (1, 70), (2, 51), (3, 150), (1, 4600)],
        ..WHOLE
    },
    Run {
        image: COUNT_9,
        threads: 2,
        batch: 3,
        legs: &[(1, 4), (2, 5), (1, 12), (2, 31), (1, 90), (2, 900)],
        ..WHOLE
    },
    Run {
        image: COUNT_9,
        threads: 3,
        seed: 11,
        batch: 64,
        legs: &[(3, 2), (1, 5), (2, 3), (3, 9), (2, 12), (1, 20), (3, 900)],
        ..WHOLE
    },
    Run {
        image: COUNT_9,
        cores: 4,
        dirs: 3,
        threads: 2,
        seed: 12,
        batch: 5,
        legs: &[(2, 9), (1, 30), (2, 31), (1, 60), (2, 1500)],
        ..WHOLE
    },
];

#[test]
fn several_threads_record_their_turns(rt: HostRuntime) -> Result<(), Fail> {
    for run in &HELD {
        check(&rt, rt.alloc(), run)?;
    }
    Ok(())
}
