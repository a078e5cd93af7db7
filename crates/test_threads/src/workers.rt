// Workers at the nodes of a machine of two cores, with ample memory.
ghost use Rattle.std.specs.Prelude.{◌≡◌, ◌<◌, ◌≤◌, [], All};
ghost use Rattle.rules_apart.specs.Fitting.{node_count};
ghost use Rattle.node_locks.specs.Wiring.{links_of, logs_of};
ghost use Rattle.tcc_base.specs.Limits.{run_limit};

use crate::images::{TURNS, adding};
use crate::locks::entries;
use crate::rounds::merged;
use apart_node::Act;
use apart_run::run_threads;
use crossbeam_utils::atomic::AtomicCell;
use image_load::Loaded;
use node_locks::{Farm, Nodes, Setup};
use rand_core::SeedableRng;
use rand_core::utils::NextWord;
use rand_pcg::Lcg64Xsh32;
use rules_apart::{Logged, Logs};
use std::alloc::Global;
use std::marker::Brand;
use std::process::Abort;
use std::sync::Wait;
use std::sync::ledger::{Blank, Ledger};
use std::test::Fail;
use std::thread;
use std::thread::Threads;
use tcc_base::{List, NoMemory};
use tcc_workers::{Ended, WorkPlan, work};
use tcc_world::{Gate, OpenGate};

/// How often a worker looks before it gives up waiting.
const LOOKS: u32 = 10_000_000;

/// A gate that counts each worker's passes, and at which the first two workers wait for one another: worker 1 before its first turn
/// until worker 2 has passed, and worker 2 before its second until worker 1 has.
#[derive(Drop)]
struct Meeting {
    passed: [AtomicCell<u64>; 3],
    gave_up: AtomicCell<bool>,
}

impl Meeting {
    fn new() -> Meeting {
        Meeting {
            passed: [AtomicCell::new(0), AtomicCell::new(0), AtomicCell::new(0)],
            gave_up: AtomicCell::new(false),
        }
    }

    fn wait_for(&self, other: &AtomicCell<u64>) {
        for _ in 0..LOOKS {
            if other.load() > 0 {
                return;
            }
            thread::yield_now();
        }
        self.gave_up.store(true);
    }
}

impl Gate for Meeting {
    fn pass(&self, worker: u32, turn: u64) {
        match (worker, turn) {
            (1, 0) => self.wait_for(&self.passed[2]),
            (2, 1) => self.wait_for(&self.passed[1]),
            _ => {}
        }
        if let Some(passed) = self.passed.get(worker as usize) {
            passed.fetch_add(1);
        }
    }
}

/// What comes of work at a farm: how it ended, how many acts moved, and all logs.
#[derive(Drop)]
struct Harvest {
    ended: Ended,
    moved: u64,
    logs: Logs,
}

/// Nodes behind locks, worked at, and closed.
fn farmed<
    W: Setup + Send + Sync,
    E: Ledger + Send + Sync,
    T: Ledger + Send + Sync,
    R: Threads + Wait + Sync,
    G: Gate + Sync,
>(
    rt: &R,
    alloc: Global,
    nodes: Nodes,
    entries: Blank,
    turns: Blank,
    plan: &WorkPlan,
    gate: &G,
) -> Result<Harvest, NoMemory>
    requires code { nodes.code ≡ W.code }
    requires link { W.link ≡ links_of nodes }
    requires logs { All (λ log. log ≡ []) (logs_of nodes.nodes) }
    requires entries { (entries.name ≡ E.name) × (entries.parts ≡ E.parts) × (E.parts ≡ node_count W.code.settings) }
    requires turns { (turns.name ≡ T.name) × (turns.parts ≡ T.parts) × (T.parts ≡ 64) }
    requires threads { (1 ≤ plan.now.threads) × (plan.now.threads ≤ 16) }
    requires steps { plan.now.steps ≤ run_limit }
    requires batch { (1 ≤ plan.now.batch) × (plan.now.batch ≤ 1024) }
{
    let (farm, ticket) = Farm::<W, E, T>::new(alloc, nodes, entries, turns)?;
    let Ok((ticket, ended)) = work(rt, alloc, &farm, ticket, plan, gate) else {
        return Err(NoMemory);
    };
    let moved = ticket.moved();
    match farm.close(rt, alloc, ticket) {
        Ok(logs) => Ok(Harvest { ended, moved, logs }),
        Err(_) => Err(NoMemory),
    }
}

/// The work of this plan at the nodes of the image.
fn worked<R: Threads + Wait + Sync, G: Gate + Sync>(
    rt: &R,
    alloc: Global,
    loaded: &Loaded,
    plan: &WorkPlan,
    gate: &G,
) -> Result<Harvest, NoMemory>
    requires threads { (1 ≤ plan.now.threads) × (plan.now.threads ≤ 16) }
    requires steps { plan.now.steps ≤ run_limit }
    requires batch { (1 ≤ plan.now.batch) × (plan.now.batch ≤ 1024) }
{
    let nodes = Nodes::new(alloc, loaded)?;
    let entries = Blank::new(u64::from(nodes.count()));
    farmed::<Brand, Brand, Brand, R, G>(rt, alloc, nodes, entries, Blank::new(64), plan, gate)
}

/// How many acts of a node moved: it acts up to the first act that doesn't move, and at most so often.
fn turn_by_hand<R: Wait>(
    rt: &R,
    nodes: &mut Nodes,
    node: u32,
    words: &mut Lcg64Xsh32,
    most: u64,
) -> Result<u64, NoMemory>
    requires { node < node_count nodes.old.code.settings }
    ensures { nodes.new.code ≡ nodes.old.code }
{
    for moved in 0..most {
        match nodes.act(rt, node, words.next_word()) {
            Act::Moved => {}
            Act::Idle => return Ok(moved),
            Act::Memory => return Err(NoMemory),
        }
    }
    Ok(most)
}

/// The nodes once worker 1 of the plan has ended, by itself: its turn k is at the node (1 + k) mod n, with the next words of the seed.
fn by_hand<R: Wait>(
    rt: &R,
    alloc: Global,
    loaded: &Loaded,
    plan: &WorkPlan,
) -> Result<Nodes, NoMemory> {
    let mut nodes = Nodes::new(alloc, loaded)?;
    let count = nodes.count();
    let mut words = Lcg64Xsh32::seed_from_u64(plan.seed.wrapping_add(1));
    let mut left = plan.steps;
    let mut idle = 0u32;
    for turn in 0..TURNS {
        if left == 0 || idle == 1024 {
            break;
        }
        let most = left.min(u64::from(plan.batch));
        let moved = turn_by_hand(rt, &mut nodes, (1 + turn) % count, &mut words, most)?;
        left = left.wrapping_sub(moved);
        idle = if moved > 0 { 0 } else { idle.wrapping_add(1) };
    }
    Ok(nodes)
}

fn are_same(a: &[List<Logged>], b: &[List<Logged>]) -> bool {
    a.len() == b.len() && a.iter().zip(b).all(|(x, y)| x.items == y.items)
}

#[test]
fn two_workers_take_turns_and_end_quiet(rt: HostRuntime) -> Result<(), Fail> {
    let gate = Meeting::new();
    let plan = WorkPlan {
        threads: 2,
        steps: 1_000_000,
        seed: 7,
        batch: 1,
    };
    let loaded = adding(rt.alloc(), 1)?;
    let all = worked(&rt, rt.alloc(), &loaded, &plan, &gate)?;
    assert!(rt; !gate.gave_up.load(), "the workers didn't meet");
    assert_eq!(rt; all.ended, Ended::Quiet);
    assert!(rt; gate.passed[1].load() > 0 && gate.passed[2].load() > 1);
    // one round over the nodes
    assert_eq!(rt; gate.passed[0].load(), 4);
    Ok(())
}

/// One worker, by a seed, for so many events, with so many acts in a turn at most.
fn by_one(steps: u64, batch: u16) -> WorkPlan
    ensures threads { result.threads ≡ 1 }
    ensures steps { result.steps ≡ steps }
    ensures batch { result.batch ≡ batch }
{
    WorkPlan {
        threads: 1,
        steps,
        seed: 5,
        batch,
    }
}

/// The one worker of this plan does what its turns by hand do, and ends so.
fn check_worker<R: Abort + Threads + Wait + Sync>(
    rt: &R,
    alloc: Global,
    loaded: &Loaded,
    plan: &WorkPlan,
    ended: Ended,
) -> Result<(), Fail>
    requires threads { (1 ≤ plan.now.threads) × (plan.now.threads ≤ 16) }
    requires steps { plan.now.steps ≤ run_limit }
    requires batch { (1 ≤ plan.now.batch) × (plan.now.batch ≤ 1024) }
{
    let all = worked(rt, alloc, loaded, plan, &OpenGate)?;
    assert_eq!(rt; all.ended, ended);
    let nodes = by_hand(rt, alloc, loaded, plan)?;
    let Ok(logs) = nodes.close(rt, alloc) else {
        return Err("out of memory".into());
    };
    assert!(rt; are_same(&all.logs.by_node.items, &logs.by_node.items));
    assert_eq!(rt; all.moved, entries(&logs));
    Ok(())
}

#[test]
fn one_worker_acts_at_the_nodes_in_turn(rt: HostRuntime) -> Result<(), Fail> {
    let alloc = rt.alloc();
    let loaded = adding(alloc, 2)?;
    check_worker(&rt, alloc, &loaded, &by_one(30, 1), Ended::Full)?;
    check_worker(&rt, alloc, &loaded, &by_one(1_000_000, 1), Ended::Quiet)?;
    check_worker(&rt, alloc, &loaded, &by_one(31, 3), Ended::Full)?;
    check_worker(&rt, alloc, &loaded, &by_one(1_000_000, 3), Ended::Quiet)
}

/// The schedule of the run of this plan, of one worker, is the merge of what the worker's turns by hand log.
fn check_run<R: Abort + Threads + Wait + Sync>(
    rt: &R,
    alloc: Global,
    loaded: &Loaded,
    plan: &WorkPlan,
) -> Result<(), Fail>
    requires threads { (1 ≤ plan.now.threads) × (plan.now.threads ≤ 16) }
    requires steps { plan.now.steps ≤ run_limit }
    requires batch { (1 ≤ plan.now.batch) × (plan.now.batch ≤ 1024) }
{
    let refined = run_threads(rt, alloc, loaded, plan, &OpenGate)?;
    let nodes = by_hand(rt, alloc, loaded, plan)?;
    let schedule = merged(rt, alloc, nodes)?;
    assert!(rt; refined.taken() == schedule.events.items.as_slice());
    Ok(())
}

#[test]
fn a_run_is_the_merge_of_what_its_worker_did(rt: HostRuntime) -> Result<(), Fail> {
    let alloc = rt.alloc();
    let loaded = adding(alloc, 2)?;
    check_run(&rt, alloc, &loaded, &by_one(1_000_000, 1))?;
    check_run(&rt, alloc, &loaded, &by_one(1_000_000, 3))
}
