// The nodes of a machine behind locks, at which threads take turns, and the one schedule of what they did.
ghost use Rattle.std.specs.Prelude.{◌≡◌, ◌≤◌, [], All, IfOk};
ghost use Rattle.image_load.specs.Contents.{started};
ghost use Rattle.node_locks.specs.Turns.{entries_in};
ghost use Rattle.node_locks.specs.Wiring.{links_of, logs_of};
ghost use Rattle.rules_apart.specs.Fitting.{FitLogs, node_count};
ghost use Rattle.apart_run.specs.Joined.{IsMergedRun};
ghost use Rattle.tcc_base.specs.Limits.{run_limit};

use image_load::Loaded;
use node_locks::{Farm, Nodes, Setup};
use rules_apart::Logs;
use stamp_merge::merge;
use std::alloc::Global;
use std::marker::Brand;
use std::sync::Wait;
use std::sync::ledger::{Blank, Ledger};
use std::thread::Threads;
use tcc_base::NoMemory;
use tcc_msg::Schedule;
use tcc_workers::{WorkPlan, work};
use tcc_world::Gate;

/// Into so many parts the right to take turns can be cut: more than there are workers.
const PARTS: u64 = 64;

/// What the nodes have logged once the plan's threads have taken turns at them.
fn logs_after<
    W: Setup + Send + Sync,
    E: Ledger + Send + Sync,
    T: Ledger + Send + Sync,
    R: Threads + Wait + Sync,
    G: Gate + Sync,
>(
    rt: &R,
    alloc: Global,
    nodes: Nodes,
    entries: Blank,
    turns: Blank,
    plan: &WorkPlan,
    gate: &G,
) -> Result<Logs, NoMemory>
    requires threads { (1 ≤ plan.now.threads) × (plan.now.threads ≤ 16) }
    requires steps { plan.now.steps ≤ run_limit }
    requires batch { (1 ≤ plan.now.batch) × (plan.now.batch ≤ 1024) }
    requires code { nodes.code ≡ W.code }
    requires link { W.link ≡ links_of nodes }
    requires logs { All (λ log. log ≡ []) (logs_of nodes.nodes) }
    requires entries { (entries.name ≡ E.name) × (entries.parts ≡ E.parts) × (E.parts ≡ node_count W.code.settings) }
    requires turns { (turns.name ≡ T.name) × (turns.parts ≡ T.parts) × (T.parts ≡ 64) }
    ensures fits { IfOk result (λ l. FitLogs (started nodes.code) l.by_node) }
    ensures config { IfOk result (λ l. l.config ≡ nodes.code.settings) }
    ensures few { IfOk result (λ l. entries_in l.by_node ≤ plan.now.steps) }
{
    let (farm, ticket) = Farm::<W, E, T>::new(alloc, nodes, entries, turns)?;
    let Ok((ticket, _)) = work(rt, alloc, &farm, ticket, plan, gate) else {
        return Err(NoMemory);
    };
    let Ok(logs) = farm.close(rt, alloc, ticket) else {
        return Err(NoMemory);
    };
    Ok(logs)
}

/// The schedule of what the plan's threads do: each node by itself, its events in its own log, and all logs merged.
pub(crate) fn run_apart<R: Threads + Wait + Sync, G: Gate + Sync>(
    rt: &R,
    alloc: Global,
    loaded: &Loaded,
    plan: &WorkPlan,
    gate: &G,
) -> Result<Schedule, NoMemory>
    requires threads { (1 ≤ plan.now.threads) × (plan.now.threads ≤ 16) }
    requires steps { plan.now.steps ≤ run_limit }
    requires batch { (1 ≤ plan.now.batch) × (plan.now.batch ≤ 1024) }
    ensures { IfOk result (λ s. IsMergedRun (started loaded.now) plan.now.steps s.events) }
{
    let nodes = Nodes::new(alloc, loaded)?;
    let entries = Blank::new(u64::from(nodes.count()));
    let turns = Blank::new(PARTS);
    let logs = logs_after::<Brand, Brand, Brand, R, G>(
        rt, alloc, nodes, entries, turns, plan, gate,
    )?;
    merge(alloc, &logs)
}
