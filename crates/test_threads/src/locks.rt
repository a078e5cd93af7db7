// A small machine by its nodes: in one thread, and behind locks in two.
ghost use Rattle.std.specs.Prelude.{◌≡◌, ℕ, ◌+◌, ◌^◌, ◌<◌, ◌≤◌, [], All, IfOk};
ghost use Rattle.rules_apart.specs.Fitting.{node_count};
ghost use Rattle.node_locks.specs.Wiring.{links_of, logs_of};

use crate::images::loaded;
use apart_node::Act;
use node_locks::{Farm, Nodes, Setup, Ticket};
use rand_core::SeedableRng;
use rand_pcg::Lcg64Xsh32;
use rules_apart::Logs;
use std::alloc::Global;
use std::marker::Brand;
use std::sync::Wait;
use std::sync::ledger::{Blank, Ledger};
use std::test::*;
use std::thread;
use std::thread::Threads;
use tcc_base::Config;

// lui x6,0x80000; sw x11,64(x6); ecall
const STORES_16: [u8; 12] = [
    0x37, 0x03, 0x00, 0x80, 0x23, 0x20, 0xb3, 0x04, 0x73, 0x00, 0x00, 0x00,
];

// Two cores, two directories and the vendor; both cores store to one word.
fn start(alloc: Global) -> Result<Nodes, Fail>
    ensures logs { IfOk result (λ n. All (λ log. log ≡ []) (logs_of n.nodes)) }
{
    let config = Config::new(2, 2, 4, 1, 0x8000_0000, 65_536)?;
    Ok(Nodes::new(alloc, &loaded(alloc, &config, &STORES_16)?)?)
}

// How many entries the logs have.
pub(crate) fn entries(logs: &Logs) -> u64 {
    let mut count: u64 = 0;
    for log in logs.by_node.items.as_slice() {
        count = count.wrapping_add(log.items.len() as u64);
    }
    count
}

fn act<R: Wait>(rt: &R, nodes: &mut Nodes, k: u32) -> Act {
    let node = k % nodes.count();
    nodes.act(rt, node, k)
}

#[test]
fn in_one_thread(rt: HostRuntime) -> Result<(), Fail> {
    let alloc = rt.alloc();
    let mut nodes = start(alloc)?;
    let mut moved: u64 = 0;
    let mut idle: u32 = 0;
    for k in 0..100_000u32 {
        if act(&rt, &mut nodes, k) == Act::Moved {
            moved = moved.wrapping_add(1);
            idle = 0;
        } else {
            idle = idle.wrapping_add(1);
        }
        if idle == 10 {
            break;
        }
    }
    assert!(rt; moved > 20);
    let Ok(logs) = nodes.close(&rt, alloc) else {
        return Err("out of memory".into());
    };
    assert_eq!(rt; entries(&logs), moved);
    Ok(())
}

// Turns of all nodes, of one act each, until none moves for two rounds.
fn work<W: Setup, E: Ledger, T: Ledger, R: Wait>(
    rt: &R,
    farm: &Farm<W, E, T>,
    ticket: Ticket<T>,
) -> Ticket<T>
    requires none { ticket.moved ≡ 0 }
    requires some { 0 < ticket.parts }
    ensures parts { result.parts ≡ ticket.parts }
    ensures few { result.moved ≤ 100000 }
{
    let mut ticket = ticket;
    let mut words = Lcg64Xsh32::seed_from_u64(0);
    let mut idle: u32 = 0;
    for k in 0..100_000u32 {
        let acts = farm.turn(rt, k % farm.nodes(), &mut words, 1, &mut ticket);
        if acts.moved() > 0 {
            idle = 0;
        } else {
            idle = idle.wrapping_add(1);
        }
        if idle == 10 {
            break;
        }
    }
    ticket
}

// The entries of all logs and the turns that moved, of two threads.
fn by_two<
    W: Setup + Send + Sync,
    E: Ledger + Send + Sync,
    T: Ledger + Send + Sync,
    R: Threads + Wait + Sync,
>(rt: &R, alloc: Global, nodes: Nodes, marks: Blank, turns: Blank) -> Result<(u64, u64), Fail>
    requires code { nodes.code ≡ W.code }
    requires link { W.link ≡ links_of nodes }
    requires logs { All (λ log. log ≡ []) (logs_of nodes.nodes) }
    requires marks { (marks.name ≡ E.name) × (marks.parts ≡ E.parts) × (E.parts ≡ node_count W.code.settings) }
    requires turns { (turns.name ≡ T.name) × (turns.parts ≡ T.parts) × (T.parts ≡ 64) }
{
    let Ok((farm, ticket)) = Farm::<W, E, T>::new(alloc, nodes, marks, turns) else {
        return Err("out of memory".into());
    };
    let mut ticket = ticket;
    let other = ticket.split();
    let shared = &farm;
    let (mut all, more) = thread::join(
        rt,
        move || -> Ticket<T>
            requires { (ticket.moved ≡ 0) × (ticket.parts ≡ 63) }
            ensures { (result.parts ≡ 63) × (result.moved ≤ 100000) }
        { work(rt, shared, ticket) },
        move || -> Ticket<T>
            requires { (other.moved ≡ 0) × (other.parts ≡ 1) }
            ensures { (result.parts ≡ 1) × (result.moved ≤ 100000) }
        { work(rt, shared, other) },
    );
    all.join(more);
    let moved = all.moved();
    match farm.close(rt, alloc, all) {
        Ok(logs) => Ok((entries(&logs), moved)),
        Err(_) => Err("out of memory".into()),
    }
}

fn two_threads<R: Threads + Wait + Sync>(rt: &R, alloc: Global) -> Result<(u64, u64), Fail> {
    let nodes = start(alloc)?;
    let count = nodes.count();
    by_two::<Brand, Brand, Brand, R>(rt, alloc, nodes, Blank::new(count as u64), Blank::new(64))
}

#[test]
fn behind_locks(rt: HostRuntime) -> Result<(), Fail> {
    let (entries, moved) = two_threads(&rt, rt.alloc())?;
    assert!(rt; moved > 20);
    assert_eq!(rt; entries, moved);
    Ok(())
}
