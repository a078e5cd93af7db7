// All of the work: the workers side by side, and one after them.
ghost use Rattle.std.specs.Prelude.{◌≡◌, ◌==◌, ◌≤◌, ◌<◌, ◌^◌, IfOk, IfErr, if◌then◌else◌};
ghost use Rattle.tcc_workers.specs.declared.plan.Ended.TheVariants.{Full, Quiet};
ghost use Rattle.tcc_base.specs.Limits.{run_limit};

use crate::plan::{Ended, WorkPlan};
use crate::slots::{do_shares, hand_out, take_back};
use crate::turns::AtFarm;
use node_locks::{Farm, Setup, Ticket};
use std::alloc::Global;
use std::sync::Wait;
use std::sync::ledger::Ledger;
use std::thread::Threads;
use tcc_base::NoMemory;
use tcc_world::Gate;

/// Worker w, from 1 to `threads`, takes turns at the nodes of the farm: its turn k, from 0, is at node (w + k) mod nodes, after
/// `gate.pass(w, k)`. In a turn the node acts under one lock, each time with the next word of the generator of `seed + w` as its pick, up
/// to the first act that doesn't move. A turn has `batch` acts at most, and no more than the worker has events left to do. The worker ends
/// when `steps / threads` of its acts moved, after 1024 turns in a row that moved nothing, or at want of memory.
///
/// Then, where no worker met want of memory, the calling thread goes round as worker 0: its turn k is at node k mod nodes, with the
/// generator of `seed`, until `steps` events were done in all, a whole round moved nothing, or there is no memory.
///
/// The ticket comes back whole, counting the events that were done, with how the work ended or with want of memory. Where no thread can
/// be made the workers run one after another. The time is that of the acts.
pub fn work<
    W: Setup + Send + Sync,
    E: Ledger + Send + Sync,
    T: Ledger + Send + Sync,
    R: Threads + Wait + Sync,
    G: Gate + Sync,
>(
    rt: &R,
    alloc: Global,
    farm: &Farm<W, E, T>,
    ticket: Ticket<T>,
    plan: &WorkPlan,
    gate: &G,
) -> Result<(Ticket<T>, Ended), (Ticket<T>, NoMemory)>
    requires threads { (1 ≤ plan.now.threads) × (plan.now.threads ≤ 16) }
    requires steps { plan.now.steps ≤ run_limit }
    requires batch { (1 ≤ plan.now.batch) × (plan.now.batch ≤ 1024) }
    requires fresh { ticket.moved ≡ 0 }
    requires parts { (17 ≤ ticket.parts) × (ticket.parts < 2 ^ 32) }
    ensures parts { IfOk result (λ r. r.0.parts ≡ ticket.parts) }
    ensures parts_back { IfErr result (λ e. e.0.parts ≡ ticket.parts) }
    ensures few { IfOk result (λ r. r.0.moved ≤ plan.now.steps) }
    ensures few_back { IfErr result (λ e. e.0.moved ≤ plan.now.steps) }
    ensures ended { IfOk result (λ r. r.1 ≡ (if r.0.moved == plan.now.steps then Full else Quiet)) }
{
    let mut ticket = ticket;
    if work_together(rt, alloc, farm, &mut ticket, plan, gate).is_err() {
        return Err((ticket, NoMemory));
    }
    if plan
        .rounds(farm.nodes())
        .take_turns(&AtFarm { rt, farm, gate }, &mut ticket)
        .is_err()
    {
        return Err((ticket, NoMemory));
    }
    let ended = if ticket.moved() == plan.steps {
        Ended::Full
    } else {
        Ended::Quiet
    };
    Ok((ticket, ended))
}

/// The workers' part of the work. An error is want of memory, of a worker or for the slots; either way the ticket has come back whole.
fn work_together<
    W: Setup + Send + Sync,
    E: Ledger + Send + Sync,
    T: Ledger + Send + Sync,
    R: Threads + Wait + Sync,
    G: Gate + Sync,
>(
    rt: &R,
    alloc: Global,
    farm: &Farm<W, E, T>,
    ticket: &mut Ticket<T>,
    plan: &WorkPlan,
    gate: &G,
) -> Result<(), NoMemory>
    requires threads { (1 ≤ plan.now.threads) × (plan.now.threads ≤ 16) }
    requires steps { plan.now.steps ≤ run_limit }
    requires batch { (1 ≤ plan.now.batch) × (plan.now.batch ≤ 1024) }
    requires fresh { ticket.old.moved ≡ 0 }
    requires parts { (17 ≤ ticket.old.parts) × (ticket.old.parts < 2 ^ 32) }
    ensures parts { ticket.new.parts ≡ ticket.old.parts }
    ensures few { ticket.new.moved ≤ plan.now.steps }
{
    let mut slots = hand_out(alloc, ticket, plan.threads)?;
    do_shares(rt, farm, &mut slots, plan, gate);
    take_back(ticket, slots)
}
