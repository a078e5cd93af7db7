// Workers side by side: a slot for each, which its thread works in.
ghost use Rattle.std.specs.Prelude.{◌≡◌, ℕ, slice_index_or, Ok, ◌+◌, ◌/◌, ◌^◌, ◌<◌, ◌≤◌, All, IfOk, length, vec_len, is_ok, if◌then◌else◌};
ghost use Rattle.std.specs.List.{list_all, sum_by};
ghost use Rattle.tcc_base.specs.Limits.{run_limit};

use crate::plan::WorkPlan;
use crate::turns::AtFarm;
use node_locks::{Farm, Setup, Ticket};
use std::alloc::Global;
use std::sync::Wait;
use std::sync::ledger::Ledger;
use std::thread;
use std::thread::Threads;
use tcc_base::NoMemory;
use tcc_world::Gate;

/// A worker's number, its ticket, and what its work met.
#[derive(Drop)]
pub struct Slot<T: Ledger> {
    worker: u32,
    ticket: Ticket<T>,
    met: Result<(), NoMemory>,
    ghost one_part: { ticket.parts ≡ 1 },
}

impl<T: Ledger> Slot<T> {
    /// The slot of a worker that has done nothing.
    fn new(worker: u32, ticket: Ticket<T>) -> Slot<T>
        requires { ticket.parts ≡ 1 }
        ensures worker { result.worker ≡ worker }
        ensures ticket { result.ticket ≡ ticket }
        ensures met { result.met ≡ Ok tt }
    {
        Slot {
            worker,
            ticket,
            met: Ok(()),
        }
    }

    /// The worker does its share.
    fn do_share<W: Setup, E: Ledger, R: Wait, G: Gate>(
        &mut self,
        rt: &R,
        farm: &Farm<W, E, T>,
        plan: &WorkPlan,
        gate: &G,
    )
        requires threads { 0 < plan.now.threads }
        requires steps { plan.now.steps ≤ run_limit }
        requires batch { 1 ≤ plan.now.batch }
        requires fresh { self.old.ticket.moved ≡ 0 }
        ensures few { self.new.ticket.moved ≤ plan.now.steps / plan.now.threads }
    {
        self.met = plan
            .share(self.worker)
            .take_turns(&AtFarm { rt, farm, gate }, &mut self.ticket);
    }
}

/// A slot for each worker, by number from 1 on, with a part of the ticket. Where there is no memory for them, the ticket is as it was.
pub fn hand_out<T: Ledger>(
    alloc: Global,
    ticket: &mut Ticket<T>,
    threads: u8,
) -> Result<Vec<Slot<T>>, NoMemory>
    requires parts { threads < ticket.old.parts }
    ensures count { IfOk result (λ slots. vec_len slots ≡ threads) }
    ensures numbers { IfOk result (λ slots. (k : ℕ) (d : _) → k < threads → (slice_index_or slots.items k d).worker ≡ k + 1) }
    ensures fresh { IfOk result (λ slots. All (λ s. s.ticket.moved ≡ 0) slots.items) }
    ensures parts { ticket.new.parts + (if is_ok result then threads else 0) ≡ ticket.old.parts }
    ensures moved { ticket.new.moved ≡ ticket.old.moved }
{
    let Ok(mut slots) = Vec::with_capacity(alloc, usize::from(threads)) else {
        return Err(NoMemory);
    };
    for worker in 0..threads {
        slots.push_reserved(Slot::new(u32::from(worker) + 1, ticket.split()));
    }
    Ok(slots)
}

/// All workers do their shares, each in a thread of its own where threads can be made, and one after another where not.
pub fn do_shares<
    W: Setup + Send + Sync,
    E: Ledger + Send + Sync,
    T: Ledger + Send + Sync,
    R: Threads + Wait + Sync,
    G: Gate + Sync,
>(rt: &R, farm: &Farm<W, E, T>, slots: &mut [Slot<T>], plan: &WorkPlan, gate: &G)
    requires threads { 0 < plan.now.threads }
    requires steps { plan.now.steps ≤ run_limit }
    requires batch { 1 ≤ plan.now.batch }
    requires fresh { All (λ s. s.ticket.moved ≡ 0) slots.old }
    ensures count { length slots.new ≡ length slots.old }
    ensures few { All (λ s. s.ticket.moved ≤ plan.now.steps / plan.now.threads) slots.new }
{
    thread::for_each_mut(
        rt,
        slots,
        usize::from(plan.threads),
        &|_, slot: &mut Slot<T>|
            requires { (0 < plan.now.threads) × (plan.now.steps ≤ run_limit) × (1 ≤ plan.now.batch) × (slot.old.ticket.moved ≡ 0) }
            ensures { slot.new.ticket.moved ≤ plan.entry.now.steps / plan.entry.now.threads }
        { slot.do_share(rt, farm, plan, gate) },
    );
}

/// The ticket takes all tickets back, and then counts what they counted. An error where one of the workers met want of memory.
pub fn take_back<T: Ledger>(ticket: &mut Ticket<T>, slots: Vec<Slot<T>>) -> Result<(), NoMemory>
    requires moved { ticket.old.moved + sum_by (λ s. s.ticket.moved) slots.items < 2 ^ 63 }
    requires parts { ticket.old.parts + vec_len slots < 2 ^ 32 }
    ensures moved { ticket.new.moved ≡ ticket.old.moved + sum_by (λ s. s.ticket.moved) slots.items }
    ensures parts { ticket.new.parts ≡ ticket.old.parts + vec_len slots }
    ensures met { is_ok result ≡ list_all (λ s. is_ok s.met) slots.items }
{
    let mut slots = slots;
    let mut met = Ok(());
    while let Some(slot) = slots.pop() {
        ticket.join(slot.ticket);
        met = met.and(slot.met);
    }
    met
}
