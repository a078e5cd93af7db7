// The useful events that aren't held back: counted, by number, and as a list.
ghost use Rattle.std.specs.Prelude.{◌≡◌, ◌+◌, ◌<◌, ◌≤◌, ◌^◌, [], IfOk, length, map, option_map, slice_get, true, false};
ghost use Rattle.rules_maps.specs.Nodes.{Core, Deliver, Vendor};
ghost use Rattle.tcc_msg.specs.Plain.{event_of};
ghost use Rattle.rules_tcc.specs.Useful.{event_before};
ghost use Rattle.tcc_phase.specs.Choosing.{IsPassed, held_in, passed_by};
ghost use Rattle.tcc_phase.specs.Phased.{useful_in};

use crate::system::PhaseSystem;
use rules_tcc::useful_events_are_listed;
use std::alloc::Global;
use tcc_base::{List, NoMemory, NodeId};
use tcc_msg::{Event, Name};

/// Whether an event stands before the request of that number of a core in the order of useful events.
fn stands_before(e: Event, core: u8, seq: u64) -> bool
    ensures { result ≡ event_before (event_of e) (Deliver (Core core) Vendor seq) }
{
    match e {
        Event::Deliver(
            Name {
                src: NodeId::Core(src),
                dst,
                seq: number,
            },
        ) => src.0 < core || src.0 == core && (dst != NodeId::Vendor || number < seq),
        Event::Deliver(_) => false,
        Event::Exec(_) | Event::Evict(_, _, _) => true,
    }
}

impl PhaseSystem {
    /// How many useful events aren't held back, where all that was sent stands on its links. It takes constant time.
    pub fn useful_count(&self) -> u64
        requires { self.now.refined.machine.unsent ≡ [] }
        ensures { result ≡ length (useful_in self.now.refined.machine) }
    {
        useful_events_are_listed();
        self.refined.system().useful_count() - self.standing.held.len() as u64
    }

    /// Whether the request of number `row` among those that are held back stands at the useful event k + row or before it.
    fn is_passed(&self, k: u64, row: usize) -> bool
        requires settled { self.now.refined.machine.unsent ≡ [] }
        requires row { row < held_in self.now.refined.machine }
        requires few { k + row < 2 ^ 64 }
        ensures passed { result ≡ true → row < passed_by self.now.refined.machine (k + row + 1) }
        ensures not_yet { result ≡ false → passed_by self.now.refined.machine (k + row + 1) ≤ row }
    {
        useful_events_are_listed();
        let core = self.standing.held[row];
        let seq = self.standing.asked[core as usize];
        match self.refined.system().useful_at(k + row as u64) {
            Some(e) => !stands_before(e, core, seq),
            None => true,
        }
    }

    /// How many that are held back stand before the k-th useful event that isn't.
    fn passed(&self, k: u64) -> usize
        requires settled { self.now.refined.machine.unsent ≡ [] }
        requires few { k + held_in self.now.refined.machine < 2 ^ 64 }
        ensures passed { IsPassed self.now.refined.machine k result }
        ensures few { result ≤ held_in self.now.refined.machine }
    {
        useful_events_are_listed();
        let mut low = 0;
        let mut high = self.standing.held.len();
        while low < high {
            let middle = low + (high - low) / 2;
            if self.is_passed(k, middle) {
                low = middle + 1;
            } else {
                high = middle;
            }
        }
        low
    }

    /// The k-th useful event that isn't held back, from 0, in the order of `System::useful_at`. `None` exactly where there are no more
    /// than k. The time is that of `System::useful_at`; where requests are held back, times one more than the logarithm of their number.
    pub fn useful_at(&self, k: u64) -> Option<Event>
        requires { self.now.refined.machine.unsent ≡ [] }
        ensures { option_map event_of result ≡ slice_get (useful_in self.now.refined.machine) k }
    {
        useful_events_are_listed();
        let all = self.refined.system().useful_count();
        if k >= all - self.standing.held.len() as u64 {
            return None;
        }
        self.refined.system().useful_at(k + self.passed(k) as u64)
    }

    /// All useful events that aren't held back, in that order. Takes memory for them.
    pub fn useful(&self, alloc: Global) -> Result<List<Event>, NoMemory>
        requires { self.now.refined.machine.unsent ≡ [] }
        ensures { IfOk result (λ es. map event_of es ≡ useful_in self.now.refined.machine) }
    {
        let mut events = List::new(alloc);
        for k in 0..self.useful_count() {
            if let Some(e) = self.useful_at(k) {
                events.push(e)?;
            }
        }
        Ok(events)
    }
}
