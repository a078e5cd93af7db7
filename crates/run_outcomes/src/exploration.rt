// The states that a search has found, and the transactions that lead to each of them.
ghost use Rattle.std.specs.Prelude.{◌≡◌, ℕ, ◌<◌, ◌≤◌, IfOk, IsFalse, IsTrue, IsSomeAnd, length, map, reverse};
ghost use Rattle.image_load.specs.Contents.{started};
ghost use Rattle.rv_code.specs.Machine.{program};
ghost use Rattle.rv_plain.specs.Machine.{plain_start};
ghost use Rattle.rv_plain.specs.PlainState.{order_of};
ghost use Rattle.rules_program.specs.Plain.{serial};
ghost use Rattle.run_outcomes.specs.Counted.{Counts, all_running};
ghost use Rattle.run_outcomes.specs.Edges.{AreAllEdges, AreEdges};
ghost use Rattle.run_outcomes.specs.Explored.{AreFound, AreLed, AreOnce, AreAllStates, IsOpen, state_at, way_at};
ghost use Rattle.run_outcomes.specs.Tried.{HasTried};
ghost use Rattle.run_outcomes.specs.Ways.{LeadFrom, orders_from, orders_to};
ghost use Rattle.run_outcomes.specs.States.{machine_of};

use crate::next::Executor;
use crate::search::{Edge, Limits, Pair, Search, Way};
use crate::states::{Snapshot, state_in};
use image_load::Loaded;
use rv_plain::Order;
use std::alloc::Global;
use std::marker::Model;
use tcc_base::{List, NoMemory, Tid};

/// The states that a search has found.
#[derive(Debug, Drop)]
pub struct Exploration {
    alloc: Global,
    executor: Executor,
    states: List<Snapshot>,
    ways: List<Way>,
    edges: List<Edge>,
    transactions: u64,
    endless: u64,
    endless_at: Option<Pair>,
    done: bool,
}

impl Model for Exploration {
    ghost use Rattle.std.specs.Prelude.{IsTrue};
    ghost use Rattle.run_outcomes.specs.Edges.{AreAllEdges, AreEdges};
    ghost use Rattle.run_outcomes.specs.Explored.{AreFound, AreLed, AreAllStates};
    ghost use Rattle.run_outcomes.specs.Ways.{Explored};

    ghost Value = { Explored };

    ghost view = { λ e. record {
      loaded = e.executor;
      states = e.states;
      ways = e.ways;
      edges = e.edges;
      transactions = e.transactions;
      endless = e.endless;
      endless_at = e.endless_at;
      done = e.done;
    } };

    ghost invariant = { λ e. AreFound e.executor e.states × AreLed e.executor e.states e.ways
        × (IsTrue e.done → AreAllStates e.executor e.states) × AreEdges e.executor e.states e.edges
        × (IsTrue e.done → AreAllEdges e.executor e.states e.edges) };
}

/// Executes the next transaction of each core from each state that it finds, breadth first from the program's start, until there is no
/// new state or would be one more than `limits.states`. A transaction of more than `limits.longest` instructions is left out, and
/// noted as endless.
///
/// `done` is true only where each serial execution of the program ends in one of the states that were found; some serial execution
/// leads to each of them, and none is found twice. It is false only where a transaction was noted as endless, or where `limits.states`
/// states were found and some serial execution ends in a further one. The time is that of the instructions, and for each transaction of
/// what the state holds.
///
/// What is counted and noted is exact also where it is false: the states are taken by their numbers, in each the cores by theirs, up to
/// the first transaction that leads to a state for which there is no room.
pub fn explore(alloc: Global, loaded: &Loaded, limits: Limits) -> Result<Exploration, NoMemory>
    requires { 1 ≤ limits.states }
    ensures loaded { IfOk result (λ e. e.loaded ≡ loaded.now) }
    ensures found { IfOk result (λ e. AreFound e.loaded e.states) }
    ensures led { IfOk result (λ e. AreLed e.loaded e.states e.ways) }
    ensures once { IfOk result (λ e. AreOnce e.loaded e.states) }
    ensures few { IfOk result (λ e. length e.states ≤ limits.states) }
    ensures all { IfOk result (λ e. IsTrue e.done → AreAllStates e.loaded e.states) }
    ensures transactions { IfOk result (λ e. IsTrue e.done → Counts e.transactions
        (all_running e.loaded.settings.cores e.states (length e.states))) }
    ensures open { IfOk result (λ e. IsFalse e.done → IsOpen e.loaded e.states limits.states e.endless) }
    ensures tried { IfOk result (λ e. HasTried limits e) }
{
    let mut search = Search::new(alloc, loaded)?;
    let full = search.go(limits)?;
    let done = !full && search.endless == 0;
    Ok(Exploration {
        alloc,
        executor: search.executor,
        states: search.table.into_states(),
        ways: search.ways,
        edges: search.edges,
        transactions: search.transactions,
        endless: search.endless,
        endless_at: search.endless_at,
        done,
    })
}

impl Exploration {
    /// Whether all states were found. Constant time.
    pub fn done(&self) -> bool
        ensures done { result ≡ self.now.done }
        ensures all { IsTrue result → AreAllStates self.now.loaded self.now.states }
        ensures found { AreFound self.now.loaded self.now.states }
    {
        self.done
    }

    /// The number of states. Constant time.
    pub fn len(&self) -> usize
        ensures { result ≡ length self.now.states }
    {
        self.states.items.len()
    }

    /// The state of that number, from 0, in the order in which they were found. Constant time.
    pub fn state(&self, number: usize) -> &Snapshot
        requires { number < length self.now.states }
        ensures { result.now ≡ state_at self.now.states number }
    {
        state_in(&self.states.items, number)
    }

    /// From which state a transaction leads to which: where all states were found, of each core that runs, in each state.
    pub(crate) fn edges(&self) -> &[Edge]
        ensures edges { result.now ≡ self.now.edges }
        ensures right { AreEdges self.now.loaded self.now.states self.now.edges }
        ensures all { IsTrue self.now.done → AreAllEdges self.now.loaded self.now.states self.now.edges }
        ensures found { AreFound self.now.loaded self.now.states }
    {
        &self.edges.items
    }

    /// How many transactions were executed: where all states were found, one of each core that runs, in each state. Stays at the
    /// largest number once it has come to it. Constant time.
    pub fn transactions(&self) -> u64
        ensures { result ≡ self.now.transactions }
    {
        self.transactions
    }

    /// Of how many pairs of a state and a core the next transaction didn't end. Constant time.
    pub fn endless(&self) -> u64
        ensures { result ≡ self.now.endless }
    {
        self.endless
    }

    /// Of the first of these pairs the state and the core; None where there is none. Constant time.
    pub fn endless_at(&self) -> Option<Pair>
        ensures { result ≡ self.now.endless_at }
    {
        self.endless_at
    }

    /// The orders, under the TIDs 1, 2, 3 and so on, whose serial execution leads from the program's start to the state of that number.
    /// Takes time in their number.
    pub fn way(&self, number: usize) -> Result<List<Order>, NoMemory>
        requires { number < length self.now.states }
        ensures orders { IfOk result (λ orders. map order_of orders ≡ orders_to self.now.ways number) }
        ensures leads { IfOk result (λ orders. IsSomeAnd (serial self.now.loaded.settings.base (program (started self.now.loaded)) 0
            (map order_of orders) (plain_start (started self.now.loaded)))
            (λ r. machine_of self.now.loaded (state_at self.now.states number) ≡ r.0)) }
    {
        let ways = steps_back(self.alloc, &self.ways, number)?;
        orders_of(self.alloc, &ways.items)
    }
}

/// The transaction by which the state of that number was found.
fn way_to(ways: &List<Way>, number: usize) -> Way
    requires { number < length ways.now }
    ensures { result ≡ way_at ways.now number }
{
    ways.items[number]
}

/// The transactions that lead to a state, the last one first.
fn steps_back(alloc: Global, ways: &List<Way>, number: usize) -> Result<List<Way>, NoMemory>
    requires inside { number < length ways.now }
    requires back { (i : ℕ) → 0 < i → i < length ways.now → (way_at ways.now i).from < i }
    ensures { IfOk result (LeadFrom ways.now 0 number) }
{
    let mut back = List::new(alloc);
    let mut at = number;
    while at > 0 {
        let way = way_to(ways, at);
        back.push(way)?;
        at = way.from as usize;
    }
    Ok(back)
}

/// These transactions, of which the last comes first, as orders.
fn orders_of(alloc: Global, back: &[Way]) -> Result<List<Order>, NoMemory>
    ensures { IfOk result (λ orders. map order_of orders ≡ orders_from 1 (reverse back.now)) }
{
    let mut orders = List::new(alloc);
    let mut k = back.len();
    while k > 0 {
        k -= 1;
        let way = back[k];
        orders.push(Order {
            tid: Tid((back.len() - k) as u64),
            core: way.core,
            n: way.n,
        })?;
    }
    Ok(orders)
}
