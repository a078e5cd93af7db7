// The search: breadth first through the states of the plain machine, each transaction of each core from each of them.
ghost use Rattle.std.specs.Prelude.{◌≡◌, ℕ, ◌+◌, ◌*◌, ◌<◌, ◌≤◌, ◌/◌, IfOk, OnOk, IfSome, IfNone, IsFalse, IsTrue, Some, None};
ghost use Rattle.std.specs.Prelude.{length, slice_index_or};
ghost use Rattle.image_load.specs.Contents.{started};
ghost use Rattle.rv_plain.specs.Cores.{core_of, no_state};
ghost use Rattle.rv_plain.specs.Machine.{plain_start, start_core};
ghost use Rattle.run_outcomes.specs.Changes.{AreInside};
ghost use Rattle.run_outcomes.specs.Next.{IsNext};
ghost use Rattle.run_outcomes.specs.Counted.{Counts, all_running, running, runs};
ghost use Rattle.run_outcomes.specs.Explored.{AreFound, AreLed, AreAllStates, HasFurther, IsGrown, IsNoted, state_at};
ghost use Rattle.run_outcomes.specs.Edges.{AreAllEdges, AreEdges, IsEdgedAt, IsJoined};
ghost use Rattle.run_outcomes.specs.States.{core_in};
ghost use Rattle.run_outcomes.specs.Tried.{AreTried, AreTriedTo, out_if};

use crate::chains::small;
use crate::next::{Executor, Next};
use crate::states::{Place, Snapshot, Table, next_state};
use image_load::Loaded;
use rv_code::start_state;
use rv_plain::CoreState;
use std::alloc::Global;
use tcc_base::{CoreEnd, CoreId, List, NoMemory};

/// How far a search goes.
#[derive(Clone, Copy, Debug, PartialEq, Eq)]
pub struct Limits {
    /// The most states.
    pub states: usize,
    /// The most instructions of a transaction.
    pub longest: u32,
}

/// The transaction by which a state was found: from which state, of which core, and of how many instructions.
#[derive(Clone, Copy, Debug, PartialEq, Eq)]
pub(crate) struct Way {
    pub(crate) from: u32,
    pub(crate) core: CoreId,
    pub(crate) n: u32,
}

/// A transaction leads from the one state to the other, each by its number.
#[derive(Clone, Copy, Debug, PartialEq, Eq)]
pub(crate) struct Edge {
    pub(crate) from: u32,
    pub(crate) to: u32,
}

/// A state, by its number, and one of its cores.
#[derive(Clone, Copy, Debug, PartialEq, Eq)]
pub struct Pair {
    pub state: usize,
    pub core: CoreId,
}

/// What a search has found so far.
#[derive(Debug, Drop)]
pub(crate) struct Search {
    pub(crate) alloc: Global,
    pub(crate) executor: Executor,
    pub(crate) table: Table,
    pub(crate) ways: List<Way>,
    pub(crate) edges: List<Edge>,
    pub(crate) transactions: u64,
    pub(crate) endless: u64,
    pub(crate) endless_at: Option<Pair>,
}

fn first_core(alloc: Global, cores: u8, core: u8, entry: u32) -> CoreState
    ensures { core_of result ≡ start_core cores core entry }
{
    CoreState {
        state: start_state(cores, core, entry),
        ended: CoreEnd::Run,
        console: List::new(alloc),
    }
}

/// Each core at its entry.
fn first_cores(alloc: Global, loaded: &Loaded) -> Result<List<CoreState>, NoMemory>
    ensures length { IfOk result (λ cores. length cores ≡ loaded.now.settings.cores) }
    ensures each { IfOk result (λ cores. (k : ℕ) → k < loaded.now.settings.cores
        → core_of (slice_index_or cores k no_state) ≡ start_core loaded.now.settings.cores k ((started loaded.now).entry k)) }
{
    let count = loaded.config().cores();
    let mut cores = List::new(alloc);
    for core in 0..count {
        cores.push(first_core(alloc, count, core, loaded.entry(CoreId(core))))?;
    }
    Ok(cores)
}

/// The program's start, as the one state that is found without a transaction.
fn first_table(alloc: Global, loaded: &Loaded) -> Result<Table, NoMemory>
    ensures found { IfOk result (AreFound loaded.now) }
    ensures one { IfOk result (λ table. length table ≡ 1) }
{
    let cores = first_cores(alloc, loaded)?;
    let mut table = Table::new(alloc);
    table.add_first(Snapshot {
        cores,
        changes: List::new(alloc),
    })?;
    Ok(table)
}

/// What stands in the place of the transaction that leads to the start.
fn first_ways(alloc: Global) -> Result<List<Way>, NoMemory>
    ensures { IfOk result (λ ways. length ways ≡ 1) }
{
    let mut ways = List::new(alloc);
    ways.push(Way {
        from: 0,
        core: CoreId(0),
        n: 0,
    })?;
    Ok(ways)
}

/// The next transaction of a core of a state.
fn next_in(
    executor: &mut Executor,
    state: &Snapshot,
    core: CoreId,
    longest: u32,
) -> Result<Next, NoMemory>
    requires core { core.0 < length state.now.cores }
    requires inside { AreInside (executor.old.settings.ram / 4) state.now.changes }
    ensures next { IfOk result (IsNext executor.old (core_in state.now core.0) state.now.changes longest) }
    ensures unchanged { executor.new ≡ executor.old }
{
    executor.next(
        &state.cores.items[core.0 as usize],
        &state.changes.items,
        longest,
    )
}

/// Notes the edge from the state of this number to another one, and the way to that where it is new.
fn note(
    ways: &mut List<Way>,
    edges: &mut List<Edge>,
    place: Place,
    number: usize,
    core: CoreId,
    n: u32,
) -> Result<(), NoMemory>
    ensures ways { OnOk result (IsNoted ways.old ways.new place (record { from = number; core = core; n = n })) }
    ensures edges { OnOk result (IsJoined edges.old edges.new place number) }
{
    let from = small(number)?;
    match place {
        Place::Known(to) => edges.push(Edge {
            from,
            to: small(to)?,
        }),
        Place::New(to) => {
            ways.push(Way { from, core, n })?;
            edges.push(Edge {
                from,
                to: small(to)?,
            })
        }
        Place::Full => Ok(()),
    }
}

/// The first of these pairs.
fn first_of(first: Option<Pair>, pair: Pair) -> Option<Pair>
    ensures kept { IfSome first (λ known. result ≡ Some known) }
    ensures new { IfNone first (result ≡ Some pair) }
{
    match first {
        Some(known) => Some(known),
        None => Some(pair),
    }
}

impl Search {
    /// The search before its first transaction.
    pub(crate) fn new(alloc: Global, loaded: &Loaded) -> Result<Search, NoMemory>
        ensures loaded { IfOk result (λ s. s.executor ≡ loaded.now) }
        ensures found { IfOk result (λ s. AreFound s.executor s.table) }
        ensures led { IfOk result (λ s. AreLed s.executor s.table s.ways) }
        ensures edges { IfOk result (λ s. AreEdges s.executor s.table s.edges) }
        ensures one { IfOk result (λ s. length s.table ≡ 1) }
        ensures none { IfOk result (λ s. s.transactions ≡ 0) }
        ensures tried { IfOk result (λ s. (longest : ℕ)
            → AreTried s.executor s.table longest 0 None s.transactions s.endless s.endless_at) }
    {
        let table = first_table(alloc, loaded)?;
        let ways = first_ways(alloc)?;
        let executor = Executor::new(alloc, loaded)?;
        Ok(Search {
            alloc,
            executor,
            table,
            ways,
            edges: List::new(alloc),
            transactions: 0,
            endless: 0,
            endless_at: None,
        })
    }

    /// Adds the state after the next transaction of a core of a state; true where there is a further state, and no room for it.
    fn reach(&mut self, number: usize, core: CoreId, limits: Limits) -> Result<bool, NoMemory>
        requires found { AreFound self.old.executor self.old.table }
        requires led { AreLed self.old.executor self.old.table self.old.ways }
        requires edges { AreEdges self.old.executor self.old.table self.old.edges }
        requires tried { AreTried self.old.executor self.old.table limits.longest (number * self.old.executor.settings.cores + core.0) None
            self.old.transactions self.old.endless self.old.endless_at }
        requires number { number < length self.old.table }
        requires core { core.0 < self.old.executor.settings.cores }
        ensures found { OnOk result (AreFound self.new.executor self.new.table) }
        ensures led { OnOk result (AreLed self.new.executor self.new.table self.new.ways) }
        ensures edges { OnOk result (AreEdges self.new.executor self.new.table self.new.edges) }
        ensures tried { IfOk result (λ full. AreTried self.new.executor self.new.table limits.longest
            (number * self.old.executor.settings.cores + core.0 + 1) (out_if full (number * self.old.executor.settings.cores + core.0))
            self.new.transactions self.new.endless self.new.endless_at) }
        ensures loaded { self.new.executor ≡ self.old.executor }
        ensures grown { OnOk result (IsGrown self.old.table self.new.table) }
        ensures joined { OnOk result (IsGrown self.old.edges self.new.edges) }
        ensures few { OnOk result (length self.old.table ≤ limits.states → length self.new.table ≤ limits.states) }
        ensures edged { IfOk result (λ full. IsFalse full → self.new.endless ≡ 0
            → IsEdgedAt self.new.executor self.new.table self.new.edges number core.0) }
        ensures counted { IfOk result (λ full. IsFalse full → self.new.endless ≡ 0 → Counts self.new.transactions
            (self.old.transactions + runs (core_in (state_at self.old.table number) core.0).ended)) }
        ensures endless { self.old.endless ≤ self.new.endless }
        ensures limit { IfOk result (λ full. IsTrue full → limits.states ≤ length self.new.table) }
        ensures further { IfOk result (λ full. IsTrue full → HasFurther self.new.executor self.new.table) }
    {
        let state = self.table.state(number);
        let next = next_in(&mut self.executor, state, core, limits.longest)?;
        match next {
            Next::Stopped => Ok(false),
            Next::Endless => {
                let pair = Pair {
                    state: number,
                    core,
                };
                self.endless = self.endless.saturating_add(1);
                self.endless_at = first_of(self.endless_at, pair);
                Ok(false)
            }
            Next::Leads {
                n,
                core: after,
                changes,
            } => {
                self.transactions = self.transactions.saturating_add(1);
                let left = next_state(self.alloc, state, core, after, changes)?;
                let place = self.table.add(left, limits.states)?;
                note(&mut self.ways, &mut self.edges, place, number, core, n)?;
                Ok(place == Place::Full)
            }
        }
    }

    /// Adds the states after the next transactions of all cores of a state; true where there is a further state, and no room for it.
    #[tactic(auto, unfolding(crate::specs::Counted::total))]
    fn expand(&mut self, number: usize, limits: Limits) -> Result<bool, NoMemory>
        requires found { AreFound self.old.executor self.old.table }
        requires led { AreLed self.old.executor self.old.table self.old.ways }
        requires edges { AreEdges self.old.executor self.old.table self.old.edges }
        requires tried { AreTried self.old.executor self.old.table limits.longest (number * self.old.executor.settings.cores) None
            self.old.transactions self.old.endless self.old.endless_at }
        requires number { number < length self.old.table }
        ensures found { OnOk result (AreFound self.new.executor self.new.table) }
        ensures led { OnOk result (AreLed self.new.executor self.new.table self.new.ways) }
        ensures edges { OnOk result (AreEdges self.new.executor self.new.table self.new.edges) }
        ensures tried { IfOk result (λ full. AreTriedTo self.new.executor self.new.table limits.longest
            ((number + 1) * self.old.executor.settings.cores) full self.new.transactions self.new.endless self.new.endless_at) }
        ensures loaded { self.new.executor ≡ self.old.executor }
        ensures grown { OnOk result (IsGrown self.old.table self.new.table) }
        ensures joined { OnOk result (IsGrown self.old.edges self.new.edges) }
        ensures few { OnOk result (length self.old.table ≤ limits.states → length self.new.table ≤ limits.states) }
        ensures edged { IfOk result (λ full. IsFalse full → self.new.endless ≡ 0
            → (core : ℕ) → IsEdgedAt self.new.executor self.new.table self.new.edges number core) }
        ensures counted { IfOk result (λ full. IsFalse full → self.new.endless ≡ 0 → Counts self.new.transactions
            (self.old.transactions + running (state_at self.old.table number) self.old.executor.settings.cores)) }
        ensures endless { self.old.endless ≤ self.new.endless }
        ensures limit { IfOk result (λ full. IsTrue full → limits.states ≤ length self.new.table) }
        ensures further { IfOk result (λ full. IsTrue full → HasFurther self.new.executor self.new.table) }
    {
        let count = self.executor.cores();
        for core in 0..count {
            if self.reach(number, CoreId(core), limits)? {
                return Ok(true);
            }
        }
        Ok(false)
    }

    /// Goes through all states, up to the limit; true where the limit ended it, and there is a further state.
    #[tactic(auto, unfolding(crate::specs::Counted::total))]
    pub(crate) fn go(&mut self, limits: Limits) -> Result<bool, NoMemory>
        requires found { AreFound self.old.executor self.old.table }
        requires led { AreLed self.old.executor self.old.table self.old.ways }
        requires edges { AreEdges self.old.executor self.old.table self.old.edges }
        requires tried { AreTried self.old.executor self.old.table limits.longest 0 None
            self.old.transactions self.old.endless self.old.endless_at }
        requires few { length self.old.table ≤ limits.states }
        requires none { self.old.transactions ≡ 0 }
        ensures found { OnOk result (AreFound self.new.executor self.new.table) }
        ensures led { OnOk result (AreLed self.new.executor self.new.table self.new.ways) }
        ensures edges { OnOk result (AreEdges self.new.executor self.new.table self.new.edges) }
        ensures tried { IfOk result (λ full. AreTriedTo self.new.executor self.new.table limits.longest
            (length self.new.table * self.new.executor.settings.cores) full self.new.transactions self.new.endless self.new.endless_at) }
        ensures loaded { self.new.executor ≡ self.old.executor }
        ensures few { OnOk result (length self.new.table ≤ limits.states) }
        ensures all { IfOk result (λ full. IsFalse full → self.new.endless ≡ 0 → AreAllStates self.new.executor self.new.table) }
        ensures all_edges { IfOk result (λ full. IsFalse full → self.new.endless ≡ 0
            → AreAllEdges self.new.executor self.new.table self.new.edges) }
        ensures counted { IfOk result (λ full. IsFalse full → self.new.endless ≡ 0 → Counts self.new.transactions
            (all_running self.new.executor.settings.cores self.new.table (length self.new.table))) }
        ensures limit { IfOk result (λ full. IsTrue full → length self.new.table ≡ limits.states) }
        ensures further { IfOk result (λ full. IsTrue full → HasFurther self.new.executor self.new.table) }
    {
        let mut number = 0;
        while number < self.table.len() {
            if self.expand(number, limits)? {
                return Ok(true);
            }
            number += 1;
        }
        Ok(false)
    }
}
