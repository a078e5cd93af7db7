// The states of the plain machine that a search has found, each with a number, and found again by what it holds.
ghost use Rattle.std.specs.Prelude.{◌≡◌, ℕ, ◌<◌, ◌≤◌, IfOk, OnOk, OnErr, IfSome, IfNone, [], ◌∷◌, ◌++◌, length};
ghost use Rattle.std.specs.Prelude.{IsTrue, Contains, ◌↔◌, map, slice_index_or};
ghost use Rattle.run_outcomes.specs.Chains.{AreChained};
ghost use Rattle.rv_plain.specs.Cores.{no_state};
ghost use Rattle.run_outcomes.specs.Digests.{state_digest};
ghost use Rattle.run_outcomes.specs.Explored.{state_at};
ghost use Rattle.run_outcomes.specs.States.{after_core, IsNumbered, IsPlaced};

use crate::chains::Chains;
use crate::digests::digest;
use rv_plain::CoreState;
use std::alloc::Global;
use std::marker::Model;
use tcc_base::{CoreId, List, NoMemory};

/// A state of the plain machine between two transactions: each core, and the words in which RAM differs from the start, each with its
/// value.
#[derive(Debug, Drop)]
pub struct Snapshot {
    pub cores: List<CoreState>,
    pub changes: List<(u32, u32)>,
}

/// What became of a state that was to be added.
#[derive(Clone, Copy, Debug, PartialEq, Eq)]
pub(crate) enum Place {
    /// It is the state of that number.
    Known(usize),
    /// It is a new one, of that number.
    New(usize),
    /// It is none of them, and there may be no further one.
    Full,
}

/// The same core state.
fn copy_core(alloc: Global, core: &CoreState) -> Result<CoreState, NoMemory>
    ensures { IfOk result (λ copy. copy ≡ core.now) }
{
    let console = core.console.items.to_vec(alloc).map_err(|_| NoMemory)?;
    Ok(CoreState {
        state: core.state,
        ended: core.ended,
        console: List { items: console },
    })
}

/// The same core states, in memory for no more.
fn copy_cores(alloc: Global, cores: &[CoreState]) -> Result<List<CoreState>, NoMemory>
    ensures { IfOk result (λ copy. copy ≡ cores.now) }
{
    let mut copy = Vec::with_capacity(alloc, cores.len()).map_err(|_| NoMemory)?;
    for core in cores {
        copy.push(copy_core(alloc, core)?).map_err(|_| NoMemory)?;
    }
    Ok(List { items: copy })
}

/// The state after a transaction of one of its cores. Takes time and memory in the cores and what they have printed.
pub(crate) fn next_state(
    alloc: Global,
    state: &Snapshot,
    core: CoreId,
    after: CoreState,
    changes: List<(u32, u32)>,
) -> Result<Snapshot, NoMemory>
    requires { core.0 < length state.now.cores }
    ensures { IfOk result (λ next. next ≡ after_core state.now core.0 after changes) }
{
    let mut cores = copy_cores(alloc, &state.cores.items)?;
    cores.items[core.0 as usize] = after;
    Ok(Snapshot { cores, changes })
}

fn is_same_core(a: &CoreState, b: &CoreState) -> bool
    ensures { IsTrue result ↔ (a.now ≡ b.now) }
{
    a.state == b.state && a.ended == b.ended && a.console.items == b.console.items
}

fn are_same_cores(a: &[CoreState], b: &[CoreState]) -> bool
    ensures { IsTrue result ↔ (a.now ≡ b.now) }
{
    if a.len() != b.len() {
        return false;
    }
    for (k, core) in a.iter().enumerate() {
        if !is_same_core(core, &b[k]) {
            return false;
        }
    }
    true
}

pub(crate) fn are_same_changes(a: &[(u32, u32)], b: &[(u32, u32)]) -> bool
    ensures { IsTrue result ↔ (a.now ≡ b.now) }
{
    if a.len() != b.len() {
        return false;
    }
    for (k, change) in a.iter().enumerate() {
        if change.0 != b[k].0 || change.1 != b[k].1 {
            return false;
        }
    }
    true
}

pub(crate) fn is_same(a: &Snapshot, b: &Snapshot) -> bool
    ensures { IsTrue result ↔ (a.now ≡ b.now) }
{
    are_same_cores(&a.cores.items, &b.cores.items)
        && are_same_changes(&a.changes.items, &b.changes.items)
}

pub(crate) fn state_in(states: &[Snapshot], number: usize) -> &Snapshot
    requires { number < length states.now }
    ensures { result.now ≡ state_at states.now number }
{
    &states[number]
}

/// Which of these states this one is; None exactly where it is none of them.
fn find(states: &[Snapshot], chains: &Chains, digest: u64, state: &Snapshot) -> Option<usize>
    requires chained { AreChained (map state_digest states.now) chains.now }
    requires digest { digest ≡ state_digest state.now }
    ensures found { IfSome result (IsNumbered states.now state.now) }
    ensures absent { IfNone result (Contains states.now state.now → ⊥) }
{
    let mut next = chains.newest(digest);
    while let Some(number) = next {
        if is_same(state_in(states, number), state) {
            return Some(number);
        }
        next = chains.older(number);
    }
    None
}

/// Makes room for a further state and, where there is none, for a quarter more than there are: after it has doubled, half of the memory
/// would be empty.
fn make_room(states: &mut List<Snapshot>) -> Result<(), NoMemory>
    ensures { states.new ≡ states.old }
{
    let count = states.items.len();
    if count < states.items.capacity() {
        return Ok(());
    }
    states
        .items
        .reserve_exact(count / 4 + 16)
        .map_err(|_| NoMemory)
}

/// The states that were found, in the order of their numbers.
#[derive(Debug, Drop)]
pub(crate) struct Table {
    states: List<Snapshot>,
    chains: Chains,
}

impl Model for Table {
    ghost use Rattle.std.specs.Prelude.{List, map};
    ghost use Rattle.run_outcomes.specs.Chains.{AreChained};
    ghost use Rattle.run_outcomes.specs.Digests.{state_digest};
    ghost use Rattle.run_outcomes.specs.declared.states.Snapshot.{Snapshot};

    ghost Value = { List Snapshot };

    ghost view = { λ t. t.states };

    ghost invariant = { λ t. AreChained (map state_digest t.states) t.chains };
}

impl Table {
    pub(crate) fn new(alloc: Global) -> Table
        ensures { result ≡ [] }
    {
        Table {
            states: List::new(alloc),
            chains: Chains::new(alloc),
        }
    }

    /// Adds the first state.
    pub(crate) fn add_first(&mut self, state: Snapshot) -> Result<(), NoMemory>
        ensures { OnOk result (self.new ≡ self.old ++ state ∷ []) }
    {
        let digest = digest(&state);
        self.push(digest, state)
    }

    /// Adds a state, by its digest; after want of memory the table is as before.
    fn push(&mut self, digest: u64, state: Snapshot) -> Result<(), NoMemory>
        requires { digest ≡ state_digest state }
        ensures pushed { OnOk result (self.new ≡ self.old ++ state ∷ []) }
        ensures unchanged { OnErr result (self.new ≡ self.old) }
    {
        make_room(&mut self.states)?;
        self.states.push(state)?;
        match self.chains.add(digest) {
            Ok(()) => Ok(()),
            Err(e) => {
                self.states.pop();
                Err(e)
            }
        }
    }

    /// The states by themselves, without the memory that finds them.
    pub(crate) fn into_states(self) -> List<Snapshot>
        ensures { result ≡ self }
    {
        self.states
    }

    pub(crate) fn len(&self) -> usize
        ensures { result ≡ length self.now }
    {
        self.states.items.len()
    }

    pub(crate) fn state(&self, number: usize) -> &Snapshot
        requires { number < length self.now }
        ensures { result.now ≡ state_at self.now number }
    {
        state_in(&self.states.items, number)
    }

    /// Adds a state that isn't there yet, where fewer than `limit` are.
    pub(crate) fn add(&mut self, state: Snapshot, limit: usize) -> Result<Place, NoMemory>
        ensures placed { IfOk result (IsPlaced self.old self.new state limit) }
        ensures unchanged { OnErr result (self.new ≡ self.old) }
    {
        let digest = digest(&state);
        if let Some(number) = find(&self.states.items, &self.chains, digest, &state) {
            return Ok(Place::Known(number));
        }
        if self.len() >= limit {
            return Ok(Place::Full);
        }
        let number = self.len();
        self.push(digest, state)?;
        Ok(Place::New(number))
    }
}
