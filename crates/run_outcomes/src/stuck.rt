// The states from which no end is reached any more: those that no way backwards from the ends comes to.
ghost use Rattle.std.specs.Prelude.{◌≡◌, ℕ, ◌≤◌, ◌<◌, [], ◌∷◌, ◌++◌, IfOk, OnOk, IfSome, IfNone, IsTrue};
ghost use Rattle.std.specs.Prelude.{false, length, map, slice_index_or};
ghost use Rattle.run_outcomes.specs.Chains.{AreChained};
ghost use Rattle.run_outcomes.specs.Edges.{AreAllEdges, AreEdges, edge_at};
ghost use Rattle.run_outcomes.specs.Explored.{AreFound};
ghost use Rattle.run_outcomes.specs.HowMany.{HowMany, IsFirst, or_first};
ghost use Rattle.run_outcomes.specs.Stuck.{AreMarks, CanEnd, CannotEnd, left_over, with_mark};

use crate::chains::Chains;
use crate::exploration::Exploration;
use crate::outcomes::is_end;
use crate::search::Edge;
use std::alloc::Global;
use tcc_base::{List, NoMemory};

/// From how many states no transactions lead to an end of all cores, and the number of the first of them.
#[derive(Clone, Copy, Debug, PartialEq, Eq)]
pub struct Stuck {
    pub count: u64,
    pub first: Option<usize>,
}

/// The states from which an end is known to be reached, and those of them whose edges weren't followed backwards yet.
#[derive(Debug, Drop)]
struct Marks {
    marked: List<bool>,
    waiting: List<usize>,
}

/// So many states without a mark.
fn no_marks(alloc: Global, count: usize) -> Result<Marks, NoMemory>
    ensures sized { IfOk result (λ m. length m.marked ≡ count) }
    ensures none { IfOk result (λ m. (k : ℕ) → slice_index_or m.marked k false ≡ false) }
    ensures waiting { IfOk result (λ m. m.waiting ≡ []) }
{
    let mut marked = List::new(alloc);
    for k in 0..count {
        marked.push(false)?;
    }
    Ok(Marks {
        marked,
        waiting: List::new(alloc),
    })
}

/// Marks a state, unless it is marked. Constant time.
#[tactic(auto, unfolding(crate::specs::Stuck::with_mark))]
fn mark(marks: &mut Marks, k: usize) -> Result<(), NoMemory>
    requires { k < length marks.old.marked }
    ensures { OnOk result (marks.new ≡ with_mark marks.old k) }
{
    if marks.marked.items[k] {
        return Ok(());
    }
    marks.marked.items[k] = true;
    marks.waiting.push(k)
}

/// Marks the states in which all cores have ended.
fn mark_ends(explored: &Exploration, marks: &mut Marks) -> Result<(), NoMemory>
    requires found { AreFound explored.now.loaded explored.now.states }
    requires marks { AreMarks explored.now.loaded explored.now.states explored.now.edges 0 (length explored.now.states) marks.old }
    ensures { OnOk result (AreMarks explored.now.loaded explored.now.states explored.now.edges (length explored.now.states)
        (length explored.now.states) marks.new) }
{
    for k in 0..explored.len() {
        if is_end(explored.state(k)) {
            mark(marks, k)?;
        }
    }
    Ok(())
}

/// The edges, by the states to which they lead.
fn chain_targets(alloc: Global, edges: &[Edge]) -> Result<Chains, NoMemory>
    ensures { IfOk result (AreChained (map (λ e. e.to) edges.now)) }
{
    let mut chains = Chains::new(alloc);
    for edge in edges {
        chains.add(edge.to as u64)?;
    }
    Ok(chains)
}

fn source_of(edges: &[Edge], i: usize) -> usize
    requires { i < length edges.now }
    ensures { result ≡ (edge_at edges.now i).from }
{
    edges[i].from as usize
}

/// Marks the states from which an edge leads to this one. Takes time in these edges.
fn mark_sources(
    explored: &Exploration,
    chains: &Chains,
    marks: &mut Marks,
    to: usize,
) -> Result<(), NoMemory>
    requires chained { AreChained (map (λ e. e.to) explored.now.edges) chains.now }
    requires marks { AreMarks explored.now.loaded explored.now.states explored.now.edges (length explored.now.states) to marks.old }
    requires to { CanEnd explored.now.loaded explored.now.states to }
    ensures marks { OnOk result (AreMarks explored.now.loaded explored.now.states explored.now.edges (length explored.now.states)
        (length explored.now.states) marks.new) }
    ensures fewer { OnOk result (left_over marks.new ≤ left_over marks.old) }
{
    let edges = explored.edges();
    let mut next = chains.newest(to as u64);
    while let Some(i) = next {
        mark(marks, source_of(edges, i))?;
        next = chains.older(i);
    }
    Ok(())
}

/// Takes a state that waits; None exactly where none does.
fn next_waiting(marks: &mut Marks) -> Option<usize>
    ensures marked { marks.new.marked ≡ marks.old.marked }
    ensures taken { IfSome result (λ to. marks.old.waiting ≡ marks.new.waiting ++ to ∷ []) }
    ensures none { IfNone result (marks.new.waiting ≡ []) }
    ensures unchanged { IfNone result (marks.new ≡ marks.old) }
{
    marks.waiting.pop()
}

/// Follows the edges backwards from all states that wait.
fn settle(explored: &Exploration, chains: &Chains, marks: &mut Marks) -> Result<(), NoMemory>
    requires chained { AreChained (map (λ e. e.to) explored.now.edges) chains.now }
    requires marks { AreMarks explored.now.loaded explored.now.states explored.now.edges (length explored.now.states)
        (length explored.now.states) marks.old }
    ensures marks { OnOk result (AreMarks explored.now.loaded explored.now.states explored.now.edges (length explored.now.states)
        (length explored.now.states) marks.new) }
    ensures none { OnOk result (marks.new.waiting ≡ []) }
{
    while let Some(to) = next_waiting(marks) {
        mark_sources(explored, chains, marks, to)?;
    }
    Ok(())
}

/// Marks the states from which an end is reached.
fn mark_all(alloc: Global, explored: &Exploration, marks: &mut Marks) -> Result<(), NoMemory>
    requires { AreMarks explored.now.loaded explored.now.states explored.now.edges 0 (length explored.now.states) marks.old }
    ensures marks { OnOk result (AreMarks explored.now.loaded explored.now.states explored.now.edges (length explored.now.states)
        (length explored.now.states) marks.new) }
    ensures none { OnOk result (marks.new.waiting ≡ []) }
    ensures found { AreFound explored.now.loaded explored.now.states }
    ensures right { AreEdges explored.now.loaded explored.now.states explored.now.edges }
    ensures all { IsTrue explored.now.done → AreAllEdges explored.now.loaded explored.now.states explored.now.edges }
{
    let chains = chain_targets(alloc, explored.edges())?;
    mark_ends(explored, marks)?;
    settle(explored, &chains, marks)
}

fn first_of(first: Option<usize>, k: usize) -> Option<usize>
    ensures { result ≡ or_first first k }
{
    match first {
        None => Some(k),
        Some(first) => Some(first),
    }
}

/// How many aren't marked, and the first of them.
fn tell_unmarked(marked: &[bool]) -> Stuck
    ensures count { HowMany (λ k. slice_index_or marked.now k false ≡ false) (length marked.now) result.count }
    ensures first { IsFirst (λ k. slice_index_or marked.now k false ≡ false) (length marked.now) result.first }
{
    let mut count = 0;
    let mut first = None;
    for (k, is_marked) in marked.iter().enumerate() {
        if !*is_marked {
            count += 1;
            first = first_of(first, k);
        }
    }
    Stuck { count, first }
}

/// From how many states no serial execution goes on to an end of all cores, and the first of them, where all states were found.
///
/// Takes time and memory in the states and the transactions between them.
pub fn tell_stuck(alloc: Global, explored: &Exploration) -> Result<Stuck, NoMemory>
    requires { IsTrue explored.now.done }
    ensures count { IfOk result (λ s. HowMany (CannotEnd explored.now.loaded explored.now.states) (length explored.now.states) s.count) }
    ensures first { IfOk result (λ s. IsFirst (CannotEnd explored.now.loaded explored.now.states) (length explored.now.states) s.first) }
{
    let mut marks = no_marks(alloc, explored.len())?;
    mark_all(alloc, explored, &mut marks)?;
    Ok(tell_unmarked(&marks.marked.items))
}
