// The results: states in which all cores have ended, those that tell the same taken together.
ghost use Rattle.std.specs.Prelude.{List as Seq, ◌≡◌, ℕ, ◌+◌, ◌-◌, ◌^◌, ◌<◌, ◌↔◌, ◌++◌, [], ◌∷◌, All, IfOk, OnOk, IfSome};
ghost use Rattle.std.specs.Prelude.{IfNone, IsTrue, length, map};
ghost use Rattle.std.specs.Prelude.{slice_index, slice_set};
ghost use Rattle.run_outcomes.specs.Chains.{AreChained};
ghost use Rattle.run_outcomes.specs.Explored.{state_at};
ghost use Rattle.run_outcomes.specs.Outcomes.{HasEveryOutcome};
ghost use Rattle.run_outcomes.specs.Results.{HasStopped, IsEnd, AreAlike, AreApart, AreCounted, AreEnds, AreGroups, AreLeast, IsTold};
ghost use Rattle.run_outcomes.specs.Results.{mixed_told, told_core, told_digest};

use crate::chains::Chains;
use crate::digests::{digest, digest_of_end, mix, mix_bytes, mix_changes};
use crate::exploration::Exploration;
use crate::states::{Snapshot, are_same_changes, is_same};
use rv_plain::CoreState;
use std::alloc::Global;
use tcc_base::{CoreEnd, List, NoMemory};

/// What makes two results different.
#[derive(Clone, Copy, Debug, PartialEq, Eq)]
pub enum Tell {
    /// How each core ended, and what it has printed.
    Consoles,
    /// That, and RAM.
    Memory,
    /// All that the state holds.
    Everything,
}

/// The results of an exploration: for each the number of the first state that tells it, in the order in which these were found, and
/// how many states tell it. `done` says that the program can have no other.
#[derive(Debug, Drop)]
pub struct Results {
    pub firsts: List<usize>,
    pub counts: List<u64>,
    pub done: bool,
}

fn has_stopped(core: &CoreState) -> bool
    ensures { IsTrue result ↔ HasStopped core.now }
{
    match core.ended {
        CoreEnd::Run => false,
        CoreEnd::Halt(_) | CoreEnd::Trap(_) => true,
    }
}

fn have_stopped(cores: &[CoreState]) -> bool
    ensures stopped { IsTrue result → All HasStopped cores.now }
    ensures all { All HasStopped cores.now → IsTrue result }
{
    for core in cores {
        if !has_stopped(core) {
            return false;
        }
    }
    true
}

/// Whether all cores have ended.
pub(crate) fn is_end(state: &Snapshot) -> bool
    ensures stopped { IsTrue result → IsEnd state.now }
    ensures all { IsEnd state.now → IsTrue result }
{
    have_stopped(&state.cores.items)
}

fn tells_same_core(a: &CoreState, b: &CoreState) -> bool
    ensures { IsTrue result ↔ (told_core a.now ≡ told_core b.now) }
{
    a.ended == b.ended && a.console.items == b.console.items
}

fn tell_same_cores(a: &[CoreState], b: &[CoreState]) -> bool
    ensures { IsTrue result ↔ (map told_core a.now ≡ map told_core b.now) }
{
    if a.len() != b.len() {
        return false;
    }
    for (k, core) in a.iter().enumerate() {
        if !tells_same_core(core, &b[k]) {
            return false;
        }
    }
    true
}

fn have_same_cores(a: &Snapshot, b: &Snapshot) -> bool
    ensures { IsTrue result ↔ (map told_core a.now.cores ≡ map told_core b.now.cores) }
{
    tell_same_cores(&a.cores.items, &b.cores.items)
}

fn have_same_changes(a: &Snapshot, b: &Snapshot) -> bool
    ensures { IsTrue result ↔ (a.now.changes ≡ b.now.changes) }
{
    are_same_changes(&a.changes.items, &b.changes.items)
}

/// Whether two states tell the same.
fn are_alike(tell: Tell, a: &Snapshot, b: &Snapshot) -> bool
    ensures { IsTrue result ↔ AreAlike tell a.now b.now }
{
    match tell {
        Tell::Consoles => have_same_cores(a, b),
        Tell::Memory => have_same_cores(a, b) && have_same_changes(a, b),
        Tell::Everything => is_same(a, b),
    }
}

/// By which results are found: states that tell the same have the same.
#[tactic(auto, unfolding(crate::specs::Results::told_digest))]
fn digest_told(tell: Tell, state: &Snapshot) -> u64
    ensures { result ≡ told_digest tell state.now }
{
    match tell {
        Tell::Consoles => mix_told(&state.cores.items),
        Tell::Memory => mix_changes(mix_told(&state.cores.items), &state.changes.items),
        Tell::Everything => digest(state),
    }
}

#[tactic(auto, unfolding(crate::specs::Results::mixed_told))]
fn mix_told(cores: &[CoreState]) -> u64
    ensures { result ≡ mixed_told cores.now }
{
    let mut sum = 0;
    for core in cores {
        sum = mix_bytes(mix(sum, digest_of_end(core.ended)), &core.console.items);
    }
    sum
}

/// Results, each by the number of the first state that tells it, with how many tell it, and by what is told.
#[derive(Debug, Drop)]
struct Groups {
    firsts: List<usize>,
    counts: List<u64>,
    chains: Chains,
}

fn first_in(firsts: &[usize], i: usize) -> usize
    requires { i < length firsts.now }
    ensures { result ≡ slice_index firsts.now i }
{
    firsts[i]
}

impl Groups {
    /// One more state tells the result of that index.
    fn count(&mut self, i: usize)
        requires inside { i < length self.old.counts }
        requires small { slice_index self.old.counts i < 2 ^ 64 - 1 }
        ensures { self.new ≡ record self.old { counts = slice_set self.old.counts i (slice_index self.old.counts i + 1) } }
    {
        self.counts.items[i] += 1;
    }

    /// A further result, which the state of this number tells, with the digest of what it tells.
    fn add(&mut self, first: usize, digest: u64) -> Result<(), NoMemory>
        ensures firsts { OnOk result (self.new.firsts ≡ self.old.firsts ++ first ∷ []) }
        ensures counts { OnOk result (self.new.counts ≡ self.old.counts ++ 1 ∷ []) }
        ensures chains { OnOk result ((keys : Seq ℕ) → AreChained keys self.old.chains
            → AreChained (keys ++ digest ∷ []) self.new.chains) }
    {
        self.firsts.push(first)?;
        self.counts.push(1)?;
        self.chains.add(digest)
    }
}

/// Which of these states tells the same as state k, whose digest this is.
fn place(
    explored: &Exploration,
    tell: Tell,
    firsts: &[usize],
    chains: &Chains,
    digest: u64,
    k: usize,
) -> Option<usize>
    requires ends { AreEnds explored.now.states firsts.now }
    requires chained { AreChained (map (λ i. told_digest tell (state_at explored.now.states i)) firsts.now) chains.now }
    requires digest { digest ≡ told_digest tell (state_at explored.now.states k) }
    requires state { k < length explored.now.states }
    ensures alike { IfSome result (λ i. (i < length firsts.now)
        × AreAlike tell (state_at explored.now.states (slice_index firsts.now i)) (state_at explored.now.states k)) }
    ensures absent { IfNone result ((i : ℕ) → i < length firsts.now
        → AreAlike tell (state_at explored.now.states (slice_index firsts.now i)) (state_at explored.now.states k) → ⊥) }
{
    let mut next = chains.newest(digest);
    while let Some(i) = next {
        let first = first_in(firsts, i);
        if are_alike(tell, explored.state(first), explored.state(k)) {
            return Some(i);
        }
        next = chains.older(i);
    }
    None
}

/// Counts state k, in which all cores have ended, among those that tell the same. Constant time beside what the state holds.
fn note(explored: &Exploration, tell: Tell, groups: &mut Groups, k: usize) -> Result<(), NoMemory>
    requires groups { AreGroups tell explored.now.states groups.old k }
    requires state { k < length explored.now.states }
    requires end { IsEnd (state_at explored.now.states k) }
    requires few { k < 2 ^ 64 - 1 }
    ensures { OnOk result (AreGroups tell explored.now.states groups.new (k + 1)) }
{
    let digest = digest_told(tell, explored.state(k));
    match place(
        explored,
        tell,
        &groups.firsts.items,
        &groups.chains,
        digest,
        k,
    ) {
        Some(i) => {
            groups.count(i);
            Ok(())
        }
        None => groups.add(k, digest),
    }
}

/// Counts all states in which all cores have ended, by what they tell.
fn note_ends(explored: &Exploration, tell: Tell, groups: &mut Groups) -> Result<(), NoMemory>
    requires { AreGroups tell explored.now.states groups.old 0 }
    ensures { OnOk result (AreGroups tell explored.now.states groups.new (length explored.now.states)) }
{
    for k in 0..explored.len() {
        if is_end(explored.state(k)) {
            note(explored, tell, groups, k)?;
        }
    }
    Ok(())
}

/// The results among the states that were found: states in which all cores have ended, those that tell the same taken together. Each
/// stands for the first of them. Where all states were found, and so `done` is true, every serial execution of the program after
/// which all cores have ended tells one of these results, in whatever order the cores took turns.
///
/// Takes time in what the states hold, and memory in the results.
pub fn tell_results(alloc: Global, explored: &Exploration, tell: Tell) -> Result<Results, NoMemory>
    ensures ends { IfOk result (λ o. AreEnds explored.now.states o.firsts) }
    ensures apart { IfOk result (λ o. AreApart tell explored.now.states o.firsts) }
    ensures least { IfOk result (λ o. AreLeast tell explored.now.states o.firsts) }
    ensures all { IfOk result (λ o. (k : ℕ) → k < length explored.now.states → IsEnd (state_at explored.now.states k)
        → IsTold tell explored.now.states o.firsts k) }
    ensures counted { IfOk result (λ o. length o.counts ≡ length o.firsts) }
    ensures counts { IfOk result (λ o. AreCounted tell explored.now.states o.firsts o.counts (length explored.now.states)) }
    ensures done { IfOk result (λ o. o.done ≡ explored.now.done) }
    ensures every { IfOk result (λ o. IsTrue o.done → HasEveryOutcome explored.now.loaded tell explored.now.states o.firsts) }
{
    let done = explored.done();
    let mut groups = Groups {
        firsts: List::new(alloc),
        counts: List::new(alloc),
        chains: Chains::new(alloc),
    };
    note_ends(explored, tell, &mut groups)?;
    Ok(Results {
        firsts: groups.firsts,
        counts: groups.counts,
        done,
    })
}
