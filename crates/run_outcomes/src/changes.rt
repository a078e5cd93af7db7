// RAM as the words that differ from the start.
ghost use Rattle.std.specs.Prelude.{◌≡◌, ℕ, ◌*◌, ◌<◌, IfOk, OnOk, ◌++◌, [], length, map, All, IsSorted};
ghost use Rattle.std.specs.List.Sorted.{IsPermutation};
ghost use Rattle.std.specs.Ordering.{nat_cmp};
ghost use Rattle.rv_plain.specs.Buffered.{seen};
ghost use Rattle.rv_plain.specs.Store.{buffer_of};
ghost use Rattle.rules_program.specs.Ram.{flat, word_of};
ghost use Rattle.run_outcomes.specs.Left.{IsTold, IsUntouched, sees};
ghost use Rattle.run_outcomes.specs.Changes.{value_in, AreInside, AreNormal};

use rv_plain::BufferedRam;
use std::alloc::Global;
use tcc_base::{List, NoMemory, Stored, WordAddr};

/// Lets words wait with their values.
pub(crate) fn write_all(memory: &mut BufferedRam, changes: &[(u32, u32)]) -> Result<(), NoMemory>
    requires empty { memory.old.waiting ≡ [] }
    requires inside { AreInside (length memory.old.ram) changes.now }
    ensures waits { OnOk result (buffer_of memory.new.waiting ≡ value_in changes.now) }
    ensures ram { memory.new.ram ≡ memory.old.ram }
{
    let mut k = changes.len();
    while k > 0 {
        k -= 1;
        let (w, value) = changes[k];
        memory.write(w, value)?;
    }
    Ok(())
}

/// The words in which RAM will differ from the start after these changes and what waits, where the changes were those before, and
/// all stores since are these. They are in ascending order, each once, with its value.
pub(crate) fn left_words(
    alloc: Global,
    base: u32,
    memory: &BufferedRam,
    changes: &[(u32, u32)],
    stores: &[Stored],
) -> Result<List<(u32, u32)>, NoMemory>
    requires changes { AreInside (length memory.now.ram) changes.now }
    requires stores { All (λ store. word_of base store.addr < length memory.now.ram) stores.now }
    ensures ram { IfOk result (λ left. (w : ℕ)
        → (IsUntouched base changes.now stores.now w → flat memory.now.ram w ≡ sees memory.now w)
        → seen (flat memory.now.ram) (value_in left) w ≡ sees memory.now w) }
    ensures inside { IfOk result (AreInside (length memory.now.ram)) }
    ensures normal { IfOk result (AreNormal (flat memory.now.ram)) }
{
    let words = touched(alloc, base, changes, stores)?;
    differing(alloc, memory, &words)
}

/// The words of these changes and stores, in ascending order; a word may stand more than once.
#[tactic(auto, unfolding(rules_program::specs::Ram::word_of))]
fn touched(
    alloc: Global,
    base: u32,
    changes: &[(u32, u32)],
    stores: &[Stored],
) -> Result<Vec<u32>, NoMemory>
    ensures same { IfOk result (λ words. IsPermutation
        (map (λ change. change.0) changes.now ++ map (λ store. word_of base store.addr) stores.now) words.items) }
    ensures sorted { IfOk result (λ words. IsSorted nat_cmp words.items) }
{
    let mut words = List::new(alloc);
    for (w, _) in changes {
        words.push(*w)?;
    }
    for store in stores {
        words.push(store.addr.saturating_sub(base) / 4)?;
    }
    sorted(words)
}

/// The same words in ascending order.
fn sorted(words: List<u32>) -> Result<Vec<u32>, NoMemory>
    ensures same { IfOk result (λ sorted. IsPermutation words sorted.items) }
    ensures sorted { IfOk result (λ sorted. IsSorted nat_cmp sorted.items) }
{
    let mut words = words.items;
    match words.sort() {
        Ok(()) => Ok(words),
        Err(_) => Err(NoMemory),
    }
}

/// Of these words those that are seen otherwise than RAM has them, each with its value.
fn differing(
    alloc: Global,
    memory: &BufferedRam,
    words: &[u32],
) -> Result<List<(u32, u32)>, NoMemory>
    requires inside { All (λ w. w < length memory.now.ram) words.now }
    requires sorted { IsSorted nat_cmp words.now }
    ensures told { IfOk result (IsTold memory.now words.now) }
    ensures inside { IfOk result (AreInside (length memory.now.ram)) }
    ensures normal { IfOk result (AreNormal (flat memory.now.ram)) }
{
    let mut changes = List::new(alloc);
    for (k, w) in words.iter().enumerate() {
        if k > 0 && words[k - 1] == *w {
            continue;
        }
        let value = memory.read(*w);
        if value != memory.word(*w) {
            changes.push((*w, value))?;
        }
    }
    Ok(changes)
}
