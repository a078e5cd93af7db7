// The sets of a cache in which a frame is marked.
ghost use Rattle.std.specs.Prelude.{◌≡◌, ◌*◌, ◌<◌, ◌↔◌, ◌++◌, ℕ, true, length, get_or, AllPairs, Contains, IfOk, None, OnOk, Option};
ghost use Rattle.std.specs.Option.{option_to_list};
ghost use Rattle.spec_cache.specs.Frame.{marked_in};
ghost use Rattle.spec_cache.specs.Home.{Collects};
ghost use Rattle.spec_cache.specs.MarkedSets.{marked_set};

use crate::frame::FrameView;
use crate::quotients::set_at;
use crate::ways::is_marked;
use std::alloc::Global;
use tcc_base::{Config, List, NoMemory};

/// The set of a place, where the frame there is marked.
fn set_if_marked(config: &Config, ways: &[Option<FrameView>], at: usize) -> Option<u16>
    requires inside { at < length ways.now }
    requires whole { length ways.now ≡ config.now.sets * config.now.ways }
    ensures { result ≡ marked_set config.now.ways ways.now at }
{
    if is_marked(ways[at]) {
        Some(set_at(at, config.ways()) as u16)
    } else {
        None
    }
}

/// The sets of marked frames, in no order, where none is marked but at these places.
pub(crate) fn all_marked_sets(
    alloc: Global,
    config: &Config,
    ways: &[Option<FrameView>],
    places: &[usize],
) -> Result<List<u16>, NoMemory>
    requires whole { length ways.now ≡ config.now.sets * config.now.ways }
    requires inside { (j : ℕ) → j < length places.now → get_or places.now j 0 < length ways.now }
    requires marked { (i : ℕ) → marked_in (get_or ways.now i None) ≡ true → Contains places.now i }
    ensures { IfOk result (λ sets. Collects (marked_set config.now.ways ways.now) sets) }
{
    let mut sets = List::new(alloc);
    for at in places {
        if let Some(set) = set_if_marked(config, ways, *at) {
            sets.push(set)?;
        }
    }
    Ok(sets)
}

/// Appends a set, where there is one.
pub(crate) fn push_some(sets: &mut List<u16>, set: Option<u16>) -> Result<(), NoMemory>
    ensures { OnOk result (sets.new ≡ sets.old ++ option_to_list set) }
{
    match set {
        Some(set) => sets.push(set),
        None => Ok(()),
    }
}

/// Puts sets in rising order, each once.
pub(crate) fn put_sets_in_order(sets: &mut Vec<u16>)
    ensures rising { AllPairs (λ a b. a < b) sets.new.items }
    ensures same { (x : ℕ) → Contains sets.new.items x ↔ Contains sets.old.items x }
{
    sets.sort_unstable();
    sets.dedup();
}
