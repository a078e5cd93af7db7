// Changes and searches of the ways at noted places alone.
ghost use Rattle.std.specs.Prelude.{◌≡◌, ◌<◌, ℕ, length, get_or, Option, Some, None, Contains, IfOk, true};
ghost use Rattle.spec_cache.specs.Frame.{marked_in};
ghost use Rattle.spec_cache.specs.Change.{all_changed};
ghost use Rattle.spec_cache.specs.Home.{written_found, Collects};

use crate::frame::{Change, FrameView};
use crate::marks::written;
use crate::slots::changed;
use crate::tracked::Tracked;
use std::alloc::Global;
use tcc_base::NoMemory;

/// Changes all frames, where none is marked but at these places.
pub(crate) fn change_at(ways: &mut Tracked, places: &[usize], change: Change)
    requires inside { (j : ℕ) → j < length places.now → get_or places.now j 0 < length ways.old.frames }
    requires marked { (i : ℕ) → marked_in (get_or ways.old.frames i None) ≡ true → Contains places.now i }
    ensures { ways.new ≡ record ways.old { frames = all_changed change ways.old.frames } }
{
    for at in places {
        let way = changed(ways.way(*at), change);
        ways.put(*at, way);
    }
}

/// The lines at home there that have a modified word, where none has but at these places.
pub(crate) fn all_written_in(
    alloc: Global,
    ways: &[Option<FrameView>],
    places: &[usize],
    home: u8,
    dirs: u8,
) -> Result<Vec<u32>, NoMemory>
    requires dirs { 0 < dirs }
    requires inside { (j : ℕ) → j < length places.now → get_or places.now j 0 < length ways.now }
    requires marked { (i : ℕ) → marked_in (get_or ways.now i None) ≡ true → Contains places.now i }
    ensures { IfOk result (λ v. Collects (written_found dirs home ways.now) v.items) }
{
    let mut lines = Vec::new(alloc);
    for at in places {
        if let Some(line) = written(&ways[*at], home, dirs) {
            let Ok(()) = lines.push(line) else {
                return Err(NoMemory);
            };
        }
    }
    Ok(lines)
}
