// The lines of a directory that a cache has read or written, looked for in a list of ways.
ghost use Rattle.std.specs.Prelude.{◌≡◌, ◌<◌, ◌↔◌, ℕ, get_or, Option, Some, None, IfOk, MatchBool, true, false, AllPairs, Contains};
ghost use Rattle.spec_cache.specs.Home.{reads_in, written_in, written_found, Collects};

use crate::frame::FrameView;
use std::alloc::Global;
use tcc_base::NoMemory;

/// Whether a line at home there has a frame here with a read mark.
#[tactic(auto, unfolding(crate::specs::Home::reads_in))]
pub(crate) fn reads(way: &Option<FrameView>, home: u8, dirs: u8) -> bool
    requires { 0 < dirs }
    ensures { result ≡ reads_in dirs home way.now }
{
    match way {
        None => false,
        Some(frame) => home as u32 == frame.line.0 % dirs as u32 && frame.read.0 != 0,
    }
}

/// The line, where it is at home there and its frame has a modified word.
#[tactic(auto, unfolding(crate::specs::Home::written_in))]
pub(crate) fn written(way: &Option<FrameView>, home: u8, dirs: u8) -> Option<u32>
    requires { 0 < dirs }
    ensures { result ≡ written_in dirs home way.now }
{
    match way {
        None => None,
        Some(frame) => {
            if home as u32 == frame.line.0 % dirs as u32 && frame.modified.0 != 0 {
                Some(frame.line.0)
            } else {
                None
            }
        }
    }
}

/// Whether a line at home there has a read mark.
pub(crate) fn any_reads(ways: &[Option<FrameView>], home: u8, dirs: u8) -> bool
    requires { 0 < dirs }
    ensures { MatchBool result ((i : ℕ) × (reads_in dirs home (get_or ways.now i None) ≡ true))
        ((i : ℕ) → reads_in dirs home (get_or ways.now i None) ≡ false) }
{
    for way in ways {
        if reads(way, home, dirs) {
            return true;
        }
    }
    false
}

/// The lines at home there that have a modified word, in no order.
pub(crate) fn all_written(
    alloc: Global,
    ways: &[Option<FrameView>],
    home: u8,
    dirs: u8,
) -> Result<Vec<u32>, NoMemory>
    requires { 0 < dirs }
    ensures { IfOk result (λ v. Collects (written_found dirs home ways.now) v.items) }
{
    let mut lines = Vec::new(alloc);
    for way in ways {
        if let Some(line) = written(way, home, dirs) {
            let Ok(()) = lines.push(line) else {
                return Err(NoMemory);
            };
        }
    }
    Ok(lines)
}

/// Puts line numbers in rising order, each once.
pub(crate) fn put_in_order(lines: &mut Vec<u32>)
    ensures rising { AllPairs (λ a b. a < b) lines.new.items }
    ensures same { (l : ℕ) → Contains lines.new.items l ↔ Contains lines.old.items l }
{
    lines.sort_unstable();
    lines.dedup();
}
