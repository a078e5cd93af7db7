// Numbers of ways by the home of their lines.
ghost use Rattle.std.specs.Prelude.{◌≡◌, ◌<◌, ◌≤◌, ◌+◌, ℕ, Option, IfSome, get_or};
ghost use Rattle.rules_maps.specs.Words.{num};
ghost use Rattle.spec_cache.specs.Tracked.{is_home, written_home as home_written, read_home as home_read, tag_of};

use crate::frame::FrameView;
use crate::quotients::home_of;

/// A number for each home, up to 64.
pub(crate) type ByHome = [usize; 64];

/// The home of the way's line, where it has a modified word.
#[tactic(auto, unfolding(crate::specs::Tracked::written_home))]
pub(crate) fn written_home(way: &Option<FrameView>, dirs: u8) -> Option<u8>
    requires { 0 < dirs }
    ensures { result ≡ home_written dirs way.now }
{
    match way {
        None => None,
        Some(frame) => {
            if frame.modified.0 != 0 {
                Some(home_of(frame.line.0, dirs))
            } else {
                None
            }
        }
    }
}

/// The home of the way's line, where it has a word that is marked read.
#[tactic(auto, unfolding(crate::specs::Tracked::read_home))]
pub(crate) fn read_home(way: &Option<FrameView>, dirs: u8) -> Option<u8>
    requires { 0 < dirs }
    ensures { result ≡ home_read dirs way.now }
{
    match way {
        None => None,
        Some(frame) => {
            if frame.read.0 != 0 {
                Some(home_of(frame.line.0, dirs))
            } else {
                None
            }
        }
    }
}

/// The line of the way, and where it holds none a number that no line has.
#[tactic(auto, unfolding(crate::specs::Tracked::tag_of))]
pub(crate) fn tag(way: &Option<FrameView>) -> u32
    ensures { result ≡ tag_of way.now }
{
    match way {
        None => u32::MAX,
        Some(frame) => frame.line.0,
    }
}

/// Counts one more at the home, where there is one.
fn one_more(counts: &mut ByHome, home: Option<u8>)
    requires exists { IfSome home (λ d. d < 64) }
    requires small { (d : ℕ) → d < 64 → get_or counts.old d 0 ≤ 16384 }
    ensures { (d : ℕ) → get_or counts.new d 0 ≡ get_or counts.old d 0 + num (is_home home d) }
{
    if let Some(d) = home {
        counts[d as usize] += 1;
    }
}

/// Counts one less at the home, where there is one.
fn one_less(counts: &mut ByHome, home: Option<u8>)
    requires exists { IfSome home (λ d. d < 64) }
    requires some { IfSome home (λ d. 0 < get_or counts.old d 0) }
    ensures { (d : ℕ) → get_or counts.new d 0 + num (is_home home d) ≡ get_or counts.old d 0 }
{
    if let Some(d) = home {
        counts[d as usize] -= 1;
    }
}

/// Counts one less at the one home and one more at the other, where there are such.
pub(crate) fn recount(counts: &mut ByHome, less: Option<u8>, more: Option<u8>)
    requires less_exists { IfSome less (λ d. d < 64) }
    requires more_exists { IfSome more (λ d. d < 64) }
    requires some { IfSome less (λ d. 0 < get_or counts.old d 0) }
    requires small { (d : ℕ) → d < 64 → get_or counts.old d 0 ≤ 16384 }
    ensures { (d : ℕ) → get_or counts.new d 0 + num (is_home less d) ≡ get_or counts.old d 0 + num (is_home more d) }
{
    if less == more {
        return;
    }
    one_more(counts, more);
    one_less(counts, less);
}

/// 1 for true, 0 for false.
pub(crate) fn one(is: bool) -> usize
    ensures { result ≡ num is }
{
    if is { 1 } else { 0 }
}
