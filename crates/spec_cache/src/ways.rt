// What a form of the frames gives to the calls of a cache: its ways by place, and changes of all frames at once.
ghost use Rattle.std.specs.Prelude.{◌≡◌, ◌<◌, ◌+◌, ◌*◌, ℕ, length, get_or, set, Option, Some, None, MatchOption, MatchBool, IfSome, IfOk};
ghost use Rattle.std.specs.Prelude.{IsTrue, true, false};
ghost use Rattle.rules_maps.specs.Shape.{set_of};
ghost use Rattle.rules_maps.specs.Cache.{free_way as lowest_free, all_marked as every_marked};
ghost use Rattle.rules_maps.specs.CacheLook.{look_line};
ghost use Rattle.spec_cache.specs.Look.{look_of};
ghost use Rattle.spec_cache.specs.Frame.{marked_in};
ghost use Rattle.spec_cache.specs.Change.{all_changed};
ghost use Rattle.spec_cache.specs.Home.{reads_in, written_found, Collects};
ghost use Rattle.spec_cache.specs.Held.{Held, IsHeld, FitsWay, IsWayOf, frame_of, maps};

use crate::frame::{Change, FrameView};
use crate::look::Look;
use tcc_base::{Config, DirId, LineAddr, NoMemory};

/// Whether a way holds a marked frame.
#[tactic(auto, unfolding(crate::specs::Frame::marked_in))]
pub(crate) fn is_marked(way: Option<FrameView>) -> bool
    ensures { result ≡ marked_in way }
{
    match way {
        None => false,
        Some(frame) => frame.is_marked(),
    }
}

/// The ways of a cache. Way `y` of set `s` has the place `s * ways + y`.
pub trait Ways {
    ghost held: { Self → Held };

    /// The machine's settings.
    fn config(&self) -> Config
        ensures value { result ≡ (held self.now).config }
        ensures in_order { IsHeld (held self.now) };

    /// The place and the frame of a line; None exactly where it has no frame.
    fn find(&self, line: LineAddr) -> Option<(usize, FrameView)>
        ensures found { MatchOption result (frame_of (held self.now).frames line.0 ≡ None) (λ p. IsWayOf (held self.now) line.0 p) }
        ensures in_order { IsHeld (held self.now) };

    /// The place and the frame of a line that has one.
    fn seek(&self, line: LineAddr) -> (usize, FrameView)
        requires { IsTrue ((maps (held self.now)).held line.0) }
        ensures found { IsWayOf (held self.now) line.0 result }
        ensures in_order { IsHeld (held self.now) }
    {
        match self.find(line) {
            Some(found) => found,
            None => unreachable!(),
        }
    }

    /// The frame of a way; None exactly where it holds no line.
    fn way(&self, at: usize) -> Option<FrameView>
        requires { at < length (held self.now).frames }
        ensures value { result ≡ get_or (held self.now).frames at None }
        ensures in_order { IsHeld (held self.now) };

    /// Sets the frame of a way, where it fits.
    fn put(&mut self, at: usize, frame: Option<FrameView>)
        requires inside { at < length (held self.old).frames }
        requires fits { FitsWay (held self.old) at frame }
        ensures { held self.new ≡ record (held self.old) { frames = set (held self.old).frames at frame } };

    /// Changes all frames.
    fn change(&mut self, change: Change)
        ensures frames { held self.new ≡ record (held self.old) { frames = all_changed change (held self.old).frames } }
        ensures in_order { IsHeld (held self.old) };

    /// Whether a line at home there has a frame with a read mark.
    fn any_reads_at(&self, home: DirId) -> bool
        ensures any { MatchBool result
            ((i : ℕ) × (reads_in (held self.now).config.dirs home.0 (get_or (held self.now).frames i None) ≡ true))
            ((i : ℕ) → reads_in (held self.now).config.dirs home.0 (get_or (held self.now).frames i None) ≡ false) }
        ensures in_order { IsHeld (held self.now) };

    /// The lines at home there that have a modified word, in no order.
    fn written_at(&self, home: DirId) -> Result<Vec<u32>, NoMemory>
        ensures lines { IfOk result (λ v. Collects (written_found (held self.now).config.dirs home.0 (held self.now).frames) v.items) }
        ensures in_order { IsHeld (held self.now) };

    /// The set in which a line may have a frame.
    fn set_of_line(&self, line: LineAddr) -> u16
        ensures value { result ≡ set_of (held self.now).config line.0 }
        ensures exists { result < (held self.now).config.sets }
        ensures in_order { IsHeld (held self.now) }
    {
        (line.0 % self.config().sets() as u32) as u16
    }

    /// The place of a way.
    fn place_of_way(&self, set: u16, way: u8) -> usize
        requires set_exists { set < (held self.now).config.sets }
        requires way_exists { way < (held self.now).config.ways }
        ensures value { result ≡ set * (held self.now).config.ways + way }
        ensures inside { result < length (held self.now).frames }
        ensures in_order { IsHeld (held self.now) }
    {
        set as usize * self.config().ways() as usize + way as usize
    }

    /// The lowest way of a set that holds no line.
    fn free_way(&self, set: u16) -> Option<u8>
        requires { set < (held self.now).config.sets }
        ensures value { result ≡ lowest_free (held self.now).config (maps (held self.now)) set }
        ensures exists { IfSome result (λ y. y < (held self.now).config.ways) }
    {
        let ways = self.config().ways();
        for way in 0..ways {
            if self.way(self.place_of_way(set, way)).is_none() {
                return Some(way);
            }
        }
        None
    }

    /// Whether all ways of a set hold marked frames.
    fn all_marked(&self, set: u16) -> bool
        requires { set < (held self.now).config.sets }
        ensures { result ≡ every_marked (held self.now).config (maps (held self.now)) set }
    {
        let ways = self.config().ways();
        for way in 0..ways {
            if !is_marked(self.way(self.place_of_way(set, way))) {
                return false;
            }
        }
        true
    }

    /// What a load or a store of a line with no frame finds.
    fn room_for(&self, line: LineAddr) -> Look
        requires { frame_of (held self.now).frames line.0 ≡ None }
        ensures { look_of result ≡ look_line (held self.now).config line.0 (maps (held self.now)) }
    {
        let set = self.set_of_line(line);
        if self.free_way(set).is_some() {
            Look::Miss
        } else if self.all_marked(set) {
            Look::Overflow(set)
        } else {
            Look::NeedsRoom(set)
        }
    }
}
