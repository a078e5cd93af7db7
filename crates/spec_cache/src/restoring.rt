// A cache that is made from its plain data, frame by frame.
ghost use Rattle.std.specs.Prelude.{◌≡◌, ◌+◌, ◌*◌, ◌↔◌, ℕ, true, Some, IsTrue, MatchBool, slice_set};
ghost use Rattle.rules_maps.specs.Masks.{has as has_word};
ghost use Rattle.spec_cache.specs.Frame.{IsFrame};
ghost use Rattle.spec_cache.specs.Held.{IsHeld};
ghost use Rattle.spec_cache.specs.Restored.{IsFree, IsMissing, MayStand};

use crate::cache::SpecCache;
use crate::frame::FrameView;
use crate::masks::without;
use crate::ways::Ways;
use tcc_base::LineAddr;

/// Whether all words of the one mask are of the other too.
fn is_within(mask: u8, other: u8) -> bool
    ensures { IsTrue result ↔ ((k : ℕ) → has_word mask k ≡ true → has_word other k ≡ true) }
{
    without(mask, other) == 0
}

/// Whether its modified words and its dirty ones are valid, and it has but one of the two.
fn is_frame(frame: &FrameView) -> bool
    ensures { IsTrue result ↔ IsFrame frame.now }
{
    let frame = *frame;
    is_within(frame.modified.0, frame.valid.0)
        && is_within(frame.dirty.0, frame.valid.0)
        && (frame.modified.0 == 0 || frame.dirty.0 == 0)
}

impl SpecCache {
    /// Whether the set and the way exist, and the way holds no line.
    fn is_free(&self, set: u16, way: u8) -> bool
        ensures { IsTrue result ↔ IsFree self.now set way }
    {
        let config = self.frames.config();
        if set >= config.sets() || way >= config.ways() {
            return false;
        }
        self.frames
            .way(self.frames.place_of_way(set, way))
            .is_none()
    }

    /// Whether the line is one of memory that belongs to the set, and no way holds it.
    fn is_missing(&self, set: u16, line: LineAddr) -> bool
        ensures missing { IsTrue result ↔ IsMissing self.now set line.0 }
        ensures in_order { IsHeld self.now }
    {
        if line.0 >= self.frames.config().words() / 8 {
            return false;
        }
        if self.frames.set_of_line(line) != set {
            return false;
        }
        self.frames.find(line).is_none()
    }

    /// Whether the frame may be put into the way.
    fn may_stand(&self, set: u16, way: u8, frame: &FrameView) -> bool
        ensures { IsTrue result ↔ MayStand self.now set way frame.now }
    {
        if !self.is_free(set, way) {
            return false;
        }
        if !self.is_missing(set, frame.line) {
            return false;
        }
        is_frame(frame)
    }

    /// Puts a frame into an empty way, and says whether it may stand there: the set and the way exist and the way is empty, the
    /// frame's modified words and its dirty ones are valid and it has but one of the two, and its line is one of memory that belongs
    /// to the set and has no frame. Else nothing is changed. It takes a step a way of the set.
    pub fn restore_frame(&mut self, set: u16, way: u8, frame: &FrameView) -> bool
        ensures frames { MatchBool result
            (self.new ≡ record self.old { frames = slice_set self.old.frames (set * self.old.config.ways + way) (Some frame.now) })
            (self.new ≡ self.old) }
        ensures may_stand { IsTrue result ↔ MayStand self.old set way frame.now }
    {
        if !self.may_stand(set, way, frame) {
            return false;
        }
        let at = self.frames.place_of_way(set, way);
        self.frames.put(at, Some(*frame));
        true
    }
}
