// Frames of which all that is counted is the same, so that one may take the other's place and no number changes.
ghost use Rattle.std.specs.Prelude.{◌≡◌, ◌==◌, true};
ghost use Rattle.spec_cache.specs.Tracked.{AreAlike, IsAlike};

use crate::frame::FrameView;
use tcc_base::Mask;

/// Whether both masks hold words, or both none.
fn both(mask: Mask, other: Mask) -> bool
    ensures { result ≡ true → (mask.0 == 0) ≡ (other.0 == 0) }
{
    if mask.0 == 0 {
        other.0 == 0
    } else {
        other.0 != 0
    }
}

/// Whether the frames are of one line, with read, modified and dirty words alike.
fn frames_alike(old: &FrameView, new: &FrameView) -> bool
    ensures { result ≡ true → IsAlike old.now new.now }
{
    old.line.0 == new.line.0
        && both(old.read, new.read)
        && both(old.modified, new.modified)
        && both(old.dirty, new.dirty)
}

/// Whether both ways hold a frame, and these are alike.
pub(crate) fn alike(old: &Option<FrameView>, new: &Option<FrameView>) -> bool
    ensures { result ≡ true → AreAlike old.now new.now }
{
    match old {
        None => false,
        Some(frame) => match new {
            None => false,
            Some(other) => frames_alike(frame, other),
        },
    }
}
