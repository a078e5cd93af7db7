// A load whose word needs no mark, and a store into a frame that has modified words and no dirty ones: all that is counted of the
// frame stays the same, so that it is read and changed where it stands.
ghost use Rattle.std.specs.Prelude.{◌≡◌, ◌==◌, ◌<◌, ◌≤◌, true, false, length, Option, Some, None, IfSome, MatchBool};
ghost use Rattle.spec_cache.specs.Frame.{value_in, marked_frame};
ghost use Rattle.spec_cache.specs.InPlace.{IsHit, IsStored, StoresInto};

use crate::frame::FrameView;
use tcc_base::LineAddr;

/// The first way from `first` on, and before `end`, whose tag is that of the line.
pub(crate) fn spot(tags: &[u32], first: usize, end: usize, line: u32) -> Option<usize>
    requires { end ≤ length tags.now }
    ensures { IfSome result (λ at. at < end) }
{
    for at in first..end {
        if tags[at] == line {
            return Some(at);
        }
    }
    None
}

/// Whether a mark at place `k` would change nothing.
fn is_marked_at(frame: &FrameView, k: usize) -> bool
    requires { k < 8 }
    ensures { result ≡ true → marked_frame k frame.now ≡ frame.now }
{
    let mut copy = *frame;
    !copy.mark_read(k)
}

/// Whether a mark would change nothing, or none is wanted.
fn needs_no_mark(frame: &FrameView, k: usize, mark: bool) -> bool
    requires { k < 8 }
    ensures { result ≡ true → mark ≡ true → marked_frame k frame.now ≡ frame.now }
{
    if mark { is_marked_at(frame, k) } else { true }
}

/// The value of a word of the line, where this is its way, the word is valid and a mark would change nothing.
pub(crate) fn hit_at(way: &Option<FrameView>, line: LineAddr, k: usize, mark: bool) -> Option<u32>
    requires { k < 8 }
    ensures { IfSome result (IsHit way.now line.0 k mark) }
{
    match way {
        None => None,
        Some(frame) => {
            if frame.line.0 == line.0 && needs_no_mark(frame, k, mark) {
                frame.word(k)
            } else {
                None
            }
        }
    }
}

/// Whether the frame has a read mark already, or none is to be set.
fn may_be_marked(frame: &FrameView, also: bool) -> bool
    ensures { result ≡ true → also ≡ true → (frame.now.read.0 == 0) ≡ false }
{
    if also { frame.read.0 != 0 } else { true }
}

/// Stores a word in a frame of the line that has modified words and no dirty ones, and a read mark where one is to be set.
fn store_into(frame: &mut FrameView, line: LineAddr, k: usize, value: u32, also: bool) -> bool
    requires { k < 8 }
    ensures { MatchBool result (StoresInto frame.old (Some frame.new) line.0 k value also) (frame.new ≡ frame.old) }
{
    if frame.line.0 != line.0 || frame.dirty.0 != 0 || frame.modified.0 == 0 {
        return false;
    }
    if !may_be_marked(frame, also) {
        return false;
    }
    let _ = frame.store(k, value, also);
    true
}

/// The same of the line's way.
pub(crate) fn store_at(
    way: &mut Option<FrameView>,
    line: LineAddr,
    k: usize,
    value: u32,
    also: bool,
) -> bool
    requires { k < 8 }
    ensures { MatchBool result (IsStored way.old way.new line.0 k value also) (way.new ≡ way.old) }
{
    match way {
        None => false,
        Some(frame) => store_into(frame, line, k, value, also),
    }
}
