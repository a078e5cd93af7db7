// What both forms of the frames do with their list of ways.
ghost use Rattle.std.specs.Prelude.{◌≡◌, ◌*◌, ◌<◌, ◌≤◌, ℕ, length, replicate, Option, Some, None, MatchOption, IfOk, false, vec_capacity};
ghost use Rattle.std.specs.Option.{option_map};
ghost use Rattle.spec_cache.specs.Frame.{holds_line};
ghost use Rattle.spec_cache.specs.Change.{changed_frame, all_changed};

use crate::frame::{Change, FrameView};
use std::alloc::Global;
use tcc_base::{LineAddr, NoMemory};

/// The frame of a way, where it holds this line.
#[tactic(auto, unfolding(crate::specs::Frame::holds_line))]
pub(crate) fn frame_for(way: &Option<FrameView>, line: LineAddr) -> Option<FrameView>
    ensures { MatchOption result (holds_line line.0 way.now ≡ false) (λ f. (way.now ≡ Some f) × (f.line.0 ≡ line.0)) }
{
    match way {
        None => None,
        Some(frame) => {
            if frame.line.0 == line.0 {
                Some(*frame)
            } else {
                None
            }
        }
    }
}

/// As many ways, with no frame.
pub(crate) fn empty_ways(alloc: Global, count: usize) -> Result<Vec<Option<FrameView>>, NoMemory>
    ensures { IfOk result (λ v. v.items ≡ replicate count None) }
{
    let Ok(mut ways) = Vec::with_capacity(alloc, count) else {
        return Err(NoMemory);
    };
    for _ in 0..count {
        ways.push_reserved(None);
    }
    Ok(ways)
}

/// As many tags, of ways with no frame.
pub(crate) fn no_tags(alloc: Global, count: usize) -> Result<Vec<u32>, NoMemory>
    ensures { IfOk result (λ v. v.items ≡ replicate count 4294967295) }
{
    let Ok(mut tags) = Vec::with_capacity(alloc, count) else {
        return Err(NoMemory);
    };
    for _ in 0..count {
        tags.push_reserved(u32::MAX);
    }
    Ok(tags)
}

/// As many zeros.
pub(crate) fn zeros(alloc: Global, count: usize) -> Result<Vec<u8>, NoMemory>
    ensures { IfOk result (λ v. v.items ≡ replicate count 0) }
{
    let Ok(mut numbers) = Vec::with_capacity(alloc, count) else {
        return Err(NoMemory);
    };
    for _ in 0..count {
        numbers.push_reserved(0);
    }
    Ok(numbers)
}

/// The way after a change of all frames.
pub(crate) fn changed(way: Option<FrameView>, change: Change) -> Option<FrameView>
    ensures { result ≡ option_map (changed_frame change) way }
{
    match way {
        None => None,
        Some(mut frame) => {
            frame.change(change);
            Some(frame)
        }
    }
}

/// Changes all frames, way by way.
pub(crate) fn change_all(ways: &mut [Option<FrameView>], change: Change)
    ensures { ways.new ≡ all_changed change ways.old }
{
    for way in ways.iter_mut() {
        *way = changed(*way, change);
    }
}
