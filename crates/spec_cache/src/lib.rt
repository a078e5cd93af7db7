// A core's speculative cache: frames by set and way, with marks for each word.
#![tactic(auto)]

mod alike;
mod cache;
mod frame;
mod frames;
mod home_counts;
mod in_place;
mod list_frames;
mod look;
mod marked_sets;
mod marks;
mod masks;
mod noted;
mod per_set;
mod places;
mod quotients;
mod readers;
mod restoring;
mod search;
mod set_frames;
mod slots;
mod tracked;
mod useful;
mod ways;

pub use cache::SpecCache;
pub use frame::{Change, FrameView};
pub use frames::Frames;
pub use list_frames::ListFrames;
pub use look::{Evicted, Invalidated, Look};
pub use set_frames::SetFrames;
pub use useful::Wants;
pub use ways::Ways;
