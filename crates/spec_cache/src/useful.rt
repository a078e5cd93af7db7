// Which ways of a cache may be emptied with use.
ghost use Rattle.std.specs.Prelude.{◌≡◌, ◌<◌, ◌/◌, ◌&&◌, ◌||◌, ℕ, true, false, not, Some, None, IfSome};
ghost use Rattle.rules_maps.specs.CacheUse.{is_number};
ghost use Rattle.spec_cache.specs.PerSet.{idle_way, used_way};
ghost use Rattle.spec_cache.specs.Useful.{wants_of, is_marked_frame, is_written_frame, useful_in, dirty_way, room_set as set_of_room};
ghost use Rattle.spec_cache.specs.Useful.{line_set as set_of_line, awaited_set as set_of_awaited, other_set};

use crate::frame::FrameView;
use tcc_base::LineAddr;

/// What decides, beside the cache, which of its ways may be emptied with use.
#[derive(Clone, Copy, Debug, PartialEq, Eq)]
pub struct Wants {
    /// The core is alone, so that marked frames may be emptied too.
    pub alone: bool,
    /// The line that the core awaits, which stays.
    pub awaited: Option<LineAddr>,
    /// The set in which the core waits for room.
    pub room: Option<u16>,
}

impl Wants {
    /// Whether the core awaits this line.
    fn awaits(&self, line: LineAddr) -> bool
        ensures { result ≡ is_number (wants_of self.now).awaited line.0 }
    {
        match self.awaited {
            None => false,
            Some(awaited) => awaited.0 == line.0,
        }
    }

    /// Whether the core waits for room in this set.
    fn wants_room(&self, set: usize) -> bool
        ensures { result ≡ is_number self.now.room set }
    {
        is_set(self.room, set)
    }

    /// Whether no line is awaited and no room is wanted.
    pub(crate) fn is_plain(&self) -> bool
        ensures line { result ≡ true → (wants_of self.now).awaited ≡ None }
        ensures room { result ≡ true → self.now.room ≡ None }
    {
        self.awaited.is_none() && self.room.is_none()
    }

    /// The set of the line that the core awaits, of as many.
    pub(crate) fn awaited_set(&self, sets: u16) -> Option<u16>
        requires { 0 < sets }
        ensures { result ≡ set_of_awaited sets (wants_of self.now) }
    {
        match self.awaited {
            Some(line) => Some((line.0 % sets as u32) as u16),
            None => None,
        }
    }

    /// Whether room is wanted in this set, or the awaited line is of this set.
    pub(crate) fn touches(&self, line: Option<u16>, set: usize) -> bool
        ensures { result ≡ (is_number self.now.room set || is_number line set) }
    {
        self.wants_room(set) || is_set(line, set)
    }

    /// Whether room is wanted in a set of this block of 32, or the awaited line is of one.
    pub(crate) fn touches_block(&self, line: Option<u16>, block: u16) -> bool
        ensures { result ≡ false → (set : ℕ) → set / 32 ≡ block → (is_number self.now.room set || is_number line set) ≡ false }
    {
        is_in_block(self.room, block) || is_in_block(line, block)
    }

    /// The set in which the core waits for room, of as many.
    pub(crate) fn room_set(&self, sets: u16) -> Option<u16>
        ensures value { result ≡ set_of_room sets (wants_of self.now) }
        ensures exists { IfSome result (λ s. s < sets) }
    {
        match self.room {
            Some(set) => if set < sets { Some(set) } else { None },
            None => None,
        }
    }

    /// The set of the line that the core awaits, of as many, where the core doesn't wait for room there.
    pub(crate) fn line_set(&self, sets: u16) -> Option<u16>
        requires { 0 < sets }
        ensures value { result ≡ set_of_line sets (wants_of self.now) }
        ensures exists { IfSome result (λ s. s < sets) }
    {
        match self.awaited {
            Some(line) => other((line.0 % sets as u32) as u16, self.room_set(sets)),
            None => None,
        }
    }

    /// Whether the frame is marked, and such frames aren't emptied.
    fn spares(&self, frame: &FrameView) -> bool
        ensures { result ≡ not self.now.alone && is_marked_frame frame.now }
    {
        !self.alone && frame.is_marked()
    }

    /// Whether the frame isn't emptied.
    fn keeps(&self, frame: &FrameView) -> bool
        ensures { result ≡ is_number (wants_of self.now).awaited frame.now.line.0 || (not self.now.alone && is_marked_frame frame.now) }
    {
        self.awaits(frame.line) || self.spares(frame)
    }

    /// Whether it is of use to empty the frame, of a way of this set.
    fn gains(&self, set: usize, frame: &FrameView) -> bool
        ensures { result ≡ is_written_frame frame.now || is_number self.now.room set }
    {
        frame.is_written() || self.wants_room(set)
    }

    /// Whether the way, of this set, may be emptied with use.
    #[tactic(auto, unfolding(crate::specs::Useful::useful_in))]
    pub(crate) fn finds(&self, set: usize, way: &Option<FrameView>) -> bool
        ensures { result ≡ useful_in (wants_of self.now) set way.now }
    {
        match way {
            None => false,
            Some(frame) => !self.keeps(frame) && self.gains(set, frame),
        }
    }
}

/// The set, where it isn't the first one.
fn other(set: u16, first: Option<u16>) -> Option<u16>
    ensures value { result ≡ other_set first (Some set) }
    ensures same { IfSome result (λ s. s ≡ set) }
{
    match first {
        Some(other) => if other == set { None } else { Some(set) },
        None => Some(set),
    }
}

/// Whether this is the set.
fn is_set(this: Option<u16>, set: usize) -> bool
    ensures { result ≡ is_number this set }
{
    match this {
        None => false,
        Some(this) => this as usize == set,
    }
}

/// Whether the set is in this block of 32.
fn is_in_block(this: Option<u16>, block: u16) -> bool
    ensures { result ≡ false → (set : ℕ) → set / 32 ≡ block → is_number this set ≡ false }
{
    match this {
        None => false,
        Some(this) => this / 32 == block,
    }
}

/// Whether the way may be emptied with use where the core isn't alone: it has a dirty word and no mark.
#[tactic(auto, unfolding(crate::specs::PerSet::idle_way))]
pub(crate) fn is_idle(way: &Option<FrameView>) -> bool
    ensures { result ≡ idle_way way.now }
{
    match way {
        None => false,
        Some(frame) => frame.dirty.0 != 0 && !frame.is_marked(),
    }
}

/// Whether the way may be emptied with use where the core is alone: it has a modified or a dirty word.
#[tactic(auto, unfolding(crate::specs::PerSet::used_way))]
pub(crate) fn is_used(way: &Option<FrameView>) -> bool
    ensures { result ≡ used_way way.now }
{
    match way {
        None => false,
        Some(frame) => frame.is_written(),
    }
}

/// Whether the way holds a frame with a dirty word.
#[tactic(auto, unfolding(crate::specs::Useful::dirty_way))]
pub(crate) fn is_dirty(way: &Option<FrameView>) -> bool
    ensures { result ≡ dirty_way way.now }
{
    match way {
        None => false,
        Some(frame) => frame.dirty.0 != 0,
    }
}
