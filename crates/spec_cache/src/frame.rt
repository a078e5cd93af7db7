// A frame: one line's eight words with their marks, and how each call of the cache changes it.
ghost use Rattle.std.specs.Prelude.{false, ◌≡◌, ◌≢◌, ℕ, ◌^◌, ◌<◌, ◌≤◌, ◌↔◌, ◌==◌, ◌&&◌, Bool, not, IsTrue, Option, Some, None, length};
ghost use Rattle.rules_maps.specs.Masks.{has as has_word, meet, masked};
ghost use Rattle.spec_cache.specs.Frame.{value_in, read_in, modified_in, empty_frame, marked_frame, stored_frame, filled_frame, filled_up};
ghost use Rattle.spec_cache.specs.Frame.{invalidated_frame, cleaned_frame, dropped_frame, rolled_back_frame, read_cleared_frame};
ghost use Rattle.spec_cache.specs.Frame.{committed_frame, dirty_part};

use crate::masks::{bit, has, without};
use tcc_base::{LineAddr, Mask, Tagged, Tid};

/// A frame as a reader sees it. Words that aren't valid have no meaning, nor has the tag of a frame with no dirty word.
#[derive(Clone, Copy, Debug, PartialEq, Eq)]
pub struct FrameView {
    pub line: LineAddr,
    pub words: [u32; 8],
    pub valid: Mask,
    pub read: Mask,
    pub modified: Mask,
    pub dirty: Mask,
    pub tag: Tid,
}

/// A change of all frames at once.
#[derive(Clone, Copy, Debug, PartialEq, Eq)]
pub enum Change {
    /// Modified words become invalid, and both marks are cleared.
    RollBack,
    /// The read marks are cleared.
    ClearRead,
    /// Modified words become dirty with this tag, and both marks are cleared.
    Commit(Tid),
}

impl FrameView {
    ghost use Rattle.spec_cache.specs.Change.{changed_frame};

    /// A frame of the line with no valid word.
    #[tactic(auto, unfolding(crate::specs::Frame::empty_frame, rules_maps::specs::Words::eight))]
    pub(crate) fn empty(line: LineAddr) -> FrameView
        ensures { result ≡ empty_frame line.0 }
    {
        FrameView {
            line,
            words: [0; 8],
            valid: Mask(0),
            read: Mask(0),
            modified: Mask(0),
            dirty: Mask(0),
            tag: Tid(0),
        }
    }

    /// The value of the word at place `k`, where it is valid.
    #[tactic(auto, unfolding(crate::specs::Frame::value_in))]
    pub(crate) fn word(&self, k: usize) -> Option<u32>
        requires { k < 8 }
        ensures { result ≡ value_in (Some self.now) k }
    {
        if has(self.valid.0, k) {
            Some(self.words[k])
        } else {
            None
        }
    }

    /// Whether a word is marked read or modified.
    pub(crate) fn is_marked(&self) -> bool
        ensures { result ≡ not (self.now.read.0 == 0 && self.now.modified.0 == 0) }
    {
        !(self.read.0 == 0 && self.modified.0 == 0)
    }

    /// Whether a word is modified or dirty.
    pub(crate) fn is_written(&self) -> bool
        ensures { result ≡ not (self.now.modified.0 == 0 && self.now.dirty.0 == 0) }
    {
        !(self.modified.0 == 0 && self.dirty.0 == 0)
    }

    /// Marks the word at place `k` read, unless it is modified. Says whether that changes anything.
    #[tactic(auto, unfolding(crate::specs::Frame::marked_frame))]
    pub(crate) fn mark_read(&mut self, k: usize) -> bool
        requires { k < 8 }
        ensures marked { self.new ≡ marked_frame k self.old }
        ensures same { result ≡ false → self.new ≡ self.old }
    {
        let before = self.read.0;
        self.read.0 |= without(bit(k), self.modified.0);
        self.read.0 != before
    }

    /// Hands out the dirty words with their tag, where there are any, and leaves them valid and clean.
    #[tactic(auto, unfolding(crate::specs::Frame::cleaned_frame, crate::specs::Frame::dirty_part))]
    pub(crate) fn take_dirty(&mut self) -> Option<Tagged>
        ensures part { result ≡ dirty_part self.old }
        ensures frame { self.new ≡ cleaned_frame self.old }
    {
        if self.dirty.0 == 0 {
            return None;
        }
        let part = Tagged {
            line: self.line,
            mask: self.dirty,
            words: masked_words(self.dirty.0, &self.words),
            tag: self.tag,
        };
        self.dirty = Mask(0);
        Some(part)
    }

    /// Stores a word, which becomes valid and modified, and read too where `also` is set. The dirty words are handed out
    /// first, and the frame is clean then.
    #[tactic(auto, unfolding(crate::specs::Frame::stored_frame, crate::specs::Frame::cleaned_frame))]
    pub(crate) fn store(&mut self, k: usize, value: u32, also: bool) -> Option<Tagged>
        requires { k < 8 }
        ensures part { result ≡ dirty_part self.old }
        ensures frame { self.new ≡ stored_frame k value also self.old }
    {
        let part = self.take_dirty();
        self.words[k] = value;
        self.valid.0 |= bit(k);
        self.modified.0 |= bit(k);
        if also {
            self.read.0 |= bit(k);
        }
        part
    }

    /// Gives the words that aren't valid their values.
    #[tactic(auto, unfolding(crate::specs::Frame::filled_frame))]
    pub(crate) fn fill(&mut self, words: &[u32; 8])
        ensures { self.new ≡ filled_frame words.now self.old }
    {
        self.words = filled_words(self.valid.0, &self.words, words);
        self.valid = Mask(255);
    }

    /// Makes the masked words that aren't modified invalid and clean.
    #[tactic(auto, unfolding(crate::specs::Frame::invalidated_frame))]
    pub(crate) fn invalidate(&mut self, mask: Mask)
        ensures { self.new ≡ invalidated_frame mask.0 self.old }
    {
        let struck = without(mask.0, self.modified.0);
        self.valid.0 = without(self.valid.0, struck);
        self.dirty.0 = without(self.dirty.0, struck);
    }

    /// Makes the masked words invalid, clean and not modified.
    #[tactic(auto, unfolding(crate::specs::Frame::dropped_frame))]
    pub(crate) fn drop_words(&mut self, mask: Mask)
        ensures { self.new ≡ dropped_frame mask.0 self.old }
    {
        self.valid.0 = without(self.valid.0, mask.0);
        self.modified.0 = without(self.modified.0, mask.0);
        self.dirty.0 = without(self.dirty.0, mask.0);
    }

    /// Makes the modified words invalid and clears both marks.
    #[tactic(auto, unfolding(crate::specs::Frame::rolled_back_frame))]
    pub(crate) fn roll_back(&mut self)
        ensures { self.new ≡ rolled_back_frame self.old }
    {
        self.valid.0 = without(self.valid.0, self.modified.0);
        self.read = Mask(0);
        self.modified = Mask(0);
    }

    /// Clears the read marks.
    #[tactic(auto, unfolding(crate::specs::Frame::read_cleared_frame))]
    pub(crate) fn clear_read(&mut self)
        ensures { self.new ≡ read_cleared_frame self.old }
    {
        self.read = Mask(0);
    }

    /// Turns modified words into dirty ones with the TID as tag, and clears both marks.
    #[tactic(auto, unfolding(crate::specs::Frame::committed_frame, crate::specs::Frame::committed_modified))]
    pub(crate) fn commit(&mut self, tid: Tid)
        ensures { self.new ≡ committed_frame tid.0 self.old }
    {
        self.read = Mask(0);
        if self.modified.0 != 0 {
            self.dirty = self.modified;
            self.modified = Mask(0);
            self.tag = tid;
        }
    }

    /// The frame after a change of all frames.
    pub(crate) fn change(&mut self, change: Change)
        ensures { self.new ≡ changed_frame change self.old }
    {
        match change {
            Change::RollBack => self.roll_back(),
            Change::ClearRead => self.clear_read(),
            Change::Commit(tid) => self.commit(tid),
        }
    }
}

/// The words under the mask, zero elsewhere.
fn masked_words(mask: u8, words: &[u32; 8]) -> [u32; 8]
    ensures { result ≡ masked mask words.now }
{
    let mut kept = [0; 8];
    for k in 0..8 {
        if has(mask, k) {
            kept[k] = words[k];
        }
    }
    kept
}

/// The words with those that aren't valid taken from `values`.
fn filled_words(valid: u8, words: &[u32; 8], values: &[u32; 8]) -> [u32; 8]
    ensures { result ≡ filled_up valid words.now values.now }
{
    let mut filled = *words;
    for k in 0..8 {
        if !has(valid, k) {
            filled[k] = values[k];
        }
    }
    filled
}
