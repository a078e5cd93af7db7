// The calls of a cache, over any form of its frames.
ghost use Rattle.std.specs.Prelude.{◌≡◌, ◌<◌, ◌%◌, ℕ, [], length, Option, Some, None, MatchBool, MatchOption, MatchResult, IfOk, map};
ghost use Rattle.std.specs.Prelude.{IsTrue, IsSome, is_some, false};
ghost use Rattle.std.specs.Option.{option_map};
ghost use Rattle.rules_maps.specs.Words.{line_of};
ghost use Rattle.rules_maps.specs.Shape.{lines, set_of};
ghost use Rattle.rules_maps.specs.Bridge.{tagged_of};
ghost use Rattle.rules_maps.specs.Cache.{IsCache, dirty_copy, free_way as lowest_free, keeps as keeps_word, reads_at as any_read};
ghost use Rattle.rules_maps.specs.Cache.{marks_by_home as every_mark};
ghost use Rattle.rules_maps.specs.CacheChange.{stored, placed, filled, invalidated, cleaned, evicted, words_dropped, rolled_back};
ghost use Rattle.rules_maps.specs.CacheChange.{read_cleared, committed};
ghost use Rattle.rules_maps.specs.CacheLook.{look_load as load_answer, look_store as store_answer, look_line, reads_masked};
ghost use Rattle.rules_maps.specs.Spilled.{spill, none_spilled};
ghost use Rattle.spec_cache.specs.Held.{Held, maps};
ghost use Rattle.spec_cache.specs.Home.{mark_of};
ghost use Rattle.spec_cache.specs.Look.{look_of, loaded, Views, Gives, StoresClean};

use crate::frame::{Change, FrameView};
use crate::look::{Evicted, Invalidated, Look};
use crate::marks::put_in_order;
use crate::ways::Ways;
use tcc_base::{DirId, LineAddr, Mask, NoMemory, Tagged, Tid, WordAddr};

/// The number of a word's line.
pub(crate) fn line_of_word(w: WordAddr) -> LineAddr
    ensures { result.0 ≡ line_of w.0 }
{
    LineAddr(w.0 / 8)
}

/// A word's place in its line, below eight.
pub(crate) fn place_of_word(w: WordAddr) -> usize
    ensures { result ≡ w.0 % 8 }
{
    w.0 as usize % 8
}

/// The calls of a cache.
pub trait Frames: Ways {
    /// What a load of the word finds, with no mark.
    fn look_load(&self, w: WordAddr) -> Look
        ensures answer { look_of result ≡ load_answer (Self.held self.now).config w.0 (maps (Self.held self.now)) }
        ensures consistent { IsCache (Self.held self.now).config (maps (Self.held self.now)) }
    {
        let line = line_of_word(w);
        match self.find(line) {
            None => self.room_for(line),
            Some((_, frame)) => match frame.word(place_of_word(w)) {
                None => Look::Miss,
                Some(value) => Look::Hit(value),
            },
        }
    }

    /// What a load of the word finds. A word that is found is marked read, where `mark` is set and it isn't modified.
    fn load(&mut self, w: WordAddr, mark: bool) -> Look
        ensures config { (Self.held self.new).config ≡ (Self.held self.old).config }
        ensures maps { maps (Self.held self.new) ≡ loaded w.0 mark (maps (Self.held self.old)) }
        ensures answer { look_of result ≡ load_answer (Self.held self.old).config w.0 (maps (Self.held self.old)) }
    {
        let line = line_of_word(w);
        let Some((at, mut frame)) = self.find(line) else {
            return self.room_for(line);
        };
        let place = place_of_word(w);
        let Some(value) = frame.word(place) else {
            return Look::Miss;
        };
        if !mark {
            return Look::Hit(value);
        }
        if frame.mark_read(place) {
            self.put(at, Some(frame));
        }
        Look::Hit(value)
    }

    /// What a store to the word finds: of a whole word, where `whole` is set, or of a part of it.
    fn look_store(&self, w: WordAddr, whole: bool) -> Look
        ensures { look_of result ≡ store_answer (Self.held self.now).config w.0 whole (maps (Self.held self.now)) }
    {
        if !whole {
            return self.look_load(w);
        }
        let line = line_of_word(w);
        match self.find(line) {
            None => self.room_for(line),
            Some(_) => Look::Hit(0),
        }
    }

    /// Stores a word of a line that has a frame. The frame's dirty words are handed out first, where there are any, and
    /// it is clean then. The word becomes valid and modified, and read too where `mark_read` is set.
    fn store(&mut self, w: WordAddr, value: u32, mark_read: bool) -> Option<Tagged>
        requires { IsTrue ((maps (Self.held self.old)).held (line_of w.0)) }
        ensures config { (Self.held self.new).config ≡ (Self.held self.old).config }
        ensures maps { maps (Self.held self.new) ≡ stored w.0 value mark_read (maps (Self.held self.old)) }
        ensures out { option_map tagged_of result ≡ dirty_copy (maps (Self.held self.old)) (line_of w.0) }
    {
        let (at, mut frame) = self.seek(line_of_word(w));
        let out = frame.store(place_of_word(w), value, mark_read);
        self.put(at, Some(frame));
        out
    }

    /// Stores a word of a line whose frame has no dirty word, and says whether it did; else nothing is changed. The word becomes
    /// valid and modified, and read too where `mark_read` is set.
    fn store_clean(&mut self, w: WordAddr, value: u32, mark_read: bool) -> bool
        ensures config { (Self.held self.new).config ≡ (Self.held self.old).config }
        ensures does { MatchBool result (StoresClean w.0 value mark_read (maps (Self.held self.old)) (maps (Self.held self.new)))
            (maps (Self.held self.new) ≡ maps (Self.held self.old)) }
    {
        let line = line_of_word(w);
        let Some((at, mut frame)) = self.find(line) else {
            return false;
        };
        if frame.dirty.0 != 0 {
            return false;
        }
        let _ = frame.store(place_of_word(w), value, mark_read);
        self.put(at, Some(frame));
        true
    }

    /// Gives a line that has no frame the lowest free way of its set, with no valid word; Err of the set exactly where
    /// none is free.
    fn place(&mut self, line: LineAddr) -> Result<(), u16>
        requires exists { line.0 < lines (Self.held self.old).config }
        requires absent { (maps (Self.held self.old)).held line.0 ≡ false }
        ensures config { (Self.held self.new).config ≡ (Self.held self.old).config }
        ensures maps { maps (Self.held self.new) ≡ placed (Self.held self.old).config line.0 (maps (Self.held self.old)) }
        ensures answer { let free = lowest_free (Self.held self.old).config (maps (Self.held self.old))
            (set_of (Self.held self.old).config line.0) in
            MatchResult result (λ _. IsSome free) (λ s. (free ≡ None) × (s ≡ set_of (Self.held self.old).config line.0)) }
    {
        let set = self.set_of_line(line);
        let Some(way) = self.free_way(set) else {
            return Err(set);
        };
        let at = self.place_of_way(set, way);
        self.put(at, Some(FrameView::empty(line)));
        Ok(())
    }

    /// Gives the words of the line that aren't valid these values. The line has a frame.
    fn fill(&mut self, line: LineAddr, words: &[u32; 8])
        requires { IsTrue ((maps (Self.held self.old)).held line.0) }
        ensures config { (Self.held self.new).config ≡ (Self.held self.old).config }
        ensures maps { maps (Self.held self.new) ≡ filled line.0 words.now (maps (Self.held self.old)) }
    {
        let (at, mut frame) = self.seek(line);
        frame.fill(words);
        self.put(at, Some(frame));
    }

    /// Makes the masked words of the line that aren't modified invalid and clean, and says whether a masked word was
    /// marked read, and whether the line has a frame with a valid word still.
    fn invalidate(&mut self, line: LineAddr, mask: Mask) -> Invalidated
        ensures config { (Self.held self.new).config ≡ (Self.held self.old).config }
        ensures maps { maps (Self.held self.new) ≡ invalidated line.0 mask.0 (maps (Self.held self.old)) }
        ensures read_hit { result.read_hit ≡ reads_masked line.0 mask.0 (maps (Self.held self.old)) }
        ensures keeps { result.keeps ≡ keeps_word (maps (Self.held self.new)) line.0 }
    {
        let Some((at, mut frame)) = self.find(line) else {
            return Invalidated {
                read_hit: false,
                keeps: false,
            };
        };
        let read_hit = frame.read.0 & mask.0 != 0;
        frame.invalidate(mask);
        let keeps = frame.valid.0 != 0;
        self.put(at, Some(frame));
        Invalidated { read_hit, keeps }
    }

    /// Hands out the line's dirty words, which stay valid and are clean then; None exactly where there are none.
    fn take_dirty(&mut self, line: LineAddr) -> Option<Tagged>
        ensures config { (Self.held self.new).config ≡ (Self.held self.old).config }
        ensures maps { maps (Self.held self.new) ≡ cleaned line.0 (maps (Self.held self.old)) }
        ensures out { option_map tagged_of result ≡ dirty_copy (maps (Self.held self.old)) line.0 }
    {
        let Some((at, mut frame)) = self.find(line) else {
            return None;
        };
        let out = frame.take_dirty();
        self.put(at, Some(frame));
        out
    }

    /// Empties a way and hands out what its frame held; None exactly where it holds no line.
    fn evict(&mut self, set: u16, way: u8) -> Option<Evicted>
        requires set_exists { set < (Self.held self.old).config.sets }
        requires way_exists { way < (Self.held self.old).config.ways }
        ensures config { (Self.held self.new).config ≡ (Self.held self.old).config }
        ensures maps { maps (Self.held self.new) ≡ evicted set way (maps (Self.held self.old)) }
        ensures out { MatchOption result ((maps (Self.held self.old)).at set way ≡ None)
            (λ e. ((maps (Self.held self.old)).at set way ≡ Some e.line.0) × Gives (maps (Self.held self.old)) e.line.0 e) }
    {
        let at = self.place_of_way(set, way);
        let Some(mut frame) = self.way(at) else {
            return None;
        };
        self.put(at, None);
        Some(Evicted {
            line: frame.line,
            modified: frame.modified,
            words: frame.words,
            back: frame.take_dirty(),
        })
    }

    /// Makes the masked words of the line invalid, clean and not modified. Their read marks stay.
    fn drop_words(&mut self, line: LineAddr, mask: Mask)
        ensures config { (Self.held self.new).config ≡ (Self.held self.old).config }
        ensures maps { maps (Self.held self.new) ≡ words_dropped (spill line.0 mask.0 [] none_spilled) (maps (Self.held self.old)) }
    {
        if let Some((at, mut frame)) = self.find(line) {
            frame.drop_words(mask);
            self.put(at, Some(frame));
        }
    }

    /// Makes all modified words invalid, and clears both marks.
    fn roll_back(&mut self)
        ensures config { (Self.held self.new).config ≡ (Self.held self.old).config }
        ensures maps { maps (Self.held self.new) ≡ rolled_back (maps (Self.held self.old)) }
    {
        self.change(Change::RollBack);
    }

    /// Clears all read marks.
    fn clear_read(&mut self)
        ensures config { (Self.held self.new).config ≡ (Self.held self.old).config }
        ensures maps { maps (Self.held self.new) ≡ read_cleared (maps (Self.held self.old)) }
    {
        self.change(Change::ClearRead);
    }

    /// Whether a word of a line at home at the directory is marked read.
    fn reads_at(&self, d: DirId) -> bool
        ensures { result ≡ any_read (Self.held self.now).config (maps (Self.held self.now)) d.0 }
    {
        self.any_reads_at(d)
    }

    /// The lines at home at the directory that have modified words, in rising order, each with the mask of these words.
    fn marks_by_home(&self, d: DirId) -> Result<Vec<(LineAddr, Mask)>, NoMemory>
        ensures { IfOk result (λ v. map mark_of v.items ≡ every_mark (Self.held self.now).config (maps (Self.held self.now)) d.0) }
    {
        let mut lines = self.written_at(d)?;
        put_in_order(&mut lines);
        let Ok(mut marks) = Vec::with_capacity(*lines.allocator(), lines.len()) else {
            return Err(NoMemory);
        };
        for line in &lines {
            let (_, frame) = self.seek(LineAddr(*line));
            marks.push_reserved((frame.line, frame.modified));
        }
        Ok(marks)
    }

    /// Turns modified words into dirty ones with the TID as tag, and clears both marks.
    fn commit(&mut self, tid: Tid)
        ensures config { (Self.held self.new).config ≡ (Self.held self.old).config }
        ensures maps { maps (Self.held self.new) ≡ committed tid.0 (maps (Self.held self.old)) }
    {
        self.change(Change::Commit(tid));
    }

    /// The frame of a way; None exactly where it holds no line.
    fn frame(&self, set: u16, way: u8) -> Option<FrameView>
        requires set_exists { set < (Self.held self.now).config.sets }
        requires way_exists { way < (Self.held self.now).config.ways }
        ensures view { MatchOption result ((maps (Self.held self.now)).at set way ≡ None)
            (λ f. ((maps (Self.held self.now)).at set way ≡ Some f.line.0) × Views (maps (Self.held self.now)) f.line.0 f) }
        ensures consistent { IsCache (Self.held self.now).config (maps (Self.held self.now)) }
    {
        self.way(self.place_of_way(set, way))
    }

    /// The frame of a line; None exactly where it has none.
    fn frame_of(&self, line: LineAddr) -> Option<FrameView>
        ensures view { MatchOption result ((maps (Self.held self.now)).held line.0 ≡ false)
            (λ f. IsTrue ((maps (Self.held self.now)).held line.0) × Views (maps (Self.held self.now)) line.0 f) }
        ensures consistent { IsCache (Self.held self.now).config (maps (Self.held self.now)) }
    {
        match self.find(line) {
            None => None,
            Some((_, frame)) => Some(frame),
        }
    }
}
