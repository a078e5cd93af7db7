// What a core asks of its cache between its changes: single frames, and what all frames hold together.
ghost use Rattle.std.specs.Prelude.{◌≡◌, ◌<◌, ◌≤◌, ◌&&◌, ◌||◌, ◌==◌, ℕ, Option, None, Some, MatchOption, IfOk, IfSome, OnOk};
ghost use Rattle.std.specs.Prelude.{cond, get_or, length, map, true};
ghost use Rattle.std.specs.Option.{option_map};
ghost use Rattle.rules_maps.specs.Words.{any_below, count_below, those};
ghost use Rattle.rules_maps.specs.Shape.{lines, home, set_of};
ghost use Rattle.rules_maps.specs.Cache.{IsCache, keeps as keeps_word, is_marked as marked_line, is_modified as modified_line};
ghost use Rattle.rules_maps.specs.Cache.{is_dirty as dirty_line, writes_at as any_write, marks_by_home as every_mark};
ghost use Rattle.rules_maps.specs.CacheUse.{is_number, useful_ways};
ghost use Rattle.rules_maps.specs.CacheLook.{reads_masked as any_masked};
ghost use Rattle.spec_cache.specs.Held.{maps, IsHeld};
ghost use Rattle.spec_cache.specs.Home.{mark_of};
ghost use Rattle.spec_cache.specs.MarkedSets.{has_marked};
ghost use Rattle.spec_cache.specs.Useful.{wants_of, useful_in, in_set};
ghost use Rattle.spec_cache.specs.PerSet.{count_set, idle_way, used_way};

use crate::cache::SpecCache;
use crate::frame::FrameView;
use crate::frames::{line_of_word, place_of_word};
use crate::masks::has;
use crate::useful::Wants;
use crate::ways::Ways;
use tcc_base::{Config, DirId, LineAddr, List, Mask, NoMemory, WordAddr};

impl SpecCache {
    /// A law of every cache: its ways are in order, its maps are consistent, and each line that has a frame is one of memory. It
    /// takes constant time.
    pub fn keeps_order(&self)
        ensures in_order { IsHeld self.now }
        ensures consistent { IsCache self.now.config (maps self.now) }
        ensures in_memory { (l : ℕ) → (maps self.now).held l ≡ true → l < lines self.now.config }
    {
        let _config = self.frames.config();
    }

    /// The machine's settings.
    pub fn config(&self) -> Config
        ensures { result ≡ self.now.config }
    {
        self.frames.config()
    }

    /// The number of its ways, by which they have the places from 0: way `y` of set `s` has place `s * ways + y`. It takes constant time.
    pub fn way_count(&self) -> usize
        ensures { result ≡ length self.now.frames }
    {
        self.frames.frames().len()
    }

    /// The frame of the way at a place; None where it holds no line, and where there is no such way. It takes constant time.
    pub fn way_at(&self, place: usize) -> Option<FrameView>
        ensures { result ≡ get_or self.now.frames place None }
    {
        match self.frames.frames().get(place) {
            Some(way) => *way,
            None => None,
        }
    }

    /// Whether the line has a frame.
    pub fn has_frame(&self, line: LineAddr) -> bool
        ensures { result ≡ (maps self.now).held line.0 }
    {
        self.frames.find(line).is_some()
    }

    /// Whether the line has a frame with a valid word.
    pub fn keeps(&self, line: LineAddr) -> bool
        ensures { result ≡ keeps_word (maps self.now) line.0 }
    {
        match self.frames.find(line) {
            None => false,
            Some((_, frame)) => frame.valid.0 != 0,
        }
    }

    /// Whether the word is modified.
    pub fn is_modified(&self, w: WordAddr) -> bool
        ensures { result ≡ (maps self.now).modified w.0 }
    {
        match self.frames.find(line_of_word(w)) {
            None => false,
            Some((_, frame)) => has(frame.modified.0, place_of_word(w)),
        }
    }

    /// The line of a way, and whether its frame is marked; None exactly where the way holds no line.
    pub fn way(&self, set: u16, way: u8) -> Option<(LineAddr, bool)>
        requires set_exists { set < self.now.config.sets }
        requires way_exists { way < self.now.config.ways }
        ensures { MatchOption result ((maps self.now).at set way ≡ None)
            (λ p. ((maps self.now).at set way ≡ Some p.0.0) × (p.1 ≡ marked_line (maps self.now) p.0.0)) }
    {
        match self.frames.way(self.frames.place_of_way(set, way)) {
            None => None,
            Some(frame) => Some((frame.line, frame.is_marked())),
        }
    }

    /// The number of lines at home at the directory that have modified words.
    pub fn write_count(&self, d: DirId) -> u32
        ensures { result ≡ count_below (λ l. d.0 == home self.now.config l && modified_line (maps self.now) l) (lines self.now.config) }
    {
        self.frames.write_count(d) as u32
    }

    /// Whether a line at home at the directory has modified words.
    pub fn writes_at(&self, d: DirId) -> bool
        ensures { result ≡ any_write self.now.config (maps self.now) d.0 }
    {
        self.write_count(d) != 0
    }

    /// Puts the lines at home at the directory that have modified words into the list, in rising order, each with the mask of these
    /// words, in place of what the list held. It takes memory for them, and one pass over the marked frames.
    pub fn marks_into(&self, d: DirId, marks: &mut Vec<(LineAddr, Mask)>) -> Result<(), NoMemory>
        ensures { OnOk result (map mark_of marks.new.items ≡ every_mark self.now.config (maps self.now) d.0) }
    {
        *marks = self.marks_by_home(d)?;
        Ok(())
    }

    /// The set in which a line may have a frame. It takes constant time.
    pub fn set_of_line(&self, line: LineAddr) -> u16
        ensures value { result ≡ set_of self.now.config line.0 }
        ensures exists { result < self.now.config.sets }
        ensures consistent { IsCache self.now.config (maps self.now) }
    {
        self.frames.set_of_line(line)
    }

    /// The line that a way holds; None exactly where it holds none, or there is no such way. It takes constant time.
    pub fn line_at(&self, set: u16, way: u8) -> Option<LineAddr>
        ensures { option_map (λ l. l.0) result ≡ (maps self.now).at set way }
    {
        let config = self.frames.config();
        if set >= config.sets() || way >= config.ways() {
            return None;
        }
        match self.way(set, way) {
            Some((line, _)) => Some(line),
            None => None,
        }
    }

    /// Whether a masked word of the line is marked read. It takes time in the ways of a set.
    pub fn reads_masked(&self, line: LineAddr, mask: Mask) -> bool
        ensures { result ≡ any_masked line.0 mask.0 (maps self.now) }
    {
        match self.frames.find(line) {
            None => false,
            Some((_, frame)) => frame.read.0 & mask.0 != 0,
        }
    }

    /// The sets in which a frame is marked, and this one, in rising order. It takes time in the frames that were marked since the last
    /// commit or roll back, and memory for their sets.
    pub fn marked_sets(&self, and: Option<u16>) -> Result<List<u16>, NoMemory>
        requires { IfSome and (λ x. x < self.now.config.sets) }
        ensures { IfOk result (λ sets. sets
            ≡ those (λ x. is_number and x || has_marked self.now.config (maps self.now) x) self.now.config.sets) }
    {
        self.frames.marked_sets(and)
    }

    /// Whether any word is dirty.
    pub fn any_dirty(&self) -> bool
        ensures { result ≡ any_below (dirty_line (maps self.now)) (lines self.now.config) }
    {
        self.frames.dirty_count() != 0
    }

    /// How many ways may be emptied with use. Takes a step a way of two sets at most.
    pub fn useful_count(&self, wants: Wants) -> usize
        ensures { result ≡ length (useful_ways self.now.config (wants_of wants) (maps self.now)) }
    {
        if wants.is_plain() {
            return self.frames.useful_ways(wants.alone);
        }
        self.useful_count_of_sets(wants)
    }

    /// The same where a line is awaited or room is wanted.
    #[inline(never)]
    fn useful_count_of_sets(&self, wants: Wants) -> usize
        ensures { result ≡ length (useful_ways self.now.config (wants_of wants) (maps self.now)) }
    {
        let sets = self.frames.config().sets();
        let room = wants.room_set(sets);
        let line = wants.line_set(sets);
        let found = self.found_in(wants, room) + self.found_in(wants, line);
        let counted = self.counted_in(wants.alone, room) + self.counted_in(wants.alone, line);
        self.frames.useful_ways(wants.alone) + found - counted
    }

    /// How many ways of a set may be emptied with use, as its ways are; zero of no set.
    fn found_in(&self, wants: Wants, set: Option<u16>) -> usize
        requires { IfSome set (λ s. s < self.now.config.sets) }
        ensures number { result ≡ in_set (λ s. count_set (useful_in (wants_of wants) s) self.now s) set }
        ensures few { result ≤ 16 }
    {
        match set {
            Some(set) => self.look_at_set(wants, set as usize),
            None => 0,
        }
    }

    /// How many ways of a set are counted as such; zero of no set.
    fn counted_in(&self, alone: bool, set: Option<u16>) -> usize
        requires { IfSome set (λ s. s < self.now.config.sets) }
        ensures number { result ≡ in_set (λ s. cond alone (count_set used_way self.now s) (count_set idle_way self.now s)) set }
        ensures few { result ≤ 16 }
    {
        match set {
            Some(set) => self.frames.useful_in_set(alone, set as usize),
            None => 0,
        }
    }

    /// How many ways of a set may be emptied with use, way by way.
    pub(crate) fn look_at_set(&self, wants: Wants, set: usize) -> usize
        requires { set < self.now.config.sets }
        ensures number { result ≡ count_set (useful_in (wants_of wants) set) self.now set }
        ensures few { result ≤ 16 }
    {
        let ways = self.frames.config().ways() as usize;
        let mut count = 0;
        for way in 0..ways {
            if wants.finds(set, &self.frames.way(set * ways + way)) {
                count += 1;
            }
        }
        count
    }
}
