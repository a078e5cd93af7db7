// A core's cache: the calls of its frames, held in one array by set and way.
ghost use Rattle.std.specs.Prelude.{◌≡◌, ◌<◌, ℕ, [], Option, Some, None, MatchBool, MatchOption, MatchResult, IfOk, map, IsTrue, IsSome};
ghost use Rattle.std.specs.Prelude.{◌*◌, is_some, false, replicate};
ghost use Rattle.std.specs.Option.{option_map};
ghost use Rattle.rules_maps.specs.Words.{line_of};
ghost use Rattle.rules_maps.specs.Shape.{lines, set_of};
ghost use Rattle.rules_maps.specs.Bridge.{tagged_of};
ghost use Rattle.rules_maps.specs.Cache.{IsCache, empty_cache, dirty_copy, free_way as lowest_free, keeps as keeps_word};
ghost use Rattle.rules_maps.specs.Cache.{reads_at as any_read, marks_by_home as every_mark};
ghost use Rattle.rules_maps.specs.CacheChange.{stored, placed, filled, invalidated, cleaned, evicted, words_dropped, rolled_back};
ghost use Rattle.rules_maps.specs.CacheChange.{read_cleared, committed};
ghost use Rattle.rules_maps.specs.CacheLook.{look_load as load_answer, look_store as store_answer, reads_masked};
ghost use Rattle.rules_maps.specs.Spilled.{spill, none_spilled};
ghost use Rattle.spec_cache.specs.Held.{Held, maps};
ghost use Rattle.spec_cache.specs.Home.{mark_of};
ghost use Rattle.spec_cache.specs.Look.{look_of, loaded, Views, Gives, StoresClean};

use crate::frame::FrameView;
use crate::frames::Frames;
use crate::look::{Evicted, Invalidated, Look};
use crate::set_frames::SetFrames;
use std::alloc::Global;
use std::marker::Model;
use tcc_base::{Config, DirId, LineAddr, Mask, NoMemory, Tagged, Tid, WordAddr};

/// A speculative cache. Contracts speak of its maps: which line each way holds, and for each word its value, its marks
/// and the tag of a dirty word. Each call asks that the sets, ways, lines and words that it names exist in the settings.
#[derive(Debug, Drop)]
pub struct SpecCache {
    pub(crate) frames: SetFrames,
}

impl Model for SpecCache {
    ghost use Rattle.spec_cache.specs.Held.{Held};

    ghost Value = { Held };

    ghost view = { λ c. c.frames };
}

impl SpecCache {
    /// An empty cache. All memory that it will need is taken here.
    pub fn new(alloc: Global, cfg: &Config) -> Result<SpecCache, NoMemory>
        ensures config { IfOk result (λ c. c.config ≡ cfg.now) }
        ensures frames { IfOk result (λ c. c.frames ≡ replicate (cfg.now.sets * cfg.now.ways) None) }
        ensures empty { IfOk result (λ c. maps c ≡ empty_cache) }
        ensures consistent { IfOk result (λ c. IsCache c.config (maps c)) }
    {
        Ok(SpecCache {
            frames: SetFrames::new(alloc, cfg)?,
        })
    }

    /// What a load of the word finds, with no mark.
    pub fn look_load(&self, w: WordAddr) -> Look
        ensures answer { look_of result ≡ load_answer self.now.config w.0 (maps self.now) }
        ensures consistent { IsCache self.now.config (maps self.now) }
    {
        self.frames.look_load(w)
    }

    /// What a load of the word finds. A word that is found is marked read, where `mark` is set and it isn't modified.
    pub fn load(&mut self, w: WordAddr, mark: bool) -> Look
        ensures config { self.new.config ≡ self.old.config }
        ensures maps { maps self.new ≡ loaded w.0 mark (maps self.old) }
        ensures answer { look_of result ≡ load_answer self.old.config w.0 (maps self.old) }
    {
        match self.frames.hit(w, mark) {
            Some(value) => Look::Hit(value),
            None => self.load_and_mark(w, mark),
        }
    }

    /// A load that may set a mark.
    #[inline(never)]
    fn load_and_mark(&mut self, w: WordAddr, mark: bool) -> Look
        ensures config { self.new.config ≡ self.old.config }
        ensures maps { maps self.new ≡ loaded w.0 mark (maps self.old) }
        ensures answer { look_of result ≡ load_answer self.old.config w.0 (maps self.old) }
    {
        self.frames.load(w, mark)
    }

    /// What a store to the word finds: of a whole word, where `whole` is set, or of a part of it.
    pub fn look_store(&self, w: WordAddr, whole: bool) -> Look
        ensures { look_of result ≡ store_answer self.now.config w.0 whole (maps self.now) }
    {
        self.frames.look_store(w, whole)
    }

    /// Stores a word of a line that has a frame. The frame's dirty words are handed out first, where there are any, and
    /// it is clean then. The word becomes valid and modified, and read too where `mark_read` is set.
    pub fn store(&mut self, w: WordAddr, value: u32, mark_read: bool) -> Option<Tagged>
        requires { IsTrue ((maps self.old).held (line_of w.0)) }
        ensures config { self.new.config ≡ self.old.config }
        ensures maps { maps self.new ≡ stored w.0 value mark_read (maps self.old) }
        ensures out { option_map tagged_of result ≡ dirty_copy (maps self.old) (line_of w.0) }
    {
        self.frames.store(w, value, mark_read)
    }

    /// Stores a word of a line whose frame has no dirty word, and says whether it did; else nothing is changed. The word becomes
    /// valid and modified, and read too where `mark_read` is set.
    pub fn store_clean(&mut self, w: WordAddr, value: u32, mark_read: bool) -> bool
        ensures config { self.new.config ≡ self.old.config }
        ensures does { MatchBool result (StoresClean w.0 value mark_read (maps self.old) (maps self.new)) (maps self.new ≡ maps self.old) }
    {
        if self.frames.store_again(w, value, mark_read) {
            return true;
        }
        self.store_and_count(w, value, mark_read)
    }

    /// A store after which other numbers of frames may be modified or read.
    #[inline(never)]
    fn store_and_count(&mut self, w: WordAddr, value: u32, mark_read: bool) -> bool
        ensures config { self.new.config ≡ self.old.config }
        ensures does { MatchBool result (StoresClean w.0 value mark_read (maps self.old) (maps self.new)) (maps self.new ≡ maps self.old) }
    {
        self.frames.store_clean(w, value, mark_read)
    }

    /// Gives a line that has no frame the lowest free way of its set, with no valid word; Err of the set exactly where
    /// none is free.
    pub fn place(&mut self, line: LineAddr) -> Result<(), u16>
        requires exists { line.0 < lines self.old.config }
        requires absent { (maps self.old).held line.0 ≡ false }
        ensures config { self.new.config ≡ self.old.config }
        ensures maps { maps self.new ≡ placed self.old.config line.0 (maps self.old) }
        ensures answer { let free = lowest_free self.old.config (maps self.old) (set_of self.old.config line.0) in
            MatchResult result (λ _. IsSome free) (λ s. (free ≡ None) × (s ≡ set_of self.old.config line.0)) }
    {
        self.frames.place(line)
    }

    /// Gives the words of the line that aren't valid these values. The line has a frame.
    pub fn fill(&mut self, line: LineAddr, words: &[u32; 8])
        requires { IsTrue ((maps self.old).held line.0) }
        ensures config { self.new.config ≡ self.old.config }
        ensures maps { maps self.new ≡ filled line.0 words.now (maps self.old) }
    {
        self.frames.fill(line, words);
    }

    /// Makes the masked words of the line that aren't modified invalid and clean, and says whether a masked word was
    /// marked read, and whether the line has a frame with a valid word still.
    pub fn invalidate(&mut self, line: LineAddr, mask: Mask) -> Invalidated
        ensures config { self.new.config ≡ self.old.config }
        ensures maps { maps self.new ≡ invalidated line.0 mask.0 (maps self.old) }
        ensures read_hit { result.read_hit ≡ reads_masked line.0 mask.0 (maps self.old) }
        ensures keeps { result.keeps ≡ keeps_word (maps self.new) line.0 }
    {
        self.frames.invalidate(line, mask)
    }

    /// Hands out the line's dirty words, which stay valid and are clean then; None exactly where there are none.
    pub fn take_dirty(&mut self, line: LineAddr) -> Option<Tagged>
        ensures config { self.new.config ≡ self.old.config }
        ensures maps { maps self.new ≡ cleaned line.0 (maps self.old) }
        ensures out { option_map tagged_of result ≡ dirty_copy (maps self.old) line.0 }
    {
        self.frames.take_dirty(line)
    }

    /// Empties a way and hands out what its frame held; None exactly where it holds no line.
    pub fn evict(&mut self, set: u16, way: u8) -> Option<Evicted>
        requires set_exists { set < self.old.config.sets }
        requires way_exists { way < self.old.config.ways }
        ensures config { self.new.config ≡ self.old.config }
        ensures maps { maps self.new ≡ evicted set way (maps self.old) }
        ensures out { MatchOption result ((maps self.old).at set way ≡ None)
            (λ e. ((maps self.old).at set way ≡ Some e.line.0) × Gives (maps self.old) e.line.0 e) }
    {
        self.frames.evict(set, way)
    }

    /// Makes the masked words of the line invalid, clean and not modified. Their read marks stay.
    pub fn drop_words(&mut self, line: LineAddr, mask: Mask)
        ensures config { self.new.config ≡ self.old.config }
        ensures maps { maps self.new ≡ words_dropped (spill line.0 mask.0 [] none_spilled) (maps self.old) }
    {
        self.frames.drop_words(line, mask);
    }

    /// Makes all modified words invalid, and clears both marks.
    pub fn roll_back(&mut self)
        ensures config { self.new.config ≡ self.old.config }
        ensures maps { maps self.new ≡ rolled_back (maps self.old) }
    {
        self.frames.roll_back();
    }

    /// Clears all read marks.
    pub fn clear_read(&mut self)
        ensures config { self.new.config ≡ self.old.config }
        ensures maps { maps self.new ≡ read_cleared (maps self.old) }
    {
        self.frames.clear_read();
    }

    /// Whether a word of a line at home at the directory is marked read.
    pub fn reads_at(&self, d: DirId) -> bool
        ensures { result ≡ any_read self.now.config (maps self.now) d.0 }
    {
        self.frames.reads_at(d)
    }

    /// The lines at home at the directory that have modified words, in rising order, each with the mask of these words.
    pub fn marks_by_home(&self, d: DirId) -> Result<Vec<(LineAddr, Mask)>, NoMemory>
        ensures { IfOk result (λ v. map mark_of v.items ≡ every_mark self.now.config (maps self.now) d.0) }
    {
        self.frames.marks_by_home(d)
    }

    /// Turns modified words into dirty ones with the TID as tag, and clears both marks.
    pub fn commit(&mut self, tid: Tid)
        ensures config { self.new.config ≡ self.old.config }
        ensures maps { maps self.new ≡ committed tid.0 (maps self.old) }
    {
        self.frames.commit(tid);
    }

    /// The frame of a way; None exactly where it holds no line.
    pub fn frame(&self, set: u16, way: u8) -> Option<FrameView>
        requires set_exists { set < self.now.config.sets }
        requires way_exists { way < self.now.config.ways }
        ensures view { MatchOption result ((maps self.now).at set way ≡ None)
            (λ f. ((maps self.now).at set way ≡ Some f.line.0) × Views (maps self.now) f.line.0 f) }
        ensures consistent { IsCache self.now.config (maps self.now) }
    {
        self.frames.frame(set, way)
    }

    /// The frame of a line; None exactly where it has none.
    pub fn frame_of(&self, line: LineAddr) -> Option<FrameView>
        ensures view { MatchOption result ((maps self.now).held line.0 ≡ false)
            (λ f. IsTrue ((maps self.now).held line.0) × Views (maps self.now) line.0 f) }
        ensures consistent { IsCache self.now.config (maps self.now) }
    {
        self.frames.frame_of(line)
    }
}
