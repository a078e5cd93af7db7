// The frames of a cache in one array, a line's frame among the ways of its set.
ghost use Rattle.std.specs.Prelude.{◌≡◌, ◌*◌, ◌≤◌, replicate, Option, None, IfOk, IfSome, MatchBool, cond, ◌<◌, ◌||◌};
ghost use Rattle.rules_maps.specs.CacheUse.{is_number};
ghost use Rattle.rules_maps.specs.CacheLook.{look_load as load_answer, Hit};
ghost use Rattle.rules_maps.specs.Words.{those};
ghost use Rattle.spec_cache.specs.Held.{maps};
ghost use Rattle.spec_cache.specs.Look.{loaded, StoresClean};
ghost use Rattle.spec_cache.specs.Home.{reads_in};
ghost use Rattle.spec_cache.specs.MarkedSets.{has_marked};
ghost use Rattle.spec_cache.specs.Useful.{writes_in, dirty_way};
ghost use Rattle.spec_cache.specs.PerSet.{idle_way, used_way, count_set, count_block};
ghost use Rattle.spec_cache.specs.Tracked.{count_ways};

use crate::frame::{Change, FrameView};
use crate::frames::{Frames, line_of_word, place_of_word};
use crate::marked_sets::{all_marked_sets, push_some, put_sets_in_order};
use crate::noted::{all_written_in, change_at};
use crate::places::Places;
use crate::quotients::set_of;
use crate::tracked::Tracked;
use crate::ways::{Ways, is_marked};
use std::alloc::Global;
use std::marker::Model;
use tcc_base::{Config, DirId, LineAddr, List, NoMemory, WordAddr};

/// The frames in one array: way `y` of set `s` stands at `s * ways + y`, a line is looked for in its set alone, and the
/// frames with marks are known by place, so that no call visits all of them.
#[derive(Debug, Drop)]
pub struct SetFrames {
    ways: Tracked,
    marked: Places,
}

impl Model for SetFrames {
    ghost use Rattle.spec_cache.specs.Held.{Held};
    ghost use Rattle.spec_cache.specs.Places.{IsIndexed};

    ghost Value = { Held };

    ghost view = { λ s. s.ways };

    ghost invariant = { λ s. IsIndexed s.ways s.marked };
}

impl SetFrames {
    ghost use Rattle.spec_cache.specs.Held.{IsHeld};

    /// Empty ways for all sets.
    pub fn new(alloc: Global, cfg: &Config) -> Result<SetFrames, NoMemory>
        ensures empty { IfOk result (λ s. s ≡ record { config = cfg.now; frames = replicate (cfg.now.sets * cfg.now.ways) None }) }
        ensures in_order { IfOk result IsHeld }
    {
        let count = cfg.sets() as usize * cfg.ways() as usize;
        Ok(SetFrames {
            ways: Tracked::new(alloc, cfg)?,
            marked: Places::new(alloc, count)?,
        })
    }

    /// All ways.
    pub(crate) fn frames(&self) -> &[Option<FrameView>]
        ensures { result.now ≡ self.now.frames }
    {
        self.ways.frames()
    }

    /// The number of lines at home there with a modified word.
    pub(crate) fn write_count(&self, home: DirId) -> usize
        ensures number { result ≡ count_ways (writes_in self.now.config.dirs home.0) self.now.frames }
        ensures small { result ≤ 16384 }
        ensures in_order { IsHeld self.now }
    {
        self.ways.write_count(home.0)
    }

    /// The number of ways that may be emptied with use, where no line is awaited and no room is wanted.
    pub(crate) fn useful_ways(&self, alone: bool) -> usize
        ensures number { result ≡ cond alone (count_ways used_way self.now.frames) (count_ways idle_way self.now.frames) }
        ensures in_order { IsHeld self.now }
    {
        self.ways.useful_ways(alone)
    }

    /// The same of one set.
    pub(crate) fn useful_in_set(&self, alone: bool, set: usize) -> usize
        requires { set < self.now.config.sets }
        ensures number { result ≡ cond alone (count_set used_way self.now set) (count_set idle_way self.now set) }
        ensures in_order { IsHeld self.now }
    {
        self.ways.useful_in_set(alone, set)
    }

    /// The same of a block of 32 sets.
    pub(crate) fn useful_in_block(&self, alone: bool, block: usize) -> usize
        requires { block < 32 }
        ensures number { result ≡ cond alone (count_block used_way self.now block) (count_block idle_way self.now block) }
        ensures in_order { IsHeld self.now }
    {
        self.ways.useful_in_block(alone, block)
    }

    /// The value of a word that is valid, where a mark would change nothing.
    pub(crate) fn hit(&self, w: WordAddr, mark: bool) -> Option<u32>
        ensures answer { IfSome result (λ x. Hit x ≡ load_answer self.now.config w.0 (maps self.now)) }
        ensures same { IfSome result (λ x. maps self.now ≡ loaded w.0 mark (maps self.now)) }
    {
        let line = line_of_word(w);
        let cfg = self.ways.config();
        let ways = cfg.ways() as usize;
        let first = set_of(line.0, &cfg) as usize * ways;
        self.ways
            .hit(first, first + ways, line, place_of_word(w), mark)
    }

    /// Stores a word in a frame that has modified words and no dirty ones. Says whether it did; else nothing is changed.
    pub(crate) fn store_again(&mut self, w: WordAddr, value: u32, mark_read: bool) -> bool
        ensures config { self.new.config ≡ self.old.config }
        ensures does { MatchBool result (StoresClean w.0 value mark_read (maps self.old) (maps self.new)) (self.new ≡ self.old) }
    {
        let line = line_of_word(w);
        let cfg = self.ways.config();
        let ways = cfg.ways() as usize;
        let first = set_of(line.0, &cfg) as usize * ways;
        let place = place_of_word(w);
        self.ways
            .store_again(first, first + ways, line, place, value, mark_read)
    }

    /// The number of frames with a dirty word.
    pub(crate) fn dirty_count(&self) -> usize
        ensures number { result ≡ count_ways dirty_way self.now.frames }
        ensures in_order { IsHeld self.now }
    {
        self.ways.dirty_count()
    }

    /// The sets in which a frame is marked, and this one, in rising order.
    pub(crate) fn marked_sets(&self, and: Option<u16>) -> Result<List<u16>, NoMemory>
        requires { IfSome and (λ x. x < self.now.config.sets) }
        ensures { IfOk result (λ sets. sets
            ≡ those (λ x. is_number and x || has_marked self.now.config (maps self.now) x) self.now.config.sets) }
    {
        let ways = self.ways.frames();
        let config = self.ways.config();
        let places = self.marked.as_slice();
        let mut sets = all_marked_sets(self.ways.allocator(), &config, ways, places)?;
        push_some(&mut sets, and)?;
        put_sets_in_order(&mut sets.items);
        Ok(sets)
    }
}

impl Ways for SetFrames {
    ghost held = { λ s. s };

    fn config(&self) -> Config {
        self.ways.config()
    }

    fn find(&self, line: LineAddr) -> Option<(usize, FrameView)> {
        let cfg = self.ways.config();
        let ways = cfg.ways() as usize;
        let first = set_of(line.0, &cfg) as usize * ways;
        self.ways.find_in(first, first + ways, line)
    }

    fn way(&self, at: usize) -> Option<FrameView> {
        self.ways.way(at)
    }

    fn put(&mut self, at: usize, frame: Option<FrameView>) {
        self.ways.put(at, frame);
        if is_marked(frame) {
            self.marked.note(at);
        }
    }

    fn change(&mut self, change: Change) {
        change_at(&mut self.ways, self.marked.as_slice(), change);
        match change {
            Change::RollBack => self.marked.clear(),
            Change::ClearRead => {}
            Change::Commit(_) => self.marked.clear(),
        }
    }

    fn any_reads_at(&self, home: DirId) -> bool {
        self.ways.read_count(home.0) != 0
    }

    fn written_at(&self, home: DirId) -> Result<Vec<u32>, NoMemory> {
        all_written_in(
            self.ways.allocator(),
            self.ways.frames(),
            self.marked.as_slice(),
            home.0,
            self.ways.config().dirs(),
        )
    }
}

impl Frames for SetFrames {}
