// The ways of a cache in one array: a change of one way keeps what is counted of all.
ghost use Rattle.std.specs.Prelude.{◌≡◌, ◌*◌, ◌<◌, ◌≤◌, ℕ, length, get_or, set, replicate, Option, Some, None, MatchOption, MatchBool};
ghost use Rattle.std.specs.Prelude.{IfOk, IfSome, cond, true, false};
ghost use Rattle.spec_cache.specs.Frame.{holds_line};
ghost use Rattle.spec_cache.specs.Home.{reads_in};
ghost use Rattle.spec_cache.specs.Useful.{writes_in, dirty_way};
ghost use Rattle.spec_cache.specs.PerSet.{idle_way, used_way, count_set, count_block};
ghost use Rattle.spec_cache.specs.Tracked.{count_ways};
ghost use Rattle.spec_cache.specs.InPlace.{Hits, StoresAt};

use crate::alike::alike;
use crate::frame::FrameView;
use crate::home_counts::{ByHome, one, read_home, recount, tag, written_home};
use crate::in_place::{hit_at, spot, store_at};
use crate::per_set::PerSet;
use crate::quotients::set_at;
use crate::slots::{empty_ways, frame_for, no_tags};
use crate::useful::{is_dirty, is_idle, is_used};
use std::alloc::Global;
use std::marker::Model;
use tcc_base::{Config, LineAddr, NoMemory};

/// The ways of a cache, by place, with their lines apart, so that a search reads four bytes a way, and with the numbers of
/// written and read ways by home, of dirty ways, and by set of those that may be emptied with use.
#[derive(Debug, Drop)]
pub struct Tracked {
    config: Config,
    frames: Vec<Option<FrameView>>,
    tags: Vec<u32>,
    written: ByHome,
    read: ByHome,
    dirty: usize,
    idle: PerSet,
    used: PerSet,
}

impl Model for Tracked {
    ghost use Rattle.spec_cache.specs.Held.{Held};
    ghost use Rattle.spec_cache.specs.Tracked.{IsTracked};

    ghost Value = { Held };

    ghost view = { λ t. record { config = t.config; frames = t.frames.items } };

    ghost invariant = { λ t. IsTracked (record { config = t.config; frames = t.frames.items }) t.tags.items t.written t.read t.dirty t.idle t.used };
}

impl Tracked {
    /// Empty ways for all sets.
    pub(crate) fn new(alloc: Global, cfg: &Config) -> Result<Tracked, NoMemory>
        ensures { IfOk result (λ t. t ≡ record { config = cfg.now; frames = replicate (cfg.now.sets * cfg.now.ways) None }) }
    {
        let count = cfg.sets() as usize * cfg.ways() as usize;
        Ok(Tracked {
            config: *cfg,
            frames: empty_ways(alloc, count)?,
            tags: no_tags(alloc, count)?,
            written: [0; 64],
            read: [0; 64],
            dirty: 0,
            idle: PerSet::new(alloc, cfg.sets() as usize)?,
            used: PerSet::new(alloc, cfg.sets() as usize)?,
        })
    }

    /// The machine's settings.
    pub(crate) fn config(&self) -> Config
        ensures { result ≡ self.now.config }
    {
        self.config
    }

    /// What gives memory.
    pub(crate) fn allocator(&self) -> Global {
        *self.frames.allocator()
    }

    /// All ways.
    pub(crate) fn frames(&self) -> &[Option<FrameView>]
        ensures { result.now ≡ self.now.frames }
    {
        self.frames.as_slice()
    }

    /// The frame of a way; None exactly where it holds no line.
    pub(crate) fn way(&self, at: usize) -> Option<FrameView>
        requires { at < length self.now.frames }
        ensures { result ≡ get_or self.now.frames at None }
    {
        self.frames[at]
    }

    /// Sets the frame of a way.
    pub(crate) fn put(&mut self, at: usize, frame: Option<FrameView>)
        requires { at < length self.old.frames }
        ensures { self.new ≡ record self.old { frames = set self.old.frames at frame } }
    {
        if alike(&self.frames[at], &frame) {
            self.frames[at] = frame;
            return;
        }
        let dirs = self.config.dirs();
        let old = self.way(at);
        recount(
            &mut self.written,
            written_home(&old, dirs),
            written_home(&frame, dirs),
        );
        recount(
            &mut self.read,
            read_home(&old, dirs),
            read_home(&frame, dirs),
        );
        self.dirty = self.dirty + one(is_dirty(&frame)) - one(is_dirty(&old));
        let set = set_at(at, self.config.ways());
        self.idle.shift(set, is_idle(&old), is_idle(&frame));
        self.used.shift(set, is_used(&old), is_used(&frame));
        self.tags[at] = tag(&frame);
        self.frames[at] = frame;
    }

    /// The frame of a way, where it holds the line.
    fn frame_at(&self, at: usize, line: LineAddr) -> Option<FrameView>
        requires { at < length self.now.frames }
        ensures { MatchOption result (holds_line line.0 (get_or self.now.frames at None) ≡ false)
            (λ f. (get_or self.now.frames at None ≡ Some f) × (f.line.0 ≡ line.0)) }
    {
        if self.tags[at] != line.0 {
            return None;
        }
        frame_for(&self.frames[at], line)
    }

    /// The first way from `first` on, and before `end`, that holds the line.
    pub(crate) fn find_in(
        &self,
        first: usize,
        end: usize,
        line: LineAddr,
    ) -> Option<(usize, FrameView)>
        requires { end ≤ length self.now.frames }
        ensures { MatchOption result ((j : ℕ) → first ≤ j → j < end → holds_line line.0 (get_or self.now.frames j None) ≡ false)
            (λ p. (get_or self.now.frames p.0 None ≡ Some p.1) × (p.1.line.0 ≡ line.0)) }
    {
        for at in first..end {
            if let Some(frame) = self.frame_at(at, line) {
                return Some((at, frame));
            }
        }
        None
    }

    /// The value of a word of the line, whose ways are those from `first` on and before `end`, where it is valid and a mark would
    /// change nothing.
    pub(crate) fn hit(
        &self,
        first: usize,
        end: usize,
        line: LineAddr,
        k: usize,
        mark: bool,
    ) -> Option<u32>
        requires inside { end ≤ length self.now.frames }
        requires place { k < 8 }
        ensures { IfSome result (Hits self.now line.0 k mark) }
    {
        let Some(at) = spot(&self.tags, first, end, line.0) else {
            return None;
        };
        hit_at(&self.frames[at], line, k, mark)
    }

    /// Stores a word of the line in its frame among these ways, where that has modified words and no dirty ones. Says whether it
    /// did; else nothing is changed.
    pub(crate) fn store_again(
        &mut self,
        first: usize,
        end: usize,
        line: LineAddr,
        k: usize,
        value: u32,
        also: bool,
    ) -> bool
        requires inside { end ≤ length self.old.frames }
        requires place { k < 8 }
        ensures { MatchBool result (StoresAt self.old self.new line.0 k value also) (self.new ≡ self.old) }
    {
        let Some(at) = spot(&self.tags, first, end, line.0) else {
            return false;
        };
        store_at(&mut self.frames[at], line, k, value, also)
    }

    /// The number of ways that hold a line at home there with a modified word.
    pub(crate) fn write_count(&self, home: u8) -> usize
        ensures number { result ≡ count_ways (writes_in self.now.config.dirs home) self.now.frames }
        ensures small { result ≤ 16384 }
    {
        if home < self.config.dirs() {
            self.written[home as usize]
        } else {
            0
        }
    }

    /// The number of ways that hold a line at home there with a word that is marked read.
    pub(crate) fn read_count(&self, home: u8) -> usize
        ensures { result ≡ count_ways (reads_in self.now.config.dirs home) self.now.frames }
    {
        if home < self.config.dirs() {
            self.read[home as usize]
        } else {
            0
        }
    }

    /// The number of ways with a dirty word.
    pub(crate) fn dirty_count(&self) -> usize
        ensures { result ≡ count_ways dirty_way self.now.frames }
    {
        self.dirty
    }

    /// The number of ways that may be emptied with use, but for the line that is awaited and the set where room is wanted.
    pub(crate) fn useful_ways(&self, alone: bool) -> usize
        ensures { result ≡ cond alone (count_ways used_way self.now.frames) (count_ways idle_way self.now.frames) }
    {
        if alone {
            self.used.all()
        } else {
            self.idle.all()
        }
    }

    /// The same of one set.
    pub(crate) fn useful_in_set(&self, alone: bool, set: usize) -> usize
        requires { set < self.now.config.sets }
        ensures { result ≡ cond alone (count_set used_way self.now set) (count_set idle_way self.now set) }
    {
        if alone {
            self.used.of(set)
        } else {
            self.idle.of(set)
        }
    }

    /// The same of a block of 32 sets.
    pub(crate) fn useful_in_block(&self, alone: bool, block: usize) -> usize
        requires { block < 32 }
        ensures { result ≡ cond alone (count_block used_way self.now block) (count_block idle_way self.now block) }
    {
        if alone {
            self.used.of_block(block)
        } else {
            self.idle.of_block(block)
        }
    }
}
