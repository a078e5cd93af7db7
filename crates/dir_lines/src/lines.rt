// What every form of a directory's lines does: the calls and their meaning, over the protocol's map of lines.
ghost use Rattle.std.specs.Prelude.{◌≡◌, ℕ, ◌<◌, ◌≤◌, true, IfOk, option_map, slice_get};
ghost use Rattle.tcc_base.specs.Settings.{Settings};
ghost use Rattle.rules_maps.specs.Words.{put, those, count_below};
ghost use Rattle.rules_maps.specs.Shape.{lines};
ghost use Rattle.rules_maps.specs.Lines.{no_lines, with_sharer, with_owner, with_tag, with_asked, with_mark, unmarked, has_mark};
ghost use Rattle.dir_lines.specs.Home.{IsHome, IsAtHome};
ghost use Rattle.dir_lines.specs.Owned.{owned_line};

use crate::record::LineRecord;
use std::alloc::Global;
use tcc_base::{Config, CoreId, DirId, LineAddr, Mask, NoMemory, Tid};

/// The lines at home at one directory. `place` is the machine's settings with the directory, and `records` is each line's record;
/// a line that is at home elsewhere has a blank one. No call but `new` takes memory, and all take constant time but where they
/// say otherwise. All calls by line ask that the line is at this home, and those by core that the core exists.
pub trait Lines: Drop {
    ghost use Rattle.dir_lines.specs.Record.{Record, blank, lines_of};
    ghost use Rattle.dir_lines.specs.Home.{Home};

    ghost place: { Self → Home };

    ghost records: { Self → ℕ → Record };

    /// All lines of that home, each with a blank record. Its time and memory go with their number.
    fn new(alloc: Global, cfg: &Config, home: DirId) -> Result<Self, NoMemory>
    where
        Self: Sized,
        requires { home.0 < cfg.now.dirs }
        ensures place { IfOk result (λ l. place l ≡ record { shape = cfg.now; dir = home.0 }) }
        ensures blank { IfOk result (λ l. records l ≡ (λ _. blank)) };

    /// The line's record.
    fn get(&self, line: LineAddr) -> LineRecord
        requires { IsAtHome (place self.now) line.0 }
        ensures value { result ≡ records self.now line.0 }
        ensures home { IsHome (place self.now) };

    /// Puts this record in the place of the line's record, and changes nothing else.
    fn set(&mut self, line: LineAddr, to: LineRecord)
        requires { IsAtHome (place self.old) line.0 }
        ensures place { place self.new ≡ place self.old }
        ensures records { records self.new ≡ put (records self.old) line.0 to };

    /// Whether the core is a sharer of the line.
    #[tactic(auto, unfolding(crate::specs::Record::lines_of))]
    fn shares(&self, line: LineAddr, core: CoreId) -> bool
        requires at_home { IsAtHome (place self.now) line.0 }
        requires exists { core.0 < (place self.now).shape.cores }
        ensures { result ≡ (lines_of (records self.now)).sharers line.0 core.0 }
    {
        self.get(line).sharers.contains(core)
    }

    /// The line's owner.
    #[tactic(auto, unfolding(crate::specs::Record::lines_of))]
    fn owner(&self, line: LineAddr) -> Option<CoreId>
        requires { IsAtHome (place self.now) line.0 }
        ensures { option_map (λ c. c.0) result ≡ (lines_of (records self.now)).owner line.0 }
    {
        self.get(line).owner
    }

    /// The TID of the line's last commit, or 0.
    #[tactic(auto, unfolding(crate::specs::Record::lines_of))]
    fn tag(&self, line: LineAddr) -> Tid
        requires { IsAtHome (place self.now) line.0 }
        ensures { result.0 ≡ (lines_of (records self.now)).tag line.0 }
    {
        self.get(line).tag
    }

    /// Whether the line's owner was asked for its data.
    #[tactic(auto, unfolding(crate::specs::Record::lines_of))]
    fn asked(&self, line: LineAddr) -> bool
        requires { IsAtHome (place self.now) line.0 }
        ensures { result ≡ (lines_of (records self.now)).asked line.0 }
    {
        self.get(line).asked
    }

    /// The line's mark, which is empty where it isn't marked.
    #[tactic(auto, unfolding(crate::specs::Record::lines_of))]
    fn mark(&self, line: LineAddr) -> Mask
        requires { IsAtHome (place self.now) line.0 }
        ensures { result.0 ≡ (lines_of (records self.now)).mark line.0 }
    {
        self.get(line).mark
    }

    /// Makes the core a sharer of the line, or no longer one.
    fn set_shares(&mut self, line: LineAddr, core: CoreId, on: bool)
        requires at_home { IsAtHome (place self.old) line.0 }
        requires exists { core.0 < (place self.old).shape.cores }
        ensures place { place self.new ≡ place self.old }
        ensures map { lines_of (records self.new) ≡ with_sharer line.0 core.0 on (lines_of (records self.old)) }
    {
        let mut to = self.get(line);
        to.sharers = to.sharers.with(core, on);
        self.set(line, to);
    }

    /// Sets the line's owner.
    fn set_owner(&mut self, line: LineAddr, owner: Option<CoreId>)
        requires { IsAtHome (place self.old) line.0 }
        ensures place { place self.new ≡ place self.old }
        ensures map { lines_of (records self.new) ≡ with_owner line.0 (option_map (λ c. c.0) owner) (lines_of (records self.old)) }
    {
        let mut to = self.get(line);
        to.owner = owner;
        self.set(line, to);
    }

    /// Sets the TID of the line's last commit.
    fn set_tag(&mut self, line: LineAddr, tag: Tid)
        requires { IsAtHome (place self.old) line.0 }
        ensures place { place self.new ≡ place self.old }
        ensures map { lines_of (records self.new) ≡ with_tag line.0 tag.0 (lines_of (records self.old)) }
    {
        let mut to = self.get(line);
        to.tag = tag;
        self.set(line, to);
    }

    /// Says whether the line's owner was asked for its data.
    fn set_asked(&mut self, line: LineAddr, asked: bool)
        requires { IsAtHome (place self.old) line.0 }
        ensures place { place self.new ≡ place self.old }
        ensures map { lines_of (records self.new) ≡ with_asked line.0 asked (lines_of (records self.old)) }
    {
        let mut to = self.get(line);
        to.asked = asked;
        self.set(line, to);
    }

    /// Makes the core the line's owner and a sharer, with the TID as the line's tag, and not asked. The mark stays.
    fn own(&mut self, line: LineAddr, core: CoreId, tid: Tid)
        requires at_home { IsAtHome (place self.old) line.0 }
        requires exists { core.0 < (place self.old).shape.cores }
        ensures place { place self.new ≡ place self.old }
        ensures map { lines_of (records self.new) ≡ owned_line line.0 core.0 tid.0 (lines_of (records self.old)) }
    {
        let was = self.get(line);
        let to = LineRecord {
            sharers: was.sharers.with(core, true),
            owner: Some(core),
            tag: tid,
            asked: false,
            mark: was.mark,
        };
        self.set(line, to);
    }

    /// Sets the line's mark.
    fn set_mark(&mut self, line: LineAddr, mark: Mask)
        requires { IsAtHome (place self.old) line.0 }
        ensures place { place self.new ≡ place self.old }
        ensures map { lines_of (records self.new) ≡ with_mark line.0 mark.0 (lines_of (records self.old)) }
    {
        let mut to = self.get(line);
        to.mark = mark;
        self.set(line, to);
    }

    /// The number of marked lines.
    fn marked_lines(&self) -> u32
        ensures count { result ≡ count_below (has_mark (lines_of (records self.now))) (lines (place self.now).shape) }
        ensures at_home { (l : ℕ) → has_mark (lines_of (records self.now)) l ≡ true → IsAtHome (place self.now) l };

    /// The k-th marked line in rising order, from 0; `None` exactly where there are no more than k.
    fn marked_line(&self, k: usize) -> Option<LineAddr>
        ensures { option_map (λ l. l.0) result ≡ slice_get (those (has_mark (lines_of (records self.now))) (lines (place self.now).shape))
            k };

    /// Clears all marks. The time goes with the number of marked lines.
    fn clear_marks(&mut self)
        ensures place { place self.new ≡ place self.old }
        ensures map { lines_of (records self.new) ≡ unmarked (lines_of (records self.old)) }
    {
        let mut left = self.marked_lines() as usize;
        while left > 0 {
            left -= 1;
            if let Some(line) = self.marked_line(left) {
                self.set_mark(line, Mask(0));
            }
        }
    }
}
