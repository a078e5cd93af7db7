// The lines that a directory keeps: the array.
ghost use Rattle.std.specs.Prelude.{◌≡◌, ℕ, ◌<◌, true, IfOk, option_map, slice_get};
ghost use Rattle.rules_maps.specs.Words.{those, count_below};
ghost use Rattle.rules_maps.specs.Shape.{lines};
ghost use Rattle.rules_maps.specs.Lines.{no_lines, with_sharer, with_owner, with_tag, with_asked, with_mark, unmarked, has_mark};
ghost use Rattle.dir_lines.specs.Home.{IsAtHome};
ghost use Rattle.rules_maps.specs.Masks.{has};
ghost use Rattle.dir_lines.specs.Kept.{kept};
ghost use Rattle.dir_lines.specs.Owned.{owned_line};
ghost use Rattle.dir_lines.specs.Pages.{is_at_home, pages_at};
ghost use Rattle.dir_lines.specs.Restored.{IsUnknown, with_record};

use crate::lines::Lines;
use crate::pages::PageLines;
use crate::record::LineRecord;
use std::alloc::Global;
use std::marker::Model;
use tcc_base::{Config, CoreId, DirId, LineAddr, Mask, NoMemory, Tid};

/// One record for each line that is at home at a directory. In a clause `kept` makes of it the protocol's map of lines, and
/// `place` is the machine's settings with the directory. No call but `new` takes memory, and all take constant time but where they
/// say otherwise. All calls by line ask that the line is at this home, and those by core that the core exists.
#[derive(Debug, Drop)]
pub struct DirLines {
    lines: PageLines,
}

impl Model for DirLines {
    ghost use Rattle.dir_lines.specs.Pages.{Pages};

    ghost Value = { Pages };

    ghost view = { λ d. d.lines };
}

#[tactic(auto, unfolding(crate::specs::Kept::kept, crate::specs::Record::lines_of))]
impl DirLines {
    /// All lines of that home: no sharer, no owner, tag 0, not asked, no mark. Its time and memory go with their number.
    pub fn new(alloc: Global, cfg: &Config, home: DirId) -> Result<Self, NoMemory>
        requires { home.0 < cfg.now.dirs }
        ensures place { IfOk result (λ d. d.place ≡ record { shape = cfg.now; dir = home.0 }) }
        ensures map { IfOk result (λ d. kept d ≡ no_lines) }
    {
        Ok(DirLines {
            lines: PageLines::new(alloc, cfg, home)?,
        })
    }

    /// The settings of the machine.
    pub fn config(&self) -> Config
        ensures { result ≡ self.now.place.shape }
    {
        self.lines.config()
    }

    /// The directory, which exists.
    pub fn home(&self) -> DirId
        ensures dir { result.0 ≡ self.now.place.dir }
        ensures exists { result.0 < self.now.place.shape.dirs }
    {
        self.lines.home()
    }

    /// Whether the line exists and is at home here: those of which the other calls may be asked.
    pub fn has_line(&self, line: LineAddr) -> bool
        ensures { result ≡ is_at_home self.now.place line.0 }
    {
        self.lines.has_line(line)
    }

    /// All that is known of the line, in one reading.
    pub fn get(&self, line: LineAddr) -> LineRecord
        requires { IsAtHome self.now.place line.0 }
        ensures sharers { (c : ℕ) → has result.sharers.0 c ≡ (kept self.now).sharers line.0 c }
        ensures owner { option_map (λ c. c.0) result.owner ≡ (kept self.now).owner line.0 }
        ensures tag { result.tag.0 ≡ (kept self.now).tag line.0 }
        ensures asked { result.asked ≡ (kept self.now).asked line.0 }
        ensures mark { result.mark.0 ≡ (kept self.now).mark line.0 }
        ensures record { result ≡ pages_at self.now line.0 }
    {
        self.lines.get(line)
    }

    /// Whether the core is a sharer of the line.
    pub fn shares(&self, line: LineAddr, core: CoreId) -> bool
        requires at_home { IsAtHome self.now.place line.0 }
        requires exists { core.0 < self.now.place.shape.cores }
        ensures { result ≡ (kept self.now).sharers line.0 core.0 }
    {
        self.lines.shares(line, core)
    }

    /// The line's owner.
    pub fn owner(&self, line: LineAddr) -> Option<CoreId>
        requires { IsAtHome self.now.place line.0 }
        ensures { option_map (λ c. c.0) result ≡ (kept self.now).owner line.0 }
    {
        self.lines.owner(line)
    }

    /// The TID of the line's last commit, or 0.
    pub fn tag(&self, line: LineAddr) -> Tid
        requires { IsAtHome self.now.place line.0 }
        ensures { result.0 ≡ (kept self.now).tag line.0 }
    {
        self.lines.tag(line)
    }

    /// Whether the line's owner was asked for its data.
    pub fn asked(&self, line: LineAddr) -> bool
        requires { IsAtHome self.now.place line.0 }
        ensures { result ≡ (kept self.now).asked line.0 }
    {
        self.lines.asked(line)
    }

    /// The line's mark, which is empty where it isn't marked.
    pub fn mark(&self, line: LineAddr) -> Mask
        requires { IsAtHome self.now.place line.0 }
        ensures { result.0 ≡ (kept self.now).mark line.0 }
    {
        self.lines.mark(line)
    }

    /// Makes the core a sharer of the line, or no longer one.
    pub fn set_shares(&mut self, line: LineAddr, core: CoreId, on: bool)
        requires at_home { IsAtHome self.old.place line.0 }
        requires exists { core.0 < self.old.place.shape.cores }
        ensures place { self.new.place ≡ self.old.place }
        ensures map { kept self.new ≡ with_sharer line.0 core.0 on (kept self.old) }
    {
        self.lines.set_shares(line, core, on)
    }

    /// Sets the line's owner.
    pub fn set_owner(&mut self, line: LineAddr, owner: Option<CoreId>)
        requires { IsAtHome self.old.place line.0 }
        ensures place { self.new.place ≡ self.old.place }
        ensures map { kept self.new ≡ with_owner line.0 (option_map (λ c. c.0) owner) (kept self.old) }
    {
        self.lines.set_owner(line, owner)
    }

    /// Sets the TID of the line's last commit.
    pub fn set_tag(&mut self, line: LineAddr, tag: Tid)
        requires { IsAtHome self.old.place line.0 }
        ensures place { self.new.place ≡ self.old.place }
        ensures map { kept self.new ≡ with_tag line.0 tag.0 (kept self.old) }
    {
        self.lines.set_tag(line, tag)
    }

    /// Says whether the line's owner was asked for its data.
    pub fn set_asked(&mut self, line: LineAddr, asked: bool)
        requires { IsAtHome self.old.place line.0 }
        ensures place { self.new.place ≡ self.old.place }
        ensures map { kept self.new ≡ with_asked line.0 asked (kept self.old) }
    {
        self.lines.set_asked(line, asked)
    }

    /// Makes the core the line's owner and a sharer, with the TID as the line's tag, and not asked. The mark stays.
    pub fn own(&mut self, line: LineAddr, core: CoreId, tid: Tid)
        requires at_home { IsAtHome self.old.place line.0 }
        requires exists { core.0 < self.old.place.shape.cores }
        ensures place { self.new.place ≡ self.old.place }
        ensures map { kept self.new ≡ owned_line line.0 core.0 tid.0 (kept self.old) }
    {
        self.lines.own(line, core, tid)
    }

    /// Sets the line's mark.
    pub fn set_mark(&mut self, line: LineAddr, mark: Mask)
        requires { IsAtHome self.old.place line.0 }
        ensures place { self.new.place ≡ self.old.place }
        ensures map { kept self.new ≡ with_mark line.0 mark.0 (kept self.old) }
    {
        self.lines.set_mark(line, mark)
    }

    /// Puts this record in the place of all that is known of the line.
    pub fn restore(&mut self, line: LineAddr, to: LineRecord)
        requires { IsAtHome self.old.place line.0 }
        ensures place { self.new.place ≡ self.old.place }
        ensures map { kept self.new ≡ with_record line.0 to (kept self.old) }
    {
        self.lines.set(line, to)
    }

    /// Of a line that isn't at home here nothing is ever known. It does nothing.
    pub fn keeps_home(&self)
        ensures { (l : ℕ) → (IsAtHome self.now.place l → ⊥) → IsUnknown (kept self.now) l }
    {}

    /// The number of marked lines, all of which are at home here.
    pub fn marked_lines(&self) -> u32
        ensures count { result ≡ count_below (has_mark (kept self.now)) (lines self.now.place.shape) }
        ensures at_home { (l : ℕ) → has_mark (kept self.now) l ≡ true → IsAtHome self.now.place l }
    {
        self.lines.marked_lines()
    }

    /// The k-th marked line in rising order, from 0; `None` exactly where there are no more than k. Once more than 64 lines were
    /// marked at once, and until none is, the time goes with the number of 4,096s of lines at this home.
    pub fn marked_line(&self, k: usize) -> Option<LineAddr>
        ensures { option_map (λ l. l.0) result ≡ slice_get (those (has_mark (kept self.now)) (lines self.now.place.shape)) k }
    {
        self.lines.marked_line(k)
    }

    /// Clears all marks. The time goes with the number of marked lines, for each as long as `marked_line` takes.
    pub fn clear_marks(&mut self)
        ensures place { self.new.place ≡ self.old.place }
        ensures map { kept self.new ≡ unmarked (kept self.old) }
    {
        self.lines.clear_marks()
    }
}
