// The lines as one array of records, so that a line is found by one division.
ghost use Rattle.std.specs.Prelude.{◌≡◌, ℕ, ◌+◌, ◌-◌, ◌/◌, ◌<◌, ◌≤◌, IfOk, replicate};
ghost use Rattle.tcc_base.specs.Settings.{Settings, IsAllowed};
ghost use Rattle.dir_lines.specs.Home.{Home, home_lines};
ghost use Rattle.dir_lines.specs.Record.{blank};
ghost use Rattle.dir_lines.specs.Pages.{is_at_home};

use crate::lines::Lines;
use crate::mark_set::MarkSet;
use crate::record::LineRecord;
use std::alloc::Global;
use std::marker::Model;
use tcc_base::{Config, DirId, LineAddr, NoMemory};

/// Records in an array: line L stands at index L / directories. It is made whole at the start.
#[derive(Debug, Drop)]
pub struct PageLines {
    cfg: Config,
    home: DirId,
    records: Vec<LineRecord>,
    marks: MarkSet,
}

impl Model for PageLines {
    ghost use Rattle.dir_lines.specs.Pages.{Pages};

    ghost Value = { Pages };

    ghost use Rattle.dir_lines.specs.PagesInside.{pages_of, IsPages};

    ghost view = { pages_of };

    ghost invariant = { IsPages };
}

impl PageLines {
    // The settings of the machine.
    pub(crate) fn config(&self) -> Config
        ensures { result ≡ self.now.place.shape }
    {
        self.cfg
    }

    // The directory, which exists.
    pub(crate) fn home(&self) -> DirId
        ensures dir { result.0 ≡ self.now.place.dir }
        ensures exists { result.0 < self.now.place.shape.dirs }
    {
        self.home
    }

    // Whether the line exists and is at home here.
    pub(crate) fn has_line(&self, line: LineAddr) -> bool
        ensures { result ≡ is_at_home self.now.place line.0 }
    {
        line.0 < self.cfg.words() / 8 && self.cfg.home(line) == self.home
    }
}

impl Lines for PageLines {
    ghost use Rattle.dir_lines.specs.Pages.{pages_at};

    ghost place = { λ p. p.place };

    ghost records = { pages_at };

    fn new(alloc: Global, cfg: &Config, home: DirId) -> Result<Self, NoMemory> {
        let count = count(cfg, home);
        let records = blanks(alloc, count)?;
        let marks = MarkSet::new(alloc, count)?;
        Ok(PageLines {
            cfg: *cfg,
            home,
            records,
            marks,
        })
    }

    fn get(&self, line: LineAddr) -> LineRecord {
        self.records[(line.0 / self.cfg.dirs() as u32) as usize]
    }

    fn set(&mut self, line: LineAddr, to: LineRecord) {
        let place = line.0 / self.cfg.dirs() as u32;
        let was = self.records[place as usize].mark;
        self.records[place as usize] = to;
        self.marks.update(place, was, to.mark);
    }

    fn marked_lines(&self) -> u32 {
        self.marks.len() as u32
    }

    fn marked_line(&self, k: usize) -> Option<LineAddr> {
        match self.marks.nth(&self.records, k) {
            Some(place) => Some(LineAddr(place * self.cfg.dirs() as u32 + self.home.0 as u32)),
            None => None,
        }
    }
}

// How many lines are at home at this directory.
pub(crate) fn count(cfg: &Config, home: DirId) -> usize
    ensures count { result ≡ home_lines (record { shape = cfg.now; dir = home.0 }) }
    ensures allowed { IsAllowed cfg.now }
    ensures small { result ≤ cfg.now.ram / 32 + 1 }
{
    let lines = cfg.words() / 8;
    let dirs = cfg.dirs() as u32;
    let full = (lines / dirs) as usize;
    if (home.0 as u32) < lines % dirs {
        full + 1
    } else {
        full
    }
}

// So many blank records.
fn blanks(alloc: Global, count: usize) -> Result<Vec<LineRecord>, NoMemory>
    ensures { IfOk result (λ v. v.items ≡ replicate count blank) }
{
    let mut records = Vec::new(alloc);
    match records.resize(count, LineRecord::blank()) {
        Ok(()) => Ok(records),
        Err(_) => Err(NoMemory),
    }
}
