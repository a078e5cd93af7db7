// The lines as an ordered map of records: the plain form.
ghost use Rattle.std.specs.Prelude.{◌≡◌, ◌==◌, ℕ, ◌<◌, Some, IsSome, IfSome, IfOk, if◌then◌else◌};
ghost use Rattle.dir_lines.specs.Filed.{AllBlank, HasAll, found};

use crate::lines::Lines;
use crate::marked;
use crate::pages::count;
use crate::record::LineRecord;
use std::alloc::Global;
use std::collections::BTreeMap;
use std::marker::Model;
use tcc_base::{Config, DirId, LineAddr, Mask, NoMemory};

/// Records in an ordered map, by the lines' numbers. Each call by line takes time that goes with the logarithm of their number, and
/// one that marks a line or takes its mark with the number of marked lines behind it too.
#[derive(Debug, Drop)]
pub struct MapLines {
    cfg: Config,
    home: DirId,
    records: BTreeMap<u32, LineRecord>,
    marked: Vec<u32>,
}

impl Model for MapLines {
    ghost use Rattle.dir_lines.specs.Filed.{Filed};

    ghost Value = { Filed };

    ghost use Rattle.dir_lines.specs.FiledInside.{filed_of, IsFiled};

    ghost view = { filed_of };

    ghost invariant = { IsFiled };
}

impl Lines for MapLines {
    ghost use Rattle.dir_lines.specs.Filed.{filed_at};

    ghost place = { λ m. m.place };

    ghost records = { filed_at };

    fn new(alloc: Global, cfg: &Config, home: DirId) -> Result<Self, NoMemory> {
        let count = count(cfg, home);
        let records = blanks(alloc, cfg.words() / 8, cfg.dirs() as u32, home.0 as u32)?;
        match Vec::with_capacity(alloc, count) {
            Ok(marked) => Ok(MapLines {
                cfg: *cfg,
                home,
                records,
                marked,
            }),
            Err(_) => Err(NoMemory),
        }
    }

    fn get(&self, line: LineAddr) -> LineRecord {
        match self.records.get(&line.0) {
            Some(record) => *record,
            None => LineRecord::blank(),
        }
    }

    fn set(&mut self, line: LineAddr, to: LineRecord) {
        let was = replaced(&mut self.records, line.0, to);
        marked::update(&mut self.marked, line.0, was, to.mark);
    }

    fn marked_lines(&self) -> u32 {
        self.marked.len() as u32
    }

    fn marked_line(&self, k: usize) -> Option<LineAddr> {
        let line = self.marked.get(k)?;
        Some(LineAddr(*line))
    }
}

// A blank record for each of the first `lines` lines that is at home at this directory.
fn blanks(
    alloc: Global,
    lines: u32,
    dirs: u32,
    home: u32,
) -> Result<BTreeMap<u32, LineRecord>, NoMemory>
    requires { 0 < dirs }
    ensures blank { IfOk result (λ m. AllBlank m.entries) }
    ensures all { IfOk result (λ m. HasAll lines dirs home m.entries) }
{
    let mut records = BTreeMap::new(alloc);
    for line in 0..lines {
        if line % dirs == home && records.insert(line, LineRecord::blank()).is_err() {
            return Err(NoMemory);
        }
    }
    Ok(records)
}

// Puts a record in the place of the line's, and gives the mark that stood there.
fn replaced(records: &mut BTreeMap<u32, LineRecord>, line: u32, to: LineRecord) -> Mask
    requires { IsSome (found records.old.entries line) }
    ensures was { IfSome (found records.old.entries line) (λ r. result ≡ r.mark) }
    ensures records { (q : ℕ) → found records.new.entries q ≡ (if line == q then Some to else found records.old.entries q) }
{
    match records.get_mut(&line) {
        Some(record) => {
            let was = record.mark;
            *record = to;
            was
        }
        None => to.mark,
    }
}
