// What is shown of a directory beside a line's state: the skips, the sharers, a line's record and which lines are marked.
ghost use Rattle.std.specs.Prelude.{◌≡◌, ◌+◌, ◌<◌, ◌^◌, ℕ, length, option_map, slice_get};
ghost use Rattle.rules_maps.specs.Lines.{has_mark};
ghost use Rattle.rules_maps.specs.Masks.{has};
ghost use Rattle.rules_maps.specs.Serving.{is_skipped};
ghost use Rattle.rules_maps.specs.Shape.{lines as line_count};
ghost use Rattle.rules_maps.specs.Words.{those};
ghost use Rattle.dir_lines.specs.Home.{IsAtHome};
ghost use Rattle.dir_lines.specs.Pages.{pages_at};
ghost use Rattle.directory.specs.Data.{dir_of};

use crate::directory::Directory;
use dir_lines::{CoreSet, LineRecord};
use tcc_base::{LineAddr, Tid};

impl Directory {
    /// How many TIDs above the served one are kept, skipped or not: no TID behind them was skipped. It takes constant time.
    pub fn skips_ahead(&self) -> usize
        ensures count { (elsewhere : ℕ → ℕ) → result ≡ length (dir_of elsewhere self.now).serving.skips }
        ensures fits { (elsewhere : ℕ → ℕ) → (dir_of elsewhere self.now).serving.serving + result < 2 ^ 63 }
        ensures home { self.now.words.place ≡ self.now.lines.place }
    {
        self.skips.skips_ahead()
    }

    /// Whether the TID is above the served one and was skipped. It takes constant time.
    pub fn is_skipped(&self, tid: Tid) -> bool
        ensures { (elsewhere : ℕ → ℕ) → result ≡ is_skipped (dir_of elsewhere self.now).serving tid.0 }
    {
        self.skips.is_skipped(tid)
    }

    /// The cores that share a line that is at home here. It takes constant time.
    pub fn sharers(&self, line: LineAddr) -> CoreSet
        requires { IsAtHome self.now.lines.place line.0 }
        ensures { (elsewhere : ℕ → ℕ) (c : ℕ) → has result.0 c ≡ (dir_of elsewhere self.now).lines.sharers line.0 c }
    {
        self.lines.get(line).sharers
    }

    /// The record of a line that is at home here. It takes constant time.
    pub fn record(&self, line: LineAddr) -> LineRecord
        requires { IsAtHome self.now.lines.place line.0 }
        ensures { result ≡ pages_at self.now.lines line.0 }
    {
        self.lines.get(line)
    }

    /// The k-th marked line in rising order, from 0; `None` exactly where there are no more than k. It takes constant time.
    pub fn marked_line(&self, k: usize) -> Option<LineAddr>
        ensures { (elsewhere : ℕ → ℕ) → option_map (λ l. l.0) result
            ≡ slice_get (those (has_mark (dir_of elsewhere self.now).lines) (line_count self.now.lines.place.shape)) k }
    {
        self.lines.marked_line(k)
    }
}
