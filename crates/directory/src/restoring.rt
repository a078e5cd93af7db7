// A directory in the middle of a run, made line by line from what a checkpoint says of it.
ghost use Rattle.std.specs.Prelude.{◌≡◌, ℕ, ◌^◌, ◌<◌, ◌≤◌, ◌↔◌, IsTrue};
ghost use Rattle.std.specs.Bool.{OnTrue, OnFalse};
ghost use Rattle.dir_lines.specs.Home.{IsAtHome};
ghost use Rattle.dir_lines.specs.Kept.{kept};
ghost use Rattle.dir_lines.specs.Restored.{IsUnknown, LineFits, RecordFits};
ghost use Rattle.directory.specs.Data.{dir_of};
ghost use Rattle.directory.specs.Restored.{restored_line, restored_serving};

use crate::directory::Directory;
use dir_lines::{DirLines, LineRecord};
use skip_vector::SkipVector;
use tcc_base::{LineAddr, Mask};

// All eight words of a line.
const ALL: Mask = Mask(255);

impl Directory {
    /// Sets all that is known of a line, and its eight home words. False exactly where the line isn't at home here, or a sharer or the
    /// owner isn't a core that the machine has, and then nothing is changed. It takes constant time and no memory.
    pub fn restore_line(&mut self, line: LineAddr, to: LineRecord, words: &[u32; 8]) -> bool
        ensures fits { IsTrue result ↔ IsAtHome self.old.lines.place line.0 × RecordFits self.old.lines.place.shape.cores to }
        ensures place { self.new.lines.place ≡ self.old.lines.place }
        ensures restored { OnTrue result ((elsewhere : ℕ → ℕ)
            → dir_of elsewhere self.new ≡ restored_line line.0 to words.now (dir_of elsewhere self.old)) }
        ensures unchanged { OnFalse result (self.new ≡ self.old) }
    {
        if !self.lines.has_line(line) || !to.fits(self.lines.config().cores()) {
            return false;
        }
        self.lines.restore(line, to);
        self.words.write(line, ALL, words);
        true
    }

    /// Sets the TID that is served with the skips, and how many acknowledgements are owed for its commit. False exactly where some
    /// are owed at a TID above 2^62, which no transaction has, and then nothing is changed. It takes constant time and no memory.
    pub fn restore_serving(&mut self, skips: SkipVector, owed: u64) -> bool
        ensures fits { IsTrue result ↔ (0 < owed → skips.serving ≤ 2 ^ 62) }
        ensures place { self.new.lines.place ≡ self.old.lines.place }
        ensures restored { OnTrue result ((elsewhere : ℕ → ℕ)
            → dir_of elsewhere self.new ≡ restored_serving skips owed (dir_of elsewhere self.old)) }
        ensures unchanged { OnFalse result (self.new ≡ self.old) }
    {
        if owed > 0 && skips.serving().0 > 1 << 62 {
            return false;
        }
        self.skips = skips;
        self.owed = owed as usize;
        true
    }

    /// Whether the sharers and the owner of each line are cores that the machine has. Takes time in the lines that are at home here.
    pub fn lines_fit(&self) -> bool
        ensures { (elsewhere : ℕ → ℕ) → IsTrue result
            ↔ ((l : ℕ) → LineFits self.now.lines.place.shape.cores (dir_of elsewhere self.now).lines l) }
    {
        lines_fit(&self.lines)
    }

    /// Of a line that isn't at home here nothing is ever known. It does nothing.
    pub fn keeps_lines_home(&self)
        ensures { (elsewhere : ℕ → ℕ) (l : ℕ) → (IsAtHome self.now.lines.place l → ⊥) → IsUnknown (dir_of elsewhere self.now).lines l }
    {
        self.lines.keeps_home();
    }
}

// Whether the sharers and the owner of each line are cores that the machine has, line by line of those at home.
fn lines_fit(lines: &DirLines) -> bool
    ensures { IsTrue result ↔ ((l : ℕ) → LineFits lines.now.place.shape.cores (kept lines.now) l) }
{
    let config = lines.config();
    let count = config.words() / 8;
    let dirs = config.dirs() as u32;
    let mut line = lines.home().0 as u32;
    while line < count {
        if !lines.get(LineAddr(line)).fits(config.cores()) {
            return false;
        }
        line += dirs;
    }
    true
}
