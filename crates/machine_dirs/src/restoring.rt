// Directories in the middle of a run, made line by line from what a checkpoint says of them.
ghost use Rattle.std.specs.Prelude.{◌≡◌, ℕ, ◌^◌, ◌<◌, ◌≤◌, ◌/◌, ◌↔◌, IsTrue};
ghost use Rattle.std.specs.Bool.{OnTrue, OnFalse};
ghost use Rattle.tcc_base.specs.Put.{put};
ghost use Rattle.rules_maps.specs.Shape.{home, lines};
ghost use Rattle.dir_lines.specs.Restored.{RecordFits};
ghost use Rattle.directory.specs.Restored.{restored_line, restored_serving};
ghost use Rattle.machine_dirs.specs.Bank.{dirs_of};

use crate::bank::DirBank;
use dir_lines::LineRecord;
use skip_vector::SkipVector;
use tcc_base::{DirId, LineAddr};

impl DirBank {
    /// Sets all that is known of a line at its home, and its eight home words. False exactly where memory has no such line, or a sharer
    /// or the owner isn't a core that the machine has, and then nothing is changed. It takes constant time and no memory.
    pub fn restore_line(&mut self, line: LineAddr, to: LineRecord, words: &[u32; 8]) -> bool
        ensures fits { IsTrue result ↔ (line.0 < lines self.old.settings) × RecordFits self.old.settings.cores to }
        ensures settings { self.new.settings ≡ self.old.settings }
        ensures restored { OnTrue result ((ram : ℕ → ℕ)
            → dirs_of ram self.new ≡ put (dirs_of ram self.old) (home self.old.settings line.0)
            (restored_line line.0 to words.now (dirs_of ram self.old (home self.old.settings line.0)))) }
        ensures unchanged { OnFalse result ((ram : ℕ → ℕ) → dirs_of ram self.new ≡ dirs_of ram self.old) }
    {
        let dir = self.config.home(line);
        self.dirs.items[dir.0 as usize].restore_line(line, to, words)
    }

    /// Sets the TID that a directory serves with the skips, and how many acknowledgements are owed for its commit. False exactly where
    /// there is no such directory, or some are owed at a TID above 2^62, which no transaction has, and then nothing is changed. It takes
    /// constant time and no memory.
    pub fn restore_serving(&mut self, dir: DirId, skips: SkipVector, owed: u64) -> bool
        ensures fits { IsTrue result ↔ (dir.0 < self.old.settings.dirs) × (0 < owed → skips.serving ≤ 2 ^ 62) }
        ensures settings { self.new.settings ≡ self.old.settings }
        ensures restored { OnTrue result ((ram : ℕ → ℕ)
            → dirs_of ram self.new ≡ put (dirs_of ram self.old) dir.0 (restored_serving skips owed (dirs_of ram self.old dir.0))) }
        ensures unchanged { OnFalse result ((ram : ℕ → ℕ) → dirs_of ram self.new ≡ dirs_of ram self.old) }
    {
        if dir.0 >= self.config.dirs() {
            return false;
        }
        self.dirs.items[dir.0 as usize].restore_serving(skips, owed)
    }
}
