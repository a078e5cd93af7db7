// What one directory of a machine knows.
ghost use Rattle.std.specs.Prelude.{◌≡◌, ◌<◌, ℕ, option_map};
ghost use Rattle.rules_maps.specs.Lines.{has_mark};
ghost use Rattle.rules_maps.specs.Shape.{home, lines};
ghost use Rattle.rules_maps.specs.Words.{count_below};
ghost use Rattle.machine_dirs.specs.Bank.{dirs_of};

use crate::bank::DirBank;
use directory::LineState;
use tcc_base::{DirId, LineAddr, Tid};

impl DirBank {
    /// The TID that a directory serves now. It takes constant time.
    pub fn serving(&self, dir: DirId) -> Tid
        requires exists { dir.0 < self.now.settings.dirs }
        ensures { (ram : ℕ → ℕ) → result.0 ≡ (dirs_of ram self.now dir.0).serving.serving }
    {
        self.dirs.items[dir.0 as usize].serving()
    }

    /// The number of lines that are marked at a directory. It takes constant time.
    pub fn marked_lines(&self, dir: DirId) -> u32
        requires exists { dir.0 < self.now.settings.dirs }
        ensures { (ram : ℕ → ℕ) → result ≡ count_below (has_mark (dirs_of ram self.now dir.0).lines) (lines self.now.settings) }
    {
        self.dirs.items[dir.0 as usize].marked_lines()
    }

    /// What the home of a line knows of it. It takes constant time.
    pub fn line_state(&self, line: LineAddr) -> LineState
        requires inside { line.0 < lines self.now.settings }
        ensures mark { (ram : ℕ → ℕ) → result.mark.0 ≡ (dirs_of ram self.now (home self.now.settings line.0)).lines.mark line.0 }
        ensures owner { (ram : ℕ → ℕ) → option_map (λ c. c.0) result.owner
            ≡ (dirs_of ram self.now (home self.now.settings line.0)).lines.owner line.0 }
        ensures asked { (ram : ℕ → ℕ) → result.asked ≡ (dirs_of ram self.now (home self.now.settings line.0)).lines.asked line.0 }
        ensures tag { (ram : ℕ → ℕ) → result.tag.0 ≡ (dirs_of ram self.now (home self.now.settings line.0)).lines.tag line.0 }
    {
        let dir = self.config.home(line);
        self.dirs.items[dir.0 as usize].line_state(line)
    }
}
