// How many directories there are.
ghost use Rattle.std.specs.Prelude.{◌≡◌, ◌≤◌, ℕ, length};
ghost use Rattle.rules_tcc.specs.State.{dir_start};
ghost use Rattle.machine_dirs.specs.Bank.{dirs_of};

use crate::bank::DirBank;
use tcc_base::Config;

impl DirBank {
    /// The settings.
    pub fn config(&self) -> &Config
        ensures { result.now ≡ self.now.settings }
    {
        &self.config
    }

    /// The number of directories. Those that the machine doesn't have stand for directories at their start. It takes constant time.
    pub fn dir_count(&self) -> usize
        ensures count { result ≡ self.now.settings.dirs }
        ensures all { result ≡ length self.now.dirs }
        ensures others { (ram : ℕ → ℕ) (d : ℕ) → self.now.settings.dirs ≤ d → dirs_of ram self.now d ≡ dir_start ram }
    {
        self.dirs.items.len()
    }
}
