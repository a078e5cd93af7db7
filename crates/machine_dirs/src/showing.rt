// One directory of a machine, or all of them, to be looked at.
ghost use Rattle.std.specs.Prelude.{◌≡◌, ◌<◌, ℕ, Some, length, slice_get};
ghost use Rattle.directory.specs.Data.{DirData, dir_of};
ghost use Rattle.machine_dirs.specs.Bank.{dirs_of};

use crate::bank::DirBank;
use directory::Directory;
use tcc_base::DirId;

impl DirBank {
    /// A directory. It takes constant time.
    pub fn directory(&self, dir: DirId) -> &Directory
        requires exists { dir.0 < self.now.settings.dirs }
        ensures place { result.now.lines.place ≡ record { shape = self.now.settings; dir = dir.0 } }
        ensures data { slice_get self.now.dirs dir.0 ≡ Some result.now }
        ensures state { (ram : ℕ → ℕ) → dir_of ram result.now ≡ dirs_of ram self.now dir.0 }
    {
        &self.dirs.items[dir.0 as usize]
    }

    /// All directories by number, to be looked at. It takes constant time.
    pub fn all_dirs(&self) -> &[Directory]
        ensures data { result.now ≡ self.now.dirs }
        ensures count { length self.now.dirs ≡ self.now.settings.dirs }
        ensures place { (d : ℕ) (x : DirData) → slice_get self.now.dirs d ≡ Some x
            → x.lines.place ≡ record { shape = self.now.settings; dir = d } }
    {
        self.dirs.items.as_slice()
    }
}
