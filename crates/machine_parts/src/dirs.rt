// Whether what the directories know may be.
ghost use Rattle.std.specs.Prelude.{◌≡◌, ◌↔◌, ℕ, IsTrue};
ghost use Rattle.directory.specs.Data.{dir_of};
ghost use Rattle.machine_dirs.specs.Bank.{dirs_of};
ghost use Rattle.machine_parts.specs.Directories.{IsGoodDirectory};

use directory::Directory;
use machine_dirs::DirBank;
use tcc_base::DirId;

/// Whether what a directory knows may be.
fn is_good_directory(dir: &Directory) -> bool
    ensures { (ram : ℕ → ℕ) → IsTrue result ↔ IsGoodDirectory dir.now.lines.place.shape dir.now.lines.place.dir (dir_of ram dir.now) }
{
    dir.keeps_lines_home();
    dir.serving().0 > 0 && dir.lines_fit()
}

/// Whether what all directories know may be.
pub(crate) fn are_good_directories(dirs: &DirBank) -> bool
    ensures { (ram : ℕ → ℕ) → IsTrue result ↔ ((d : ℕ) → IsGoodDirectory dirs.now.settings d (dirs_of ram dirs.now d)) }
{
    for d in 0..dirs.config().dirs() {
        if !is_good_directory(dirs.directory(DirId(d))) {
            return false;
        }
    }
    dirs.dir_count();
    true
}
