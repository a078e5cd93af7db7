// The directories of a machine.
ghost use Rattle.std.specs.Prelude.{◌≡◌, ◌<◌, ℕ, IfOk};
ghost use Rattle.image_load.specs.Contents.{started};
ghost use Rattle.image_load.specs.Start.{first_ram};
ghost use Rattle.tcc_base.specs.Settings.{IsAllowed};
ghost use Rattle.rules_tcc.specs.State.{dir_start};
ghost use Rattle.machine_dirs.specs.Bank.{dirs_of};
ghost use Rattle.machine_dirs.specs.BankInside.{AreDirs};

use directory::Directory;
use image_load::Loaded;
use std::alloc::Global;
use std::marker::Model;
use tcc_base::{Config, DirId, List, NoMemory};

/// All directories of a machine. In a clause `dirs_of` makes of it the states of the rules by directory.
#[derive(Debug, Drop)]
pub struct DirBank {
    pub(crate) config: Config,
    pub(crate) dirs: List<Directory>,
}

impl Model for DirBank {
    ghost use Rattle.machine_dirs.specs.Bank.{DirsData};

    ghost Value = { DirsData };

    ghost use Rattle.machine_dirs.specs.BankInside.{bank_of, IsBank};

    ghost view = { bank_of };

    ghost invariant = { IsBank };
}

impl DirBank {
    /// All directories with the words that were loaded, each serving TID 1. Takes time and memory in RAM.
    pub fn start(alloc: Global, loaded: &Loaded) -> Result<DirBank, NoMemory>
        ensures settings { IfOk result (λ b. b.settings ≡ loaded.now.settings) }
        ensures start { IfOk result (λ b. dirs_of (first_ram (started loaded.now)) b ≡ (λ d. dir_start (first_ram (started loaded.now)))) }
    {
        let config = *loaded.config();
        let dirs = start_dirs(alloc, &config, loaded)?;
        Ok(DirBank { config, dirs })
    }
}

/// All directories, with the words that were loaded.
fn start_dirs(alloc: Global, config: &Config, loaded: &Loaded) -> Result<List<Directory>, NoMemory>
    requires { loaded.now.settings ≡ config.now }
    ensures allowed { IfOk result (λ ds. IsAllowed config.now) }
    ensures dirs { IfOk result (λ ds. AreDirs config.now ds) }
    ensures start { IfOk result
        (λ ds. dirs_of (first_ram (started loaded.now)) (record { settings = config.now; dirs = ds })
        ≡ (λ d. dir_start (first_ram (started loaded.now)))) }
{
    let mut dirs = List::new(alloc);
    for d in 0..config.dirs() {
        dirs.push(Directory::start(alloc, config, loaded, DirId(d))?)?;
    }
    Ok(dirs)
}
