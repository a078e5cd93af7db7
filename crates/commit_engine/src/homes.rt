// The directories at which a core's lines with marks are at home.
ghost use Rattle.std.specs.Prelude.{◌≡◌};
ghost use Rattle.rules_maps.specs.Cache.{reads_at as reads_at_home, writes_at as writes_at_home};
ghost use Rattle.rules_maps.specs.Masks.{has};
ghost use Rattle.spec_cache.specs.Held.{maps};
ghost use Rattle.commit_engine.specs.Engine.{first_with};

use crate::dir_set::DirSet;
use spec_cache::SpecCache;
use tcc_base::{Config, DirId};

/// The directories where a line has words that are marked read.
pub fn read_homes(cfg: &Config, cache: &SpecCache) -> DirSet
    requires { cache.now.config ≡ cfg.now }
    ensures { has result.bits ≡ first_with cfg.now.dirs (reads_at_home cfg.now (maps cache.now)) }
{
    let mut set = DirSet::none();
    for d in 0..cfg.dirs() {
        if cache.reads_at(DirId(d)) {
            set = set.with(DirId(d));
        }
    }
    set
}

/// The directories where a line has modified words.
pub fn written_homes(cfg: &Config, cache: &SpecCache) -> DirSet
    requires { cache.now.config ≡ cfg.now }
    ensures { has result.bits ≡ first_with cfg.now.dirs (writes_at_home cfg.now (maps cache.now)) }
{
    let mut set = DirSet::none();
    for d in 0..cfg.dirs() {
        if cache.writes_at(DirId(d)) {
            set = set.with(DirId(d));
        }
    }
    set
}
