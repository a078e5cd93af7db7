// What goes out where a transaction commits, and what a core notes of it.
ghost use Rattle.std.specs.Prelude.{◌≡◌, ◌≤◌, length};
ghost use Rattle.rules_maps.specs.Masks.{has};
ghost use Rattle.rules_tcc.specs.Commit.{with_last_commit, commit_sends};
ghost use Rattle.spec_cache.specs.Held.{maps};
ghost use Rattle.commit_engine.specs.Engine.{after_of, first_with};
ghost use Rattle.commit_engine.specs.Sent.{HasRoom, Sent};

use crate::dir_set::DirSet;
use spec_cache::SpecCache;
use tcc_base::{Config, DirId, NodeId, Tid};
use tcc_msg::{Msg, Outgoing};

/// Tells each written directory that the transaction has committed, and how many lines were marked there.
pub fn send_commits(cfg: &Config, cache: &SpecCache, tid: Tid, out: &mut Outgoing)
    requires config { cache.now.config ≡ cfg.now }
    requires room { HasRoom out.old cfg.now.dirs }
    ensures { Sent out.old out.new (commit_sends cfg.now (maps cache.now) tid.0) cfg.now.dirs }
{
    for d in 0..cfg.dirs() {
        let count = cache.write_count(DirId(d));
        if count != 0 {
            out.hand_out(NodeId::Dir(DirId(d)), Msg::Commit { tid, count });
        }
    }
}

/// Notes the TID of a commit for each directory of the set below a number; for all others the last commit stays as it was.
pub fn note_commit(written: DirSet, dirs: u8, tid: Tid, after: &mut [Tid; 64])
    requires { dirs ≤ 64 }
    ensures noted { after_of after.new ≡ with_last_commit (first_with dirs (has written.bits)) tid.0 (after_of after.old) }
    ensures count { length after.new ≡ 64 }
{
    for d in 0..dirs {
        if written.contains(DirId(d)) {
            after[d as usize] = tid;
        }
    }
}
