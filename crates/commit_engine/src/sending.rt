// What is sent to each directory of a set.
ghost use Rattle.std.specs.Prelude.{◌≡◌, ◌*◌, length, map};
ghost use Rattle.rules_maps.specs.Nodes.{Dir};
ghost use Rattle.tcc_msg.specs.Plain.{msg_of};
ghost use Rattle.rules_tcc.specs.Sends.{to, skip_all, probe_all, abort_written};
ghost use Rattle.rules_tcc.specs.CoreDeliver.{grant_sends};
ghost use Rattle.rules_maps.specs.Cache.{reads_at, writes_at};
ghost use Rattle.rules_maps.specs.Masks.{has};
ghost use Rattle.spec_cache.specs.Held.{maps};
ghost use Rattle.commit_engine.specs.Engine.{first_with};
ghost use Rattle.spec_cache.specs.Home.{mark_of};
ghost use Rattle.commit_engine.specs.Sent.{HasRoom, Sent, to_first, to_members, mark_at};

use crate::dir_set::DirSet;
use spec_cache::SpecCache;
use tcc_base::{Config, DirId, LineAddr, Mask, NodeId, Tid};
use tcc_msg::{Msg, Outgoing};

/// Sends a message to each directory of the set, in rising order.
pub fn send_each(cfg: &Config, set: DirSet, msg: Msg, out: &mut Outgoing)
    requires { HasRoom out.old cfg.now.dirs }
    ensures { Sent out.old out.new (to_first cfg.now.dirs (to_members set.bits (msg_of msg))) cfg.now.dirs }
{
    for d in 0..cfg.dirs() {
        if set.contains(DirId(d)) {
            out.hand_out(NodeId::Dir(DirId(d)), msg);
        }
    }
}

/// Gives up a TID at every directory.
pub fn send_skips(cfg: &Config, tid: Tid, out: &mut Outgoing)
    requires { HasRoom out.old cfg.now.dirs }
    ensures { Sent out.old out.new (skip_all cfg.now tid.0) cfg.now.dirs }
{
    send_each(cfg, DirSet::below(cfg.dirs()), Msg::Skip { tid }, out);
}

/// Asks every directory to serve a TID.
pub fn send_probes(cfg: &Config, tid: Tid, out: &mut Outgoing)
    requires { HasRoom out.old cfg.now.dirs }
    ensures { Sent out.old out.new (probe_all cfg.now tid.0) cfg.now.dirs }
{
    send_each(cfg, DirSet::below(cfg.dirs()), Msg::Probe { tid }, out);
}

/// Marks the lines at their directory, in the order in which they stand.
pub fn send_marks(d: DirId, marks: &[(LineAddr, Mask)], tid: Tid, out: &mut Outgoing)
    requires { HasRoom out.old (length marks.now) }
    ensures { Sent out.old out.new (to (Dir d.0) (map (mark_at tid.0) (map mark_of marks.now))) (length marks.now) }
{
    for (line, mask) in marks {
        let mark = Msg::Mark {
            line: *line,
            mask: *mask,
            tid,
        };
        out.hand_out(NodeId::Dir(d), mark);
    }
}

/// Gives up a TID at the directories of this set, which are those that were written.
pub fn send_aborts(cfg: &Config, cache: &SpecCache, written: DirSet, tid: Tid, out: &mut Outgoing)
    requires room { HasRoom out.old cfg.now.dirs }
    requires written { has written.bits ≡ first_with cfg.now.dirs (writes_at cfg.now (maps cache.now)) }
    ensures { Sent out.old out.new (abort_written cfg.now (maps cache.now) tid.0) cfg.now.dirs }
{
    send_each(cfg, written, Msg::Abort { tid }, out);
}

/// What a granted TID lets a core send: a skip where nothing was written, a probe where something was written or read.
pub fn send_granted(
    cfg: &Config,
    cache: &SpecCache,
    written: DirSet,
    read: DirSet,
    tid: Tid,
    out: &mut Outgoing,
)
    requires room { HasRoom out.old (2 * cfg.now.dirs) }
    requires written { has written.bits ≡ first_with cfg.now.dirs (writes_at cfg.now (maps cache.now)) }
    requires read { has read.bits ≡ first_with cfg.now.dirs (reads_at cfg.now (maps cache.now)) }
    ensures { Sent out.old out.new (grant_sends cfg.now (maps cache.now) tid.0) (2 * cfg.now.dirs) }
{
    let unwritten = DirSet::below(cfg.dirs()).minus(written);
    send_each(cfg, unwritten, Msg::Skip { tid }, out);
    send_each(cfg, written.or(read), Msg::Probe { tid }, out);
}
