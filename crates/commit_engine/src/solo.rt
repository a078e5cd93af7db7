// The commit of a core that is alone: all that it wrote goes out at once.
ghost use Rattle.std.specs.Prelude.{◌≡◌, ◌+◌, ◌*◌, ◌<◌, ◌≤◌, length, map, OnOk};
ghost use Rattle.rules_maps.specs.Masks.{has};
ghost use Rattle.rules_maps.specs.Shape.{home, lines};
ghost use Rattle.rules_tcc.specs.Commit.{solo_sends, solo_writes_at, written_mask as joined_mask};
ghost use Rattle.spec_cache.specs.Held.{maps};
ghost use Rattle.spec_cache.specs.Home.{mark_of};
ghost use Rattle.overflow_buf.specs.Kept.{spilled as words_of};
ghost use Rattle.commit_engine.specs.Engine.{first_with};
ghost use Rattle.commit_engine.specs.Solo.{at_homes, closing, here, marked_line, solo_list, spilled_back};
ghost use Rattle.commit_engine.specs.Sent.{HasRoom, Sent, to_first};

use crate::dir_set::DirSet;
use crate::written::written_lines;
use overflow_buf::OverflowBuf;
use spec_cache::SpecCache;
use tcc_base::{Config, DirId, LineAddr, Mask, NoMemory, NodeId, Tid};
use tcc_msg::{Msg, Outgoing};

/// The mask of the words of a line that are modified or spilled.
fn written_mask(cache: &SpecCache, spilled: &OverflowBuf, line: LineAddr) -> Mask
    ensures { result.0 ≡ joined_mask (maps cache.now) (words_of spilled.now) line.0 }
{
    let modified = match cache.frame_of(line) {
        None => 0,
        Some(frame) => frame.modified.0,
    };
    Mask(modified | spilled.mask(line).0)
}

/// Puts all lines that have modified or spilled words into the list, rising, each with the mask of these words, in place of what
/// the list held. Takes time in the marked frames for each directory, and in the spilled lines, which it sorts.
pub fn solo_marks_into(
    cfg: &Config,
    cache: &SpecCache,
    spilled: &OverflowBuf,
    marks: &mut Vec<(LineAddr, Mask)>,
) -> Result<(), NoMemory>
    requires { cache.now.config ≡ cfg.now }
    ensures { OnOk result (map mark_of marks.new.items ≡ solo_list cfg.now (maps cache.now) (words_of spilled.now)) }
{
    let lines = written_lines(cfg, cache, spilled)?;
    let end = cfg.words() / 8;
    marks.clear();
    for line in &lines {
        if *line < end {
            let mask = written_mask(cache, spilled, LineAddr(*line));
            let Ok(()) = marks.push((LineAddr(*line), mask)) else {
                return Err(NoMemory);
            };
        }
    }
    Ok(())
}

/// The directory at which a line is at home.
fn home_of(cfg: &Config, line: LineAddr) -> DirId
    ensures { result.0 ≡ home cfg.now line.0 }
{
    DirId((line.0 % cfg.dirs() as u32) as u8)
}

/// Marks each line of the list at its home.
fn mark_all(cfg: &Config, marks: &[(LineAddr, Mask)], tid: Tid, out: &mut Outgoing)
    requires { HasRoom out.old (length marks.now) }
    ensures { Sent out.old out.new (at_homes cfg.now (marked_line tid.0) (map mark_of marks.now)) (length marks.now) }
{
    for (line, mask) in marks {
        let mark = Msg::Mark {
            line: *line,
            mask: *mask,
            tid,
        };
        out.hand_out(NodeId::Dir(home_of(cfg, *line)), mark);
    }
}

/// The number of lines of the list that are at home at the directory.
fn count_here(cfg: &Config, marks: &[(LineAddr, Mask)], d: DirId) -> u32
    requires { length marks.now < 4294967296 }
    ensures { result ≡ length (here cfg.now d.0 (map mark_of marks.now)) }
{
    let mut count = 0;
    for (line, _) in marks {
        if home_of(cfg, *line).0 == d.0 {
            count += 1;
        }
    }
    count
}

/// How many messages `send_solo` sends at most.
pub fn solo_room(
    cfg: &Config,
    cache: &SpecCache,
    spilled: &OverflowBuf,
    marks: &[(LineAddr, Mask)],
) -> usize
    requires { map mark_of marks.now ≡ solo_list cfg.now (maps cache.now) (words_of spilled.now) }
    ensures { result ≡ 2 * length marks.now + cfg.now.dirs }
{
    let dirs = cfg.dirs() as usize;
    2 * marks.len() + dirs
}

/// The directories where lines of the list are at home, where it holds all lines that the core has written.
pub fn solo_homes(
    cfg: &Config,
    cache: &SpecCache,
    spilled: &OverflowBuf,
    marks: &[(LineAddr, Mask)],
) -> DirSet
    requires { map mark_of marks.now ≡ solo_list cfg.now (maps cache.now) (words_of spilled.now) }
    ensures { has result.bits ≡ first_with cfg.now.dirs (solo_writes_at cfg.now (maps cache.now) (words_of spilled.now)) }
{
    let mut set = DirSet::none();
    for d in 0..cfg.dirs() {
        if count_here(cfg, marks, DirId(d)) != 0 {
            set = set.with(DirId(d));
        }
    }
    set
}

/// Tells each directory how many lines of the list were marked there, or that there were none.
fn close_all(cfg: &Config, marks: &[(LineAddr, Mask)], tid: Tid, out: &mut Outgoing)
    requires few { length marks.now ≤ lines cfg.now }
    requires room { HasRoom out.old cfg.now.dirs }
    ensures sent { Sent out.old out.new (to_first cfg.now.dirs (closing cfg.now (map mark_of marks.now) tid.0)) cfg.now.dirs }
    ensures some { 0 < cfg.now.dirs }
{
    for d in 0..cfg.dirs() {
        let count = count_here(cfg, marks, DirId(d));
        if count == 0 {
            out.hand_out(NodeId::Dir(DirId(d)), Msg::Skip { tid });
        } else {
            out.hand_out(NodeId::Dir(DirId(d)), Msg::Commit { tid, count });
        }
    }
}

/// Sends the spilled words of the lines of the list home.
fn send_backs(
    cfg: &Config,
    spilled: &OverflowBuf,
    marks: &[(LineAddr, Mask)],
    tid: Tid,
    out: &mut Outgoing,
)
    requires { HasRoom out.old (length marks.now) }
    ensures { Sent out.old out.new (at_homes cfg.now (spilled_back (words_of spilled.now) tid.0) (map mark_of marks.now))
        (length marks.now) }
{
    for (line, _) in marks {
        if spilled.holds(*line) {
            let kept = spilled.line(*line, tid);
            let words = kept.words;
            let back = Msg::WriteBack {
                mask: kept.mask,
                line: kept.line,
                words,
                tag: kept.tag,
            };
            out.hand_out(NodeId::Dir(home_of(cfg, *line)), back);
        }
    }
}

/// What a core sends that commits alone, where the list holds all lines that it has written: to each directory a mark for each of
/// these lines that is at home there and then the commit, or a skip where there is none, and behind them the spilled words.
pub fn send_solo(
    cfg: &Config,
    cache: &SpecCache,
    spilled: &OverflowBuf,
    marks: &[(LineAddr, Mask)],
    tid: Tid,
    out: &mut Outgoing,
)
    requires marks { map mark_of marks.now ≡ solo_list cfg.now (maps cache.now) (words_of spilled.now) }
    requires room { HasRoom out.old (2 * length marks.now + cfg.now.dirs) }
    ensures { Sent out.old out.new (solo_sends cfg.now (maps cache.now) (words_of spilled.now) tid.0)
        (2 * length marks.now + cfg.now.dirs) }
{
    mark_all(cfg, marks, tid, out);
    close_all(cfg, marks, tid, out);
    send_backs(cfg, spilled, marks, tid, out);
}
