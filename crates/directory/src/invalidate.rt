// A commit at its home: the other sharers of each marked line are told, and the committer becomes the lines' owner.
ghost use Rattle.std.specs.Prelude.{◌≡◌, ℕ, ◌<◌, ◌++◌, IfOk, OnOk, OnErr};
ghost use Rattle.rules_maps.specs.Words.{those};
ghost use Rattle.rules_maps.specs.Shape.{lines as line_count};
ghost use Rattle.rules_maps.specs.Lines.{has_mark};
ghost use Rattle.rules_tcc.specs.DirDeliver.{invalidation_count, owned_by_committer};
ghost use Rattle.dir_lines.specs.Home.{IsAtHome};
ghost use Rattle.dir_lines.specs.Kept.{kept};
ghost use Rattle.directory.specs.Invs.{told, told_all, is_told, Extends};

use dir_lines::DirLines;
use tcc_base::{CoreId, LineAddr, NoMemory, NodeId, Tid};
use tcc_msg::{Msg, Outgoing};

// Sends an invalidation of each marked line to each sharer but the committer, and gives their number. After want of memory
// nothing is sent.
pub(crate) fn invalidate(
    lines: &DirLines,
    src: CoreId,
    tid: Tid,
    out: &mut Outgoing,
) -> Result<usize, NoMemory>
    ensures sent { OnOk result (out.new.list.items ≡ out.old.list.items ++ told_all lines.now.place.shape (kept lines.now) src.0 tid.0) }
    ensures count { IfOk result (λ n. n ≡ invalidation_count lines.now.place.shape (kept lines.now) src.0) }
    ensures unsent { OnErr result (out.new.list.items ≡ out.old.list.items) }
{
    let before = out.len();
    match tell_all(lines, src, tid, out) {
        Ok(()) => Ok(out.len() - before),
        Err(NoMemory) => {
            out.truncate(before);
            Err(NoMemory)
        }
    }
}

// The same without taking back what was sent.
fn tell_all(lines: &DirLines, src: CoreId, tid: Tid, out: &mut Outgoing) -> Result<(), NoMemory>
    ensures sent { OnOk result (out.new.list.items ≡ out.old.list.items ++ told_all lines.now.place.shape (kept lines.now) src.0 tid.0) }
    ensures extends { Extends out.old.list.items out.new.list.items }
{
    for k in 0..lines.marked_lines() as usize {
        if let Some(line) = lines.marked_line(k) {
            tell(lines, line, src, tid, out)?;
        }
    }
    Ok(())
}

// Tells the other sharers of one line.
fn tell(
    lines: &DirLines,
    line: LineAddr,
    src: CoreId,
    tid: Tid,
    out: &mut Outgoing,
) -> Result<(), NoMemory>
    requires { IsAtHome lines.now.place line.0 }
    ensures sent { OnOk result
        (out.new.list.items ≡ out.old.list.items ++ told line.0 ((kept lines.now).mark line.0) tid.0
        (is_told (kept lines.now) src.0 line.0) lines.now.place.shape.cores) }
    ensures extends { Extends out.old.list.items out.new.list.items }
{
    let record = lines.get(line);
    let mask = record.mark;
    for core in 0..lines.config().cores() {
        if core != src.0 && record.sharers.contains(CoreId(core)) {
            out.push(NodeId::Core(CoreId(core)), Msg::Inv { line, mask, tid })?;
        }
    }
    Ok(())
}

// Makes the committer the owner of each marked line.
pub(crate) fn own_marked(lines: &mut DirLines, src: CoreId, tid: Tid)
    requires { src.0 < lines.old.place.shape.cores }
    ensures place { lines.new.place ≡ lines.old.place }
    ensures map { kept lines.new ≡ owned_by_committer src.0 tid.0 (kept lines.old) }
{
    for k in 0..lines.marked_lines() as usize {
        if let Some(line) = lines.marked_line(k) {
            lines.own(line, src, tid);
        }
    }
}
