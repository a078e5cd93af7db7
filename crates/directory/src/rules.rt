// The rules of a directory, one function each.
ghost use Rattle.std.specs.Prelude.{◌≡◌, ℕ, ◌^◌, ◌<◌, ◌≤◌, IfOk, OnErr, option_map, None, if◌then◌else◌, ◌==◌};
ghost use Rattle.rules_maps.specs.Masks.{full};
ghost use Rattle.rules_tcc.specs.DirDeliver.{skip, abort, probe, ask_owner, load_request, load_unless_owned, mark, dir_commit};
ghost use Rattle.rules_tcc.specs.DirDeliver.{acknowledgement, write_back, moved_on_if_settled, unless_keeps};
ghost use Rattle.dir_lines.specs.Home.{IsAtHome};
ghost use Rattle.dir_lines.specs.Kept.{kept};
ghost use Rattle.directory.specs.Data.{dir_of};
ghost use Rattle.directory.specs.Gives.{Gives};

use crate::directory::Directory;
use crate::handled::Handled;
use crate::invalidate::{invalidate, own_marked};
use dir_lines::DirLines;
use tcc_base::{CoreId, LineAddr, Mask, NoMemory, NodeId, Tid};
use tcc_msg::{Msg, Outgoing};
use write_back::{Take, judge};

impl Directory {
    // A larger TID is kept as skipped, the served one advances, a lower one is dropped.
    pub(crate) fn skip(&mut self, tid: Tid, out: &mut Outgoing) -> Result<Handled, NoMemory>
        requires { tid.0 < 2 ^ 62 }
        ensures place { self.new.lines.place ≡ self.old.lines.place }
        ensures gives { IfOk result (λ h. Gives self.old self.new out.old.list.items out.new.list.items h (skip tid.0)) }
        ensures unchanged { OnErr result (self.new ≡ self.old) }
        ensures unsent { OnErr result (out.new.list.items ≡ out.old.list.items) }
    {
        let _ = out;
        if tid.0 < self.skips.serving().0 {
            return Ok(Handled::Dropped);
        }
        self.skips.skip(tid)?;
        Ok(Handled::Handled)
    }

    // A larger TID is kept as skipped, the served one clears all marks and advances, a lower one is dropped.
    pub(crate) fn abort(&mut self, tid: Tid, out: &mut Outgoing) -> Result<Handled, NoMemory>
        requires { tid.0 < 2 ^ 62 }
        ensures place { self.new.lines.place ≡ self.old.lines.place }
        ensures gives { IfOk result (λ h. Gives self.old self.new out.old.list.items out.new.list.items h (abort tid.0)) }
        ensures unchanged { OnErr result (self.new ≡ self.old) }
        ensures unsent { OnErr result (out.new.list.items ≡ out.old.list.items) }
    {
        let _ = out;
        let serving = self.skips.serving();
        if tid.0 < serving.0 {
            return Ok(Handled::Dropped);
        }
        if serving.0 < tid.0 {
            self.skips.skip(tid)?;
            return Ok(Handled::Handled);
        }
        self.skips.skip(tid)?;
        self.lines.clear_marks();
        Ok(Handled::Handled)
    }

    // Answered once the TID is served or passed.
    pub(crate) fn probe(
        &self,
        src: CoreId,
        tid: Tid,
        out: &mut Outgoing,
    ) -> Result<Handled, NoMemory>
        ensures gives { IfOk result (λ h. Gives self.now self.now out.old.list.items out.new.list.items h (probe src.0 tid.0)) }
        ensures unsent { OnErr result (out.new.list.items ≡ out.old.list.items) }
    {
        let serving = self.skips.serving();
        if serving.0 < tid.0 {
            return Ok(Handled::Waits);
        }
        out.push(NodeId::Core(src), Msg::ProbeReply { tid, serving })?;
        Ok(Handled::Handled)
    }

    // The line's owner is asked for its data, once.
    fn ask(
        &mut self,
        owner: CoreId,
        line: LineAddr,
        out: &mut Outgoing,
    ) -> Result<Handled, NoMemory>
        requires { IsAtHome self.old.lines.place line.0 }
        ensures place { self.new.lines.place ≡ self.old.lines.place }
        ensures gives { IfOk result (λ h. Gives self.old self.new out.old.list.items out.new.list.items h (ask_owner owner.0 line.0)) }
        ensures unchanged { OnErr result (self.new ≡ self.old) }
        ensures unsent { OnErr result (out.new.list.items ≡ out.old.list.items) }
    {
        if self.lines.asked(line) {
            return Ok(Handled::Waits);
        }
        out.push(NodeId::Core(owner), Msg::DataReq { line })?;
        self.lines.set_asked(line, true);
        Ok(Handled::Asked)
    }

    // A load waits for the core's own last commit here and while the line is marked; a line without owner is filled.
    pub(crate) fn load(
        &mut self,
        src: CoreId,
        line: LineAddr,
        after: Tid,
        out: &mut Outgoing,
    ) -> Result<Handled, NoMemory>
        requires core { src.0 < self.old.lines.place.shape.cores }
        requires home { IsAtHome self.old.lines.place line.0 }
        ensures place { self.new.lines.place ≡ self.old.lines.place }
        ensures gives { IfOk result
            (λ h. Gives self.old self.new out.old.list.items out.new.list.items h (load_request src.0 line.0 after.0)) }
        ensures unchanged { OnErr result (self.new ≡ self.old) }
        ensures unsent { OnErr result (out.new.list.items ≡ out.old.list.items) }
    {
        if self.skips.serving().0 <= after.0 {
            return Ok(Handled::Waits);
        }
        let record = self.lines.get(line);
        if record.mark.0 > 0 {
            return Ok(Handled::Waits);
        }
        match record.owner {
            Some(owner) => self.ask(owner, line, out),
            None => self.fill(src, line, out),
        }
    }

    // The core becomes a sharer of the line and gets its home words.
    fn fill(&mut self, src: CoreId, line: LineAddr, out: &mut Outgoing) -> Result<Handled, NoMemory>
        requires core { src.0 < self.old.lines.place.shape.cores }
        requires home { IsAtHome self.old.lines.place line.0 }
        ensures place { self.new.lines.place ≡ self.old.lines.place }
        ensures gives { IfOk result
            (λ h. Gives self.old self.new out.old.list.items out.new.list.items h (λ s. load_unless_owned src.0 line.0 s None)) }
        ensures unchanged { OnErr result (self.new ≡ self.old) }
        ensures unsent { OnErr result (out.new.list.items ≡ out.old.list.items) }
    {
        let words = self.words.line(line);
        out.push(NodeId::Core(src), Msg::Fill { line, words })?;
        self.lines.set_shares(line, src, true);
        Ok(Handled::Handled)
    }

    // The served TID marks words of a line; one that is owned and not wholly overwritten is asked for first.
    pub(crate) fn mark(
        &mut self,
        line: LineAddr,
        mask: Mask,
        tid: Tid,
        out: &mut Outgoing,
    ) -> Result<Handled, NoMemory>
        requires { IsAtHome self.old.lines.place line.0 }
        ensures place { self.new.lines.place ≡ self.old.lines.place }
        ensures gives { IfOk result (λ h. Gives self.old self.new out.old.list.items out.new.list.items h (mark line.0 mask.0 tid.0)) }
        ensures unchanged { OnErr result (self.new ≡ self.old) }
        ensures unsent { OnErr result (out.new.list.items ≡ out.old.list.items) }
    {
        let serving = self.skips.serving();
        if tid.0 < serving.0 {
            return Ok(Handled::Dropped);
        }
        if serving.0 < tid.0 {
            return Ok(Handled::Waits);
        }
        match asked_first(&self.lines, line, mask) {
            Some(owner) => self.ask(owner, line, out),
            None => {
                self.lines.set_mark(line, mask);
                Ok(Handled::Handled)
            }
        }
    }

    // The served TID commits once all its lines are marked: the other sharers of each are told, and the committer owns them.
    pub(crate) fn commit(
        &mut self,
        src: CoreId,
        tid: Tid,
        count: u32,
        out: &mut Outgoing,
    ) -> Result<Handled, NoMemory>
        requires core { src.0 < self.old.lines.place.shape.cores }
        requires tid { tid.0 < 2 ^ 62 }
        ensures place { self.new.lines.place ≡ self.old.lines.place }
        ensures gives { IfOk result
            (λ h. Gives self.old self.new out.old.list.items out.new.list.items h
            (dir_commit self.old.lines.place.shape src.0 tid.0 count)) }
        ensures unchanged { OnErr result (self.new ≡ self.old) }
        ensures unsent { OnErr result (out.new.list.items ≡ out.old.list.items) }
    {
        if self.skips.serving().0 != tid.0 {
            return Ok(Handled::Waits);
        }
        if self.lines.marked_lines() != count {
            return Ok(Handled::Waits);
        }
        let owed = invalidate(&self.lines, src, tid, out)?;
        own_marked(&mut self.lines, src, tid);
        self.owed = owed;
        self.settle();
        Ok(Handled::Handled)
    }

    // One acknowledgement less is owed, and a core that keeps no word of the line is no sharer any more.
    pub(crate) fn acknowledge(
        &mut self,
        src: CoreId,
        line: LineAddr,
        keeps: bool,
        out: &mut Outgoing,
    ) -> Handled
        requires core { src.0 < self.old.lines.place.shape.cores }
        requires home { IsAtHome self.old.lines.place line.0 }
        ensures place { self.new.lines.place ≡ self.old.lines.place }
        ensures gives { Gives self.old self.new out.old.list.items out.new.list.items result (acknowledgement src.0 line.0 keeps) }
    {
        let _ = out;
        if self.owed == 0 {
            return Handled::Dropped;
        }
        leave(&mut self.lines, line, src, keeps);
        self.owed -= 1;
        self.settle();
        Handled::Handled
    }

    // Words of the line's last commit from its owner become the home words; of a later commit they wait, all others are dropped.
    pub(crate) fn take_home(
        &mut self,
        src: CoreId,
        line: LineAddr,
        mask: Mask,
        words: &[u32; 8],
        tag: Tid,
        out: &mut Outgoing,
    ) -> Handled
        requires { IsAtHome self.old.lines.place line.0 }
        ensures place { self.new.lines.place ≡ self.old.lines.place }
        ensures gives { Gives self.old self.new out.old.list.items out.new.list.items result
            (write_back src.0 line.0 mask.0 words.now tag.0) }
    {
        let _ = out;
        let record = self.lines.get(line);
        match judge(record.owner, record.tag, src, tag) {
            Take::Wait => Handled::Waits,
            Take::Drop => Handled::Dropped,
            Take::Take => {
                self.words.write(line, mask, words);
                self.lines.set_owner(line, None);
                self.lines.set_asked(line, false);
                Handled::Handled
            }
        }
    }

    // Once nothing is owed, all marks are cleared and the next TID is served.
    fn settle(&mut self)
        requires { self.old.serving.serving ≤ 2 ^ 62 }
        ensures place { self.new.lines.place ≡ self.old.lines.place }
        ensures settled { (elsewhere : ℕ → ℕ) → dir_of elsewhere self.new ≡ moved_on_if_settled (dir_of elsewhere self.old) }
    {
        if self.owed == 0 {
            self.lines.clear_marks();
            self.skips.advance();
        }
    }
}

// The owner that must be asked before these words of the line are marked.
pub(crate) fn asked_first(lines: &DirLines, line: LineAddr, mask: Mask) -> Option<CoreId>
    requires { IsAtHome lines.now.place line.0 }
    ensures { option_map (λ c. c.0) result ≡ (if mask.0 == full then None else (kept lines.now).owner line.0) }
{
    if mask.0 == 255 {
        None
    } else {
        lines.owner(line)
    }
}

// A core that doesn't keep the line is no sharer any more.
fn leave(lines: &mut DirLines, line: LineAddr, core: CoreId, keeps: bool)
    requires home { IsAtHome lines.old.place line.0 }
    requires core { core.0 < lines.old.place.shape.cores }
    ensures place { lines.new.place ≡ lines.old.place }
    ensures map { kept lines.new ≡ unless_keeps keeps core.0 line.0 (kept lines.old) }
{
    if !keeps {
        lines.set_shares(line, core, false);
    }
}
