// Whether a directory would take a message now.
ghost use Rattle.std.specs.Prelude.{◌≡◌, ℕ, ◌<◌, List, not, ◌&&◌};
ghost use Rattle.rules_tcc.specs.DirDeliver.{dir_deliver, probe, load_request, mark, dir_commit, write_back};
ghost use Rattle.tcc_msg.specs.Plain.{msg_of};
ghost use Rattle.dir_lines.specs.Home.{IsAtHome};
ghost use Rattle.directory.specs.Data.{dir_of};
ghost use Rattle.directory.specs.Foreign.{is_foreign};
ghost use Rattle.directory.specs.Gives.{is_taken};

use crate::directory::Directory;
use crate::rules::asked_first;
use tcc_base::{CoreId, LineAddr, Mask, Tid};
use tcc_msg::Msg;
use write_back::{Take, judge};

impl Directory {
    /// Whether `deliver` would take the message now, and answer `Handled`, `Asked` or `Dropped` or find no memory. It takes constant
    /// time.
    pub fn takes(&self, src: CoreId, msg: &Msg) -> bool
        requires { src.0 < self.now.lines.place.shape.cores }
        ensures { (elsewhere : ℕ → ℕ) → result ≡ not (is_foreign self.now.lines.place (msg_of msg.now))
            && is_taken (dir_deliver self.now.lines.place.shape (dir_of elsewhere self.now) src.0 (msg_of msg.now)) }
    {
        if self.is_foreign(msg) {
            return false;
        }
        match msg {
            Msg::Probe { tid } => self.takes_probe(*tid),
            Msg::LoadReq { line, after } => self.takes_load(*line, *after),
            Msg::Mark { line, mask, tid } => self.takes_mark(*line, *mask, *tid),
            Msg::Commit { tid, count } => self.takes_commit(*tid, *count),
            Msg::WriteBack { line, tag, .. } => self.takes_home(src, *line, *tag),
            Msg::Flush { line, tag, .. } => self.takes_home(src, *line, *tag),
            Msg::Skip { .. } => true,
            Msg::Abort { .. } => true,
            Msg::InvAck { .. } => true,
            _ => false,
        }
    }

    pub(crate) fn takes_probe(&self, tid: Tid) -> bool
        ensures { (e : ℕ → ℕ) (c : ℕ) → result ≡ is_taken (probe c tid.0 (dir_of e self.now)) }
    {
        if self.skips.serving().0 < tid.0 {
            return false;
        }
        true
    }

    pub(crate) fn takes_load(&self, line: LineAddr, after: Tid) -> bool
        requires { IsAtHome self.now.lines.place line.0 }
        ensures { (e : ℕ → ℕ) (c : ℕ) → result ≡ is_taken (load_request c line.0 after.0 (dir_of e self.now)) }
    {
        if self.skips.serving().0 <= after.0 {
            return false;
        }
        let record = self.lines.get(line);
        if record.mark.0 > 0 {
            return false;
        }
        match record.owner {
            Some(_) => !record.asked,
            None => true,
        }
    }

    pub(crate) fn takes_mark(&self, line: LineAddr, mask: Mask, tid: Tid) -> bool
        requires { IsAtHome self.now.lines.place line.0 }
        ensures { (e : ℕ → ℕ) → result ≡ is_taken (mark line.0 mask.0 tid.0 (dir_of e self.now)) }
    {
        let serving = self.skips.serving();
        if tid.0 < serving.0 {
            return true;
        }
        if serving.0 < tid.0 {
            return false;
        }
        match asked_first(&self.lines, line, mask) {
            Some(_) => !self.lines.asked(line),
            None => true,
        }
    }

    pub(crate) fn takes_commit(&self, tid: Tid, count: u32) -> bool
        ensures { (e : ℕ → ℕ) (c : ℕ) → result ≡ is_taken (dir_commit self.now.lines.place.shape c tid.0 count (dir_of e self.now)) }
    {
        if self.skips.serving().0 != tid.0 {
            return false;
        }
        if self.lines.marked_lines() != count {
            return false;
        }
        true
    }

    pub(crate) fn takes_home(&self, src: CoreId, line: LineAddr, tag: Tid) -> bool
        requires { IsAtHome self.now.lines.place line.0 }
        ensures { (e : ℕ → ℕ) (m : ℕ) (ws : List ℕ) → result ≡ is_taken (write_back src.0 line.0 m ws tag.0 (dir_of e self.now)) }
    {
        let record = self.lines.get(line);
        match judge(record.owner, record.tag, src, tag) {
            Take::Wait => false,
            Take::Drop => true,
            Take::Take => true,
        }
    }
}
