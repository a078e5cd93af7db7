// What a message that can't be taken yet waits for.
ghost use Rattle.std.specs.Prelude.{◌≡◌, ℕ, List, false, if◌then◌else◌};
ghost use Rattle.rules_maps.specs.Lines.{has_mark};
ghost use Rattle.rules_tcc.specs.DirDeliver.{dir_deliver, probe, load_request, mark, dir_commit, write_back};
ghost use Rattle.tcc_msg.specs.Plain.{msg_of};
ghost use Rattle.dir_lines.specs.Home.{IsAtHome};
ghost use Rattle.directory.specs.Data.{dir_of};
ghost use Rattle.directory.specs.Foreign.{is_foreign};
ghost use Rattle.directory.specs.Tells.{Tells};

use crate::directory::Directory;
use tcc_base::{CoreId, LineAddr, Mask, Tid};
use tcc_msg::Msg;

/// What a message waits for. As long as that is as it was the message can't be taken, and needs no look.
#[derive(Clone, Copy, Debug, PartialEq, Eq)]
pub enum Cause {
    /// This TID isn't served yet.
    Turn(Tid),
    /// This TID isn't passed yet: it is served, or its turn is still to come.
    Done(Tid),
    /// What is known of this line, which isn't marked. Only messages of this line change it.
    Line(LineAddr),
    /// What is known of this line while the same TID is served. Messages of this line change it, and each commit.
    Served(LineAddr),
    /// Which lines are marked by the TID that is served.
    Marks,
}

impl Directory {
    /// What a message waits for; `None` exactly where `deliver` would take it. The cause holds now, and as long as it does the
    /// message can't be taken: `deliver` says which causes the handling of another message may end. It takes constant time.
    pub fn waits_for(&self, src: CoreId, msg: &Msg) -> Option<Cause>
        requires { is_foreign self.now.lines.place (msg_of msg.now) ≡ false }
        ensures { (elsewhere : ℕ → ℕ) → Tells (λ s. dir_deliver self.now.lines.place.shape s src.0 (msg_of msg.now))
            (dir_of elsewhere self.now) result }
    {
        match msg {
            Msg::Probe { tid } => self.probe_waits_for(*tid),
            Msg::LoadReq { line, after } => self.load_waits_for(*line, *after),
            Msg::Mark { line, mask, tid } => self.mark_waits_for(*line, *mask, *tid),
            Msg::Commit { tid, count } => self.commit_waits_for(*tid, *count),
            Msg::WriteBack { line, tag, .. } => self.words_wait_for(src, *line, *tag),
            Msg::Flush { line, tag, .. } => self.words_wait_for(src, *line, *tag),
            Msg::Skip { .. } => None,
            Msg::Abort { .. } => None,
            Msg::InvAck { .. } => None,
            _ => unreachable!(),
        }
    }

    fn probe_waits_for(&self, tid: Tid) -> Option<Cause>
        ensures { (e : ℕ → ℕ) (c : ℕ) → Tells (probe c tid.0) (dir_of e self.now) result }
    {
        if self.takes_probe(tid) {
            return None;
        }
        Some(Cause::Turn(tid))
    }

    fn load_waits_for(&self, line: LineAddr, after: Tid) -> Option<Cause>
        requires { IsAtHome self.now.lines.place line.0 }
        ensures { (e : ℕ → ℕ) (c : ℕ) → Tells (load_request c line.0 after.0) (dir_of e self.now) result }
    {
        if self.takes_load(line, after) {
            return None;
        }
        if self.skips.serving().0 <= after.0 {
            return Some(Cause::Done(after));
        }
        Some(self.line_cause(line))
    }

    fn mark_waits_for(&self, line: LineAddr, mask: Mask, tid: Tid) -> Option<Cause>
        requires { IsAtHome self.now.lines.place line.0 }
        ensures { (e : ℕ → ℕ) → Tells (mark line.0 mask.0 tid.0) (dir_of e self.now) result }
    {
        if self.takes_mark(line, mask, tid) {
            return None;
        }
        if self.skips.serving().0 < tid.0 {
            return Some(Cause::Turn(tid));
        }
        Some(Cause::Served(line))
    }

    fn commit_waits_for(&self, tid: Tid, count: u32) -> Option<Cause>
        ensures { (e : ℕ → ℕ) (c : ℕ) → Tells (dir_commit self.now.lines.place.shape c tid.0 count) (dir_of e self.now) result }
    {
        if self.takes_commit(tid, count) {
            return None;
        }
        if self.skips.serving().0 < tid.0 {
            return Some(Cause::Turn(tid));
        }
        Some(Cause::Marks)
    }

    fn words_wait_for(&self, src: CoreId, line: LineAddr, tag: Tid) -> Option<Cause>
        requires { IsAtHome self.now.lines.place line.0 }
        ensures { (e : ℕ → ℕ) (m : ℕ) (ws : List ℕ) → Tells (write_back src.0 line.0 m ws tag.0) (dir_of e self.now) result }
    {
        if self.takes_home(src, line, tag) {
            return None;
        }
        Some(self.line_cause(line))
    }

    // What is known of a line: a marked one changes with the TID that is served too.
    fn line_cause(&self, line: LineAddr) -> Cause
        requires { IsAtHome self.now.lines.place line.0 }
        ensures { (e : ℕ → ℕ) → result ≡ (if has_mark (dir_of e self.now).lines line.0 then Cause.Served line else Cause.Line line) }
    {
        if self.lines.get(line).mark.0 > 0 {
            return Cause::Served(line);
        }
        Cause::Line(line)
    }
}
