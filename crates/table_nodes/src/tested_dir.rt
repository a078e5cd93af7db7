// A directory with its place in the machine. It is called only as its contracts allow.
ghost use Rattle.std.specs.Prelude.{◌≡◌, ◌<◌, true, false, IfOk};
ghost use Rattle.directory.specs.Foreign.{is_foreign, HasSmallTids};
ghost use Rattle.dir_lines.specs.Home.{IsAtHome};
ghost use Rattle.tcc_msg.specs.Plain.{msg_of};

use crate::answers::Answer;
use directory::{Cause, DirError, Directory, Handled};
use image_load::Loaded;
use std::alloc::Global;
use tcc_base::{Config, CoreId, DirId, LineAddr, NoMemory};
use tcc_msg::{Msg, Outgoing};

#[derive(Drop)]
pub struct TestedDir {
    pub config: Config,
    pub id: DirId,
    pub dir: Directory,
    ghost place: { dir.lines.place ≡ record { shape = config; dir = id.0 } },
}

/// Whether a TID in the message is one that can be given.
fn has_small_tids(msg: &Msg) -> bool
    ensures { result ≡ true → HasSmallTids (msg_of msg.now) }
{
    match msg {
        Msg::Skip { tid } => tid.0 < 1 << 62,
        Msg::Abort { tid } => tid.0 < 1 << 62,
        Msg::Commit { tid, .. } => tid.0 < 1 << 62,
        _ => true,
    }
}

/// What an answer is called that agrees with what was said before: whether the message is taken, and what it waits for.
fn agreed(done: Result<Handled, DirError>, takes: bool, cause: Option<Cause>) -> Answer {
    match (done, takes, cause) {
        (Ok(Handled::Handled), true, None) => Answer::Handled,
        (Ok(Handled::Asked), true, None) => Answer::AsksOwner,
        (Ok(Handled::Dropped), true, None) => Answer::Dropped,
        (Ok(Handled::Waits), false, Some(cause)) => Answer::Waits(cause),
        (Err(DirError::Foreign), false, None) => Answer::Foreign,
        (Err(DirError::Memory), _, _) => Answer::Memory,
        _ => Answer::Contradicts,
    }
}

impl TestedDir {
    /// Appends the directory of this number as it starts, where the machine has it.
    pub fn start(
        dirs: &mut Vec<TestedDir>,
        alloc: Global,
        loaded: &Loaded,
        id: DirId,
    ) -> Result<(), NoMemory> {
        let config = *loaded.config();
        if id.0 >= config.dirs() {
            return Ok(());
        }
        let dir = Directory::start(alloc, &config, loaded, id)?;
        dirs.push(TestedDir { config, id, dir })
            .map_err(|_| NoMemory)
    }

    /// Whether the line exists and is at home here.
    pub fn has_line(&self, line: LineAddr) -> bool
        ensures { result ≡ true → IsAtHome self.now.dir.lines.place line.0 }
    {
        line.0 < self.config.words() / 8 && self.config.home(line) == self.id
    }

    /// Whether the message is of a directory's kind, and of a line that is at home here.
    fn is_for(&self, msg: &Msg) -> bool
        ensures { result ≡ true → is_foreign self.now.dir.lines.place (msg_of msg.now) ≡ false }
    {
        match msg {
            Msg::Skip { .. } | Msg::Abort { .. } | Msg::Probe { .. } | Msg::Commit { .. } => true,
            Msg::LoadReq { line, .. } => self.has_line(*line),
            Msg::Mark { line, .. } => self.has_line(*line),
            Msg::InvAck { line, .. } => self.has_line(*line),
            Msg::WriteBack { line, .. } => self.has_line(*line),
            Msg::Flush { line, .. } => self.has_line(*line),
            _ => false,
        }
    }

    /// What the message waits for, where it is for this directory and has to wait.
    fn cause(&self, src: CoreId, msg: &Msg) -> Option<Cause> {
        if !self.is_for(msg) {
            return None;
        }
        self.dir.waits_for(src, msg)
    }

    pub fn deliver(&mut self, src: CoreId, msg: &Msg, out: &mut Outgoing) -> Answer {
        if src.0 >= self.config.cores() || !has_small_tids(msg) {
            return Answer::Nothing;
        }
        let takes = self.dir.takes(src, msg);
        let cause = self.cause(src, msg);
        agreed(self.dir.deliver(src, msg, out), takes, cause)
    }
}
