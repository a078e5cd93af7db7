// What decides at a directory, beside the TID that it serves, whether it takes a message.
ghost use Rattle.std.specs.Prelude.{◌≡◌, option_map};
ghost use Rattle.rules_maps.specs.Bridge.{node_of};
ghost use Rattle.tcc_msg.specs.Plain.{msg_of};
ghost use Rattle.machine_links.specs.Subject.{about as plain_about, subject_of, entry_of as plain_entry_of, key};

use tcc_base::{CoreId, DirId, LineAddr, NodeId};
use tcc_msg::Msg;

/// What a message to a directory is about: as long as this and the TID that is served are as they were, the directory takes the message
/// where it took it before.
#[derive(Clone, Copy, Debug, PartialEq, Eq)]
pub enum Subject {
    /// What is known of a line that is at home there.
    Line(LineAddr),
    /// How many lines are marked there, which a commit waits for.
    Marks(DirId),
}

/// A message in flight to a directory, as it is listed: by the key of what it is about.
#[derive(Clone, Copy, Debug, PartialEq, Eq)]
pub struct Entry {
    pub seq: u64,
    pub key: u32,
    pub src: CoreId,
    pub dst: DirId,
}

impl Subject {
    /// A number by which it is found. Others may have the same.
    pub(crate) fn key(self) -> u32
        ensures { result ≡ key (subject_of self) }
    {
        match self {
            Subject::Line(line) => line.0,
            Subject::Marks(dir) => u32::MAX - dir.0 as u32,
        }
    }
}

/// What a message to this directory is about; `None` where it is about nothing but TIDs, or is always taken.
pub(crate) fn about(dst: DirId, msg: &Msg) -> Option<Subject>
    ensures { option_map subject_of result ≡ plain_about dst.0 (msg_of msg.now) }
{
    match msg {
        Msg::LoadReq { line, .. } => Some(Subject::Line(*line)),
        Msg::Mark { line, .. } => Some(Subject::Line(*line)),
        Msg::WriteBack { line, .. } => Some(Subject::Line(*line)),
        Msg::Flush { line, .. } => Some(Subject::Line(*line)),
        Msg::Commit { .. } => Some(Subject::Marks(dst)),
        _ => None,
    }
}

/// How a message is listed; `None` where it goes to no directory, or is about nothing.
pub(crate) fn entry_of(src: NodeId, dst: NodeId, seq: u64, msg: &Msg) -> Option<Entry>
    ensures { result ≡ plain_entry_of (node_of src) (node_of dst) seq (msg_of msg.now) }
{
    let (NodeId::Core(src), NodeId::Dir(dst)) = (src, dst) else {
        return None;
    };
    let key = about(dst, msg)?.key();
    Some(Entry { seq, key, src, dst })
}
