// Which waiting messages need a look after another one was handled.
ghost use Rattle.std.specs.Prelude.{◌≡◌};
ghost use Rattle.tcc_msg.specs.Plain.{msg_of};
ghost use Rattle.directory.specs.Leaves.{is_of, is_commit, is_mark, may_end};

use crate::waits::Cause;
use tcc_base::{LineAddr, Tid};
use tcc_msg::Msg;

impl Cause {
    /// Whether the handling of a message may end what is waited for, where TID `before` was served before it and `after` is served
    /// after it. Where it doesn't, the cause stays (`leaves` of `Directory::deliver`). It takes constant time.
    pub fn may_end(self, msg: &Msg, before: Tid, after: Tid) -> bool
        ensures { result ≡ may_end (msg_of msg.now) before.0 after.0 self }
    {
        let rose = before.0 < after.0;
        match self {
            Cause::Turn(tid) => tid.0 <= after.0,
            Cause::Done(tid) => tid.0 < after.0,
            Cause::Line(line) => is_of(msg, line),
            Cause::Served(line) => is_of(msg, line) || is_commit(msg) || rose,
            Cause::Marks => is_mark(msg) || rose,
        }
    }
}

// Whether the message changes more of the line than who shares it.
fn is_of(msg: &Msg, own: LineAddr) -> bool
    ensures { result ≡ is_of (msg_of msg.now) own.0 }
{
    match msg {
        Msg::LoadReq { line, .. } => line.0 == own.0,
        Msg::Mark { line, .. } => line.0 == own.0,
        Msg::WriteBack { line, .. } => line.0 == own.0,
        Msg::Flush { line, .. } => line.0 == own.0,
        _ => false,
    }
}

fn is_commit(msg: &Msg) -> bool
    ensures { result ≡ is_commit (msg_of msg.now) }
{
    matches!(msg, Msg::Commit { .. })
}

fn is_mark(msg: &Msg) -> bool
    ensures { result ≡ is_mark (msg_of msg.now) }
{
    matches!(msg, Msg::Mark { .. })
}
