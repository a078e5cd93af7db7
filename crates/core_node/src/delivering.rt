// A message that a core takes: by its sender and kind.
ghost use Rattle.std.specs.Prelude.{◌≡◌, ◌<◌, map, IfOk, OnOk, OnErr};
ghost use Rattle.rules_maps.specs.Cache.{marks_by_home};
ghost use Rattle.spec_cache.specs.Held.{maps};
ghost use Rattle.spec_cache.specs.Home.{mark_of};
ghost use Rattle.tcc_msg.specs.Plain.{msg_of};
ghost use Rattle.rules_tcc.specs.CoreDeliver.{from_dir as dir_rule, from_vendor as vendor_rule};
ghost use Rattle.core_node.specs.View.{core_of, IsCore, Stays};
ghost use Rattle.commit_engine.specs.Sent.{HasRoom};
ghost use Rattle.core_node.specs.Answers.{Happened, IsBlocked, IsMemory};

use crate::granting::{grant, reply};
use crate::messages::{data_request, fill, invalidate};
use crate::state::Core;
use tcc_base::{DirId, LineAddr, Mask};
use tcc_msg::{Msg, Outgoing};

/// Why a core didn't do what it was asked to; it is as before then, and nothing was sent.
#[derive(Clone, Copy, Debug, PartialEq, Eq)]
pub enum CoreError {
    /// The rules have no such event in the core's present state.
    Blocked,
    /// Out of memory.
    Memory,
}

/// Room for so many messages.
pub(crate) fn make_room(out: &mut Outgoing, most: usize) -> Result<(), CoreError>
    ensures room { OnOk result (HasRoom out.new most) }
    ensures unsent { out.new.list.items ≡ out.old.list.items }
    ensures cause { OnErr result (IsMemory result) }
{
    match out.reserve(most) {
        Ok(()) => Ok(()),
        Err(_) => Err(CoreError::Memory),
    }
}

/// The core's lines with modified words at home at a directory.
pub(crate) fn marks_at(core: &Core, d: DirId) -> Result<Vec<(LineAddr, Mask)>, CoreError>
    requires { IsCore core.now }
    ensures marks { IfOk result (λ v. map mark_of v.items ≡ marks_by_home core.now.config (maps core.now.cache) d.0) }
    ensures cause { OnErr result (IsMemory result) }
{
    match core.cache.marks_by_home(d) {
        Ok(marks) => Ok(marks),
        Err(_) => Err(CoreError::Memory),
    }
}

/// The TID that the vendor gives.
pub(crate) fn from_vendor(core: &mut Core, msg: &Msg, out: &mut Outgoing) -> Result<(), CoreError>
    requires { IsCore core.old }
    ensures does { OnOk result (Happened (vendor_rule core.old.config (core_of core.old) (msg_of msg.now)) out.old core.new out.new) }
    ensures blocked { IsBlocked result (vendor_rule core.old.config (core_of core.old) (msg_of msg.now)) }
    ensures stays { Stays core.old core.new }
    ensures unchanged { OnErr result (core.new ≡ core.old) }
    ensures unsent { OnErr result (out.new.list.items ≡ out.old.list.items) }
{
    match *msg {
        Msg::TidGrant { tid } => {
            make_room(out, 2 * core.config.dirs() as usize)?;
            grant(core, tid, out);
            Ok(())
        }
        _ => Err(CoreError::Blocked),
    }
}

/// What a directory says.
pub(crate) fn from_dir(
    core: &mut Core,
    d: DirId,
    msg: &Msg,
    out: &mut Outgoing,
) -> Result<(), CoreError>
    requires whole { IsCore core.old }
    requires exists { d.0 < core.old.config.dirs }
    ensures does { OnOk result (Happened (dir_rule core.old.config d.0 (core_of core.old) (msg_of msg.now)) out.old core.new out.new) }
    ensures blocked { IsBlocked result (dir_rule core.old.config d.0 (core_of core.old) (msg_of msg.now)) }
    ensures stays { Stays core.old core.new }
    ensures unchanged { OnErr result (core.new ≡ core.old) }
    ensures unsent { OnErr result (out.new.list.items ≡ out.old.list.items) }
{
    match *msg {
        Msg::ProbeReply { tid, .. } => {
            let marks = marks_at(core, d)?;
            make_room(out, marks.len())?;
            reply(core, d, tid, &marks, out);
            Ok(())
        }
        Msg::Fill { line, words } => {
            fill(core, line, &words);
            Ok(())
        }
        Msg::DataReq { line } => {
            make_room(out, 1)?;
            data_request(core, line, out);
            Ok(())
        }
        Msg::Inv { line, mask, tid } => {
            make_room(out, core.config.dirs() as usize + 1)?;
            invalidate(core, line, mask, tid, out);
            Ok(())
        }
        _ => Err(CoreError::Blocked),
    }
}
