// One node does an event of its own.
ghost use Rattle.std.specs.Prelude.{◌≡◌, ◌+◌, ◌<◌, ◌≤◌, ℕ, [], ◌∷◌, Some, is_some, true, IfOk, OnOk, OnErr};
ghost use Rattle.std.specs.Option.{option_map};
ghost use Rattle.image_load.specs.Contents.{started};
ghost use Rattle.rv_code.specs.Machine.{program};
ghost use Rattle.image_load.specs.Start.{first_ram};
ghost use Rattle.rules_maps.specs.Bridge.{node_of};
ghost use Rattle.rules_maps.specs.Nodes.{Core, TidGrant};
ghost use Rattle.tcc_msg.specs.Plain.{event_of, msg_of, sends_of};
ghost use Rattle.rules_tcc.specs.DirDeliver.{dir_deliver};
ghost use Rattle.rules_tcc.specs.Local.{at_node, AtCore};
ghost use Rattle.rules_tcc.specs.Sends.{to};
ghost use Rattle.rules_tcc.specs.Step.{names_nodes};
ghost use Rattle.core_node.specs.View.{core_of, Stays};
ghost use Rattle.directory.specs.Data.{dir_of};
ghost use Rattle.directory.specs.Foreign.{HasSmallTids};
ghost use Rattle.theorem_apart.specs.Laws.{BringsCarried};
ghost use Rattle.apart_member.specs.Acting.{Acts, ActsAs, IsFrom, IsFromCore, MayDo, PartMayDo, TakesAs, acted_by, consumes, happens_at};
ghost use Rattle.apart_member.specs.Data.{node_at, kind_state, state_of};
ghost use Rattle.apart_member.specs.Placed.{IsPlaced};
ghost use Rattle.tcc_base.specs.Limits.{run_limit};

use crate::kind::MemberKind;
use crate::member::Member;
use core_node::CoreNode;
use directory::{Directory, Handled};
use rv_code::Code;
use tcc_base::{CoreId, NoMemory, NodeId};
use tcc_msg::{Event, Msg, Outgoing};
use tid_vendor::Vendor;

/// A core does an event of its own, and tells whether a message was consumed.
fn act_core(
    core: &mut CoreNode,
    code: &Code,
    event: Event,
    msg: Option<Msg>,
    out: &mut Outgoing,
) -> Result<bool, NoMemory>
    requires same { code.now.settings ≡ core.old.config }
    requires at { at_node (event_of event) ≡ Core core.old.id.0 }
    requires names { names_nodes core.old.config (event_of event) ≡ true }
    requires enabled { is_some (happens_at code.now (AtCore (core_of core.old)) (event_of event) (option_map msg_of msg)) ≡ true }
    requires empty { out.old.list.items ≡ [] }
    ensures acts { IfOk result
        (ActsAs code.now (AtCore (core_of core.old)) (AtCore (core_of core.new)) (event_of event)
        (option_map msg_of msg) out.new.list.items) }
    ensures stays { Stays core.old core.new }
    ensures unchanged { OnErr result (core_of core.new ≡ core_of core.old) }
    ensures unsent { OnErr result (out.new.list.items ≡ []) }
{
    match event {
        Event::Exec(_) => match core.exec(code, out) {
            Ok(_) => Ok(false),
            Err(_) => Err(NoMemory),
        },
        Event::Evict(_, set, way) => match core.evict(set, way, out) {
            Ok(()) => Ok(false),
            Err(_) => Err(NoMemory),
        },
        Event::Deliver(name) => {
            let Some(msg) = msg else { unreachable!() };
            match core.deliver(name.src, &msg, out) {
                Ok(()) => Ok(true),
                Err(_) => Err(NoMemory),
            }
        }
    }
}

/// The core that sent the message of a delivery, with the message.
fn sent_by(event: Event, msg: Option<Msg>) -> (CoreId, Msg)
    requires { IsFromCore (event_of event) (option_map msg_of msg) }
    ensures core { IsFrom result.0.0 (event_of event) }
    ensures message { msg ≡ Some result.1 }
{
    let Event::Deliver(name) = event else {
        unreachable!()
    };
    let NodeId::Core(core) = name.src else {
        unreachable!()
    };
    let Some(msg) = msg else { unreachable!() };
    (core, msg)
}

/// Whether a directory consumed the message.
fn is_consumed(handled: Handled) -> bool
    ensures { result ≡ consumes handled }
{
    matches!(handled, Handled::Handled | Handled::Dropped)
}

/// A directory takes a message from a core, and tells whether it was consumed.
fn hand_to(
    dir: &mut Directory,
    src: CoreId,
    msg: &Msg,
    out: &mut Outgoing,
) -> Result<bool, NoMemory>
    requires core { src.0 < dir.old.lines.place.shape.cores }
    requires tids { HasSmallTids (msg_of msg.now) }
    requires empty { out.old.list.items ≡ [] }
    ensures answers { IfOk result
        (λ consumed. (ram : ℕ → ℕ)
        → TakesAs (dir_of ram dir.old) (dir_deliver dir.old.lines.place.shape (dir_of ram dir.old) src.0 (msg_of msg.now))
        (dir_of ram dir.new) (sends_of out.new.list.items) consumed) }
    ensures place { dir.new.lines.place ≡ dir.old.lines.place }
    ensures unchanged { OnErr result (dir.new ≡ dir.old) }
    ensures unsent { OnErr result (out.new.list.items ≡ []) }
{
    match dir.deliver(src, msg, out) {
        Ok(handled) => Ok(is_consumed(handled)),
        Err(_) => Err(NoMemory),
    }
}

/// The vendor gives its next TID to a core.
fn grant(vendor: &mut Vendor, core: CoreId, out: &mut Outgoing) -> Result<(), NoMemory>
    requires few { vendor.old ≤ run_limit }
    requires empty { out.old.list.items ≡ [] }
    ensures next { OnOk result (vendor.new ≡ vendor.old + 1) }
    ensures given { OnOk result (sends_of out.new.list.items ≡ to (Core core.0) (TidGrant vendor.old ∷ [])) }
    ensures unchanged { OnErr result (vendor.new ≡ vendor.old) }
    ensures unsent { OnErr result (out.new.list.items ≡ []) }
{
    out.reserve(1)?;
    let tid = vendor.grant();
    out.hand_out(NodeId::Core(core), Msg::TidGrant { tid });
    Ok(())
}

impl MemberKind {
    /// `Member::act` for what the member is.
    fn act_part(
        &mut self,
        code: &Code,
        event: Event,
        msg: Option<Msg>,
        out: &mut Outgoing,
    ) -> Result<bool, NoMemory>
        requires placed { IsPlaced code.now.settings self.old }
        requires may { PartMayDo code.now self.old (event_of event) (option_map msg_of msg) }
        requires empty { out.old.list.items ≡ [] }
        ensures acts { IfOk result
            (ActsAs code.now (kind_state (first_ram (started code.now)) self.old) (kind_state (first_ram (started code.now)) self.new)
            (event_of event) (option_map msg_of msg) out.new.list.items) }
        ensures placed { IsPlaced code.now.settings self.new }
        ensures node { node_at self.new ≡ node_at self.old }
        ensures unchanged { OnErr result
            (kind_state (first_ram (started code.now)) self.new ≡ kind_state (first_ram (started code.now)) self.old) }
        ensures unsent { OnErr result (out.new.list.items ≡ []) }
    {
        match self {
            MemberKind::Core(_, core) => act_core(core, code, event, msg, out),
            MemberKind::Directory(_, dir) => {
                let (src, msg) = sent_by(event, msg);
                hand_to(dir, src, &msg, out)
            }
            MemberKind::Vendor(vendor) => {
                let (src, _) = sent_by(event, msg);
                grant(vendor, src, out)?;
                Ok(true)
            }
        }
    }
}

impl Member {
    /// Does an event of its own, with the message that it delivers, and tells whether the message was consumed: it wasn't where a
    /// directory asked a line's owner for its data. What the event sends is put into `out`, which is empty. After want of memory
    /// the member is as before, and nothing is sent.
    ///
    /// The event is one of this node, names nodes of the machine and is enabled; its message is one that its link carries; and the
    /// member has done fewer than 4,194,304 events. Takes constant time, but for a commit, which takes time in the cache's frames
    /// and for a core that is alone in the lines that it wrote, and for what is sent.
    pub fn act(
        &mut self,
        event: Event,
        msg: Option<Msg>,
        out: &mut Outgoing,
    ) -> Result<bool, NoMemory>
        requires may { MayDo self.old (event_of event) (option_map msg_of msg) }
        requires few { self.old.done < run_limit }
        requires empty { out.old.list.items ≡ [] }
        ensures acted { IfOk result (Acts self.old self.new (event_of event) (option_map msg_of msg) out.new.list.items) }
        ensures done { OnOk result (self.new.done ≡ self.old.done + 1) }
        ensures code { self.new.code ≡ self.old.code }
        ensures node { self.new.node ≡ self.old.node }
        ensures unchanged { OnErr result (state_of self.new ≡ state_of self.old) }
        ensures uncounted { OnErr result (self.new.done ≡ self.old.done) }
        ensures unsent { OnErr result (out.new.list.items ≡ []) }
    {
        let consumed = self.kind.act_part(&self.code, event, msg, out)?;
        self.done += 1;
        Ok(consumed)
    }
}
