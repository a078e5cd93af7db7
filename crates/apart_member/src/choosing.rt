// What one node can do now.
ghost use Rattle.std.specs.Prelude.{◌≡◌, ℕ, IfSome, IsTrue, None, Some, is_some, length, slice_get};
ghost use Rattle.std.specs.Option.{option_map};
ghost use Rattle.image_load.specs.Contents.{started};
ghost use Rattle.rv_code.specs.Machine.{program};
ghost use Rattle.tcc_base.specs.Settings.{IsAllowed};
ghost use Rattle.rules_maps.specs.Bridge.{node_of};
ghost use Rattle.rules_maps.specs.Nodes.{Deliver, Evict};
ghost use Rattle.tcc_msg.specs.Plain.{event_of, msg_of};
ghost use Rattle.rules_tcc.specs.Local.{takes};
ghost use Rattle.core_node.specs.Useful.{useful_evicts};
ghost use Rattle.core_node.specs.View.{core_of};
ghost use Rattle.rules_apart.specs.Carried.{IsCarried};
ghost use Rattle.apart_member.specs.Acting.{MayDo};
ghost use Rattle.apart_member.specs.Data.{state_of};
ghost use Rattle.apart_member.specs.Own.{core_events, own_events};

use crate::kind::MemberKind;
use crate::member::Member;
use core_node::CoreNode;
use rv_code::Code;
use tcc_base::{CoreId, NodeId};
use tcc_msg::{Event, Msg};

/// How many events without a message are useful at a core: its execution, and its evictions.
fn core_count(core: &CoreNode, code: &Code) -> usize
    requires allowed { IsAllowed core.now.config }
    requires same { code.now.settings ≡ core.now.config }
    ensures { result ≡ length (core_events core.now.config (program (started code.now)) core.now.id.0 (core_of core.now)) }
{
    let (may_execute, evictions) = core.uses(code);
    may_execute as usize + evictions
}

/// The k-th useful eviction of the core of this number, from 0.
fn evict_at(id: CoreId, core: &CoreNode, code: &Code, k: usize) -> Option<Event>
    requires { code.now.settings ≡ core.now.config }
    ensures { option_map event_of result ≡ option_map (λ q. Evict id.0 q.0 q.1)
        (slice_get (useful_evicts core.now.config (program (started code.now)) (core_of core.now)) k) }
{
    let (set, way) = core.useful_evict(code, k)?;
    Some(Event::Evict(id, set, way))
}

/// The k-th of the events without a message that are useful at the core of this number, from 0.
fn core_at(id: CoreId, core: &CoreNode, code: &Code, k: usize) -> Option<Event>
    requires own { core.now.id ≡ id }
    requires same { code.now.settings ≡ core.now.config }
    ensures { option_map event_of result ≡ slice_get
        (core_events core.now.config (program (started code.now)) core.now.id.0 (core_of core.now)) k }
{
    if !core.can_exec(code) {
        return evict_at(id, core, code, k);
    }
    if k == 0 {
        return Some(Event::Exec(id));
    }
    evict_at(id, core, code, k - 1)
}

impl Member {
    /// How many events without a message are useful now. It takes time in the frames of a core's cache at most, and no memory.
    pub fn own_count(&self) -> usize
        ensures { result ≡ length (own_events self.now) }
    {
        match &self.kind {
            MemberKind::Core(_, core) => core_count(core, &self.code),
            MemberKind::Directory(..) | MemberKind::Vendor(_) => 0,
        }
    }

    /// The k-th of them, from 0: a core's execution stands before its evictions, and these by set and way; None exactly where there
    /// are no more than k. The member may do it. It takes time in the frames of a core's cache at most, and no memory.
    pub fn own_at(&self, k: usize) -> Option<Event>
        ensures value { option_map event_of result ≡ slice_get (own_events self.now) k }
        ensures may { IfSome result (λ e. MayDo self.now (event_of e) None) }
    {
        match &self.kind {
            MemberKind::Core(id, core) => core_at(*id, core, &self.code, k),
            MemberKind::Directory(..) | MemberKind::Vendor(_) => None,
        }
    }

    /// Whether it would take this message now, which its link carries: a core and the vendor take every such message at once, and a
    /// directory may let it wait. What it would take it may do. It takes constant time and no memory.
    pub fn takes(&self, src: NodeId, msg: &Msg) -> bool
        requires { IsCarried self.now.code.settings (node_of src) (node_of self.now.node) (msg_of msg.now) }
        ensures value { result ≡ is_some (takes self.now.code.settings (state_of self.now) (node_of src) (Some (msg_of msg.now))) }
        ensures may { (seq : ℕ) → IsTrue result
            → MayDo self.now (Deliver (node_of src) (node_of self.now.node) seq) (Some (msg_of msg.now)) }
    {
        match &self.kind {
            MemberKind::Core(..) | MemberKind::Vendor(_) => true,
            MemberKind::Directory(_, dir) => {
                let NodeId::Core(core) = src else {
                    unreachable!()
                };
                dir.takes(core, msg)
            }
        }
    }
}
