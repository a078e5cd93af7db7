// One node of a machine, by itself.
ghost use Rattle.std.specs.Prelude.{◌≡◌, ◌<◌, IfOk, true};
ghost use Rattle.std.specs.Arc.{arc_value};
ghost use Rattle.image_load.specs.Contents.{started};
ghost use Rattle.rules_riscv.specs.Starting.{world_at_start};
ghost use Rattle.rules_maps.specs.Bridge.{node_of};
ghost use Rattle.rules_maps.specs.Nodes.{Core, Dir, Vendor as TheVendor};
ghost use Rattle.rules_tcc.specs.Local.{state_at};
ghost use Rattle.rules_tcc.specs.Step.{is_node};
ghost use Rattle.apart_member.specs.Always.{IsOfKind};
ghost use Rattle.apart_member.specs.Data.{node_at, state_of};
ghost use Rattle.apart_member.specs.Placed.{IsAtStart, IsPlaced};

use crate::kind::MemberKind;
use core_node::CoreNode;
use directory::Directory;
use image_load::Loaded;
use rv_code::Code;
use std::alloc::Global;
use std::marker::Model;
use std::sync::Arc;
use tcc_base::{CoreId, DirId, NoMemory, NodeId};
use tid_vendor::Vendor;

/// A core, a directory or the vendor of a machine, with the program that all its nodes share. In a clause it is plain data, of which
/// `state_of` makes the state of the rules. It knows what it has done itself and what messages told it, and nothing of other nodes.
#[derive(Debug, Drop)]
pub struct Member {
    pub(crate) code: Arc<Code, Global>,
    pub(crate) kind: MemberKind,
    /// How many events it has done.
    pub(crate) done: u32,
}

impl Model for Member {
    ghost use Rattle.apart_member.specs.Data.{MemberData};

    ghost Value = { MemberData };

    ghost use Rattle.apart_member.specs.DataInside.{member_of, IsInside};

    ghost view = { member_of };

    ghost invariant = { IsInside };
}

/// A member that has done nothing.
fn at_start(code: Arc<Code, Global>, kind: MemberKind) -> Member
    requires exists { is_node (arc_value code).settings (node_of (node_at kind)) ≡ true }
    requires placed { IsPlaced (arc_value code).settings kind }
    requires start { IsAtStart (arc_value code) kind }
    ensures { result ≡ record { code = arc_value code; node = node_at kind; done = 0; kind = kind } }
{
    // Settings are within their limits, and each reader of them says so.
    let _cores = code.config().cores();
    Member {
        code,
        kind,
        done: 0,
    }
}

impl Member {
    /// A core at its entry with empty frames. All memory of its cache is taken here.
    pub fn core(alloc: Global, code: Arc<Code, Global>, id: CoreId) -> Result<Member, NoMemory>
        requires exists { id.0 < (arc_value code).settings.cores }
        ensures code { IfOk result (λ m. m.code ≡ arc_value code) }
        ensures node { IfOk result (λ m. m.node ≡ NodeId.Core id) }
        ensures done { IfOk result (λ m. m.done ≡ 0) }
        ensures start { IfOk result (λ m. state_of m ≡ state_at (world_at_start (started (arc_value code))) (Core id.0)) }
    {
        let core = CoreNode::start(alloc, code.config(), id, code.entry(id))?;
        Ok(at_start(code, MemberKind::Core(id, core)))
    }

    /// A directory with the words that were loaded, serving TID 1. The code was made of what is loaded. Its time goes with the
    /// machine's number of lines, and its memory with the number of those at home there.
    pub fn directory(
        alloc: Global,
        code: Arc<Code, Global>,
        loaded: &Loaded,
        id: DirId,
    ) -> Result<Member, NoMemory>
        requires exists { id.0 < (arc_value code).settings.dirs }
        requires made { loaded.now ≡ arc_value code }
        ensures code { IfOk result (λ m. m.code ≡ arc_value code) }
        ensures node { IfOk result (λ m. m.node ≡ NodeId.Dir id) }
        ensures done { IfOk result (λ m. m.done ≡ 0) }
        ensures start { IfOk result (λ m. state_of m ≡ state_at (world_at_start (started (arc_value code))) (Dir id.0)) }
    {
        let dir = Directory::start(alloc, code.config(), loaded, id)?;
        Ok(at_start(code, MemberKind::Directory(id, dir)))
    }

    /// The vendor, which has given nothing. It takes no memory.
    pub fn vendor(code: Arc<Code, Global>) -> Member
        ensures code { result.code ≡ arc_value code }
        ensures node { result.node ≡ NodeId.Vendor }
        ensures done { result.done ≡ 0 }
        ensures start { state_of result ≡ state_at (world_at_start (started (arc_value code))) TheVendor }
    {
        at_start(code, MemberKind::Vendor(Vendor::new()))
    }

    /// Which node it is. The machine has it, and its state is one of such a node.
    pub fn node(&self) -> NodeId
        ensures value { result ≡ self.now.node }
        ensures exists { is_node self.now.code.settings (node_of self.now.node) ≡ true }
        ensures kind { IsOfKind (node_of self.now.node) (state_of self.now) }
    {
        match &self.kind {
            MemberKind::Core(id, _) => NodeId::Core(*id),
            MemberKind::Directory(id, _) => NodeId::Dir(*id),
            MemberKind::Vendor(_) => NodeId::Vendor,
        }
    }

    /// How many events it has done.
    pub fn done(&self) -> u32
        ensures { result ≡ self.now.done }
    {
        self.done
    }
}
