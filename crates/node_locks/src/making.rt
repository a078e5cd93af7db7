// How the nodes of a machine are made, each with its ports.
ghost use Rattle.std.specs.Prelude.{◌≡◌, ℕ, ◌+◌, ◌<◌, ◌≤◌, [], All, IfOk, OnOk, replicate};
ghost use Rattle.std.specs.Arc.{arc_value};
ghost use Rattle.image_load.specs.Contents.{started};
ghost use Rattle.rules_riscv.specs.Starting.{world_at_start};
ghost use Rattle.rules_maps.specs.Bridge.{node_of};
ghost use Rattle.rules_tcc.specs.Local.{state_at};
ghost use Rattle.apart_member.specs.Data.{state_of};
ghost use Rattle.rules_apart.specs.Fitting.{node_count};
ghost use Rattle.node_locks.specs.Joining.{AreJoinedTo};
ghost use Rattle.node_locks.specs.Places.{nth_node};
ghost use Rattle.node_locks.specs.Wiring.{AreNodes, logs_of};

use crate::places::nth_node;
use apart_member::Member;
use apart_node::{Node, Port};
use image_load::Loaded;
use net_links::link;
use rv_code::Code;
use std::alloc::Global;
use std::sync::Arc;
use tcc_base::{Config, CoreId, List, NoMemory, NodeId};

// So many nodes without ports.
fn no_ports(alloc: Global, count: usize) -> Result<Vec<List<Port>>, NoMemory>
    ensures { IfOk result (λ r. r.items ≡ replicate count []) }
{
    let Ok(mut rooms) = Vec::with_capacity(alloc, count) else {
        return Err(NoMemory);
    };
    for _i in 0..count {
        rooms.push_reserved(List::new(alloc));
    }
    Ok(rooms)
}

// Links a core with one of the nodes behind the cores, both ways.
fn join_two(
    alloc: Global,
    config: &Config,
    rooms: &mut [List<Port>],
    core: u8,
    k: usize,
) -> Result<(), NoMemory>
    requires core { core < config.now.cores }
    requires other { k ≤ config.now.dirs }
    requires so_far { AreJoinedTo config.now core k rooms.old }
    ensures { OnOk result (AreJoinedTo config.now core (k + 1) rooms.new) }
{
    let own = NodeId::Core(CoreId(core));
    let place = config.cores() as usize + k;
    let peer = nth_node(config, place);
    let Ok((outlet, theirs)) = link(alloc, config, own, peer) else {
        return Err(NoMemory);
    };
    let Ok((back, inlet)) = link(alloc, config, peer, own) else {
        return Err(NoMemory);
    };
    if rooms[core as usize]
        .push(Port::new(alloc, own, peer, outlet, inlet))
        .is_err()
    {
        return Err(NoMemory);
    }
    rooms[place].push(Port::new(alloc, peer, own, back, theirs))
}

// Links a core with all nodes behind the cores.
fn join_core(
    alloc: Global,
    config: &Config,
    rooms: &mut [List<Port>],
    core: u8,
) -> Result<(), NoMemory>
    requires core { core < config.now.cores }
    requires so_far { AreJoinedTo config.now core 0 rooms.old }
    ensures { OnOk result (AreJoinedTo config.now (core + 1) 0 rooms.new) }
{
    for k in 0..config.dirs() as usize + 1 {
        join_two(alloc, config, rooms, core, k)?;
    }
    Ok(())
}

/// The ports of all nodes of a machine, in the order of nodes, linked with one another.
pub(crate) fn join_all(alloc: Global, config: &Config) -> Result<Vec<List<Port>>, NoMemory>
    ensures { IfOk result (λ r. AreJoinedTo config.now config.now.cores 0 r.items) }
{
    let count = config.cores() as usize + config.dirs() as usize + 1;
    let mut rooms = no_ports(alloc, count)?;
    for core in 0..config.cores() {
        join_core(alloc, config, rooms.as_mut_slice(), core)?;
    }
    Ok(rooms)
}

// The member of a place, as it starts.
fn member_at(
    alloc: Global,
    code: &Arc<Code, Global>,
    loaded: &Loaded,
    place: usize,
) -> Result<Member, NoMemory>
    requires exists { place < node_count (arc_value code.now).settings }
    requires made { loaded.now ≡ arc_value code.now }
    ensures code { IfOk result (λ m. m.code ≡ arc_value code.now) }
    ensures node { IfOk result (λ m. node_of m.node ≡ nth_node (arc_value code.now).settings place) }
    ensures done { IfOk result (λ m. m.done ≡ 0) }
    ensures start { IfOk result (λ m. state_of m ≡ state_at (world_at_start (started (arc_value code.now))) (node_of m.node)) }
{
    let Ok(own) = Arc::try_clone(code) else {
        return Err(NoMemory);
    };
    match nth_node(code.config(), place) {
        NodeId::Core(id) => Member::core(alloc, own, id),
        NodeId::Dir(id) => Member::directory(alloc, own, loaded, id),
        NodeId::Vendor => Ok(Member::vendor(own)),
    }
}

/// The nodes of a machine with these ports, as they start from a loaded memory.
pub(crate) fn seat_all(
    alloc: Global,
    code: &Arc<Code, Global>,
    loaded: &Loaded,
    rooms: Vec<List<Port>>,
) -> Result<Vec<Node>, NoMemory>
    requires made { loaded.now ≡ arc_value code.now }
    requires joined { AreJoinedTo (arc_value code.now).settings (arc_value code.now).settings.cores 0 rooms.items }
    ensures are { IfOk result (λ v. AreNodes (arc_value code.now) v.items) }
    ensures logs { IfOk result (λ v. All (λ log. log ≡ []) (logs_of v.items)) }
{
    let mut rooms = rooms;
    let Ok(mut nodes) = Vec::with_capacity(alloc, rooms.len()) else {
        return Err(NoMemory);
    };
    rooms.reverse();
    while let Some(ports) = rooms.pop() {
        let member = member_at(alloc, code, loaded, nodes.len())?;
        let List { items } = ports;
        nodes.push_reserved(Node::new(alloc, code.config(), member, items)?);
    }
    Ok(nodes)
}
