// What the nodes of one machine are together, once they have heard of one another.
ghost use Rattle.std.specs.Prelude.{◌≡◌, ℕ, ◌≤◌, ◌<◌, [], Some, slice_get, vec_len, vec_capacity};
ghost use Rattle.image_load.specs.Contents.{started};
ghost use Rattle.apart_node.specs.Linked.{IsLinkedTo};
ghost use Rattle.apart_node.specs.Node.{NodeData};
ghost use Rattle.rules_apart.specs.Fitting.{FitLogs};
ghost use Rattle.node_locks.specs.Hearing.{AllAreNodes, AllHaveMet, HasMetAll};
ghost use Rattle.node_locks.specs.Wiring.{AreNodes, logs_of};

use apart_node::Node;
use rules_apart::Logged;
use rv_code::Code;
use std::sync::Wait;
use tcc_base::List;

/// Each node is one by itself: it tells so.
pub(crate) fn look_at(nodes: &[Node])
    ensures { AllAreNodes nodes.now }
{
    for i in 0..nodes.len() {
        nodes[i].node();
    }
}

// A node hears of each of the others what that has taken, and they of it.
fn meet_each<R: Wait>(rt: &R, node: &mut Node, others: &mut [Node])
    requires wired { (j : ℕ) (b : NodeData) → slice_get others.old j ≡ Some b
        → IsLinkedTo node.old.room b.room × IsLinkedTo b.room node.old.room }
    ensures met { HasMetAll node.old others.old }
    ensures node { node.new ≡ node.old }
    ensures others { others.new ≡ others.old }
{
    for j in 0..others.len() {
        let other = &mut others[j];
        node.hear(rt, other);
        other.hear(rt, node);
    }
}

// Each of these with each of those.
fn meet_all<R: Wait>(rt: &R, these: &mut [Node], those: &mut [Node])
    requires wired { (i j : ℕ) (a b : NodeData) → slice_get these.old i ≡ Some a → slice_get those.old j ≡ Some b
        → IsLinkedTo a.room b.room × IsLinkedTo b.room a.room }
    ensures met { AllHaveMet these.old those.old }
    ensures these { these.new ≡ these.old }
    ensures those { those.new ≡ those.old }
{
    for i in 0..these.len() {
        meet_each(rt, &mut these[i], those);
    }
}

/// The logs of all nodes of a machine fit one another. Each core hears once of each directory and of the vendor what has been taken, and
/// they of it; nothing is changed.
pub(crate) fn fit<R: Wait>(rt: &R, code: &Code, nodes: &mut [Node])
    requires { AreNodes code.now nodes.old }
    ensures same { nodes.new ≡ nodes.old }
    ensures fits { FitLogs (started code.now) (logs_of nodes.old) }
{
    look_at(nodes);
    let (cores, others) = nodes.split_at_mut(code.config().cores() as usize);
    meet_all(rt, cores, others);
}

/// The nodes' logs, in a list with room for them.
pub(crate) fn take_logs(nodes: Vec<Node>, room: Vec<List<Logged>>) -> List<List<Logged>>
    requires empty { vec_len room ≡ 0 }
    requires room { vec_len nodes ≤ vec_capacity room }
    ensures { result ≡ logs_of nodes.items }
{
    let mut nodes = nodes;
    let mut logs = room;
    nodes.reverse();
    while let Some(node) = nodes.pop() {
        logs.push_reserved(node.into_log());
    }
    List { items: logs }
}
