// Bells between the nodes of a machine.
ghost use Rattle.std.specs.Prelude.{◌≡◌, ◌≤◌, length};

use apart_node::Node;
use tcc_base::NoMemory;

// A node and each of the others ring at one another.
fn ring_each(node: &mut Node, others: &mut [Node]) -> Result<(), NoMemory>
    ensures node { node.new ≡ node.old }
    ensures others { others.new ≡ others.old }
{
    for j in 0..others.len() {
        let other = &mut others[j];
        node.ring_at(other)?;
        other.ring_at(node)?;
    }
    Ok(())
}

// Each of these and each of those ring at one another.
fn ring_all(these: &mut [Node], those: &mut [Node]) -> Result<(), NoMemory>
    ensures these { these.new ≡ these.old }
    ensures those { those.new ≡ those.old }
{
    for i in 0..these.len() {
        ring_each(&mut these[i], those)?;
    }
    Ok(())
}

/// Each of the first nodes, which are the cores, and each of the others ring at one another from now on. The nodes are as before. The error
/// is that there are too many bells.
pub(crate) fn hang_bells(nodes: &mut [Node], cores: usize) -> Result<(), NoMemory>
    requires { cores ≤ length nodes.old }
    ensures { nodes.new ≡ nodes.old }
{
    let (cores, others) = nodes.split_at_mut(cores);
    ring_all(cores, others)
}
