// What stays in bounds at each node of a machine whose nodes are kept apart, from what the node has done and what its links bring.
// Each law is the contract of an empty function; nothing here depends on code.
#![tactic(auto)]

ghost use Rattle.theorem_apart.specs.Laws.{NodesStartInBounds, NodesStayInBounds, RiscvNodesStartInBounds, RiscvNodesStayInBounds};
ghost use Rattle.tcc_base.specs.Limits.{run_limit};

/// Before its first event each node is in bounds: a core's attempt has no instruction, and what it holds is of memory; a directory
/// serves the first TID, and no line is owned or marked; and the vendor's next TID is 1.
pub fn nodes_start_in_bounds()
    ensures starts { NodesStartInBounds }
{}

/// Each event of a node, its message one that its link carries, leaves the node in bounds, with one event more: a core's attempt has
/// at most as many instructions as the core had events, its TID is from 1 on and below 2^62, and its cache, its spilled words and the
/// line that it awaits are of memory; a directory's owners are cores of the machine, and its marked lines are at home there; and the
/// vendor's next TID is one more than its events. Each message that the event sends is one that its link carries. There is a
/// directory, the program's accesses lie in memory, and the node had fewer events than a run may have.
pub fn nodes_stay_in_bounds()
    ensures stays { NodesStayInBounds }
{}

/// So it is of the RISC-V programs that the machine runs, from each start with settings that are allowed.
pub fn riscv_nodes_are_in_bounds()
    ensures starts { RiscvNodesStartInBounds }
    ensures stays { RiscvNodesStayInBounds }
{}
