// What stays in bounds along every run of the protocol's rules: what code is to know before it calls a node. Each law is the
// contract of an empty function; nothing here depends on code.
#![tactic(auto)]

ghost use Rattle.theorem_bounds.specs.Bounds.{RunsAreBounded};
ghost use Rattle.theorem_bounds.specs.Riscv.{RiscvRunsAreBounded};

/// In every state that a run reaches no attempt, commit or TID is above the number of events, but for the next TID, which may be one
/// above it; each message in flight is between nodes that the machine has, of a line that memory has and is at home there, and of a TID
/// that was granted; and caches, spilled words and awaited lines are of memory. There is a directory, and the program's accesses lie
/// in memory.
pub fn runs_are_bounded()
    ensures bounded { RunsAreBounded }
{}

/// So it is of the RISC-V programs that the machine runs, from each start with settings that are allowed.
pub fn riscv_runs_are_bounded()
    ensures bounded { RiscvRunsAreBounded }
{}
