// What a machine's program is, and the plain machine that executes its transactions one after another, as definitions.
// The machines of other crates, the protocol's rules and every theorem on them cite these.
#![tactic(auto)]

ghost use Rattle.rules_program.specs.Cores.{ConsolesArePrinted, SerialTakesItsCores};
ghost use Rattle.rules_program.specs.Orders.{SerialJoins};

/// A law: executing transactions one after another is executing the first of them, and then the rest from there.
pub fn serial_executions_join()
    ensures { SerialJoins }
{}

/// A law: after a serial execution each core's console is the one before it and the bytes of the core's commits, one after another.
pub fn consoles_are_what_commits_print()
    ensures { ConsolesArePrinted }
{}

/// A law: from two machines that agree on RAM and on the cores of the orders, a serial execution gives the same commits, RAM and
/// those cores; all other cores stay as they were.
pub fn serial_executions_take_their_cores()
    ensures { SerialTakesItsCores }
{}
