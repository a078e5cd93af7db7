// Runs of the machine with one bus: they are serial, and never stuck. Each law is the contract of an empty function; nothing here depends
// on code.
#![tactic(auto)]

ghost use Rattle.theorem_bus.specs.Bounds.{BusRunsAreBounded, RiscvBusRunsAreBounded};
ghost use Rattle.theorem_bus.specs.Given.{BusRunsGiveThePlainMachine, BusTidsCount, RiscvBusNeverStuck, RiscvBusPickedEndsDone};
ghost use Rattle.theorem_bus.specs.Laws.{BusRunsAreSerial, BusNeverStuck, BusPickedEndsDone};

/// Every state that a run reaches is what a serial execution gives: the commits, one after another on the plain machine, give just these
/// loads, stores and console bytes, their TIDs count from 1, each core's checkpoint and end are the plain machine's, and so is memory.
/// The program's accesses are aligned, fit and lie in memory, and memory begins with 32-bit words.
pub fn bus_runs_are_serial()
    ensures serial { BusRunsAreSerial }
{}

/// In a state that a run reaches where no event is useful every core has halted and no packet is on the bus; and a schedule that a
/// chooser picks from random words is a run that has an event for each word, or ends in such a state. Caches have a set and a way.
pub fn bus_machines_are_never_stuck()
    ensures done { BusNeverStuck }
    ensures picked { BusPickedEndsDone }
{}

/// In every state that a run reaches no core awaits a line, no word in a cache is dirty, and caches, spilled words and a packet on the
/// bus are of memory; the core that has the bus, and no other, is alone under the next TID, which counts the commits from 1; a packet is
/// still to be taken by some core; and attempts and commits are at most as long and as many as there were events. The program's accesses
/// lie in memory.
pub fn bus_runs_are_bounded()
    ensures bounded { BusRunsAreBounded }
{}

/// What is committed of a RISC-V program, from each start with settings that are allowed, is the plain machine after the commits, as one
/// equation, and their TIDs count from 1.
pub fn bus_runs_give_the_plain_machine()
    ensures given { BusRunsGiveThePlainMachine }
    ensures tids { BusTidsCount }
{}

/// From such a start no state is stuck, and a picked schedule ends early only where all is done.
pub fn riscv_bus_machines_are_never_stuck()
    ensures done { RiscvBusNeverStuck }
    ensures picked { RiscvBusPickedEndsDone }
{}

/// From such a start every state is in bounds.
pub fn riscv_bus_runs_are_bounded()
    ensures bounded { RiscvBusRunsAreBounded }
{}
