//! Reports and tables of outcomes: what a report shows of a program all of whose cores have halted is one of the outcomes of a table that
//! is done. It holds for each machine and schedule, since the commits of each are a serial execution. There is no code here: the contracts
//! are laws.
#![tactic(auto)]

ghost use Rattle.outcomes_law.specs.Laws.{BusReportsAreOutcomes, DoneBusRunsAreOutcomes, DoneRunsAreOutcomes, ListsAreOutcomes};
ghost use Rattle.outcomes_law.specs.Laws.{ReportsAreOutcomes, ReportsEndWithTheirState};

/// What a run shows is an outcome of each table that is done, where all cores have halted: of a run of the machine with directories,
/// whatever picked its events, of one of the machine with one bus, and of a list of transactions.
pub fn reports_are_outcomes()
    ensures runs { ReportsAreOutcomes }
    ensures bus { BusReportsAreOutcomes }
    ensures lists { ListsAreOutcomes }
{}

/// What a report shows that says `end done` is an outcome of each table that is done: in a state that is done each core has halted, and so
/// has ended by a halt or a trap.
pub fn done_runs_are_outcomes()
    ensures runs { DoneRunsAreOutcomes }
    ensures bus { DoneBusRunsAreOutcomes }
{}

/// The lines of a report from its first core on are those that an outcome has where all is told.
pub fn reports_end_with_their_state()
    ensures { ReportsEndWithTheirState }
{}
