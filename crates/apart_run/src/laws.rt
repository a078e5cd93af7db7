// What follows of a run on host threads.
ghost use Rattle.apart_run.specs.Laws.{JoinedSchedulesAreRuns, OpenJoinedRunsTakeAllEvents};

use theorem_riscv::riscv_machines_are_never_stuck;

/// A law: the schedule that threads make is a run of the machine from its start.
pub fn joined_schedules_are_runs()
    ensures { JoinedSchedulesAreRuns }
{}

/// A law: where the machine isn't done at the end of a run of threads, all the events that were asked for were taken.
pub fn open_joined_runs_take_all_events()
    ensures { OpenJoinedRunsTakeAllEvents }
{
    riscv_machines_are_never_stuck();
}
