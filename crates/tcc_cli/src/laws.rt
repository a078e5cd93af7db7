// What follows from the answers of the program.
ghost use Rattle.tcc_cli.specs.Continued.{CutRunsAreWhole};
ghost use Rattle.tcc_cli.specs.Laws.{AnswersAreComplete, OpenBusRunsTakeAllEvents, OpenPhasedRunsTakeAllEvents, OpenRunsTakeAllEvents};
ghost use Rattle.tcc_cli.specs.Laws.{OthersAreRefused, ReplaysPrintTheSame};

use apart_run::open_joined_runs_take_all_events;
use checkpoint_run::{runs_go_on_from_texts, texts_tell_runs_apart};
use rules_tcc::a_picked_schedule_is_a_run;
use schedule_text::{texts_tell_schedules_apart, the_first_fault_is_one};
use serial_tool::{lists_are_read_alike, lists_are_run_alike};
use tcc_replay::what_runs_is_not_refused;
use tcc_words::{commands_are_in_bounds, words_ask_for_one_command};
use theorem_bus::riscv_bus_machines_are_never_stuck;
use theorem_phases::{
    a_schedule_picked_by_phases_runs, phased_runs_are_never_stuck, phased_runs_are_runs,
};
use theorem_riscv::riscv_machines_are_never_stuck;

/// A law: where the words ask for a command, the files' bytes are told, and no count of faults rose, the command was carried out and its
/// whole text written, or the first fault of the images was answered, or else that of the schedule or list, or the status is `Memory`.
/// And the words are refused exactly where they are no command, unless memory ran out.
pub fn answers_are_complete()
    ensures command { AnswersAreComplete }
    ensures words { OthersAreRefused }
{
    words_ask_for_one_command();
    commands_are_in_bounds();
    texts_tell_schedules_apart();
    the_first_fault_is_one();
    lists_are_read_alike();
    lists_are_run_alike();
    what_runs_is_not_refused();
}

/// A law: where the machine isn't done at the end of a run, of a seed's, of threads, by phases or on one bus, all the events that were
/// asked for were taken.
pub fn open_runs_take_all_events()
    ensures runs { OpenRunsTakeAllEvents }
    ensures phased { OpenPhasedRunsTakeAllEvents }
    ensures bus { OpenBusRunsTakeAllEvents }
{
    riscv_machines_are_never_stuck();
    a_picked_schedule_is_a_run();
    open_joined_runs_take_all_events();
    phased_runs_are_never_stuck();
    phased_runs_are_runs();
    a_schedule_picked_by_phases_runs();
    riscv_bus_machines_are_never_stuck();
}

/// A law: two calls, a run that is recorded and the replay of the record with the same settings and images, end alike and print the same
/// text, where nothing fails and memory suffices. Of a run by phases that is the report which stands behind the phases.
pub fn replays_print_the_same()
    ensures { ReplaysPrintTheSame }
{
    words_ask_for_one_command();
    commands_are_in_bounds();
    texts_tell_schedules_apart();
    the_first_fault_is_one();
    lists_are_read_alike();
    lists_are_run_alike();
    what_runs_is_not_refused();
}

/// A law: a run of `count` or `state` that goes on from the checkpoint of so many steps of a seed comes to what the run of those and of its
/// own steps comes to from the seed, and the checkpoint that it leaves is of that whole run; so it may be cut as often as one likes.
pub fn cut_runs_are_whole()
    ensures { CutRunsAreWhole }
{
    runs_go_on_from_texts();
    texts_tell_runs_apart();
}
