// The machine that a list of events leads to, taken one after another.
#![tactic(auto)]

mod replaying;

pub use replaying::{
    ReplayFault, equal_events_give_equal_machines, replay, what_runs_is_not_refused,
    what_was_taken_has_a_text,
};
