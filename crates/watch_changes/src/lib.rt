//! What changed of a machine's records, event by event. `changes` of specs/Changes defines what is told of two lists of records, and
//! `states_text` of specs/Text the trace that tells it below the facts of each event. `push_changes` writes the changes, `begin` all
//! records where a window begins, `Before` has the records that an event may change as they were before it, and `laws` says what holds of
//! changes.
#![tactic(auto)]

mod before;
mod lines;
mod meeting;
mod part;
mod reach;
mod same;
mod touched;
mod walking;
mod window;

ghost use Rattle.watch_changes.specs.Laws.{BeginsByNode, ChangesLeadOn, NoneAsItWas, NoneTwice, OthersStay};
ghost use Rattle.watch_changes.specs.Laws.{TouchedSuffices, WithoutRecords};

pub use before::Before;
pub use walking::push_changes;
pub use window::begin;

/// The changes of a node's records, put on those that it had, give those that it has; no record is told twice, or again as it was; an
/// event changes the records of its own node alone, and of those only the ones that it touches; all records of a state are told node by
/// node, and then its messages in flight; and what is told of events without any records is the trace.
pub fn laws()
    ensures lead_on { ChangesLeadOn }
    ensures none_twice { NoneTwice }
    ensures none_as_it_was { NoneAsItWas }
    ensures others_stay { OthersStay }
    ensures touched_suffices { TouchedSuffices }
    ensures begins_by_node { BeginsByNode }
    ensures without_records { WithoutRecords }
{}
