// The commits of a machine, by rising TID: the order in which their transactions have their effect, which mostly, but not always,
// is the order in which they came.
#![tactic(auto)]

mod list;

pub use list::CommitList;
