//! The counts of a run add up: what `count` prints of each core says what became of all that the core executed, and what it prints of
//! each kind of message what became of all that were sent. There is no code here: the contracts are laws.
#![tactic(auto)]

ghost use Rattle.count_law.specs.Messages.{MessagesAddUp};
ghost use Rattle.count_law.specs.Sums.{CountsAddUp};

/// After every run of the rules the counts of each core add up: each of its instructions was committed, was lost or is under way, so was
/// each of its attempts, and what was committed is what the core's commits have.
pub fn counts_add_up()
    ensures { CountsAddUp }
{}

/// After every run of the rules the counts of each kind of message add up: each that was sent was taken, was dropped, or is in flight.
pub fn messages_add_up()
    ensures { MessagesAddUp }
{}
