// No state is stuck: in every state that a run of the protocol's rules reaches some event is useful, until all is done.
// Each law is the contract of an empty function; nothing here depends on code.
#![tactic(auto)]

ghost use Rattle.theorem_live.specs.Fits.{LinksFitAlways};
ghost use Rattle.theorem_live.specs.Progress.{InEachState, DoneWhereNoneUseful, EachGoesOn, PickedEndsDone};

/// In every state that a run reaches each message in flight is of a kind that its source says to its destination, both nodes of
/// the machine; a line's owner is a core of the machine; and each directory serves a TID. There is a directory.
pub fn messages_fit_their_links()
    ensures fit { LinksFitAlways }
{}

/// In every state that a run reaches the machine is done, or some event is useful: a chooser is never stuck. There is a directory,
/// caches have a set and a way, and the program's accesses lie in memory.
pub fn no_state_is_stuck()
    ensures done { InEachState DoneWhereNoneUseful }
{}

/// In every state that a run reaches, for each core that hasn't halted some useful event is another than to deliver another core's
/// request for a TID: so no core has to take a place in the order for another one to go on. Nor does that event execute another core
/// that has no place.
pub fn each_core_goes_on()
    ensures goes_on { InEachState EachGoesOn }
{}

/// A schedule that a chooser picks from the start, one useful event for each random word, has as many events as there are words, or
/// ends where all is done.
pub fn picked_schedules_end_where_all_is_done()
    ensures done { PickedEndsDone }
{}
