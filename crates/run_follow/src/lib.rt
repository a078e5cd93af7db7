// Runs of the machine with caches and directories whose transactions commit in the order of a list.
#![tactic(auto)]

ghost use Rattle.run_follow.specs.Laws.{FollowedAll, FollowedEnds, FollowedKeeps, FollowedRuns};

mod following;

pub use following::follow;

/// What follows a list is a run: each event is useful where it comes. There are so many of them, or fewer where none may come at the end.
pub fn a_followed_schedule_is_a_run()
    ensures runs { FollowedRuns }
    ensures ends { FollowedEnds }
{}

/// A run that follows a list that the plain machine can execute commits the list's transactions, in its order: the same cores, and the same
/// numbers of instructions. Where the run is done it has committed all of them; so it has where it has fewer events than it may have, since
/// some event may come until then.
pub fn the_commits_are_the_lists()
    ensures keeps { FollowedKeeps }
    ensures ends { FollowedAll }
{}
