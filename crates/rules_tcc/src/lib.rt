//! The rules of the protocol: one definition for each thing that can happen, on one node's own state, and the whole machine
//! over them. The functions here have no body: the contract of each is a law of these definitions.
#![tactic(auto)]

ghost use Rattle.rules_tcc.specs.Cases.{CasesAre};
ghost use Rattle.rules_tcc.specs.Laws.{StepsActOnOne, UsefulHolds, UsefulOrdered, NotBeforeItself, UsefulEnabled, DoneUseless, TidsCount};
ghost use Rattle.rules_tcc.specs.Laws.{PickedRuns, PickedEnds};
ghost use Rattle.rules_tcc.specs.Merged.{MergedRuns};
ghost use Rattle.rules_tcc.specs.Schedules.{TwoTids, TwoTidsMore, ReaderWaits, ProbeWaits, OverARead, DoomedAttempt, BeforeTheFill};
ghost use Rattle.rules_tcc.specs.Schedules.{OverADirtyOwner, WriteBackWaits, AloneAfterOverflow};

/// The schedules that were worked by hand end as they must: the commits with their loads, the committed registers and
/// the words that are seen; and an event that must wait is not enabled where it comes.
pub fn worked_schedules()
    ensures two_tids { TwoTids }
    ensures two_tids_more { TwoTidsMore }
    ensures reader_waits { ReaderWaits }
    ensures probe_waits { ProbeWaits }
    ensures over_a_read { OverARead }
    ensures doomed_attempt { DoomedAttempt }
    ensures before_the_fill { BeforeTheFill }
    ensures over_a_dirty_owner { OverADirtyOwner }
    ensures write_back_waits { WriteBackWaits }
    ensures alone_after_overflow { AloneAfterOverflow }
{}

/// Six more schedules, each of which ends otherwise by a rule that is nearly the same: the commits with their loads and stores,
/// the cores with what they have marked read, the words that are seen, and the events that are useful next.
pub fn nearby_rules_are_told_apart()
    ensures schedules { CasesAre }
{}

/// An event acts on one node: no other node's state changes, a message that is consumed was in flight, and each link only
/// grows at its end, the node's own ones alone.
pub fn an_event_acts_on_one_node()
    ensures { StepsActOnOne }
{}

/// The list of useful events holds each of them once, in the stated order; each is enabled, and a done state has none.
pub fn useful_events_are_listed()
    ensures holds { UsefulHolds }
    ensures ordered { UsefulOrdered }
    ensures once { NotBeforeItself }
    ensures enabled { UsefulEnabled }
    ensures done { DoneUseless }
{}

/// The TIDs that the vendor gives in a run are 1, 2, 3 and so on.
pub fn tids_count_from_one()
    ensures { TidsCount }
{}

/// Logs that fit, one for each node, sorted by stamp and then by node, are a run of the machine, and each node ends as its
/// own log leaves it.
pub fn logs_that_fit_are_a_run()
    ensures { MergedRuns }
{}

/// What a chooser picks is a run: each event is useful where it comes, one for each random word until none is useful.
pub fn a_picked_schedule_is_a_run()
    ensures runs { PickedRuns }
    ensures ends { PickedEnds }
{}
