// What runs by phases give. Each law is the contract of an empty function; nothing here depends on code.
#![tactic(auto)]

ghost use Rattle.theorem_phases.specs.Laws.{PhasedRunsAreRuns, PhasesNeverFall, PhasedNeverStuck, PhasedPickedEndsDone, PhasedPickedRuns};
ghost use Rattle.theorem_phases.specs.Laws.{PhasesGrow, OneRequestEach, HaltsStay, RequestsStay};

/// A run by phases is a run of the protocol's rules, to the same state and commits.
pub fn phased_runs_are_runs()
    ensures runs { PhasedRunsAreRuns }
{}

/// A schedule that a chooser picks by phases, from any state on, is a run by phases.
pub fn a_schedule_picked_by_phases_runs()
    ensures runs { PhasedPickedRuns }
{}

/// After every run from a start with allowed settings each core has at most one message to the vendor in flight, its request for a TID:
/// to hold back all of them holds back one.
pub fn one_request_each()
    ensures one { OneRequestEach }
{}

/// Who is held back changes at few events: an event that notes no commit leaves it as it was which cores have halted, and what a core has
/// said to the vendor changes only where the core executes an instruction or where a message of it is delivered there.
pub fn halts_and_requests_stay()
    ensures halts { HaltsStay }
    ensures requests { RequestsStay }
{}

/// After every run by phases from a start with allowed settings the machine is done, or some useful event isn't held back; and a schedule
/// that a chooser picks by phases has an event for each random word, or ends where all is done.
pub fn phased_runs_are_never_stuck()
    ensures done { PhasedNeverStuck }
    ensures picked { PhasedPickedEndsDone }
{}

/// After every run from a start with allowed settings an event that notes no commit leaves all phases as they are; a commit has the phase
/// that its core was in, in its place by its TID, and the core's phase grows to the value of x27 at its new checkpoint.
pub fn phases_grow()
    ensures grow { PhasesGrow }
{}

/// Along the rising TIDs of a run by phases, from a start with allowed settings, the phases of the commits never fall; there is one for
/// each commit.
pub fn phases_never_fall()
    ensures fall { PhasesNeverFall }
{}
