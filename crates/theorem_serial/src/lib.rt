// Serializability: what every run of the protocol's rules gives is what executing its transactions one after another gives.
// Each law is the contract of an empty function; the theorem depends on no code.
#![tactic(auto)]

ghost use Rattle.std.specs.Prelude.{◌≡◌, ℕ, MatchOption, None, Some, List, ◌∷◌, ◌++◌};
ghost use Rattle.rules_program.specs.Program.{Local, Program};
ghost use Rattle.rules_program.specs.Plain.{steps, begun, Plain, Attempt, Order, serial};
ghost use Rattle.theorem_serial.specs.Uses.{Aligned, IsMemory, AgreeOnUsed, SameAttempt};
ghost use Rattle.theorem_serial.specs.Insertion.{CanInsert, Inserted};
ghost use Rattle.theorem_serial.specs.Named.{KeptNamed};
ghost use Rattle.theorem_serial.specs.NotedBy.{CommitsAreByCores};
ghost use Rattle.theorem_serial.specs.OneCore.{KeptCores};
ghost use Rattle.theorem_serial.specs.Asked.{KeptAsked};
ghost use Rattle.theorem_serial.specs.Counted.{KeptCounted};
ghost use Rattle.theorem_serial.specs.Counter.{CountingSuits, GoesAlone, HasRead, IsViolated, CountsOn, NothingIsLeft};
ghost use Rattle.theorem_serial.specs.Committing.{CommitsAreServed};
ghost use Rattle.theorem_serial.specs.Masked.{KeptMasks};
ghost use Rattle.theorem_serial.specs.MaskLaws.{AlwaysSince, MarkedByServed, MarksOfCommits};
ghost use Rattle.theorem_serial.specs.Partly.{KeptWhole};
ghost use Rattle.theorem_serial.specs.Probing.{OneProbe};
ghost use Rattle.theorem_serial.specs.Stored.{KeptStored};
ghost use Rattle.theorem_serial.specs.Laws.{Always, OneWay, OneRequest, NeverPasses, OwedInFlight, Served, CommitsOnce, HoldsLast};
ghost use Rattle.theorem_serial.specs.Laws.{SparesItsCommitter, MarksAreStored};
ghost use Rattle.theorem_serial.specs.WayLaws.{AlwaysTold, UntoldWhereOpen, UntoldIsLive, AllWaysFit, GivenUpOnce, LiveIsOpen};
ghost use Rattle.theorem_serial.specs.WayLaws.{CommittedWhereStored, SmallerAreResolved, SmallerAreGivenUp, WorkIsReached};
ghost use Rattle.theorem_serial.specs.AtHomes.{AccessesAtHomes, MarksAtHomes, WrittenInMemory};
ghost use Rattle.theorem_serial.specs.Invariants.{StartHasAll, RunsCarry, RunsCarryViews, RunsStayInMemory};
ghost use Rattle.theorem_serial.specs.Theorem.{AllHold, RunsAreSerial};
ghost use Rattle.theorem_serial.specs.Sound.{AttemptsSound};
ghost use Rattle.theorem_serial.specs.KeepsViews.{KeepsViews};
ghost use Rattle.theorem_serial.specs.KeepsHomes.{EventsKeepHomes};
ghost use Rattle.theorem_serial.specs.SerialKept.{EventsKeepSerial, SeenFollows};
ghost use Rattle.theorem_serial.specs.Tried.{TriedFill, TriedRead, TriedOwner, TriedAlone, TriedFails};
ghost use Rattle.theorem_serial.specs.KeepsWords.{EventsKeepWords};
ghost use Rattle.tcc_base.specs.declared.access.Commit.{Commit};

/// Instructions over two memories that agree on the words used give the same.
#[tactic(auto, using(crate::proofs::OneCore::UsedWords::steps_same))]
pub fn steps_depend_on_used_words()
    ensures same { (base : ℕ) (p : Program) (n : ℕ) (l : Local) (here there : ℕ → ℕ) → Aligned p → IsMemory here → IsMemory there
        → AgreeOnUsed base p n l here there → MatchOption (steps base p n (begun l here)) (steps base p n (begun l there) ≡ None)
        (λ a. SameAttempt base here there a (steps base p n (begun l there))) }
{}

/// A serial execution may be cut at any place, and one more transaction may be inserted there: where no later transaction is its
/// core's or touches a word that it stores, all others give what they gave, and the memory after them differs at its words alone.
pub fn transaction_inserted()
    ensures without { (base : ℕ) (p : Program) (last : ℕ) (early late : List Order) (o : Order) (m start done end : Plain) (a : Attempt)
        (before after : List Commit) → CanInsert base p last early late o m start done end a before after
        → serial base p last (early ++ late) m ≡ Some (end, before ++ after) }
    ensures with_it { (base : ℕ) (p : Program) (last : ℕ) (early late : List Order) (o : Order) (m start done end : Plain) (a : Attempt)
        (before after : List Commit) → Aligned p → IsMemory m.ram → CanInsert base p last early late o m start done end a before after
        → Inserted base before o a after done end (serial base p last (early ++ o ∷ late) m) }
{}

/// Where each TID is: at each directory it is resolved in exactly one way, and a core that waits for one has one coming.
#[tactic(auto, using(crate::proofs::Run::AllInvariants::one_way, crate::proofs::Run::AllInvariants::one_request))]
pub fn tids_are_resolved_in_one_way()
    ensures one_way { Always OneWay }
    ensures one_request { Always OneRequest }
{}

/// A directory never passes a TID that isn't resolved there.
#[tactic(auto, using(crate::proofs::Run::AllInvariants::never_passes))]
pub fn serving_never_passes_an_unresolved_tid()
    ensures never_passes { Always NeverPasses }
{}

/// What a directory is owed is what is in flight.
#[tactic(auto, using(crate::proofs::Run::AllInvariants::owed_in_flight))]
pub fn what_is_owed_is_in_flight()
    ensures owed { Always OwedInFlight }
{}

/// A directory that has replied serves the core's TID, and a core that may commit is served by every directory where it writes.
#[tactic(auto, using(crate::proofs::Run::AllInvariants::served))]
pub fn directories_that_replied_serve_the_tid()
    ensures served { Always Served }
{}

/// Each TID is granted to one core and committed at most once, by this core, and the commits' TIDs rise strictly.
#[tactic(auto, using(crate::proofs::Run::AllInvariants::granting))]
pub fn each_tid_commits_at_most_once()
    ensures once { CommitsOnce }
    ensures last { HoldsLast }
{}

/// Every commit is by a core of the machine.
#[tactic(auto, using(crate::proofs::Run::AllInvariants::commits_are_by_cores))]
pub fn only_cores_of_the_machine_commit()
    ensures cores { CommitsAreByCores }
{}

/// What holds of each core by itself: its cache's two ways of finding a line agree, its modified and spilled words are those that
/// its stores name, it awaits a line only in a frame of that line, and it is owed replies only while it waits for them.
#[tactic(auto, using(crate::proofs::Run::AllInvariants::one_core))]
pub fn each_core_is_consistent()
    ensures consistent { Always KeptCores }
{}

/// A Commit in flight to a directory is of the TID that this directory serves, and from the core that it was granted to; no
/// invalidation of it goes to this core.
#[tactic(auto, using(crate::proofs::Run::AllInvariants::commits_are_served, crate::proofs::Run::AllInvariants::spares_committer))]
pub fn commits_are_of_the_served_tid()
    ensures served { Always CommitsAreServed }
    ensures spared { SparesItsCommitter }
{}

/// For each directory that owes a core a reply, exactly one probe or reply is in flight between them, and none for another.
#[tactic(auto, using(crate::proofs::Run::AllInvariants::one_probe))]
pub fn each_owed_reply_is_on_its_way()
    ensures one { Always OneProbe }
{}

/// The Marks of a core's TID at a directory, in flight and handled together, are one of each line that the core stores there, from
/// when the directory has replied; a TID that hasn't come yet or that is skipped has none.
#[tactic(auto, using(crate::proofs::Run::AllInvariants::marks_stored))]
pub fn marks_are_the_lines_stored()
    ensures stored { MarksAreStored }
{}

/// A Commit in flight counts the Marks of its TID, one at most of each line; while a directory is owed acknowledgements, no Mark of
/// the TID that it serves is in flight.
#[tactic(auto, using(crate::proofs::Run::AllInvariants::counts_marks))]
pub fn commits_count_their_marks()
    ensures counted { Always KeptCounted }
{}

/// At a directory that is owed nothing a marked line is wholly overwritten or has no owner: the words that a commit leaves alone
/// are at home.
#[tactic(auto, using(crate::proofs::Run::AllInvariants::wholly_marked))]
pub fn a_line_marked_in_part_has_no_owner()
    ensures whole { Always KeptWhole }
{}

/// An invalidation in flight is of a marked line and has its mask, and of each line at most one is in flight to a core or
/// acknowledged by it.
#[tactic(auto, using(crate::proofs::Run::AllInvariants::named_lines))]
pub fn invalidations_name_marked_lines()
    ensures named { Always KeptNamed }
{}

/// A line whose data a directory asked for has an owner, from which they come.
#[tactic(auto, using(crate::proofs::Run::AllInvariants::asked_owned))]
pub fn an_asked_line_has_an_owner()
    ensures asked { Always KeptAsked }
{}

/// Each Mark of a core's TID has as its mask the words of its line that the core has modified; and a marked line is one that the
/// core of the served TID stores, with this mask.
#[tactic(auto, using(crate::proofs::Marks::MaskLaws::masks_stored, crate::proofs::Marks::MaskLaws::marked_by_served))]
pub fn masks_are_the_words_stored()
    ensures masks { Always KeptMasks }
    ensures served { Always MarkedByServed }
{}

/// A Commit in flight to a directory is of a commit that stored there, and counts the lines in which it did; its TID has marked these
/// lines, each with the words that were stored there, and no others; where the directory takes the Commit, and while it is owed
/// acknowledgements, these are its marks.
#[tactic(auto, using(crate::proofs::Marks::MaskLaws::commits_stored, crate::proofs::Marks::MaskLaws::marks_of_commits))]
pub fn commits_mark_what_they_stored()
    ensures stored { AlwaysSince KeptStored }
    ensures each { AlwaysSince MarksOfCommits }
{}

/// Each TID was given to each directory in one way: untold exactly where it isn't granted, is on its way to its core or is open,
/// and else skipped, aborted or committed, as the word in flight and what the directory keeps say.
#[tactic(auto, using(crate::proofs::Ways::WaySteps::untold_where_open, crate::proofs::Ways::WaySteps::all_ways_fit))]
pub fn tids_are_told_apart()
    ensures untold { AlwaysTold UntoldWhereOpen }
    ensures fit { AlwaysTold AllWaysFit }
{}

/// Of a TID that was given up at a directory one Skip or Abort is in flight there, or the directory keeps it as skipped, or has
/// passed it; and only one of these.
#[tactic(auto, using(crate::proofs::Ways::WaySteps::given_up_once))]
pub fn given_up_tids_are_told_or_kept_or_passed()
    ensures once { AlwaysTold GivenUpOnce }
{}

/// A TID that is on its way to its core, or that its core has, is untold at each directory where it may still store, and skipped at
/// the others; and one that is untold anywhere is with a core or on its way to it.
#[tactic(auto, using(crate::proofs::Ways::WaySteps::live_is_open, crate::proofs::Ways::WaySteps::untold_is_live))]
pub fn a_live_tid_is_open_where_it_must_be()
    ensures untold { AlwaysTold LiveIsOpen }
    ensures live { AlwaysTold UntoldIsLive }
{}

/// A committed TID is committed at each directory where its commit stored a word, and skipped at every other; a TID that no commit
/// has is committed nowhere.
#[tactic(auto, using(crate::proofs::Ways::WaySteps::committed_where_stored))]
pub fn a_committed_tid_is_given_up_where_it_stored_nothing()
    ensures stored { AlwaysTold CommittedWhereStored }
{}

/// A directory where a commit loaded or stored has reached its TID, so that a smaller TID that no commit has is given up there; and
/// where a TID is committed each smaller one is given up or settled.
#[tactic(auto, using(crate::proofs::Ways::WaySteps::smaller_are_resolved, crate::proofs::Ways::WaySteps::smaller_are_given_up, crate::proofs::Ways::WaySteps::work_is_reached))]
pub fn a_smaller_tid_is_given_up_where_a_larger_one_worked()
    ensures reached { AlwaysTold WorkIsReached }
    ensures given_up { AlwaysTold SmallerAreGivenUp }
    ensures resolved { AlwaysTold SmallerAreResolved }
{}

/// The start has every invariant of the list, whatever the machine, the program, the cores' entries and the memory are.
pub fn the_start_has_all_invariants()
    ensures start { StartHasAll }
{}

/// Every state that a run reaches has those of the list that are proved of every run by themselves.
#[tactic(auto, using(crate::proofs::Run::FactsOfRuns::runs_carry))]
pub fn runs_carry_what_is_proved()
    ensures carried { RunsCarry }
{}

/// In every state that a run reaches each core's attempt is what the plain machine does over any memory that agrees with the core's
/// view, the words that the attempt used with their values; and until the core is alone the words marked read are those of its view,
/// with these values where they are valid and the attempt hasn't modified them. The program's accesses are aligned and its stores fit.
#[tactic(auto, using(crate::proofs::Run::FactsOfRuns::runs_carry_views))]
pub fn attempts_follow_from_their_views()
    ensures views { RunsCarryViews }
{}

/// In every state that a run reaches frames, the words that attempts and commits loaded and stored, spilled words and awaited lines lie
/// in memory, where the program's accesses do. So each word that was loaded or stored, or that is marked, is found at its line's home.
#[tactic(auto, using(crate::proofs::Run::FactsOfRuns::runs_stay_in_memory, crate::proofs::Memory::CoreHomes::accesses_at_homes, crate::proofs::Memory::CoreHomes::marks_at_homes, crate::proofs::Memory::CoreHomes::written_in_memory))]
pub fn accesses_stay_in_memory()
    ensures inside { RunsStayInMemory }
    ensures used { AccessesAtHomes }
    ensures marked { MarksAtHomes }
    ensures written { WrittenInMemory }
{}

/// The facts on lines, copies and values hold in each state of some runs that were worked by hand, and where one thing is changed at
/// the end of the first the fact that speaks of it fails.
#[tactic(auto, using(crate::proofs::Run::TriedRun::tried_fill, crate::proofs::Run::TriedRun::tried_read, crate::proofs::Run::TriedRun::tried_owner, crate::proofs::Run::TriedRun::tried_alone, crate::proofs::Run::TriedRun::tried_fails))]
pub fn the_list_was_tried_on_runs()
    ensures fill { TriedFill }
    ensures read { TriedRead }
    ensures owner { TriedOwner }
    ensures alone { TriedAlone }
    ensures fails { TriedFails }
{}

/// Where the list holds each attempt is what the plain machine does over the values that its core sees, or an invalidation that will
/// roll it back is in flight.
pub fn attempts_are_sound_or_doomed()
    ensures sound { AttemptsSound }
{}

/// An event of a state that has the invariants of the list leaves each word its value: in the copy with its line's tag, and at home where
/// no such copy has the word; and copies with a larger tag have the words of their commits.
#[tactic(auto, using(crate::proofs::Values::WordsMoved::homes_kept))]
pub fn events_keep_home_words()
    ensures keeps { EventsKeepHomes }
{}

/// Where the whole list holds, every event leaves each word of a core's view with the value that it has for the core at its bound, or
/// the attempt doomed; and a halted core's view stays empty.
#[tactic(auto, using(crate::proofs::Views::ViewsKept::keeps_views))]
pub fn events_keep_views()
    ensures views { KeepsViews }
{}

/// An event of a state that has the invariants of the list leaves the commits serial: where it commits, the new transaction stands in
/// their order at its TID, and the others give what they gave.
#[tactic(auto, using(crate::proofs::Order::SerialSteps::events_serial))]
pub fn events_keep_the_commits_serial()
    ensures keeps { EventsKeepSerial }
{}

/// An event of a state that has the invariants of the list keeps the words in frames and in Fills: each that isn't modified is as its
/// core sees it, or an invalidation of it is on its way to the core.
#[tactic(auto, using(crate::proofs::Values::ModifiedWords::words_kept))]
pub fn events_keep_words()
    ensures keeps { EventsKeepWords }
{}

/// In a state that has the facts of the list on TIDs, lines, copies and values, what is seen of each word is the plain machine's memory
/// after the commits.
#[tactic(auto, using(crate::proofs::Values::SeenWords::seen_follows))]
pub fn what_is_seen_is_serial()
    ensures seen { SeenFollows }
{}

/// Every state that a run reaches has every invariant of the list. There is a directory, the program's accesses are aligned, fit and lie in
/// memory, and memory has 32-bit words.
#[tactic(auto, using(crate::proofs::Run::AllCarried::all_hold))]
pub fn every_state_has_all_invariants()
    ensures all { AllHold }
{}

/// The runs of the protocol are serial: in every state that a run reaches the commits are what the plain machine gives for them one
/// after another, in the order of their TIDs, with just their loads, stores and console bytes; each core's checkpoint, and whether and
/// how it has halted, are the plain machine's then; and what is seen of each word is its memory.
#[tactic(auto, using(crate::proofs::Run::AllCarried::runs_are_serial))]
pub fn runs_are_serial()
    ensures serial { RunsAreSerial }
{}

/// What the theorem asks is met, by a program of a few instructions and a run of it: of two cores that count in the same word the
/// first goes on alone after an overflow and commits; so the second, which had read the word, is violated, counts anew, and commits
/// behind it. Both halt; the commits, the cores and the words at the end are computed, and no event is useful then.
#[tactic(auto, using(crate::proofs::Run::CounterRun::counting_suits, crate::proofs::Run::CounterRun::goes_alone, crate::proofs::Run::CounterRun::has_read, crate::proofs::Run::CounterRun::is_violated, crate::proofs::Run::CounterRun::counts_on, crate::proofs::Run::CounterRun::nothing_is_left))]
pub fn a_program_suits_and_runs()
    ensures suits { CountingSuits }
    ensures alone { GoesAlone }
    ensures read { HasRead }
    ensures violated { IsViolated }
    ensures counts { CountsOn }
    ensures left { NothingIsLeft }
{}
