//! The protocol's data and its maps: nodes, messages and events over plain numbers, and what a cache, an
//! overflow buffer, a directory's lines and its skips are, with everything that can change in them.
//!
//! The definitions stand in `specs/`, once, for the rules of the protocol and for the contracts of the parts.
//! The functions here have no body: the contract of each is a law of these definitions.
#![tactic(auto)]

ghost use Rattle.rules_maps.specs.Laws.{MaskHolds, MaskOfItself, MaskSmall, HasMinus, HasMeet, HasJoin, HasPow, HasZero, NothingLeft};
ghost use Rattle.rules_maps.specs.Laws.{HitsValid, LooksMiss, LooksOverflow, LooksRoom, AnyWord, ReadsMasked, SpillsModified, MarksOneLine};
ghost use Rattle.rules_maps.specs.Laws.{AdvanceRises, AdvancePast, AdvanceStops, AdvanceKeeps, KeptSkips, FirstSkips, CachesKeep};
ghost use Rattle.rules_maps.specs.Laws.{CacheBegins, ThoseHold, ThoseRise, ThoseCount, AnyBelow, AllBelow, LowestBelow, JudgesWaits};
ghost use Rattle.rules_maps.specs.Laws.{JudgesTakes};
ghost use Rattle.rules_maps.specs.Bridge.{tagged_of};

/// A mask is a set of places below eight: making one from a test and asking it again gives the test, and the
/// three operations are those on sets.
pub fn masks_are_sets()
    ensures holds { MaskHolds }
    ensures itself { MaskOfItself }
    ensures small { MaskSmall }
    ensures minus { HasMinus }
    ensures meet { HasMeet }
    ensures join { HasJoin }
    ensures one { HasPow }
    ensures none { HasZero }
{}

/// A directory that moves on serves the least larger TID that wasn't skipped, and forgets no skip above it.
pub fn serving_moves_past_skips()
    ensures rises { AdvanceRises }
    ensures past { AdvancePast }
    ensures stops { AdvanceStops }
    ensures keeps { AdvanceKeeps }
    ensures kept { KeptSkips }
    ensures first { FirstSkips }
{}

/// What is kept of a cache (its two ways of finding a line agree, a frame has modified or dirty words and not
/// both, these valid) is kept by each of its changes.
pub fn changes_keep_caches()
    ensures begins { CacheBegins }
    ensures keep { CachesKeep }
{}

/// The tests over all numbers below a bound say what their names say.
pub fn bounded_tests_are_exact()
    ensures any { AnyBelow }
    ensures all { AllBelow }
    ensures lowest { LowestBelow }
    ensures those { ThoseHold }
    ensures rise { ThoseRise }
    ensures count { ThoseCount }
{}

/// Words that come home wait exactly where their tag is above the line's, and are taken exactly where it is the
/// line's and they come from its owner.
pub fn judgement_is_exact()
    ensures waits { JudgesWaits }
    ensures takes { JudgesTakes }
{}

/// A roll back leaves nothing to commit, a load hits exactly the valid words, an emptied frame spills exactly its
/// modified words, and a mark is set on one line alone.
pub fn maps_fit_together()
    ensures nothing_left { NothingLeft }
    ensures hits { HitsValid }
    ensures spills { SpillsModified }
    ensures marks { MarksOneLine }
{}

/// A line whose word isn't there is a miss where it has a frame or may have one, an overflow where all ways of its set hold
/// marked frames, and else needs room; an invalidation meets exactly the read marks of its masked words.
pub fn looks_are_exact()
    ensures miss { LooksMiss }
    ensures overflow { LooksOverflow }
    ensures room { LooksRoom }
    ensures word { AnyWord }
    ensures reads { ReadsMasked }
{}
