//! One core by itself: what holds of it along every run of the rules, whatever messages come. The functions here have no
//! body: the contract of each is a law.
#![tactic(auto)]

ghost use Rattle.theorem_attempt.specs.Marks.{AttemptsFit};
ghost use Rattle.theorem_attempt.specs.Sound.{CoresSound};

/// In every state that a run reaches each core's cache is consistent, an awaited line has a frame, only a core that is alone
/// has spilled words, a line with one has no modified and no dirty word in its frame, and a core without an attempt has no
/// marks.
pub fn cores_stay_sound()
    ensures { CoresSound }
{}

/// In every state that a run reaches, each core's attempt is what the plain machine does from the core's checkpoint, over any
/// memory of 32-bit words that has the values which the attempt used: the same registers, pc, loads, stores and console, the
/// same words as the core sees them, and its end where it has ended. The program's accesses are aligned, and what it stores
/// fits. The uses are those that the run's events made, one after another: the core's view. Until the core is alone each such
/// use is marked read, and has its value still unless the attempt stored there since or, once the core has a TID, an
/// invalidation made it invalid; and no word is marked read that the attempt didn't use. Only a core that executes awaits a
/// line, and only one that probes is owed replies.
pub fn attempts_follow_from_their_uses()
    ensures { AttemptsFit }
{}
