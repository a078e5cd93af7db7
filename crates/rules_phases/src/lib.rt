// Phases of ordered transactions, as definitions over the protocol's rules, with runs worked by hand. Their law is the contract of an empty
// function; nothing here depends on code.
#![tactic(auto)]

ghost use Rattle.rules_phases.specs.Worked.{GoesOn, StaysInPhase, InPhaseOne, HeldBack, BothHalt};

/// Two images that set x27, worked by hand: the phases of a few transactions, the request of a core that is held back as another one is in
/// an earlier phase, and the phases of a whole run of two cores are computed.
pub fn worked_runs_by_phases()
    ensures goes_on { GoesOn }
    ensures stays { StaysInPhase }
    ensures asks { InPhaseOne }
    ensures held { HeldBack }
    ensures whole { BothHalt }
{}
