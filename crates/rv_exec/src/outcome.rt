// How an instruction leaves its transaction.
ghost use Rattle.std.specs.Prelude.{◌≡◌, ◌↔◌, IsTrue, IsFalse, Some};
ghost use Rattle.rules_program.specs.Plain.{end_of};

use tcc_base::CoreEnd;

/// How an instruction leaves its transaction: it goes on, ends, halts its core with a code, or traps.
#[derive(Clone, Copy, Debug, PartialEq, Eq)]
pub enum Outcome {
    Goes,
    Ended,
    Halted(u32),
    Trapped(u8),
}

impl Outcome {
    ghost use Rattle.rv_exec.specs.Outcomes.{outcome_of, HasEnded};

    /// Whether the transaction doesn't go on.
    pub fn has_ended(self) -> bool
        ensures ended { IsTrue result ↔ HasEnded (outcome_of self) }
        ensures goes { IsFalse result → self ≡ Outcome.Goes }
    {
        match self {
            Outcome::Goes => false,
            Outcome::Ended | Outcome::Halted(_) | Outcome::Trapped(_) => true,
        }
    }

    /// How a core stands once the transaction that ended so is committed.
    pub fn end(self) -> CoreEnd
        requires { HasEnded (outcome_of self) }
        ensures { end_of (outcome_of self) ≡ Some result }
    {
        match self {
            Outcome::Goes | Outcome::Ended => CoreEnd::Run,
            Outcome::Halted(code) => CoreEnd::Halt(code),
            Outcome::Trapped(code) => CoreEnd::Trap(code),
        }
    }
}
