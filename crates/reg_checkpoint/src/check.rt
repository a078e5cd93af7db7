// A checkpoint: a core's state as it was when its transaction began.
ghost use Rattle.std.specs.Prelude.{◌≡◌};

use crate::regs::Regs;
use crate::state::State;
use std::marker::Model;

/// The state of a core at one moment, to which a roll back returns.
#[derive(Clone, Copy, Debug, PartialEq, Eq)]
pub struct Check {
    state: State,
}

impl Model for Check {
    ghost use Rattle.rules_program.specs.Program.{Local};

    ghost Value = { Local };

    ghost view = { λ c. c.state };

    ghost inverse = { λ l. record { state = l } };
}

impl Check {
    /// A copy of the state. Takes no memory.
    pub fn save(state: &State) -> Check
        ensures { result ≡ state.now }
    {
        Check { state: *state }
    }

    /// The state as it was saved. Takes no memory.
    pub fn restore(&self) -> State
        ensures { result ≡ self.now }
    {
        self.state
    }

    /// The registers as they were saved.
    pub fn regs(&self) -> &Regs
        ensures { result.now ≡ self.now.regs }
    {
        self.state.regs()
    }

    /// The pc as it was saved, in bytes.
    pub fn pc(&self) -> u32
        ensures { result ≡ self.now.pc }
    {
        self.state.pc()
    }
}
