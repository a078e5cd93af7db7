// The integer registers of one core; contracts see them as the list of their values.
ghost use Rattle.std.specs.Prelude.{◌≡◌};
ghost use Rattle.rules_program.specs.Registers.{zeroed, register, written};
ghost use Rattle.reg_checkpoint.specs.Registers.{IsRegisters};

use std::marker::Model;
use tcc_base::Reg;

/// The 32 integer registers x0 to x31 of one core, each of 32 bits (RISC-V Unprivileged ISA, 2.1).
///
/// A contract sees the list of their values, in the order of their numbers. x0 is always zero.
#[derive(Clone, Copy, Debug, PartialEq, Eq)]
pub struct Regs {
    values: [u32; 32],
}

impl Model for Regs {
    ghost use Rattle.std.specs.Prelude.{List, ℕ};
    ghost use Rattle.reg_checkpoint.specs.Registers.{IsRegisters};

    ghost Value = { List ℕ };

    ghost view = { λ a. a.values };

    ghost invariant = { λ a. IsRegisters a.values };

    ghost inverse = { λ values. record { values = values } };
}

#[tactic(auto, unfolding(rules_program::specs::Registers::zeroed, rules_program::specs::Registers::register, rules_program::specs::Registers::written))]
impl Regs {
    /// All 32 registers zero. Takes no memory.
    pub fn new() -> Regs
        ensures { result ≡ zeroed }
    {
        Regs { values: [0; 32] }
    }

    /// The value of a register, which is zero for x0. Constant time.
    pub fn get(&self, r: Reg) -> u32
        ensures value { result ≡ register self.now r }
        ensures registers { IsRegisters self.now }
    {
        self.values[r.number() as usize]
    }

    /// Gives register `r` the value `v`, and changes no other; x0 stays zero. Constant time, and takes no memory.
    pub fn set(&mut self, r: Reg, v: u32)
        ensures { self.new ≡ written self.old r v }
    {
        let number = r.number() as usize;
        if number != 0 {
            self.values[number] = v;
        }
    }
}
