// What a core holds beside memory: its registers, its pc and its reservation.
ghost use Rattle.std.specs.Prelude.{◌≡◌, Some, None};
ghost use Rattle.rules_program.specs.Program.{unreserved};
ghost use Rattle.rules_program.specs.Registers.{register, written};

use crate::regs::Regs;
use std::marker::Model;
use tcc_base::Reg;

/// The registers of one core, its pc in bytes, and the address that a load-reserved named, where one is reserved.
#[derive(Clone, Copy, Debug, PartialEq, Eq)]
pub struct State {
    regs: Regs,
    pc: u32,
    reserved: Option<u32>,
}

impl Model for State {
    ghost use Rattle.rules_program.specs.Program.{Local};

    ghost Value = { Local };

    ghost view = { λ s. record { regs = s.regs; pc = s.pc; reserved = s.reserved } };

    ghost inverse = { λ l. record { regs = l.regs; pc = l.pc; reserved = l.reserved } };
}

/// Each call takes constant time and no memory.
impl State {
    /// A core with these registers and this pc that has reserved nothing.
    pub fn new(regs: Regs, pc: u32) -> State
        ensures { result ≡ record { regs = regs; pc = pc; reserved = None } }
    {
        State {
            regs,
            pc,
            reserved: None,
        }
    }

    pub fn regs(&self) -> &Regs
        ensures { result.now ≡ self.now.regs }
    {
        &self.regs
    }

    /// The value of a register, which is zero for x0.
    pub fn get(&self, r: Reg) -> u32
        ensures { result ≡ register self.now.regs r }
    {
        self.regs.get(r)
    }

    /// Gives register `r` the value `v`; x0 stays zero.
    pub fn set(&mut self, r: Reg, v: u32)
        ensures { self.new ≡ record self.old { regs = written self.old.regs r v } }
    {
        self.regs.set(r, v);
    }

    pub fn pc(&self) -> u32
        ensures { result ≡ self.now.pc }
    {
        self.pc
    }

    pub fn go_to(&mut self, pc: u32)
        ensures { self.new ≡ record self.old { pc = pc } }
    {
        self.pc = pc;
    }

    /// The reserved address, in bytes.
    pub fn reserved(&self) -> Option<u32>
        ensures { result ≡ self.now.reserved }
    {
        self.reserved
    }

    /// Reserves an address, in place of the one that was reserved before.
    pub fn reserve(&mut self, addr: u32)
        ensures { self.new ≡ record self.old { reserved = Some addr } }
    {
        self.reserved = Some(addr);
    }

    /// Gives up the reservation.
    pub fn unreserve(&mut self)
        ensures { self.new ≡ unreserved self.old }
    {
        self.reserved = None;
    }
}
