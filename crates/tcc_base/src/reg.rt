// The number of one of the 32 integer registers.
ghost use Rattle.std.specs.Prelude.{◌≡◌, ℕ, ◌<◌, ◌↔◌, IsSome, IfSome};

use std::marker::Model;

/// An integer register's number, 0 to 31 (RISC-V Unprivileged ISA, 2.1).
#[derive(Clone, Copy, Debug, PartialEq, Eq, PartialOrd, Ord, Hash)]
pub struct Reg(u8);

impl Model for Reg {
    ghost Value = { ℕ };

    ghost view = { λ r. r.0 };

    ghost invariant = { λ r. r.0 < 32 };

    ghost inverse = { λ n. record { 0 = n } };
}

impl Reg {
    /// The register of that number; None exactly where it isn't below 32.
    pub fn new(n: u8) -> Option<Reg>
        ensures valid { IsSome result ↔ (n < 32) }
        ensures value { IfSome result (λ r. r ≡ n) }
    {
        if n < 32 { Some(Reg(n)) } else { None }
    }

    /// The register's number, below 32.
    pub fn number(&self) -> u8
        ensures value { result ≡ self.now }
        ensures below { self.now < 32 }
    {
        self.0
    }
}
