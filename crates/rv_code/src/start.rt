// What a core holds when its machine starts.
ghost use Rattle.std.specs.Prelude.{◌≡◌};
ghost use Rattle.rv_code.specs.Machine.{start_regs, start_local};

use reg_checkpoint::{Regs, State};
use tcc_base::Reg;

/// A core at its start: x10 is its number, x11 the number of cores, all other registers are zero, and the pc is its entry.
pub fn start_state(cores: u8, core: u8, entry: u32) -> State
    ensures { result ≡ start_local cores core entry }
{
    State::new(start_regs(cores, core), entry)
}

#[tactic(auto, unfolding(crate::specs::Machine::start_regs))]
fn start_regs(cores: u8, core: u8) -> Regs
    ensures { result ≡ start_regs cores core }
{
    let mut regs = Regs::new();
    if let Some(x10) = Reg::new(10) {
        regs.set(x10, core as u32);
    }
    if let Some(x11) = Reg::new(11) {
        regs.set(x11, cores as u32);
    }
    regs
}
