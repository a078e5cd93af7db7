// What one core holds beside memory, registers, pc and reservation, and the checkpoint of it that a roll back restores.
#![tactic(auto)]

mod check;
mod regs;
mod state;

pub use check::Check;
pub use regs::Regs;
pub use state::State;
