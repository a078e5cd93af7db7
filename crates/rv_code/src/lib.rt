// A machine's program as it was loaded, each word of its code decoded once: what every core executes, whatever machine it is in.
#![tactic(auto)]

mod code;
mod start;

pub use code::Code;
pub use start::start_state;
