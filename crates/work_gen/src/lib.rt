// Workloads: small programs of which each does the same kind of transaction over and over, as raw images.
#![tactic(auto)]

mod assembler;
mod program;
mod work;

pub use program::{MAX_NUMBER, workload};
pub use work::Work;
