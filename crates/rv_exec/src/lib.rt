// The effect of each instruction of RV32IMA: what it needs of its machine, and the registers, pc and reservation that it leaves.
#![tactic(auto)]

mod bytes;
mod finishing;
mod laws;
mod need;
mod operations;
mod outcome;
mod planning;

pub use bytes::{read as read_part, replace as replace_part};
pub use finishing::finish;
pub use laws::{divisions_and_products, program_runs_the_table};
pub use need::Need;
pub use operations::amo_value;
pub use outcome::Outcome;
pub use planning::plan;
