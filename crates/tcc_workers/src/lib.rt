// Workers: threads that take turns at the nodes of a farm, and one that goes round after them.
#![tactic(auto)]

mod plan;
mod shift;
mod slots;
mod turns;
mod working;

pub use plan::{Ended, WorkPlan};
pub use shift::Shift;
pub use turns::{AtFarm, Call, Turns};
pub use working::work;
