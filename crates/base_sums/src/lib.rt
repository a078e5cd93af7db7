// Counts by place, kept with sums: which place the k-th of all that is counted falls in is found without passing over the places.
#![tactic(auto)]

mod blocks;
mod tree;

pub use tree::{MAX_PLACES, SumTree};
