// The words that an attempt stored and that no frame of the cache has as modified, kept until it commits.
#![tactic(auto)]

mod buffer;
mod line;

pub use buffer::OverflowBuf;
