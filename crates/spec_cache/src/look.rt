// What the cache answers to a load or a store, to an invalidation and to an eviction.
use tcc_base::{LineAddr, Mask, Tagged};

/// What a load or a store finds.
#[derive(Clone, Copy, Debug, PartialEq, Eq)]
pub enum Look {
    /// The word is there, with its value; 0 for the store of a whole word.
    Hit(u32),
    /// The word isn't there, and its line has a frame or may have one.
    Miss,
    /// No way of this set is free, and some way is unmarked.
    NeedsRoom(u16),
    /// All ways of this set hold marked frames.
    Overflow(u16),
}

/// What an invalidation met.
#[derive(Clone, Copy, Debug, PartialEq, Eq)]
pub struct Invalidated {
    /// A masked word was marked read.
    pub read_hit: bool,
    /// The line has a frame with a valid word still.
    pub keeps: bool,
}

/// What an evicted frame held: its modified words are those of the mask, its dirty ones are to be written back.
#[derive(Clone, Copy, Debug, PartialEq, Eq)]
pub struct Evicted {
    pub line: LineAddr,
    pub modified: Mask,
    pub words: [u32; 8],
    pub back: Option<Tagged>,
}
