// Which of a node's links may have brought something.

use std::sync::atomic::{AtomicU64, Ordering};

/// How many places the bells of a node have.
pub const BELLS: usize = 128;

/// For each place of a node's links, 128 at most, whether a message may have been sent there since the node last listened. Threads share
/// it. It saves time alone: what a link brings is known from the link, and no clause speaks of a bell.
///
/// The bell of one place is rung by one node alone, so two never add the same bit.
#[derive(Drop)]
pub struct Bells {
    low: AtomicU64,
    high: AtomicU64,
}

/// Places whose bells were rung.
#[derive(Clone, Copy, Debug, PartialEq, Eq)]
pub struct Rung {
    low: u64,
    high: u64,
}

// The bits of a word, which has none then. Where it has none it is only read, so that threads needn't pass its cache line on.
fn taken(word: &AtomicU64) -> u64 {
    if word.load(Ordering::SeqCst) == 0 {
        return 0;
    }
    word.swap(0, Ordering::SeqCst)
}

impl Bells {
    /// No bell is rung.
    pub fn new() -> Bells {
        Bells {
            low: AtomicU64::new(0),
            high: AtomicU64::new(0),
        }
    }

    /// Rings the bell of a place, by its number modulo 128. To be called after the message was sent. It takes constant time and no memory.
    pub fn ring(&self, place: usize) {
        let bit = 1u64 << (place % 64);
        let word = if place % BELLS < 64 {
            &self.low
        } else {
            &self.high
        };
        if word.load(Ordering::SeqCst) & bit == 0 {
            word.fetch_add(bit, Ordering::SeqCst);
        }
    }

    /// The places whose bells were rung since the last call. To be called before their links are asked.
    pub fn listen(&self) -> Rung {
        Rung {
            low: taken(&self.low),
            high: taken(&self.high),
        }
    }
}

impl Default for Bells {
    fn default() -> Bells {
        Bells::new()
    }
}

impl Rung {
    /// No place.
    pub fn none() -> Rung {
        Rung { low: 0, high: 0 }
    }

    /// These places and those.
    pub fn and(self, other: Rung) -> Rung {
        Rung {
            low: self.low | other.low,
            high: self.high | other.high,
        }
    }

    /// The first of the places; `BELLS` where there is none.
    pub fn first(&self) -> usize {
        if self.low != 0 {
            return self.low.trailing_zeros() as usize;
        }
        64 + self.high.trailing_zeros() as usize
    }

    /// All places but the first.
    pub fn rest(self) -> Rung {
        if self.low != 0 {
            return Rung {
                low: self.low & (self.low - 1),
                high: self.high,
            };
        }
        Rung {
            low: 0,
            high: self.high & self.high.wrapping_sub(1),
        }
    }
}
