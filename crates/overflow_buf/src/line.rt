// The kept words of one line.
ghost use Rattle.std.specs.Prelude.{◌≡◌, ◌≢◌, ◌<◌, ℕ, Option, Some, None, get_or, cond, ◌==◌};
ghost use Rattle.rules_maps.specs.Masks.{has as has_word, masked};
ghost use Rattle.overflow_buf.specs.Kept.{word_in, merged, IsLine, IsSpilled};

use tcc_base::{LineAddr, Mask, Tagged, Tid};

/// The words of a line under a mask.
#[derive(Clone, Copy, Debug, PartialEq, Eq)]
pub(crate) struct SpilledLine {
    pub mask: Mask,
    pub words: [u32; 8],
}

impl SpilledLine {
    /// The value that is kept of the word at place `k`.
    #[tactic(auto, unfolding(crate::specs::Kept::word_in))]
    pub fn word(&self, k: usize) -> Option<u32>
        requires { k < 8 }
        ensures { result ≡ word_in (Some self.now) k }
    {
        if has(self.mask.0, k) {
            Some(self.words[k])
        } else {
            None
        }
    }

    /// The kept words with the TID of their commit.
    pub fn tagged(&self, line: LineAddr, tid: Tid) -> Tagged
        ensures { result ≡ record { line = line; mask = self.now.mask; words = masked self.now.mask.0 self.now.words; tag = tid } }
    {
        Tagged {
            line,
            mask: self.mask,
            words: masked_words(self.mask.0, &self.words),
            tag: tid,
        }
    }
}

/// What is kept of a line after the masked words are new, of which there is one at least.
pub(crate) fn with_words(old: Option<SpilledLine>, mask: u8, words: &[u32; 8]) -> SpilledLine
    requires some { mask ≢ 0 }
    requires in_order { IsLine old }
    ensures words { (k : ℕ) → k < 8 → word_in (Some result) k ≡ cond (has_word mask k) (Some (get_or words.now k 0)) (word_in old k) }
    ensures in_order { IsSpilled result }
{
    match old {
        None => SpilledLine {
            mask: Mask(mask),
            words: *words,
        },
        Some(line) => SpilledLine {
            mask: Mask(line.mask.0 | mask),
            words: merged_words(mask, words, &line.words),
        },
    }
}

/// What is kept of a line after one word is new.
pub(crate) fn with_word(old: Option<SpilledLine>, k: usize, value: u32) -> SpilledLine
    requires inside { k < 8 }
    requires in_order { IsLine old }
    ensures words { (j : ℕ) → j < 8 → word_in (Some result) j ≡ cond (j == k) (Some value) (word_in old j) }
    ensures in_order { IsSpilled result }
{
    let mut words = [0; 8];
    words[k] = value;
    with_words(old, 1 << k, &words)
}

/// Whether the mask holds the word at place `k`.
fn has(mask: u8, k: usize) -> bool
    requires { k < 8 }
    ensures { result ≡ has_word mask k }
{
    mask >> k & 1 == 1
}

/// The words under the mask, zero elsewhere.
fn masked_words(mask: u8, words: &[u32; 8]) -> [u32; 8]
    ensures { result ≡ masked mask words.now }
{
    let mut kept = [0; 8];
    for k in 0..8 {
        if has(mask, k) {
            kept[k] = words[k];
        }
    }
    kept
}

/// The masked words new, and the others as they were.
fn merged_words(mask: u8, new: &[u32; 8], old: &[u32; 8]) -> [u32; 8]
    ensures { result ≡ merged mask new.now old.now }
{
    let mut words = *old;
    for k in 0..8 {
        if has(mask, k) {
            words[k] = new[k];
        }
    }
    words
}
