// The words of the lines that are at home at a directory, in one array.
ghost use Rattle.std.specs.Prelude.{◌≡◌, ℕ, ◌+◌, ◌*◌, ◌/◌, ◌^◌, ◌<◌, ◌≤◌, IfOk, length, replicate};
ghost use Rattle.rules_maps.specs.Words.{eight, word_at, line_of};
ghost use Rattle.rules_maps.specs.Masks.{has as has_word};
ghost use Rattle.dir_lines.specs.Home.{IsAtHome};
ghost use Rattle.dir_lines.specs.Words.{words_at, first_place, with_words, IsWritten};

use crate::pages::count;
use std::alloc::Global;
use std::marker::Model;
use tcc_base::{Config, DirId, LineAddr, Mask, NoMemory, WordAddr};

/// Eight words for each line that is at home at a directory. In a clause `words_at` makes of them a map of all words, which takes
/// for the words of other homes whatever stands elsewhere. No call but `new` takes memory, and all take constant time.
#[derive(Debug, Drop)]
pub struct HomeWords {
    cfg: Config,
    home: DirId,
    words: Vec<u32>,
}

impl Model for HomeWords {
    ghost use Rattle.dir_lines.specs.Words.{Words};

    ghost Value = { Words };

    ghost use Rattle.dir_lines.specs.WordsInside.{words_of, IsWords};

    ghost view = { words_of };

    ghost invariant = { IsWords };
}

impl HomeWords {
    /// Zero words. Its time and memory go with their number.
    pub fn new(alloc: Global, cfg: &Config, home: DirId) -> Result<Self, NoMemory>
        requires { home.0 < cfg.now.dirs }
        ensures { IfOk result (λ d. d.place ≡ record { shape = cfg.now; dir = home.0 }) }
    {
        let words = zeros(alloc, 8 * count(cfg, home))?;
        Ok(HomeWords {
            cfg: *cfg,
            home,
            words,
        })
    }

    /// The word of that number, of a line that is at home here.
    pub fn word(&self, w: WordAddr) -> u32
        requires { IsAtHome self.now.place (line_of w.0) }
        ensures { (elsewhere : ℕ → ℕ) → result ≡ words_at elsewhere self.now w.0 }
    {
        self.words[self.first(LineAddr(w.0 / 8)) + (w.0 % 8) as usize]
    }

    /// The words of a line that is at home here.
    pub fn line(&self, line: LineAddr) -> [u32; 8]
        requires { IsAtHome self.now.place line.0 }
        ensures { (elsewhere : ℕ → ℕ) → result ≡ eight (λ k. words_at elsewhere self.now (word_at line.0 k)) }
    {
        let at = self.first(line);
        let mut words = [0; 8];
        words.copy_from_slice(&self.words[at..at + 8]);
        words
    }

    /// Puts these words in the place of those of a line that is at home here, where the mask holds them.
    pub fn write(&mut self, line: LineAddr, mask: Mask, words: &[u32; 8])
        requires { IsAtHome self.old.place line.0 }
        ensures place { self.new.place ≡ self.old.place }
        ensures words { (elsewhere : ℕ → ℕ)
            → words_at elsewhere self.new ≡ with_words line.0 mask.0 words.now (words_at elsewhere self.old) }
    {
        let at = self.first(line);
        write_masked(self.words.as_mut_slice(), at, mask, words);
    }

    // Where a line's words begin.
    fn first(&self, line: LineAddr) -> usize
        requires { IsAtHome self.now.place line.0 }
        ensures place { result ≡ first_place self.now.place line.0 }
        ensures within { result + 8 ≤ length self.now.words }
    {
        8 * (line.0 / self.cfg.dirs() as u32) as usize
    }
}

// So many zero words.
fn zeros(alloc: Global, count: usize) -> Result<Vec<u32>, NoMemory>
    ensures { IfOk result (λ v. v.items ≡ replicate count 0) }
{
    let mut words = Vec::new(alloc);
    match words.resize(count, 0) {
        Ok(()) => Ok(words),
        Err(_) => Err(NoMemory),
    }
}

// Whether the mask holds the word at place `k`.
#[tactic(auto, using(crate::proofs::Bits::core_bits))]
fn holds(mask: Mask, k: usize) -> bool
    requires { k < 8 }
    ensures { result ≡ has_word mask.0 k }
{
    (mask.0 >> k) % 2 == 1
}

// Puts those of eight words that the mask holds at their places, which begin at `at`.
fn write_masked(all: &mut [u32], at: usize, mask: Mask, words: &[u32; 8])
    requires { at + 8 ≤ length all.old }
    ensures { IsWritten at mask.0 8 words.now all.old all.new }
{
    for k in 0..8 {
        if holds(mask, k) {
            all[at + k] = words[k];
        }
    }
}
