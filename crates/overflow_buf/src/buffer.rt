// The buffer: the kept words of all lines, in an index map by line.
ghost use Rattle.std.specs.Prelude.{◌≡◌, ◌≢◌, ◌<◌, ◌↔◌, ℕ, true, Option, Some, None, IsTrue, IfSome, IfNone, IfOk, OnOk, OnErr, cond};
ghost use Rattle.std.specs.Prelude.{length, slice_get, Contains, MatchOption, nat_eq, ◌==◌};
ghost use Rattle.std.specs.List.{AllPairs, IsDistinct};
ghost use Rattle.std.specs.Map.{keys_of};
ghost use Rattle.tcc_base.specs.Put.{put as put_value};
ghost use Rattle.rules_maps.specs.Bridge.{tagged_of};
ghost use Rattle.rules_maps.specs.Spilled.{none_spilled, spill as spill_words, holds as holds_word, spilled_mask, spilled_line};
ghost use Rattle.overflow_buf.specs.Kept.{IsBuffer, IsSpilled, kept_at, spilled, without_line};

use crate::line::{SpilledLine, with_word, with_words};
use indexmap::IndexMap;
use std::alloc::{AllocError, Global};
use std::marker::Model;
use tcc_base::{LineAddr, Mask, NoMemory, Tagged, Tid, WordAddr};

/// Spilled words by their line. Contracts speak of the map from a kept word to its value.
#[derive(Debug, Drop)]
pub struct OverflowBuf {
    lines: IndexMap<u32, SpilledLine>,
}

impl Model for OverflowBuf {
    ghost use Rattle.overflow_buf.specs.Kept.{Entries, IsBuffer};

    ghost Value = { Entries };

    ghost view = { λ b. b.lines.entries };

    ghost invariant = { λ b. IsBuffer b.lines.entries };
}

impl OverflowBuf {
    /// A buffer that keeps no word. Takes no memory.
    pub fn new(alloc: Global) -> OverflowBuf
        ensures { spilled result ≡ none_spilled }
    {
        OverflowBuf {
            lines: IndexMap::new(alloc),
        }
    }

    /// What is kept of a line.
    fn kept(&self, line: u32) -> Option<SpilledLine>
        ensures value { result ≡ kept_at self.now line }
        ensures in_order { IsBuffer self.now }
    {
        self.lines.get(&line).copied()
    }

    /// Keeps this of a line.
    fn keep(&mut self, line: u32, kept: SpilledLine) -> Result<(), NoMemory>
        requires { IsSpilled kept }
        ensures kept { OnOk result ((l : ℕ) → kept_at self.new l ≡ cond (line == l) (Some kept) (kept_at self.old l)) }
        ensures unchanged { OnErr result (self.new ≡ self.old) }
    {
        let Ok(_) = self.lines.insert(line, kept) else {
            return Err(NoMemory);
        };
        Ok(())
    }

    /// Keeps the masked words of a line; all other kept words stay. After want of memory the buffer is as before.
    pub fn spill(&mut self, line: LineAddr, mask: Mask, words: &[u32; 8]) -> Result<(), NoMemory>
        ensures kept { OnOk result (spilled self.new ≡ spill_words line.0 mask.0 words.now (spilled self.old)) }
        ensures unchanged { OnErr result (spilled self.new ≡ spilled self.old) }
    {
        if mask.0 == 0 {
            return Ok(());
        }
        let kept = with_words(self.kept(line.0), mask.0, words);
        self.keep(line.0, kept)?;
        Ok(())
    }

    /// The kept value of a word; None exactly where none is kept.
    pub fn get(&self, w: WordAddr) -> Option<u32>
        ensures { result ≡ spilled self.now w.0 }
    {
        match self.kept(w.0 / 8) {
            None => None,
            Some(kept) => kept.word(w.0 as usize % 8),
        }
    }

    /// Whether a word of the line is kept.
    pub fn holds(&self, line: LineAddr) -> bool
        ensures { result ≡ holds_word (spilled self.now) line.0 }
    {
        self.kept(line.0).is_some()
    }

    /// Keeps one word; all other kept words stay. After want of memory the buffer is as before.
    pub fn put(&mut self, w: WordAddr, value: u32) -> Result<(), NoMemory>
        ensures kept { OnOk result (spilled self.new ≡ put_value (spilled self.old) w.0 (Some value)) }
        ensures unchanged { OnErr result (spilled self.new ≡ spilled self.old) }
    {
        let line = w.0 / 8;
        let kept = with_word(self.kept(line), w.0 as usize % 8, value);
        self.keep(line, kept)?;
        Ok(())
    }

    /// The mask of the line's kept words, 0 where none is kept.
    pub fn mask(&self, line: LineAddr) -> Mask
        ensures { result.0 ≡ spilled_mask (spilled self.now) line.0 }
    {
        match self.kept(line.0) {
            None => Mask(0),
            Some(kept) => kept.mask,
        }
    }

    /// The line's kept words, with the TID as their tag; zero, and outside the mask, where a word isn't kept.
    pub fn line(&self, line: LineAddr, tid: Tid) -> Tagged
        ensures { tagged_of result ≡ spilled_line tid.0 (spilled self.now) line.0 }
    {
        match self.kept(line.0) {
            None => Tagged {
                line,
                mask: Mask(0),
                words: [0; 8],
                tag: tid,
            },
            Some(kept) => kept.tagged(line, tid),
        }
    }

    /// Whether no word is kept.
    pub fn is_empty(&self) -> bool
        ensures { IsTrue result ↔ (spilled self.now ≡ none_spilled) }
    {
        self.lines.is_empty()
    }

    /// The number of lines of which words are kept. It takes constant time.
    pub fn len(&self) -> usize
        ensures { result ≡ length self.now }
    {
        self.lines.len()
    }

    /// A line of which words are kept, with the mask of these words and with all eight words, as they are held: of those outside the mask
    /// nothing is known. Lines have the numbers below `len`, in no order; None where there is none of this number. It takes constant time.
    pub fn entry(&self, i: usize) -> Option<(LineAddr, Mask, [u32; 8])>
        ensures { MatchOption result (slice_get self.now i ≡ None)
            (λ e. slice_get self.now i ≡ Some (e.0.0, record { mask = e.1; words = e.2 })) }
    {
        match self.lines.get_index(i) {
            None => None,
            Some((line, kept)) => Some((LineAddr(*line), kept.mask, kept.words)),
        }
    }

    /// The keys of the map.
    fn keys(&self) -> Result<Vec<u32>, AllocError>
        ensures keys { IfOk result (λ v. v.items ≡ keys_of self.now) }
        ensures distinct { IfOk result (λ v. IsDistinct nat_eq v.items) }
        ensures in_order { IsBuffer self.now }
    {
        self.lines.keys().copied().collect(*self.lines.allocator())
    }

    /// The lines of which words are kept, each once, in no order. Takes memory for them.
    pub fn lines(&self) -> Result<Vec<u32>, NoMemory>
        ensures kept { IfOk result (λ v. (l : ℕ) → Contains v.items l ↔ (holds_word (spilled self.now) l ≡ true)) }
        ensures once { IfOk result (λ v. AllPairs (λ a b. a ≢ b) v.items) }
    {
        match self.keys() {
            Ok(lines) => Ok(lines),
            Err(_) => Err(NoMemory),
        }
    }

    /// Takes the kept words of some line away, and gives that line with the mask of these words; None exactly where no word is kept. It
    /// takes constant time and no memory.
    pub fn take_line(&mut self) -> Option<(LineAddr, Mask)>
        ensures none { IfNone result (spilled self.old ≡ none_spilled) }
        ensures same { IfNone result (self.new ≡ self.old) }
        ensures mask { IfSome result (λ t. t.1.0 ≡ spilled_mask (spilled self.old) t.0.0) }
        ensures taken { IfSome result (λ t. spilled self.new ≡ without_line t.0.0 (spilled self.old)) }
        ensures fewer { IfSome result (λ t. length self.new < length self.old) }
    {
        match self.lines.pop() {
            None => None,
            Some((line, kept)) => Some((LineAddr(line), kept.mask)),
        }
    }

    /// Keeps no word any more.
    pub fn clear(&mut self)
        ensures { spilled self.new ≡ none_spilled }
    {
        self.lines.clear();
    }
}
