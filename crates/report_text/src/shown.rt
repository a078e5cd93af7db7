// What a report is made from: the commits, the cores as they ended, and RAM now and as it was loaded.
ghost use Rattle.std.specs.Prelude.{◌≡◌, ℕ, ◌*◌, ◌<◌, length, map};
ghost use Rattle.std.specs.List.{range_with_len};
ghost use Rattle.report_text.specs.InLines.{in_lines};

use reg_checkpoint::Regs;
use std::marker::Model;
use tcc_base::{Commit, CoreEnd, LineAddr};
use work_gen::Work;

/// A memory of whole lines of eight words of four bytes, which can be read line by line.
///
/// To a contract it is the value of each word by its number, `words`, and the number of words, `count`.
pub trait ShownWords {
    ghost words: { Self → ℕ → ℕ };

    ghost count: { Self → ℕ };

    /// The number of lines.
    fn line_count(&self) -> usize
        ensures { 8 * result ≡ count self.now };

    /// The values of the eight words of a line, by its number from 0.
    fn line(&self, line: LineAddr) -> [u32; 8]
        requires { 8 * line.0 < count self.now }
        ensures { result ≡ map (words self.now) (range_with_len (8 * line.0) 8) };
}

impl ShownWords for &[[u32; 8]] {
    ghost words = { λ s. in_lines s.now };

    ghost count = { λ s. 8 * length s.now };

    fn line_count(&self) -> usize {
        self.len()
    }

    fn line(&self, line: LineAddr) -> [u32; 8] {
        let words = &self[line.0 as usize];
        [
            words[0], words[1], words[2], words[3], words[4], words[5], words[6], words[7],
        ]
    }
}

/// What a report shows of a core: how it stands, and what its committed transactions left.
///
/// `pc` is an address in bytes, and `console` has the bytes that the committed transactions printed, in order.
#[derive(Debug, Drop)]
pub struct CoreShown<'a> {
    pub end: CoreEnd,
    pub pc: u32,
    pub regs: Regs,
    pub console: &'a [u8],
}

impl<'a> Model for CoreShown<'a> {
    ghost use Rattle.report_text.specs.Shown.{ShownCore};

    ghost Value = { ShownCore };

    ghost view = { λ c. record { ended = c.end; pc = c.pc; regs = c.regs; console = c.console.now } };
}

/// What a report shows of a machine: the commits from first to last, the cores by number, and RAM as it is beside RAM as it
/// was loaded, both from the address `base` on.
#[derive_where(Clone, Copy)]
pub struct Ending<'a, R, L> {
    pub commits: &'a [Commit],
    pub cores: &'a [CoreShown<'a>],
    pub base: u32,
    pub ram: &'a R,
    pub loaded: &'a L,
}

/// What the summary of a trial is made from: the workload with its number of transactions, whether the run is done, how many
/// events it took, how many commits it made, and RAM as it is beside RAM as it was loaded.
#[derive_where(Clone, Copy)]
pub struct Trial<'a, R, L> {
    pub work: Work,
    pub number: u32,
    pub done: bool,
    pub events: u64,
    pub commits: usize,
    pub ram: &'a R,
    pub loaded: &'a L,
}
