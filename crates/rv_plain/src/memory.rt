// RAM with a write buffer before it: what a transaction stores waits here until it commits.
ghost use Rattle.std.specs.Prelude.{◌≡◌, ℕ, ◌<◌, ◌≤◌, ◌*◌, ◌/◌, IfOk, OnOk, OnErr, Some, [], length};
ghost use Rattle.image_load.specs.Contents.{started};
ghost use Rattle.rv_plain.specs.Buffered.{seen};
ghost use Rattle.image_load.specs.Start.{first_ram};
ghost use Rattle.rv_plain.specs.Store.{buffer_of, IsInside};
ghost use Rattle.tcc_base.specs.Put.{put};
ghost use Rattle.rules_program.specs.Ram.{flat};

use rv_code::Code;
use std::alloc::Global;
use std::collections::BTreeMap;
use std::marker::Model;
use tcc_base::{List, NoMemory, WordAddr};

/// RAM by word, and the words that wait to be written to it.
#[derive(Debug, Drop)]
pub struct BufferedRam {
    ram: Vec<u32>,
    buffer: BTreeMap<u32, u32>,
}

impl Model for BufferedRam {
    ghost use Rattle.std.specs.Prelude.{length};
    ghost use Rattle.rv_plain.specs.Store.{Store, IsInside};

    ghost Value = { Store };

    ghost view = { λ m. record { ram = m.ram.items; waiting = m.buffer.entries } };

    ghost invariant = { λ m. IsInside (length m.ram.items) m.buffer.entries };
}

#[tactic(auto, unfolding(crate::specs::Store::buffer_of, crate::specs::Buffered::seen, rules_program::specs::Ram::flat))]
impl BufferedRam {
    /// RAM as it was loaded. Nothing waits.
    pub fn new(alloc: Global, code: &Code) -> Result<BufferedRam, NoMemory>
        ensures length { IfOk result (λ m. 4 * length m.ram ≡ code.now.settings.ram) }
        ensures ram { IfOk result (λ m. flat m.ram ≡ first_ram (started code.now)) }
        ensures buffer { IfOk result (λ m. m.waiting ≡ []) }
    {
        let words = code.config().words();
        let mut ram = Vec::with_capacity(alloc, words as usize).map_err(|_| NoMemory)?;
        for w in 0..words {
            ram.push(code.word(WordAddr(w))).map_err(|_| NoMemory)?;
        }
        Ok(BufferedRam {
            ram,
            buffer: BTreeMap::new(alloc),
        })
    }

    /// RAM with these words. Nothing waits, and no memory is taken.
    pub(crate) fn of_words(alloc: Global, words: List<u32>) -> BufferedRam
        ensures { result ≡ record { ram = words; waiting = [] } }
    {
        BufferedRam {
            ram: words.items,
            buffer: BTreeMap::new(alloc),
        }
    }

    /// The same RAM, with nothing waiting. Takes time and memory in RAM's words.
    pub(crate) fn copy(&self, alloc: Global) -> Result<BufferedRam, NoMemory>
        ensures ram { IfOk result (λ m. m.ram ≡ self.now.ram) }
        ensures buffer { IfOk result (λ m. m.waiting ≡ []) }
    {
        let ram = self.ram.to_vec(alloc).map_err(|_| NoMemory)?;
        Ok(BufferedRam {
            ram,
            buffer: BTreeMap::new(alloc),
        })
    }

    /// RAM's words in order, whatever waits. Takes no memory.
    pub(crate) fn ram(&self) -> &[u32]
        ensures { result.now ≡ self.now.ram }
    {
        &self.ram
    }

    /// The number of RAM's words.
    pub fn words(&self) -> usize
        ensures { result ≡ length self.now.ram }
    {
        self.ram.len()
    }

    /// A word of RAM, whatever waits. Constant time.
    pub fn word(&self, w: u32) -> u32
        requires { w < length self.now.ram }
        ensures { result ≡ flat self.now.ram w }
    {
        self.ram[w as usize]
    }

    /// A word as the transaction sees it: what waits for it, else RAM's. Takes the logarithm of what waits.
    pub fn read(&self, w: u32) -> u32
        requires { w < length self.now.ram }
        ensures { result ≡ seen (flat self.now.ram) (buffer_of self.now.waiting) w }
    {
        match self.buffer.get(&w) {
            Some(v) => *v,
            None => self.ram[w as usize],
        }
    }

    /// Lets a value wait for a word; after want of memory nothing has changed. Takes the logarithm of what waits.
    pub fn write(&mut self, w: u32, value: u32) -> Result<(), NoMemory>
        requires { w < length self.old.ram }
        ensures ram { self.new.ram ≡ self.old.ram }
        ensures written { OnOk result (buffer_of self.new.waiting ≡ put (buffer_of self.old.waiting) w (Some value)) }
        ensures unchanged { OnErr result (self.new ≡ self.old) }
    {
        match self.buffer.insert(w, value) {
            Ok(_) => Ok(()),
            Err(_) => Err(NoMemory),
        }
    }

    /// Writes all that waits to RAM. Takes time in what waits, and no memory.
    pub fn publish(&mut self)
        ensures length { length self.new.ram ≡ length self.old.ram }
        ensures ram { flat self.new.ram ≡ seen (flat self.old.ram) (buffer_of self.old.waiting) }
        ensures buffer { self.new.waiting ≡ [] }
    {
        drain(&mut self.ram, &mut self.buffer);
    }

    /// Forgets all that waits. Takes no memory.
    pub fn discard(&mut self)
        ensures ram { self.new.ram ≡ self.old.ram }
        ensures buffer { self.new.waiting ≡ [] }
    {
        self.buffer.clear();
    }
}

#[tactic(auto, unfolding(crate::specs::Store::buffer_of, crate::specs::Buffered::seen, rules_program::specs::Ram::flat))]
fn drain(ram: &mut [u32], buffer: &mut BTreeMap<u32, u32>)
    requires { IsInside (length ram.old) buffer.old.entries }
    ensures ram { flat ram.new ≡ seen (flat ram.old) (buffer_of buffer.old.entries) }
    ensures buffer { buffer.new.entries ≡ [] }
{
    while let Some((w, value)) = buffer.pop_first() {
        ram[w as usize] = value;
    }
}
