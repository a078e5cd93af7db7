// A loaded memory: what never changes in a run.
ghost use Rattle.std.specs.Prelude.{◌≡◌, ◌/◌, ◌<◌, IfOk};

use crate::ram::{code_place, word_at};
use std::marker::Model;
use tcc_base::{Config, CoreId, NoMemory, WordAddr};

/// RAM, code and entries as images gave them, with the settings of the machine. Each byte of RAM has a mark that tells
/// whether it is code, so that reading a word and fetching an instruction take a few steps whatever the images are.
#[derive(Debug, Drop)]
pub struct Loaded {
    config: Config,
    ram: Vec<u8>,
    code: Vec<bool>,
    entries: Vec<u32>,
}

impl Model for Loaded {
    ghost use Rattle.std.specs.Prelude.{◌≡◌, ◌<◌, length};
    ghost use Rattle.image_load.specs.Contents.{Contents, IsSound};

    ghost Value = { Contents };

    ghost view = { λ l. record { settings = l.config; ram = l.ram.items; code = l.code.items; entries = l.entries.items } };

    ghost invariant = { λ l. IsSound (record { settings = l.config; ram = l.ram.items; code = l.code.items; entries = l.entries.items }) };
}

impl Loaded {
    ghost use Rattle.image_load.specs.Contents.{IsSound, started};

    /// A memory of these bytes, marks and entries.
    pub(crate) fn new(config: Config, ram: Vec<u8>, code: Vec<bool>, entries: Vec<u32>) -> Loaded
        requires { IsSound (record { settings = config; ram = ram.items; code = code.items; entries = entries.items }) }
        ensures { result ≡ record { settings = config; ram = ram.items; code = code.items; entries = entries.items } }
    {
        Loaded {
            config,
            ram,
            code,
            entries,
        }
    }

    /// The value of a word of RAM. It takes constant time.
    pub fn word(&self, w: WordAddr) -> u32
        requires { w.0 < self.now.settings.ram / 4 }
        ensures { result ≡ (started self.now).word w.0 }
    {
        word_at(&self.ram, 4 * w.0 as usize)
    }

    /// The instruction word at an address; None exactly where one of its four bytes lies outside all executable segments.
    /// It takes constant time.
    pub fn fetch(&self, pc: u32) -> Option<u32>
        ensures { result ≡ (started self.now).fetch pc }
    {
        let place = code_place(self.config.base(), &self.code, pc)?;
        Some(word_at(&self.ram, place))
    }

    /// The address at which a core begins: the entry of image `core` modulo the number of images.
    pub fn entry(&self, core: CoreId) -> u32
        ensures { result ≡ (started self.now).entry core.0 }
    {
        self.entries[core.0 as usize % self.entries.len()]
    }

    /// The settings with which the images were loaded.
    pub fn config(&self) -> &Config
        ensures { result.now ≡ self.now.settings }
    {
        &self.config
    }

    /// An equal value.
    pub fn copy(&self) -> Result<Loaded, NoMemory>
        ensures { IfOk result (λ copy. copy ≡ self.now) }
    {
        Ok(Loaded {
            config: self.config,
            ram: self.ram.clone().map_err(|_| NoMemory)?,
            code: self.code.clone().map_err(|_| NoMemory)?,
            entries: self.entries.clone().map_err(|_| NoMemory)?,
        })
    }
}
