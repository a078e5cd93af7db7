// The settings of a machine: how many nodes, the caches' shape, and where RAM lies.
ghost use Rattle.std.specs.Prelude.{◌≡◌, ℕ, ◌+◌, ◌-◌, ◌*◌, ◌/◌, ◌%◌, ◌^◌, ◌<◌, ◌≤◌, ◌↔◌, IsTrue, IfErr, IfOk};
ghost use Rattle.tcc_base.specs.Bytes.{bytes_of};
ghost use Rattle.tcc_base.specs.Settings.{IsAllowed, InRam, BreaksFirst};

use crate::access::Size;
use crate::names::{DirId, LineAddr};
use std::marker::Model;

/// The limits of a machine's settings, in the order in which they are tested.
#[derive(Clone, Copy, Debug, PartialEq, Eq)]
pub enum Limit {
    /// 1 to 64 cores.
    Cores,
    /// 1 to 64 directories.
    Dirs,
    /// A power of two from 1 to 1024 sets.
    Sets,
    /// 1 to 16 ways.
    Ways,
    /// 32 to 16,777,216 bytes of RAM, a multiple of 32.
    Ram,
    /// A base that is a multiple of 32, with base + RAM at most 2^32.
    Base,
}

/// A machine's settings, all within their limits.
#[derive(Clone, Copy, Debug, PartialEq, Eq)]
pub struct Config {
    cores: u8,
    dirs: u8,
    sets: u16,
    ways: u8,
    base: u32,
    ram: u32,
}

impl Model for Config {
    ghost use Rattle.tcc_base.specs.Settings.{Settings, IsAllowed};

    ghost Value = { Settings };

    ghost view = { λ c. record { cores = c.cores; dirs = c.dirs; sets = c.sets; ways = c.ways; base = c.base; ram = c.ram } };

    ghost invariant = { λ c. IsAllowed (record { cores = c.cores; dirs = c.dirs; sets = c.sets; ways = c.ways; base = c.base; ram = c.ram }) };

    ghost inverse = { λ s. record { cores = s.cores; dirs = s.dirs; sets = s.sets; ways = s.ways; base = s.base; ram = s.ram } };
}

impl Config {
    /// The settings, or the first limit that they break, in the order of `Limit`.
    pub fn new(
        cores: u64,
        dirs: u64,
        sets: u64,
        ways: u64,
        base: u64,
        ram: u64,
    ) -> Result<Config, Limit>
        ensures settings { IfOk result (λ c. c ≡ record { cores = cores; dirs = dirs; sets = sets; ways = ways; base = base; ram = ram }) }
        ensures allowed { IfOk result IsAllowed }
        ensures first_broken { IfErr result
            (BreaksFirst (record { cores = cores; dirs = dirs; sets = sets; ways = ways; base = base; ram = ram })) }
    {
        if !(1..=64).contains(&cores) {
            return Err(Limit::Cores);
        }
        if !(1..=64).contains(&dirs) {
            return Err(Limit::Dirs);
        }
        if !sets.is_power_of_two() || sets > 1024 {
            return Err(Limit::Sets);
        }
        if !(1..=16).contains(&ways) {
            return Err(Limit::Ways);
        }
        if !(32..=16_777_216).contains(&ram) || ram % 32 != 0 {
            return Err(Limit::Ram);
        }
        if base % 32 != 0 || base > 0x1_0000_0000 - ram {
            return Err(Limit::Base);
        }
        Ok(Config {
            cores: cores as u8,
            dirs: dirs as u8,
            sets: sets as u16,
            ways: ways as u8,
            base: base as u32,
            ram: ram as u32,
        })
    }

    /// The number of cores, 1 to 64.
    pub fn cores(&self) -> u8
        ensures value { result ≡ self.now.cores }
        ensures allowed { IsAllowed self.now }
    {
        self.cores
    }

    /// The number of directories, 1 to 64.
    pub fn dirs(&self) -> u8
        ensures value { result ≡ self.now.dirs }
        ensures allowed { IsAllowed self.now }
    {
        self.dirs
    }

    /// The number of a cache's sets, a power of two from 1 to 1024.
    pub fn sets(&self) -> u16
        ensures value { result ≡ self.now.sets }
        ensures allowed { IsAllowed self.now }
    {
        self.sets
    }

    /// The number of a set's ways, 1 to 16.
    pub fn ways(&self) -> u8
        ensures value { result ≡ self.now.ways }
        ensures allowed { IsAllowed self.now }
    {
        self.ways
    }

    /// The address of RAM's first byte, a multiple of 32.
    pub fn base(&self) -> u32
        ensures value { result ≡ self.now.base }
        ensures allowed { IsAllowed self.now }
    {
        self.base
    }

    /// The number of RAM's words of four bytes, 8 to 4,194,304.
    pub fn words(&self) -> u32
        ensures value { result ≡ self.now.ram / 4 }
        ensures allowed { IsAllowed self.now }
    {
        self.ram / 4
    }

    /// Whether all bytes of that size from the address on lie in RAM. The address needn't be aligned.
    pub fn in_ram(&self, addr: u32, size: Size) -> bool
        ensures { IsTrue result ↔ InRam self.now addr (bytes_of size) }
    {
        let first = addr as u64;
        let base = self.base as u64;
        base <= first && first + size.bytes() as u64 <= base + self.ram as u64
    }

    /// The number of the line of an address that lies in RAM.
    pub fn line_of(&self, addr: u32) -> LineAddr
        requires { InRam self.now addr 1 }
        ensures { result.0 ≡ (addr - self.now.base) / 32 }
    {
        LineAddr((addr - self.base) / 32)
    }

    /// The directory that keeps the line: its number modulo the number of directories.
    pub fn home(&self, line: LineAddr) -> DirId
        ensures value { result.0 ≡ line.0 % self.now.dirs }
        ensures exists { result.0 < self.now.dirs }
    {
        DirId((line.0 % self.dirs as u32) as u8)
    }
}
