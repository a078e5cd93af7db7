// A machine's program as it was loaded: the instruction at a core's pc, and what that needs.
ghost use Rattle.std.specs.Prelude.{◌≡◌, ◌+◌, ◌*◌, ◌<◌, ◌≤◌, ◌/◌, ◌^◌, ℕ, IfOk, IfSome, MatchResult};
ghost use Rattle.image_load.specs.Contents.{started};
ghost use Rattle.rv_code.specs.Instructions.{Runs, FailsToFetch, Finds, AreFound};
ghost use Rattle.rv_code.specs.Machine.{in_ram};
ghost use Rattle.rv_code.specs.Served.{IsServed};
ghost use Rattle.rv_exec.specs.Effects.{planned};
ghost use Rattle.rv_exec.specs.Needs.{need_of, IsPlanned};
ghost use Rattle.rv_exec.specs.Running.{bounded};

use image_load::Loaded;
use reg_checkpoint::State;
use rv_decode::{Inst, decode};
use rv_exec::{Need, plan};
use std::alloc::Global;
use std::marker::Model;
use tcc_base::{Config, CoreId, NoMemory, Size, WordAddr};

/// A loaded memory as a machine's program, whose words of code are decoded once, when it is made. A fetch never sees what was
/// stored later. One such program serves all cores.
#[derive(Debug, Drop)]
pub struct Code {
    loaded: Loaded,
    insts: Vec<Option<Inst>>,
}

impl Model for Code {
    ghost use Rattle.image_load.specs.Contents.{Contents};
    ghost use Rattle.rv_code.specs.Instructions.{AreFound};

    ghost Value = { Contents };

    ghost view = { λ c. c.loaded };

    ghost invariant = { λ c. AreFound c.loaded c.insts.items };
}

impl Code {
    /// The program of a loaded memory. Takes time and memory in RAM's words up to the last one with an instruction.
    pub fn new(alloc: Global, loaded: Loaded) -> Result<Code, NoMemory>
        ensures { IfOk result (λ c. c ≡ loaded) }
    {
        let words = code_words(&loaded);
        let insts = decode_words(alloc, &loaded, words)?;
        Ok(Code { loaded, insts })
    }

    /// The same program. Takes time and memory in RAM's bytes.
    pub fn copy(&self, alloc: Global) -> Result<Code, NoMemory>
        ensures { IfOk result (λ c. c ≡ self.now) }
    {
        Code::new(alloc, self.loaded.copy()?)
    }

    /// The settings of the machine. Takes no memory.
    pub fn config(&self) -> &Config
        ensures { result.now ≡ self.now.settings }
    {
        self.loaded.config()
    }

    /// The address at which a core begins. Takes no memory.
    pub fn entry(&self, core: CoreId) -> u32
        ensures { result ≡ (started self.now).entry core.0 }
    {
        self.loaded.entry(core)
    }

    /// The word that RAM's word of that number holds at the start. Constant time.
    pub fn word(&self, w: WordAddr) -> u32
        requires { w.0 < self.now.settings.ram / 4 }
        ensures { result ≡ (started self.now).word w.0 }
    {
        self.loaded.word(w)
    }

    /// The instruction that a core at this state executes, or the trap that fetching it is: 1 where a byte is no code, 2 where
    /// the word is no instruction. Constant time, takes no memory; an instruction isn't decoded again.
    pub fn inst(&self, at: &State) -> Result<Inst, u8>
        ensures { MatchResult result (Runs (started self.now) at.now) (FailsToFetch (started self.now) at.now) }
    {
        match self.kept(at.pc()) {
            Some(inst) => Ok(inst),
            None => fetch(&self.loaded, at),
        }
    }

    /// The instruction that is kept for an address. There is none where the address is no multiple of four.
    fn kept(&self, pc: u32) -> Option<Inst>
        ensures { IfSome result (Finds ((started self.now).fetch pc)) }
    {
        let base = self.loaded.config().base();
        if pc < base || (pc - base) % 4 != 0 {
            return None;
        }
        match self.insts.get(((pc - base) / 4) as usize) {
            Some(inst) => *inst,
            None => None,
        }
    }

    /// What an instruction needs at a core's state; a trap where its access lies outside RAM, 5 for a load and 7 for a store or
    /// an atomic memory operation. Constant time, takes no memory.
    #[inline(always)]
    pub fn plan(&self, inst: &Inst, at: &State) -> Need
        ensures need { need_of result ≡ bounded (in_ram self.now.settings) (planned inst.now at.now) }
        ensures served { IsServed self.now.settings.base self.now.settings.ram result }
    {
        self.bounded(plan(inst, at))
    }

    #[tactic(auto, unfolding(crate::specs::Machine::in_ram))]
    #[inline(always)]
    fn bounded(&self, need: Need) -> Need
        requires { IsPlanned need }
        ensures need { need_of result ≡ bounded (in_ram self.now.settings) (need_of need) }
        ensures served { IsServed self.now.settings.base self.now.settings.ram result }
    {
        let config = self.loaded.config();
        match need {
            Need::Load { addr, size } if !config.in_ram(addr, size) => Need::Trap(5),
            Need::Store { addr, size, .. } if !config.in_ram(addr, size) => Need::Trap(7),
            Need::Amo { addr, .. } if !config.in_ram(addr, Size::Word) => Need::Trap(7),
            _ => need,
        }
    }
}

/// The instruction at a core's pc, or the trap that fetching it is.
fn fetch(loaded: &Loaded, at: &State) -> Result<Inst, u8>
    ensures { MatchResult result (Runs (started loaded.now) at.now) (FailsToFetch (started loaded.now) at.now) }
{
    match loaded.fetch(at.pc()) {
        None => Err(1),
        Some(word) => match decode(word) {
            None => Err(2),
            Some(inst) => Ok(inst),
        },
    }
}

/// The instruction at an address, where there is one.
fn inst_at(loaded: &Loaded, pc: u32) -> Option<Inst>
    ensures { IfSome result (Finds ((started loaded.now).fetch pc)) }
{
    match loaded.fetch(pc) {
        None => None,
        Some(word) => decode(word),
    }
}

/// How many of RAM's words there are up to the last one that is an instruction.
fn code_words(loaded: &Loaded) -> u32
    ensures { result ≤ loaded.now.settings.ram / 4 }
{
    let base = loaded.config().base();
    for w in (0..loaded.config().words()).rev() {
        if inst_at(loaded, base + 4 * w).is_some() {
            return w + 1;
        }
    }
    0
}

/// The instructions of RAM's first words.
fn decode_words(alloc: Global, loaded: &Loaded, words: u32) -> Result<Vec<Option<Inst>>, NoMemory>
    requires { words ≤ loaded.now.settings.ram / 4 }
    ensures { IfOk result (λ insts. AreFound loaded.now insts.items) }
{
    let base = loaded.config().base();
    let mut insts = Vec::with_capacity(alloc, words as usize).map_err(|_| NoMemory)?;
    for w in 0..words {
        insts
            .push(inst_at(loaded, base + 4 * w))
            .map_err(|_| NoMemory)?;
    }
    Ok(insts)
}
