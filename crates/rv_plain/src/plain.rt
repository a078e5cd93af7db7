// The plain machine: one RAM, whole transactions one after another.
ghost use Rattle.std.specs.Prelude.{◌≡◌, ℕ, ◌+◌, ◌-◌, ◌*◌, ◌^◌, ◌<◌, ◌≤◌, IfOk, IfErr, OnErr, OnOk, IsErrAnd, MatchResult, IsSomeAnd, Some};
ghost use Rattle.std.specs.Prelude.{[], ◌++◌, length, slice_index, slice_index_or, slice_set};
ghost use Rattle.image_load.specs.Contents.{started};
ghost use Rattle.rv_plain.specs.Buffered.{seen};
ghost use Rattle.rv_plain.specs.Machine.{plain_start, start_core};
ghost use Rattle.rv_plain.specs.Cores.{core_of, no_state};
ghost use Rattle.rv_plain.specs.Endings.{IsFault, IsCoreFault};
ghost use Rattle.rv_plain.specs.Store.{buffer_of};
ghost use Rattle.rv_plain.specs.Transacts.{Transacts, steps_at};
ghost use Rattle.rules_program.specs.Ram.{flat};

use crate::attempt::Attempt;
use crate::memory::BufferedRam;
use image_load::Loaded;
use reg_checkpoint::{Regs, State};
use rv_code::{Code, start_state};
use rv_exec::Outcome;
use std::alloc::Global;
use std::marker::Model;
use tcc_base::{Commit, Config, CoreEnd, CoreId, List, Load, NoMemory, Stored, Tid, WordAddr};

/// Which core executes how many instructions under which TID.
#[derive(Clone, Copy, Debug, PartialEq, Eq)]
pub struct Order {
    pub tid: Tid,
    pub core: CoreId,
    pub n: u32,
}

/// What a transaction did.
#[derive(Debug, Drop)]
pub struct Done {
    pub loads: List<Load>,
    pub stores: List<Stored>,
    pub console: List<u8>,
}

/// Why instructions aren't a transaction.
#[derive(Clone, Copy, Debug, PartialEq, Eq)]
pub enum PlainFault {
    /// 0 where no instruction was asked for or the core has halted; else the number of the instruction that ends the
    /// transaction too early, or that is the last and doesn't end it.
    NotEnding(u32),
    Memory,
}

/// Why orders aren't a serial execution: the index, from 0, of the first order at fault.
#[derive(Clone, Copy, Debug, PartialEq, Eq)]
pub enum SerialFault {
    /// The order's TID isn't above the one before it, or is 0.
    NotRising(u64),
    /// The order isn't a transaction.
    NotEnding(u64),
    Memory,
}

/// A core of the plain machine between two transactions.
#[derive(Debug, Drop)]
pub struct CoreState {
    pub state: State,
    pub ended: CoreEnd,
    pub console: List<u8>,
}

/// The plain machine.
#[derive(Debug, Drop)]
pub struct Plain {
    alloc: Global,
    code: Code,
    memory: BufferedRam,
    cores: List<CoreState>,
}

impl Model for Plain {
    ghost use Rattle.std.specs.Prelude.{◌≡◌, ◌*◌, [], length};
    ghost use Rattle.rv_plain.specs.PlainState.{PlainState};

    ghost Value = { PlainState };

    ghost view = { λ p. record { loaded = p.code; ram = p.memory.ram; cores = p.cores } };

    ghost invariant = { λ p. (4 * length p.memory.ram ≡ p.code.settings.ram) × (p.memory.waiting ≡ []) × (length p.cores ≡ p.code.settings.cores) };
}

fn start_core(alloc: Global, cores: u8, core: u8, entry: u32) -> CoreState
    ensures { core_of result ≡ start_core cores core entry }
{
    CoreState {
        state: start_state(cores, core, entry),
        ended: CoreEnd::Run,
        console: List::new(alloc),
    }
}

fn copy_core(alloc: Global, core: &CoreState) -> Result<CoreState, NoMemory>
    ensures { IfOk result (λ c. c ≡ core.now) }
{
    let console = core.console.items.to_vec(alloc).map_err(|_| NoMemory)?;
    Ok(CoreState {
        state: core.state,
        ended: core.ended,
        console: List { items: console },
    })
}

fn copy_cores(alloc: Global, cores: &[CoreState]) -> Result<List<CoreState>, NoMemory>
    ensures { IfOk result (λ copy. copy ≡ cores.now) }
{
    let mut copy = List::new(alloc);
    for core in cores {
        copy.push(copy_core(alloc, core)?)?;
    }
    Ok(copy)
}

impl Plain {
    ghost use Rattle.rv_plain.specs.PlainState.{PlainState, plain_of, Did, IsPlainFault, HasNoTransaction};

    /// The machine before its first transaction: RAM as it was loaded, and each core at its entry. The memory was loaded
    /// with these settings; the machine keeps a copy of it.
    pub fn start(alloc: Global, config: &Config, loaded: &Loaded) -> Result<Plain, NoMemory>
        requires { loaded.now.settings ≡ config.now }
        ensures loaded { IfOk result (λ p. p.loaded ≡ loaded.now) }
        ensures started { IfOk result (λ p. plain_of p ≡ plain_start (started loaded.now)) }
    {
        let copy = loaded.copy()?;
        let code = Code::new(alloc, copy)?;
        let memory = BufferedRam::new(alloc, &code)?;
        let mut cores = List::new(alloc);
        for core in 0..config.cores() {
            cores.push(start_core(alloc, config.cores(), core, loaded.entry(CoreId(core))))?;
        }
        Ok(Plain {
            alloc,
            code,
            memory,
            cores,
        })
    }

    /// The machine with this RAM and these cores, between two transactions of the program that was loaded: RAM's words in order, and a
    /// core for each of the machine's. The machine keeps them, and a copy of what was loaded.
    pub fn restored(
        alloc: Global,
        loaded: &Loaded,
        ram: List<u32>,
        cores: List<CoreState>,
    ) -> Result<Plain, NoMemory>
        requires ram { 4 * length ram ≡ loaded.now.settings.ram }
        requires cores { length cores ≡ loaded.now.settings.cores }
        ensures { IfOk result (λ p. p ≡ record { loaded = loaded.now; ram = ram; cores = cores }) }
    {
        let code = Code::new(alloc, loaded.copy()?)?;
        Ok(Plain {
            alloc,
            code,
            memory: BufferedRam::of_words(alloc, ram),
            cores,
        })
    }

    /// The machine's settings. Takes no memory.
    pub fn config(&self) -> &Config
        ensures { result.now ≡ self.now.loaded.settings }
    {
        self.code.config()
    }

    /// Where the machine takes its memory from.
    pub(crate) fn alloc(&self) -> Global {
        self.alloc
    }

    /// A machine in the same state. Takes time and memory in RAM's words.
    pub(crate) fn copy(&self) -> Result<Plain, NoMemory>
        ensures { IfOk result (λ p. p ≡ self.now) }
    {
        let code = self.code.copy(self.alloc)?;
        let memory = self.memory.copy(self.alloc)?;
        let cores = copy_cores(self.alloc, &self.cores.items)?;
        Ok(Plain {
            alloc: self.alloc,
            code,
            memory,
            cores,
        })
    }

    /// RAM's words in order. Takes no memory.
    pub fn ram(&self) -> &[u32]
        ensures value { result.now ≡ self.now.ram }
        ensures whole { 4 * length self.now.ram ≡ self.now.loaded.settings.ram }
    {
        self.memory.ram()
    }

    /// The cores in the order of their numbers. Takes no memory.
    pub fn cores(&self) -> &[CoreState]
        ensures value { result.now ≡ self.now.cores }
        ensures all { length self.now.cores ≡ self.now.loaded.settings.cores }
    {
        &self.cores.items
    }

    /// A word of RAM. Constant time, takes no memory.
    pub fn word(&self, w: WordAddr) -> u32
        requires { 4 * w.0 < self.now.loaded.settings.ram }
        ensures { result ≡ flat self.now.ram w.0 }
    {
        self.memory.word(w.0)
    }

    /// A core's registers. Takes no memory.
    pub fn regs(&self, core: CoreId) -> &Regs
        requires { core.0 < self.now.loaded.settings.cores }
        ensures { result.now ≡ (slice_index_or self.now.cores core.0 no_state).state.regs }
    {
        self.cores.items[core.0 as usize].state.regs()
    }

    /// A core's pc. Takes no memory.
    pub fn pc(&self, core: CoreId) -> u32
        requires { core.0 < self.now.loaded.settings.cores }
        ensures { result ≡ (slice_index_or self.now.cores core.0 no_state).state.pc }
    {
        self.cores.items[core.0 as usize].state.pc()
    }

    /// How a core stands. Takes no memory.
    pub fn ended(&self, core: CoreId) -> CoreEnd
        requires { core.0 < self.now.loaded.settings.cores }
        ensures { result ≡ (slice_index_or self.now.cores core.0 no_state).ended }
    {
        self.cores.items[core.0 as usize].ended
    }

    /// The console bytes of a core's transactions, one after another. Takes no memory.
    pub fn console(&self, core: CoreId) -> &[u8]
        requires { core.0 < self.now.loaded.settings.cores }
        ensures { result.now ≡ (slice_index_or self.now.cores core.0 no_state).console }
    {
        &self.cores.items[core.0 as usize].console.items
    }

    /// Executes exactly `n` instructions of the core, of which the n-th ends the transaction and no earlier one does.
    ///
    /// `NotEnding(0)` comes exactly where `n` is 0 or the core has halted, `NotEnding(k)` exactly where instruction k ends
    /// the transaction too early or is the last and doesn't end it. After an error the machine is as before.
    pub fn transaction(&mut self, core: CoreId, n: u32) -> Result<Done, PlainFault>
        requires { core.0 < self.old.loaded.settings.cores }
        ensures did { IfOk result (Did self.old core.0 n self.new) }
        ensures fault { IfErr result (IsPlainFault self.old core.0 n) }
        ensures none { IfErr result (HasNoTransaction self.old core.0 n) }
        ensures loaded { self.new.loaded ≡ self.old.loaded }
        ensures unchanged { OnErr result (self.new ≡ self.old) }
    {
        execute_core(
            self.alloc,
            &self.code,
            &mut self.memory,
            &mut self.cores,
            core,
            n,
        )
    }
}

fn execute_core(
    alloc: Global,
    code: &Code,
    memory: &mut BufferedRam,
    cores: &mut List<CoreState>,
    core: CoreId,
    n: u32,
) -> Result<Done, PlainFault>
    requires exists { core.0 < length cores.old }
    requires whole { 4 * length memory.old.ram ≡ code.now.settings.ram }
    requires empty { memory.old.waiting ≡ [] }
    ensures does { IfOk result (Transacts code.now (slice_index_or cores.old core.0 no_state) (slice_index_or cores.new core.0 no_state)
        memory.old memory.new n) }
    ensures fault { IfErr result (IsCoreFault (slice_index_or cores.old core.0 no_state).ended
        (steps_at code.now (slice_index_or cores.old core.0 no_state) memory.old) n) }
    ensures others { cores.new ≡ slice_set cores.old core.0 (slice_index_or cores.new core.0 no_state) }
    ensures length { length memory.new.ram ≡ length memory.old.ram }
    ensures empty { memory.new.waiting ≡ [] }
    ensures cores_unchanged { OnErr result (cores.new ≡ cores.old) }
    ensures memory_unchanged { OnErr result (memory.new ≡ memory.old) }
{
    transact_unless_ended(alloc, code, memory, &mut cores.items[core.0 as usize], n)
}

fn transact_unless_ended(
    alloc: Global,
    code: &Code,
    memory: &mut BufferedRam,
    state: &mut CoreState,
    n: u32,
) -> Result<Done, PlainFault>
    requires whole { 4 * length memory.old.ram ≡ code.now.settings.ram }
    requires empty { memory.old.waiting ≡ [] }
    ensures does { IfOk result (Transacts code.now state.old state.new memory.old memory.new n) }
    ensures fault { IfErr result (IsCoreFault state.old.ended (steps_at code.now state.old memory.old) n) }
    ensures length { length memory.new.ram ≡ length memory.old.ram }
    ensures empty { memory.new.waiting ≡ [] }
    ensures state_unchanged { OnErr result (state.new ≡ state.old) }
    ensures memory_unchanged { OnErr result (memory.new ≡ memory.old) }
{
    match state.ended {
        CoreEnd::Run => transact(alloc, code, memory, state, n),
        CoreEnd::Halt(_) | CoreEnd::Trap(_) => Err(PlainFault::NotEnding(0)),
    }
}

fn transact(
    alloc: Global,
    code: &Code,
    memory: &mut BufferedRam,
    state: &mut CoreState,
    n: u32,
) -> Result<Done, PlainFault>
    requires runs { state.old.ended ≡ CoreEnd.Run }
    requires whole { 4 * length memory.old.ram ≡ code.now.settings.ram }
    requires empty { memory.old.waiting ≡ [] }
    ensures does { IfOk result (Transacts code.now state.old state.new memory.old memory.new n) }
    ensures fault { IfErr result (IsFault (steps_at code.now state.old memory.old) n) }
    ensures length { length memory.new.ram ≡ length memory.old.ram }
    ensures empty { memory.new.waiting ≡ [] }
    ensures state_unchanged { OnErr result (state.new ≡ state.old) }
    ensures memory_unchanged { OnErr result (memory.new ≡ memory.old) }
{
    let mut attempt = Attempt::begin(alloc, &state.state);
    match attempt.run(memory, code, n) {
        Err(fault) => {
            memory.discard();
            Err(fault)
        }
        Ok(outcome) => close(memory, state, attempt, outcome.end()),
    }
}

fn close(
    memory: &mut BufferedRam,
    state: &mut CoreState,
    attempt: Attempt,
    end: CoreEnd,
) -> Result<Done, PlainFault>
    ensures state { OnOk result (state.new ≡ record {
      state = attempt.state;
      ended = end;
      console = state.old.console ++ attempt.console;
    }) }
    ensures did { IfOk result (λ d. d ≡ record { loads = attempt.loads; stores = attempt.stores; console = attempt.console }) }
    ensures ram { OnOk result (flat memory.new.ram ≡ seen (flat memory.old.ram) (buffer_of memory.old.waiting)) }
    ensures length { length memory.new.ram ≡ length memory.old.ram }
    ensures empty { memory.new.waiting ≡ [] }
    ensures cause { IfErr result (λ f. f ≡ PlainFault.Memory) }
    ensures state_unchanged { OnErr result (state.new ≡ state.old) }
    ensures ram_unchanged { OnErr result (memory.new.ram ≡ memory.old.ram) }
{
    match state
        .console
        .items
        .extend_from_slice(&attempt.console.items)
    {
        Err(_) => {
            memory.discard();
            Err(PlainFault::Memory)
        }
        Ok(()) => {
            memory.publish();
            state.state = attempt.state;
            state.ended = end;
            Ok(Done {
                loads: attempt.loads,
                stores: attempt.stores,
                console: attempt.console,
            })
        }
    }
}
