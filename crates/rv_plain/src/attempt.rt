// A transaction on its way: the core's state as it is now, what it loaded, stored and printed so far.
ghost use Rattle.std.specs.Prelude.{◌≡◌, ℕ, ◌+◌, ◌-◌, ◌*◌, ◌^◌, ◌<◌, IfOk, IfErr, OnErr, OnOk, Some, length, [], ◌∷◌, ◌++◌, ◌↔◌, IsTrue};
ghost use Rattle.std.specs.Prelude.{IsFalse};
ghost use Rattle.image_load.specs.Contents.{started};
ghost use Rattle.rv_plain.specs.Buffered.{buffered, buffered_step, plain_view};
ghost use Rattle.rv_exec.specs.Effects.{planned};
ghost use Rattle.rv_exec.specs.Running.{bounded};
ghost use Rattle.rv_code.specs.Machine.{program, in_ram};
ghost use Rattle.rv_code.specs.Served.{IsServed};
ghost use Rattle.rv_exec.specs.Needs.{need_of};
ghost use Rattle.tcc_base.specs.Limits.{attempt_limit};
ghost use Rattle.tcc_base.specs.declared.access.Size.TheVariants.{Word};
ghost use Rattle.rules_program.specs.Plain.{steps, end_of, load_of, store_of};
ghost use Rattle.rules_program.specs.Program.{unreserved};

use crate::memory::BufferedRam;
use crate::plain::PlainFault;
use reg_checkpoint::State;
use rv_code::Code;
use rv_decode::{AmoOp, Inst};
use rv_exec::{Need, Outcome, amo_value, finish, read_part, replace_part};
use std::alloc::Global;
use tcc_base::{List, Load, NoMemory, Size, Stored};

/// A transaction on its way, of which `n` instructions are done.
#[derive(Debug, Drop)]
pub struct Attempt {
    pub state: State,
    pub n: u32,
    pub loads: List<Load>,
    pub stores: List<Stored>,
    pub console: List<u8>,
}

impl Attempt {
    ghost use Rattle.rv_plain.specs.Attempts.{attempt_of};
    ghost use Rattle.rv_exec.specs.Running.{alone};
    ghost use Rattle.rv_exec.specs.Outcomes.{outcome_of, HasEnded};
    ghost use Rattle.rv_plain.specs.Endings.{IsFault};

    /// An attempt of a core at this state that has done nothing. Takes no memory.
    pub fn begin(alloc: Global, state: &State) -> Attempt
        ensures { result ≡ record { state = state.now; n = 0; loads = []; stores = []; console = [] } }
    {
        Attempt {
            state: *state,
            n: 0,
            loads: List {
                items: Vec::new(alloc),
            },
            stores: List {
                items: Vec::new(alloc),
            },
            console: List {
                items: Vec::new(alloc),
            },
        }
    }

    #[tactic(auto, unfolding(crate::specs::Attempts::attempt_of, rules_program::specs::Ram::loaded, rules_program::specs::Ram::word_of))]
    fn load(
        &mut self,
        memory: &BufferedRam,
        base: u32,
        inst: &Inst,
        addr: u32,
        size: Size,
    ) -> Result<Outcome, NoMemory>
        requires { IsServed base (4 * length memory.now.ram) (Need.Load addr size) }
        ensures does { IfOk result (λ o. attempt_of self.new memory.now o
            ≡ buffered base (alone inst.now) (attempt_of self.old memory.now Outcome.Goes) (need_of (Need.Load addr size))) }
        ensures n { self.new.n ≡ self.old.n }
        ensures unchanged { OnErr result (self.new ≡ self.old) }
    {
        let value = read_part(memory.read((addr - base) / 4), addr, size);
        self.loads.push(Load { addr, size, value })?;
        finish(inst, &mut self.state, Some(value));
        Ok(Outcome::Goes)
    }

    #[tactic(auto, unfolding(crate::specs::Attempts::attempt_of, rules_program::specs::Ram::word_of))]
    fn store(
        &mut self,
        memory: &mut BufferedRam,
        base: u32,
        inst: &Inst,
        addr: u32,
        size: Size,
        value: u32,
    ) -> Result<Outcome, NoMemory>
        requires { IsServed base (4 * length memory.old.ram) (Need.Store addr size value) }
        ensures does { IfOk result (λ o. attempt_of self.new memory.new o
            ≡ buffered base (alone inst.now) (attempt_of self.old memory.old Outcome.Goes) (need_of (Need.Store addr size value))) }
        ensures n { self.new.n ≡ self.old.n }
        ensures ram { memory.new.ram ≡ memory.old.ram }
        ensures unchanged { OnErr result (self.new ≡ self.old) }
        ensures memory_unchanged { OnErr result (memory.new ≡ memory.old) }
    {
        let w = (addr - base) / 4;
        let word = replace_part(memory.read(w), addr, size, value);
        self.stores.push(Stored { addr, size, value })?;
        match memory.write(w, word) {
            Ok(()) => {
                finish(inst, &mut self.state, None);
                Ok(Outcome::Goes)
            }
            Err(e) => {
                let _ = self.stores.pop();
                Err(e)
            }
        }
    }

    #[tactic(auto, unfolding(crate::specs::Attempts::attempt_of, rules_program::specs::Ram::loaded, rules_program::specs::Ram::word_of))]
    fn change(
        &mut self,
        memory: &mut BufferedRam,
        base: u32,
        inst: &Inst,
        addr: u32,
        op: AmoOp,
        operand: u32,
    ) -> Result<Outcome, NoMemory>
        requires { IsServed base (4 * length memory.old.ram) (Need.Amo addr op operand) }
        ensures does { IfOk result (λ o. attempt_of self.new memory.new o
            ≡ buffered base (alone inst.now) (attempt_of self.old memory.old Outcome.Goes) (need_of (Need.Amo addr op operand))) }
        ensures n { self.new.n ≡ self.old.n }
        ensures ram { memory.new.ram ≡ memory.old.ram }
        ensures unchanged { OnErr result (self.new ≡ self.old) }
        ensures memory_unchanged { OnErr result (memory.new ≡ memory.old) }
    {
        let w = (addr - base) / 4;
        let word = memory.read(w);
        let old = read_part(word, addr, Size::Word);
        let value = amo_value(op, old, operand);
        self.note_change(addr, old, value)?;
        match memory.write(w, replace_part(word, addr, Size::Word, value)) {
            Ok(()) => {
                finish(inst, &mut self.state, Some(old));
                Ok(Outcome::Goes)
            }
            Err(e) => {
                let _ = self.loads.pop();
                let _ = self.stores.pop();
                Err(e)
            }
        }
    }

    /// Notes the load and the store of a word.
    fn note_change(&mut self, addr: u32, old: u32, value: u32) -> Result<(), NoMemory>
        ensures noted { OnOk result (self.new ≡ record self.old {
          loads = self.old.loads ++ load_of addr Word old ∷ [];
          stores = self.old.stores ++ store_of addr Word value ∷ [];
        }) }
        ensures unchanged { OnErr result (self.new ≡ self.old) }
    {
        let size = Size::Word;
        self.loads.push(Load {
            addr,
            size,
            value: old,
        })?;
        match self.stores.push(Stored { addr, size, value }) {
            Ok(()) => Ok(()),
            Err(e) => {
                let _ = self.loads.pop();
                Err(e)
            }
        }
    }

    #[tactic(auto, unfolding(crate::specs::Attempts::attempt_of))]
    fn serve(
        &mut self,
        memory: &mut BufferedRam,
        base: u32,
        inst: &Inst,
        need: Need,
    ) -> Result<Outcome, NoMemory>
        requires { IsServed base (4 * length memory.old.ram) need }
        ensures does { IfOk result (λ o. attempt_of self.new memory.new o
            ≡ buffered base (alone inst.now) (attempt_of self.old memory.old Outcome.Goes) (need_of need)) }
        ensures n { self.new.n ≡ self.old.n }
        ensures ram { memory.new.ram ≡ memory.old.ram }
        ensures unchanged { OnErr result (self.new ≡ self.old) }
        ensures memory_unchanged { OnErr result (memory.new ≡ memory.old) }
    {
        match need {
            Need::Nothing => {
                finish(inst, &mut self.state, None);
                Ok(Outcome::Goes)
            }
            Need::Load { addr, size } => self.load(memory, base, inst, addr, size),
            Need::Store { addr, size, value } => self.store(memory, base, inst, addr, size, value),
            Need::Amo { addr, op, value } => self.change(memory, base, inst, addr, op, value),
            Need::Console(byte) => {
                self.console.push(byte)?;
                finish(inst, &mut self.state, None);
                Ok(Outcome::Goes)
            }
            Need::End => {
                finish(inst, &mut self.state, None);
                Ok(self.end(Outcome::Ended))
            }
            Need::Halt(code) => Ok(self.end(Outcome::Halted(code))),
            Need::Trap(code) => Ok(self.end(Outcome::Trapped(code))),
        }
    }

    /// The transaction ends so. No end leaves a reservation.
    fn end(&mut self, outcome: Outcome) -> Outcome
        ensures state { self.new ≡ record self.old { state = unreserved self.old.state } }
        ensures outcome { result ≡ outcome }
    {
        self.state.unreserve();
        outcome
    }

    /// One instruction over RAM as the transaction sees it; the next instruction where it answers Goes. After want of
    /// memory nothing has changed. Takes the logarithm of what waits in the buffer.
    #[tactic(auto, unfolding(crate::specs::Attempts::attempt_of))]
    pub fn step(&mut self, memory: &mut BufferedRam, code: &Code) -> Result<Outcome, NoMemory>
        requires room { self.old.n < attempt_limit }
        requires whole { 4 * length memory.old.ram ≡ code.now.settings.ram }
        ensures does { IfOk result (λ o. attempt_of self.new memory.new o
            ≡ buffered_step code.now.settings.base (program (started code.now))
            (attempt_of self.old memory.old Outcome.Goes)) }
        ensures counted { OnOk result (self.new.n ≡ self.old.n + 1) }
        ensures ram { memory.new.ram ≡ memory.old.ram }
        ensures unchanged { OnErr result (self.new ≡ self.old) }
        ensures memory_unchanged { OnErr result (memory.new ≡ memory.old) }
    {
        let outcome = self.dispatch(memory, code)?;
        self.n += 1;
        Ok(outcome)
    }

    /// `n` instructions of which all but the last go on: how the last one leaves the transaction, which isn't that it goes on.
    ///
    /// An error names the instruction, from 1, that ends the transaction too early, or `n` where the last one goes on or
    /// none was asked for. The memory's RAM is as before in each case.
    pub fn run(
        &mut self,
        memory: &mut BufferedRam,
        code: &Code,
        n: u32,
    ) -> Result<Outcome, PlainFault>
        requires fresh { self.old.n ≡ 0 }
        requires whole { 4 * length memory.old.ram ≡ code.now.settings.ram }
        ensures runs { IfOk result (λ o. (steps code.now.settings.base (program (started code.now)) n
            (plain_view (attempt_of self.old memory.old Outcome.Goes))
            ≡ Some (plain_view (attempt_of self.new memory.new o)))
            × HasEnded (outcome_of o)) }
        ensures fault { IfErr result (IsFault (λ k. steps code.now.settings.base (program (started code.now)) k
            (plain_view (attempt_of self.old memory.old Outcome.Goes))) n) }
        ensures counted { OnOk result (self.new.n ≡ n) }
        ensures ram { memory.new.ram ≡ memory.old.ram }
    {
        for k in 0..n {
            let outcome = match self.step(memory, code) {
                Ok(outcome) => outcome,
                Err(_) => return Err(PlainFault::Memory),
            };
            if outcome.has_ended() {
                return if k + 1 == n {
                    Ok(outcome)
                } else {
                    Err(PlainFault::NotEnding(k + 1))
                };
            }
        }
        Err(PlainFault::NotEnding(n))
    }

    fn dispatch(&mut self, memory: &mut BufferedRam, code: &Code) -> Result<Outcome, NoMemory>
        requires { 4 * length memory.old.ram ≡ code.now.settings.ram }
        ensures does { IfOk result (λ o. attempt_of self.new memory.new o
            ≡ buffered_step code.now.settings.base (program (started code.now))
            (attempt_of self.old memory.old Outcome.Goes)) }
        ensures n { self.new.n ≡ self.old.n }
        ensures ram { memory.new.ram ≡ memory.old.ram }
        ensures unchanged { OnErr result (self.new ≡ self.old) }
        ensures memory_unchanged { OnErr result (memory.new ≡ memory.old) }
    {
        match code.inst(&self.state) {
            Err(trap) => Ok(self.end(Outcome::Trapped(trap))),
            Ok(inst) => self.execute_inst(memory, code, &inst),
        }
    }

    fn execute_inst(
        &mut self,
        memory: &mut BufferedRam,
        code: &Code,
        inst: &Inst,
    ) -> Result<Outcome, NoMemory>
        requires { 4 * length memory.old.ram ≡ code.now.settings.ram }
        ensures does { IfOk result (λ o. attempt_of self.new memory.new o
            ≡ buffered code.now.settings.base (alone inst.now) (attempt_of self.old memory.old Outcome.Goes)
            (bounded (in_ram code.now.settings) (planned inst.now self.old.state))) }
        ensures n { self.new.n ≡ self.old.n }
        ensures ram { memory.new.ram ≡ memory.old.ram }
        ensures unchanged { OnErr result (self.new ≡ self.old) }
        ensures memory_unchanged { OnErr result (memory.new ≡ memory.old) }
    {
        let base = code.config().base();
        let need = code.plan(inst, &self.state);
        self.serve(memory, base, inst, need)
    }
}
