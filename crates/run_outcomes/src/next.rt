// The next transaction of a core, to its end, over RAM told by what differs from the start.
ghost use Rattle.std.specs.Prelude.{◌≡◌, ℕ, ◌++◌, ◌*◌, ◌<◌, ◌≤◌, ◌/◌, IfOk, [], length, MatchOption, Some};
ghost use Rattle.image_load.specs.Contents.{started};
ghost use Rattle.rv_code.specs.Machine.{program};
ghost use Rattle.image_load.specs.Start.{first_ram};
ghost use Rattle.rv_plain.specs.Attempts.{attempt_of};
ghost use Rattle.rv_exec.specs.Outcomes.{outcome_of, HasEnded};
ghost use Rattle.rv_plain.specs.Buffered.{plain_view};
ghost use Rattle.rules_program.specs.Plain.{steps};
ghost use Rattle.rules_program.specs.Ram.{flat};
ghost use Rattle.run_outcomes.specs.Changes.{AreInside};
ghost use Rattle.run_outcomes.specs.Left.{AreStoresInside, IsLeft};
ghost use Rattle.run_outcomes.specs.Next.{IsNext};

use crate::changes::{left_words, write_all};
use image_load::Loaded;
use rv_code::Code;
use rv_exec::Outcome;
use rv_plain::{Attempt, BufferedRam, CoreState};
use std::alloc::Global;
use std::marker::Model;
use tcc_base::{CoreEnd, List, NoMemory};

/// What a core's next transaction is.
#[derive(Debug, Drop)]
pub enum Next {
    /// The core has halted.
    Stopped,
    /// It doesn't end within the instructions that were allowed.
    Endless,
    /// It has `n` instructions, and leaves the core and RAM so.
    Leads {
        n: u32,
        core: CoreState,
        changes: List<(u32, u32)>,
    },
}

/// Executes single transactions of a program, each from a state that is given.
#[derive(Debug, Drop)]
pub struct Executor {
    alloc: Global,
    code: Code,
    memory: BufferedRam,
}

impl Model for Executor {
    ghost use Rattle.std.specs.Prelude.{◌≡◌, ◌*◌, [], length};
    ghost use Rattle.image_load.specs.Contents.{Contents, started};
    ghost use Rattle.image_load.specs.Start.{first_ram};
    ghost use Rattle.rules_program.specs.Ram.{flat};

    ghost Value = { Contents };

    ghost view = { λ e. e.code };

    ghost invariant = { λ e. (4 * length e.memory.ram ≡ e.code.settings.ram) × (flat e.memory.ram ≡ first_ram (started e.code))
        × (e.memory.waiting ≡ []) };
}

impl Executor {
    /// An executor of what was loaded. Takes time and memory in RAM's words.
    pub fn new(alloc: Global, loaded: &Loaded) -> Result<Executor, NoMemory>
        ensures { IfOk result (λ e. e ≡ loaded.now) }
    {
        let code = Code::new(alloc, loaded.copy()?)?;
        let memory = BufferedRam::new(alloc, &code)?;
        Ok(Executor {
            alloc,
            code,
            memory,
        })
    }

    /// The number of cores.
    pub fn cores(&self) -> u8
        ensures { result ≡ self.now.settings.cores }
    {
        self.code.config().cores()
    }

    /// The next transaction of a core, of at most `longest` instructions, where RAM is as it was loaded but for these words.
    ///
    /// Takes the time of the instructions, and a logarithm for each word that is changed.
    pub fn next(
        &mut self,
        core: &CoreState,
        changes: &[(u32, u32)],
        longest: u32,
    ) -> Result<Next, NoMemory>
        requires { AreInside (self.old.settings.ram / 4) changes.now }
        ensures next { IfOk result (IsNext self.old core.now changes.now longest) }
        ensures unchanged { self.new ≡ self.old }
    {
        match core.ended {
            CoreEnd::Halt(_) | CoreEnd::Trap(_) => Ok(Next::Stopped),
            CoreEnd::Run => {
                let next = transact(
                    self.alloc,
                    &self.code,
                    &mut self.memory,
                    core,
                    changes,
                    longest,
                );
                self.memory.discard();
                next
            }
        }
    }
}

/// The next transaction of a core that runs. What its stores wait for is left in the buffer.
fn transact(
    alloc: Global,
    code: &Code,
    memory: &mut BufferedRam,
    core: &CoreState,
    changes: &[(u32, u32)],
    longest: u32,
) -> Result<Next, NoMemory>
    requires runs { core.now.ended ≡ CoreEnd.Run }
    requires whole { 4 * length memory.old.ram ≡ code.now.settings.ram }
    requires start { flat memory.old.ram ≡ first_ram (started code.now) }
    requires empty { memory.old.waiting ≡ [] }
    requires inside { AreInside (code.now.settings.ram / 4) changes.now }
    ensures next { IfOk result (IsNext code.now core.now changes.now longest) }
    ensures ram { memory.new.ram ≡ memory.old.ram }
{
    write_all(memory, changes)?;
    let mut attempt = Attempt::begin(alloc, &core.state);
    match run_to_end(&mut attempt, memory, code, longest)? {
        None => Ok(Next::Endless),
        Some(outcome) => leave(alloc, code, memory, core, changes, attempt, outcome),
    }
}

/// Instructions up to the one that ends the transaction, at most so many; None where none of them does.
fn run_to_end(
    attempt: &mut Attempt,
    memory: &mut BufferedRam,
    code: &Code,
    longest: u32,
) -> Result<Option<Outcome>, NoMemory>
    requires fresh { attempt.old.n ≡ 0 }
    requires whole { 4 * length memory.old.ram ≡ code.now.settings.ram }
    ensures runs { IfOk result (λ r. MatchOption r
        (steps code.now.settings.base (program (started code.now)) longest (plain_view (attempt_of attempt.old memory.old Outcome.Goes))
        ≡ Some (plain_view (attempt_of attempt.new memory.new Outcome.Goes)))
        (λ o. (steps code.now.settings.base (program (started code.now)) attempt.new.n
        (plain_view (attempt_of attempt.old memory.old Outcome.Goes))
        ≡ Some (plain_view (attempt_of attempt.new memory.new o))) × HasEnded (outcome_of o) × (attempt.new.n ≤ longest))) }
    ensures ram { memory.new.ram ≡ memory.old.ram }
{
    for k in 0..longest {
        let outcome = attempt.step(memory, code)?;
        if outcome.has_ended() {
            return Ok(Some(outcome));
        }
    }
    Ok(None)
}

/// These bytes and then those.
fn joined(alloc: Global, first: &[u8], more: &[u8]) -> Result<List<u8>, NoMemory>
    ensures { IfOk result (λ bytes. bytes ≡ first.now ++ more.now) }
{
    let mut bytes = first.to_vec(alloc).map_err(|_| NoMemory)?;
    bytes.extend_from_slice(more).map_err(|_| NoMemory)?;
    Ok(List { items: bytes })
}

/// What an attempt that has ended leaves of its core and of RAM.
fn leave(
    alloc: Global,
    code: &Code,
    memory: &BufferedRam,
    core: &CoreState,
    changes: &[(u32, u32)],
    attempt: Attempt,
    outcome: Outcome,
) -> Result<Next, NoMemory>
    requires whole { 4 * length memory.now.ram ≡ code.now.settings.ram }
    requires inside { AreInside (length memory.now.ram) changes.now }
    requires stores { AreStoresInside code.now.settings attempt.stores }
    requires ended { HasEnded (outcome_of outcome) }
    ensures left { IfOk result (IsLeft code.now.settings.base memory.now core.now changes.now attempt outcome) }
{
    let base = code.config().base();
    let left = left_words(alloc, base, memory, changes, &attempt.stores.items)?;
    let console = joined(alloc, &core.console.items, &attempt.console.items)?;
    Ok(Next::Leads {
        n: attempt.n,
        core: CoreState {
            state: attempt.state,
            ended: outcome.end(),
            console,
        },
        changes: left,
    })
}
