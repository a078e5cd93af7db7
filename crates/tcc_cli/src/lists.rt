// The serial execution of the commits that a report lists.
ghost use Rattle.std.specs.Prelude.{◌≡◌, ◌/◌, ◌<◌, true, All, IfErr, IfOk, map};
ghost use Rattle.std.specs.List.{range_with_len};
ghost use Rattle.std.specs.String.{string_bytes};
ghost use Rattle.image_load.specs.Contents.{started};
ghost use Rattle.report_text.specs.Plain.{shown_core};
ghost use Rattle.rv_plain.specs.PlainState.{plain_of};
ghost use Rattle.tcc_cli.specs.Failing.{IsListRefused};
ghost use Rattle.tcc_cli.specs.Lists.{AreExecuted, AreRefused, IsExecuted, list_text};

use crate::laid::{Laid, settings_are_allowed};
use crate::refusal::Refusal;
use crate::reports::Finished;
use crate::schedules::of_text;
use image_load::Loaded;
use report_text::{CoreShown, Ending, ShownWords, serial_report};
use rv_plain::Plain;
use serial_tool::{Executed, Listed, read_orders, run_orders};
use std::alloc::Global;
use std::marker::Model;
use tcc_base::{Commit, Config, CoreId, LineAddr, List, NoMemory, WordAddr};

/// RAM of the plain machine, which began with what was loaded.
#[derive(Drop)]
struct Flat<'a> {
    plain: &'a Plain,
    loaded: &'a Loaded,
}

impl<'a> Model for Flat<'a> {
    ghost use Rattle.std.specs.Prelude.{◌≡◌};
    ghost use Rattle.rv_plain.specs.PlainState.{PlainState};

    ghost Value = { PlainState };

    ghost view = { λ f. f.plain.now };

    ghost invariant = { λ f. f.plain.now.loaded ≡ f.loaded.now };
}

impl<'a> ShownWords for Flat<'a> {
    ghost words = { λ p. (plain_of p).ram };

    ghost count = { λ p. p.loaded.settings.ram / 4 };

    fn line_count(&self) -> usize {
        self.loaded.config().words() as usize / 8
    }

    #[tactic(auto, unfolding(rv_plain::specs::PlainState::plain_of))]
    fn line(&self, line: LineAddr) -> [u32; 8] {
        settings_are_allowed(self.loaded.config());
        let first = 8 * line.0;
        [
            self.plain.word(WordAddr(first)),
            self.plain.word(WordAddr(first + 1)),
            self.plain.word(WordAddr(first + 2)),
            self.plain.word(WordAddr(first + 3)),
            self.plain.word(WordAddr(first + 4)),
            self.plain.word(WordAddr(first + 5)),
            self.plain.word(WordAddr(first + 6)),
            self.plain.word(WordAddr(first + 7)),
        ]
    }
}

/// The cores of the plain machine.
fn cores<'a>(
    alloc: Global,
    plain: &'a Plain,
    config: &Config,
) -> Result<List<CoreShown<'a>>, NoMemory>
    requires { plain.now.loaded.settings ≡ config.now }
    ensures { IfOk result (λ cs. cs ≡ map (λ core. shown_core ((plain_of plain.now).cores core)) (range_with_len 0 config.now.cores)) }
{
    let mut cores = List::new(alloc);
    for c in 0..config.cores() {
        let core = CoreId(c);
        cores.push(CoreShown {
            end: plain.ended(core),
            pc: plain.pc(core),
            regs: *plain.regs(core),
            console: plain.console(core),
        })?;
    }
    Ok(cores)
}

/// The report of the plain machine after these commits.
fn text<'a>(
    alloc: Global,
    loaded: &'a Loaded,
    plain: &'a Plain,
    commits: &List<Commit>,
) -> Result<String, NoMemory>
    requires { plain.now.loaded ≡ loaded.now }
    ensures { IfOk result (λ text. string_bytes text ≡ list_text (started loaded.now) commits.now (plain_of plain.now)) }
{
    let config = loaded.config();
    let cores = cores(alloc, plain, config)?;
    let ending = Ending {
        commits: &commits.items,
        cores: &cores.items,
        base: config.base(),
        ram: &Flat { plain, loaded },
        loaded: &Laid { loaded },
    };
    serial_report(alloc, &ending)
}

/// The text of the plain machine that has executed a list.
fn tell_executed<'a>(
    alloc: Global,
    loaded: &Loaded,
    executed: &Executed,
) -> Result<Finished, Refusal<'a>>
    requires { executed.now.machine.loaded ≡ loaded.now }
    ensures done { IfOk result (λ f. f.done ≡ true) }
    ensures text { IfOk result (λ f. string_bytes f.text
        ≡ list_text (started loaded.now) executed.now.commits (plain_of executed.now.machine)) }
    ensures memory { IfErr result (λ why. why ≡ Refusal.Memory) }
{
    match text(alloc, loaded, &executed.machine, &executed.commits) {
        Ok(text) => Ok(Finished { done: true, text }),
        Err(NoMemory) => Err(Refusal::Memory),
    }
}

/// The serial execution of the orders of a list, from what was loaded.
fn execute_orders<'a>(
    alloc: Global,
    loaded: &Loaded,
    orders: &[Listed],
) -> Result<Finished, Refusal<'a>>
    requires { All (λ l. l.order.core.0 < loaded.now.settings.cores) orders.now }
    ensures done { IfOk result (λ f. f.done ≡ true) }
    ensures executed { IfOk result (λ f. AreExecuted (started loaded.now) orders.now (string_bytes f.text)) }
    ensures refused { IfErr result (AreRefused (started loaded.now) orders.now) }
{
    match run_orders(alloc, loaded, orders) {
        Ok(executed) => tell_executed(alloc, loaded, &executed),
        Err(fault) => Err(of_text(fault)),
    }
}

/// The serial execution of the list that a file holds, from what was loaded; or the line at which the list is refused.
pub fn execute<'a>(alloc: Global, loaded: &Loaded, bytes: &[u8]) -> Result<Finished, Refusal<'a>>
    ensures done { IfOk result (λ f. f.done ≡ true) }
    ensures executed { IfOk result (λ f. IsExecuted (started loaded.now) bytes.now (string_bytes f.text)) }
    ensures refused { IfErr result (IsListRefused (started loaded.now) bytes.now) }
{
    match read_orders(alloc, bytes, loaded.config()) {
        Ok(orders) => execute_orders(alloc, loaded, &orders),
        Err(fault) => Err(of_text(fault)),
    }
}
