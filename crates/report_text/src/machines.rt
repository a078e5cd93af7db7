// What a report shows of the cores of any machine that can be asked for them one by one.
ghost use Rattle.std.specs.Prelude.{◌≡◌, ℕ, ◌<◌, IfOk, map};
ghost use Rattle.std.specs.List.{range_with_len};
ghost use Rattle.rules_program.specs.Plain.{Plain};
ghost use Rattle.report_text.specs.Plain.{shown_core};

use crate::shown::CoreShown;
use reg_checkpoint::Check;
use std::alloc::Global;
use tcc_base::{CoreEnd, CoreId, List, NoMemory};

/// A machine whose cores can be read as their commits left them.
///
/// To a contract it is the plain machine that executed the commits, `plain`, and the number of cores, `count`.
pub trait ShownCores {
    ghost plain: { Self → Plain };

    ghost count: { Self → ℕ };

    /// The number of cores.
    fn core_count(&self) -> u8
        ensures { result ≡ count self.now };

    /// Whether a core has halted, and how.
    fn ended(&self, core: CoreId) -> CoreEnd
        requires { core.0 < count self.now }
        ensures { result ≡ ((plain self.now).cores core.0).ended };

    /// The registers and pc of a core.
    fn committed(&self, core: CoreId) -> &Check
        requires { core.0 < count self.now }
        ensures { result.now ≡ ((plain self.now).cores core.0).local };

    /// The bytes that a core printed.
    fn console(&self, alloc: Global, core: CoreId) -> Result<List<u8>, NoMemory>
        requires { core.0 < count self.now }
        ensures { IfOk result (λ bytes. bytes ≡ ((plain self.now).cores core.0).console) };
}

/// What each core printed. Fails only for want of memory.
pub fn consoles<M: ShownCores>(alloc: Global, machine: &M) -> Result<List<List<u8>>, NoMemory>
    ensures { IfOk result (λ cs. cs ≡ map (λ core. ((M.plain machine.now).cores core).console) (range_with_len 0 (M.count machine.now))) }
{
    let mut consoles = List::new(alloc);
    for c in 0..machine.core_count() {
        consoles.push(machine.console(alloc, CoreId(c))?)?;
    }
    Ok(consoles)
}

/// Each core as a report shows it, beside what each printed. Fails only for want of memory.
pub fn cores<'a, M: ShownCores>(
    alloc: Global,
    machine: &M,
    consoles: &'a List<List<u8>>,
) -> Result<List<CoreShown<'a>>, NoMemory>
    requires { consoles.now ≡ map (λ core. ((M.plain machine.now).cores core).console) (range_with_len 0 (M.count machine.now)) }
    ensures { IfOk result (λ cs. cs
        ≡ map (λ core. shown_core ((M.plain machine.now).cores core)) (range_with_len 0 (M.count machine.now))) }
{
    let mut cores = List::new(alloc);
    for c in 0..machine.core_count() {
        let core = CoreId(c);
        let check = machine.committed(core);
        cores.push(CoreShown {
            end: machine.ended(core),
            pc: check.pc(),
            regs: *check.regs(),
            console: &consoles.items[c as usize].items,
        })?;
    }
    Ok(cores)
}
