// The report of a machine with one bus as it stands.
ghost use Rattle.std.specs.Prelude.{IfOk};
ghost use Rattle.std.specs.String.{string_bytes};
ghost use Rattle.bus_tool.specs.Report.{IsBusReport};

use crate::memory::{Committed, FirstMemory};
use bus_tcc::BusSystem;
use report_text::{Ending, bus_machine_report, consoles, cores};
use std::alloc::Global;
use tcc_base::NoMemory;

/// The report of a machine as it stands: whether it is done, how many events it took, its commits with their loads, the cores as their
/// commits left them, and the words of memory that aren't as they were loaded. Fails only for want of memory.
///
/// It takes time in the number of commits and in RAM's bytes.
pub fn bus_report(alloc: Global, bus: &BusSystem) -> Result<String, NoMemory>
    ensures { IfOk result (λ text. IsBusReport bus.now (string_bytes text)) }
{
    let committed = Committed { bus };
    let consoles = consoles(alloc, &committed)?;
    let cores = cores(alloc, &committed, &consoles)?;
    let ending = Ending {
        commits: bus.commits(),
        cores: &cores.items,
        base: bus.config().base(),
        ram: &committed,
        loaded: &FirstMemory { code: bus.code() },
    };
    let text = bus_machine_report(alloc, bus.done(), bus.events(), &ending)?;
    Ok(text)
}
