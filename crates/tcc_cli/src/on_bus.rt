// A run of the machine with one bus, from what was loaded.
ghost use Rattle.std.specs.Prelude.{◌≡◌, ◌≤◌, IfOk};
ghost use Rattle.std.specs.String.{string_bytes};
ghost use Rattle.image_load.specs.Contents.{started};
ghost use Rattle.tcc_cli.specs.OnBus.{RanOnBus};
ghost use Rattle.tcc_base.specs.Limits.{run_limit};

use crate::reports::Finished;
use bus_tool::{bus_report, bus_run};
use image_load::Loaded;
use std::alloc::Global;
use tcc_base::NoMemory;

/// The run of the machine with one bus that a seed picks, and its report.
pub fn run_on_bus(
    alloc: Global,
    loaded: &Loaded,
    seed: u64,
    steps: u64,
) -> Result<Finished, NoMemory>
    requires one_home { loaded.now.settings.dirs ≡ 1 }
    requires few { steps ≤ run_limit }
    ensures { IfOk result (λ f. RanOnBus (started loaded.now) seed steps f.done (string_bytes f.text)) }
{
    let bus = bus_run(alloc, loaded, seed, steps)?;
    let text = bus_report(alloc, &bus)?;
    Ok(Finished {
        done: bus.done(),
        text,
    })
}
