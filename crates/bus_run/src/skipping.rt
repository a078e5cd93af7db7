// The events before the window of a trace with records.
ghost use Rattle.std.specs.Prelude.{◌+◌, ◌≤◌, IfOk};
ghost use Rattle.bus_run.specs.Shown.{Skipped};
ghost use Rattle.tcc_base.specs.Limits.{run_limit};

use crate::running::BusRun;
use tcc_base::NoMemory;

/// Takes so many events, and tells nothing of them. Whether so many came.
pub(crate) fn skip(run: &mut BusRun, from: u64) -> Result<bool, NoMemory>
    requires few { run.old.system.events + run.old.left ≤ run_limit }
    ensures { IfOk result (Skipped from run.old run.new) }
{
    for _ in 0..from {
        let Some(_) = run.take_next()? else {
            return Ok(false);
        };
    }
    Ok(true)
}
