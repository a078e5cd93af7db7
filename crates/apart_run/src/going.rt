// The machine by itself, by its first useful event.
ghost use Rattle.std.specs.Prelude.{◌≡◌, ◌+◌, ◌≤◌, [], OnOk};
ghost use Rattle.tcc_pick.specs.Picking.{TookAll};
ghost use Rattle.apart_run.specs.Going.{goes_on};
ghost use Rattle.tcc_base.specs.Limits.{run_limit};

use tcc_base::NoMemory;
use tcc_refine::Refined;

/// The machine takes its first useful event, time after time: so many events at most, or fewer where none is useful any more. The time is
/// that of the events, each by `System::useful_at` and `Refined::step`.
pub(crate) fn go_on(refined: &mut Refined, steps: u64) -> Result<(), NoMemory>
    requires { refined.old.machine.events + steps ≤ run_limit }
    ensures took { OnOk result (TookAll refined.old refined.new (goes_on steps refined.old.machine)) }
    ensures settled { OnOk result (refined.new.machine.unsent ≡ []) }
{
    for _ in 0..steps {
        refined.settle()?;
        let Some(e) = refined.system().useful_at(0) else {
            return Ok(());
        };
        match refined.step(e) {
            Ok(_) => {}
            Err(_) => return Err(NoMemory),
        }
    }
    refined.settle()
}
