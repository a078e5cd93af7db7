// The machine after a schedule that a file holds.
ghost use Rattle.std.specs.Prelude.{◌≡◌, ◌≤◌, [], IfErr, IfOk, length, map};
ghost use Rattle.image_load.specs.Contents.{started};
ghost use Rattle.tcc_cli.specs.Failing.{HasLine, IsReadFault, IsScheduleRefused, replay_refusal, text_refusal};
ghost use Rattle.tcc_cli.specs.Looks.{AreFirst, IsFirstRefused};
ghost use Rattle.tcc_cli.specs.Schedules.{IsScheduleOf};
ghost use Rattle.tcc_msg.specs.Plain.{event_of};
ghost use Rattle.tcc_base.specs.Limits.{run_limit};

use crate::refusal::Refusal;
use image_load::Loaded;
use schedule_text::{TextFault, read};
use std::alloc::Global;
use tcc_base::Config;
use tcc_msg::Schedule;
use tcc_refine::Refined;
use tcc_replay::{ReplayFault, replay};

/// The schedule that a file holds, with these settings; or the first line at fault.
fn schedule_in(alloc: Global, config: &Config, bytes: &[u8]) -> Result<Schedule, TextFault>
    ensures schedule { IfOk result (λ s. IsScheduleOf config.now s.events bytes.now) }
    ensures fault { IfErr result (IsReadFault config.now bytes.now) }
{
    let schedule = read(alloc, bytes)?;
    if schedule.config != *config {
        return Err(TextFault::Line(2));
    }
    Ok(schedule)
}

/// What a fault of a text is to the program.
pub fn of_text<'a>(fault: TextFault) -> Refusal<'a>
    ensures { result ≡ text_refusal fault }
{
    match fault {
        TextFault::Line(line) => Refusal::Schedule(line),
        TextFault::Memory => Refusal::Memory,
    }
}

/// What a fault of a replay is to the program. The event of number i stands on line i + 3.
fn of_replay<'a>(fault: ReplayFault) -> Refusal<'a>
    requires { HasLine fault }
    ensures { result ≡ replay_refusal fault }
{
    match fault {
        ReplayFault::Refused(i) => Refusal::Schedule(i + 3),
        ReplayFault::Memory => Refusal::Memory,
    }
}

/// The machine after the first events of the schedule that a file holds, at most so many; or the line at which it is refused.
pub fn run_first<'a>(
    alloc: Global,
    loaded: &Loaded,
    config: &Config,
    bytes: &[u8],
    most: u64,
) -> Result<Refined, Refusal<'a>>
    requires { loaded.now.settings ≡ config.now }
    ensures code { IfOk result (λ r. r.machine.cores.code ≡ loaded.now) }
    ensures first { IfOk result (λ r. AreFirst config.now bytes.now most (map event_of r.taken)) }
    ensures few { IfOk result (λ r. length r.taken ≤ run_limit) }
    ensures settled { IfOk result (λ r. r.machine.unsent ≡ []) }
    ensures refused { IfErr result (IsFirstRefused (started loaded.now) config.now bytes.now most) }
{
    let mut schedule = match schedule_in(alloc, config, bytes) {
        Ok(schedule) => schedule,
        Err(fault) => return Err(of_text(fault)),
    };
    schedule.events.items.truncate(most as usize);
    match replay(alloc, loaded, &schedule.events.items) {
        Ok(refined) => Ok(refined),
        Err(fault) => Err(of_replay(fault)),
    }
}

/// The machine after the schedule that a file holds, whole; or the line at which it is refused.
pub fn run_file<'a>(
    alloc: Global,
    loaded: &Loaded,
    config: &Config,
    bytes: &[u8],
) -> Result<Refined, Refusal<'a>>
    requires { loaded.now.settings ≡ config.now }
    ensures code { IfOk result (λ r. r.machine.cores.code ≡ loaded.now) }
    ensures schedule { IfOk result (λ r. IsScheduleOf config.now r.taken bytes.now) }
    ensures settled { IfOk result (λ r. r.machine.unsent ≡ []) }
    ensures refused { IfErr result (IsScheduleRefused (started loaded.now) config.now bytes.now) }
{
    let schedule = match schedule_in(alloc, config, bytes) {
        Ok(schedule) => schedule,
        Err(fault) => return Err(of_text(fault)),
    };
    match replay(alloc, loaded, &schedule.events.items) {
        Ok(refined) => Ok(refined),
        Err(fault) => Err(of_replay(fault)),
    }
}
