// The first useful event that may come, one after another.
ghost use Rattle.std.specs.Prelude.{◌≡◌, ◌+◌, ◌≤◌, [], IfOk, OnOk, Some, length, map, option_map};
ghost use Rattle.image_load.specs.Contents.{started};
ghost use Rattle.net_core.specs.Machine.{history_of, program_of, settings_of, start_of, world_of};
ghost use Rattle.rv_code.specs.Machine.{program};
ghost use Rattle.rv_plain.specs.PlainState.{order_of};
ghost use Rattle.rules_riscv.specs.Starting.{world_at_start};
ghost use Rattle.tcc_msg.specs.Plain.{event_of};
ghost use Rattle.tcc_pick.specs.Picking.{TookAll};
ghost use Rattle.rules_tcc.specs.Step.{run};
ghost use Rattle.rules_tcc.specs.Useful.{useful};
ghost use Rattle.run_follow.specs.Following.{followed_by, followed_from, may_come, next_of, turn_of};
ghost use Rattle.tcc_base.specs.Limits.{run_limit};

use image_load::Loaded;
use net_core::System;
use rv_plain::Order;
use std::alloc::Global;
use tcc_base::{Commit, CoreId, NoMemory};
use tcc_msg::Event;
use tcc_refine::Refined;

/// The core whose turn it is: that of the first order that isn't committed yet. `None` where all are.
fn turn(orders: &[Order], commits: &[Commit]) -> Option<CoreId>
    ensures { option_map (λ c. c.0) result ≡ turn_of (map order_of orders.now) commits.now }
{
    match orders.get(commits.len()) {
        Some(order) => Some(order.core),
        None => None,
    }
}

/// Whether an event isn't an `Exec` out of turn.
fn in_turn(turn: Option<CoreId>, e: Event) -> bool
    ensures { result ≡ may_come (option_map (λ c. c.0) turn) (event_of e) }
{
    match e {
        Event::Exec(core) => match turn {
            Some(turn) => turn.0 == core.0,
            None => false,
        },
        Event::Evict(_, _, _) | Event::Deliver(_) => true,
    }
}

/// The first useful event that may come. At most as many are passed over as there are cores, since executes come first.
fn next_event(system: &System, turn: Option<CoreId>) -> Option<Event>
    requires { system.now.unsent ≡ [] }
    ensures { option_map event_of result
        ≡ next_of (option_map (λ c. c.0) turn) (useful (settings_of system.now) (program_of system.now) (world_of system.now)) }
{
    for k in 0..system.useful_count() {
        if let Some(e) = system.useful_at(k) {
            if in_turn(turn, e) {
                return Some(e);
            }
        }
    }
    None
}

/// The machine takes the events that follow a list, so many at most, or fewer where none may come.
fn go_on(refined: &mut Refined, orders: &[Order], most: u32) -> Result<(), NoMemory>
    requires { refined.old.machine.events + most ≤ run_limit }
    ensures took { OnOk result (TookAll refined.old refined.new
        (followed_from (start_of refined.old.machine) (map order_of orders.now) most (history_of refined.old.machine))) }
    ensures settled { OnOk result (refined.new.machine.unsent ≡ []) }
{
    for _ in 0..most {
        refined.settle()?;
        let turn = turn(orders, refined.system().commits());
        let Some(e) = next_event(refined.system(), turn) else {
            return Ok(());
        };
        match refined.step(e) {
            Ok(_) => {}
            Err(_) => return Err(NoMemory),
        }
    }
    refined.settle()
}

/// A machine that has run from its start so that its transactions commit in the order of a list: each event is the first useful one that
/// isn't an `Exec` of a core whose turn it isn't. There are so many events, or fewer where none may come. All that was sent stands on its
/// links then.
///
/// The time is that of the events, each by `Refined::step` and by at most as many calls of `System::useful_at` as there are cores, and one.
pub fn follow(
    alloc: Global,
    loaded: &Loaded,
    orders: &[Order],
    most: u32,
) -> Result<Refined, NoMemory>
    requires { most ≤ run_limit }
    ensures code { IfOk result (λ r. r.machine.cores.code ≡ loaded.now) }
    ensures taken { IfOk result (λ r. map event_of r.taken ≡ followed_by (started loaded.now) (map order_of orders.now) most) }
    ensures ran { IfOk result (λ r. let s = started loaded.now in
        run s.settings (program s) (world_at_start s) (followed_by s (map order_of orders.now) most) ≡ Some (history_of r.machine)) }
    ensures settled { IfOk result (λ r. r.machine.unsent ≡ []) }
    ensures few { IfOk result (λ r. length r.taken ≤ most) }
{
    let mut refined = Refined::start(alloc, loaded)?;
    refined.taken();
    go_on(&mut refined, orders, most)?;
    Ok(refined)
}
