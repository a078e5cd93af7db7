// A run whose transactions commit in the order of a list.
ghost use Rattle.std.specs.Prelude.{◌≡◌, ◌≢◌, ◌≤◌, [], ℕ, List as Seq, IfErr, IfOk, Some, length, map};
ghost use Rattle.std.specs.String.{string_bytes};
ghost use Rattle.image_load.specs.Contents.{started};
ghost use Rattle.rv_plain.specs.PlainState.{order_of};
ghost use Rattle.tcc_cli.specs.Failing.{IsFollowStopped, IsListRefused};
ghost use Rattle.tcc_cli.specs.Following.{IsFollowed, IsListed, RanFollowing};
ghost use Rattle.tcc_cli.specs.Schedules.{IsRecorded};
ghost use Rattle.tcc_base.specs.Limits.{run_limit};

use crate::laid::settings_are_allowed;
use crate::records::record;
use crate::refusal::Refusal;
use crate::reports::{Finished, report_of};
use crate::schedules::of_text;
use image_load::Loaded;
use run_follow::{follow, the_commits_are_the_lists};
use rv_plain::Order;
use serial_tool::{orders_of, read_orders, run_orders};
use std::alloc::Global;
use tcc_base::{List, NoMemory, Text};
use tcc_refine::Refined;
use tcc_world::Store;

/// The most events of a run that follows a list.
const MOST: u32 = 4_194_304;

/// The transactions that the list of a file names, which the plain machine executes from what was loaded; or the line at which the list
/// is refused.
fn listed<'a>(alloc: Global, loaded: &Loaded, bytes: &[u8]) -> Result<List<Order>, Refusal<'a>>
    ensures listed { IfOk result (λ orders. IsListed (started loaded.now) bytes.now (map order_of orders)) }
    ensures refused { IfErr result (IsListRefused (started loaded.now) bytes.now) }
{
    let listed = match read_orders(alloc, bytes, loaded.config()) {
        Ok(listed) => listed,
        Err(fault) => return Err(of_text(fault)),
    };
    match run_orders(alloc, loaded, &listed) {
        Ok(_) => {}
        Err(fault) => return Err(of_text(fault)),
    }
    match orders_of(alloc, &listed) {
        Ok(orders) => Ok(orders),
        Err(NoMemory) => Err(Refusal::Memory),
    }
}

/// The machine after a run that follows the list of a file; or the line at which the list is refused.
fn run_list<'a>(alloc: Global, loaded: &Loaded, bytes: &[u8]) -> Result<Refined, Refusal<'a>>
    ensures code { IfOk result (λ r. r.machine.cores.code ≡ loaded.now) }
    ensures followed { IfOk result (λ r. IsFollowed (started loaded.now) bytes.now r.taken) }
    ensures few { IfOk result (λ r. length r.taken ≤ run_limit) }
    ensures settled { IfOk result (λ r. r.machine.unsent ≡ []) }
    ensures refused { IfErr result (IsListRefused (started loaded.now) bytes.now) }
{
    let orders = match listed(alloc, loaded, bytes) {
        Ok(orders) => orders,
        Err(refusal) => return Err(refusal),
    };
    match follow(alloc, loaded, &orders.items, MOST) {
        Ok(refined) => Ok(refined),
        Err(NoMemory) => Err(Refusal::Memory),
    }
}

/// A run that follows the list of a file, its record where one is named, and its report; or the line at which the list is refused.
pub fn run_following<'a, F: Store>(
    alloc: Global,
    loaded: &Loaded,
    bytes: &[u8],
    keep: &'a Option<Text>,
    files: &mut F,
) -> Result<Finished, Refusal<'a>>
    ensures ran { IfOk result (λ f. RanFollowing (started loaded.now) bytes.now
        (λ es. IsRecorded keep.now (F.disk files.old).tells (F.disk files.new).contents (record { config = loaded.now.settings; events = es }))
        f.done (string_bytes f.text)) }
    ensures failed { IfErr result (IsFollowStopped (started loaded.now) bytes.now loaded.now.settings keep.now (record { before = F.disk files.old; after = F.disk files.new })) }
    ensures others { (n : Seq ℕ) → keep.now ≢ Some n → (F.disk files.new).contents n ≡ (F.disk files.old).contents n }
{
    settings_are_allowed(loaded.config());
    the_commits_are_the_lists();
    let refined = match run_list(alloc, loaded, bytes) {
        Ok(refined) => refined,
        Err(refusal) => return Err(refusal),
    };
    match record(alloc, keep, &refined, files) {
        Ok(()) => {}
        Err(refusal) => return Err(refusal),
    }
    match report_of(alloc, loaded, &refined) {
        Ok(finished) => Ok(finished),
        Err(NoMemory) => Err(Refusal::Memory),
    }
}
