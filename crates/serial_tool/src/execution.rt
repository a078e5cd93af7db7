// The plain machine executes listed orders.
ghost use Rattle.std.specs.Prelude.{◌≡◌, ◌<◌, IfOk, IfErr, OnErr, IsSomeAnd, All, Some, length, map, slice_get};
ghost use Rattle.image_load.specs.Contents.{started};
ghost use Rattle.rv_plain.specs.PlainState.{plain_of};
ghost use Rattle.serial_tool.specs.Runs.{HasNoSerial, HasNoSerialFrom, IsRunFault, IsRunFaultFrom, beginning_of, serial_by, serial_from};

use crate::reading::Listed;
use image_load::Loaded;
use rv_plain::{Order, Plain, SerialFault};
use schedule_text::TextFault;
use std::alloc::Global;
use tcc_base::{Commit, List, NoMemory, Tid};

/// The plain machine after some orders, and a commit for each.
#[derive(Debug, Drop)]
pub struct Executed {
    pub machine: Plain,
    pub commits: List<Commit>,
}

/// The orders without their lines, in a list of its own.
pub fn orders_of(alloc: Global, listed: &[Listed]) -> Result<List<Order>, NoMemory>
    ensures { IfOk result (λ orders. orders ≡ map (λ l. l.order) listed.now) }
{
    let mut orders = List::new(alloc);
    for one in listed {
        orders.push(one.order)?;
    }
    Ok(orders)
}

/// The line of the order at this place, from 0.
fn line_at(orders: &[Listed], place: u64) -> u64
    requires { place < length orders.now }
    ensures { IsSomeAnd (slice_get orders.now place) (λ l. result ≡ l.line) }
{
    orders[place as usize].line
}

/// Executes the orders from first to last on a machine whose last transaction had the TID `last`, and gives a commit for each.
///
/// `Line(k)` exactly where k is the line of the first order whose TID isn't above the one before it, or that isn't a whole transaction of
/// the machine as the orders before it leave it, unless memory ran out before; then the list has no serial execution from there. After
/// an error the machine is as before. The time is that of the instructions, and RAM's words.
pub fn run_from(
    alloc: Global,
    machine: &mut Plain,
    last: Tid,
    orders: &[Listed],
) -> Result<List<Commit>, TextFault>
    requires { All (λ l. l.order.core.0 < machine.old.loaded.settings.cores) orders.now }
    ensures executed { IfOk result (λ commits. serial_from (beginning_of machine.old last.0) orders.now
        ≡ Some (plain_of machine.new, commits)) }
    ensures loaded { machine.new.loaded ≡ machine.old.loaded }
    ensures fault { IfErr result (IsRunFaultFrom (beginning_of machine.old last.0) orders.now) }
    ensures none { IfErr result (HasNoSerialFrom (beginning_of machine.old last.0) orders.now) }
    ensures unchanged { OnErr result (machine.new ≡ machine.old) }
{
    let plain = match orders_of(alloc, orders) {
        Ok(plain) => plain,
        Err(_) => return Err(TextFault::Memory),
    };
    match machine.serial_from(last, &plain.items) {
        Ok(commits) => Ok(commits),
        Err(SerialFault::NotRising(i)) => Err(TextFault::Line(line_at(orders, i))),
        Err(SerialFault::NotEnding(i)) => Err(TextFault::Line(line_at(orders, i))),
        Err(SerialFault::Memory) => Err(TextFault::Memory),
    }
}

/// Executes the orders from first to last on the plain machine, from the start of what was loaded.
///
/// `Line(k)` exactly where k is the line of the first order whose TID isn't above the one before it, or is 0, or that isn't a whole
/// transaction of the machine as the orders before it leave it, unless memory ran out before; then the list has no serial execution.
/// The time is that of the instructions, and twice RAM's words.
pub fn run_orders(alloc: Global, loaded: &Loaded, orders: &[Listed]) -> Result<Executed, TextFault>
    requires { All (λ l. l.order.core.0 < loaded.now.settings.cores) orders.now }
    ensures loaded { IfOk result (λ e. e.machine.loaded ≡ loaded.now) }
    ensures executed { IfOk result (λ e. serial_by (started loaded.now) orders.now ≡ Some (plain_of e.machine, e.commits)) }
    ensures fault { IfErr result (IsRunFault (started loaded.now) orders.now) }
    ensures none { IfErr result (HasNoSerial (started loaded.now) orders.now) }
{
    let mut machine = match Plain::start(alloc, loaded.config(), loaded) {
        Ok(machine) => machine,
        Err(_) => return Err(TextFault::Memory),
    };
    match run_from(alloc, &mut machine, Tid(0), orders) {
        Ok(commits) => Ok(Executed { machine, commits }),
        Err(fault) => Err(fault),
    }
}
