// What a line of a file lists. None of the readers takes memory, and each takes time for what it reads alone.
ghost use Rattle.std.specs.Prelude.{◌≡◌, ◌<◌, ◌≤◌, MatchOption};
ghost use Rattle.serial_tool.specs.Lines.{IsNumbers, IsPossible, Tells, count_limit, tid_limit};

use row_text::read_decimal;
use rv_plain::Order;
use std::str::from_utf8;
use tcc_base::{CoreId, Tid};

/// The largest TID of an order.
pub const LARGEST_TID: u64 = 4_194_304;

/// The largest number of instructions of an order.
pub const LARGEST_COUNT: u64 = 4_194_304;

/// What a line of a file lists.
#[derive(Clone, Copy)]
pub enum LineContent {
    /// Nothing: it doesn't begin with `commit `.
    Other,
    /// An order.
    Ordered(Order),
    /// It begins with `commit `, but isn't the line of an order.
    Faulty,
}

/// The order of three numbers; None exactly where the first or the last is 0 or above its limit, or the machine has too few cores.
fn order(tid: u64, core: u64, n: u64, cores: u8) -> Option<Order>
    ensures { MatchOption result (1 ≤ tid → tid ≤ tid_limit → core < cores → 1 ≤ n → n ≤ count_limit → ⊥)
        (λ o. (o ≡ record { tid = record { 0 = tid }; core = record { 0 = core }; n = n }) × IsPossible cores o) }
{
    if tid == 0 || tid > LARGEST_TID {
        return None;
    }
    if n == 0 || n > LARGEST_COUNT {
        return None;
    }
    if core >= cores as u64 {
        return None;
    }
    Some(Order {
        tid: Tid(tid),
        core: CoreId(core as u8),
        n: n as u32,
    })
}

/// The order whose TID, core and instructions stand in this text, in a machine of so many cores; None exactly where there is none.
fn numbers(text: &str, cores: u8) -> Option<Order>
    ensures { MatchOption result ((o : Order) → IsNumbers cores text.now o → ⊥) (IsNumbers cores text.now) }
{
    let (tid, rest) = text.split_once(' ')?;
    let (core, n) = rest.split_once(' ')?;
    order(
        read_decimal(tid)?,
        read_decimal(core)?,
        read_decimal(n)?,
        cores,
    )
}

/// What a line lists, in a machine of so many cores.
pub fn read_line(line: &[u8], cores: u8) -> LineContent
    ensures { Tells cores line.now result }
{
    let Some(text) = line.strip_prefix(b"commit ") else {
        return LineContent::Other;
    };
    let Ok(text) = from_utf8(text) else {
        return LineContent::Faulty;
    };
    match numbers(text, cores) {
        Some(order) => LineContent::Ordered(order),
        None => LineContent::Faulty,
    }
}
