// The orders that a file lists, each with its line.
ghost use Rattle.std.specs.Prelude.{◌≡◌, ◌<◌, IfOk, IfErr, All};
ghost use Rattle.serial_tool.specs.Lists.{IsList, IsReadFault};

use crate::fields::{LineContent, read_line};
use rv_plain::Order;
use schedule_text::TextFault;
use std::alloc::Global;
use tcc_base::{Config, List};

/// An order with the number, from 1, of the line on which it stands.
#[derive(Clone, Copy, Debug, PartialEq, Eq)]
pub struct Listed {
    pub line: u64,
    pub order: Order,
}

/// The orders that a file lists: one for each line `commit TID CORE N`, in the order of the lines. TID is 1 to 1,099,511,627,776, N is
/// 1 to 4,294,967,295, CORE is below the number of cores; the numbers are decimal, without leading zeros. Lines are separated by line
/// feeds. A line that doesn't begin with `commit ` is passed over, so the file may be a whole report.
///
/// `Line(k)` exactly where line k is the first that begins with `commit ` and isn't so formed, unless memory ran out before. It goes
/// through the bytes once, and takes no memory but for the orders.
pub fn read_orders(alloc: Global, bytes: &[u8], config: &Config) -> Result<Vec<Listed>, TextFault>
    ensures found { IfOk result (λ orders. IsList config.now.cores bytes.now orders.items) }
    ensures cores { IfOk result (λ orders. All (λ l. l.order.core.0 < config.now.cores) orders.items) }
    ensures fault { IfErr result (IsReadFault config.now.cores bytes.now) }
{
    let cores = config.cores();
    let mut orders = List::new(alloc);
    for (i, line) in bytes.split(|byte| *byte == b'\n').enumerate() {
        let number = i as u64 + 1;
        match read_line(line, cores) {
            LineContent::Other => {}
            LineContent::Ordered(order) => orders.push(Listed {
                line: number,
                order,
            })?,
            LineContent::Faulty => return Err(TextFault::Line(number)),
        }
    }
    Ok(orders.items)
}
