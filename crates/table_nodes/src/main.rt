// Runs a table of rows on the machine's own nodes: each row begins with fresh nodes and does one step after the other, and the
// program prints the node's state before, the step, what the node answers and sends, and its state after. The table is read from
// standard input; `lines` says how its lines are written.
#![tactic(auto)]

mod answers;
mod lines;
mod messages;
mod nodes;
mod running;
mod states;
mod steps;
mod tested_core;
mod tested_dir;
mod tested_vendor;
mod text;
mod words;

use running::{OutOfMemory, Table};
use std::io::{self, BufRead, BufReader};

/// Runs the lines of standard input, up to the first for which there is no memory.
fn run(rt: &HostRuntime, table: &mut Table) -> io::Result<()> {
    let alloc = rt.alloc();
    for line in BufReader::new(alloc, rt.reader())?.lines(alloc) {
        let line = line?;
        match table.run(line.as_str()) {
            Ok(text) => rt.print(text.as_str())?,
            Err(OutOfMemory) => return rt.println("no memory"),
        }
    }
    Ok(())
}

fn main(rt: HostRuntime) -> io::Result<()> {
    let mut table = Table::new(rt.alloc());
    run(&rt, &mut table)
}
