// Files that list orders, files that are refused with their line, and what the plain machine makes of a list.
ghost use Rattle.std.specs.Prelude.{◌≡◌};

use crate::loading::{config, loaded};
use rv_plain::Order;
use schedule_text::TextFault;
use serial_tool::{Listed, read_orders, run_orders};
use std::alloc::Global;
use std::test::Fail;
use tcc_base::{CoreId, Load, Size, Tid};

fn listed(line: u64, tid: u64, core: u8, n: u32) -> Listed
    ensures { result.order.core.0 ≡ core }
{
    Listed {
        line,
        order: Order {
            tid: Tid(tid),
            core: CoreId(core),
            n,
        },
    }
}

// The line with which a file is refused by the reader.
fn refused(alloc: Global, bytes: &[u8]) -> Option<u64> {
    match read_orders(alloc, bytes, &config()?) {
        Err(TextFault::Line(line)) => Some(line),
        _ => None,
    }
}

// The line with which a file is refused by the machine.
fn stuck(alloc: Global, bytes: &[u8]) -> Option<u64> {
    let loaded = loaded(alloc)?;
    let Ok(orders) = read_orders(alloc, bytes, loaded.config()) else {
        return None;
    };
    match run_orders(alloc, &loaded, &orders) {
        Err(TextFault::Line(line)) => Some(line),
        _ => None,
    }
}

#[test]
fn orders_are_read_with_their_lines(rt: HostRuntime) -> Result<(), Fail> {
    let alloc = rt.alloc();
    let config = config().ok_or("no settings")?;
    let none: [Listed; 0] = [];
    assert_eq!(rt;
        read_orders(alloc, b"", &config)?.as_slice(),
        none.as_slice()
    );
    assert_eq!(rt;
        read_orders(alloc, b"\n", &config)?.as_slice(),
        none.as_slice()
    );
    assert_eq!(rt;
        read_orders(alloc, b"commit 1 0 2", &config)?.as_slice(),
        [listed(1, 1, 0, 2)].as_slice()
    );
    let report =
        b"end done\nevents 9\ncommit 4194304 1 4194304\nload 80000000 4 00000001\n\ncommits 3\ncommit\n commit 1\ncommit 2 0 10";
    assert_eq!(rt;
        read_orders(alloc, report, &config)?.as_slice(),
        [listed(3, 4_194_304, 1, 4_194_304), listed(9, 2, 0, 10)].as_slice()
    );
    Ok(())
}

#[test]
fn other_lines_that_begin_so_are_refused(rt: HostRuntime) -> Result<(), Fail> {
    for text in [
        "commit 01 0 3",
        "commit 1 00 3",
        "commit 1 0 03",
        "commit +1 0 3",
        "commit 1 2 3",
        "commit 1 0 4194305",
        "commit 4194305 0 1",
        "commit 4294967297 0 1",
        "commit 1 0 0",
        "commit 0 0 1",
        "commit 1 0 3 ",
        "commit 1 0 3\r\n",
        "commit 1  0 3",
        "commit  1 0 3",
        "commit 1 0 3 4",
        "commit 1 0",
        "commit x",
        "commit ",
    ] {
        assert_eq!(rt; refused(rt.alloc(), text.as_bytes()), Some(1), "{text}");
    }
    let other = b"commit 1 \xff 3";
    assert_eq!(rt; refused(rt.alloc(), other), Some(1));
    Ok(())
}

#[test]
fn the_whole_file_is_read_first(rt: HostRuntime) -> Result<(), Fail> {
    let text = b"commit 2 0 5\ncommit 2 1 5\ncommit x\ncommit y\n";
    assert_eq!(rt; refused(rt.alloc(), text), Some(3));
    Ok(())
}

#[test]
fn the_first_order_at_fault_is_named(rt: HostRuntime) -> Result<(), Fail> {
    for (text, line) in [
        ("commit 2 0 5\nload\ncommit 2 1 5\n", 3),
        ("\ncommit 2 0 5\ncommit 1 1 5\n", 3),
        ("end open\ncommit 1 0 4\n", 2),
        ("commit 1 0 5\ncommit 2 0 2\n\ncommit 3 0 1\n", 4),
        ("commit 1 0 6\ncommit 1 1 5\n", 1),
    ] {
        assert_eq!(rt; stuck(rt.alloc(), text.as_bytes()), Some(line), "{text}");
    }
    let loaded = loaded(rt.alloc()).ok_or("no memory")?;
    let zero = [listed(7, 0, 0, 5)];
    match run_orders(rt.alloc(), &loaded, &zero) {
        Ok(_) => return Err("took a TID of 0")?,
        Err(fault) => assert_eq!(rt; fault, TextFault::Line(7)),
    }
    Ok(())
}

#[test]
fn without_orders_the_machine_is_at_its_start(rt: HostRuntime) -> Result<(), Fail> {
    let loaded = loaded(rt.alloc()).ok_or("no memory")?;
    let done = run_orders(rt.alloc(), &loaded, &[])?;
    assert!(rt; done.commits.items.is_empty());
    assert_eq!(rt; done.machine.pc(CoreId(1)), 0x8000_0000);
    Ok(())
}

#[test]
fn orders_are_executed_one_after_another(rt: HostRuntime) -> Result<(), Fail> {
    let loaded = loaded(rt.alloc()).ok_or("no memory")?;
    let text = b"commit 1 0 5\ncommit 3 1 5\ncommit 4 1 2\n";
    let orders = read_orders(rt.alloc(), text, loaded.config())?;
    let done = run_orders(rt.alloc(), &loaded, &orders)?;
    let load = |value| Load {
        addr: 0x8000_0040,
        size: Size::Word,
        value,
    };
    let loads = [[load(0)], [load(7)]];
    assert_eq!(rt; done.commits.items.len(), 3);
    for (commit, loads) in done.commits.items.iter().zip(loads) {
        assert_eq!(rt; commit.loads.items.as_slice(), loads.as_slice());
    }
    assert_eq!(rt; done.machine.pc(CoreId(1)), 0x8000_0018);
    Ok(())
}
