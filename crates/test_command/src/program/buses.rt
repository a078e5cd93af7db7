// Runs on the machine with one bus, and their reports.
use super::runs::{COUNT, STORE, TWO_LINES};
use super::{Held, Host, Row, call, check, count, over};
use std::alloc::Global;
use std::test::Fail;

/// A command line over images `a` and `t`, its status and its text.
const RUNS: [(&str, u8, &str); 12] = [
    (
        "bus --raw a",
        0,
        "tcc-bus 1 / end done / events 8 / commit 1 0 4 / commit 2 0 2 / core 0 halt 0 / pc 80000014 / reg 5 00000007 /
            reg 6 80000000 / reg 11 00000001 / reg 17 0000005d / mem 80000040 00000007",
    ),
    // a cache of one frame: the core has the bus alone
    (
        "bus --raw --sets 1 --ways 1 t",
        0,
        "tcc-bus 1 / end done / events 7 / commit 1 0 5 / core 0 halt 0 / pc 80000010 / reg 6 80000000 / reg 11 00000001 /
            reg 17 0000005d / mem 80000040 00000001 / mem 80000060 00000001",
    ),
    (
        "bus --raw --steps 0 a",
        1,
        "tcc-bus 1 / end open / events 0 / core 0 run / pc 80000000 / reg 11 00000001",
    ),
    (
        "bus --raw --cores 2 --steps 9 --seed 2 a",
        1,
        "tcc-bus 1 / end open / events 9 / commit 1 1 4 / core 0 run / pc 80000000 / reg 11 00000002 / core 1 run / pc 80000010 /
            reg 5 00000007 / reg 6 80000000 / reg 10 00000001 / reg 11 00000002 / mem 80000040 00000007",
    ),
    ("bus --raw --dirs 2 a", 2, "tcc: words"),
    ("bus --dirs=1 a", 2, "tcc: words"),
    ("bus --raw --record s a", 2, "tcc: words"),
    ("bus --raw", 2, "tcc: words"),
    (
        "bus --raw --steps 4194305 --seed x a",
        2,
        "tcc: value steps",
    ),
    ("bus --cores 65 --sets 3 a", 2, "tcc: value cores"),
    ("bus t a", 3, "tcc: image 0 elf 1 52"),
    ("bus --raw a c", 5, "tcc: store c"),
];

#[test]
fn runs_on_one_bus_give_their_reports(rt: HostRuntime) -> Result<(), Fail> {
    for (command, status, text) in RUNS {
        let row = Row {
            command,
            files: &[("a", Held::Image(STORE)), ("t", Held::Image(TWO_LINES))],
            status,
            text,
        };
        check(&rt, rt.alloc(), &row)?;
    }
    Ok(())
}

/// Two cores have counted to 200 in 200 transactions, and halted in two.
fn counts(rt: &impl Host, alloc: Global, command: &str) -> Result<(), Fail> {
    let ended = call(rt, alloc, command, &over(&[("a", Held::Image(COUNT))]))?;
    assert_eq!(rt; ended.status, 0, "{command}");
    assert_eq!(rt; count(&ended.out, "commit ", ""), 202, "{command}");
    assert_eq!(rt; count(&ended.out, "commit 202 ", ""), 1, "{command}");
    assert_eq!(rt; count(&ended.out, "mem ", ""), 1, "{command}");
    assert_eq!(rt;
        count(&ended.out, "mem 80000040 000000c8", ""),
        1,
        "{command}"
    );
    Ok(())
}

#[test]
fn two_cores_count_on_one_bus(rt: HostRuntime) -> Result<(), Fail> {
    for command in [
        "bus --raw --cores 2 --seed 1 a",
        "bus --raw --cores 2 --seed 2 a",
        "bus --raw --cores 2 --seed 3 a",
    ] {
        counts(&rt, rt.alloc(), command)?;
    }
    Ok(())
}
