// Lists of transactions, and what the plain machine makes of them.
use super::atomics::ADD;
use super::replays::{STORE_AT_64, STORE_AT_96};
use super::runs::{COUNT, TWO_LINES};
use super::{File, Held, Host, Row, call, call_beside, check, over};
use std::alloc::Global;
use std::str;
use std::test::Fail;

/// What a file lists that is refused, and its first line at fault.
const FAULTY: [(&str, u64); 17] = [
    ("commit 1 0 3\ncommit 1 1 3\n", 2),
    ("commit 2 0 3\nload 80000040 4 00000000\ncommit 1 1 3\n", 3),
    // all lines are read before any is executed
    ("commit 1 0 3\ncommit 1 1 3\ncommit 01 0 3\n", 3),
    ("commit 2 0 2\ncommit 1 2 3\n", 2),
    // a core that there isn't
    ("commit 1 2 3\n", 1),
    // numbers that aren't written so, and others that are too small or too large
    ("commit 01 0 3\n", 1),
    ("commit 1 0x0 3\n", 1),
    ("commit 0 0 3\n", 1),
    ("commit 4194305 0 3\n", 1),
    ("commit 1 0 0\n", 1),
    ("commit 1 0 4194305\n", 1),
    // too few words, too many, or two spaces
    ("commit 1 0\n", 1),
    ("commit 1 0 3 \n", 1),
    ("end open\ncommit 1  0 3", 2),
    // the third instruction ends the transaction, and then the core finds none
    ("commit 1 0 2\n", 1),
    ("commit 1 0 4\n", 1),
    ("commit 1 1 3\ncommit 3 0 3\ncommit 4 0 4194304\n", 3),
];

const SERIAL: &str = "serial --raw --cores 2 --dirs 2 r x y";

/// A list that is followed is read and tried in the same way.
const FOLLOW: &str = "follow --raw --cores 2 --dirs 2 r x y";

/// The two images, beside a list.
fn beside<'a>(list: Held<'a>) -> [File<'a>; 3] {
    [
        ("r", list),
        ("x", Held::Image(STORE_AT_64)),
        ("y", Held::Image(STORE_AT_96)),
    ]
}

#[test]
fn faulty_lists_are_refused_with_a_line(rt: HostRuntime) -> Result<(), Fail> {
    let alloc = rt.alloc();
    for (list, line) in FAULTY {
        let text = format!(in alloc; "tcc: schedule line {line}")?;
        for command in [SERIAL, FOLLOW] {
            let row = Row {
                command,
                files: &beside(Held::Bytes(list.as_bytes())),
                status: 4,
                text: text.as_str(),
            };
            check(&rt, alloc, &row)?;
        }
    }
    Ok(())
}

/// What no transaction leaves.
const NONE: &str =
    "core 0 run / pc 80000000 / reg 11 00000002 / core 1 run / pc 80000020 / reg 10 00000001 / reg 11 00000002";

/// What both leave, whose stores go to two words.
const BOTH: &str =
    "core 0 run / pc 8000000c / reg 6 80000000 / reg 11 00000002 / core 1 run / pc 8000002c / reg 6 80000000 / reg 10 00000001 /
        reg 11 00000002 / mem 80000040 00000002 / mem 80000060 00000002";

/// What a file holds, the commits that are executed of it, and what they leave.
const EXECUTED: [(Held, &str, &str); 5] = [
    (Held::Bytes(b""), "", NONE),
    // none of these lines begins as a commit's does
    (
        Held::Bytes(b"tcc-report 1\nevents 3\ncommit\ncommits 1\n commit 0"),
        "",
        NONE,
    ),
    // a whole report
    (
        Held::Lines(&[
            "tcc-report 1 / end open / events 17 / commit 1 0 3 / commit 2 1 3",
            BOTH,
        ]),
        "commit 1 0 3 / commit 2 1 3 /",
        BOTH,
    ),
    // what is said of memory isn't looked at, and the last line may lack its line feed
    (
        Held::Bytes(b"commit 1 0 3\nmem 80000040 00000003\ncommit 2 1 3"),
        "commit 1 0 3 / commit 2 1 3 /",
        BOTH,
    ),
    // numbers are left out
    (
        Held::Bytes(b"commit 7 1 3\ncommit 4194304 0 3\n"),
        "commit 7 1 3 / commit 4194304 0 3 /",
        BOTH,
    ),
];

#[test]
fn lists_are_executed(rt: HostRuntime) -> Result<(), Fail> {
    let alloc = rt.alloc();
    for (list, commits, left) in EXECUTED {
        let text = format!(in alloc; "tcc-serial 1 / {commits} {left}")?;
        let row = Row {
            command: SERIAL,
            files: &beside(list),
            status: 0,
            text: text.as_str(),
        };
        check(&rt, alloc, &row)?;
    }
    Ok(())
}

/// The words of a run and of a serial execution on the same machine, and their image.
const RUNS: [(&str, &str, &[u32]); 6] = [
    ("run --raw a", "serial --raw r a", ADD),
    (
        "run --raw --cores 2 --seed 5 a",
        "serial --raw --cores 2 r a",
        COUNT,
    ),
    // stopped in the middle
    (
        "run --raw --cores 3 --dirs 2 --seed 6 --steps 3000 a",
        "serial --raw --cores 3 --dirs 2 r a",
        COUNT,
    ),
    (
        "run --raw --sets 1 --ways 1 a",
        "serial --raw --sets 1 --ways 1 r a",
        TWO_LINES,
    ),
    // on the machine with one bus
    (
        "bus --raw --cores 2 --seed 1 a",
        "serial --raw --cores 2 r a",
        COUNT,
    ),
    (
        "bus --raw --sets 1 --ways 1 a",
        "serial --raw --sets 1 --ways 1 r a",
        TWO_LINES,
    ),
];

/// The report of a run is executed to its lines from the first commit on.
fn is_executed(
    rt: &impl Host,
    alloc: Global,
    run: &str,
    serial: &str,
    image: &[u32],
) -> Result<(), Fail> {
    let report = call(rt, alloc, run, &over(&[("a", Held::Image(image))]))?;
    let again = call_beside(rt, alloc, serial, image, "r", &report.out)?;
    let (_, lines) = str::from_utf8(&report.out)?
        .split_once("commit ")
        .ok_or("the report has no commit")?;
    let text = format!(in alloc; "tcc-serial 1\ncommit {lines}")?;
    assert_eq!(rt; again.status, 0, "{serial}");
    assert_eq!(rt; again.out.as_slice(), text.as_bytes(), "{serial}");
    Ok(())
}

#[test]
fn reports_are_executed_to_their_own_lines(rt: HostRuntime) -> Result<(), Fail> {
    for (run, serial, image) in RUNS {
        is_executed(&rt, rt.alloc(), run, serial, image)?;
    }
    Ok(())
}
