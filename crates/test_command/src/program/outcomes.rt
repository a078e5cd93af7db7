// All results of a program: their table, and the reports of its runs, which show one of them. The texts are a second implementation's.
use super::atomics::ADD;
use super::runs::{COUNT, HALT, STORE};
use super::{Held, Host, Row, World, call, call_beside, check, count, over};
use std::alloc::Global;
use std::str;
use std::test::Fail;

/// Loads the word at 80000040 in one transaction, and stores one more in the next.
const LOST: &[u32] = &[
    0x80000337, 0x04032283, 0x00000073, 0x00128293, 0x04532023, 0x05d00893, 0x00000073,
];

/// Loads the word at 80000040, a transaction a load, until it isn't 0.
const WAITS: &[u32] = &[
    0x80000337, 0x04032283, 0x00000073, 0xfe028ce3, 0x05d00893, 0x00000073,
];

/// Core 0 halts, and any other goes round in one transaction.
const SPINS: &[u32] = &[0x00050463, 0x0000006f, 0x05d00893, 0x00000073];

/// Prints the word at 80000040 as a digit, and adds 1 to it.
const SAYS: &[u32] = &[
    0x80000337, 0x04032283, 0x00128393, 0x04732023, 0x03028513, 0x00100893, 0x00000073, 0x05d00893,
    0x00000073,
];

/// Traps.
const TRAPS: &[u32] = &[0x00100073];

const LOST_MEMORY: &str = "tcc-outcomes 1 / end done / states 13 / transactions 14 / outcomes 2 /
    outcome 2 / commit 1 0 3 / commit 2 0 4 / commit 3 1 3 / commit 4 1 4 / core 0 halt 0 / core 1 halt 1 / mem 80000040 00000002 /
    outcome 1 / commit 1 0 3 / commit 2 1 3 / commit 3 0 4 / commit 4 1 4 / core 0 halt 0 / core 1 halt 1 / mem 80000040 00000001";

const SAID: &str = "tcc-outcomes 1 / end done / states 5 / transactions 4 / outcomes 2 /
    outcome 1 / commit 1 0 9 / commit 2 1 9 / core 0 halt 48 / pc 80000020 / reg 6 80000000 / reg 7 00000001 / reg 10 00000030 /
    reg 11 00000002 / reg 17 0000005d / console 30 / core 1 halt 49 / pc 80000020 / reg 5 00000001 / reg 6 80000000 / reg 7 00000002 /
    reg 10 00000031 / reg 11 00000002 / reg 17 0000005d / console 31 / mem 80000040 00000002 /
    outcome 1 / commit 1 1 9 / commit 2 0 9 / core 0 halt 49 / pc 80000020 / reg 5 00000001 / reg 6 80000000 / reg 7 00000002 /
    reg 10 00000031 / reg 11 00000002 / reg 17 0000005d / console 31 / core 1 halt 48 / pc 80000020 / reg 6 80000000 /
    reg 7 00000001 / reg 10 00000030 / reg 11 00000002 / reg 17 0000005d / console 30 / mem 80000040 00000002";

/// A command line over the image `a`, the image, and the status and the text of it.
const TABLES: [(&str, &[u32], u8, &str); 10] = [
    (
        "outcomes --raw --cores 2 --tell memory --ram 96 a",
        LOST,
        0,
        LOST_MEMORY,
    ),
    (
        "outcomes --raw --cores 2 a",
        LOST,
        0,
        "tcc-outcomes 1 / end done / states 13 / transactions 14 / outcomes 1 / outcome 3 / commit 1 0 3 / commit 2 0 4 / commit 3 1 3 /
            commit 4 1 4 / core 0 halt 0 / core 1 halt 1",
    ),
    (
        "outcomes --tell=all --raw --ram 96 --cores 2 a",
        SAYS,
        0,
        SAID,
    ),
    (
        "outcomes --raw --ram 96 a",
        WAITS,
        0,
        "tcc-outcomes 1 / end done / states 2 / transactions 2 / outcomes 0 / stuck 2",
    ),
    (
        "outcomes --raw --cores 2 --ram 96 a",
        SPINS,
        1,
        "tcc-outcomes 1 / end open / states 2 / transactions 1 / outcomes 0 / endless 2 1",
    ),
    (
        "outcomes --raw --ram 96 a",
        TRAPS,
        0,
        "tcc-outcomes 1 / end done / states 2 / transactions 1 / outcomes 1 / outcome 1 / commit 1 0 1 / core 0 trap 3",
    ),
    // as many states as there are, and one
    (
        "outcomes --states 13 --raw --cores 2 --tell memory --ram 96 a",
        LOST,
        0,
        LOST_MEMORY,
    ),
    (
        "outcomes --states 1 --raw --cores 2 a",
        LOST,
        1,
        "tcc-outcomes 1 / end open / states 1 / transactions 1 / outcomes 0",
    ),
    // no transaction ends, and one doesn't
    (
        "outcomes --longest 1 --raw --cores 2 a",
        LOST,
        1,
        "tcc-outcomes 1 / end open / states 1 / transactions 0 / outcomes 0 / endless 2 0",
    ),
    (
        "outcomes --longest 3 --raw --cores 2 a",
        LOST,
        1,
        "tcc-outcomes 1 / end open / states 4 / transactions 4 / outcomes 0 / endless 4 0 / commit 1 0 3",
    ),
];

#[test]
fn tables_list_all_results(rt: HostRuntime) -> Result<(), Fail> {
    for (command, image, status, text) in &TABLES {
        let row = Row {
            command,
            files: &[("a", Held::Image(image))],
            status: *status,
            text,
        };
        check(&rt, rt.alloc(), &row)?;
    }
    Ok(())
}

/// The way to an outcome of `LOST` in which one of two additions is lost.
const LIST: &str = "commit 1 0 3\ncommit 2 1 3\ncommit 3 0 4\ncommit 4 1 4\n";

#[test]
fn a_list_of_an_outcome_leads_to_it(rt: HostRuntime) -> Result<(), Fail> {
    let command = "serial --raw --cores 2 --ram 96 r a";
    let given = call_beside(&rt, rt.alloc(), command, LOST, "r", LIST.as_bytes())?;
    let text = str::from_utf8(&given.out)?;
    assert_eq!(rt; given.status, 0);
    assert!(rt; text.split_once("\nmem 80000040 00000001\n").is_some());
    Ok(())
}

/// The machines on which the list is followed.
const MACHINES: [&str; 3] = ["--dirs 2", "--sets 1 --ways 1", "--sets 2 --dirs 3"];

#[test]
fn a_list_is_followed_and_the_record_replayed(rt: HostRuntime) -> Result<(), Fail> {
    let alloc = rt.alloc();
    for machine in MACHINES {
        let follow = format!(in alloc; "follow --raw --cores 2 --ram 96 {machine} --record s r a")?;
        let given = call_beside(&rt, alloc, &follow, LOST, "r", LIST.as_bytes())?;
        let replay = format!(in alloc; "replay --raw --cores 2 --ram 96 {machine} s a")?;
        let record = given.record.ok_or("no record was written")?;
        let again = call_beside(&rt, alloc, &replay, LOST, "s", &record)?;
        let text = str::from_utf8(&given.out)?;
        assert_eq!(rt; given.status, 0, "{machine}");
        assert_eq!(rt; again.status, 0, "{machine}");
        assert_eq!(rt; given.out.as_slice(), again.out.as_slice(), "{machine}");
        assert!(rt; text.split_once("\nmem 80000040 00000001\n").is_some());
        for line in LIST.lines() {
            assert_eq!(rt; count(&given.out, line, line), 1, "{machine}");
        }
    }
    Ok(())
}

/// The words of a run on two cores that ends done, and its image.
const RUNS: [(&str, &[u32]); 9] = [
    ("run --raw --cores 2 --ram 96 a", LOST),
    ("run --raw --cores 2 --ram 96 --dirs 2 --seed 1 a", LOST),
    (
        "run --raw --cores 2 --ram 96 --sets 1 --ways 1 --seed 2 a",
        LOST,
    ),
    ("bus --raw --cores 2 --ram 96 --seed 3 a", LOST),
    ("phases --raw --cores 2 --ram 96 --seed 4 a", LOST),
    ("run --raw --cores 2 --ram 96 --dirs 3 --seed 5 a", SAYS),
    ("run --raw --cores 2 --ram 96 a", ADD),
    ("bus --raw --cores 2 --ram 96 a", STORE),
    ("run --raw --cores 2 --ram 96 a", HALT),
];

/// The report's lines from the first core on stand under an outcome of the table of all that can be told.
fn is_in_table(rt: &impl Host, alloc: Global, run: &str, image: &[u32]) -> Result<(), Fail> {
    let files = [("a", Held::Image(image))];
    let words = "outcomes --raw --cores 2 --ram 96 --tell all a";
    let table = call(rt, alloc, words, &over(&files))?;
    let report = call(rt, alloc, run, &over(&files))?;
    assert_eq!(rt; table.status, 0, "{run}");
    assert_eq!(rt; report.status, 0, "{run}");
    let (_, lines) = str::from_utf8(&report.out)?
        .split_once("\ncore 0 ")
        .ok_or("the report has no core")?;
    assert!(rt;
        str::from_utf8(&table.out)?.split_once(lines).is_some(),
        "{run}"
    );
    Ok(())
}

#[test]
fn what_a_run_shows_is_in_the_table(rt: HostRuntime) -> Result<(), Fail> {
    for (run, image) in &RUNS {
        is_in_table(&rt, rt.alloc(), run, image)?;
    }
    Ok(())
}

#[test]
fn a_short_output_has_the_first_bytes_of_the_table(rt: HostRuntime) -> Result<(), Fail> {
    let alloc = rt.alloc();
    let files = [("a", Held::Image(COUNT))];
    let command = "outcomes --raw --ram 96 a";
    let whole = call(&rt, alloc, command, &over(&files))?;
    assert_eq!(rt; whole.status, 0);
    for room in 0..whole.out.len() {
        let short = World {
            out: room as u64,
            ..over(&files)
        };
        let given = call(&rt, alloc, command, &short)?;
        assert_eq!(rt; given.status, 6);
        assert_eq!(rt; given.out.as_slice(), &whole.out[..room]);
        assert_eq!(rt; given.err.as_slice(), b"tcc: output\n".as_slice());
    }
    Ok(())
}
