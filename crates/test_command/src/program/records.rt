// Runs that are recorded, and replays of what they recorded.
use super::runs::{COUNT, HALT, TWO_LINES};
use super::{File, Held, Host, RECORD, Row, World, call, call_beside, check, count, lines, over};
use std::alloc::Global;
use std::str;
use std::test::Fail;

/// The words of a run that is recorded and of its replay, their image, and the status.
const RUNS: [(&str, &str, &[u32], u8); 9] = [
    (
        "run --raw --cores 2 --record s a",
        "replay --raw --cores 2 s a",
        COUNT,
        0,
    ),
    // stopped in the middle, on a machine that isn't the usual one
    (
        "run --raw --record=s --cores 3 --dirs 2 --sets 1 --ways 4 --ram 32768 --base 0x10000 --seed 9 --steps 20 a",
        "replay --raw --cores 3 --dirs 2 --sets 1 --ways 4 --ram 32768 --base 0x10000 s a",
        HALT,
        1,
    ),
    (
        "run --raw --steps 0 a --record s",
        "replay --raw s a",
        HALT,
        1,
    ),
    // ways are emptied
    (
        "run --raw --cores 2 --sets 1 --ways 1 --seed 3 --record s a",
        "replay --raw --cores 2 --sets 1 --ways 1 s a",
        TWO_LINES,
        0,
    ),
    // by host threads: to the end, with long turns, stopped at once, and more threads than nodes
    (
        "run --raw --threads 4 --cores 2 --record s a",
        "replay --raw --cores 2 s a",
        COUNT,
        0,
    ),
    (
        "run --raw --threads 4 --batch 64 --cores 2 --record s a",
        "replay --raw --cores 2 s a",
        COUNT,
        0,
    ),
    (
        "run --raw --threads 2 --cores 2 --steps 0 --record s a",
        "replay --raw --cores 2 s a",
        HALT,
        1,
    ),
    (
        "run --raw --threads 16 --cores 2 --sets 1 --ways 1 --record s a",
        "replay --raw --cores 2 --sets 1 --ways 1 s a",
        TWO_LINES,
        0,
    ),
    // the first version of schedules hasn't so many cores
    (
        "run --raw --cores 64 --dirs 64 --seed 1 --record s a",
        "replay --raw --cores 64 --dirs 64 s a",
        HALT,
        0,
    ),
];

/// The replay of the record prints the same report and has the same status. It changes no file.
fn is_replayed(
    rt: &impl Host,
    alloc: Global,
    run: &str,
    replay: &str,
    image: &[u32],
    status: u8,
) -> Result<(), Fail> {
    let first = call(rt, alloc, run, &over(&[("a", Held::Image(image))]))?;
    let record = first.record.ok_or("no record was written")?;
    let again = call_beside(rt, alloc, replay, image, RECORD, &record)?;
    assert_eq!(rt; first.status, status, "{run}");
    assert_eq!(rt; again.status, status, "{replay}");
    assert_eq!(rt; first.out.as_slice(), again.out.as_slice(), "{replay}");
    assert_eq!(rt; again.record, Some(record));
    Ok(())
}

#[test]
fn records_are_replayed_to_the_same_report(rt: HostRuntime) -> Result<(), Fail> {
    for (run, replay, image, status) in RUNS {
        is_replayed(&rt, rt.alloc(), run, replay, image, status)?;
    }
    Ok(())
}

/// Runs by a seed that are recorded, the same without a record, and their image.
const ALIKE: [(&str, &str, &[u32]); 4] = [
    (
        "run --raw --cores 2 --record s a",
        "run --raw --cores 2 a",
        COUNT,
    ),
    (
        "run --raw --cores 2 --steps 30 --seed 5 --record s a",
        "run --raw --cores 2 --steps 30 --seed 5 a",
        COUNT,
    ),
    (
        "run --raw --steps 0 --record s a",
        "run --raw --steps 0 a",
        HALT,
    ),
    (
        "run --raw --cores 2 --sets 1 --ways 1 --seed 3 --record s a",
        "run --raw --cores 2 --sets 1 --ways 1 --seed 3 a",
        TWO_LINES,
    ),
];

#[test]
fn a_record_changes_no_report(rt: HostRuntime) -> Result<(), Fail> {
    for (recorded, bare, image) in ALIKE {
        let files = [("a", Held::Image(image))];
        let one = call(&rt, rt.alloc(), recorded, &over(&files))?;
        let other = call(&rt, rt.alloc(), bare, &over(&files))?;
        assert_eq!(rt; one.status, other.status, "{bare}");
        assert_eq!(rt; one.out.as_slice(), other.out.as_slice(), "{bare}");
        assert_eq!(rt; other.record, None);
    }
    Ok(())
}

/// The only run of a program that halts, on one core and one directory.
const HALTED: &str =
    "tcc-schedule 1 / cores 1 dirs 1 sets 16 ways 2 base 2147483648 ram 65536 / e 0 / e 0 / d c0 v 0 / d v c0 0 / d c0 d0 0 /
        e 0 / end 6";

const NOTHING: &str =
    "tcc-schedule 1 / cores 1 dirs 1 sets 16 ways 2 base 2147483648 ram 65536 / end 0";

const OLD: &str = "what was recorded before";

/// A program that halts, a file that isn't an image, and an old record.
const FILES: [File; 3] = [
    ("a", Held::Image(HALT)),
    ("b", Held::Bytes(&[])),
    (RECORD, Held::Lines(&[OLD])),
];

/// A command line, the room on the output, the status, and what the record holds then.
const KEPT: [(&str, u64, u8, &str); 11] = [
    ("run --raw --record s a", 4096, 0, HALTED),
    ("run a --record=s --raw --steps 0", 4096, 1, NOTHING),
    // a list without transactions is followed by no event
    ("follow --raw --record s b a", 4096, 1, NOTHING),
    // it is written before the report
    ("run --raw --record s a", 10, 6, HALTED),
    ("run --raw a", 4096, 0, OLD),
    ("run --raw --record s b", 4096, 3, OLD),
    ("run --raw --record s a c", 4096, 5, OLD),
    ("run --raw --record s --steps 4194305 a", 4096, 2, OLD),
    ("run --raw --record s --record s a", 4096, 2, OLD),
    ("run --raw --record s --threads 17 a", 4096, 2, OLD),
    ("replay --raw --record s s a", 4096, 2, OLD),
];

#[test]
fn a_run_that_ends_is_recorded(rt: HostRuntime) -> Result<(), Fail> {
    let alloc = rt.alloc();
    for (command, out, status, record) in KEPT {
        let files = World {
            out,
            ..over(&FILES)
        };
        let ended = call(&rt, alloc, command, &files)?;
        assert_eq!(rt; ended.status, status, "{command}");
        assert_eq!(rt; ended.record, Some(lines(alloc, &[record])?), "{command}");
    }
    let without = call(&rt, alloc, "run --raw --record s b", &over(&FILES[..2]))?;
    assert_eq!(rt; without.record, None);
    Ok(())
}

/// Sixty-four cores halt at once, on sixty-four directories, which the first version of schedules hasn't.
#[test]
fn the_largest_machine_is_recorded(rt: HostRuntime) -> Result<(), Fail> {
    let alloc = rt.alloc();
    let run = "run --raw --cores 64 --dirs 64 --seed 1 --record s a";
    let ended = call(&rt, alloc, run, &over(&FILES[..1]))?;
    assert_eq!(rt; ended.status, 0);
    assert!(rt;
        ended
            .out
            .starts_with(b"tcc-report 1\nend done\nevents 4416\n")
    );
    assert_eq!(rt; count(&ended.out, "commit ", ""), 64);
    for tid in 1u64..65 {
        let begin = format!(in alloc; "commit {tid} ")?;
        assert_eq!(rt; count(&ended.out, begin.as_str(), " 2"), 1, "{tid}");
    }
    let record = ended.record.ok_or("no record was written")?;
    let events = str::from_utf8(&record)?
        .strip_prefix("tcc-schedule 2\n")
        .ok_or("it begins otherwise")?;
    let older = format!(in alloc; "tcc-schedule 1\n{events}")?;
    let row = Row {
        command: "replay --raw --cores 64 --dirs 64 s a",
        files: &[(RECORD, Held::Bytes(older.as_bytes())), FILES[0]],
        status: 4,
        text: "tcc: schedule line 2",
    };
    check(&rt, alloc, &row)
}
