// Raw images, and the reports of their runs.
use super::{Held, Host, Row, call, check, count, over};
use std::alloc::Global;
use std::test::Fail;

/// A command line over the one image `a`, its status and its report.
pub(super) struct Run {
    pub command: &'static str,
    pub image: &'static [u32],
    pub status: u8,
    pub report: &'static str,
}

/// Each command line gives its report.
pub(super) fn run_to_reports(rt: &impl Host, alloc: Global, runs: &[Run]) -> Result<(), Fail> {
    for run in runs {
        let row = Row {
            command: run.command,
            files: &[("a", Held::Image(run.image))],
            status: run.status,
            text: run.report,
        };
        check(rt, alloc, &row)?;
    }
    Ok(())
}

/// Stores 7 at 80000040 in one transaction, and halts in another.
pub(super) const STORE: &[u32] = &[
    0x00700293, 0x80000337, 0x04532023, 0x00000073, 0x05d00893, 0x00000073,
];

pub(super) const STORE_REPORT: &str =
    "tcc-report 1 / end done / events 19 / commit 1 0 4 / commit 2 0 2 / core 0 halt 0 / pc 80000014 / reg 5 00000007 /
        reg 6 80000000 / reg 11 00000001 / reg 17 0000005d / mem 80000040 00000007";

/// Halts in its one transaction, which reads and writes no word.
pub(super) const HALT: &[u32] = &[0x05d00893, 0x00000073];

/// Adds 1 to the word at 80000040, a hundred times.
pub(super) const COUNT: &[u32] = &[
    0x80000337, 0x06400393, 0x04032283, 0x00128293, 0x04532023, 0x00000073, 0xfff38393, 0xfe0396e3,
    0x05d00893, 0x00000073,
];

/// Stores 17 and the core's number in the byte at 80000040 and the core's number.
const BYTES: &[u32] = &[
    0x80000337, 0x00a30333, 0x01150293, 0x04530023, 0x05d00893, 0x00000073,
];

/// Stores 17 and the core's number in the word of that number from 80000040 on.
const WORDS: &[u32] = &[
    0x80000337, 0x00251393, 0x00730333, 0x01150293, 0x04532023, 0x05d00893, 0x00000073,
];

/// Stores two words of two lines in one transaction, which a cache of one frame has no room for.
pub(super) const TWO_LINES: &[u32] = &[0x80000337, 0x04b32023, 0x06b32023, 0x05d00893, 0x00000073];

const RUNS: [Run; 20] = [
    Run {
        command: "run --raw a",
        image: STORE,
        status: 0,
        report: STORE_REPORT,
    },
    Run {
        command: "run --raw --steps 0 a",
        image: STORE,
        status: 1,
        report: "tcc-report 1 / end open / events 0 / core 0 run / pc 80000000 / reg 11 00000001",
    },
    // what isn't committed doesn't show
    Run {
        command: "run --raw --steps=0x5 a",
        image: STORE,
        status: 1,
        report: "tcc-report 1 / end open / events 5 / core 0 run / pc 80000000 / reg 11 00000001",
    },
    Run {
        command: "run --raw --dirs 2 a",
        image: HALT,
        status: 0,
        report: "tcc-report 1 / end done / events 7 / commit 1 0 2 / core 0 halt 0 / pc 80000004 / reg 11 00000001 / reg 17 0000005d",
    },
    // the smallest RAM, at the end of the addresses
    Run {
        command: "run --raw --ram 32 --base 0xffffffe0 --steps 4194304 a",
        image: HALT,
        status: 0,
        report: "tcc-report 1 / end done / events 6 / commit 1 0 2 / core 0 halt 0 / pc ffffffe4 / reg 11 00000001 / reg 17 0000005d",
    },
    // the largest cache
    Run {
        command: "run --raw --sets 1024 --ways 16 a",
        image: STORE,
        status: 0,
        report: STORE_REPORT,
    },
    Run {
        command: "run --raw --steps 1000 a",
        image: &[0x0000006f],
        status: 1,
        report: "tcc-report 1 / end open / events 1000 / core 0 run / pc 80000000 / reg 11 00000001",
    },
    // multiplications and divisions
    Run {
        command: "run --raw a",
        image: &[
            0x800002b7, 0xfff00313, 0x0262c3b3, 0x0262e433, 0x0202c4b3, 0x0202e633, 0x0202d6b3,
            0x0202f733, 0x05d00893, 0x00000073,
        ],
        status: 0,
        report: "tcc-report 1 / end done / events 14 / commit 1 0 10 / core 0 halt 0 / pc 80000024 / reg 5 80000000 /
            reg 6 ffffffff / reg 7 80000000 / reg 9 ffffffff / reg 11 00000001 / reg 12 80000000 / reg 13 ffffffff /
            reg 14 80000000 / reg 17 0000005d",
    },
    // a jump, and one to an address that isn't a multiple of four
    Run {
        command: "run --raw a",
        image: &[0x800002b7, 0x009280e7, 0x05d00893, 0x00000073],
        status: 0,
        report: "tcc-report 1 / end done / events 8 / commit 1 0 4 / core 0 halt 0 / pc 8000000c / reg 1 80000008 /
            reg 5 80000000 / reg 11 00000001 / reg 17 0000005d",
    },
    Run {
        command: "run --raw a",
        image: &[0x800002b7, 0x00a280e7],
        status: 0,
        report: "tcc-report 1 / end done / events 6 / commit 1 0 2 / core 0 trap 0 / pc 80000004 / reg 5 80000000 / reg 11 00000001",
    },
    // an ECALL that isn't one of the machine's
    Run {
        command: "run --raw a",
        image: &[0x00500893, 0x00000073],
        status: 0,
        report: "tcc-report 1 / end done / events 6 / commit 1 0 2 / core 0 trap 11 / pc 80000004 / reg 11 00000001 / reg 17 00000005",
    },
    Run {
        command: "run --raw a",
        image: &[
            0x00100893, 0x04800513, 0x00000073, 0x06900513, 0x00000073, 0x05d00893, 0x00500513,
            0x00000073,
        ],
        status: 0,
        report: "tcc-report 1 / end done / events 12 / commit 1 0 8 / core 0 halt 5 / pc 8000001c / reg 10 00000005 /
            reg 11 00000001 / reg 17 0000005d / console 4869",
    },
    Run {
        command: "run --raw a",
        image: &[0x00100073],
        status: 0,
        report: "tcc-report 1 / end done / events 5 / commit 1 0 1 / core 0 trap 3 / pc 80000000 / reg 11 00000001",
    },
    // a load from one line and a store to another
    Run {
        command: "run --raw --dirs 2 a",
        image: &[0x80000337, 0x06032283, 0x04532023, 0x05d00893, 0x00000073],
        status: 0,
        report: "tcc-report 1 / end done / events 20 / commit 1 0 5 / load 80000060 4 00000000 / core 0 halt 0 / pc 80000010 /
            reg 6 80000000 / reg 11 00000001 / reg 17 0000005d",
    },
    Run {
        command: "run --raw --sets 1 --ways 1 a",
        image: TWO_LINES,
        status: 0,
        report: "tcc-report 1 / end done / events 17 / commit 1 0 5 / core 0 halt 0 / pc 80000010 / reg 6 80000000 /
            reg 11 00000001 / reg 17 0000005d / mem 80000040 00000001 / mem 80000060 00000001",
    },
    // the first word again, which was spilled meanwhile
    Run {
        command: "run --raw --sets 1 --ways 1 a",
        image: &[
            0x80000337, 0x04b32023, 0x06b32023, 0x04b32023, 0x05d00893, 0x00000073,
        ],
        status: 0,
        report: "tcc-report 1 / end done / events 18 / commit 1 0 6 / core 0 halt 0 / pc 80000014 / reg 6 80000000 /
            reg 11 00000001 / reg 17 0000005d / mem 80000040 00000001 / mem 80000060 00000001",
    },
    // two cores store different bytes of one word: one is violated
    Run {
        command: "run --raw --cores 2 a",
        image: BYTES,
        status: 0,
        report: "tcc-report 1 / end done / events 54 / commit 1 1 6 / commit 3 0 6 / core 0 halt 0 / pc 80000014 /
            reg 5 00000011 / reg 6 80000000 / reg 11 00000002 / reg 17 0000005d / core 1 halt 1 / pc 80000014 / reg 5 00000012 /
            reg 6 80000001 / reg 10 00000001 / reg 11 00000002 / reg 17 0000005d / mem 80000040 00001211",
    },
    // and different words of one line: none is
    Run {
        command: "run --raw --cores 2 a",
        image: WORDS,
        status: 0,
        report: "tcc-report 1 / end done / events 34 / commit 1 0 7 / commit 2 1 7 / core 0 halt 0 / pc 80000018 /
            reg 5 00000011 / reg 6 80000000 / reg 11 00000002 / reg 17 0000005d / core 1 halt 1 / pc 80000018 / reg 5 00000012 /
            reg 6 80000004 / reg 7 00000004 / reg 10 00000001 / reg 11 00000002 / reg 17 0000005d / mem 80000040 00000011 /
            mem 80000044 00000012",
    },
    // stopped where one of two cores has halted
    Run {
        command: "run --raw --cores 2 --dirs 2 --steps 10 a",
        image: HALT,
        status: 1,
        report: "tcc-report 1 / end open / events 10 / commit 1 1 2 / core 0 run / pc 80000000 / reg 11 00000002 / core 1 halt 1 /
            pc 80000004 / reg 10 00000001 / reg 11 00000002 / reg 17 0000005d",
    },
    // no code lies behind the image
    Run {
        command: "run --raw a",
        image: &[0x00000013],
        status: 0,
        report: "tcc-report 1 / end done / events 6 / commit 1 0 2 / core 0 trap 1 / pc 80000004 / reg 11 00000001",
    },
];

#[test]
fn images_run_to_their_reports(rt: HostRuntime) -> Result<(), Fail> {
    run_to_reports(&rt, rt.alloc(), &RUNS)
}

/// An image for two cores, the number of events with each seed, and how many lines of each report begin and end so.
struct Seeded {
    image: &'static [u32],
    events: [(u64, u64); 3],
    lines: &'static [(&'static str, &'static str, usize)],
}

const SEEDED: [Seeded; 3] = [
    Seeded {
        image: COUNT,
        events: [(1, 5838), (2, 6380), (3, 6437)],
        lines: &[
            ("commit ", "", 202),
            ("mem ", "", 1),
            ("mem 80000040 ", "000000c8", 1),
        ],
    },
    Seeded {
        image: BYTES,
        events: [(1, 54), (2, 54), (3, 54)],
        lines: &[
            ("commit ", "", 2),
            ("commit ", " 6", 2),
            ("mem ", "", 1),
            ("mem 80000040 ", "00001211", 1),
        ],
    },
    Seeded {
        image: WORDS,
        events: [(1, 36), (2, 34), (3, 34)],
        lines: &[
            ("commit ", "", 2),
            ("commit 1 ", " 7", 1),
            ("commit 2 ", " 7", 1),
            ("mem ", "", 2),
            ("mem 80000040 ", "00000011", 1),
            ("mem 80000044 ", "00000012", 1),
        ],
    },
];

/// With this seed and so many events the image runs to a report with the row's lines.
fn runs_with(
    rt: &impl Host,
    alloc: Global,
    row: &Seeded,
    seed: u64,
    events: u64,
) -> Result<(), Fail> {
    let command = format!(in alloc; "run --raw --cores 2 --seed {seed} a")?;
    let begin = format!(in alloc; "tcc-report 1\nend done\nevents {events}\n")?;
    let ended = call(
        rt,
        alloc,
        command.as_str(),
        &over(&[("a", Held::Image(row.image))]),
    )?;
    assert_eq!(rt; ended.status, 0);
    assert!(rt;
        ended.out.starts_with(begin.as_bytes()),
        "seed {seed}, {events} events"
    );
    for (begin, end, number) in row.lines {
        assert_eq!(rt; count(&ended.out, begin, end), *number, "{begin} {end}");
    }
    Ok(())
}

#[test]
fn the_seed_picks_the_events(rt: HostRuntime) -> Result<(), Fail> {
    for row in &SEEDED {
        for (seed, events) in row.events {
            runs_with(&rt, rt.alloc(), row, seed, events)?;
        }
    }
    Ok(())
}
