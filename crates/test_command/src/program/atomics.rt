// Programs with reservations and atomic memory operations, and their reports.
use super::runs::{Run, run_to_reports};
use std::test::Fail;

/// AMOADD.W x5, x11, (x6) and AMOSWAP.W x6, x6, (x6), which reads x6 before it writes it.
pub(super) const ADD: &[u32] = &[
    0x80000337, 0x04030313, 0x00b322af, 0x0863232f, 0x05d00893, 0x00000073,
];

const RUNS: [Run; 13] = [
    // a store-conditional without a reservation makes no access
    Run {
        command: "run --raw a",
        image: &[0x80000337, 0x18b322af, 0x05d00893, 0x00000073],
        status: 0,
        report: "tcc-report 1 / end done / events 8 / commit 1 0 4 / core 0 halt 0 / pc 8000000c / reg 5 00000001 /
            reg 6 80000000 / reg 11 00000001 / reg 17 0000005d",
    },
    // the end of a transaction leaves no reservation
    Run {
        command: "run --raw a",
        image: &[
            0x80000337, 0x100322af, 0x00000073, 0x18b323af, 0x05d00893, 0x00000073,
        ],
        status: 0,
        report: "tcc-report 1 / end done / events 19 / commit 1 0 3 / load 80000000 4 80000337 / commit 2 0 3 / core 0 halt 0 /
            pc 80000014 / reg 5 80000337 / reg 6 80000000 / reg 7 00000001 / reg 11 00000001 / reg 17 0000005d",
    },
    // another store to the word leaves it, and a store-conditional doesn't
    Run {
        command: "run --raw a",
        image: &[
            0x80000337, 0x04030313, 0x100322af, 0x00632023, 0x18b323af, 0x186324af, 0x05d00893,
            0x00000073,
        ],
        status: 0,
        report: "tcc-report 1 / end done / events 20 / commit 1 0 8 / load 80000040 4 00000000 / core 0 halt 0 / pc 8000001c /
            reg 6 80000040 / reg 9 00000001 / reg 11 00000001 / reg 17 0000005d / mem 80000040 00000001",
    },
    Run {
        command: "run --raw a",
        image: ADD,
        status: 0,
        report: "tcc-report 1 / end done / events 18 / commit 1 0 6 / load 80000040 4 00000000 / load 80000040 4 00000001 /
            core 0 halt 0 / pc 80000014 / reg 6 00000001 / reg 11 00000001 / reg 17 0000005d / mem 80000040 80000040",
    },
    // AMOMIN.W of 0 and -1, and AMOMINU.W of -1 and 1
    Run {
        command: "run --raw a",
        image: &[
            0x80000337, 0x04030313, 0xfff00293, 0x805323af, 0xc0b324af, 0x05d00893, 0x00000073,
        ],
        status: 0,
        report: "tcc-report 1 / end done / events 19 / commit 1 0 7 / load 80000040 4 00000000 / load 80000040 4 ffffffff /
            core 0 halt 0 / pc 80000018 / reg 5 ffffffff / reg 6 80000040 / reg 9 ffffffff / reg 11 00000001 / reg 17 0000005d /
            mem 80000040 00000001",
    },
    // no trap outside RAM where nothing is reserved
    Run {
        command: "run --raw a",
        image: &[0x180022af, 0x05d00893, 0x00000073],
        status: 0,
        report: "tcc-report 1 / end done / events 7 / commit 1 0 3 / core 0 halt 0 / pc 80000008 / reg 5 00000001 /
            reg 11 00000001 / reg 17 0000005d",
    },
    // LR.W at 1, which is no multiple of four and lies outside RAM
    Run {
        command: "run --raw a",
        image: &[0x1005a2af],
        status: 0,
        report: "tcc-report 1 / end done / events 5 / commit 1 0 1 / core 0 trap 4 / pc 80000000 / reg 11 00000001",
    },
    // SC.W at 1, without a reservation
    Run {
        command: "run --raw a",
        image: &[0x1805a2af],
        status: 0,
        report: "tcc-report 1 / end done / events 5 / commit 1 0 1 / core 0 trap 6 / pc 80000000 / reg 11 00000001",
    },
    // AMOADD.W at 1
    Run {
        command: "run --raw a",
        image: &[0x0005a2af],
        status: 0,
        report: "tcc-report 1 / end done / events 5 / commit 1 0 1 / core 0 trap 6 / pc 80000000 / reg 11 00000001",
    },
    // LR.W at 0, outside RAM
    Run {
        command: "run --raw a",
        image: &[0x100022af],
        status: 0,
        report: "tcc-report 1 / end done / events 5 / commit 1 0 1 / core 0 trap 5 / pc 80000000 / reg 11 00000001",
    },
    // AMOADD.W at 0, outside RAM
    Run {
        command: "run --raw a",
        image: &[0x000022af],
        status: 0,
        report: "tcc-report 1 / end done / events 5 / commit 1 0 1 / core 0 trap 7 / pc 80000000 / reg 11 00000001",
    },
    // LR.W with 1 in its field rs2
    Run {
        command: "run --raw a",
        image: &[0x1015a2af],
        status: 0,
        report: "tcc-report 1 / end done / events 5 / commit 1 0 1 / core 0 trap 2 / pc 80000000 / reg 11 00000001",
    },
    // two cores add 2 to one word: the second finds the first one's sum
    Run {
        command: "run --raw --cores 2 --seed 1 a",
        image: &[0x80000337, 0x04030313, 0x00b322af, 0x05d00893, 0x00000073],
        status: 0,
        report: "tcc-report 1 / end done / events 51 / commit 1 0 5 / load 80000040 4 00000000 / commit 3 1 5 /
            load 80000040 4 00000002 / core 0 halt 0 / pc 80000010 / reg 6 80000040 / reg 11 00000002 / reg 17 0000005d /
            core 1 halt 1 / pc 80000010 / reg 5 00000002 / reg 6 80000040 / reg 10 00000001 / reg 11 00000002 / reg 17 0000005d /
            mem 80000040 00000004",
    },
];

#[test]
fn images_with_atomics_run_to_their_reports(rt: HostRuntime) -> Result<(), Fail> {
    run_to_reports(&rt, rt.alloc(), &RUNS)
}
