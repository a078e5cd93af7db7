// Schedules whose events are taken one by one, and schedules that are refused with a line. The images are for two cores and two
// directories, where nothing else is said: the line with the word at 80000040 is at home at the first directory, that with the word at
// 80000060 at the second.
use super::{Held, Row, check, lines};
use std::test::Fail;

/// Stores 2, the number of cores, at 80000040, and ends the transaction.
pub(super) const STORE_AT_64: &[u32] = &[0x80000337, 0x04b32023, 0x00000073];

/// Stores it at 80000060.
pub(super) const STORE_AT_96: &[u32] = &[0x80000337, 0x06b32023, 0x00000073];

/// Copies the word at 80000060 to 80000040.
pub(super) const COPY: &[u32] = &[0x80000337, 0x06032283, 0x04532023, 0x00000073];

/// Loads the word at 80000060, and stores 2 at 80000040.
const LOAD_AND_STORE: &[u32] = &[0x80000337, 0x06032283, 0x04b32023, 0x00000073];

/// Loads the word at 80000060, and traps where it is 0.
const TRAP_AT_ZERO: &[u32] = &[0x80000337, 0x06032283, 0x00029463, 0x00100073, 0x00000073];

/// Stores the core's number at 80000080.
const STORE_WORD: &[u32] = &[0x80000337, 0x08632023, 0x00000073];

/// Stores 2 in the eight words from 80000080 on.
const STORE_LINE: &[u32] = &[
    0x80000337, 0x08b32023, 0x08b32223, 0x08b32423, 0x08b32623, 0x08b32823, 0x08b32a23, 0x08b32c23,
    0x08b32e23, 0x00000073,
];

/// The first two lines of a schedule for two directories, and for one.
pub(super) const TWO: &str =
    "tcc-schedule 1 / cores 2 dirs 2 sets 16 ways 2 base 2147483648 ram 65536";

const ONE: &str = "tcc-schedule 1 / cores 2 dirs 1 sets 16 ways 2 base 2147483648 ram 65536";

/// Both cores get a TID, and the second commits.
pub(super) const TIDS: &str =
    "e 0 / e 0 / e 0 / d c0 v 0 / e 1 / e 1 / e 1 / d c1 v 0 / d v c1 0 / d v c0 0 / d c0 d1 0 / d c1 d1 0 / d d1 c1 0 / e 1";

/// The second core reads what the first is to write, and its Mark and its Probe wait.
pub(super) const WAITS: &str =
    "e 1 / e 1 / d c1 d1 0 / d d1 c1 0 / e 1 / e 1 / e 0 / e 0 / e 0 / d c0 v 0 / e 1 / d c1 v 0 / d v c0 0 / d c0 d0 0 /
        d v c1 0 / d c1 d0 0 / d d0 c1 0 / d c1 d1 1";

/// The first core commits a word; its Commit is on its way.
const OWNS: &str =
    "e 0 / e 0 / e 0 / d c0 v 0 / d v c0 0 / d c0 d0 0 / d d0 c0 0 / e 0 / d c0 d0 1";

/// A command line, the images `x` and `y`, the text of the schedule `s`, the status and the text.
struct Replay {
    command: &'static str,
    images: [&'static [u32]; 2],
    schedule: &'static [&'static str],
    status: u8,
    text: &'static str,
}

const REPLAY: &str = "replay --raw --cores 2 --dirs 2 s x y";

const REPLAYS: [Replay; 18] = [
    // the second of two TIDs commits first, at the other directory
    Replay {
        command: REPLAY,
        images: [STORE_AT_64, STORE_AT_96],
        schedule: &[TWO, TIDS, "end 14"],
        status: 1,
        text: "tcc-report 1 / end open / events 14 / commit 2 1 3 / core 0 run / pc 80000000 / reg 11 00000002 / core 1 run /
            pc 8000002c / reg 6 80000000 / reg 10 00000001 / reg 11 00000002 / mem 80000060 00000002",
    },
    // and then the first
    Replay {
        command: REPLAY,
        images: [STORE_AT_64, STORE_AT_96],
        schedule: &[TWO, TIDS, "d c0 d0 0 / d d0 c0 0 / e 0 / end 17"],
        status: 1,
        text: "tcc-report 1 / end open / events 17 / commit 1 0 3 / commit 2 1 3 / core 0 run / pc 8000000c / reg 6 80000000 /
            reg 11 00000002 / core 1 run / pc 8000002c / reg 6 80000000 / reg 10 00000001 / reg 11 00000002 /
            mem 80000040 00000002 / mem 80000060 00000002",
    },
    // a TID that is granted before it is asked for, and an end that counts a line too many
    Replay {
        command: REPLAY,
        images: [STORE_AT_64, STORE_AT_96],
        schedule: &[
            TWO,
            "e 0 / e 0 / e 0 / e 1 / e 1 / e 1 / d c1 v 0 / d v c1 0 / d v c0 0 / d c0 d1 0 / d c1 d1 0 / d d1 c1 0 / e 1 / end 13",
        ],
        status: 4,
        text: "tcc: schedule line 11",
    },
    Replay {
        command: REPLAY,
        images: [STORE_AT_64, STORE_AT_96],
        schedule: &[
            TWO,
            "e 0 / e 0 / e 0 / e 1 / e 1 / e 1 / d c1 v 0 / d v c1 0 / d v c0 0 / d c0 d1 0 / d c1 d1 0 / d d1 c1 0 / e 1 / end 14",
        ],
        status: 4,
        text: "tcc: schedule line 16",
    },
    // a reader that must wait is violated; its Abort overtakes its Mark, which is dropped
    Replay {
        command: REPLAY,
        images: [STORE_AT_96, COPY],
        schedule: &[
            TWO,
            WAITS,
            "d c0 d1 0 / d d1 c0 0 / e 0 / d c0 d1 1 / d c0 d1 2 / d d1 c1 1 / d c1 d1 3 / d c1 d0 2 / d c1 d0 1 / end 27",
        ],
        status: 1,
        text: "tcc-report 1 / end open / events 27 / commit 1 0 3 / core 0 run / pc 8000000c / reg 6 80000000 / reg 11 00000002 /
            core 1 run / pc 80000020 / reg 10 00000001 / reg 11 00000002 / mem 80000060 00000002",
    },
    // a Probe that waits
    Replay {
        command: REPLAY,
        images: [STORE_AT_96, COPY],
        schedule: &[TWO, WAITS, "d c1 d1 2 / end 19"],
        status: 4,
        text: "tcc: schedule line 21",
    },
    // a larger TID commits over a read
    Replay {
        command: REPLAY,
        images: [LOAD_AND_STORE, STORE_AT_96],
        schedule: &[
            TWO,
            "e 0 / e 0 / d c0 d1 0 / d d1 c0 0 / e 0 / e 0 / e 0 / d c0 v 0 / d v c0 0 / d c0 d1 1 / d c0 d1 2 / e 1 / e 1 / e 1 /
                d c1 v 0 / d v c1 0 / d c1 d1 0 / d d1 c1 0 / e 1 / d c1 d1 1 / d c1 d1 2 / d d1 c0 2 / d c0 d0 0 / d d0 c0 0 /
                d d1 c0 1 / e 0 / end 26",
        ],
        status: 1,
        text: "tcc-report 1 / end open / events 26 / commit 1 0 4 / load 80000060 4 00000000 / commit 2 1 3 / core 0 run /
            pc 80000010 / reg 6 80000000 / reg 11 00000002 / core 1 run / pc 8000002c / reg 6 80000000 / reg 10 00000001 /
            reg 11 00000002 / mem 80000040 00000002 / mem 80000060 00000002",
    },
    // a violation between the request for a TID and its grant, by an attempt that trapped: no commit has TID 2, and no core a trap
    Replay {
        command: REPLAY,
        images: [STORE_AT_96, TRAP_AT_ZERO],
        schedule: &[
            TWO,
            "e 1 / e 1 / d c1 d1 0 / d d1 c1 0 / e 1 / e 1 / e 1 / e 0 / e 0 / e 0 / d c0 v 0 / d v c0 0 / d c0 d1 0 / d d1 c0 0 /
                e 0 / d c0 d1 1 / d c0 d1 2 / d d1 c1 1 / d c1 v 0 / d v c1 0 / end 20",
        ],
        status: 1,
        text: "tcc-report 1 / end open / events 20 / commit 1 0 3 / core 0 run / pc 8000000c / reg 6 80000000 / reg 11 00000002 /
            core 1 run / pc 80000020 / reg 10 00000001 / reg 11 00000002 / mem 80000060 00000002",
    },
    // an invalidation that overtakes the Fill; the first delivery of d c1 d1 2 asks the owner, and the message stays
    Replay {
        command: REPLAY,
        images: [STORE_AT_96, COPY],
        schedule: &[
            TWO,
            "e 1 / e 1 / d c1 d1 0 / e 0 / e 0 / e 0 / d c0 v 0 / d v c0 0 / d c0 d1 0 / d d1 c0 0 / e 0 / d c0 d1 1 / d c0 d1 2 /
                d d1 c1 1 / d c1 d1 1 / d d1 c1 0 / e 1 / d c1 d1 2 / d d1 c0 1 / d c0 d1 3 / d c1 d1 2 / d d1 c1 2 / e 1 / e 1 /
                e 1 / d c1 v 0 / d v c1 0 / d c0 d0 0 / d c1 d0 0 / d d0 c1 0 / d c1 d1 4 / d d1 c1 3 / e 1 / end 33",
        ],
        status: 1,
        text: "tcc-report 1 / end open / events 33 / commit 1 0 3 / commit 2 1 4 / load 80000060 4 00000002 / core 0 run /
            pc 8000000c / reg 6 80000000 / reg 11 00000002 / core 1 run / pc 80000030 / reg 5 00000002 / reg 6 80000000 /
            reg 10 00000001 / reg 11 00000002 / mem 80000040 00000002 / mem 80000060 00000002",
    },
    // a store of a whole line over a dirty owner, whose write-back comes too late and is dropped
    Replay {
        command: "replay --raw --cores 2 s x y",
        images: [STORE_WORD, STORE_LINE],
        schedule: &[
            ONE,
            OWNS,
            "d c0 d0 2 / x 0 4 0 / e 1 / e 1 / e 1 / e 1 / e 1 / e 1 / e 1 / e 1 / e 1 / e 1 / d c1 v 0 / d v c1 0 / d c1 d0 0 /
                d d0 c1 0 / e 1 / d c1 d0 1 / d c1 d0 2 / d c0 d0 3 / d d0 c0 1 / x 1 4 0 / d c1 d0 3 / end 32",
        ],
        status: 1,
        text: "tcc-report 1 / end open / events 32 / commit 1 0 3 / commit 2 1 10 / core 0 run / pc 8000000c / reg 6 80000000 /
            reg 11 00000002 / core 1 run / pc 80000048 / reg 6 80000000 / reg 10 00000001 / reg 11 00000002 /
            mem 80000080 00000002 / mem 80000084 00000002 / mem 80000088 00000002 / mem 8000008c 00000002 /
            mem 80000090 00000002 / mem 80000094 00000002 / mem 80000098 00000002 / mem 8000009c 00000002",
    },
    // a write-back before its own Commit
    Replay {
        command: "replay --raw --cores 2 s x y",
        images: [STORE_WORD, STORE_LINE],
        schedule: &[ONE, OWNS, "x 0 4 0 / d c0 d0 3 / end 11"],
        status: 4,
        text: "tcc: schedule line 13",
    },
    // settings that aren't the options'
    Replay {
        command: "replay --raw --cores 2 --dirs 2 --sets 32 s x y",
        images: [STORE_AT_64, STORE_AT_96],
        schedule: &[TWO, TIDS, "end 14"],
        status: 4,
        text: "tcc: schedule line 2",
    },
    Replay {
        command: "replay --raw --cores 2 --dirs 2 --ram 131072 s x y",
        images: [STORE_AT_64, STORE_AT_96],
        schedule: &[TWO, TIDS, "end 14"],
        status: 4,
        text: "tcc: schedule line 2",
    },
    // the text is read before its settings are compared
    Replay {
        command: "replay --raw --dirs 2 --cores 3 s x y",
        images: [STORE_AT_64, STORE_AT_96],
        schedule: &[TWO, "e 0 / e 2 / end 2"],
        status: 4,
        text: "tcc: schedule line 4",
    },
    // a version that doesn't go with the settings, and none
    Replay {
        command: REPLAY,
        images: [STORE_AT_64, STORE_AT_96],
        schedule: &[
            "tcc-schedule 2 / cores 2 dirs 2 sets 16 ways 2 base 2147483648 ram 65536",
            TIDS,
            "end 14",
        ],
        status: 4,
        text: "tcc: schedule line 2",
    },
    Replay {
        command: REPLAY,
        images: [STORE_AT_64, STORE_AT_96],
        schedule: &[
            "tcc-schedule 3 / cores 2 dirs 2 sets 16 ways 2 base 2147483648 ram 65536 / end 0",
        ],
        status: 4,
        text: "tcc: schedule line 1",
    },
    // no event, and options behind the images
    Replay {
        command: "replay s --dirs 2 x --raw y --cores=0x2",
        images: [STORE_AT_64, STORE_AT_96],
        schedule: &[TWO, "end 0"],
        status: 1,
        text: "tcc-report 1 / end open / events 0 / core 0 run / pc 80000000 / reg 11 00000002 / core 1 run / pc 80000020 /
            reg 10 00000001 / reg 11 00000002",
    },
    // an image's fault is named before the schedule's
    Replay {
        command: REPLAY,
        images: [STORE_AT_64, &[]],
        schedule: &["tcc-schedule 3"],
        status: 3,
        text: "tcc: image 1 load 3 0",
    },
];

#[test]
fn schedules_are_taken_or_refused_with_a_line(rt: HostRuntime) -> Result<(), Fail> {
    for replay in &REPLAYS {
        let [x, y] = replay.images;
        let row = Row {
            command: replay.command,
            files: &[
                ("s", Held::Lines(replay.schedule)),
                ("x", Held::Image(x)),
                ("y", Held::Image(y)),
            ],
            status: replay.status,
            text: replay.text,
        };
        check(&rt, rt.alloc(), &row)?;
    }
    Ok(())
}

/// The text is read before its settings are compared, so RAM may be small, which takes less time.
#[test]
fn each_beginning_of_a_schedule_is_refused(rt: HostRuntime) -> Result<(), Fail> {
    let alloc = rt.alloc();
    let whole = lines(alloc, &[TWO, TIDS, "end 14"])?;
    for length in 0..whole.len() {
        let begin = &whole[..length];
        let line = begin.split(|byte| *byte == b'\n').count();
        let text = format!(in alloc; "tcc: schedule line {line}")?;
        let row = Row {
            command: "replay --raw --ram 64 --cores 2 --dirs 2 s x y",
            files: &[
                ("s", Held::Bytes(begin)),
                ("x", Held::Image(STORE_AT_64)),
                ("y", Held::Image(STORE_AT_96)),
            ],
            status: 4,
            text: text.as_str(),
        };
        check(&rt, alloc, &row)?;
    }
    Ok(())
}
