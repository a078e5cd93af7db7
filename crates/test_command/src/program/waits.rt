// Why messages wait at the end of a schedule, and what can happen next.
use super::replays::{COPY, STORE_AT_64, STORE_AT_96, TIDS, TWO, WAITS};
use super::runs::STORE;
use super::{Held, RECORD, Row, call, call_beside, check, lines, over};
use std::test::Fail;

/// The images `x` and `y`, the text of the schedule `s`, the status and the text.
struct Wait {
    images: [&'static [u32]; 2],
    schedule: &'static [&'static str],
    status: u8,
    text: &'static str,
}

const WAITING: [Wait; 6] = [
    // the second core's Probe waits for the first core's commit
    Wait {
        images: [STORE_AT_96, COPY],
        schedule: &[TWO, WAITS, "end 18"],
        status: 1,
        text: "tcc-why 1 / end open / events 18 / waits c1 d1 2 early 1 / next d c0 d1 0",
    },
    // a Commit waits for its Mark
    Wait {
        images: [STORE_AT_64, STORE_AT_96],
        schedule: &[TWO, TIDS, "end 14"],
        status: 1,
        text: "tcc-why 1 / end open / events 14 / waits c1 d1 2 count 0 / next e 1",
    },
    // nothing waits
    Wait {
        images: [STORE_AT_64, STORE_AT_96],
        schedule: &[TWO, "end 0"],
        status: 1,
        text: "tcc-why 1 / end open / events 0 / next e 0",
    },
    // the schedule is refused as in a replay
    Wait {
        images: [STORE_AT_96, COPY],
        schedule: &[TWO, "e 0 / e 0 / e 0 / e 0 / end 4"],
        status: 4,
        text: "tcc: schedule line 6",
    },
    Wait {
        images: [STORE_AT_96, COPY],
        schedule: &[
            "tcc-schedule 1 / cores 2 dirs 1 sets 16 ways 2 base 2147483648 ram 65536 / end 0",
        ],
        status: 4,
        text: "tcc: schedule line 2",
    },
    Wait {
        images: [&[], COPY],
        schedule: &[TWO, "e 0 / e 0 / e 0 / e 0 / end 4"],
        status: 3,
        text: "tcc: image 0 load 3 0",
    },
];

#[test]
fn what_waits_is_told_with_its_reason(rt: HostRuntime) -> Result<(), Fail> {
    for wait in &WAITING {
        let [x, y] = wait.images;
        let row = Row {
            command: "why --raw --cores 2 --dirs 2 s x y",
            files: &[
                ("s", Held::Lines(wait.schedule)),
                ("x", Held::Image(x)),
                ("y", Held::Image(y)),
            ],
            status: wait.status,
            text: wait.text,
        };
        check(&rt, rt.alloc(), &row)?;
    }
    Ok(())
}

#[test]
fn nothing_waits_at_the_end_of_a_run_that_is_done(rt: HostRuntime) -> Result<(), Fail> {
    let alloc = rt.alloc();
    let run = "run --raw --record s a";
    let first = call(&rt, alloc, run, &over(&[("a", Held::Image(STORE))]))?;
    let record = first.record.ok_or("no record was written")?;
    let told = call_beside(&rt, alloc, "why --raw s a", STORE, RECORD, &record)?;
    let text = lines(alloc, &["tcc-why 1 / end done / events 19 / next none"])?;
    assert_eq!(rt; told.status, 0);
    assert_eq!(rt; told.out, text);
    assert_eq!(rt; told.record, Some(record));
    Ok(())
}
