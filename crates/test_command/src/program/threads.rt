// Runs on host threads: the schedule of one thread is determined, and several take turns at once.
use super::runs::{COUNT, HALT, STORE};
use super::{Held, Row, answer_at, call, check, count, lines, over};
use crossbeam_utils::atomic::AtomicCell;
use std::test::Fail;
use std::thread;
use tcc_world::Gate;

/// The report of two cores that halt at once, by one thread: core 1 commits first.
const HALTED: &str =
    "tcc-report 1 / end done / events 12 / commit 1 1 2 / commit 2 0 2 / core 0 halt 0 / pc 80000004 / reg 11 00000002 /
        reg 17 0000005d / core 1 halt 1 / pc 80000004 / reg 10 00000001 / reg 11 00000002 / reg 17 0000005d";

/// Its schedule: the worker's turns go round the four nodes, from core 1 on.
const SCHEDULE: &str =
    "tcc-schedule 1 / cores 2 dirs 1 sets 16 ways 2 base 2147483648 ram 65536 / e 0 / e 1 / e 0 / e 1 / d c1 v 0 / d v c1 0 /
        d c0 v 0 / d v c0 0 / e 1 / d c1 d0 0 / e 0 / d c0 d0 0 / end 12";

#[test]
fn one_thread_makes_one_schedule(rt: HostRuntime) -> Result<(), Fail> {
    let alloc = rt.alloc();
    for command in [
        "run --raw --threads 1 --cores 2 --record s a",
        "run --raw --threads 1 --cores 2 --seed 7 --record s a",
        "run --raw --threads 1 --batch 1 --cores 2 --record s a",
        // another order of acts, with the same stamps
        "run --raw --threads 1 --batch 1024 --cores 2 --record s a",
    ] {
        let row = Row {
            command,
            files: &[("a", Held::Image(HALT))],
            status: 0,
            text: HALTED,
        };
        check(&rt, alloc, &row)?;
        let ended = call(&rt, alloc, command, &over(row.files))?;
        assert_eq!(rt; ended.record, Some(lines(alloc, &[SCHEDULE])?), "{command}");
    }
    Ok(())
}

/// The head of a schedule of two cores.
const HEAD: &str = "tcc-schedule 1 / cores 2 dirs 1 sets 16 ways 2 base 2147483648 ram 65536";

/// Numbers of acts in a turn and of events, and the events of one thread, which begins at core 1 and comes to core 0 with its fourth turn.
const FIRST: [(&str, &str); 8] = [
    ("--steps 2", "e 0 / e 1 / end 2"),
    ("--batch 1 --steps 2", "e 0 / e 1 / end 2"),
    // core 1 acts twice in its turn
    ("--batch 2 --steps 2", "e 1 / e 1 / end 2"),
    ("--batch 2 --steps 3", "e 0 / e 1 / e 1 / end 3"),
    ("--batch 3 --steps 3", "e 1 / e 1 / e 1 / end 3"),
    // the share of events ends the turn
    ("--batch 1024 --steps 2", "e 1 / e 1 / end 2"),
    // core 1 waits for a word, which ends its turn, and the directory's turn comes next
    ("--batch 4 --steps 4", "e 1 / e 1 / e 1 / d c1 d0 0 / end 4"),
    (
        "--batch 1024 --steps 4",
        "e 1 / e 1 / e 1 / d c1 d0 0 / end 4",
    ),
];

#[test]
fn a_turn_has_as_many_acts_as_are_asked_for(rt: HostRuntime) -> Result<(), Fail> {
    let alloc = rt.alloc();
    for (words, events) in FIRST {
        let command = format!(in alloc; "run --raw --threads 1 --cores 2 {words} --record s a")?;
        let ended = call(
            &rt,
            alloc,
            command.as_str(),
            &over(&[("a", Held::Image(COUNT))]),
        )?;
        assert_eq!(rt; ended.status, 1, "{words}");
        assert_eq!(rt;
            ended.record,
            Some(lines(alloc, &[HEAD, events])?),
            "{words}"
        );
    }
    Ok(())
}

#[test]
fn no_events_are_taken_where_none_are_asked_for(rt: HostRuntime) -> Result<(), Fail> {
    let row = Row {
        command: "run --raw --threads 2 --cores 2 --steps 0 --record s a",
        files: &[("a", Held::Image(STORE))],
        status: 1,
        text: "tcc-report 1 / end open / events 0 / core 0 run / pc 80000000 / reg 11 00000002 / core 1 run / pc 80000000 /
            reg 10 00000001 / reg 11 00000002",
    };
    check(&rt, rt.alloc(), &row)
}

/// A gate at which workers 1 and 2 wait for one another: the first before its turn 0, the second before its turn 1. It counts their
/// passes, and gives up after ten million looks.
#[derive(Drop)]
struct Meeting {
    first: AtomicCell<u64>,
    second: AtomicCell<u64>,
    gave_up: AtomicCell<bool>,
}

impl Meeting {
    fn new() -> Self {
        Meeting {
            first: AtomicCell::new(0),
            second: AtomicCell::new(0),
            gave_up: AtomicCell::new(false),
        }
    }

    /// Looks until a worker has passed.
    fn wait_for(&self, passes: &AtomicCell<u64>) {
        for _ in 0..10_000_000 {
            if passes.load() > 0 {
                return;
            }
            thread::yield_now();
        }
        self.gave_up.store(true);
    }
}

impl Gate for Meeting {
    fn pass(&self, worker: u32, turn: u64) {
        match (worker, turn) {
            (1, 0) => self.wait_for(&self.second),
            (2, 1) => self.wait_for(&self.first),
            _ => {}
        }
        match worker {
            1 => {
                self.first.fetch_add(1);
            }
            2 => {
                self.second.fetch_add(1);
            }
            _ => {}
        }
    }
}

#[test]
fn two_threads_take_turns_at_once(rt: HostRuntime) -> Result<(), Fail> {
    let alloc = rt.alloc();
    let words = [
        "run",
        "--raw",
        "--threads",
        "2",
        "--cores",
        "2",
        "--record",
        "s",
        "a",
    ];
    let gate = Meeting::new();
    let ended = answer_at(
        &rt,
        alloc,
        &words,
        &over(&[("a", Held::Image(COUNT))]),
        &gate,
    )?;
    assert_eq!(rt; ended.status, 0);
    assert_eq!(rt; count(&ended.out, "commit ", ""), 202);
    assert_eq!(rt; count(&ended.out, "mem 80000040 000000c8", ""), 1);
    assert!(rt; gate.first.load() > 0 && gate.second.load() > 0);
    assert!(rt; !gate.gave_up.load());
    Ok(())
}
