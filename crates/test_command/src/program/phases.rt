// Runs by phases, their records, and the replays of these.
use super::runs::HALT;
use super::{Held, Host, RECORD, Row, call, call_beside, check, count, over};
use std::alloc::Global;
use std::test::Fail;

/// Sets its phase to the core's number, and then ends two transactions and halts in a third.
const PHASED: &[u32] = &[0x00a00db3, 0x00000073, 0x00000073, 0x05d00893, 0x00000073];

const STOPPED: &str =
    "tcc-phases 1 / commit 1 0 2 phase 0 / commit 2 0 1 phase 0 / commit 3 1 2 phase 0 / tcc-report 1 / end open / events 20 /
        commit 1 0 2 / commit 2 0 1 / commit 3 1 2 / core 0 run / pc 8000000c / reg 11 00000002 / core 1 run / pc 80000008 /
        reg 10 00000001 / reg 11 00000002 / reg 27 00000001";

/// A command line, its status and its text.
const RUNS: [(&str, u8, &str); 7] = [
    (
        "phases --raw --steps 0 a",
        1,
        "tcc-phases 1 / tcc-report 1 / end open / events 0 / core 0 run / pc 80000000 / reg 11 00000001",
    ),
    ("phases --raw --cores 2 --steps 20 --seed 1 a", 1, STOPPED),
    (
        "phases --raw h",
        0,
        "tcc-phases 1 / commit 1 0 2 phase 0 / tcc-report 1 / end done / events 6 / commit 1 0 2 / core 0 halt 0 / pc 80000004 /
            reg 11 00000001 / reg 17 0000005d",
    ),
    ("phases a", 3, "tcc: image 0 elf 1 52"),
    ("phases --raw c", 5, "tcc: store c"),
    ("phases --raw --threads 2 --record s a", 2, "tcc: words"),
    ("phases --raw --steps 4194305 a", 2, "tcc: value steps"),
];

#[test]
fn runs_by_phases_give_their_phases_and_reports(rt: HostRuntime) -> Result<(), Fail> {
    for (command, status, text) in RUNS {
        let row = Row {
            command,
            files: &[("a", Held::Image(PHASED)), ("h", Held::Image(HALT))],
            status,
            text,
        };
        check(&rt, rt.alloc(), &row)?;
    }
    Ok(())
}

/// The second core's last two transactions commit after all others.
fn is_ordered(rt: &impl Host, alloc: Global, command: &str) -> Result<(), Fail> {
    let ended = call(rt, alloc, command, &over(&[("a", Held::Image(PHASED))]))?;
    assert_eq!(rt; ended.status, 0);
    assert!(rt; ended.out.starts_with(b"tcc-phases 1\n"));
    assert_eq!(rt; count(&ended.out, "commit ", " phase 0"), 4);
    assert_eq!(rt; count(&ended.out, "commit 5 1 1 phase 1", ""), 1);
    assert_eq!(rt; count(&ended.out, "commit 6 1 2 phase 1", ""), 1);
    assert_eq!(rt; count(&ended.out, "events 34", ""), 1);
    Ok(())
}

/// The replay of the record prints the report that stands behind the phases.
fn is_replayed(rt: &impl Host, alloc: Global, command: &str) -> Result<(), Fail> {
    let first = call(rt, alloc, command, &over(&[("a", Held::Image(PHASED))]))?;
    let record = first.record.ok_or("no record was written")?;
    let replay = "replay --raw --cores 2 s a";
    let again = call_beside(rt, alloc, replay, PHASED, RECORD, &record)?;
    assert_eq!(rt; again.status, first.status);
    assert!(rt; again.out.starts_with(b"tcc-report 1\n"));
    assert!(rt; first.out.ends_with(&again.out));
    Ok(())
}

#[test]
fn earlier_phases_commit_first(rt: HostRuntime) -> Result<(), Fail> {
    for command in [
        "phases --raw --cores 2 --seed 1 --record s a",
        "phases --raw --cores 2 --seed 2 --record s a",
        "phases --raw --cores 2 --seed 3 --record s a",
    ] {
        is_ordered(&rt, rt.alloc(), command)?;
        is_replayed(&rt, rt.alloc(), command)?;
    }
    is_replayed(
        &rt,
        rt.alloc(),
        "phases --raw --cores 2 --steps 20 --record s a",
    )
}
