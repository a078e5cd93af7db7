// Workloads, and the summaries of their runs.
use super::{Row, check};
use std::test::Fail;

/// A command line, its status and its text.
const TRIALS: [(&str, u8, &str); 11] = [
    (
        "trial --cores 2 --seed 1 counters 100",
        0,
        "tcc-trial 1 / work counters 100 / end done / events 5838 / commits 202 / sum 000000c8",
    ),
    (
        "trial --cores 4 --dirs 4 --seed 7 transfers 50",
        0,
        "tcc-trial 1 / work transfers 50 / end done / events 8067 / commits 204 / sum 00000000",
    ),
    (
        "trial --cores 4 --seed 7 sharing 50",
        0,
        "tcc-trial 1 / work sharing 50 / end done / events 5476 / commits 204 / sum 000000c8",
    ),
    (
        "trial --seed 3 stencil 20",
        0,
        "tcc-trial 1 / work stencil 20 / end done / events 452 / commits 21 / sum 00000014",
    ),
    (
        "trial --cores 20 --dirs 2 --seed 1 counters 5",
        0,
        "tcc-trial 1 / work counters 5 / end done / events 23116 / commits 120 / sum 00000064",
    ),
    // stopped, and what is committed by then counts
    (
        "trial --cores 2 --seed 1 --steps 100 counters 0x64",
        1,
        "tcc-trial 1 / work counters 100 / end open / events 100 / commits 3 / sum 00000003",
    ),
    (
        "trial --steps 0 transfers 02047",
        1,
        "tcc-trial 1 / work transfers 2047 / end open / events 0 / commits 0 / sum 00000000",
    ),
    ("trial counters 2048", 2, "tcc: value number"),
    ("trial counters 0", 2, "tcc: value number"),
    ("trial walks 0", 2, "tcc: value kind"),
    ("trial counters", 2, "tcc: words"),
];

#[test]
fn workloads_run_to_their_summaries(rt: HostRuntime) -> Result<(), Fail> {
    for (command, status, text) in TRIALS {
        let row = Row {
            command,
            files: &[],
            status,
            text,
        };
        check(&rt, rt.alloc(), &row)?;
    }
    Ok(())
}
