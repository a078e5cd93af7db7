// Runs that are written down at their end, and taken up again from there.
use super::{Given, Held, Host, call, call_beside, check_short, count, over};
use std::alloc::Global;
use std::test::Fail;

/// Adds 1 to the word at 80000040 and prints it as a digit, in each of three transactions, and halts.
const IMAGE: &[u32] = &[
    0x8000_0337,
    0x0030_0393,
    0x0403_2283,
    0x0012_8293,
    0x0453_2023,
    0x0302_8513,
    0x0010_0893,
    0x0000_0073,
    0x0000_0893,
    0x0000_0073,
    0xfff3_8393,
    0xfc03_9ee3,
    0x05d0_0893,
    0x0000_0073,
];

/// On this machine.
const MACHINE: &str = "--raw --cores 2 --dirs 2 --sets 2 --ways 1 --ram 128";

/// So many steps are more than the whole run has events.
const STEPS: u64 = 400;

/// The text of what was given, whose status says that it is whole.
fn written(given: &Given) -> Result<&[u8], Fail> {
    if 1 < given.status {
        return Err("it was refused")?;
    }
    Ok(given.out.as_slice())
}

/// What a run of so many steps of the seed tells, and its checkpoint.
fn begun(rt: &impl Host, alloc: Global, verb: &str, steps: u64, more: &str) -> Result<Given, Fail> {
    let command = format!(in alloc; "{verb} {MACHINE} --seed 7 --steps {steps} {more} a")?;
    call(rt, alloc, &command, &over(&[("a", Held::Image(IMAGE))]))
}

/// The same of a run that goes on from this checkpoint.
fn resumed(
    rt: &impl Host,
    alloc: Global,
    verb: &str,
    from: &[u8],
    steps: u64,
    more: &str,
) -> Result<Given, Fail> {
    let command = format!(in alloc; "{verb} {MACHINE} --resume s --steps {steps} {more} a")?;
    call_beside(rt, alloc, &command, IMAGE, "s", from)
}

/// The checkpoint after so many steps.
fn checkpoint(rt: &impl Host, alloc: Global, steps: u64) -> Result<Vec<u8>, Fail> {
    let given = begun(rt, alloc, "count", steps, "--checkpoint s")?;
    let plain = begun(rt, alloc, "count", steps, "")?;
    assert_eq!(rt; written(&given)?, written(&plain)?, "{steps}");
    Ok(given.record.ok_or("nothing was written")?)
}

/// What goes on after so many steps tells what the whole run does.
fn check_cut(
    rt: &impl Host,
    alloc: Global,
    verb: &str,
    steps: u64,
    more: &str,
) -> Result<(), Fail> {
    let left = checkpoint(rt, alloc, steps)?;
    let whole = begun(rt, alloc, verb, STEPS, more)?;
    let rest = resumed(rt, alloc, verb, &left, STEPS.saturating_sub(steps), more)?;
    assert_eq!(rt; rest.status, whole.status, "{verb} {more}");
    assert_eq!(rt; rest.out.as_slice(), whole.out.as_slice(), "{verb} {more}");
    Ok(())
}

#[test]
fn a_run_goes_on_from_its_checkpoint(rt: HostRuntime) -> Result<(), Fail> {
    for k in 0..6 {
        check_cut(&rt, rt.alloc(), "count", 24 * k, "")?;
        check_cut(&rt, rt.alloc(), "state", 24 * k, "")?;
    }
    check_cut(&rt, rt.alloc(), "count", 40, "--csv")
}

/// From which event to which one a trace goes, counted from the checkpoint after so many steps, and its other options.
type Window = (u64, u64, u64, &'static str);

const WINDOWS: [Window; 7] = [
    (0, 0, 9, ""),
    (24, 0, 9, "--states"),
    (48, 5, 14, ""),
    (72, 5, 14, "--states"),
    (96, 9, 9, ""),
    // to the end, and behind it
    (120, 0, 400, "--states"),
    (120, 300, 309, "--states"),
];

/// The window is that of the whole run's trace.
fn check_window(rt: &impl Host, alloc: Global, window: Window) -> Result<(), Fail> {
    let (steps, from, to, more) = window;
    let left = checkpoint(rt, alloc, steps)?;
    let begin = steps.saturating_add(from);
    let end = steps.saturating_add(to);
    let there = format!(in alloc; "--from {begin} --to {end} {more}")?;
    let whole = begun(rt, alloc, "trace", STEPS, &there)?;
    let here = format!(in alloc; "--from {from} --to {to} {more}")?;
    let rest = resumed(
        rt,
        alloc,
        "trace",
        &left,
        STEPS.saturating_sub(steps),
        &here,
    )?;
    assert_eq!(rt; rest.status, whole.status, "{steps} {here}");
    assert_eq!(rt; written(&rest)?, written(&whole)?, "{steps} {here}");
    Ok(())
}

#[test]
fn a_trace_goes_on_from_a_checkpoint(rt: HostRuntime) -> Result<(), Fail> {
    for window in WINDOWS {
        check_window(&rt, rt.alloc(), window)?;
    }
    Ok(())
}

#[test]
fn a_short_output_has_the_first_bytes_of_that_trace(rt: HostRuntime) -> Result<(), Fail> {
    let alloc = rt.alloc();
    let left = checkpoint(&rt, alloc, 24)?;
    let files = [
        ("a", Held::Image(IMAGE)),
        ("s", Held::Bytes(left.as_slice())),
    ];
    let command = format!(in alloc; "trace {MACHINE} --resume s --to 4 a")?;
    check_short(&rt, alloc, &command, &files)
}

#[test]
fn the_next_checkpoint_is_that_of_the_whole_run(rt: HostRuntime) -> Result<(), Fail> {
    let left = checkpoint(&rt, rt.alloc(), 24)?;
    let given = resumed(&rt, rt.alloc(), "count", &left, 24, "--checkpoint s")?;
    let whole = checkpoint(&rt, rt.alloc(), 48)?;
    assert_eq!(rt;
        given.record.ok_or("nothing was written")?.as_slice(),
        whole.as_slice()
    );
    Ok(())
}

/// What the first steps of a run tell, the others, and all of them.
#[derive(Drop)]
struct Parts {
    first: Given,
    rest: Given,
    whole: Given,
}

/// A run that is cut after so many steps, with this option of `count`.
fn in_parts(rt: &impl Host, alloc: Global, steps: u64, more: &str) -> Result<Parts, Fail> {
    let left = checkpoint(rt, alloc, steps)?;
    let leaves = format!(in alloc; "{more} --checkpoint s")?;
    let first = begun(rt, alloc, "count", steps, &leaves)?;
    assert!(rt; first.record.as_deref() == Some(left.as_slice()), "{more}");
    let rest = resumed(
        rt,
        alloc,
        "count",
        &left,
        STEPS.saturating_sub(steps),
        &leaves,
    )?;
    let whole = begun(rt, alloc, "count", STEPS, &leaves)?;
    assert_eq!(rt; rest.status, whole.status, "{more}");
    assert!(rt; rest.record.as_deref() == whole.record.as_deref(), "{more}");
    Ok(Parts { first, rest, whole })
}

/// The first line of a table, without what ends it.
fn names_of(table: &[u8]) -> &[u8] {
    let names = table.iter().take_while(|byte| **byte != b'\n').count();
    &table[..names]
}

#[test]
fn the_rows_of_parts_are_those_of_the_whole_run(rt: HostRuntime) -> Result<(), Fail> {
    // where a row stands, where none does, and at the end
    for steps in [0, 1, 32, 40, 213] {
        let cut = in_parts(&rt, rt.alloc(), steps, "--every 16")?;
        let table = written(&cut.whole)?;
        let more = written(&cut.rest)?
            .strip_prefix(names_of(table))
            .ok_or("other names")?;
        assert!(rt; table.ends_with(more), "{steps}");
        let rows = |given: &Given| count(&given.out, "1,", "");
        let of_parts = rows(&cut.first).saturating_add(rows(&cut.rest));
        assert_eq!(rt; of_parts, rows(&cut.whole).saturating_add(1), "{steps}");
    }
    Ok(())
}

#[test]
fn the_consoles_of_parts_are_those_of_the_whole_run(rt: HostRuntime) -> Result<(), Fail> {
    let alloc = rt.alloc();
    for k in 0..6 {
        let cut = in_parts(&rt, alloc, 24 * k, "--consoles")?;
        let counts = begun(&rt, alloc, "count", 24 * k, "")?;
        let lines = written(&cut.first)?
            .strip_suffix(written(&counts)?)
            .ok_or("other counts")?;
        let more = written(&cut.rest)?
            .strip_prefix(b"tcc-consoles 1\n".as_slice())
            .ok_or("another version")?;
        assert!(rt;
            written(&cut.whole)?.strip_prefix(lines) == Some(more),
            "{k}"
        );
    }
    Ok(())
}

/// A checkpoint is refused so, by a trace too, and stays as it is.
fn check_refused(
    rt: &impl Host,
    alloc: Global,
    machine: &str,
    from: &[u8],
    line: &str,
) -> Result<(), Fail> {
    for command in ["count --checkpoint s", "trace --states"] {
        let command = format!(in alloc; "{command} {machine} --resume s a")?;
        let given = call_beside(rt, alloc, &command, IMAGE, "s", from)?;
        assert_eq!(rt; given.status, 4, "{line}");
        assert_eq!(rt; given.err.as_slice(), line.as_bytes());
        assert_eq!(rt; given.out.len(), 0, "{line}");
    }
    Ok(())
}

#[test]
fn what_is_no_checkpoint_is_refused(rt: HostRuntime) -> Result<(), Fail> {
    let alloc = rt.alloc();
    let text = checkpoint(&rt, alloc, 24)?;
    let rest = text
        .as_slice()
        .strip_prefix(b"tcc-run 1\n")
        .ok_or("another version")?;
    check_refused(&rt, alloc, MACHINE, b"", "tcc: schedule line 1\n")?;
    check_refused(&rt, alloc, MACHINE, rest, "tcc: schedule line 1\n")?;
    check_refused(
        &rt,
        alloc,
        MACHINE,
        b"tcc-run 1\ngenerator 7\n",
        "tcc: schedule line 2\n",
    )?;
    let before = text
        .as_slice()
        .split(|byte| *byte == b'\n')
        .take_while(|row| !row.starts_with(b"settings "))
        .count();
    let line = format!(in alloc; "tcc: schedule line {}\n", before.saturating_add(1))?;
    let other = "--raw --cores 2 --dirs 2 --sets 2 --ways 2 --ram 128";
    check_refused(&rt, alloc, other, &text, &line)
}

#[test]
fn a_checkpoint_is_stored_before_anything_is_told(rt: HostRuntime) -> Result<(), Fail> {
    let files = [("a", Held::Image(IMAGE))];
    let mut world = over(&files);
    world.fails = Some(1);
    let command = format!(in rt.alloc(); "count {MACHINE} --checkpoint s a")?;
    let given = call(&rt, rt.alloc(), &command, &world)?;
    assert_eq!(rt; given.status, 5);
    assert_eq!(rt; given.err.as_slice(), b"tcc: store s\n".as_slice());
    assert!(rt; given.out.len() == 0 && given.record.is_none());
    Ok(())
}

/// Where the checkpoint can't be written, this option's text is all but this last part.
fn check_unsaid(rt: &impl Host, alloc: Global, more: &str, last: &[u8]) -> Result<(), Fail> {
    let files = [("a", Held::Image(IMAGE))];
    let mut world = over(&files);
    world.fails = Some(1);
    let command = format!(in alloc; "count {MACHINE} {more} --checkpoint s a")?;
    let given = call(rt, alloc, &command, &world)?;
    let whole = call(rt, alloc, &command, &over(&files))?;
    assert_eq!(rt; given.status, 5);
    assert_eq!(rt; given.err.as_slice(), b"tcc: store s\n".as_slice());
    assert!(rt; given.record.is_none(), "{more}");
    assert!(rt;
        whole.out.strip_suffix(last) == Some(given.out.as_slice()),
        "{more}"
    );
    Ok(())
}

#[test]
fn a_checkpoint_is_stored_before_the_end_is_told(rt: HostRuntime) -> Result<(), Fail> {
    let alloc = rt.alloc();
    let files = [("a", Held::Image(IMAGE))];
    let command = format!(in alloc; "count {MACHINE} a")?;
    let counts = call(&rt, alloc, &command, &over(&files))?;
    check_unsaid(&rt, alloc, "--consoles", &counts.out)?;
    let command = format!(in alloc; "count {MACHINE} --csv a")?;
    let totals = call(&rt, alloc, &command, &over(&files))?;
    let row = totals
        .out
        .strip_prefix(names_of(&totals.out))
        .and_then(|rest| rest.strip_prefix(b"\n".as_slice()))
        .ok_or("no row")?;
    check_unsaid(&rt, alloc, "--every 16", row)
}
