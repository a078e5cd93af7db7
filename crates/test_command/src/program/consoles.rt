// What the cores print, told as it commits.
use super::runs::HALT;
use super::{Held, Host, call, call_beside, check_short, count, over};
use std::alloc::Global;
use std::test::Fail;

/// Prints 3, 2 and 1 in three transactions, and halts.
const SAYS: &[u32] = &[
    0x0030_0393,
    0x0303_8513,
    0x0010_0893,
    0x0000_0073,
    0x0000_0893,
    0x0000_0073,
    0xfff3_8393,
    0xfe03_94e3,
    0x05d0_0893,
    0x0000_0073,
];

/// Options, an image, and the lines before the counts.
type Said = (&'static str, &'static [u32], &'static str);

const SAID: [Said; 4] = [
    (
        "",
        SAYS,
        "tcc-consoles 1\nprinted 1 0 33\nprinted 2 0 32\nprinted 3 0 31\n",
    ),
    (
        "--steps 30 --csv",
        SAYS,
        "tcc-consoles 1\nprinted 1 0 33\nprinted 2 0 32\n",
    ),
    ("--steps 0", SAYS, "tcc-consoles 1\n"),
    ("", HALT, "tcc-consoles 1\n"),
];

/// These lines, and then what `count` tells without them.
fn check_said(rt: &impl Host, alloc: Global, said: &Said) -> Result<(), Fail> {
    let (options, image, lines) = said;
    let files = [("a", Held::Image(*image))];
    let plain = format!(in alloc; "count --raw {options} a")?;
    let counts = call(rt, alloc, &plain, &over(&files))?;
    let command = format!(in alloc; "count --raw --consoles {options} a")?;
    let given = call(rt, alloc, &command, &over(&files))?;
    assert_eq!(rt; given.status, counts.status, "{options}");
    assert!(rt;
        given.out.strip_prefix(lines.as_bytes()) == Some(counts.out.as_slice()),
        "{options}"
    );
    assert_eq!(rt; given.err.len(), 0, "{options}");
    Ok(())
}

#[test]
fn what_commits_print_stands_before_the_counts(rt: HostRuntime) -> Result<(), Fail> {
    for said in &SAID {
        check_said(&rt, rt.alloc(), said)?;
    }
    Ok(())
}

#[test]
fn each_core_prints_what_the_report_says(rt: HostRuntime) -> Result<(), Fail> {
    let files = [("a", Held::Image(SAYS))];
    let machine = "--raw --cores 2 --dirs 2 --sets 2 --ways 1 --ram 128 --seed 7";
    let command = format!(in rt.alloc(); "run {machine} a")?;
    let report = call(&rt, rt.alloc(), &command, &over(&files))?;
    assert_eq!(rt; count(&report.out, "console 333231", ""), 2);
    let command = format!(in rt.alloc(); "count --consoles {machine} a")?;
    let given = call(&rt, rt.alloc(), &command, &over(&files))?;
    for end in [" 0 33", " 0 32", " 0 31", " 1 33", " 1 32", " 1 31"] {
        assert_eq!(rt; count(&given.out, "printed ", end), 1, "{end}");
    }
    assert_eq!(rt; count(&given.out, "printed ", ""), 6);
    Ok(())
}

#[test]
fn a_short_output_has_the_first_bytes_of_the_consoles(rt: HostRuntime) -> Result<(), Fail> {
    let command = "count --raw --ram 96 --consoles --steps 30 a";
    check_short(&rt, rt.alloc(), command, &[("a", Held::Image(SAYS))])
}
