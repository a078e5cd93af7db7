// ELF files and several images. One small ELF file was made by hand: it is run whole, cut to each length, and with single fields
// changed.
use super::runs::{HALT, STORE};
use super::{File, Held, Host, Row, check};
use std::alloc::Global;
use std::test::Fail;

/// An empty header of a type that is passed over, beside one writable and executable segment of two instructions and eight
/// bytes more.
const FILE: [u8; 124] = [
    0x7f, 0x45, 0x4c, 0x46, 1, 1, 1, 0, 0, 0, 0, 0, 0, 0, 0, 0, //
    2, 0, 243, 0, 1, 0, 0, 0, 0, 0, 0, 0x80, 52, 0, 0, 0, //
    0, 0, 0, 0, 0, 0, 0, 0, 52, 0, 32, 0, 2, 0, 0, 0, //
    0, 0, 0, 0, //
    3, 0, 0, 0x70, 0x74, 0, 0, 0, 0, 0, 0, 0, 0, 0, 0, 0, //
    0, 0, 0, 0, 0, 0, 0, 0, 4, 0, 0, 0, 1, 0, 0, 0, //
    1, 0, 0, 0, 0x74, 0, 0, 0, 0, 0, 0, 0x80, 0, 0, 0, 0x80, //
    8, 0, 0, 0, 16, 0, 0, 0, 7, 0, 0, 0, 4, 0, 0, 0, //
    0x93, 0x08, 0xd0, 0x05, 0x73, 0, 0, 0,
];

/// The program refuses these bytes as an image with this line.
fn refused(rt: &impl Host, alloc: Global, bytes: &[u8], text: &str) -> Result<(), Fail> {
    let row = Row {
        command: "run a",
        files: &[("a", Held::Bytes(bytes))],
        status: 3,
        text,
    };
    check(rt, alloc, &row)
}

#[test]
fn each_cut_file_is_refused(rt: HostRuntime) -> Result<(), Fail> {
    for length in 0..FILE.len() {
        let line = match length {
            0..52 => "tcc: image 0 elf 1 52",
            52..116 => "tcc: image 0 elf 1 116",
            _ => "tcc: image 0 elf 1 124",
        };
        refused(&rt, rt.alloc(), &FILE[..length], line)?;
    }
    Ok(())
}

/// The first and the last of the bytes that are changed, what they become, and the line.
const CHANGES: [(usize, usize, u8, &str); 11] = [
    (0, 0, 0x00, "tcc: image 0 elf 2 0"),
    (4, 4, 0x02, "tcc: image 0 elf 3 4"),
    (18, 18, 0x3e, "tcc: image 0 elf 3 18"),
    (42, 42, 0x38, "tcc: image 0 elf 3 42"),
    (16, 16, 0x03, "tcc: image 0 elf 4 0"),
    (36, 36, 0x01, "tcc: image 0 elf 5 0"),
    (28, 31, 0xff, "tcc: image 0 elf 1 4294967359"),
    (84, 84, 0x02, "tcc: image 0 elf 6 0"),
    (104, 104, 0x04, "tcc: image 0 elf 7 1"),
    (92, 95, 0xff, "tcc: image 0 elf 7 1"),
    (24, 24, 0x02, "tcc: image 0 load 3 0"),
];

#[test]
fn each_changed_file_is_refused(rt: HostRuntime) -> Result<(), Fail> {
    for (first, last, byte, line) in CHANGES {
        let mut file = FILE;
        for (at, old) in file.iter_mut().enumerate() {
            if first <= at && at <= last {
                *old = byte;
            }
        }
        refused(&rt, rt.alloc(), &file, line)?;
    }
    Ok(())
}

/// The file, a raw image, words to be loaded, a program that loads the first word of the third image, and files that aren't images.
const FILES: [File; 9] = [
    ("elf", Held::Bytes(&FILE)),
    ("raw", Held::Image(STORE)),
    ("halt", Held::Image(HALT)),
    ("one", Held::Image(&[0x11111111])),
    ("two", Held::Image(&[0x22222222])),
    (
        "reader",
        Held::Image(&[0x80000337, 0x04032283, 0x05d00893, 0x00000073]),
    ),
    ("empty", Held::Bytes(&[])),
    ("short", Held::Bytes(&[0x73, 0, 0])),
    ("odd", Held::Bytes(&[0x13, 0, 0, 0, 0x73, 0])),
];

/// A command line, its status and its text.
const ROWS: [(&str, u8, &str); 18] = [
    ("run elf", 0, HALTED),
    // each core begins at its own image, the third at the first
    (
        "run --raw --cores 3 --steps 0 reader halt",
        1,
        "tcc-report 1 / end open / events 0 / core 0 run / pc 80000000 / reg 11 00000003 / core 1 run / pc 80000020 /
            reg 10 00000001 / reg 11 00000003 / core 2 run / pc 80000000 / reg 10 00000002 / reg 11 00000003",
    ),
    // raw images lie one behind the other, and options among them
    (
        "run reader --raw one --dirs 1 two",
        0,
        "tcc-report 1 / end done / events 13 / commit 1 0 4 / load 80000040 4 22222222 / core 0 halt 0 / pc 8000000c /
            reg 5 22222222 / reg 6 80000000 / reg 11 00000001 / reg 17 0000005d",
    ),
    // sixteen images
    (
        "run --raw halt halt halt halt halt halt halt halt halt halt halt halt halt halt halt halt",
        0,
        HALTED,
    ),
    // an incomplete word isn't executed
    (
        "run --raw odd",
        0,
        "tcc-report 1 / end done / events 6 / commit 1 0 2 / core 0 trap 1 / pc 80000004 / reg 11 00000001",
    ),
    // the image's fault is the same for each command
    ("replay raw elf", 4, "tcc: schedule line 1"),
    ("replay raw elf raw", 3, "tcc: image 1 elf 1 52"),
    ("serial raw empty elf", 3, "tcc: image 0 elf 1 52"),
    ("run elf elf --cores 2", 3, "tcc: image 1 load 2 1"),
    ("run elf empty elf", 3, "tcc: image 1 elf 1 52"),
    // all files are looked at as ELF files before one is laid
    ("run elf elf raw", 3, "tcc: image 2 elf 1 52"),
    ("run --raw empty", 3, "tcc: image 0 load 3 0"),
    ("run --raw raw short", 3, "tcc: image 1 load 3 0"),
    ("run --raw --ram 32 raw halt", 3, "tcc: image 1 load 1 0"),
    ("run --raw --ram 32 empty halt", 3, "tcc: image 0 load 3 0"),
    ("run --base 0x80001000 elf", 3, "tcc: image 0 load 1 1"),
    ("run --raw --ram 96 elf", 3, "tcc: image 0 load 1 0"),
    // and all raw files are tested for fit
    ("run --raw --ram 32 short halt", 3, "tcc: image 1 load 1 0"),
];

/// What a program prints that halts at once.
const HALTED: &str =
    "tcc-report 1 / end done / events 6 / commit 1 0 2 / core 0 halt 0 / pc 80000004 / reg 11 00000001 / reg 17 0000005d";

#[test]
fn images_are_run_or_refused(rt: HostRuntime) -> Result<(), Fail> {
    for (command, status, text) in ROWS {
        let row = Row {
            command,
            files: &FILES,
            status,
            text,
        };
        check(&rt, rt.alloc(), &row)?;
    }
    Ok(())
}
