// Words that aren't a command's, values that aren't allowed, and some that are. Where words are refused no file is looked for.
use super::runs::{STORE, STORE_REPORT};
use super::{Held, Host, Row, answer, check, lines, over, store};
use std::alloc::{AllocError, Global};
use std::env::Args;
use std::io;
use std::io::ErrorKind;
use std::test::Fail;
use tcc_cli::tcc_process;
use tcc_world::{OpenGate, VecSink};

/// Command lines whose words don't stand as a command's do.
const WORDS: [&str; 37] = [
    "",
    "walk --raw a",
    "Run --raw a",
    "--raw run a",
    "--help run",
    // too few names, and too many
    "run",
    "run --raw",
    "replay --raw s",
    "serial --raw r",
    "follow --raw r",
    "trial counters",
    "trial counters 5 6",
    "why --raw s",
    "phases --raw",
    // words that aren't options, and options without a value, with one that they don't have, twice or cut short
    "run --help",
    "run -r a",
    "run --threshold 1 a",
    "run a --cores",
    "run --record",
    "run --seed -1 a",
    "run --raw=1 a",
    "run --raw --raw a",
    "run --cores 1 --cores 1 a",
    "run --core 1 a",
    // options of other commands
    "replay --raw --steps 6 s a",
    "replay --raw --record t s a",
    "serial --raw --seed 1 r a",
    "follow --raw --steps 6 r a",
    "trial --raw counters 5",
    "trial --ram 65536 counters 5",
    "trial --record s counters 5",
    "why --raw --steps 6 s a",
    "why --raw --record t s a",
    "phases --raw --record s --threads 2 a",
    "phases --raw --record s --batch 2 a",
    // whatever stands in the fields
    "run --cores 65 --sets 3 --other 1 a",
    "walk --cores 65 a",
];

/// Command lines with a value that isn't allowed, and the first field in which one stands.
const VALUES: [(&str, &str); 60] = [
    ("run --raw --cores 65 a", "cores"),
    (
        "run --cores 0 --dirs 0 --sets 0 --ways 0 --ram 0 --steps x a",
        "cores",
    ),
    ("run --steps x --ways 0 --dirs 65 --cores 65 a", "cores"),
    ("run --cores x2 a", "cores"),
    ("run --cores one a", "cores"),
    ("run --cores= a", "cores"),
    ("run --cores - a", "cores"),
    ("run --cores=-1 a", "cores"),
    ("run --cores 18446744073709551617 a", "cores"),
    ("trial --cores 0 walks 0", "cores"),
    ("run --dirs 65 --sets 3 a", "dirs"),
    ("run --dirs 0X2 a", "dirs"),
    ("run --dirs 4294967297 a", "dirs"),
    ("replay --sets 0 --dirs 0 s a", "dirs"),
    ("run --sets 0 a", "sets"),
    ("run --sets 3 --ways x a", "sets"),
    ("run --sets 2048 a", "sets"),
    ("run --sets +16 a", "sets"),
    ("serial --ways 0 --sets 3 r a", "sets"),
    ("follow --dirs 0 --record= r a", "dirs"),
    ("run --ways 0 a", "ways"),
    ("run --ways 17 --ram 0 a", "ways"),
    ("run --ways two --steps x a", "ways"),
    ("run --ways 65538 a", "ways"),
    ("run --ram 0 a", "ram"),
    ("run --ram 33 --base 1 a", "ram"),
    ("run --ram 16777248 --steps x a", "ram"),
    ("run --base 1 --steps x a", "base"),
    ("run --base 0xffff8000 a", "base"),
    ("run --ram 64 --base 0xffffffe0 a", "base"),
    ("run --base 0x100000000 a", "base"),
    ("run --raw --steps 4194305 a", "steps"),
    ("run --steps 4194305 --seed x a", "steps"),
    ("run --steps 0X9 a", "steps"),
    ("run --steps 0x a", "steps"),
    ("run --steps 0x1g a", "steps"),
    ("run --steps=-1 a", "steps"),
    ("run --steps 9_9 a", "steps"),
    ("run --steps 99999999999999999999999999 a", "steps"),
    ("trial --steps 0x400001 walks 0", "steps"),
    ("run --seed 18446744073709551616 a", "seed"),
    ("run --seed 0x10000000000000000 a", "seed"),
    (
        "run --seed= 1 2 3 4 5 6 7 8 9 10 11 12 13 14 15 16 17",
        "seed",
    ),
    ("run --raw --threads 0 --record s a", "threads"),
    ("run --raw --threads 17 --record s a", "threads"),
    ("run --raw --threads two --record s a", "threads"),
    // threads without a record
    ("run --raw --threads 2 a", "threads"),
    ("run --raw --threads 2 --batch 0 a", "threads"),
    ("run --raw --threads 2 --batch 0 --record s a", "batch"),
    ("run --raw --threads 2 --batch 1025 --record s a", "batch"),
    ("run --raw --threads 2 --batch 65537 --record s a", "batch"),
    ("run --raw --threads 2 --batch two --record s a", "batch"),
    // acts of a turn without threads, and before the images
    ("run --raw --batch 2 --record s a", "batch"),
    (
        "run --batch 1 1 2 3 4 5 6 7 8 9 10 11 12 13 14 15 16 17",
        "batch",
    ),
    ("run 1 2 3 4 5 6 7 8 9 10 11 12 13 14 15 16 17", "images"),
    (
        "replay s 1 2 3 4 5 6 7 8 9 10 11 12 13 14 15 16 17",
        "images",
    ),
    ("trial Counters 5", "kind"),
    ("trial walks 0", "kind"),
    ("trial counters 0", "number"),
    ("trial sharing 2048", "number"),
];

/// The program refuses the words with this line.
fn refused(rt: &impl Host, alloc: Global, command: &str, text: &str) -> Result<(), Fail> {
    let row = Row {
        command,
        files: &[],
        status: 2,
        text,
    };
    check(rt, alloc, &row)
}

#[test]
fn words_are_refused(rt: HostRuntime) -> Result<(), Fail> {
    for command in WORDS {
        refused(&rt, rt.alloc(), command, "tcc: words")?;
    }
    Ok(())
}

#[test]
fn values_are_refused_by_the_first_field(rt: HostRuntime) -> Result<(), Fail> {
    let alloc = rt.alloc();
    for (command, field) in VALUES {
        let text = format!(in alloc; "tcc: value {field}")?;
        refused(&rt, alloc, command, text.as_str())?;
    }
    Ok(())
}

/// Values with a space or nothing in them.
#[test]
fn numbers_have_digits_alone(rt: HostRuntime) -> Result<(), Fail> {
    for value in ["", " ", "9 ", " 9", "9\n"] {
        let ended = answer(
            &rt,
            rt.alloc(),
            &["run", "--raw", "--steps", value, "a"],
            &over(&[]),
        )?;
        assert_eq!(rt; ended.status, 2);
        assert_eq!(rt; ended.err.as_slice(), b"tcc: value steps\n".as_slice());
    }
    Ok(())
}

/// Command lines that ask for the same: options before, between and behind the images, numbers of either kind, a second image, and a
/// name that looks like an option.
const ALIKE: [&str; 8] = [
    "run --raw a",
    "run a --raw",
    "run --steps 19 a --raw --cores=1",
    "run a --steps=0x13 --raw --sets 0016 --ways 0x2 --ram 65536 --base=0x80000000 --seed 00",
    "run a --raw --dirs 1 a",
    "run --raw -- a",
    "run --raw -- --cores",
    "run --raw -- a --cores",
];

#[test]
fn options_stand_anywhere(rt: HostRuntime) -> Result<(), Fail> {
    for command in ALIKE {
        let row = Row {
            command,
            files: &[("a", Held::Image(STORE)), ("--cores", Held::Image(STORE))],
            status: 0,
            text: STORE_REPORT,
        };
        check(&rt, rt.alloc(), &row)?;
    }
    Ok(())
}

/// The smallest and the largest values, in digits of either kind: what is missing then is the file.
const TAKEN: [&str; 4] = [
    "run --cores 1 --dirs 1 --sets 1 --ways 1 --ram 32 --base 0 --steps 0 --seed 0 a",
    "run --cores 0x40 --dirs 064 --sets 1024 --ways 0x10 --ram 0x1000000 --base 0xfF000000 --steps 0x400000 --seed 0xFFffFFffFFffFFff a",
    "replay --cores 64 --dirs 64 --sets 1024 --ways 16 --ram 16777216 --base 4278190080 a 2 3 4 5 6 7 8 9 10 11 12 13 14 15 16 17",
    "serial --raw --base=0x00000000000000000000fFfFfFe0 --ram=32 a 2",
];

#[test]
fn values_in_range_are_taken(rt: HostRuntime) -> Result<(), Fail> {
    for command in TAKEN {
        let row = Row {
            command,
            files: &[],
            status: 5,
            text: "tcc: store a",
        };
        check(&rt, rt.alloc(), &row)?;
    }
    Ok(())
}

/// What a process writes that was started with these texts, beside a raw image `a`: its status, and both outputs.
fn started(
    rt: &impl Host,
    alloc: Global,
    given: io::Result<Args>,
) -> Result<(u8, VecSink, VecSink), Fail> {
    let mut files = store(alloc, &over(&[("a", Held::Image(STORE))]))?;
    let mut out = VecSink::new(alloc, 4096, Vec::new(alloc))?;
    let mut err = VecSink::new(alloc, 4096, Vec::new(alloc))?;
    let status = tcc_process(rt, alloc, given, &mut files, &mut out, &mut err, &OpenGate);
    Ok((status.number(), out, err))
}

/// These words, as the texts that a process is started with.
fn texts(alloc: Global, words: &[&str]) -> Result<Args, AllocError> {
    let mut texts = Vec::new(alloc);
    for word in words {
        texts.push(String::from_str(alloc, word)?)?;
    }
    Ok(texts.into_iter())
}

#[test]
fn the_first_text_is_no_word(rt: HostRuntime) -> Result<(), Fail> {
    let alloc = rt.alloc();
    let given = texts(alloc, &["run", "run", "--raw", "a"])?;
    let (status, out, err) = started(&rt, alloc, Ok(given))?;
    assert_eq!(rt; status, 0);
    assert_eq!(rt; out.bytes(), lines(alloc, &[STORE_REPORT])?.as_slice());
    assert_eq!(rt; err.bytes().len(), 0);
    let (status, _, err) = started(&rt, alloc, Ok(texts(alloc, &[])?))?;
    assert_eq!(rt; status, 2);
    assert_eq!(rt; err.bytes(), b"tcc: words\n".as_slice());
    Ok(())
}

#[test]
fn texts_that_are_not_there_are_refused(rt: HostRuntime) -> Result<(), Fail> {
    let alloc = rt.alloc();
    for (kind, wanted, line) in [
        (ErrorKind::OutOfMemory, 7, "tcc: memory"),
        (ErrorKind::InvalidData, 2, "tcc: words"),
    ] {
        let (status, out, err) = started(&rt, alloc, Err(io::Error::from(kind)))?;
        assert_eq!(rt; status, wanted);
        assert_eq!(rt; out.bytes().len(), 0);
        assert_eq!(rt; err.bytes(), lines(alloc, &[line])?.as_slice());
    }
    Ok(())
}
