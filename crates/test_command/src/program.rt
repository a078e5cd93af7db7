// The program's answers and texts, over files and outputs in memory.
mod atomics;
mod buses;
mod checkpoints;
mod consoles;
mod images;
mod looks;
mod outcomes;
mod outputs;
mod phases;
mod records;
mod replays;
mod runs;
mod serials;
mod threads;
mod trials;
mod turns;
mod waits;
mod words;

use std::alloc::{AllocError, Global};
use std::process::Abort;
use std::sync::Wait;
use std::test::Fail;
use std::thread::Threads;
use tcc_cli::tcc_main;
use tcc_world::{Gate, MapStore, OpenGate, VecSink};

/// What a test's runtime can do: panic, wait, and start threads.
trait Host: Abort + Threads + Wait + Sync {}

impl<R: Abort + Threads + Wait + Sync> Host for R {}

/// What a file holds.
#[derive(Clone, Copy)]
enum Held<'a> {
    Bytes(&'a [u8]),
    /// These words, the low byte of each first.
    Image(&'a [u32]),
    /// These texts, one behind the other, as `lines` writes them.
    Lines(&'a [&'a str]),
}

/// A file's name, and what it holds.
type File<'a> = (&'a str, Held<'a>);

/// The name of the file in which runs are recorded.
const RECORD: &str = "s";

/// What a call finds: its files, and what fails.
#[derive(Clone, Copy)]
struct World<'a> {
    files: &'a [File<'a>],
    /// The number of the read or write that fails, from 0.
    fails: Option<u64>,
    /// The numbers of bytes that the outputs take.
    out: u64,
    err: u64,
    /// The number of the write to `err` that fails, from 0.
    err_fails: Option<u64>,
}

/// A status number, what was written to both outputs, and what the record holds then.
#[derive(Debug, Drop)]
struct Given {
    status: u8,
    out: Vec<u8>,
    err: Vec<u8>,
    record: Option<Vec<u8>>,
}

/// A command line over files, and what comes of it: a status, and the text on `out` with 0 and 1, else that on `err`.
#[derive(Clone, Copy)]
struct Row<'a> {
    command: &'a str,
    files: &'a [File<'a>],
    status: u8,
    text: &'a str,
}

/// Writes the text behind the bytes: its words with one space between two, a line feed for each "/", and one more at the end.
fn push_lines(bytes: &mut Vec<u8>, text: &str) -> Result<(), AllocError> {
    let mut begins = true;
    for word in text.split_whitespace() {
        let ends = word == "/";
        if !ends && !begins {
            bytes.push(b' ')?;
        }
        bytes.extend_from_slice(if ends {
            b"\n".as_slice()
        } else {
            word.as_bytes()
        })?;
        begins = ends;
    }
    bytes.push(b'\n')?;
    Ok(())
}

/// The bytes of texts whose lines are separated by " / ".
fn lines(alloc: Global, texts: &[&str]) -> Result<Vec<u8>, AllocError> {
    let mut bytes = Vec::new(alloc);
    for text in texts {
        push_lines(&mut bytes, text)?;
    }
    Ok(bytes)
}

/// The bytes of an image.
fn image(alloc: Global, words: &[u32]) -> Result<Vec<u8>, AllocError> {
    let mut bytes = Vec::new(alloc);
    for word in words {
        bytes.extend_from_slice(&word.to_le_bytes())?;
    }
    Ok(bytes)
}

impl<'a> Held<'a> {
    fn bytes(&self, alloc: Global) -> Result<Vec<u8>, AllocError> {
        match self {
            Held::Bytes(bytes) => bytes.to_vec(alloc),
            Held::Image(words) => image(alloc, words),
            Held::Lines(texts) => lines(alloc, texts),
        }
    }
}

/// These files, and nothing fails.
fn over<'a>(files: &'a [File<'a>]) -> World<'a> {
    World {
        files,
        fails: None,
        out: 100_000,
        err: 4096,
        err_fails: None,
    }
}

/// A list of this number, or of none.
fn numbers(alloc: Global, number: Option<u64>) -> Result<Vec<u64>, AllocError> {
    let mut numbers = Vec::new(alloc);
    if let Some(number) = number {
        numbers.push(number)?;
    }
    Ok(numbers)
}

/// The store of the world's files.
fn store(alloc: Global, world: &World) -> Result<MapStore, Fail> {
    let mut files = MapStore::new(alloc, numbers(alloc, world.fails)?);
    for (name, held) in world.files {
        files.set(name, &held.bytes(alloc)?)?;
    }
    Ok(files)
}

/// The world's files hold what they held; the record too, where the program refused.
fn check_files(
    rt: &impl Host,
    alloc: Global,
    world: &World,
    files: &MapStore,
    status: u8,
) -> Result<(), Fail> {
    for (name, held) in world.files {
        if *name != RECORD || 2 <= status && status <= 5 {
            let bytes = held.bytes(alloc)?;
            assert_eq!(rt; files.get(name), Some(bytes.as_slice()), "{name}");
        }
    }
    Ok(())
}

/// What the program answers to these words, with a gate before each turn of a thread. The files hold what they held, but for the record.
fn answer_at<H: Host, G: Gate + Sync>(
    rt: &H,
    alloc: Global,
    words: &[&str],
    world: &World,
    gate: &G,
) -> Result<Given, Fail> {
    let mut files = store(alloc, world)?;
    let mut out = VecSink::new(alloc, world.out, Vec::new(alloc))?;
    let mut err = VecSink::new(alloc, world.err, numbers(alloc, world.err_fails)?)?;
    let status = tcc_main(rt, alloc, words, &mut files, &mut out, &mut err, gate).number();
    check_files(rt, alloc, world, &files, status)?;
    let record = match files.get(RECORD) {
        Some(bytes) => Some(bytes.to_vec(alloc)?),
        None => None,
    };
    Ok(Given {
        status,
        out: out.bytes().to_vec(alloc)?,
        err: err.bytes().to_vec(alloc)?,
        record,
    })
}

/// What the program answers to these words.
fn answer(rt: &impl Host, alloc: Global, words: &[&str], world: &World) -> Result<Given, Fail> {
    answer_at(rt, alloc, words, world, &OpenGate)
}

/// What the program answers to a command line, whose words stand between spaces.
fn call(rt: &impl Host, alloc: Global, command: &str, world: &World) -> Result<Given, Fail> {
    let words: Vec<&str> = command.split_whitespace().collect(alloc)?;
    answer(rt, alloc, &words, world)
}

/// What comes of a command line over a raw image `a` and a file of this name.
fn call_beside<'a>(
    rt: &impl Host,
    alloc: Global,
    command: &str,
    image: &'a [u32],
    name: &'a str,
    bytes: &'a [u8],
) -> Result<Given, Fail> {
    let files = [("a", Held::Image(image)), (name, Held::Bytes(bytes))];
    call(rt, alloc, command, &over(&files))
}

/// The command line gives its status and its text, and nothing else is written.
fn check(rt: &impl Host, alloc: Global, row: &Row) -> Result<(), Fail> {
    let ended = call(rt, alloc, row.command, &over(row.files))?;
    let text = lines(alloc, &[row.text])?;
    let (written, nothing) = match ended.status {
        0 | 1 => (&ended.out, &ended.err),
        _ => (&ended.err, &ended.out),
    };
    assert_eq!(rt; ended.status, row.status, "{}", row.command);
    assert_eq!(rt; written.as_slice(), text.as_slice(), "{}", row.command);
    assert_eq!(rt; nothing.len(), 0, "{}", row.command);
    Ok(())
}

/// An output that takes fewer bytes than this command line's text has as many of its first ones.
fn check_short(rt: &impl Host, alloc: Global, command: &str, files: &[File]) -> Result<(), Fail> {
    let whole = call(rt, alloc, command, &over(files))?;
    assert!(rt; whole.status <= 1, "{command}");
    for room in 0..whole.out.len() {
        let short = World {
            out: room as u64,
            ..over(files)
        };
        let given = call(rt, alloc, command, &short)?;
        assert_eq!(rt; given.status, 6);
        assert_eq!(rt; given.out.as_slice(), &whole.out[..room]);
        assert_eq!(rt; given.err.as_slice(), b"tcc: output\n".as_slice());
    }
    Ok(())
}

/// How many lines of a text begin and end so.
fn count(text: &[u8], begin: &str, end: &str) -> usize {
    text.split(|byte| *byte == b'\n')
        .filter(|line| line.starts_with(begin.as_bytes()) && line.ends_with(end.as_bytes()))
        .count()
}
