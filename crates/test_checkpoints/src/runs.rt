// Counted runs: the head of a text; that a run goes on from its text, wherever it was left; and texts that are no run's.
use crate::loading::file;
use checkpoint_run::{push_run, read_run};
use checkpoint_text::Broken;
use image_load::{Loaded, load, raw};
use std::alloc::Global;
use std::test::Fail;
use tcc_base::{Config, List};
use watch_run::Run;

const IMAGE: [u32; 10] = [
    0x8000_0337, // lui x6, 0x80000
    0x0030_0393, // addi x7, x0, 3
    0x0403_2283, // lw x5, 64(x6)
    0x0012_8293, // addi x5, x5, 1
    0x0453_2023, // sw x5, 64(x6)
    0xfff3_8393, // addi x7, x7, -1
    0x0000_0073, // ecall: ends the transaction
    0xfe03_96e3, // bne x7, x0, -20: three times in all
    0x05d0_0893, // addi x17, x0, 93
    0x0000_0073, // ecall: halts
];

const SEED: u64 = 7;

// So many steps are more than the whole run has events.
const STEPS: u64 = 400;

// Both cores run the program, on a machine with two directories, caches of one way and 128 bytes of RAM.
fn loaded(alloc: Global) -> Result<Loaded, Fail> {
    let config = Config::new(2, 2, 2, 1, 0x8000_0000, 128)?;
    let files = [file(alloc, &IMAGE)?];
    Ok(load(alloc, &config, &raw(alloc, &config, &files)?)?)
}

fn begun(alloc: Global) -> Result<Run, Fail> {
    let loaded = loaded(alloc)?;
    Ok(Run::start(alloc, &loaded, SEED)?)
}

fn text_of(alloc: Global, run: &mut Run) -> Result<List<u8>, Fail> {
    run.forget();
    let mut text = List::new(alloc);
    push_run(&mut text, run)?;
    Ok(text)
}

// The text of a run after so many more steps.
fn text_after(alloc: Global, run: &mut Run, steps: u64) -> Result<List<u8>, Fail> {
    if run.system().events() > 1000 || steps > 1000 {
        return Err("too many steps")?;
    }
    run.go(alloc, steps)?;
    text_of(alloc, run)
}

// Its text after so many steps.
fn text_at(alloc: Global, steps: u64) -> Result<List<u8>, Fail> {
    let mut run = begun(alloc)?;
    text_after(alloc, &mut run, steps)
}

// The run with this text.
fn read(alloc: Global, text: &[u8]) -> Result<Run, Fail> {
    let loaded = loaded(alloc)?;
    match read_run(alloc, text, &loaded) {
        Ok(run) => Ok(run),
        Err(_) => Err(Fail::new("the text isn't read")),
    }
}

// The text after so many more steps of the run that is read from this text.
fn text_from(alloc: Global, text: &[u8], steps: u64) -> Result<List<u8>, Fail> {
    let mut run = read(alloc, text)?;
    text_after(alloc, &mut run, steps)
}

#[test]
fn a_run_goes_on_from_its_text(rt: HostRuntime) -> Result<(), Fail> {
    let alloc = rt.alloc();
    let whole = text_at(alloc, STEPS)?;
    for k in 0..25 {
        let left = text_at(alloc, 16 * k)?;
        let text = text_from(alloc, &left.items, STEPS - 16 * k)?;
        assert_eq!(rt; text.items.as_slice(), whole.items.as_slice(), "{k}");
    }
    Ok(())
}

#[test]
fn a_text_begins_with_what_the_run_has_of_its_own(rt: HostRuntime) -> Result<(), Fail> {
    let text = text_at(rt.alloc(), 3)?;
    assert!(rt;
        text.items
            .starts_with(b"tcc-run 1\ngenerator 7 3\ncounted ")
    );
    Ok(())
}

// Why a text is no run's; None where it is one.
fn why(alloc: Global, text: &[u8]) -> Result<Option<Broken>, Fail> {
    let loaded = loaded(alloc)?;
    Ok(read_run(alloc, text, &loaded).err())
}

// The text with other words in place of these, where they first stand.
fn replaced(alloc: Global, text: &[u8], old: &str, new: &str) -> Result<List<u8>, Fail> {
    let mut items = Vec::new(alloc);
    for k in 0..text.len() {
        if text[k..].starts_with(old.as_bytes()) {
            items.extend_from_slice(&text[..k])?;
            items.extend_from_slice(new.as_bytes())?;
            items.extend_from_slice(&text[k + old.len()..])?;
            return Ok(List { items });
        }
    }
    Err(Fail::new("the words don't stand there"))
}

// The line, from 1, of the first place where these words stand.
fn line_of(text: &[u8], words: &str) -> Result<u64, Fail> {
    let mut line = 1;
    for k in 0..text.len() {
        if text[k..].starts_with(words.as_bytes()) {
            return Ok(line);
        }
        if text[k] == b'\n' && line < 1_000_000 {
            line += 1;
        }
    }
    Err(Fail::new("the words don't stand there"))
}

#[test]
fn a_text_that_is_no_run_is_refused(rt: HostRuntime) -> Result<(), Fail> {
    let alloc = rt.alloc();
    let text = text_at(alloc, 60)?;
    let rows = [
        ("tcc-run 1", "tcc-run 2", Broken::Line(1)),
        ("tcc-run 1", "tcc-runs 1", Broken::Line(1)),
        ("generator 7 60", "generator 07 60", Broken::Line(2)),
        ("generator 7 60", "generator 7", Broken::Line(2)),
        ("counted ", "count ", Broken::Line(3)),
        ("messages 14 ", "messages 15 ", Broken::Line(28)),
        // more attempts than what no number is above
        ("attempts 0 ", "attempts 0 99999", Broken::Unsound),
        ("settings 2", "settings 3", Broken::Settings),
    ];
    for (old, new, broken) in rows {
        let other = replaced(alloc, &text.items, old, new)?;
        assert_eq!(rt; why(alloc, &other.items)?, Some(broken), "{}", old);
    }
    Ok(())
}

#[test]
fn a_fault_of_the_machine_is_told_by_its_line_of_the_whole(rt: HostRuntime) -> Result<(), Fail> {
    let alloc = rt.alloc();
    let text = text_at(alloc, 60)?;
    let first = line_of(&text.items, "tcc-checkpoint")?;
    // so many rows after the machine's first one
    for (old, new, after) in [
        ("tcc-checkpoint 1", "tcc-checkpoint 2", 0),
        ("settings 2", "setting 2", 1),
        ("events 60", "events 060", 2),
        ("core 1", "core 2", 4),
        ("state 0", "state 1", 5),
    ] {
        let other = replaced(alloc, &text.items, old, new)?;
        let line = first.saturating_add(after);
        assert_eq!(rt; line_of(&text.items, old)?, line, "{}", old);
        assert_eq!(rt;
            why(alloc, &other.items)?,
            Some(Broken::Line(line)),
            "{}",
            old
        );
    }
    Ok(())
}

#[test]
fn no_beginning_of_a_text_is_a_run(rt: HostRuntime) -> Result<(), Fail> {
    let alloc = rt.alloc();
    let text = text_at(alloc, 60)?;
    for k in 0..text.items.len() {
        if k % 41 == 0 {
            assert!(rt; why(alloc, &text.items[..k])?.is_some(), "{k}");
        }
    }
    Ok(())
}
