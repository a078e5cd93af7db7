// Checkpoints: the texts of small machines, byte by byte; that each is read as a machine that goes on as its own; and texts that are no
// machine's.
ghost use Rattle.std.specs.Prelude.{◌≡◌, IfOk};

use crate::loading::file;
use checkpoint_text::{Broken, push_machine, read_machine};
use image_load::{Loaded, load, raw};
use net_core::System;
use std::alloc::Global;
use std::test::Fail;
use tcc_base::{Config, CoreId, DirId, List, NodeId};
use tcc_msg::{Event, Name};

// addi x17,x0,93; ecall
const HALTS: [u32; 2] = [0x05d0_0893, 0x0000_0073];

// lui x6,0x80000; lw x5,96(x6); sw x5,64(x6); ecall
const COPIES_24_TO_16: [u32; 4] = [0x8000_0337, 0x0603_2283, 0x0453_2023, 0x0000_0073];

// lui x6,0x80000; lw x5,0(x6); sw x5,64(x6); ecall
const COPIES_0_TO_16: [u32; 4] = [0x8000_0337, 0x0003_2283, 0x0453_2023, 0x0000_0073];

// lui x6,0x80000; sw x11,64(x6); sw x11,96(x6); ecall
const STORES_TWO_LINES: [u32; 4] = [0x8000_0337, 0x04b3_2023, 0x06b3_2023, 0x0000_0073];

const C0: NodeId = NodeId::Core(CoreId(0));

const C1: NodeId = NodeId::Core(CoreId(1));

const D0: NodeId = NodeId::Dir(DirId(0));

const V: NodeId = NodeId::Vendor;

// An execution of a core, its eviction of its first way, or the delivery of the first message from the one node to the other.
macro_rules! event {
    (evict $core:literal) => {
        Event::Evict(CoreId($core), 0, 0)
    };
    ($core:literal) => {
        Event::Exec(CoreId($core))
    };
    ($src:ident $dst:ident) => {
        Event::Deliver(Name {
            src: $src,
            dst: $dst,
            seq: 0,
        })
    };
}

macro_rules! events {
    ($(($($part:tt)*))*) => {
        [$(event!($($part)*)),*]
    };
}

// The second core has loaded the first word of RAM, stored it to the word 16, and asked for a TID; the first waits for the line 3, to
// which it has given a way.
const COPIED: [Event; 9] = events![(1) (1) (C1 D0) (D0 C1) (1) (1) (1) (0) (0)];

// The core found no way for its second line, is alone with TID 1, and has emptied its only way.
const ALONE: [Event; 8] = events![(0) (0) (0) (C0 V) (V C0) (C0 D0) (D0 C0) (evict 0)];

// Both cores have asked for a TID; the second one, to which TID 2 was given, has skipped it before TID 1 was given up, and has committed.
const SKIPPED: [Event; 9] = events![(0) (0) (1) (1) (C0 V) (C1 V) (V C1) (C1 D0) (1)];

// What a machine begins with: how many cores it has, sets and ways of their caches, and the images, of which the second may be empty. It
// has one directory and 65,536 bytes of RAM.
#[derive(Clone, Copy)]
struct Setup<'a> {
    cores: u64,
    sets: u64,
    ways: u64,
    images: [&'a [u32]; 2],
}

const TWO: Setup = Setup {
    cores: 2,
    sets: 16,
    ways: 2,
    images: [&COPIES_24_TO_16, &COPIES_0_TO_16],
};

const ONE: Setup = Setup {
    cores: 1,
    sets: 1,
    ways: 1,
    images: [&STORES_TWO_LINES, &[]],
};

const HALTING: Setup = Setup {
    cores: 2,
    sets: 1,
    ways: 1,
    images: [&HALTS, &[]],
};

fn two_loaded(alloc: Global, config: &Config, images: [&[u32]; 2]) -> Result<Loaded, Fail> {
    let files = [file(alloc, images[0])?, file(alloc, images[1])?];
    Ok(load(alloc, config, &raw(alloc, config, &files)?)?)
}

fn one_loaded(alloc: Global, config: &Config, image: &[u32]) -> Result<Loaded, Fail> {
    let files = [file(alloc, image)?];
    Ok(load(alloc, config, &raw(alloc, config, &files)?)?)
}

fn loaded(alloc: Global, setup: Setup) -> Result<Loaded, Fail> {
    let config = Config::new(setup.cores, 1, setup.sets, setup.ways, 0x8000_0000, 65_536)?;
    if setup.images[1].is_empty() {
        return one_loaded(alloc, &config, setup.images[0]);
    }
    two_loaded(alloc, &config, setup.images)
}

fn begun(alloc: Global, setup: Setup) -> Result<System, Fail> {
    let loaded = loaded(alloc, setup)?;
    Ok(System::start(alloc, &loaded)?)
}

fn text_of(alloc: Global, system: &System) -> Result<List<u8>, Fail> {
    let mut text = List::new(alloc);
    push_machine(&mut text, system)?;
    Ok(text)
}

// The text of a machine after these events.
fn run_to_text(alloc: Global, system: &mut System, events: &[Event]) -> Result<List<u8>, Fail> {
    if system.events() > 1000 || events.len() > 1000 {
        return Err("too many events")?;
    }
    system.run(events).map_err(|_| "an event isn't enabled")?;
    text_of(alloc, system)
}

fn text_after(alloc: Global, setup: Setup, events: &[Event]) -> Result<List<u8>, Fail> {
    let mut system = begun(alloc, setup)?;
    run_to_text(alloc, &mut system, events)
}

// The machine with this text.
fn read(alloc: Global, setup: Setup, text: &[u8]) -> Result<System, Fail> {
    let loaded = loaded(alloc, setup)?;
    match read_machine(alloc, text, &loaded) {
        Ok(system) => Ok(system),
        Err(_) => Err(Fail::new("the text isn't read")),
    }
}

// The text after the second events of a machine that is read from its text after the first ones.
fn text_across(
    alloc: Global,
    setup: Setup,
    first: &[Event],
    second: &[Event],
) -> Result<List<u8>, Fail> {
    let text = text_after(alloc, setup, first)?;
    let mut system = read(alloc, setup, &text.items)?;
    run_to_text(alloc, &mut system, second)
}

// Whether a machine that is read in the middle of these events, wherever that is, has the same text after them.
fn goes_on(alloc: Global, setup: Setup, events: &[Event]) -> Result<bool, Fail> {
    let whole = text_after(alloc, setup, events)?;
    for k in 0..events.len() {
        let text = text_across(alloc, setup, &events[..k], &events[k..])?;
        if text.items.as_slice() != whole.items.as_slice() {
            return Ok(false);
        }
    }
    Ok(true)
}

#[test]
fn a_text_tells_all_of_a_machine(rt: HostRuntime) -> Result<(), Fail> {
    let text = text_after(rt.alloc(), TWO, &COPIED)?;
    let want = "tcc-checkpoint 1
settings 2 1 16 2 65536 2147483648
events 9 1
core 0 1 0 0 0 0 0 1 3
core 1 4 1 0 1 0 0 0 0
state 0 2147483652 0 0 0 0 0 0 0 0 2147483648 0 0 0 0 2 0 0 0 0 0 0 0 0 0 0 0 0 0 0 0 0 0 0 0 0
state 1 2147483696 0 0 0 0 0 0 0 2147484471 2147483648 0 0 0 1 2 0 0 0 0 0 0 0 0 0 0 0 0 0 0 0 0 0 0 0 0
saved 0 2147483648 0 0 0 0 0 0 0 0 0 0 0 0 0 2 0 0 0 0 0 0 0 0 0 0 0 0 0 0 0 0 0 0 0 0
saved 1 2147483680 0 0 0 0 0 0 0 0 0 0 0 0 1 2 0 0 0 0 0 0 0 0 0 0 0 0 0 0 0 0 0 0 0 0
after 0 0 0 0 0 0 0 0 0 0 0 0 0 0 0 0 0 0 0 0 0 0 0 0 0 0 0 0 0 0 0 0 0 0 0 0 0 0 0 0 0 0 0 0 0 0 0 0 0 0 0 0 0 0 0 0 0 0 0 0 0 0 0 0 0
after 1 0 0 0 0 0 0 0 0 0 0 0 0 0 0 0 0 0 0 0 0 0 0 0 0 0 0 0 0 0 0 0 0 0 0 0 0 0 0 0 0 0 0 0 0 0 0 0 0 0 0 0 0 0 0 0 0 0 0 0 0 0 0 0 0
frame 0 6 3 0 0 0 0 0 0 0 0 0 0 0 0 0
frame 1 0 0 255 1 0 0 0 2147484471 100868739 72556579 115 0 0 0 0
frame 1 4 2 1 0 1 0 0 2147484471 0 0 0 0 0 0 0
load 1 2147483648 4 2147484471
store 1 2147483712 4 2147484471
directory 0 1 0
skipped 0
line 0 2 0 0 0 0 0 2147484471 100868739 72556579 115 0 0 0 0
sent 0 0
sent 1 0
sent 2 1
sent 3 0
sent 4 0
sent 5 0
sent 6 1
sent 7 1
sent 8 0
sent 9 1
sent 10 0
sent 11 0
sent 12 0
sent 13 0
sent 14 0
sent 15 0
message 2 0 2 3 0
message 7 0 0
";
    assert_eq!(rt; text.items.as_slice(), want.as_bytes());
    Ok(())
}

#[test]
fn a_text_tells_of_skips_and_commits(rt: HostRuntime) -> Result<(), Fail> {
    let text = text_after(rt.alloc(), HALTING, &SKIPPED)?;
    let want = "directory 0 1 0
skipped 0 1
sent 0 0
sent 1 0
sent 2 0
sent 3 1
sent 4 0
sent 5 0
sent 6 1
sent 7 1
sent 8 0
sent 9 0
sent 10 0
sent 11 0
sent 12 1
sent 13 1
sent 14 0
sent 15 0
message 12 0 1 1
commit 0 2 1 2
";
    assert!(rt; text.items.as_slice().ends_with(want.as_bytes()));
    Ok(())
}

// Whether these words stand somewhere in the text.
fn has(text: &[u8], words: &str) -> bool {
    for k in 0..text.len() {
        if text[k..].starts_with(words.as_bytes()) {
            return true;
        }
    }
    false
}

#[test]
fn a_text_tells_of_spilled_words(rt: HostRuntime) -> Result<(), Fail> {
    let text = text_after(rt.alloc(), ONE, &ALONE)?;
    let want =
        "spilled 0 2 1 1 0 0 0 0 0 0 0\nstore 0 2147483712 4 1\ndirectory 0 1 0\nskipped 0\n";
    assert!(rt; has(&text.items, want));
    Ok(())
}

#[test]
fn a_machine_goes_on_from_its_text(rt: HostRuntime) -> Result<(), Fail> {
    assert!(rt; goes_on(rt.alloc(), TWO, &COPIED)?);
    assert!(rt; goes_on(rt.alloc(), ONE, &ALONE)?);
    assert!(rt; goes_on(rt.alloc(), HALTING, &SKIPPED)?);
    Ok(())
}

// Why a text is no machine's; None where it is one.
fn why(alloc: Global, setup: Setup, text: &[u8]) -> Result<Option<Broken>, Fail> {
    let loaded = loaded(alloc, setup)?;
    Ok(read_machine(alloc, text, &loaded).err())
}

// The text with other words in place of these, where they first stand.
fn replaced(alloc: Global, text: &[u8], old: &str, new: &str) -> Result<List<u8>, Fail> {
    let mut items = Vec::new(alloc);
    for k in 0..text.len() {
        if text[k..].starts_with(old.as_bytes()) {
            items.extend_from_slice(&text[..k])?;
            items.extend_from_slice(new.as_bytes())?;
            items.extend_from_slice(&text[k + old.len()..])?;
            return Ok(List { items });
        }
    }
    Err(Fail::new("the words don't stand there"))
}

// Why the text after COPIED is no machine's with other words in place of these.
fn why_with(alloc: Global, old: &str, new: &str) -> Result<Option<Broken>, Fail> {
    let text = text_after(alloc, TWO, &COPIED)?;
    why(alloc, TWO, &replaced(alloc, &text.items, old, new)?.items)
}

#[test]
fn a_text_that_is_no_machine_is_refused(rt: HostRuntime) -> Result<(), Fail> {
    let alloc = rt.alloc();
    let rows = [
        ("checkpoint 1", "checkpoint 2", Broken::Line(1)),
        ("settings 2", "setting 2", Broken::Line(2)),
        ("settings 2", "settings 3", Broken::Settings),
        ("events 9", "events 09", Broken::Line(3)),
        // ten TIDs were given by nine events
        ("events 9 1\n", "events 9 11\n", Broken::Unsound),
        ("core 1", "core 2", Broken::Line(5)),
        ("state 1", "state 0", Broken::Line(7)),
        // a line that memory doesn't have
        ("message 2 0 2 3 ", "message 2 0 2 2048 ", Broken::Unsound),
        // a sharer that the machine doesn't have
        ("line 0 2", "line 0 32", Broken::Line(19)),
        (
            "store 1 2147483712 4",
            "store 1 2147483712 3",
            Broken::Line(16),
        ),
        // a line that is as at the start
        ("sent 0 0\n", "sent 0 0\nsent 0 0\n", Broken::Line(21)),
        ("message 7 0 0\n", "message 7 0 0\n\n", Broken::Line(38)),
        (
            "line 0 2",
            "line 9 0 0 0 0 0 0 0 0 0 0 0 0 0 0\nline 0 2",
            Broken::Other,
        ),
    ];
    for (old, new, broken) in rows {
        assert_eq!(rt; why_with(alloc, old, new)?, Some(broken), "{}", old);
    }
    Ok(())
}

#[test]
fn commits_whose_tids_do_not_rise_are_refused(rt: HostRuntime) -> Result<(), Fail> {
    let text = text_after(rt.alloc(), HALTING, &SKIPPED)?;
    let row = "commit 0 2 1 2\n";
    let rows = "commit 0 2 1 2\ncommit 1 2 1 2\n";
    let twice = replaced(rt.alloc(), &text.items, row, rows)?;
    assert_eq!(rt;
        why(rt.alloc(), HALTING, &twice.items)?,
        Some(Broken::Line(32))
    );
    Ok(())
}

// Whether a beginning of a text, of 0, 29, 58 bytes or so on, is some machine's.
fn has_whole_beginning(alloc: Global, setup: Setup, text: &[u8]) -> Result<bool, Fail> {
    for k in 0..text.len() {
        if k % 29 == 0 && why(alloc, setup, &text[..k])?.is_none() {
            return Ok(true);
        }
    }
    Ok(false)
}

#[test]
fn no_beginning_of_a_text_is_a_machine(rt: HostRuntime) -> Result<(), Fail> {
    let text = text_after(rt.alloc(), TWO, &COPIED)?;
    assert!(rt; !has_whole_beginning(rt.alloc(), TWO, &text.items)?);
    Ok(())
}
