// Lists that are executed in pieces, and the texts of plain machines between two pieces.
use crate::loading::loaded;
use image_load::Loaded;
use row_text::push_row;
use rv_plain::Plain;
use schedule_text::TextFault;
use serial_tool::{push_plain, read_orders, read_plain, run_from, run_orders};
use std::alloc::Global;
use std::str::from_utf8;
use std::test::Fail;
use tcc_base::{List, Tid};

fn text(alloc: Global, machine: &Plain, last: u64) -> Option<List<u8>> {
    let mut text = List::new(alloc);
    match push_plain(&mut text, machine, Tid(last)) {
        Ok(()) => Some(text),
        Err(_) => None,
    }
}

// The text of the machine after a list.
fn after(alloc: Global, loaded: &Loaded, list: &[u8], last: u64) -> Option<List<u8>> {
    let orders = read_orders(alloc, list, loaded.config()).ok()?;
    let executed = run_orders(alloc, loaded, &orders).ok()?;
    text(alloc, &executed.machine, last)
}

// The text of the machine after a list that goes on from the text of a machine.
fn after_text(
    alloc: Global,
    loaded: &Loaded,
    before: &[u8],
    list: &[u8],
    last: u64,
) -> Option<List<u8>> {
    let mut restored = read_plain(alloc, before, loaded).ok()?;
    let orders = read_orders(alloc, list, loaded.config()).ok()?;
    run_from(alloc, &mut restored.machine, restored.last, &orders).ok()?;
    text(alloc, &restored.machine, last)
}

#[test]
fn pieces_make_the_whole(rt: HostRuntime) -> Result<(), Fail> {
    let alloc = rt.alloc();
    let loaded = loaded(alloc).ok_or("no memory")?;
    let list = b"commit 1 0 5\ncommit 3 1 5\ncommit 4 1 2\n";
    let whole = after(alloc, &loaded, list, 4).ok_or("no whole")?;
    let half = after(alloc, &loaded, &list[..13], 1).ok_or("no half")?;
    let pieces = after_text(alloc, &loaded, &half.items, &list[13..], 4).ok_or("no pieces")?;
    assert_eq!(rt; pieces.items.as_slice(), whole.items.as_slice());
    Ok(())
}

// The line at which a list is stuck on a machine at its start, where the last TID was this one.
fn stuck_from(alloc: Global, loaded: &Loaded, last: u64) -> Option<u64> {
    let mut machine = Plain::start(alloc, loaded.config(), loaded).ok()?;
    let orders = read_orders(alloc, b"\ncommit 1 0 5\n", loaded.config()).ok()?;
    match run_from(alloc, &mut machine, Tid(last), &orders) {
        Err(TextFault::Line(line)) => Some(line),
        _ => None,
    }
}

#[test]
fn tids_go_on_from_the_last_one(rt: HostRuntime) -> Result<(), Fail> {
    let loaded = loaded(rt.alloc()).ok_or("no memory")?;
    for (last, want) in [(1, Some(2)), (2, Some(2)), (0, None)] {
        assert_eq!(rt; stuck_from(rt.alloc(), &loaded, last), want);
    }
    Ok(())
}

// The text of a machine of two cores that have ended, with two lines of memory.
fn good(alloc: Global) -> Option<List<u8>> {
    let mut text = List::new(alloc);
    let mut core = [0; 35];
    push_row(&mut text, b"tcc-plain", &[1]).ok()?;
    push_row(&mut text, b"last", &[9]).ok()?;
    core[2] = 1;
    core[3] = 4_294_967_295;
    push_row(&mut text, b"core", &core).ok()?;
    core[0] = 1;
    core[1] = 4_294_967_295;
    core[2] = 2;
    core[3] = 255;
    push_row(&mut text, b"core", &core).ok()?;
    push_row(&mut text, b"mem", &[0, 1, 0, 0, 0, 0, 0, 0, 7]).ok()?;
    push_row(&mut text, b"mem", &[3, 0, 0, 0, 0, 0, 0, 0, 8]).ok()?;
    push_row(&mut text, b"end", &[]).ok()?;
    Some(text)
}

// The text with its first `old` replaced.
fn replaced(alloc: Global, text: &[u8], old: &str, new: &str) -> Option<List<u8>> {
    let (before, behind) = from_utf8(text).ok()?.split_once(old)?;
    let mut made = List::new(alloc);
    made.items.extend_from_slice(before.as_bytes()).ok()?;
    made.items.extend_from_slice(new.as_bytes()).ok()?;
    made.items.extend_from_slice(behind.as_bytes()).ok()?;
    Some(made)
}

// The line with which a text is refused.
fn refused(alloc: Global, loaded: &Loaded, text: &[u8]) -> Option<u64> {
    match read_plain(alloc, text, loaded) {
        Err(TextFault::Line(line)) => Some(line),
        _ => None,
    }
}

// The line with which the good text is refused once it has been changed so.
fn refused_with(alloc: Global, loaded: &Loaded, old: &str, new: &str) -> Option<u64> {
    let text = replaced(alloc, &good(alloc)?.items, old, new)?;
    refused(alloc, loaded, &text.items)
}

#[test]
fn other_texts_are_refused_with_their_line(rt: HostRuntime) -> Result<(), Fail> {
    let alloc = rt.alloc();
    let loaded = loaded(alloc).ok_or("no memory")?;
    let text = good(alloc).ok_or("no memory")?;
    assert_eq!(rt; refused(alloc, &loaded, &text.items), None);
    for (old, new, line) in [
        ("tcc-plain 1", "tcc-plain 2", 1),
        ("last 9", "last 09", 2),
        ("core 0 ", "core 2 ", 3),
        ("core 0 0 1 ", "core 0 0 0 ", 3),
        ("core 0 0 1 ", "core 0 4294967296 1 ", 3),
        (" 2 255 ", " 2 256 ", 4),
        (" 2 255 ", " 3 255 ", 4),
        (" 0\nmem 0", " 4294967296\nmem 0", 4),
        ("mem 0 1", "mem 0 4294967296", 5),
        ("mem 0 1", "mem 3 1", 6),
        ("mem 3 0", "mem 0 0", 6),
        ("mem 3 0", "mem 4 0", 6),
        (" 8\nend", " 0\nend", 6),
        (" 8\nend", " 8\nmem", 7),
        ("end\n", "end\nend\n", 8),
        ("end\n", "end", 7),
    ] {
        let answer = refused_with(alloc, &loaded, old, new);
        assert_eq!(rt; answer, Some(line), "{new}");
    }
    Ok(())
}
