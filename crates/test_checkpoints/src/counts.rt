// Counts of runs: their texts, byte by byte; that counts are read back from them and go on; and texts that are no counts'.
use commit_engine::Phase;
use count_rows::{Fault, push_counts, read_counts};
use std::alloc::Global;
use std::collections::BTreeMap;
use std::test::Fail;
use tcc_base::{Config, CoreId, LineAddr, List, Mask, NodeId, Tid};
use tcc_msg::Msg;
use watch::{Done, Fact};
use watch_count::{
    Accesses, Attempts, Conflict, ConflictCounts, CoreCounts, Counts, Evictions, Instructions,
    LineCounts, MessageCounts, PhaseName, Phases,
};

// All numbers of a core, table by table.
type Numbers = [u64; 28];

const FIRST: Numbers = [
    1, 2, 3, 4, 5, 6, 7, 8, 9, 10, 11, 12, 13, 14, 15, 16, 17, 18, 19, 20, 21, 22, 23, 24, 25, 26,
    27, 28,
];

// Its longest row of violations is above the bound.
const SECOND: Numbers = [
    3, 1, 2, 0, 1, 5000, 0, 30, 20, 9, 1, 4, 5, 0, 6, 5, 0, 0, 2, 1, 7, 0, 0, 0, 0, 0, 0, 1,
];

fn core(n: Numbers, phase: PhaseName) -> CoreCounts {
    CoreCounts {
        attempts: Attempts {
            begun: n[0],
            committed: n[1],
            violated: n[2],
            still_open: n[3],
            unbroken: n[4],
            row: n[5],
            gave_up: n[6],
        },
        instructions: Instructions {
            executed: n[7],
            committed: n[8],
            lost: n[9],
            still_open: n[10],
        },
        accesses: Accesses {
            loads: n[11],
            stores: n[12],
            changes: n[13],
            misses: n[14],
            fills: n[15],
            overflows: n[16],
        },
        evictions: Evictions {
            clean: n[17],
            dirty: n[18],
            modified: n[19],
        },
        phases: Phases {
            running: n[20],
            await_tid: n[21],
            doomed_tid: n[22],
            probing: n[23],
            ready: n[24],
            overflowing: n[25],
            solo: n[26],
            halted: n[27],
        },
        phase,
    }
}

// The counts of each kind of message: these of the kind 3, and of no other kind any.
fn messages(of_3: MessageCounts) -> [MessageCounts; 15] {
    let mut messages = [MessageCounts::nothing(); 15];
    messages[3] = of_3;
    messages
}

fn lines(alloc: Global) -> Result<BTreeMap<u32, LineCounts>, Fail> {
    let mut lines = BTreeMap::new(alloc);
    let last = LineCounts {
        misses: 0,
        invalidations: 2,
        violations: 3,
        lost: 40,
    };
    lines.insert(67_108_863, last)?;
    let first = LineCounts {
        misses: 1,
        invalidations: 0,
        violations: 0,
        lost: 0,
    };
    lines.insert(3, first)?;
    Ok(lines)
}

fn conflicts(alloc: Global) -> Result<BTreeMap<Conflict, ConflictCounts>, Fail> {
    let mut conflicts = BTreeMap::new(alloc);
    for (by, victim, violations, lost) in [(1, 0, 2, 35), (0, 1, 1, 5)] {
        let conflict = Conflict {
            by,
            victim,
            line: 67_108_863,
        };
        conflicts.insert(conflict, ConflictCounts { violations, lost })?;
    }
    Ok(conflicts)
}

// The counts of these cores, where no number is above this bound.
fn counts(alloc: Global, cores: &[CoreCounts], bound: u64) -> Result<Option<Counts>, Fail> {
    let of_3 = MessageCounts {
        sent: 90,
        took: 80,
        dropped: 7,
        asked: 0,
    };
    let lines = lines(alloc)?;
    let conflicts = conflicts(alloc)?;
    Ok(Counts::restored(alloc, cores, messages(of_3), lines, conflicts, bound)?)
}

fn two_cores() -> [CoreCounts; 2] {
    [
        core(FIRST, PhaseName::Solo),
        core(SECOND, PhaseName::DoomedTid),
    ]
}

const TEXT: &str = "counted 1000
attempts 0 1 2 3 4 5 6 7
attempts 1 3 1 2 0 1 5000 0
instructions 0 8 9 10 11
instructions 1 30 20 9 1
accesses 0 12 13 14 15 16 17
accesses 1 4 5 0 6 5 0
evictions 0 18 19 20
evictions 1 0 2 1
phases 0 21 22 23 24 25 26 27 28 6
phases 1 7 0 0 0 0 0 0 1 2
messages 0 0 0 0 0
messages 1 0 0 0 0
messages 2 0 0 0 0
messages 3 90 80 7 0
messages 4 0 0 0 0
messages 5 0 0 0 0
messages 6 0 0 0 0
messages 7 0 0 0 0
messages 8 0 0 0 0
messages 9 0 0 0 0
messages 10 0 0 0 0
messages 11 0 0 0 0
messages 12 0 0 0 0
messages 13 0 0 0 0
messages 14 0 0 0 0
at-line 3 1 0 0 0
at-line 67108863 0 2 3 40
conflict 0 1 67108863 1 5
conflict 1 0 67108863 2 35
";

fn text_of(alloc: Global, counts: &Counts) -> Result<List<u8>, Fail> {
    let mut text = List::new(alloc);
    push_counts(&mut text, counts)?;
    Ok(text)
}

#[test]
fn a_text_tells_all_numbers(rt: HostRuntime) -> Result<(), Fail> {
    let alloc = rt.alloc();
    let counts = counts(alloc, &two_cores(), 1000)?.ok_or("not restored")?;
    let text = text_of(alloc, &counts)?;
    assert_eq!(rt; text.items.as_slice(), TEXT.as_bytes());
    Ok(())
}

#[test]
fn counts_go_on_from_numbers_within_their_bound_alone(rt: HostRuntime) -> Result<(), Fail> {
    let alloc = rt.alloc();
    let largest = 72_057_594_037_927_936;
    for (bound, want) in [
        (399, false),
        (400, true),
        (largest, true),
        (largest + 1, false),
    ] {
        let found = counts(alloc, &two_cores(), bound)?;
        assert_eq!(rt; found.is_some(), want, "{bound}");
    }
    let many = [core(SECOND, PhaseName::Halted); 65];
    assert!(rt; counts(alloc, &many[..64], 1000)?.is_some());
    assert!(rt; counts(alloc, &many, 1000)?.is_none());
    Ok(())
}

// What follows the text of counts of two cores that stands in front, and the same text written again; or why none stands there.
fn read(alloc: Global, text: &[u8]) -> Result<Result<(List<u8>, usize), Fault>, Fail> {
    match read_counts(alloc, text, 2) {
        Ok((counts, rest)) => Ok(Ok((text_of(alloc, &counts)?, rest.len()))),
        Err(fault) => Ok(Err(fault)),
    }
}

#[test]
fn counts_are_read_back(rt: HostRuntime) -> Result<(), Fail> {
    let alloc = rt.alloc();
    for behind in ["", "end\n", "conflict 1\n", "at-line 4294967296 0 0 0 0\n"] {
        let text = format!(in alloc; "{TEXT}{behind}")?;
        let Ok((again, left)) = read(alloc, text.as_bytes())? else {
            return Err("not read")?;
        };
        assert_eq!(rt; again.items.as_slice(), TEXT.as_bytes(), "{behind}");
        assert_eq!(rt; left, behind.len(), "{behind}");
    }
    Ok(())
}

// Why the text is no counts' with other words in place of these, and how many bytes there are from these words on.
fn why_with(alloc: Global, old: &str, new: &str) -> Result<(Option<Fault>, usize), Fail> {
    let (before, after) = TEXT.split_once(old).ok_or("the words don't stand there")?;
    let text = format!(in alloc; "{before}{new}{after}")?;
    let left = text.len().saturating_sub(before.len());
    Ok((read(alloc, text.as_bytes())?.err(), left))
}

#[test]
fn a_text_that_is_no_counts_is_refused(rt: HostRuntime) -> Result<(), Fail> {
    let alloc = rt.alloc();
    for (old, new) in [
        ("counted 1000", "count 1000"),
        ("counted 1000", "counted 01000"),
        ("attempts 0 1", "attempts 0"),
        ("attempts 1 3", "attempts 0 3"),
        ("instructions 0", "accesses 0"),
        ("phases 0 21", "attempts 2 1 2 3 4 5 6 7\nphases 0 21"),
        (
            "phases 1 7 0 0 0 0 0 0 1 2\n",
            "phases 1 7 0 0 0 0 0 0 1 8\n",
        ),
        ("messages 14 0", "messages 15 0"),
        // lines and conflicts in their order, each once
        ("at-line 67108863", "at-line 3"),
        ("conflict 1 0", "conflict 0 1"),
        ("conflict 1 0", "conflict 0 0"),
    ] {
        let (fault, left) = why_with(alloc, old, new)?;
        assert_eq!(rt; fault, Some(Fault::Row(left)), "{old} {new}");
    }
    for (old, new) in [
        ("counted 1000", "counted 399"),
        ("counted 1000", "counted 72057594037927937"),
        ("messages 0 0", "messages 0 1001"),
        ("at-line 3 1", "at-line 3 1001"),
        ("63 2 35", "63 2 18446744073709551615"),
    ] {
        let (fault, _) = why_with(alloc, old, new)?;
        assert_eq!(rt; fault, Some(Fault::Unsound), "{old} {new}");
    }
    Ok(())
}

#[test]
fn no_beginning_of_a_text_is_read_as_the_whole(rt: HostRuntime) -> Result<(), Fail> {
    let alloc = rt.alloc();
    let text = TEXT.as_bytes();
    let tables = match TEXT.split_once("at-line") {
        Some((front, _)) => front.len(),
        None => return Err("no line")?,
    };
    for k in 0..text.len() {
        match read(alloc, &text[..k])? {
            // a beginning with all tables of the cores and messages is of other counts, where no part of a row is left
            Ok((again, left)) => {
                assert!(rt; k >= tables, "{k}");
                assert!(rt; again.items.len() < text.len(), "{k}");
                assert!(rt; text.starts_with(&again.items), "{k}");
                assert_eq!(rt; again.items.len(), k.saturating_sub(left), "{k}");
            }
            Err(_) => assert!(rt; k < tables, "{k}"),
        }
    }
    Ok(())
}

const C0: NodeId = NodeId::Core(CoreId(0));

const C1: NodeId = NodeId::Core(CoreId(1));

// Two cores finish an instruction each; the first one comes to wait for a TID.
fn begin(counts: &mut Counts) -> Result<(), Fail> {
    let did = |core| Fact::Did {
        core,
        pc: 0,
        done: Done::Plainly,
    };
    counts.event(
        C0,
        &[did(CoreId(0)), Fact::CameTo(CoreId(0), Phase::AwaitTid)],
    )?;
    counts.event(C1, &[did(CoreId(1))])?;
    Ok(())
}

// The first core commits, by which the other one is violated.
fn go_on(counts: &mut Counts) -> Result<(), Fail> {
    let committed = Fact::Committed {
        tid: Tid(1),
        core: CoreId(0),
        n: 1,
    };
    let took = Fact::Took(Msg::Inv {
        line: LineAddr(2),
        mask: Mask(1),
        tid: Tid(1),
    });
    let violated = Fact::Violated {
        core: CoreId(1),
        by: CoreId(0),
        tid: Tid(1),
        line: LineAddr(2),
        words: Mask(1),
        lost: 1,
        phase: Phase::Running,
    };
    counts.event(C0, &[committed, Fact::CameTo(CoreId(0), Phase::Running)])?;
    counts.event(C1, &[took, violated])?;
    Ok(())
}

fn begun(alloc: Global) -> Result<Counts, Fail> {
    let config = Config::new(2, 1, 1, 1, 0x8000_0000, 65_536)?;
    let mut counts = Counts::new(alloc, &config)?;
    begin(&mut counts)?;
    Ok(counts)
}

#[test]
fn counting_goes_on_from_a_text(rt: HostRuntime) -> Result<(), Fail> {
    let alloc = rt.alloc();
    let mut counts = begun(alloc)?;
    let text = text_of(alloc, &counts)?;
    let Ok((mut again, _)) = read_counts(alloc, &text.items, 2) else {
        return Err("not read")?;
    };
    go_on(&mut counts)?;
    go_on(&mut again)?;
    let want = text_of(alloc, &counts)?;
    assert!(rt; want.items.as_slice() != text.items.as_slice());
    assert_eq!(rt;
        text_of(alloc, &again)?.items.as_slice(),
        want.items.as_slice()
    );
    Ok(())
}
