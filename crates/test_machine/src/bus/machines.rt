// Whole machines: from raw images, by events, to what the commits leave.
use super::loading::loaded;
use bus_tcc::{BusError, BusEvent, BusSystem};
use std::alloc::Global;
use std::test::Fail;
use tcc_base::{CoreEnd, CoreId, Reg, WordAddr};

// An event: a core executes, it empties a way of a set, or it takes the packet.
macro_rules! event {
    (e $core:literal) => {
        BusEvent::Exec(CoreId($core))
    };
    (x $core:literal $set:literal $way:literal) => {
        BusEvent::Evict(CoreId($core), $set, $way)
    };
    (t $core:literal) => {
        BusEvent::Take(CoreId($core))
    };
}

macro_rules! events {
    ($(($($part:tt)*))*) => {
        [$(event!($($part)*)),*]
    };
}

// addi x5,x0,7; lui x6,0x80000; sw x5,64(x6); ecall; addi x10,x0,65; addi x17,x0,1; ecall; addi x17,x0,93; ecall
const STORES_7_HALTS: [u32; 9] = [
    0x0070_0293,
    0x8000_0337,
    0x0453_2023,
    0x0000_0073,
    0x0410_0513,
    0x0010_0893,
    0x0000_0073,
    0x05d0_0893,
    0x0000_0073,
];
// lui x6,0x80000; lw x5,64(x6); addi x5,x5,1; sw x5,64(x6); ecall
const COUNTS_UP: [u32; 5] = [
    0x8000_0337,
    0x0403_2283,
    0x0012_8293,
    0x0453_2023,
    0x0000_0073,
];
// addi x5,x0,7; lui x6,0x80000; sw x5,64(x6); sw x5,96(x6); ecall
const STORES_TWO_LINES: [u32; 5] = [
    0x0070_0293,
    0x8000_0337,
    0x0453_2023,
    0x0653_2023,
    0x0000_0073,
];

// One core executes up to its halt, and its two transactions commit.
const TO_THE_HALT: [BusEvent; 11] =
    events![(e 0) (e 0) (e 0) (e 0) (e 0) (e 0) (e 0) (e 0) (e 0) (e 0) (e 0)];

// The first core has read the word that the second one's packet has, and begins anew; then it commits.
const READER_BEGINS_ANEW: [BusEvent; 15] = events![
    (e 0) (e 0) (e 1) (e 1) (e 1) (e 1) (e 1) (e 1) (t 0) (e 0) (e 0) (e 0) (e 0) (e 0) (e 0)
];

// Both cores have ended their transactions, and the second one's packet is out.
const FIRST_WAITS: [BusEvent; 9] = events![(e 0) (e 0) (e 0) (e 0) (e 1) (e 1) (e 1) (e 1) (e 1)];

// With a cache of one frame a core goes alone for its second line.
const GOES_ALONE: [BusEvent; 4] = events![(e 0) (e 0) (e 0) (e 0)];

// It spills the first, and commits both.
const SPILLS: [BusEvent; 7] = events![(e 0) (e 0) (e 0) (e 0) (x 0 0 0) (e 0) (e 0)];

/// A machine, what happens in it, and what comes of that.
#[derive(Clone, Copy)]
struct Row<'a> {
    cores: u64,
    sets: u64,
    ways: u64,
    image: &'a [u32],
    events: &'a [BusEvent],
    /// Events that aren't enabled then.
    refused: &'a [BusEvent],
    state: State,
}

/// The TID, core and number of instructions of a commit.
#[derive(Clone, Copy, Debug, PartialEq, Eq)]
struct Listed(u64, u8, u32);

/// The pc and x5 of a core by its last commit, and how it stands then.
#[derive(Clone, Copy, Debug, PartialEq, Eq)]
struct Stands(u32, u32, CoreEnd);

/// Where a machine has come to.
#[derive(Clone, Copy, Debug, PartialEq, Eq)]
struct State {
    events: u64,
    done: bool,
    commits: [Option<Listed>; 2],
    cores: [Option<Stands>; 2],
    /// The words 16 and 24 of memory.
    words: [u32; 2],
    /// What the first core's commits printed first.
    printed: Option<u8>,
    /// How many events are useful, and the first three.
    useful: u64,
    first: [Option<BusEvent>; 3],
}

/// The machine of a row before its first event.
fn begun(alloc: Global, row: &Row) -> Result<BusSystem, Fail> {
    let loaded = loaded(alloc, [row.cores, row.sets, row.ways], row.image)?;
    Ok(BusSystem::start(alloc, &loaded)?)
}

/// Takes an event.
fn take(system: &mut BusSystem, event: BusEvent) -> Result<(), BusError> {
    if system.events() > 999 {
        return Err(BusError::Memory);
    }
    match system.step(event) {
        Ok(_) => Ok(()),
        Err(error) => Err(error),
    }
}

/// Takes all of these events.
fn take_all(system: &mut BusSystem, events: &[BusEvent]) -> Result<(), Fail> {
    for &event in events {
        if !system.enabled(event) {
            return Err("an event wasn't enabled")?;
        }
        let Ok(()) = take(system, event) else {
            return Err("an event wasn't taken")?;
        };
    }
    Ok(())
}

/// Takes none of these events.
fn refuse_all(system: &mut BusSystem, events: &[BusEvent]) -> Result<(), Fail> {
    for &event in events {
        if system.enabled(event) || take(system, event) != Err(BusError::Refused) {
            return Err("an event wasn't refused")?;
        }
    }
    Ok(())
}

/// The k-th commit, from 0.
fn commit(system: &BusSystem, k: usize) -> Option<Listed> {
    let commit = system.commits().get(k)?;
    Some(Listed(commit.tid.0, commit.core.0, commit.n))
}

/// How a core stands by its last commit.
fn standing(system: &BusSystem, core: u8) -> Option<Stands> {
    let x5 = Reg::new(5)?;
    if core >= system.config().cores() {
        return None;
    }
    let check = system.committed(CoreId(core));
    let end = system.ended(CoreId(core));
    Some(Stands(check.pc(), check.regs().get(x5), end))
}

/// Where the machine has come to.
fn come_to(alloc: Global, system: &BusSystem) -> Result<State, Fail> {
    let console = system.console(alloc, CoreId(0))?;
    let useful = system.useful(alloc)?;
    Ok(State {
        events: system.events(),
        done: system.done(),
        commits: [commit(system, 0), commit(system, 1)],
        cores: [standing(system, 0), standing(system, 1)],
        words: [system.word(WordAddr(16)), system.word(WordAddr(24))],
        printed: console.items.first().copied(),
        useful: system.useful_count(),
        first: [
            system.useful_at(0),
            useful.items.get(1).copied(),
            useful.items.get(2).copied(),
        ],
    })
}

/// What comes of a row.
fn observe(alloc: Global, system: &mut BusSystem, row: &Row) -> Result<State, Fail> {
    take_all(system, row.events)?;
    refuse_all(system, row.refused)?;
    come_to(alloc, system)
}

/// The same from the machine's start.
fn played(alloc: Global, row: &Row) -> Result<State, Fail> {
    let mut system = begun(alloc, row)?;
    observe(alloc, &mut system, row)
}

#[test]
fn events_are_taken_or_refused(rt: HostRuntime) -> Result<(), Fail> {
    let start = State {
        events: 0,
        done: false,
        commits: [None; 2],
        cores: [Some(Stands(0x8000_0000, 0, CoreEnd::Run)); 2],
        words: [0; 2],
        printed: None,
        useful: 1,
        first: [Some(event!(e 0)), None, None],
    };
    let one = Row {
        cores: 1,
        sets: 16,
        ways: 2,
        image: &STORES_7_HALTS,
        events: &TO_THE_HALT,
        refused: &events![(e 0) (t 0)],
        state: State {
            events: 11,
            done: true,
            commits: [Some(Listed(1, 0, 4)), Some(Listed(2, 0, 5))],
            cores: [Some(Stands(0x8000_0020, 7, CoreEnd::Halt(65))), None],
            words: [7, 0],
            printed: Some(65),
            useful: 0,
            first: [None; 3],
        },
    };
    let rows = [
        one,
        Row {
            cores: 2,
            events: &FIRST_WAITS,
            refused: &events![(e 0) (e 2) (x 0 16 0) (x 0 0 2) (x 2 0 0) (t 1) (t 2)],
            state: State {
                events: 9,
                commits: [Some(Listed(1, 1, 4)), None],
                cores: [start.cores[0], Some(Stands(0x8000_0010, 7, CoreEnd::Run))],
                words: [7, 0],
                useful: 2,
                first: [Some(event!(e 1)), Some(event!(t 0)), None],
                ..start
            },
            ..one
        },
        Row {
            cores: 2,
            image: &COUNTS_UP,
            events: &READER_BEGINS_ANEW,
            refused: &events![(t 0)],
            state: State {
                events: 15,
                commits: [Some(Listed(1, 1, 5)), Some(Listed(2, 0, 5))],
                cores: [
                    Some(Stands(0x8000_0014, 2, CoreEnd::Run)),
                    Some(Stands(0x8000_0014, 1, CoreEnd::Run)),
                ],
                words: [2, 0],
                useful: 3,
                first: [Some(event!(e 0)), Some(event!(e 1)), Some(event!(t 1))],
                ..start
            },
            ..one
        },
        Row {
            sets: 1,
            ways: 1,
            image: &STORES_TWO_LINES,
            events: &GOES_ALONE,
            refused: &events![(e 0) (t 0)],
            state: State {
                events: 4,
                cores: [start.cores[0], None],
                first: [Some(event!(x 0 0 0)), None, None],
                ..start
            },
            ..one
        },
        Row {
            sets: 1,
            ways: 1,
            image: &STORES_TWO_LINES,
            events: &SPILLS,
            refused: &[],
            state: State {
                events: 7,
                commits: [Some(Listed(1, 0, 5)), None],
                cores: [Some(Stands(0x8000_0014, 7, CoreEnd::Run)), None],
                words: [7, 7],
                ..start
            },
            ..one
        },
    ];
    for row in &rows {
        assert_eq!(rt; played(rt.alloc(), row)?, row.state);
    }
    Ok(())
}
