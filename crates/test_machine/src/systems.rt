// Whole machines: from raw images, by events, to what the commits leave.
ghost use Rattle.std.specs.Prelude.{◌≡◌, ◌≤◌, ◌+◌, length, IfOk};
ghost use Rattle.net_core.specs.Limits.{machine_limit};

use crate::events::{C0, C1, D0, D1, V, event, events, name};
use crate::loading::{STORE_AND_COPY, STORES_24, STORES_SEVEN_AND_HALTS, begun};
use crate::outcomes::{Known, Listed, Played, come_to, end, is_useful, known, ram_line, useful};
use directory::LineState;
use net_core::{Step, StepError, System};
use std::alloc::Global;
use std::test::Fail;
use tcc_base::{CoreEnd, CoreId, List, Mask, Tid};
use tcc_msg::{Event, Name};

// lui x6,0x80000; sw x11,64(x6); ecall
const STORES_16: [u32; 3] = [0x8000_0337, 0x04b3_2023, 0x0000_0073];
// lui x6,0x80000; lw x5,96(x6); sw x11,64(x6); ecall
const READS_24_STORES_16: [u32; 4] = [0x8000_0337, 0x0603_2283, 0x04b3_2023, 0x0000_0073];
// lui x6,0x80000; lw x5,96(x6); bnez x5,past the next; ebreak; ecall
const BREAKS_AT_ZERO: [u32; 5] = [
    0x8000_0337,
    0x0603_2283,
    0x0002_9463,
    0x0010_0073,
    0x0000_0073,
];
// lui x6,0x80000; sw x6,128(x6); ecall
const STORES_32: [u32; 3] = [0x8000_0337, 0x0863_2023, 0x0000_0073];
// lui x6,0x80000; sw x11,128(x6); and so on for the seven words behind; ecall
const STORES_32_TO_39: [u32; 10] = [
    0x8000_0337,
    0x08b3_2023,
    0x08b3_2223,
    0x08b3_2423,
    0x08b3_2623,
    0x08b3_2823,
    0x08b3_2a23,
    0x08b3_2c23,
    0x08b3_2e23,
    0x0000_0073,
];
// The second core gets TID 2 first and commits first; then the first core commits TID 1.
const CROSSED: [Event; 17] = events![
    (e 0) (e 0) (e 0) (d C0 V 0) (e 1) (e 1) (e 1) (d C1 V 0) (d V C1 0) (d V C0 0) (d C0 D1 0)
    (d C1 D1 0) (d D1 C1 0) (e 1) (d C0 D0 0) (d D0 C0 0) (e 0)
];

// The second core has read what TID 1 stores to: its Probe waits, it is violated, and its Mark comes after its Abort.
const READER_WAITS: [Event; 27] = events![
    (e 1) (e 1) (d C1 D1 0) (d D1 C1 0) (e 1) (e 1) (e 0) (e 0) (e 0) (d C0 V 0) (e 1) (d C1 V 0)
    (d V C0 0) (d C0 D0 0) (d V C1 0) (d C1 D0 0) (d D0 C1 0) (d C1 D1 1) (d C0 D1 0) (d D1 C0 0)
    (e 0) (d C0 D1 1) (d C0 D1 2) (d D1 C1 1) (d C1 D1 3) (d C1 D0 2) (d C1 D0 1)
];

// TID 2 stores to what TID 1 has read before, and commits only when TID 1 has.
const OVER_A_READ: [Event; 26] = events![
    (e 0) (e 0) (d C0 D1 0) (d D1 C0 0) (e 0) (e 0) (e 0) (d C0 V 0) (d V C0 0) (d C0 D1 1)
    (d C0 D1 2) (e 1) (e 1) (e 1) (d C1 V 0) (d V C1 0) (d C1 D1 0) (d D1 C1 0) (e 1) (d C1 D1 1)
    (d C1 D1 2) (d D1 C0 2) (d C0 D0 0) (d D0 C0 0) (d D1 C0 1) (e 0)
];

// The second core is violated while it waits for a TID, by an attempt that hit an EBREAK.
const DOOMED: [Event; 20] = events![
    (e 1) (e 1) (d C1 D1 0) (d D1 C1 0) (e 1) (e 1) (e 1) (e 0) (e 0) (e 0) (d C0 V 0) (d V C0 0)
    (d C0 D1 0) (d D1 C0 0) (e 0) (d C0 D1 1) (d C0 D1 2) (d D1 C1 1) (d C1 V 0) (d V C1 0)
];

// An invalidation overtakes the words that the second core asked for; it asks again, and the owner sends its words home first.
const BEFORE_THE_FILL: [Event; 33] = events![
    (e 1) (e 1) (d C1 D1 0) (e 0) (e 0) (e 0) (d C0 V 0) (d V C0 0) (d C0 D1 0) (d D1 C0 0) (e 0)
    (d C0 D1 1) (d C0 D1 2) (d D1 C1 1) (d C1 D1 1) (d D1 C1 0) (e 1) (d C1 D1 2) (d D1 C0 1)
    (d C0 D1 3) (d C1 D1 2) (d D1 C1 2) (e 1) (e 1) (e 1) (d C1 V 0) (d V C1 0) (d C0 D0 0)
    (d C1 D0 0) (d D0 C1 0) (d C1 D1 4) (d D1 C1 3) (e 1)
];

// The second core stores to a whole line that the first wrote; the first's words come home too late, and are dropped.
const WHOLE_LINE: [Event; 32] = events![
    (e 0) (e 0) (e 0) (d C0 V 0) (d V C0 0) (d C0 D0 0) (d D0 C0 0) (e 0) (d C0 D0 1) (d C0 D0 2)
    (x 0 4 0) (e 1) (e 1) (e 1) (e 1) (e 1) (e 1) (e 1) (e 1) (e 1) (e 1) (d C1 V 0) (d V C1 0)
    (d C1 D0 0) (d D0 C1 0) (e 1) (d C1 D0 1) (d C1 D0 2) (d C0 D0 3) (d D0 C0 1) (x 1 4 0)
    (d C1 D0 3)
];

// The beginning of READER_WAITS, and then the Probe that waits there.
const EARLY_PROBE: [Event; 19] = events![
    (e 1) (e 1) (d C1 D1 0) (d D1 C1 0) (e 1) (e 1) (e 0) (e 0) (e 0) (d C0 V 0) (e 1) (d C1 V 0)
    (d V C0 0) (d C0 D0 0) (d V C1 0) (d C1 D0 0) (d D0 C1 0) (d C1 D1 1) (d C1 D1 2)
];

// The beginning of WHOLE_LINE up to the first core's Commit, and then its words, which come too early.
const EARLY_WORDS: [Event; 11] = events![
    (e 0) (e 0) (e 0) (d C0 V 0) (d V C0 0) (d C0 D0 0) (d D0 C0 0) (e 0) (d C0 D0 1) (x 0 4 0)
    (d C0 D0 3)
];

// TID 1 of the first core, and TID 2 of the second, each of three instructions and without a load.
const FIRST: Option<Listed> = Some(Listed(1, 0, 3, None));

const SECOND: Option<Listed> = Some(Listed(2, 1, 3, None));

// What a machine comes to by these events, or before the one that it doesn't take.
fn run(system: &mut System, events: &[Event]) -> Played
    requires { system.old.events + length events.now ≤ machine_limit }
{
    let run = system.run(events);
    come_to(system, run)
}

// The same of a machine of two cores that begins with these images.
fn play(alloc: Global, dirs: u64, images: [&[u32]; 2], events: &[Event]) -> Result<Played, Fail>
    requires { length events.now ≤ machine_limit }
{
    let mut system = begun(alloc, 2, dirs, images)?;
    Ok(run(&mut system, events))
}

// A machine that took all of so many events, made these commits, and has no word in the line 4.
fn all_taken(events: u64, commits: [Option<Listed>; 2], pcs: [u32; 2], words: [u32; 2]) -> Played {
    Played {
        run: Ok(()),
        events,
        commits: [commits[0], commits[1], None],
        pcs: [Some(pcs[0]), Some(pcs[1])],
        words: [Some(words[0]), Some(words[1])],
        line: Some([0; 8]),
    }
}

// Takes the useful event of number 0, where there is one.
fn take_first(system: &mut System) -> Option<Result<Step, StepError>> {
    if !system.is_settled() || system.events() >= 4_194_304 {
        return None;
    }
    let e = system.useful_at(0)?;
    Some(system.step(e))
}

// Takes the useful event of number 0, and so on while there is one; Err of the number of events before one that isn't taken.
fn take_all(system: &mut System) -> Result<(), (u64, StepError)> {
    for _ in 0..100 {
        match take_first(system) {
            None => break,
            Some(Ok(_)) => {}
            Some(Err(fault)) => return Err((system.events(), fault)),
        }
    }
    Ok(())
}

// What a machine comes to; the words of line 2 as RAM is read; and how the first core stood before the first event and stands then.
type PlayedOut = (Played, Option<[u32; 8]>, [Option<CoreEnd>; 2]);

fn play_out(alloc: Global, system: &mut System) -> Result<PlayedOut, Fail> {
    let before = end(system);
    let run = take_all(system);
    let played = come_to(system, run);
    Ok((played, ram_line(alloc, system, 2)?, [before, end(system)]))
}

// The same of a machine of one core and one directory that begins with this image.
fn played_out(alloc: Global, image: &[u32]) -> Result<PlayedOut, Fail> {
    let mut system = begun(alloc, 1, 1, [image, &[]])?;
    play_out(alloc, &mut system)
}

#[test]
fn the_useful_events_lead_to_the_end(rt: HostRuntime) -> Result<(), Fail> {
    let (played, line, ends) = played_out(rt.alloc(), &STORES_SEVEN_AND_HALTS)?;
    let commits = [Some(Listed(1, 0, 4, None)), Some(Listed(2, 0, 2, None))];
    let taken = all_taken(19, commits, [0x8000_0014, 0], [7, 0]);
    let pcs = [taken.pcs[0], None];
    assert_eq!(rt; played, Played { pcs, ..taken });
    assert_eq!(rt; line, Some([7, 0, 0, 0, 0, 0, 0, 0]));
    assert_eq!(rt; ends, [Some(CoreEnd::Run), Some(CoreEnd::Halt(0))]);
    Ok(())
}

// How many commits a machine of one core and one directory keeps at its end, and when it has forgotten what it may.
fn kept(alloc: Global, image: &[u32]) -> Result<[usize; 2], Fail> {
    let mut system = begun(alloc, 1, 1, [image, &[]])?;
    let _ = take_all(&mut system);
    let all = system.commits().len();
    system.forget();
    Ok([all, system.commits().len()])
}

#[test]
fn commits_that_the_directory_has_passed_are_forgotten(rt: HostRuntime) -> Result<(), Fail> {
    assert_eq!(rt; kept(rt.alloc(), &STORES_SEVEN_AND_HALTS)?, [2, 0]);
    Ok(())
}

// After these events: the useful events, and whether each of those that are asked for is one.
type Useful = (List<Event>, [Option<bool>; 3]);

fn useful_after(
    alloc: Global,
    system: &mut System,
    events: &[Event],
    asked: [Event; 3],
) -> Result<Useful, Fail>
    requires { system.old.events + length events.now ≤ machine_limit }
{
    let _ = system.run(events);
    let told = [
        is_useful(system, asked[0]),
        is_useful(system, asked[1]),
        is_useful(system, asked[2]),
    ];
    Ok((useful(alloc, system)?, told))
}

// The same of two cores and two directories that begin with these images.
fn told_after(
    alloc: Global,
    images: [&[u32]; 2],
    events: &[Event],
    asked: [Event; 3],
) -> Result<Useful, Fail>
    requires { length events.now ≤ machine_limit }
{
    let mut system = begun(alloc, 2, 2, images)?;
    useful_after(alloc, &mut system, events, asked)
}

#[test]
fn useful_events_are_told_from_others(rt: HostRuntime) -> Result<(), Fail> {
    let (listed, told) = told_after(
        rt.alloc(),
        [&STORES_16, &STORES_24],
        &CROSSED[..14],
        events![(x 1 3 0) (x 0 2 0) (e 0)],
    )?;
    assert_eq!(rt;
        listed.items.as_slice(),
        events![(e 1) (x 1 3 0) (d C0 D0 0) (d C1 D0 0) (d C1 D1 1)].as_slice()
    );
    assert_eq!(rt; told, [Some(true), Some(false), Some(false)]);
    Ok(())
}

// What is known at a directory, and of a line, after these events where they are taken.
fn run_to_known(system: &mut System, events: &[Event], dir: u8, line: u32) -> Option<Known>
    requires { system.old.events + length events.now ≤ machine_limit }
{
    if system.run(events).is_err() {
        return None;
    }
    known(system, dir, line)
}

// The same of two cores and two directories that begin with these images.
fn known_after(
    alloc: Global,
    images: [&[u32]; 2],
    events: &[Event],
    dir: u8,
    line: u32,
) -> Result<Option<Known>, Fail>
    requires { length events.now ≤ machine_limit }
{
    let mut system = begun(alloc, 2, 2, images)?;
    Ok(run_to_known(&mut system, events, dir, line))
}

#[test]
fn a_home_tells_of_its_line(rt: HostRuntime) -> Result<(), Fail> {
    let marked = LineState {
        mark: Mask(1),
        owner: None,
        asked: false,
        tag: Tid(0),
    };
    assert_eq!(rt;
        known_after(rt.alloc(), STORE_AND_COPY, &READER_WAITS[..22], 1, 3)?,
        Some((1, 1, marked))
    );
    Ok(())
}

#[test]
fn a_later_tid_commits_first_at_another_directory(rt: HostRuntime) -> Result<(), Fail> {
    let images: [&[u32]; 2] = [&STORES_16, &STORES_24];
    assert_eq!(rt;
        play(rt.alloc(), 2, images, &CROSSED[..14])?,
        all_taken(14, [SECOND, None], [0x8000_0000, 0x8000_002c], [0, 2])
    );
    // Commits are listed by TID.
    assert_eq!(rt;
        play(rt.alloc(), 2, images, &CROSSED)?,
        all_taken(17, [FIRST, SECOND], [0x8000_000c, 0x8000_002c], [2, 2])
    );
    Ok(())
}

#[test]
fn a_reader_of_what_an_earlier_tid_stores_is_violated(rt: HostRuntime) -> Result<(), Fail> {
    assert_eq!(rt;
        play(rt.alloc(), 2, STORE_AND_COPY, &READER_WAITS)?,
        all_taken(27, [FIRST, None], [0x8000_000c, 0x8000_0020], [0, 2])
    );
    Ok(())
}

#[test]
fn a_probe_of_a_tid_that_is_not_served_waits(rt: HostRuntime) -> Result<(), Fail> {
    let played = play(rt.alloc(), 2, STORE_AND_COPY, &EARLY_PROBE)?;
    assert_eq!(rt; played.run, Err((18, StepError::Refused)));
    assert_eq!(rt; played.events, 18);
    Ok(())
}

#[test]
fn a_later_tid_may_store_to_what_an_earlier_one_read(rt: HostRuntime) -> Result<(), Fail> {
    assert_eq!(rt;
        play(
            rt.alloc(),
            2,
            [&READS_24_STORES_16, &STORES_24],
            &OVER_A_READ
        )?,
        all_taken(
            26,
            [Some(Listed(1, 0, 4, Some(0))), SECOND],
            [0x8000_0010, 0x8000_002c],
            [2, 2]
        )
    );
    Ok(())
}

#[test]
fn a_violated_attempt_leaves_no_trap(rt: HostRuntime) -> Result<(), Fail> {
    assert_eq!(rt;
        play(rt.alloc(), 2, [&STORES_24, &BREAKS_AT_ZERO], &DOOMED)?,
        all_taken(20, [FIRST, None], [0x8000_000c, 0x8000_0020], [0, 2])
    );
    Ok(())
}

#[test]
fn words_that_an_invalidation_overtook_are_asked_for_again(rt: HostRuntime) -> Result<(), Fail> {
    assert_eq!(rt;
        play(rt.alloc(), 2, STORE_AND_COPY, &BEFORE_THE_FILL)?,
        all_taken(
            33,
            [FIRST, Some(Listed(2, 1, 4, Some(2)))],
            [0x8000_000c, 0x8000_0030],
            [2, 2]
        )
    );
    Ok(())
}

#[test]
fn words_of_an_earlier_commit_that_come_home_late_are_dropped(rt: HostRuntime) -> Result<(), Fail> {
    let taken = all_taken(
        32,
        [FIRST, Some(Listed(2, 1, 10, None))],
        [0x8000_000c, 0x8000_0048],
        [STORES_32_TO_39[8], 0],
    );
    assert_eq!(rt;
        play(rt.alloc(), 1, [&STORES_32, &STORES_32_TO_39], &WHOLE_LINE)?,
        Played {
            line: Some([2; 8]),
            ..taken
        }
    );
    Ok(())
}

#[test]
fn words_do_not_come_home_before_their_commit(rt: HostRuntime) -> Result<(), Fail> {
    let played = play(rt.alloc(), 1, [&STORES_32, &STORES_32_TO_39], &EARLY_WORDS)?;
    assert_eq!(rt; played.run, Err((10, StepError::Refused)));
    assert_eq!(rt; played.events, 10);
    Ok(())
}

// The words of a line as RAM is read, after these events where they are taken.
fn run_to_ram(
    alloc: Global,
    system: &mut System,
    events: &[Event],
    line: u32,
) -> Result<Option<[u32; 8]>, Fail>
    requires { system.old.events + length events.now ≤ machine_limit }
{
    let _ = system.run(events);
    ram_line(alloc, system, line)
}

// The same of a machine of two cores that begins with these images.
fn ram_after(
    alloc: Global,
    dirs: u64,
    images: [&[u32]; 2],
    events: &[Event],
    line: u32,
) -> Result<Option<[u32; 8]>, Fail>
    requires { length events.now ≤ machine_limit }
{
    let mut system = begun(alloc, 2, dirs, images)?;
    run_to_ram(alloc, &mut system, events, line)
}

#[test]
fn ram_is_read_where_its_newest_words_are(rt: HostRuntime) -> Result<(), Fail> {
    let alloc = rt.alloc();
    // Line 2 is in a frame of the first core, line 4 on its way home, and line 5 at home.
    let framed = ram_after(alloc, 2, [&STORES_16, &STORES_24], &CROSSED, 2)?;
    assert_eq!(rt; framed, Some([2, 0, 0, 0, 0, 0, 0, 0]));
    let images: [&[u32]; 2] = [&STORES_32, &STORES_32_TO_39];
    let flying = ram_after(alloc, 1, images, &WHOLE_LINE[..11], 4)?;
    assert_eq!(rt; flying, Some([0x8000_0000, 0, 0, 0, 0, 0, 0, 0]));
    let home = ram_after(alloc, 1, images, &WHOLE_LINE[..11], 5)?;
    assert_eq!(rt; home, Some([0; 8]));
    Ok(())
}
