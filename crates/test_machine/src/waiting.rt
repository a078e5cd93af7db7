// A machine in the middle of a violation: which messages wait and why, and what is found to happen next.
ghost use Rattle.std.specs.Prelude.{◌≤◌, ◌+◌, length};
ghost use Rattle.net_core.specs.Limits.{machine_limit};

use crate::events::{C0, C1, D0, D1, V, event, events, name};
use crate::loading::{STORE_AND_COPY, begun};
use live_core::{Reason, find, find_for, has_halted, waits_because};
use net_core::System;
use std::alloc::Global;
use std::test::Fail;
use tcc_base::{CoreId, Tid};
use tcc_msg::{Event, Name};

// The second core has read what TID 1 is about to store to, and its Probe for TID 2 waits.
const READER_WAITS: [Event; 18] = events![
    (e 1) (e 1) (d C1 D1 0) (d D1 C1 0) (e 1) (e 1) (e 0) (e 0) (e 0) (d C0 V 0) (e 1) (d C1 V 0)
    (d V C0 0) (d C0 D0 0) (d V C1 0) (d C1 D0 0) (d D0 C1 0) (d C1 D1 1)
];

// The first core has asked for its TID, and the second for the line that it loads.
const ASKS_FIRST: [Event; 5] = events![(e 0) (e 0) (e 0) (e 1) (e 1)];

// The names of the messages that are in flight where the reader waits, and one of a message that was taken.
const NAMES: [Name; 4] = [
    name!(C0 D1 0),
    name!(C1 D1 2),
    name!(C1 D0 1),
    name!(C1 D1 1),
];

// What is found to happen next: of all, and for each core; nothing where the first core has halted.
fn found(system: &System) -> [Option<Event>; 3] {
    if !system.is_settled() || system.config().cores() < 2 {
        return [None; 3];
    }
    if has_halted(system, CoreId(0)) {
        return [None; 3];
    }
    [
        find(system),
        find_for(system, CoreId(0)),
        find_for(system, CoreId(1)),
    ]
}

// Why the messages of the names wait, and what is found.
type Told = ([Option<Reason>; 4], [Option<Event>; 3]);

// The same after these events; nothing where one of them isn't enabled.
fn run(system: &mut System, events: &[Event]) -> Option<Told>
    requires { system.old.events + length events.now ≤ machine_limit }
{
    if system.run(events).is_err() {
        return None;
    }
    let reasons = [
        waits_because(system, NAMES[0]),
        waits_because(system, NAMES[1]),
        waits_because(system, NAMES[2]),
        waits_because(system, NAMES[3]),
    ];
    Some((reasons, found(system)))
}

// The same of two cores and two directories that begin with a store and a copy of what it stores.
fn told_after(alloc: Global, events: &[Event]) -> Result<Told, Fail>
    requires { length events.now ≤ machine_limit }
{
    let mut system = begun(alloc, 2, 2, STORE_AND_COPY)?;
    let told = run(&mut system, events).ok_or("an event isn't enabled")?;
    Ok(told)
}

#[test]
fn a_probe_waits_for_its_turn(rt: HostRuntime) -> Result<(), Fail> {
    let (reasons, found) = told_after(rt.alloc(), &READER_WAITS)?;
    assert_eq!(rt; reasons, [None, Some(Reason::Early(Tid(1))), None, None]);
    assert_eq!(rt; found, [Some(event!(d C0 D1 0)); 3]);
    Ok(())
}

#[test]
fn another_core_is_not_given_its_place(rt: HostRuntime) -> Result<(), Fail> {
    let (reasons, found) = told_after(rt.alloc(), &ASKS_FIRST)?;
    assert_eq!(rt; reasons, [None; 4]);
    let asks = Some(event!(d C0 V 0));
    assert_eq!(rt; found, [asks, asks, Some(event!(d C1 D1 0))]);
    Ok(())
}
