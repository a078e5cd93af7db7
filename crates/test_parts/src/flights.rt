// Messages sent, marked, listed and taken, with ample memory.
use machine_links::{Held, InFlight, Lane};
use std::alloc::Global;
use tcc_base::{CoreId, DirId, NoMemory, NodeId, Tid};
use tcc_msg::{Msg, Name};

// A Skip of this TID, unmarked.
fn skip(tid: u64) -> Held {
    Held {
        msg: Msg::Skip { tid: Tid(tid) },
        ready: false,
    }
}

// Skip 7, then Skip 8.
fn two_sent(alloc: Global) -> Result<Lane, NoMemory> {
    let mut lane = Lane::new(alloc);
    lane.send(skip(7))?;
    lane.send(skip(8))?;
    Ok(lane)
}

#[test]
fn a_lane_gives_by_number(rt: HostRuntime) -> Result<(), NoMemory> {
    let mut lane = two_sent(rt.alloc())?;
    assert_eq!(rt;
        lane.take(0).map(|held| held.msg),
        Some(Msg::Skip { tid: Tid(7) })
    );
    assert!(rt; lane.get(0).is_none());
    assert!(rt; lane.get(1).is_some());
    assert_eq!(rt; lane.sent(), 2);
    assert_eq!(rt; lane.waiting(), 1);
    Ok(())
}

// Skips 0 to 599, those of an even TID marked.
fn many_sent(alloc: Global) -> Result<Lane, NoMemory> {
    let mut lane = Lane::new(alloc);
    for tid in 0..600u64 {
        lane.send(Held {
            msg: Msg::Skip { tid: Tid(tid) },
            ready: tid % 2 == 0,
        })?;
    }
    Ok(lane)
}

// Whether the message of that number was marked, before it is; nothing where there is none.
fn mark(lane: &mut Lane, seq: u64) -> Option<bool> {
    if lane.get(seq).is_none() {
        return None;
    }
    Some(lane.set_ready(seq, true))
}

// The number of the i-th message in flight.
fn number_at(lane: &Lane, i: usize) -> Option<u64> {
    lane.waiting_at(i).map(|found| found.0)
}

// Takes Skips 0 to 599 out, and counts those that were there.
fn drained(lane: &mut Lane) -> u64 {
    let mut count: u64 = 0;
    for seq in 0..600u64 {
        if lane.take(seq).map(|held| held.msg) == Some(Msg::Skip { tid: Tid(seq) }) {
            count = count.wrapping_add(1);
        }
    }
    count
}

#[test]
fn a_long_lane_gives_from_its_middle_front_and_end(rt: HostRuntime) -> Result<(), NoMemory> {
    let mut lane = many_sent(rt.alloc())?;
    for seq in [300, 0, 599] {
        assert_eq!(rt;
            lane.take(seq).map(|held| held.msg),
            Some(Msg::Skip { tid: Tid(seq) })
        );
        assert!(rt; lane.take(seq).is_none());
    }
    assert_eq!(rt; lane.sent(), 600);
    assert_eq!(rt; lane.waiting(), 597);
    assert_eq!(rt; number_at(&lane, 0), Some(1));
    assert_eq!(rt; number_at(&lane, 298), Some(299));
    assert_eq!(rt; number_at(&lane, 299), Some(301));
    assert_eq!(rt; number_at(&lane, 596), Some(598));
    assert_eq!(rt; number_at(&lane, 597), None);
    Ok(())
}

#[test]
fn a_long_lane_lists_its_marked_messages(rt: HostRuntime) -> Result<(), NoMemory> {
    let mut lane = many_sent(rt.alloc())?;
    assert_eq!(rt; lane.ready_at(299), Some(598));
    assert_eq!(rt; lane.ready_at(300), None);
    assert_eq!(rt; mark(&mut lane, 301), Some(false));
    assert_eq!(rt; mark(&mut lane, 302), Some(true));
    assert_eq!(rt; lane.ready_at(150), Some(300));
    assert_eq!(rt; lane.ready_at(151), Some(301));
    assert_eq!(rt; lane.ready_at(300), Some(598));
    assert_eq!(rt; drained(&mut lane), 600);
    assert_eq!(rt; lane.waiting(), 0);
    assert_eq!(rt; lane.ready_at(0), None);
    lane.send(skip(7))?;
    assert!(rt; lane.get(600).is_some());
    assert_eq!(rt; number_at(&lane, 0), Some(600));
    Ok(())
}

const CORE: NodeId = NodeId::Core(CoreId(1));

const DIR: NodeId = NodeId::Dir(DirId(0));

const NAME: Name = Name {
    src: CORE,
    dst: DIR,
    seq: 0,
};

// A TidReq, and Skip 7 by that name.
fn two_flying(alloc: Global) -> Result<InFlight, NoMemory> {
    let mut flights = InFlight::new(alloc, 2, 1)?;
    flights.push(CORE, NodeId::Vendor, Msg::TidReq, false)?;
    flights.push(CORE, DIR, Msg::Skip { tid: Tid(7) }, false)?;
    Ok(flights)
}

// The first that is marked once the name is, what is taken by it, and how many are marked and in flight then; nothing where
// no message has that name.
fn marked(flights: &mut InFlight) -> Option<(Option<Name>, Option<Msg>, usize, u64)> {
    if flights.get(NAME).is_none() {
        return None;
    }
    flights.set_ready(CORE, DIR, 0, true);
    let first = flights.ready_at(0);
    let taken = flights.take(NAME);
    Some((first, taken, flights.ready_count(), flights.len()))
}

#[test]
fn marked_messages_are_listed_by_link(rt: HostRuntime) -> Result<(), NoMemory> {
    let mut flights = two_flying(rt.alloc())?;
    let skip = Msg::Skip { tid: Tid(7) };
    assert!(rt; marked(&mut flights) == Some((Some(NAME), Some(skip), 0, 1)));
    Ok(())
}

// The i-th message in flight on the link of the name, with its number.
fn flying_at(flights: &InFlight, i: usize) -> Option<(u64, Msg)> {
    flights
        .waiting_at(CORE, DIR, i)
        .map(|found| (found.0, *found.1))
}

// The first three of these, and how many were sent.
fn listed(flights: &InFlight) -> ([Option<(u64, Msg)>; 3], u64) {
    let first = [
        flying_at(flights, 0),
        flying_at(flights, 1),
        flying_at(flights, 2),
    ];
    (first, flights.sent(CORE, DIR))
}

// Sends a message by the link of the name, where it is there.
fn send(flights: &mut InFlight, msg: Msg) -> Result<(), NoMemory> {
    if flights.cores() > 1 && flights.dirs() > 0 {
        return flights.push(CORE, DIR, msg, false);
    }
    Err(NoMemory)
}

// Skips 0 to 4 by the link of the name, of which 0, 2 and 4 were taken out.
fn some_taken(alloc: Global) -> Result<InFlight, NoMemory> {
    let mut flights = InFlight::new(alloc, 2, 1)?;
    for tid in 0..5u64 {
        send(&mut flights, Msg::Skip { tid: Tid(tid) })?;
    }
    for seq in [0, 2, 4] {
        let _ = flights.take(Name {
            src: CORE,
            dst: DIR,
            seq,
        });
    }
    Ok(flights)
}

// The same, made from what is in flight and how many were sent.
fn copied(alloc: Global, flights: &InFlight) -> Result<InFlight, NoMemory> {
    let mut copy = InFlight::new(alloc, 2, 1)?;
    for i in 0..flights.waiting(CORE, DIR) {
        if let Some((seq, msg)) = flights.waiting_at(CORE, DIR, i) {
            copy.restore_sent(CORE, DIR, seq);
            send(&mut copy, *msg)?;
        }
    }
    copy.restore_sent(CORE, DIR, flights.sent(CORE, DIR));
    Ok(copy)
}

#[test]
fn a_restored_link_goes_on_as_its_original(rt: HostRuntime) -> Result<(), NoMemory> {
    let mut flights = some_taken(rt.alloc())?;
    let mut copy = copied(rt.alloc(), &flights)?;
    let (one, three) = (Msg::Skip { tid: Tid(1) }, Msg::Skip { tid: Tid(3) });
    assert!(rt; listed(&flights) == ([Some((1, one)), Some((3, three)), None], 5));
    assert!(rt; listed(&copy) == listed(&flights));
    send(&mut flights, Msg::TidReq)?;
    send(&mut copy, Msg::TidReq)?;
    assert!(rt; listed(&copy).0[2] == Some((5, Msg::TidReq)));
    assert!(rt; listed(&copy) == listed(&flights) && copy.len() == flights.len());
    Ok(())
}

#[test]
fn a_link_that_is_there_lets_no_fewer_be_sent(rt: HostRuntime) -> Result<(), NoMemory> {
    let mut flights = some_taken(rt.alloc())?;
    for (src, dst, sent, passes) in [
        (CORE, DIR, 4, false),
        (CORE, DIR, 5, true),
        (CORE, DIR, u64::MAX, true),
        (DIR, CORE, 1, true),
        (CORE, CORE, 0, false),
        (CORE, NodeId::Dir(DirId(1)), 0, false),
        (NodeId::Core(CoreId(2)), NodeId::Vendor, 0, false),
    ] {
        assert_eq!(rt; flights.restore_sent(src, dst, sent), passes);
    }
    assert!(rt; flights.sent(CORE, DIR) == u64::MAX && flights.len() == 2);
    assert!(rt; send(&mut flights, Msg::TidReq).is_err());
    Ok(())
}
