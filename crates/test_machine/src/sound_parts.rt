// Which parts are a sound machine together.
use crate::events::{C0, D0, V};
use crate::loading::{STORE_AND_COPY, loaded};
use machine_parts::Parts;
use std::alloc::Global;
use std::test::Fail;
use tcc_base::{LineAddr, NodeId, Tid};
use tcc_msg::Msg;

// Parts of a machine of two cores and two directories at its start.
fn first_parts(alloc: Global) -> Result<Parts, Fail> {
    let loaded = loaded(alloc, 2, 2, STORE_AND_COPY)?;
    Ok(Parts::start(alloc, &loaded)?)
}

// The same, but after so many events with this TID to be granted next.
fn parts_after(alloc: Global, next: u64, events: u64) -> Result<Parts, Fail> {
    let mut parts = first_parts(alloc)?;
    parts.restore_numbers(Tid(next), events);
    Ok(parts)
}

fn is_sound(alloc: Global, parts: &Parts) -> Result<bool, Fail> {
    Ok(parts.is_sound(alloc)?)
}

// Whether these are sound.
fn are_sound(alloc: Global, next: u64, events: u64) -> Result<bool, Fail> {
    let parts = parts_after(alloc, next, events)?;
    is_sound(alloc, &parts)
}

#[test]
fn no_more_tids_are_granted_than_events_were_taken(rt: HostRuntime) -> Result<(), Fail> {
    assert!(rt; are_sound(rt.alloc(), 1, 0)?);
    assert!(rt; are_sound(rt.alloc(), 10, 9)?);
    assert!(rt; !are_sound(rt.alloc(), 11, 9)?);
    assert!(rt; !are_sound(rt.alloc(), 0, 9)?);
    assert!(rt; are_sound(rt.alloc(), 1, 1 << 40)?);
    assert!(rt; !are_sound(rt.alloc(), 1, (1 << 40) + 1)?);
    Ok(())
}

// Sends these messages on a link of the parts, and says whether they are sound then.
fn push_all(
    alloc: Global,
    parts: &mut Parts,
    src: NodeId,
    dst: NodeId,
    msgs: &[Msg],
) -> Result<bool, Fail> {
    for msg in msgs {
        if !parts.push(src, dst, *msg)? {
            return Err("there is no such link")?;
        }
    }
    is_sound(alloc, parts)
}

// Whether parts after nine events, in which TID 1 was granted, are sound with these messages in flight on a link.
fn are_sound_with(alloc: Global, src: NodeId, dst: NodeId, msgs: &[Msg]) -> Result<bool, Fail> {
    let mut parts = parts_after(alloc, 2, 9)?;
    push_all(alloc, &mut parts, src, dst, msgs)
}

#[test]
fn a_message_stands_where_it_may(rt: HostRuntime) -> Result<(), Fail> {
    let alloc = rt.alloc();
    let skip = |tid| Msg::Skip { tid: Tid(tid) };
    assert!(rt; are_sound_with(alloc, C0, D0, &[skip(1)])?);
    assert!(rt; !are_sound_with(alloc, C0, D0, &[skip(2)])?);
    assert!(rt; !are_sound_with(alloc, D0, C0, &[skip(1)])?);
    let ask = |line| Msg::DataReq {
        line: LineAddr(line),
    };
    assert!(rt; are_sound_with(alloc, D0, C0, &[ask(2)])?);
    assert!(rt; !are_sound_with(alloc, D0, C0, &[ask(3)])?);
    assert!(rt; !are_sound_with(alloc, D0, C0, &[ask(2048)])?);
    Ok(())
}

#[test]
fn a_tid_is_in_one_place(rt: HostRuntime) -> Result<(), Fail> {
    let alloc = rt.alloc();
    let grant = |tid| Msg::TidGrant { tid: Tid(tid) };
    assert!(rt; are_sound_with(alloc, V, C0, &[grant(1)])?);
    assert!(rt; !are_sound_with(alloc, V, C0, &[grant(2)])?);
    assert!(rt; !are_sound_with(alloc, V, C0, &[grant(1), grant(1)])?);
    Ok(())
}

// Lets so many messages have been sent on a link of the parts, and says whether they are sound then.
fn send(alloc: Global, parts: &mut Parts, sent: u64) -> Result<bool, Fail> {
    if !parts.restore_sent(C0, D0, sent) {
        return Err("there is no such link")?;
    }
    is_sound(alloc, parts)
}

// Whether so many messages may have been sent on a link by so many events, all of which are consumed.
fn may_be_sent(alloc: Global, sent: u64, events: u64) -> Result<bool, Fail> {
    let mut parts = parts_after(alloc, 1, events)?;
    send(alloc, &mut parts, sent)
}

#[test]
fn no_more_is_sent_than_events_can_send(rt: HostRuntime) -> Result<(), Fail> {
    // Of memory of 2,048 lines an event sends 4,098 messages at most.
    assert!(rt; may_be_sent(rt.alloc(), 12_294, 3)?);
    assert!(rt; !may_be_sent(rt.alloc(), 12_295, 3)?);
    Ok(())
}
