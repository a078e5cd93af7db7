// Both forms, and the vector, under the same calls.
use skip_vector::{RingSkips, SetSkips, SkipVector, Skips};
use std::alloc::Global;
use std::test::Fail;
use tcc_base::{NoMemory, Tid};

// The first skip that no form may be handed.
const TIDS: u64 = 1 << 62;

// A call with the TID that is served after it; no TID stands for `advance`.
const CALLS: [(Option<u64>, u64); 14] = [
    (Some(3), 1),
    (Some(2), 1),
    (Some(1), 4),
    (Some(70), 4),
    (Some(1), 4),
    (None, 5),
    (Some(6), 5),
    (Some(6), 5),
    (Some(5), 7),
    (Some(200), 7),
    (Some(8), 7),
    (None, 9),
    (Some(10), 9),
    (None, 11),
];

fn does<S: Skips>(skips: &mut S, tid: Option<u64>) -> bool {
    match tid {
        Some(tid) if tid < TIDS => skips.skip(Tid(tid)).is_ok(),
        None if skips.serving().0 <= TIDS => {
            skips.advance();
            true
        }
        _ => false,
    }
}

#[test]
fn both_forms_serve_the_same(rt: HostRuntime) -> Result<(), Fail> {
    let mut ring = RingSkips::new(rt.alloc());
    let mut set = SetSkips::new(rt.alloc());
    assert_eq!(rt; (ring.serving(), set.serving()), (Tid(1), Tid(1)));
    for (tid, serving) in CALLS {
        assert_eq!(rt;
            (does(&mut ring, tid), does(&mut set, tid)),
            (true, true),
            "{tid:?}"
        );
        assert_eq!(rt;
            (ring.serving().0, set.serving().0),
            (serving, serving),
            "{tid:?}"
        );
    }
    Ok(())
}

#[test]
fn a_vector_serves_the_next_that_did_not_give_up(rt: HostRuntime) -> Result<(), Fail> {
    let mut skips = SkipVector::new(rt.alloc());
    assert!(rt; skips.skip(Tid(2)).is_ok());
    assert!(rt; skips.serving().0 == 1);
    skips.advance();
    assert_eq!(rt; skips.serving(), Tid(3));
    assert!(rt; skips.skip(Tid(TIDS - 1)).is_err());
    Ok(())
}

// Serves TID 1, and has skipped 2, 4 and 5.
fn skipping(alloc: Global) -> Result<SkipVector, NoMemory> {
    let mut skips = SkipVector::new(alloc);
    for tid in [2, 5, 4] {
        skips.skip(Tid(tid))?;
    }
    Ok(skips)
}

// The vector that serves the same, with the same skips.
fn copied(alloc: Global, skips: &SkipVector) -> Result<Option<SkipVector>, NoMemory> {
    let mut flags = Vec::new(alloc);
    for k in 0..skips.skips_ahead() {
        let tid = Tid(skips.serving().0.saturating_add(1).saturating_add(k as u64));
        if flags.push(skips.is_skipped(tid)).is_err() {
            return Err(NoMemory);
        }
    }
    SkipVector::restored(alloc, skips.serving(), &flags)
}

// The TIDs that it serves, one after the other, 3 being skipped after the first.
fn served(skips: &mut SkipVector) -> [u64; 3] {
    let first = skips.serving().0;
    let _ = skips.skip(Tid(3));
    if skips.serving().0 <= TIDS {
        skips.advance();
    }
    let second = skips.serving().0;
    if skips.serving().0 <= TIDS {
        skips.advance();
    }
    [first, second, skips.serving().0]
}

#[test]
fn a_restored_vector_serves_the_same(rt: HostRuntime) -> Result<(), NoMemory> {
    let mut skips = skipping(rt.alloc())?;
    let copy = copied(rt.alloc(), &skips)?;
    assert_eq!(rt; served(&mut skips), [1, 6, 7]);
    assert!(rt; matches!(copy, Some(_)));
    if let Some(mut copy) = copy {
        assert_eq!(rt; served(&mut copy), [1, 6, 7]);
    }
    Ok(())
}

#[test]
fn no_vector_serves_too_high_a_tid(rt: HostRuntime) -> Result<(), NoMemory> {
    for (serving, skips, fits) in [
        (TIDS + 1, &[] as &[bool], true),
        (TIDS + 2, &[], false),
        (TIDS - 2, &[true], true),
        (TIDS - 1, &[true], false),
        (TIDS - 2, &[false, true], false),
    ] {
        let found = SkipVector::restored(rt.alloc(), Tid(serving), skips)?;
        assert_eq!(rt; found.is_some(), fits, "{serving}");
    }
    Ok(())
}
