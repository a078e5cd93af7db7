// A cache that is made from its plain data, frame by frame.
use spec_cache::{FrameView, SpecCache, Wants};
use std::alloc::Global;
use std::test::Fail;
use tcc_base::{Config, DirId, LineAddr, Mask, NoMemory, Tid, WordAddr};

/// Two sets of two ways, and 16 lines of memory.
fn empty(alloc: Global) -> Result<SpecCache, Fail> {
    let cfg = Config::new(1, 2, 2, 2, 0, 512)?;
    Ok(SpecCache::new(alloc, &cfg)?)
}

/// A frame with the words 1 to 8, dirty ones of TID 7, and these masks of valid, read, modified and dirty words.
fn frame(line: u32, valid: u8, read: u8, modified: u8, dirty: u8) -> FrameView {
    FrameView {
        line: LineAddr(line),
        words: [1, 2, 3, 4, 5, 6, 7, 8],
        valid: Mask(valid),
        read: Mask(read),
        modified: Mask(modified),
        dirty: Mask(dirty),
        tag: Tid(7),
    }
}

/// Line 3 with words 0 to 3, of which words 0 and 1 are read, and words 1 and 2 modified.
fn marked() -> FrameView {
    frame(3, 0b1111, 0b11, 0b110, 0)
}

/// A cache that was given this frame.
fn marked_cache(alloc: Global) -> Result<SpecCache, Fail> {
    let mut cache = empty(alloc)?;
    let _ = cache.restore_frame(1, 1, &marked());
    Ok(cache)
}

#[test]
fn a_frame_is_found_with_all_its_marks(rt: HostRuntime) -> Result<(), Fail> {
    let cache = marked_cache(rt.alloc())?;
    assert_eq!(rt; cache.frame_of(LineAddr(3)), Some(marked()));
    assert_eq!(rt; cache.line_at(1, 1), Some(LineAddr(3)));
    assert_eq!(rt; cache.write_count(DirId(1)), 1);
    assert!(rt; cache.reads_at(DirId(1)));
    assert!(rt; cache.is_modified(WordAddr(25)));
    let marks = cache.marks_by_home(DirId(1))?;
    assert_eq!(rt; marks.first().copied(), Some((LineAddr(3), Mask(0b110))));
    Ok(())
}

#[test]
fn ways_are_read_by_place(rt: HostRuntime) -> Result<(), Fail> {
    let cache = marked_cache(rt.alloc())?;
    assert_eq!(rt; cache.way_count(), 4);
    for (place, want) in [(0, None), (2, None), (3, Some(marked())), (4, None)] {
        assert_eq!(rt; cache.way_at(place), want, "{place}");
    }
    Ok(())
}

#[test]
fn roll_back_and_commit_find_a_frame(rt: HostRuntime) -> Result<(), Fail> {
    let mut cache = marked_cache(rt.alloc())?;
    cache.roll_back();
    assert_eq!(rt;
        cache.frame_of(LineAddr(3)),
        Some(frame(3, 0b1001, 0, 0, 0))
    );
    let mut cache = marked_cache(rt.alloc())?;
    cache.commit(Tid(7));
    assert_eq!(rt;
        cache.frame_of(LineAddr(3)),
        Some(frame(3, 0b1111, 0, 0, 0b110))
    );
    assert_eq!(rt; (cache.write_count(DirId(1)), cache.any_dirty()), (0, true));
    Ok(())
}

/// Where no frame may be put once way 1 of set 1 holds line 3: a set and a way that don't exist, the way itself, modified and dirty
/// words that aren't valid, both kinds in one frame, and a line outside memory, of the other set, and with a frame already.
fn misfits() -> [(u16, u8, FrameView); 9] {
    [
        (2, 0, frame(4, 1, 0, 0, 0)),
        (1, 2, frame(5, 1, 0, 0, 0)),
        (1, 1, frame(5, 1, 0, 0, 0)),
        (1, 0, frame(5, 1, 0, 0b10, 0)),
        (1, 0, frame(5, 1, 0, 0, 0b10)),
        (1, 0, frame(5, 0b11, 0, 1, 0b10)),
        (1, 0, frame(17, 1, 0, 0, 0)),
        (1, 0, frame(4, 1, 0, 0, 0)),
        (1, 0, frame(3, 1, 0, 0, 0)),
    ]
}

/// The first of these frames that the cache takes.
fn taken(cache: &mut SpecCache, rows: &[(u16, u8, FrameView)]) -> Option<usize> {
    for (k, (set, way, frame)) in rows.iter().enumerate() {
        if cache.restore_frame(*set, *way, frame) {
            return Some(k);
        }
    }
    None
}

#[test]
fn a_frame_that_may_not_stand_there_is_not_put(rt: HostRuntime) -> Result<(), Fail> {
    let mut cache = marked_cache(rt.alloc())?;
    assert_eq!(rt; taken(&mut cache, &misfits()), None);
    assert_eq!(rt;
        (cache.line_at(1, 0), cache.has_frame(LineAddr(5))),
        (None, false)
    );
    let whole = frame(5, 0b11, 0b100, 0, 0b11);
    assert!(rt; cache.restore_frame(1, 0, &whole));
    assert_eq!(rt; cache.frame_of(LineAddr(5)), Some(whole));
    Ok(())
}

/// A cache with the same frames in the same ways.
fn copied(alloc: Global, cache: &SpecCache) -> Result<SpecCache, NoMemory> {
    let config = cache.config();
    let mut other = SpecCache::new(alloc, &config)?;
    for set in 0..config.sets() {
        for way in 0..config.ways() {
            put_copy(&mut other, cache, set, way);
        }
    }
    Ok(other)
}

/// Puts the frame of a way of the other cache into the same way.
fn put_copy(cache: &mut SpecCache, other: &SpecCache, set: u16, way: u8) {
    let Some(line) = other.line_at(set, way) else {
        return;
    };
    if let Some(frame) = other.frame_of(line) {
        let _ = cache.restore_frame(set, way, &frame);
    }
}

/// What a cache tells of all its frames: lines with modified words at home at directory 1, whether a word is dirty, and how many
/// ways may be emptied with use by a core among others and by one that is alone.
fn counts(cache: &SpecCache) -> (u32, bool, usize, usize) {
    let wants = Wants {
        alone: false,
        awaited: None,
        room: None,
    };
    let alone = Wants {
        alone: true,
        ..wants
    };
    (
        cache.write_count(DirId(1)),
        cache.any_dirty(),
        cache.useful_count(wants),
        cache.useful_count(alone),
    )
}

#[test]
fn a_copy_counts_as_its_original(rt: HostRuntime) -> Result<(), Fail> {
    let mut cache = marked_cache(rt.alloc())?;
    assert!(rt; cache.restore_frame(0, 0, &frame(2, 0b11, 0, 0, 0b11)));
    assert!(rt; cache.restore_frame(0, 1, &frame(6, 255, 0, 0, 0)));
    let mut copy = copied(rt.alloc(), &cache)?;
    assert_eq!(rt; counts(&copy), (1, true, 1, 2));
    assert_eq!(rt; counts(&copy), counts(&cache));
    cache.commit(Tid(8));
    copy.commit(Tid(8));
    assert_eq!(rt; counts(&copy), (0, true, 2, 2));
    assert_eq!(rt; counts(&copy), counts(&cache));
    assert_eq!(rt; copy.frame_of(LineAddr(3)), cache.frame_of(LineAddr(3)));
    Ok(())
}
