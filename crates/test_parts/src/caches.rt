// Both forms of the frames driven by the same calls, and a cache that is filled, rolled back and committed.
use spec_cache::{
    Evicted, FrameView, Frames, Invalidated, ListFrames, Look, SetFrames, SpecCache, Wants,
};
use std::alloc::Global;
use std::test::Fail;
use tcc_base::{Config, DirId, LineAddr, Mask, NoMemory, Tagged, Tid, WordAddr};

/// A call of the frames with its arguments.
#[derive(Clone, Copy)]
enum Call {
    Load(u32, bool),
    LookStore(u32, bool),
    Store(u32, u32, bool),
    Place(u32),
    Fill(u32, u32),
    Invalidate(u32, u8),
    TakeDirty(u32),
    Evict(u16, u8),
    RollBack,
    ClearRead,
    Commit(u64),
    DropWords(u32, u8),
    Reads(u8),
    Frame(u16, u8),
}

/// What a call answered; None where it asks more than the frames have.
#[derive(Clone, Copy, Debug, PartialEq, Eq)]
enum Answer {
    Look(Look),
    Out(Option<Tagged>),
    Placed(Result<(), u16>),
    Met(Invalidated),
    Left(Option<Evicted>),
    Shown(Option<FrameView>),
    Is(bool),
    Done,
    Refused,
}

fn place<F: Frames>(frames: &mut F, line: u32) -> Answer {
    if line >= frames.config().words() / 8 || frames.frame_of(LineAddr(line)).is_some() {
        return Answer::Refused;
    }
    Answer::Placed(frames.place(LineAddr(line)))
}

fn store<F: Frames>(frames: &mut F, w: u32, value: u32, also: bool) -> Answer {
    if frames.frame_of(LineAddr(w / 8)).is_none() {
        return Answer::Refused;
    }
    Answer::Out(frames.store(WordAddr(w), value, also))
}

fn fill<F: Frames>(frames: &mut F, line: u32, value: u32) -> Answer {
    if frames.frame_of(LineAddr(line)).is_none() {
        return Answer::Refused;
    }
    frames.fill(LineAddr(line), &[value; 8]);
    Answer::Done
}

fn evict<F: Frames>(frames: &mut F, set: u16, way: u8) -> Answer {
    if set >= frames.config().sets() || way >= frames.config().ways() {
        return Answer::Refused;
    }
    Answer::Left(frames.evict(set, way))
}

fn frame<F: Frames>(frames: &F, set: u16, way: u8) -> Answer {
    if set >= frames.config().sets() || way >= frames.config().ways() {
        return Answer::Refused;
    }
    Answer::Shown(frames.frame(set, way))
}

fn drive<F: Frames>(frames: &mut F, call: Call) -> Answer {
    match call {
        Call::Load(w, mark) => Answer::Look(frames.load(WordAddr(w), mark)),
        Call::LookStore(w, whole) => Answer::Look(frames.look_store(WordAddr(w), whole)),
        Call::Store(w, value, also) => store(frames, w, value, also),
        Call::Place(line) => place(frames, line),
        Call::Fill(line, value) => fill(frames, line, value),
        Call::Invalidate(line, mask) => Answer::Met(frames.invalidate(LineAddr(line), Mask(mask))),
        Call::TakeDirty(line) => Answer::Out(frames.take_dirty(LineAddr(line))),
        Call::Evict(set, way) => evict(frames, set, way),
        Call::RollBack => {
            frames.roll_back();
            Answer::Done
        }
        Call::ClearRead => {
            frames.clear_read();
            Answer::Done
        }
        Call::Commit(tid) => {
            frames.commit(Tid(tid));
            Answer::Done
        }
        Call::DropWords(line, mask) => {
            frames.drop_words(LineAddr(line), Mask(mask));
            Answer::Done
        }
        Call::Reads(d) => Answer::Is(frames.reads_at(DirId(d))),
        Call::Frame(set, way) => frame(frames, set, way),
    }
}

const CALLS: [Call; 40] = [
    Call::Load(8, true),
    Call::Place(1),
    Call::Load(8, true),
    Call::Fill(1, 7),
    Call::Load(8, true),
    Call::Load(9, false),
    Call::Reads(1),
    Call::Reads(0),
    Call::LookStore(24, true),
    Call::Place(3),
    Call::Store(24, 5, true),
    Call::LookStore(40, true),
    Call::Place(5),
    Call::Frame(1, 0),
    Call::Frame(1, 1),
    Call::Load(40, true),
    Call::Commit(2),
    Call::Frame(1, 1),
    Call::LookStore(40, true),
    Call::Store(25, 6, false),
    Call::Frame(1, 1),
    Call::RollBack,
    Call::Frame(1, 1),
    Call::Load(25, true),
    Call::Invalidate(3, 1),
    Call::Load(24, true),
    Call::Evict(1, 0),
    Call::Place(5),
    Call::Store(40, 1, false),
    Call::Commit(3),
    Call::TakeDirty(5),
    Call::TakeDirty(5),
    Call::Store(41, 2, true),
    Call::Commit(4),
    Call::DropWords(5, 2),
    Call::Evict(1, 0),
    Call::Fill(3, 9),
    Call::Load(26, true),
    Call::ClearRead,
    Call::Reads(1),
];

/// The number of the first call that two forms answer differently, with their answers.
fn difference<A: Frames, B: Frames>(a: &mut A, b: &mut B) -> Option<(usize, Answer, Answer)> {
    for (k, call) in CALLS.iter().enumerate() {
        let of_a = drive(a, *call);
        let of_b = drive(b, *call);
        if of_a != of_b {
            return Some((k, of_a, of_b));
        }
    }
    None
}

/// Whether two forms list the same marks at directory 1.
fn same_marks<A: Frames, B: Frames>(a: &A, b: &B) -> Result<bool, NoMemory> {
    let of_a = a.marks_by_home(DirId(1))?;
    let of_b = b.marks_by_home(DirId(1))?;
    Ok(of_a.as_slice() == of_b.as_slice())
}

/// What differs between both forms; whether they then list the same marks; and what a load finds then.
fn compared(alloc: Global) -> Result<(Option<(usize, Answer, Answer)>, bool, Answer), Fail> {
    let cfg = Config::new(1, 2, 2, 2, 0, 512)?;
    let mut list = ListFrames::new(alloc, &cfg)?;
    let mut set = SetFrames::new(alloc, &cfg)?;
    let differs = difference(&mut list, &mut set);
    let same = same_marks(&list, &set)?;
    Ok((differs, same, drive(&mut set, Call::Load(26, false))))
}

#[test]
fn both_forms_answer_alike(rt: HostRuntime) -> Result<(), Fail> {
    assert_eq!(rt;
        compared(rt.alloc())?,
        (None, true, Answer::Look(Look::Hit(9)))
    );
    Ok(())
}

/// A call of a core's cache with its arguments.
#[derive(Clone, Copy)]
enum Use {
    Load(u32),
    Place(u32),
    Store(u32, u32),
    Frame(u32),
    Write(u32),
    Commit(u64),
    DropWords(u32, u8),
    HasFrame(u32),
    Keeps(u32),
    IsModified(u32),
    ReadsAt(u8),
    WritesAt(u8),
    AnyDirty,
    WriteCount(u8),
    MarksByHome(u8),
    MarksInto(u8),
    UsefulCount(Wants),
    UsefulWay(Wants, usize),
    Way(u16, u8),
}

/// What a cache answers; of marks their number and the first. Refused is what asks more than the cache has.
#[derive(Clone, Copy, Debug, PartialEq, Eq)]
enum Told {
    Look(Look),
    Placed(Result<(), u16>),
    Out(Option<Tagged>),
    Is(bool),
    Count(usize),
    Marks(usize, Option<(LineAddr, Mask)>),
    Useful(Option<(u16, u8)>),
    Way(Option<(LineAddr, bool)>),
    Done,
    Refused,
    NoMemory,
}

/// Places a line that the cache hasn't.
fn place_line(cache: &mut SpecCache, line: u32) -> Told {
    if line >= cache.config().words() / 8 || cache.frame_of(LineAddr(line)).is_some() {
        return Told::Refused;
    }
    Told::Placed(cache.place(LineAddr(line)))
}

/// Stores a word of a line that has a frame.
fn store_word(cache: &mut SpecCache, w: u32, value: u32) -> Told {
    if cache.frame_of(LineAddr(w / 8)).is_none() {
        return Told::Refused;
    }
    Told::Out(cache.store(WordAddr(w), value, false))
}

/// Gives the word's line a frame, where it has none.
fn frame_line(cache: &mut SpecCache, line: u32) {
    if line < cache.config().words() / 8 && !cache.has_frame(LineAddr(line)) {
        let _ = cache.place(LineAddr(line));
    }
}

/// Stores a word, in a frame that its line may get for it.
fn write(cache: &mut SpecCache, w: u32) {
    frame_line(cache, w / 8);
    if cache.has_frame(LineAddr(w / 8)) {
        let _ = cache.store(WordAddr(w), w, false);
    }
}

/// These marks as they are told.
fn listed(marks: &[(LineAddr, Mask)]) -> Told {
    Told::Marks(marks.len(), marks.first().copied())
}

/// The marks at a directory, in a list of their own.
fn marks_by_home(cache: &SpecCache, d: u8) -> Told {
    match cache.marks_by_home(DirId(d)) {
        Ok(marks) => listed(marks.as_slice()),
        Err(_) => Told::NoMemory,
    }
}

/// The marks at a directory, in a list that is given.
fn marks_into(alloc: Global, cache: &SpecCache, d: u8) -> Told {
    let mut marks = Vec::new(alloc);
    match cache.marks_into(DirId(d), &mut marks) {
        Ok(()) => listed(marks.as_slice()),
        Err(_) => Told::NoMemory,
    }
}

/// What a way holds.
fn way(cache: &SpecCache, set: u16, way: u8) -> Told {
    if set >= cache.config().sets() || way >= cache.config().ways() {
        return Told::Refused;
    }
    Told::Way(cache.way(set, way))
}

/// What a cache tells that stays as it is; a call that would change it is refused.
fn tell(alloc: Global, cache: &SpecCache, call: Use) -> Told {
    match call {
        Use::HasFrame(line) => Told::Is(cache.has_frame(LineAddr(line))),
        Use::Keeps(line) => Told::Is(cache.keeps(LineAddr(line))),
        Use::IsModified(w) => Told::Is(cache.is_modified(WordAddr(w))),
        Use::ReadsAt(d) => Told::Is(cache.reads_at(DirId(d))),
        Use::WritesAt(d) => Told::Is(cache.writes_at(DirId(d))),
        Use::AnyDirty => Told::Is(cache.any_dirty()),
        Use::WriteCount(d) => Told::Count(cache.write_count(DirId(d)) as usize),
        Use::MarksByHome(d) => marks_by_home(cache, d),
        Use::MarksInto(d) => marks_into(alloc, cache, d),
        Use::UsefulCount(wants) => Told::Count(cache.useful_count(wants)),
        Use::UsefulWay(wants, k) => Told::Useful(cache.useful_way(wants, k)),
        Use::Way(set, y) => way(cache, set, y),
        _ => Told::Refused,
    }
}

/// What a cache answers to a call.
fn answered(alloc: Global, cache: &mut SpecCache, call: Use) -> Told {
    match call {
        Use::Load(w) => Told::Look(cache.load(WordAddr(w), true)),
        Use::Place(line) => place_line(cache, line),
        Use::Store(w, value) => store_word(cache, w, value),
        Use::Frame(line) => {
            frame_line(cache, line);
            Told::Done
        }
        Use::Write(w) => {
            write(cache, w);
            Told::Done
        }
        Use::Commit(tid) => {
            cache.commit(Tid(tid));
            Told::Done
        }
        Use::DropWords(line, mask) => {
            cache.drop_words(LineAddr(line), Mask(mask));
            Told::Done
        }
        _ => tell(alloc, cache, call),
    }
}

/// The number of the first row that a cache answers otherwise, with its answer.
fn wrong(alloc: Global, cache: &mut SpecCache, rows: &[(Use, Told)]) -> Option<(usize, Told)> {
    for (k, (call, told)) in rows.iter().enumerate() {
        let found = answered(alloc, cache, *call);
        if found != *told {
            return Some((k, found));
        }
    }
    None
}

/// The first row that an empty cache of two sets of two ways answers otherwise, with its answer.
fn wrong_of_empty(alloc: Global, rows: &[(Use, Told)]) -> Result<Option<(usize, Told)>, Fail> {
    let cfg = Config::new(1, 2, 2, 2, 0, 512)?;
    let mut cache = SpecCache::new(alloc, &cfg)?;
    Ok(wrong(alloc, &mut cache, rows))
}

const MARKS: [(Use, Told); 8] = [
    (Use::Load(8), Told::Look(Look::Miss)),
    (Use::Place(1), Told::Placed(Ok(()))),
    (Use::Store(10, 7), Told::Out(None)),
    (
        Use::MarksByHome(1),
        Told::Marks(1, Some((LineAddr(1), Mask(4)))),
    ),
    (Use::Commit(1), Told::Done),
    (Use::Load(10), Told::Look(Look::Hit(7))),
    (Use::ReadsAt(1), Told::Is(true)),
    (Use::MarksByHome(1), Told::Marks(0, None)),
];

#[test]
fn a_cache_marks_what_it_wrote(rt: HostRuntime) -> Result<(), Fail> {
    assert_eq!(rt; wrong_of_empty(rt.alloc(), &MARKS)?, None);
    Ok(())
}

const ASKED: [(Use, Told); 19] = [
    (Use::Write(8), Told::Done),
    (Use::Write(16), Told::Done),
    (Use::Frame(3), Told::Done),
    (Use::HasFrame(3), Told::Is(true)),
    (Use::HasFrame(4), Told::Is(false)),
    (Use::Keeps(1), Told::Is(true)),
    (Use::Keeps(3), Told::Is(false)),
    (Use::IsModified(8), Told::Is(true)),
    (Use::IsModified(9), Told::Is(false)),
    (Use::WritesAt(0), Told::Is(true)),
    (Use::WritesAt(1), Told::Is(true)),
    (Use::WriteCount(1), Told::Count(1)),
    (
        Use::MarksInto(1),
        Told::Marks(1, Some((LineAddr(1), Mask(1)))),
    ),
    (Use::AnyDirty, Told::Is(false)),
    (Use::Commit(1), Told::Done),
    (Use::AnyDirty, Told::Is(true)),
    (Use::WritesAt(1), Told::Is(false)),
    (Use::DropWords(1, 1), Told::Done),
    (Use::Keeps(1), Told::Is(false)),
];

#[test]
fn a_cache_answers_what_a_core_asks(rt: HostRuntime) -> Result<(), Fail> {
    assert_eq!(rt; wrong_of_empty(rt.alloc(), &ASKED)?, None);
    Ok(())
}

/// A core among others, or alone.
const AMONG: Wants = Wants {
    alone: false,
    awaited: None,
    room: None,
};

const ALONE: Wants = Wants {
    alone: true,
    awaited: None,
    room: None,
};

/// A core among others that needs room in set 1.
const NEEDS_ROOM: Wants = Wants {
    alone: false,
    awaited: None,
    room: Some(1),
};

/// A core among others that awaits line 2.
const AWAITS: Wants = Wants {
    alone: false,
    awaited: Some(LineAddr(2)),
    room: None,
};

const USEFUL: [(Use, Told); 14] = [
    (Use::Write(8), Told::Done),
    (Use::Write(16), Told::Done),
    (Use::Frame(3), Told::Done),
    (Use::UsefulCount(AMONG), Told::Count(0)),
    (Use::UsefulCount(ALONE), Told::Count(2)),
    (Use::UsefulWay(ALONE, 0), Told::Useful(Some((0, 0)))),
    (Use::UsefulWay(ALONE, 1), Told::Useful(Some((1, 0)))),
    (Use::UsefulWay(ALONE, 2), Told::Useful(None)),
    (Use::UsefulCount(NEEDS_ROOM), Told::Count(1)),
    (Use::UsefulWay(NEEDS_ROOM, 0), Told::Useful(Some((1, 1)))),
    (Use::Commit(1), Told::Done),
    (Use::UsefulCount(AMONG), Told::Count(2)),
    (Use::UsefulCount(AWAITS), Told::Count(1)),
    (Use::UsefulWay(AWAITS, 0), Told::Useful(Some((1, 0)))),
];

#[test]
fn a_cache_counts_its_useful_ways(rt: HostRuntime) -> Result<(), Fail> {
    assert_eq!(rt; wrong_of_empty(rt.alloc(), &USEFUL)?, None);
    Ok(())
}

const WAYS: [(Use, Told); 5] = [
    (Use::Write(8), Told::Done),
    (Use::Frame(3), Told::Done),
    (Use::Way(1, 0), Told::Way(Some((LineAddr(1), true)))),
    (Use::Way(1, 1), Told::Way(Some((LineAddr(3), false)))),
    (Use::Way(0, 1), Told::Way(None)),
];

#[test]
fn a_cache_shows_its_ways(rt: HostRuntime) -> Result<(), Fail> {
    assert_eq!(rt; wrong_of_empty(rt.alloc(), &WAYS)?, None);
    Ok(())
}
