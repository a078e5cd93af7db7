// Each rule of a directory as rows: the sender, the message, what is answered, and what is sent.
ghost use Rattle.std.specs.Prelude.{◌≡◌, ◌<◌, true, false, IfOk};
ghost use Rattle.dir_lines.specs.Home.{Home};
ghost use Rattle.dir_lines.specs.Pages.{is_at_home};
ghost use Rattle.directory.specs.Foreign.{HasSmallTids, is_foreign};
ghost use Rattle.tcc_msg.specs.Plain.{msg_of};

use crate::loading::loaded;
use dir_lines::{CoreSet, LineRecord};
use directory::{Cause, DirError, Directory, Handled, LineState};
use skip_vector::SkipVector;
use std::alloc::Global;
use std::test::Fail;
use tcc_base::{CoreId, DirId, LineAddr, Mask, NoMemory, NodeId, Tid, WordAddr};
use tcc_msg::{Msg, Outgoing};

const LINE: LineAddr = LineAddr(1);

type Answer = Result<Handled, DirError>;

const HANDLED: Answer = Ok(Handled::Handled);

const WAITS: Answer = Ok(Handled::Waits);

const ASKED: Answer = Ok(Handled::Asked);

const DROPPED: Answer = Ok(Handled::Dropped);

const FOREIGN: Answer = Err(DirError::Foreign);

// A message by its kind, of the line where its kind has one, and with words behind the first one that are 0.
macro_rules! msg {
    (load $after:expr) => {
        Msg::LoadReq {
            line: LINE,
            after: Tid($after),
        }
    };
    (fill $first:expr) => {
        Msg::Fill {
            line: LINE,
            words: [$first, 0, 0, 0, 0, 0, 0, 0],
        }
    };
    (skip $tid:expr) => {
        Msg::Skip { tid: Tid($tid) }
    };
    (abort $tid:expr) => {
        Msg::Abort { tid: Tid($tid) }
    };
    (probe $tid:expr) => {
        Msg::Probe { tid: Tid($tid) }
    };
    (reply $tid:expr) => {
        Msg::ProbeReply {
            tid: Tid($tid),
            serving: Tid($tid),
        }
    };
    (mark $mask:expr, $tid:expr) => {
        Msg::Mark {
            line: LINE,
            mask: Mask($mask),
            tid: Tid($tid),
        }
    };
    (commit $tid:expr, $count:expr) => {
        Msg::Commit {
            tid: Tid($tid),
            count: $count,
        }
    };
    (back $tag:expr) => {
        Msg::WriteBack {
            mask: Mask(1),
            line: LINE,
            words: [9, 0, 0, 0, 0, 0, 0, 0],
            tag: Tid($tag),
        }
    };
    (ack $keeps:expr) => {
        Msg::InvAck {
            line: LINE,
            keeps: $keeps,
        }
    };
    (inv $mask:expr, $tid:expr) => {
        Msg::Inv {
            line: LINE,
            mask: Mask($mask),
            tid: Tid($tid),
        }
    };
}

// The second of two directories of a machine with 64 cores, whose second line begins with the word 7.
fn begun(alloc: Global) -> Result<Directory, Fail>
    ensures cores { IfOk result (λ d. d.lines.place.shape.cores ≡ 64) }
    ensures home { IfOk result (λ d. is_at_home d.lines.place 1 ≡ true) }
{
    let loaded = loaded(alloc, 64, 2, [&[0, 0, 0, 0, 0, 0, 0, 0, 7], &[]])?;
    let dir = Directory::start(alloc, loaded.config(), &loaded, DirId(1))?;
    Ok(dir)
}

// Whether a TID in the message is one that can be given.
fn has_small_tids(msg: &Msg) -> bool
    ensures { result ≡ true → HasSmallTids (msg_of msg.now) }
{
    match msg {
        Msg::Skip { tid } => tid.0 < 1 << 62,
        Msg::Abort { tid } => tid.0 < 1 << 62,
        Msg::Commit { tid, .. } => tid.0 < 1 << 62,
        _ => true,
    }
}

// Hands a core's message to the directory.
fn hand(dir: &mut Directory, core: u8, msg: &Msg, out: &mut Outgoing) -> Answer
    requires cores { dir.old.lines.place.shape.cores ≡ 64 }
    requires core { core < 64 }
    ensures { dir.new.lines.place ≡ dir.old.lines.place }
{
    if has_small_tids(msg) {
        return dir.deliver(CoreId(core), msg, out);
    }
    WAITS
}

// Whether the directory says that it takes a message, what it answers, how many messages it sends, and the first of them.
#[derive(Clone, Copy, Debug, PartialEq, Eq)]
struct Told {
    taken: bool,
    answer: Answer,
    sent: usize,
    first: Option<(NodeId, Msg)>,
}

// The same of a core's message; nothing where there is no such core.
fn tell(dir: &mut Directory, core: u8, msg: &Msg, out: &mut Outgoing) -> Option<Told>
    requires { dir.old.lines.place.shape.cores ≡ 64 }
    ensures { dir.new.lines.place ≡ dir.old.lines.place }
{
    if core >= 64 {
        return None;
    }
    let taken = dir.takes(CoreId(core), msg);
    out.clear();
    let answer = hand(dir, core, msg, out);
    Some(Told {
        taken,
        answer,
        sent: out.list.len(),
        first: out.list.as_slice().first().copied(),
    })
}

// A core, its message, what is answered, and to which core the message is sent that is named, or nothing.
type Row = (u8, Msg, Answer, Option<(u8, Msg)>);

// What a row says: what isn't answered by waiting, and is the directory's, was taken.
fn wanted(row: &Row) -> Told {
    let (_, _, answer, sent) = row;
    Told {
        taken: *answer != WAITS && *answer != FOREIGN,
        answer: *answer,
        sent: if sent.is_some() { 1 } else { 0 },
        first: sent.map(|(to, msg)| (NodeId::Core(CoreId(to)), msg)),
    }
}

// The number of the first row that the directory answers otherwise, with its answer.
fn wrong(dir: &mut Directory, rows: &[Row], out: &mut Outgoing) -> Option<(usize, Option<Told>)>
    requires { dir.old.lines.place.shape.cores ≡ 64 }
{
    for (k, row) in rows.iter().enumerate() {
        let found = tell(dir, row.0, &row.1, out);
        if found != Some(wanted(row)) {
            return Some((k, found));
        }
    }
    None
}

const ROWS: [Row; 32] = [
    (3, msg!(probe 2), WAITS, None),
    (3, msg!(probe 1), HANDLED, Some((3, msg!(reply 1)))),
    (0, msg!(skip 3), HANDLED, None),
    (0, msg!(skip 1), HANDLED, None),
    (0, msg!(skip 1), DROPPED, None),
    (3, msg!(load 2), WAITS, None),
    (3, msg!(load 0), HANDLED, Some((3, msg!(fill 7)))),
    (5, msg!(mark 3, 1), DROPPED, None),
    (5, msg!(mark 3, 4), WAITS, None),
    (5, msg!(mark 3, 2), HANDLED, None),
    (3, msg!(load 0), WAITS, None),
    (5, msg!(commit 2, 2), WAITS, None),
    (5, msg!(commit 4, 1), WAITS, None),
    (5, msg!(commit 2, 1), HANDLED, Some((3, msg!(inv 3, 2)))),
    (3, msg!(probe 4), WAITS, None),
    (3, msg!(ack false), HANDLED, None),
    (3, msg!(ack false), DROPPED, None),
    (
        3,
        msg!(load 0),
        ASKED,
        Some((5, Msg::DataReq { line: LINE })),
    ),
    (3, msg!(load 0), WAITS, None),
    (6, msg!(mark 1, 4), WAITS, None),
    (6, msg!(mark 255, 4), HANDLED, None),
    (6, msg!(abort 6), HANDLED, None),
    (6, msg!(abort 4), HANDLED, None),
    (6, msg!(abort 4), DROPPED, None),
    (5, msg!(back 3), WAITS, None),
    (5, msg!(back 1), DROPPED, None),
    (3, msg!(back 2), DROPPED, None),
    (5, msg!(back 2), HANDLED, None),
    (5, msg!(back 2), DROPPED, None),
    (3, msg!(load 0), HANDLED, Some((3, msg!(fill 9)))),
    (3, OF_ANOTHER_HOME, FOREIGN, None),
    (3, Msg::TidReq, FOREIGN, None),
];

const OF_ANOTHER_HOME: Msg = Msg::LoadReq {
    line: LineAddr(2),
    after: Tid(0),
};

#[test]
fn each_rule_answers_row_by_row(rt: HostRuntime) -> Result<(), Fail> {
    let mut dir = begun(rt.alloc())?;
    assert_eq!(rt; dir.word(WordAddr(8)), 7);
    let blank = LineState {
        mark: Mask(0),
        owner: None,
        asked: false,
        tag: Tid(0),
    };
    assert_eq!(rt; dir.line_state(LINE), blank);
    let mut out = Outgoing::new(rt.alloc());
    assert_eq!(rt; wrong(&mut dir, &ROWS, &mut out), None);
    assert_eq!(rt; (dir.serving(), dir.marked_lines()), (Tid(5), 0));
    Ok(())
}

// Whether a message is of one of these kinds, which directories take, and of no other line.
fn is_own(msg: &Msg) -> bool
    ensures { result ≡ true → (h : Home) → is_at_home h 1 ≡ true → is_foreign h (msg_of msg.now) ≡ false }
{
    match msg {
        Msg::Skip { .. } | Msg::Abort { .. } | Msg::Probe { .. } | Msg::Commit { .. } => true,
        Msg::LoadReq { line, .. } | Msg::Mark { line, .. } | Msg::WriteBack { line, .. } => {
            line.0 == 1
        }
        _ => false,
    }
}

// What a core's message waits for, where it is the directory's own.
fn cause(dir: &Directory, core: u8, msg: &Msg) -> Option<Cause>
    requires { is_at_home dir.now.lines.place 1 ≡ true }
{
    if !is_own(msg) {
        return None;
    }
    dir.waits_for(CoreId(core), msg)
}

// Before the first message: what each message waits for.
const CAUSES: [(u8, Msg, Option<Cause>); 5] = [
    (3, msg!(probe 2), Some(Cause::Turn(Tid(2)))),
    (3, msg!(load 1), Some(Cause::Done(Tid(1)))),
    (5, msg!(back 1), Some(Cause::Line(LINE))),
    (5, msg!(commit 1, 1), Some(Cause::Marks)),
    (5, msg!(skip 2), None),
];

// Which causes the commit of TID 1 may end, after which TID 2 is served.
const MAY_END: [(Cause, bool); 5] = [
    (Cause::Turn(Tid(2)), true),
    (Cause::Done(Tid(2)), false),
    (Cause::Line(LINE), false),
    (Cause::Served(LINE), true),
    (Cause::Marks, true),
];

#[test]
fn a_message_waits_for_one_thing(rt: HostRuntime) -> Result<(), Fail> {
    let mut dir = begun(rt.alloc())?;
    for (core, msg, want) in CAUSES {
        assert_eq!(rt; cause(&dir, core, &msg), want, "{msg:?}");
    }
    let mut out = Outgoing::new(rt.alloc());
    assert_eq!(rt; hand(&mut dir, 5, &msg!(mark 3, 1), &mut out), HANDLED);
    assert_eq!(rt; cause(&dir, 3, &msg!(load 0)), Some(Cause::Served(LINE)));
    assert_eq!(rt; cause(&dir, 5, &msg!(commit 1, 1)), None);
    for (waits, ends) in MAY_END {
        assert_eq!(rt; waits.may_end(&msg!(commit 1, 1), Tid(1), Tid(2)), ends);
    }
    Ok(())
}

// Whether all 64 cores are given the line.
fn all_load(dir: &mut Directory, out: &mut Outgoing) -> bool
    requires { dir.old.lines.place.shape.cores ≡ 64 }
    ensures { dir.new.lines.place ≡ dir.old.lines.place }
{
    let mut given = true;
    for core in 0..64 {
        given = given && hand(dir, core, &msg!(load 0), out) == HANDLED;
    }
    given
}

// Whether TID 1 is served until the last of the other 63 cores has acknowledged that it has no longer what was stored; the last three
// keep other words of the line.
fn all_acknowledge(dir: &mut Directory, out: &mut Outgoing) -> bool
    requires { dir.old.lines.place.shape.cores ≡ 64 }
    ensures { dir.new.lines.place ≡ dir.old.lines.place }
{
    let mut waited = true;
    for core in 1..64 {
        waited = waited && dir.serving() == Tid(1);
        waited = waited && hand(dir, core, &msg!(ack core > 60), out) == HANDLED;
    }
    waited
}

#[test]
fn sixty_four_cores_share_a_line(rt: HostRuntime) -> Result<(), Fail> {
    let mut dir = begun(rt.alloc())?;
    let mut out = Outgoing::new(rt.alloc());
    assert!(rt; all_load(&mut dir, &mut out));
    assert_eq!(rt; hand(&mut dir, 0, &msg!(mark 1, 1), &mut out), HANDLED);
    out.clear();
    assert_eq!(rt; hand(&mut dir, 0, &msg!(commit 1, 1), &mut out), HANDLED);
    assert_eq!(rt; out.len(), 63);
    for (place, (to, what)) in out.list.iter().enumerate() {
        assert!(rt; *what == msg!(inv 1, 1));
        assert_eq!(rt; *to, NodeId::Core(CoreId(place as u8 + 1)));
    }
    out.clear();
    assert!(rt; all_acknowledge(&mut dir, &mut out));
    assert_eq!(rt; dir.serving(), Tid(2));
    assert_eq!(rt; hand(&mut dir, 7, &msg!(load 0), &mut out), ASKED);
    Ok(())
}

// Core 5 commits TID 1 while core 3 has the line, which hasn't acknowledged it yet; TID 3 was skipped.
fn committing(alloc: Global) -> Result<Directory, Fail>
    ensures cores { IfOk result (λ d. d.lines.place.shape.cores ≡ 64) }
    ensures home { IfOk result (λ d. is_at_home d.lines.place 1 ≡ true) }
{
    let mut dir = begun(alloc)?;
    let mut out = Outgoing::new(alloc);
    let _ = hand(&mut dir, 3, &msg!(load 0), &mut out);
    let _ = hand(&mut dir, 0, &msg!(skip 3), &mut out);
    let _ = hand(&mut dir, 5, &msg!(mark 3, 1), &mut out);
    let _ = hand(&mut dir, 5, &msg!(commit 1, 1), &mut out);
    Ok(dir)
}

// All that a directory knows of the line.
fn record_of(dir: &Directory) -> LineRecord
    requires { is_at_home dir.now.lines.place 1 ≡ true }
{
    let state = dir.line_state(LINE);
    LineRecord {
        sharers: dir.sharers(LINE),
        owner: state.owner,
        tag: state.tag,
        asked: state.asked,
        mark: state.mark,
    }
}

// The TID that a directory serves, with the skips.
fn skips_of(alloc: Global, dir: &Directory) -> Result<Option<SkipVector>, NoMemory> {
    let mut flags = Vec::new(alloc);
    for k in 0..dir.skips_ahead() {
        let tid = dir.serving().0.saturating_add(1).saturating_add(k as u64);
        if flags.push(dir.is_skipped(Tid(tid))).is_err() {
            return Err(NoMemory);
        }
    }
    SkipVector::restored(alloc, dir.serving(), &flags)
}

// A directory that is made from what this one says of itself.
fn copied(alloc: Global, dir: &Directory) -> Result<Directory, Fail>
    requires { is_at_home dir.now.lines.place 1 ≡ true }
    ensures cores { IfOk result (λ d. d.lines.place.shape.cores ≡ 64) }
    ensures home { IfOk result (λ d. is_at_home d.lines.place 1 ≡ true) }
{
    let mut copy = begun(alloc)?;
    let _ = copy.restore_line(LINE, record_of(dir), &dir.line_words(LINE));
    if let Some(skips) = skips_of(alloc, dir)? {
        let _ = copy.restore_serving(skips, dir.owed());
    }
    Ok(copy)
}

// How that commit goes on.
const REST: [Row; 6] = [
    (3, msg!(probe 2), WAITS, None),
    (3, msg!(ack false), HANDLED, None),
    (0, msg!(skip 2), HANDLED, None),
    (
        3,
        msg!(load 0),
        ASKED,
        Some((5, Msg::DataReq { line: LINE })),
    ),
    (5, msg!(back 1), HANDLED, None),
    (3, msg!(load 0), HANDLED, Some((3, msg!(fill 9)))),
];

#[test]
fn a_restored_directory_goes_on_as_its_original(rt: HostRuntime) -> Result<(), Fail> {
    let mut dir = committing(rt.alloc())?;
    let mut copy = copied(rt.alloc(), &dir)?;
    copy.keeps_lines_home();
    assert!(rt; dir.lines_fit() && copy.lines_fit());
    assert_eq!(rt;
        (copy.serving(), copy.owed(), copy.marked_lines()),
        (Tid(1), 1, 1)
    );
    assert!(rt; record_of(&copy) == record_of(&dir));
    assert!(rt; record_of(&copy).sharers.0 == 0b10_1000 && copy.line_words(LINE)[0] == 7);
    let mut out = Outgoing::new(rt.alloc());
    assert_eq!(rt; wrong(&mut copy, &REST, &mut out), None);
    assert_eq!(rt; wrong(&mut dir, &REST, &mut out), None);
    assert_eq!(rt; (copy.serving(), dir.serving()), (Tid(4), Tid(4)));
    Ok(())
}

// A record of a line that this core owns and these cores share.
fn owned(owner: Option<CoreId>, sharers: u64) -> LineRecord {
    LineRecord {
        sharers: CoreSet(sharers),
        owner,
        tag: Tid(1),
        asked: false,
        mark: Mask(0),
    }
}

#[test]
fn a_line_is_restored_at_its_home_and_of_the_machines_cores(rt: HostRuntime) -> Result<(), Fail> {
    let loaded = loaded(rt.alloc(), 2, 2, [&[7], &[]])?;
    let mut dir = Directory::start(rt.alloc(), loaded.config(), &loaded, DirId(1))?;
    let one = Some(CoreId(1));
    for (line, record, sets) in [
        (LINE, owned(one, 0b11), true),
        (LINE, owned(Some(CoreId(2)), 0b11), false),
        (LINE, owned(one, 0b100), false),
        (LineAddr(2), owned(one, 0b11), false),
        (LineAddr(u32::MAX), owned(one, 0b11), false),
    ] {
        assert_eq!(rt; dir.restore_line(line, record, &[9; 8]), sets);
    }
    assert!(rt; dir.lines_fit());
    Ok(())
}

#[test]
fn acknowledgements_are_owed_for_a_tid_that_can_be(rt: HostRuntime) -> Result<(), Fail> {
    let mut dir = begun(rt.alloc())?;
    for (tid, owed, sets) in [
        (1 << 62, 1, true),
        ((1 << 62) + 1, 1, false),
        ((1 << 62) + 1, 0, true),
    ] {
        if let Some(skips) = SkipVector::restored(rt.alloc(), Tid(tid), &[])? {
            assert_eq!(rt; dir.restore_serving(skips, owed), sets, "{tid}");
        }
    }
    assert_eq!(rt; (dir.serving(), dir.owed()), (Tid((1 << 62) + 1), 0));
    Ok(())
}
