// Whether two records say the same.
ghost use Rattle.std.specs.Prelude.{◌≡◌, ◌↔◌, ◌==◌, ◌&&◌, IsTrue, option_map};
ghost use Rattle.commit_engine.specs.Engine.{phase_of};
ghost use Rattle.rv_exec.specs.Outcomes.{outcome_of};
ghost use Rattle.rules_maps.specs.Masks.{has};
ghost use Rattle.rules_maps.specs.Words.{those};
ghost use Rattle.watch_state.specs.Plain.{frame_of, known_of, record_of};
ghost use Rattle.watch_state.specs.Records as plain;
ghost use Rattle.watch_changes.specs.Same.{alike, frame_numbers, known_numbers, outcome_numbers, owner_numbers, phase_numbers, same};

use commit_engine::{DirSet, Phase};
use rv_exec::Outcome;
use spec_cache::FrameView;
use tcc_base::{CoreId, DirId, LineAddr, Tid};
use watch_state::{Known, Record};

// ---- parts of records

#[tactic(auto, unfolding(crate::specs::Same::alike))]
fn is_phase(a: Phase, b: Phase) -> bool
    ensures { result ≡ alike (phase_numbers (phase_of a)) (phase_numbers (phase_of b)) }
{
    match (a, b) {
        (Phase::Running, Phase::Running) => true,
        (Phase::AwaitTid, Phase::AwaitTid) => true,
        (Phase::DoomedTid, Phase::DoomedTid) => true,
        (Phase::Probing(t), Phase::Probing(u)) => t.0 == u.0,
        (Phase::Ready(t), Phase::Ready(u)) => t.0 == u.0,
        (Phase::Overflowing(None), Phase::Overflowing(None)) => true,
        (Phase::Overflowing(Some(t)), Phase::Overflowing(Some(u))) => t.0 == u.0,
        (Phase::Solo(t), Phase::Solo(u)) => t.0 == u.0,
        (Phase::Halted, Phase::Halted) => true,
        _ => false,
    }
}

#[tactic(auto, unfolding(crate::specs::Same::alike))]
fn is_outcome(a: Outcome, b: Outcome) -> bool
    ensures { result ≡ alike (outcome_numbers (outcome_of a)) (outcome_numbers (outcome_of b)) }
{
    match (a, b) {
        (Outcome::Goes, Outcome::Goes) => true,
        (Outcome::Ended, Outcome::Ended) => true,
        (Outcome::Halted(x), Outcome::Halted(y)) => x == y,
        (Outcome::Trapped(x), Outcome::Trapped(y)) => x == y,
        _ => false,
    }
}

/// Whether two sets have the same numbers below 64.
fn is_set(a: u64, b: u64) -> bool
    ensures { result ≡ alike (those (has a) 64) (those (has b) 64) }
{
    a == b
}

fn are_equal(a: &[u32; 8], b: &[u32; 8]) -> bool
    ensures { IsTrue result ↔ a.now ≡ b.now }
{
    *a == *b
}

fn are_words(a: &[u32; 8], b: &[u32; 8]) -> bool
    ensures { result ≡ alike a.now b.now }
{
    are_equal(a, b)
}

#[tactic(auto, unfolding(crate::specs::Same::alike))]
fn is_frame(a: &FrameView, b: &FrameView) -> bool
    ensures { result ≡ alike (frame_numbers (frame_of a.now)) (frame_numbers (frame_of b.now)) }
{
    a.line.0 == b.line.0
        && a.valid.0 == b.valid.0
        && a.read.0 == b.read.0
        && a.modified.0 == b.modified.0
        && a.dirty.0 == b.dirty.0
        && a.tag.0 == b.tag.0
        && are_words(&a.words, &b.words)
}

/// Whether the owners are one, and the sharers too.
#[tactic(auto, unfolding(crate::specs::Same::alike))]
fn is_owned(a: Option<CoreId>, x: u64, b: Option<CoreId>, y: u64) -> bool
    ensures { result ≡ alike (owner_numbers (option_map (λ c. c.0) a) (those (has x) 64))
        (owner_numbers (option_map (λ c. c.0) b) (those (has y) 64)) }
{
    match (a, b) {
        (None, None) => is_set(x, y),
        (Some(c), Some(d)) => c.0 == d.0 && is_set(x, y),
        (None, Some(_)) => false,
        (Some(_), None) => false,
    }
}

#[tactic(auto, unfolding(crate::specs::Same::alike))]
fn is_known(a: &Known, b: &Known) -> bool
    ensures { result ≡ alike (known_numbers (known_of a.now)) (known_numbers (known_of b.now)) }
{
    a.home.0 == b.home.0
        && a.tag.0 == b.tag.0
        && a.asked as u8 == b.asked as u8
        && a.mark.0 == b.mark.0
        && is_owned(a.owner, a.sharers.0, b.owner, b.sharers.0)
}

// ---- each kind of record

#[tactic(auto, unfolding(crate::specs::Same::same, crate::specs::Same::alike))]
fn is_core_is(b: &Record, core: CoreId, n: u32, pc: u32, phase: Phase) -> bool
    ensures { result ≡ same (plain.CoreIs core.0 n pc (phase_of phase)) (record_of b.now) }
{
    match b {
        Record::CoreIs {
            core: x,
            n: m,
            pc: q,
            phase: p,
        } => core.0 == x.0 && n == *m && pc == *q && is_phase(phase, *p),
        _ => false,
    }
}

#[tactic(auto, unfolding(crate::specs::Same::same, crate::specs::Same::alike))]
fn is_reserved(b: &Record, core: CoreId, addr: u32) -> bool
    ensures { result ≡ same (plain.Reserved core.0 addr) (record_of b.now) }
{
    match b {
        Record::Reserved { core: x, addr: a } => core.0 == x.0 && addr == *a,
        _ => false,
    }
}

#[tactic(auto, unfolding(crate::specs::Same::same, crate::specs::Same::alike))]
fn is_ended(b: &Record, core: CoreId, outcome: Outcome) -> bool
    ensures { result ≡ same (plain.EndedBy core.0 (outcome_of outcome)) (record_of b.now) }
{
    match b {
        Record::EndedBy {
            core: x,
            outcome: o,
        } => core.0 == x.0 && is_outcome(outcome, *o),
        _ => false,
    }
}

#[tactic(auto, unfolding(crate::specs::Same::same, crate::specs::Same::alike))]
fn is_awaited(b: &Record, core: CoreId, line: LineAddr, stale: bool) -> bool
    ensures { result ≡ same (plain.AwaitsLine core.0 line.0 stale) (record_of b.now) }
{
    match b {
        Record::AwaitsLine {
            core: x,
            line: l,
            stale: s,
        } => core.0 == x.0 && line.0 == l.0 && stale as u8 == *s as u8,
        _ => false,
    }
}

#[tactic(auto, unfolding(crate::specs::Same::same, crate::specs::Same::alike))]
fn is_owed(b: &Record, core: CoreId, dirs: DirSet) -> bool
    ensures { result ≡ same (plain.OwedBy core.0 (those (has dirs.bits) 64)) (record_of b.now) }
{
    match b {
        Record::OwedBy { core: x, dirs: d } => core.0 == x.0 && is_set(dirs.bits, d.bits),
        _ => false,
    }
}

#[tactic(auto, unfolding(crate::specs::Same::same, crate::specs::Same::alike))]
fn is_committed(b: &Record, core: CoreId, dir: DirId, tid: Tid) -> bool
    ensures { result ≡ same (plain.CommittedAt core.0 dir.0 tid.0) (record_of b.now) }
{
    match b {
        Record::CommittedAt {
            core: x,
            dir: d,
            tid: t,
        } => core.0 == x.0 && dir.0 == d.0 && tid.0 == t.0,
        _ => false,
    }
}

#[tactic(auto, unfolding(crate::specs::Same::same, crate::specs::Same::alike))]
fn is_register(b: &Record, core: CoreId, number: u8, value: u32) -> bool
    ensures { result ≡ same (plain.Register core.0 number value) (record_of b.now) }
{
    match b {
        Record::Register {
            core: x,
            number: r,
            value: v,
        } => core.0 == x.0 && number == *r && value == *v,
        _ => false,
    }
}

#[tactic(auto, unfolding(crate::specs::Same::same, crate::specs::Same::alike))]
fn is_saved_pc(b: &Record, core: CoreId, pc: u32) -> bool
    ensures { result ≡ same (plain.SavedPc core.0 pc) (record_of b.now) }
{
    match b {
        Record::SavedPc { core: x, pc: q } => core.0 == x.0 && pc == *q,
        _ => false,
    }
}

#[tactic(auto, unfolding(crate::specs::Same::same, crate::specs::Same::alike))]
fn is_saved_register(b: &Record, core: CoreId, number: u8, value: u32) -> bool
    ensures { result ≡ same (plain.SavedRegister core.0 number value) (record_of b.now) }
{
    match b {
        Record::SavedRegister {
            core: x,
            number: r,
            value: v,
        } => core.0 == x.0 && number == *r && value == *v,
        _ => false,
    }
}

/// Whether the two are of one way.
fn is_way(place: (CoreId, u16, u8), other: (CoreId, u16, u8)) -> bool
    ensures { result ≡ (place.0.0 == other.0.0 && (place.1 == other.1 && place.2 == other.2)) }
{
    place.0.0 == other.0.0 && place.1 == other.1 && place.2 == other.2
}

#[tactic(auto, unfolding(crate::specs::Same::same, crate::specs::Same::alike))]
fn is_holds(b: &Record, core: CoreId, set: u16, way: u8, frame: &FrameView) -> bool
    ensures { result ≡ same (plain.Holds core.0 set way (frame_of frame.now)) (record_of b.now) }
{
    match b {
        Record::Holds {
            core: x,
            set: s,
            way: w,
            frame: f,
        } => is_way((core, set, way), (*x, *s, *w)) && is_frame(frame, f),
        _ => false,
    }
}

#[tactic(auto, unfolding(crate::specs::Same::same, crate::specs::Same::alike))]
fn is_spilled(b: &Record, core: CoreId, addr: u32, value: u32) -> bool
    ensures { result ≡ same (plain.Spilled core.0 addr value) (record_of b.now) }
{
    match b {
        Record::Spilled {
            core: x,
            addr: a,
            value: v,
        } => core.0 == x.0 && addr == *a && value == *v,
        _ => false,
    }
}

#[tactic(auto, unfolding(crate::specs::Same::same, crate::specs::Same::alike))]
fn is_directory_is(b: &Record, dir: DirId, serving: Tid, owed: u64) -> bool
    ensures { result ≡ same (plain.DirectoryIs dir.0 serving.0 owed) (record_of b.now) }
{
    match b {
        Record::DirectoryIs {
            dir: d,
            serving: t,
            owed: o,
        } => dir.0 == d.0 && serving.0 == t.0 && owed == *o,
        _ => false,
    }
}

#[tactic(auto, unfolding(crate::specs::Same::same, crate::specs::Same::alike))]
fn is_skipped(b: &Record, dir: DirId, tid: Tid) -> bool
    ensures { result ≡ same (plain.Skipped dir.0 tid.0) (record_of b.now) }
{
    match b {
        Record::Skipped { dir: d, tid: t } => dir.0 == d.0 && tid.0 == t.0,
        _ => false,
    }
}

#[tactic(auto, unfolding(crate::specs::Same::same, crate::specs::Same::alike))]
fn is_line_is(b: &Record, line: LineAddr, known: &Known) -> bool
    ensures { result ≡ same (plain.LineIs line.0 (known_of known.now)) (record_of b.now) }
{
    match b {
        Record::LineIs { line: l, known: k } => line.0 == l.0 && is_known(known, k),
        _ => false,
    }
}

#[tactic(auto, unfolding(crate::specs::Same::same, crate::specs::Same::alike))]
fn is_home_word(b: &Record, addr: u32, value: u32) -> bool
    ensures { result ≡ same (plain.HomeWord addr value) (record_of b.now) }
{
    match b {
        Record::HomeWord { addr: a, value: v } => addr == *a && value == *v,
        _ => false,
    }
}

#[tactic(auto, unfolding(crate::specs::Same::same, crate::specs::Same::alike))]
fn is_vendor_is(b: &Record, next: Tid) -> bool
    ensures { result ≡ same (plain.VendorIs next.0) (record_of b.now) }
{
    match b {
        Record::VendorIs { next: t } => next.0 == t.0,
        _ => false,
    }
}

/// Whether the two say the same. It takes constant time.
pub(crate) fn is_same(a: &Record, b: &Record) -> bool
    ensures { result ≡ same (record_of a.now) (record_of b.now) }
{
    match a {
        Record::CoreIs { core, n, pc, phase } => is_core_is(b, *core, *n, *pc, *phase),
        Record::Reserved { core, addr } => is_reserved(b, *core, *addr),
        Record::EndedBy { core, outcome } => is_ended(b, *core, *outcome),
        Record::AwaitsLine { core, line, stale } => is_awaited(b, *core, *line, *stale),
        Record::OwedBy { core, dirs } => is_owed(b, *core, *dirs),
        Record::CommittedAt { core, dir, tid } => is_committed(b, *core, *dir, *tid),
        Record::Register {
            core,
            number,
            value,
        } => is_register(b, *core, *number, *value),
        Record::SavedPc { core, pc } => is_saved_pc(b, *core, *pc),
        Record::SavedRegister {
            core,
            number,
            value,
        } => is_saved_register(b, *core, *number, *value),
        Record::Holds {
            core,
            set,
            way,
            frame,
        } => is_holds(b, *core, *set, *way, frame),
        Record::Spilled { core, addr, value } => is_spilled(b, *core, *addr, *value),
        Record::DirectoryIs { dir, serving, owed } => is_directory_is(b, *dir, *serving, *owed),
        Record::Skipped { dir, tid } => is_skipped(b, *dir, *tid),
        Record::LineIs { line, known } => is_line_is(b, *line, known),
        Record::HomeWord { addr, value } => is_home_word(b, *addr, *value),
        Record::VendorIs { next } => is_vendor_is(b, *next),
    }
}
