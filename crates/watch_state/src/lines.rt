// The line of a record. Where memory runs out, the text holds a part of it.
ghost use Rattle.std.specs.Prelude.{◌≡◌, ◌<◌, ◌≤◌, ◌++◌, OnOk, string_bytes, map, option_map};
ghost use Rattle.rules_maps.specs.Bridge.{node_of};
ghost use Rattle.rules_maps.specs.Masks.{has};
ghost use Rattle.rules_maps.specs.Words.{those};
ghost use Rattle.tcc_msg.specs.Plain.{msg_of};
ghost use Rattle.commit_engine.specs.Engine.{phase_of};
ghost use Rattle.rv_exec.specs.Outcomes.{outcome_of};
ghost use Rattle.watch_state.specs.Lines.{frame_words, mark_words, owner_words, record_line, record_lines};
ghost use Rattle.watch_state.specs.Plain.{frame_of, known_of, record_of};
ghost use Rattle.watch_state.specs.Records.{AwaitsLine, CommittedAt, CoreIs, DirectoryIs, EndedBy, Holds, HomeWord, InFlight, LineIs};
ghost use Rattle.watch_state.specs.Records.{OwedBy, Register, Reserved, SavedPc, SavedRegister, Skipped, Spilled, VendorIs};

use crate::numbers::{push_numbers, push_numbers_or_none};
use crate::records::{Known, Record};
use commit_engine::{DirSet, Phase};
use rv_exec::Outcome;
use spec_cache::FrameView;
use std::alloc::AllocError;
use tcc_base::{CoreId, DirId, LineAddr, Mask, Tid};
use tcc_msg::{Msg, Name};
use watch_trace::{push_message, push_name, push_phase, push_values};

#[tactic(auto, unfolding(crate::specs::Lines::record_line))]
fn push_core_is(
    text: &mut String,
    core: CoreId,
    n: u32,
    pc: u32,
    phase: Phase,
) -> Result<(), AllocError>
    ensures { OnOk result (string_bytes text.new ≡ string_bytes text.old ++ record_line (CoreIs core.0 n pc (phase_of phase))) }
{
    write!(text, "core {} n {n} pc {pc:08x} phase ", core.0)?;
    push_phase(text, phase)?;
    text.push_str("\n")
}

#[tactic(auto, unfolding(crate::specs::Lines::record_line))]
fn push_ended(text: &mut String, core: CoreId, outcome: Outcome) -> Result<(), AllocError>
    ensures { OnOk result (string_bytes text.new ≡ string_bytes text.old ++ record_line (EndedBy core.0 (outcome_of outcome))) }
{
    match outcome {
        Outcome::Goes => write!(text, "ended {}\n", core.0),
        Outcome::Ended => write!(text, "ended {} end\n", core.0),
        Outcome::Halted(code) => write!(text, "ended {} halt {code}\n", core.0),
        Outcome::Trapped(cause) => write!(text, "ended {} trap {cause}\n", core.0),
    }
}

#[tactic(auto, unfolding(crate::specs::Lines::record_line))]
fn push_awaited(
    text: &mut String,
    core: CoreId,
    line: LineAddr,
    stale: bool,
) -> Result<(), AllocError>
    ensures { OnOk result (string_bytes text.new ≡ string_bytes text.old ++ record_line (AwaitsLine core.0 line.0 stale)) }
{
    let stale = stale as u8;
    write!(text, "awaits {} line {} stale {stale}\n", core.0, line.0)
}

/// What a way holds.
#[tactic(auto, unfolding(crate::specs::Lines::frame_words))]
fn push_frame(text: &mut String, frame: &FrameView) -> Result<(), AllocError>
    ensures { OnOk result (string_bytes text.new ≡ string_bytes text.old ++ frame_words (frame_of frame.now)) }
{
    write!(text, " line {} valid {}", frame.line.0, frame.valid.0)?;
    write!(text, " read {} modified {}", frame.read.0, frame.modified.0)?;
    write!(text, " dirty {} tag {}", frame.dirty.0, frame.tag.0)?;
    push_values(text, frame.valid.0, &frame.words)
}

#[tactic(auto, unfolding(crate::specs::Lines::record_line))]
fn push_holds(
    text: &mut String,
    core: CoreId,
    set: u16,
    way: u8,
    frame: &FrameView,
) -> Result<(), AllocError>
    ensures { OnOk result (string_bytes text.new ≡ string_bytes text.old ++ record_line (Holds core.0 set way (frame_of frame.now))) }
{
    write!(text, "frame {} {set} {way}", core.0)?;
    push_frame(text, frame)?;
    text.push_str("\n")
}

#[tactic(auto, unfolding(crate::specs::Lines::owner_words))]
fn push_owner(text: &mut String, home: DirId, owner: Option<CoreId>) -> Result<(), AllocError>
    ensures { OnOk result (string_bytes text.new ≡ string_bytes text.old ++ owner_words home.0 (option_map (λ c. c.0) owner)) }
{
    match owner {
        Some(core) => write!(text, " home {} owner {}", home.0, core.0),
        None => write!(text, " home {} owner none", home.0),
    }
}

#[tactic(auto, unfolding(crate::specs::Lines::mark_words))]
fn push_mark(text: &mut String, tag: Tid, asked: bool, mark: Mask) -> Result<(), AllocError>
    ensures { OnOk result (string_bytes text.new ≡ string_bytes text.old ++ mark_words tag.0 asked mark.0) }
{
    let asked = asked as u8;
    write!(text, " tag {} asked {asked} mark {}", tag.0, mark.0)
}

#[tactic(auto, unfolding(crate::specs::Lines::record_line))]
fn push_known(text: &mut String, line: LineAddr, known: &Known) -> Result<(), AllocError>
    ensures { OnOk result (string_bytes text.new ≡ string_bytes text.old ++ record_line (LineIs line.0 (known_of known.now))) }
{
    write!(text, "line {}", line.0)?;
    push_owner(text, known.home, known.owner)?;
    push_mark(text, known.tag, known.asked, known.mark)?;
    text.push_str(" sharers")?;
    push_numbers_or_none(text, known.sharers.0, 64)?;
    text.push_str("\n")
}

/// Appends the line of the record of a message in flight, with `lead` before it. After want of memory a part of it may stand there.
#[tactic(auto, unfolding(crate::specs::Lines::record_line))]
pub fn push_flight(text: &mut String, lead: &str, name: Name, msg: &Msg) -> Result<(), AllocError>
    ensures { OnOk result (string_bytes text.new ≡ string_bytes text.old
        ++ (lead.now ++ record_line (InFlight (node_of name.src) (node_of name.dst) name.seq (msg_of msg.now)))) }
{
    text.push_str(lead)?;
    text.push_str("flight ")?;
    push_name(text, name.src, name.dst, name.seq)?;
    text.push_str(" ")?;
    push_message(text, msg)?;
    text.push_str("\n")
}

#[tactic(auto, unfolding(crate::specs::Lines::record_line))]
fn push_reserved(text: &mut String, core: CoreId, addr: u32) -> Result<(), AllocError>
    ensures { OnOk result (string_bytes text.new ≡ string_bytes text.old ++ record_line (Reserved core.0 addr)) }
{
    write!(text, "reserved {} {addr:08x}\n", core.0)
}

#[tactic(auto, unfolding(crate::specs::Lines::record_line))]
fn push_owed(text: &mut String, core: CoreId, dirs: DirSet) -> Result<(), AllocError>
    ensures { OnOk result (string_bytes text.new ≡ string_bytes text.old ++ record_line (OwedBy core.0 (those (has dirs.bits) 64))) }
{
    write!(text, "owing {}", core.0)?;
    push_numbers(text, dirs.bits, 64)?;
    text.push_str("\n")
}

#[tactic(auto, unfolding(crate::specs::Lines::record_line))]
fn push_last(text: &mut String, core: CoreId, dir: DirId, tid: Tid) -> Result<(), AllocError>
    ensures { OnOk result (string_bytes text.new ≡ string_bytes text.old ++ record_line (CommittedAt core.0 dir.0 tid.0)) }
{
    write!(text, "last {} {} {}\n", core.0, dir.0, tid.0)
}

#[tactic(auto, unfolding(crate::specs::Lines::record_line))]
fn push_register(text: &mut String, core: CoreId, number: u8, value: u32) -> Result<(), AllocError>
    ensures { OnOk result (string_bytes text.new ≡ string_bytes text.old ++ record_line (Register core.0 number value)) }
{
    write!(text, "reg {} {number} {value:08x}\n", core.0)
}

#[tactic(auto, unfolding(crate::specs::Lines::record_line))]
fn push_saved_pc(text: &mut String, core: CoreId, pc: u32) -> Result<(), AllocError>
    ensures { OnOk result (string_bytes text.new ≡ string_bytes text.old ++ record_line (SavedPc core.0 pc)) }
{
    write!(text, "saved {} pc {pc:08x}\n", core.0)
}

#[tactic(auto, unfolding(crate::specs::Lines::record_line))]
fn push_saved(text: &mut String, core: CoreId, number: u8, value: u32) -> Result<(), AllocError>
    ensures { OnOk result (string_bytes text.new ≡ string_bytes text.old ++ record_line (SavedRegister core.0 number value)) }
{
    write!(text, "saved {} {number} {value:08x}\n", core.0)
}

#[tactic(auto, unfolding(crate::specs::Lines::record_line))]
fn push_spilled(text: &mut String, core: CoreId, addr: u32, value: u32) -> Result<(), AllocError>
    ensures { OnOk result (string_bytes text.new ≡ string_bytes text.old ++ record_line (Spilled core.0 addr value)) }
{
    write!(text, "spilled {} {addr:08x} {value:08x}\n", core.0)
}

#[tactic(auto, unfolding(crate::specs::Lines::record_line))]
fn push_directory_is(
    text: &mut String,
    dir: DirId,
    serving: Tid,
    owed: u64,
) -> Result<(), AllocError>
    ensures { OnOk result (string_bytes text.new ≡ string_bytes text.old ++ record_line (DirectoryIs dir.0 serving.0 owed)) }
{
    write!(text, "dir {} serves {} owed {owed}\n", dir.0, serving.0)
}

#[tactic(auto, unfolding(crate::specs::Lines::record_line))]
fn push_skipped(text: &mut String, dir: DirId, tid: Tid) -> Result<(), AllocError>
    ensures { OnOk result (string_bytes text.new ≡ string_bytes text.old ++ record_line (Skipped dir.0 tid.0)) }
{
    write!(text, "skips {} {}\n", dir.0, tid.0)
}

#[tactic(auto, unfolding(crate::specs::Lines::record_line))]
fn push_home_word(text: &mut String, addr: u32, value: u32) -> Result<(), AllocError>
    ensures { OnOk result (string_bytes text.new ≡ string_bytes text.old ++ record_line (HomeWord addr value)) }
{
    write!(text, "home {addr:08x} {value:08x}\n")
}

#[tactic(auto, unfolding(crate::specs::Lines::record_line))]
fn push_vendor(text: &mut String, next: Tid) -> Result<(), AllocError>
    ensures { OnOk result (string_bytes text.new ≡ string_bytes text.old ++ record_line (VendorIs next.0)) }
{
    write!(text, "vendor next {}\n", next.0)
}

/// Appends the line of a record. After want of memory a part of it may stand there. It takes no memory but for the growth of the text.
pub fn push_record(text: &mut String, told: &Record) -> Result<(), AllocError>
    ensures { OnOk result (string_bytes text.new ≡ string_bytes text.old ++ record_line (record_of told.now)) }
{
    match told {
        Record::CoreIs { core, n, pc, phase } => push_core_is(text, *core, *n, *pc, *phase),
        Record::Reserved { core, addr } => push_reserved(text, *core, *addr),
        Record::EndedBy { core, outcome } => push_ended(text, *core, *outcome),
        Record::AwaitsLine { core, line, stale } => push_awaited(text, *core, *line, *stale),
        Record::OwedBy { core, dirs } => push_owed(text, *core, *dirs),
        Record::CommittedAt { core, dir, tid } => push_last(text, *core, *dir, *tid),
        Record::Register {
            core,
            number,
            value,
        } => push_register(text, *core, *number, *value),
        Record::SavedPc { core, pc } => push_saved_pc(text, *core, *pc),
        Record::SavedRegister {
            core,
            number,
            value,
        } => push_saved(text, *core, *number, *value),
        Record::Holds {
            core,
            set,
            way,
            frame,
        } => push_holds(text, *core, *set, *way, frame),
        Record::Spilled { core, addr, value } => push_spilled(text, *core, *addr, *value),
        Record::DirectoryIs { dir, serving, owed } => push_directory_is(
            text, *dir, *serving, *owed,
        ),
        Record::Skipped { dir, tid } => push_skipped(text, *dir, *tid),
        Record::LineIs { line, known } => push_known(text, *line, known),
        Record::HomeWord { addr, value } => push_home_word(text, *addr, *value),
        Record::VendorIs { next } => push_vendor(text, *next),
    }
}

/// Appends the lines of records, in their order. After want of memory a part of them may stand there.
#[tactic(auto, unfolding(crate::specs::Lines::record_lines))]
pub fn push_records(text: &mut String, records: &[Record]) -> Result<(), AllocError>
    ensures { OnOk result (string_bytes text.new ≡ string_bytes text.old ++ record_lines (map record_of records.now)) }
{
    for told in records {
        push_record(text, told)?;
    }
    Ok(())
}
