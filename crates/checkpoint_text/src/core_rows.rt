// The rows of one core, as text. After want of memory a text may have more behind its old bytes.
ghost use Rattle.std.specs.Prelude.{◌≡◌, ◌∷◌, ◌++◌, [], ℕ, OnOk, map, codes};
ghost use Rattle.std.specs.List.{flat_map};
ghost use Rattle.row_text.specs.Rows.{number_text, row_text};
ghost use Rattle.tcc_base.specs.declared.names.Tid.{Tid as TidData};
ghost use Rattle.checkpoint_text.specs.Cores.{awaited_numbers, core_numbers, frame_numbers, outcome_numbers, phase_numbers, spilled_numbers};
ghost use Rattle.checkpoint_text.specs.Numbers.{local_numbers, optional};

use crate::entries::{begin_long, push_words};
use commit_engine::Phase;
use core_node::{Awaited, Core};
use reg_checkpoint::{Regs, State};
use row_text::{end_row, push_number, push_row};
use rv_exec::Outcome;
use spec_cache::FrameView;
use tcc_base::{LineAddr, List, Mask, NoMemory, Reg, Tid};

/// How an attempt ended: a kind, and a code or 0.
fn outcome_numbers(outcome: Outcome) -> (u64, u64)
    ensures { outcome_numbers outcome ≡ result.0 ∷ result.1 ∷ [] }
{
    match outcome {
        Outcome::Goes => (0, 0),
        Outcome::Ended => (1, 0),
        Outcome::Halted(code) => (2, code as u64),
        Outcome::Trapped(code) => (3, code as u64),
    }
}

/// A phase: its kind, and its TID or 0.
fn phase_numbers(phase: Phase) -> (u64, u64)
    ensures { phase_numbers phase ≡ result.0 ∷ result.1 ∷ [] }
{
    match phase {
        Phase::Running => (0, 0),
        Phase::AwaitTid => (1, 0),
        Phase::DoomedTid => (2, 0),
        Phase::Probing(t) => (3, t.0),
        Phase::Ready(t) => (4, t.0),
        Phase::Overflowing(None) => (5, 0),
        Phase::Overflowing(Some(t)) => (6, t.0),
        Phase::Solo(t) => (7, t.0),
        Phase::Halted => (8, 0),
    }
}

/// The line that is awaited: 0 and 0 for none, else 1, or 2 where it is stale, and the line.
fn awaited_numbers(awaited: Option<Awaited>) -> (u64, u64)
    ensures { awaited_numbers awaited ≡ result.0 ∷ result.1 ∷ [] }
{
    match awaited {
        None => (0, 0),
        Some(a) => (if a.stale { 2 } else { 1 }, a.line.0 as u64),
    }
}

/// Appends the row of what a core holds once.
#[tactic(auto, unfolding(crate::specs::Cores::core_numbers))]
pub(crate) fn push_core(text: &mut List<u8>, k: u64, core: &Core) -> Result<(), NoMemory>
    ensures { OnOk result (text.new ≡ text.old ++ row_text (record { word = codes "core"; numbers = k ∷ core_numbers core.now })) }
{
    let ended = outcome_numbers(core.ended);
    let phase = phase_numbers(core.phase);
    let awaited = awaited_numbers(core.awaited);
    push_row(
        text,
        b"core",
        &[
            k,
            core.n as u64,
            ended.0,
            ended.1,
            phase.0,
            phase.1,
            core.owing.bits,
            awaited.0,
            awaited.1,
        ],
    )
}

/// The address that is reserved: 0 and 0 for none, else 1 and the address.
fn reserved_numbers(reserved: Option<u32>) -> (u64, u64)
    ensures { optional reserved ≡ result.0 ∷ result.1 ∷ [] }
{
    match reserved {
        None => (0, 0),
        Some(addr) => (1, addr as u64),
    }
}

/// Appends the values of all registers to a row.
fn push_registers(text: &mut List<u8>, regs: &Regs) -> Result<(), NoMemory>
    ensures { OnOk result (text.new ≡ text.old ++ flat_map number_text regs.now) }
{
    for number in 0..32 {
        if let Some(r) = Reg::new(number) {
            push_number(text, regs.get(r) as u64)?;
        }
    }
    Ok(())
}

/// Appends the row of registers, pc and reservation.
#[tactic(auto, unfolding(crate::specs::Numbers::local_numbers))]
pub(crate) fn push_local(
    text: &mut List<u8>,
    word: &[u8],
    k: u64,
    state: &State,
) -> Result<(), NoMemory>
    ensures { OnOk result (text.new ≡ text.old ++ row_text (record { word = word.now; numbers = k ∷ local_numbers state.now })) }
{
    let reserved = reserved_numbers(state.reserved());
    begin_long(text, word, &[k, state.pc() as u64, reserved.0, reserved.1])?;
    push_registers(text, state.regs())?;
    end_row(text)?;
    Ok(())
}

fn push_tids(text: &mut List<u8>, tids: &[Tid]) -> Result<(), NoMemory>
    ensures { OnOk result (text.new ≡ text.old ++ flat_map number_text (map (λ (t : TidData). t.0) tids.now)) }
{
    for tid in tids {
        push_number(text, tid.0)?;
    }
    Ok(())
}

/// Appends the row of the TIDs of the core's last commits, by directory.
pub(crate) fn push_after(text: &mut List<u8>, k: u64, after: &[Tid; 64]) -> Result<(), NoMemory>
    ensures { OnOk result (text.new
        ≡ text.old ++ row_text (record { word = codes "after"; numbers = k ∷ map (λ (t : TidData). t.0) after.now })) }
{
    begin_long(text, b"after", &[k])?;
    push_tids(text, after)?;
    end_row(text)?;
    Ok(())
}

/// Appends the row of a way's frame.
pub(crate) fn push_frame(
    text: &mut List<u8>,
    k: u64,
    way: u64,
    frame: &FrameView,
) -> Result<(), NoMemory>
    ensures { OnOk result (text.new ≡ text.old ++ row_text (record { word = codes "frame"; numbers = k ∷ way ∷ frame_numbers frame.now })) }
{
    begin_long(
        text,
        b"frame",
        &[
            k,
            way,
            frame.line.0 as u64,
            frame.valid.0 as u64,
            frame.read.0 as u64,
            frame.modified.0 as u64,
            frame.dirty.0 as u64,
            frame.tag.0,
        ],
    )?;
    push_words(text, &frame.words)?;
    end_row(text)?;
    Ok(())
}

/// Appends the row of a spilled line: the line, the mask of its spilled words, and its words.
pub(crate) fn push_spilled_line(
    text: &mut List<u8>,
    k: u64,
    entry: &(LineAddr, Mask, [u32; 8]),
) -> Result<(), NoMemory>
    ensures { OnOk result (text.new ≡ text.old ++ row_text (record {
      word = codes "spilled";
      numbers = k ∷ spilled_numbers (entry.now.0.0, record { mask = entry.now.1; words = entry.now.2 });
    })) }
{
    begin_long(text, b"spilled", &[k, entry.0.0 as u64, entry.1.0 as u64])?;
    push_words(text, &entry.2)?;
    end_row(text)?;
    Ok(())
}
