// What a node's readers say of its state, in one line.
ghost use Rattle.std.specs.Prelude.{◌≡◌, ◌<◌, ◌^◌, true};
ghost use Rattle.dir_lines.specs.Home.{IsAtHome};

use crate::tested_core::TestedCore;
use crate::tested_dir::TestedDir;
use crate::tested_vendor::TestedVendor;
use crate::text::{push_address, push_byte, push_hex, push_number};
use commit_engine::Phase;
use directory::LineState;
use reg_checkpoint::Check;
use rv_exec::Outcome;
use spec_cache::FrameView;
use std::alloc::AllocError;
use tcc_base::{LineAddr, Mask, Reg, Tid, WordAddr};

/// The word of a phase, and its TID where it has one.
fn phase_words(phase: Phase) -> (&'static str, Option<Tid>) {
    match phase {
        Phase::Running => ("running", None),
        Phase::AwaitTid => ("await-tid", None),
        Phase::DoomedTid => ("doomed-tid", None),
        Phase::Probing(tid) => ("probing", Some(tid)),
        Phase::Ready(tid) => ("ready", Some(tid)),
        Phase::Overflowing(tid) => ("overflowing", tid),
        Phase::Solo(tid) => ("solo", Some(tid)),
        Phase::Halted => ("halted", None),
    }
}

fn push_phase(text: &mut String, phase: Phase) -> Result<(), AllocError> {
    let (word, tid) = phase_words(phase);
    text.push_str(word)?;
    match tid {
        Some(tid) => push_number(text, " ", tid.0),
        None => Ok(()),
    }
}

fn push_end(text: &mut String, end: Outcome) -> Result<(), AllocError> {
    match end {
        Outcome::Goes => Ok(()),
        Outcome::Ended => text.push_str(", ended"),
        Outcome::Halted(code) => push_number(text, ", halt ", u64::from(code)),
        Outcome::Trapped(code) => push_number(text, ", trap ", u64::from(code)),
    }
}

/// The pc and the registers that aren't 0, as the last commit left them.
fn push_check(text: &mut String, check: &Check) -> Result<(), AllocError> {
    push_address(text, "; from ", check.pc())?;
    for number in 1..32 {
        if let Some(reg) = Reg::new(number) {
            push_reg(text, number, check.regs().get(reg))?;
        }
    }
    Ok(())
}

/// A register, where it isn't 0.
fn push_reg(text: &mut String, number: u8, value: u32) -> Result<(), AllocError> {
    if value == 0 {
        return Ok(());
    }
    push_number(text, " x", u64::from(number))?;
    push_hex(text, "=", value)
}

/// A mask behind its name, where it isn't empty.
fn push_mask(text: &mut String, name: &str, mask: Mask) -> Result<(), AllocError> {
    if mask.0 == 0 {
        return Ok(());
    }
    push_byte(text, name, mask.0)
}

/// What a frame holds.
fn push_frame(text: &mut String, frame: &FrameView) -> Result<(), AllocError> {
    push_valid(text, frame)?;
    push_mask(text, " read ", frame.read)?;
    push_mask(text, " modified ", frame.modified)?;
    if frame.dirty.0 == 0 {
        return Ok(());
    }
    push_mask(text, " dirty ", frame.dirty)?;
    push_number(text, " of tid ", frame.tag.0)
}

/// The words of a frame, and - for those that aren't valid.
fn push_valid(text: &mut String, frame: &FrameView) -> Result<(), AllocError> {
    for (place, word) in frame.words.iter().enumerate() {
        if frame.valid.0 >> place & 1 == 1 {
            push_hex(text, " ", *word)?;
        } else {
            text.push_str(" -")?;
        }
    }
    Ok(())
}

/// A way of a set.
fn push_place(text: &mut String, before: &str, set: u16, way: u8) -> Result<(), AllocError> {
    push_number(text, before, u64::from(set))?;
    push_number(text, ".", u64::from(way))
}

fn push_way(text: &mut String, core: &TestedCore, set: u16, way: u8) -> Result<(), AllocError>
    requires set_exists { set < core.now.core.config.sets }
    requires way_exists { way < core.now.core.config.ways }
{
    if let Some(frame) = core.core.frame(set, way) {
        let stays = if core.core.can_evict(set, way) {
            ""
        } else {
            " stays"
        };
        push_place(text, "; ", set, way)?;
        text.push_str(stays)?;
        push_number(text, ": line ", u64::from(frame.line.0))?;
        push_frame(text, &frame)?;
    }
    Ok(())
}

fn push_frames(text: &mut String, core: &TestedCore) -> Result<(), AllocError> {
    let config = core.code.config();
    for set in 0..config.sets() {
        for way in 0..config.ways() {
            push_way(text, core, set, way)?;
        }
    }
    Ok(())
}

/// What is useful to do next: to execute, or to empty a way.
fn push_useful(text: &mut String, core: &TestedCore) -> Result<(), AllocError> {
    if core.core.can_exec(&core.code) {
        text.push_str(", can execute")?;
    }
    if let Some(set) = core.core.waits_for_room(&core.code) {
        push_number(text, ", waits for room in set ", u64::from(set))?;
    }
    for k in 0..core.core.useful_evicts(&core.code) {
        if let Some((set, way)) = core.core.useful_evict(&core.code, k) {
            push_place(text, ", may empty ", set, way)?;
        }
    }
    Ok(())
}

/// Appends a core's state.
pub fn push_core(text: &mut String, core: &TestedCore) -> Result<(), AllocError> {
    push_phase(text, core.core.phase())?;
    push_number(text, ", done ", u64::from(core.core.instructions()))?;
    push_number(text, ", printed ", core.core.console_len() as u64)?;
    push_end(text, core.core.ended())?;
    push_useful(text, core)?;
    if core.core.any_dirty() {
        text.push_str(", has dirty words")?;
    }
    push_check(text, core.core.check())?;
    push_frames(text, core)
}

fn push_home_words(text: &mut String, dir: &TestedDir, line: LineAddr) -> Result<(), AllocError>
    requires home { IsAtHome dir.now.dir.lines.place line.0 }
    requires small { line.0 < 2 ^ 24 }
{
    for k in 0..8 {
        let word = dir.dir.word(WordAddr(8 * line.0 + k));
        push_hex(text, " ", word)?;
    }
    Ok(())
}

/// A line of which more is known than at the start.
fn push_line(text: &mut String, dir: &TestedDir, line: LineAddr) -> Result<(), AllocError>
    requires home { IsAtHome dir.now.dir.lines.place line.0 }
    requires small { line.0 < 2 ^ 24 }
{
    let LineState {
        mark,
        owner,
        asked,
        tag,
    } = dir.dir.line_state(line);
    if mark == Mask(0) && owner.is_none() && !asked && tag == Tid(0) {
        return Ok(());
    }
    push_number(text, "; line ", u64::from(line.0))?;
    push_home_words(text, dir, line)?;
    push_mask(text, " mark ", mark)?;
    if let Some(owner) = owner {
        push_number(text, " owner c", u64::from(owner.0))?;
    }
    if asked {
        text.push_str(" asked")?;
    }
    push_number(text, " tag ", tag.0)
}

/// Appends a directory's state.
pub fn push_dir(text: &mut String, dir: &TestedDir) -> Result<(), AllocError> {
    push_number(text, "serving ", dir.dir.serving().0)?;
    push_number(text, ", marked ", u64::from(dir.dir.marked_lines()))?;
    for line in 0..dir.config.words() / 8 {
        if dir.has_line(LineAddr(line)) {
            push_line(text, dir, LineAddr(line))?;
        }
    }
    Ok(())
}

/// Appends the vendor's state.
pub fn push_vendor(text: &mut String, vendor: &TestedVendor) -> Result<(), AllocError> {
    push_number(text, "granted ", vendor.granted)
}
