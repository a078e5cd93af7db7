// The words of messages, phases and instructions, each appended to a text. Where memory runs out, the text holds a part of them.
ghost use Rattle.std.specs.Prelude.{◌≡◌, ◌++◌, ◌<◌, OnOk, string_bytes, codes};
ghost use Rattle.rules_maps.specs.Masks.{has};
ghost use Rattle.tcc_msg.specs.Plain.{msg_of};
ghost use Rattle.commit_engine.specs.Engine.{phase_of};
ghost use Rattle.watch.specs.Plain.{done_of};
ghost use Rattle.watch_trace.specs.Words.{value_word, value_words, home_words, committed_words, fill_words, keeps_words};
ghost use Rattle.watch_trace.specs.Words.{acknowledged_words, message_words, phase_words, access_words, done_words};
ghost use Rattle.base_digits.specs.Digits.{hex};

use crate::numbers::{push_field, push_fields};
use base_digits::{push_hex, push_hex_byte};
use commit_engine::Phase;
use std::alloc::AllocError;
use tcc_base::{LineAddr, Mask, Size, Tid};
use tcc_msg::Msg;
use watch::Done;

/// A value behind a space.
fn push_behind_space(text: &mut String, value: u32) -> Result<(), AllocError>
    ensures { OnOk result (string_bytes text.new ≡ string_bytes text.old ++ codes " " ++ hex 8 value) }
{
    text.push_str(" ")?;
    push_hex(text, value)
}

/// Whether a mask has the word at a place.
fn has(mask: u8, k: usize) -> bool
    requires { k < 8 }
    ensures { result ≡ has mask k }
{
    mask >> k & 1 == 1
}

/// The value of a word of a line, where the mask has it, and else a dash.
fn push_value(text: &mut String, mask: u8, words: &[u32; 8], k: usize) -> Result<(), AllocError>
    requires { k < 8 }
    ensures { OnOk result (string_bytes text.new ≡ string_bytes text.old ++ value_word mask words.now k) }
{
    if has(mask, k) {
        push_behind_space(text, words[k])
    } else {
        text.push_str(" -")
    }
}

/// Appends the eight words of a line, with a dash for each that the mask hasn't. After want of memory a part of them may stand there.
pub fn push_values(text: &mut String, mask: u8, words: &[u32; 8]) -> Result<(), AllocError>
    ensures { OnOk result (string_bytes text.new ≡ string_bytes text.old ++ value_words mask words.now) }
{
    text.push_str(" words")?;
    for k in 0..8 {
        push_value(text, mask, words, k)?;
    }
    Ok(())
}

/// A kind of message, and dirty words of a line that go home.
#[tactic(auto, unfolding(crate::specs::Words::home_words))]
fn push_home(
    text: &mut String,
    kind: &str,
    line: LineAddr,
    mask: Mask,
    words: &[u32; 8],
    tag: Tid,
) -> Result<(), AllocError>
    ensures { OnOk result (string_bytes text.new
        ≡ string_bytes text.old ++ (kind.now ++ home_words line.0 mask.0 words.now tag.0)) }
{
    text.push_str(kind)?;
    push_fields(text, " line ", line.0 as u64, " mask ", mask.0 as u64)?;
    push_values(text, mask.0, words)?;
    push_field(text, " tag ", tag.0)
}

/// A kind of message, and committed words of a line.
#[tactic(auto, unfolding(crate::specs::Words::committed_words))]
fn push_committed(
    text: &mut String,
    kind: &str,
    line: LineAddr,
    mask: Mask,
    tid: Tid,
) -> Result<(), AllocError>
    ensures { OnOk result (string_bytes text.new ≡ string_bytes text.old ++ (kind.now ++ committed_words line.0 mask.0 tid.0)) }
{
    text.push_str(kind)?;
    push_fields(text, " line ", line.0 as u64, " mask ", mask.0 as u64)?;
    push_field(text, " tid ", tid.0)
}

/// All words of a line.
#[tactic(auto, unfolding(crate::specs::Words::fill_words))]
fn push_fill(text: &mut String, line: LineAddr, words: &[u32; 8]) -> Result<(), AllocError>
    ensures { OnOk result (string_bytes text.new ≡ string_bytes text.old ++ fill_words line.0 words.now) }
{
    push_field(text, "Fill line ", line.0 as u64)?;
    push_values(text, 255, words)
}

/// Whether a word of an invalidated line is still valid.
#[tactic(auto, unfolding(crate::specs::Words::keeps_words))]
fn push_keeps(text: &mut String, keeps: bool) -> Result<(), AllocError>
    ensures { OnOk result (string_bytes text.new ≡ string_bytes text.old ++ keeps_words keeps) }
{
    text.push_str(if keeps { " keeps 1" } else { " keeps 0" })
}

/// An invalidation that was done.
#[tactic(auto, unfolding(crate::specs::Words::acknowledged_words))]
fn push_acknowledged(text: &mut String, line: LineAddr, keeps: bool) -> Result<(), AllocError>
    ensures { OnOk result (string_bytes text.new ≡ string_bytes text.old ++ acknowledged_words line.0 keeps) }
{
    push_field(text, "InvAck line ", line.0 as u64)?;
    push_keeps(text, keeps)
}

/// Appends a message: its kind, and its fields by name. After want of memory a part of it may stand there.
#[tactic(auto, unfolding(crate::specs::Words::message_words))]
pub fn push_message(text: &mut String, msg: &Msg) -> Result<(), AllocError>
    ensures { OnOk result (string_bytes text.new ≡ string_bytes text.old ++ message_words (msg_of msg.now)) }
{
    match msg {
        Msg::TidReq => text.push_str("TidReq"),
        Msg::TidGrant { tid } => push_field(text, "TidGrant tid ", tid.0),
        Msg::LoadReq { line, after } => {
            push_fields(text, "LoadReq line ", line.0 as u64, " after ", after.0)
        }
        Msg::Fill { line, words } => push_fill(text, *line, words),
        Msg::Skip { tid } => push_field(text, "Skip tid ", tid.0),
        Msg::Probe { tid } => push_field(text, "Probe tid ", tid.0),
        Msg::ProbeReply { tid, serving } => {
            push_fields(text, "ProbeReply tid ", tid.0, " serving ", serving.0)
        }
        Msg::Mark { line, mask, tid } => push_committed(text, "Mark", *line, *mask, *tid),
        Msg::Commit { tid, count } => {
            push_fields(text, "Commit tid ", tid.0, " count ", *count as u64)
        }
        Msg::Abort { tid } => push_field(text, "Abort tid ", tid.0),
        Msg::WriteBack {
            mask,
            line,
            words,
            tag,
        } => push_home(text, "WriteBack", *line, *mask, words, *tag),
        Msg::Flush {
            mask,
            line,
            words,
            tag,
        } => push_home(text, "Flush", *line, *mask, words, *tag),
        Msg::DataReq { line } => push_field(text, "DataReq line ", line.0 as u64),
        Msg::Inv { line, mask, tid } => push_committed(text, "Inv", *line, *mask, *tid),
        Msg::InvAck { line, keeps } => push_acknowledged(text, *line, *keeps),
    }
}

/// Appends a phase, with its TID where it has one. After want of memory a part of it may stand there.
#[tactic(auto, unfolding(crate::specs::Words::phase_words))]
pub fn push_phase(text: &mut String, phase: Phase) -> Result<(), AllocError>
    ensures { OnOk result (string_bytes text.new ≡ string_bytes text.old ++ phase_words (phase_of phase)) }
{
    match phase {
        Phase::Running => text.push_str("Running"),
        Phase::AwaitTid => text.push_str("AwaitTid"),
        Phase::DoomedTid => text.push_str("DoomedTid"),
        Phase::Probing(tid) => push_field(text, "Probing ", tid.0),
        Phase::Ready(tid) => push_field(text, "Ready ", tid.0),
        Phase::Overflowing(None) => text.push_str("Overflowing"),
        Phase::Overflowing(Some(tid)) => push_field(text, "Overflowing ", tid.0),
        Phase::Solo(tid) => push_field(text, "Solo ", tid.0),
        Phase::Halted => text.push_str("Halted"),
    }
}

/// An access to RAM: its address and how many bytes it acts on.
#[tactic(auto, unfolding(crate::specs::Words::access_words))]
fn push_access(text: &mut String, addr: u32, size: Size) -> Result<(), AllocError>
    ensures { OnOk result (string_bytes text.new ≡ string_bytes text.old ++ access_words addr size) }
{
    push_hex(text, addr)?;
    push_field(text, " ", size.bytes() as u64)
}

/// What an instruction did.
#[tactic(auto, unfolding(crate::specs::Words::done_words))]
pub(crate) fn push_done(text: &mut String, done: Done) -> Result<(), AllocError>
    ensures { OnOk result (string_bytes text.new ≡ string_bytes text.old ++ done_words (done_of done)) }
{
    match done {
        Done::Plainly => text.push_str("local"),
        Done::Loaded { addr, size, value } => {
            text.push_str("load ")?;
            push_access(text, addr, size)?;
            push_behind_space(text, value)
        }
        Done::Stored { addr, size, value } => {
            text.push_str("store ")?;
            push_access(text, addr, size)?;
            push_behind_space(text, value)
        }
        Done::Changed { addr, old, new } => {
            text.push_str("change ")?;
            push_access(text, addr, Size::Word)?;
            push_behind_space(text, old)?;
            push_behind_space(text, new)
        }
        Done::Printed(byte) => {
            text.push_str("console ")?;
            push_hex_byte(text, byte)
        }
        Done::Ended => text.push_str("end"),
        Done::Halted(code) => push_field(text, "halt ", code as u64),
        Done::Trapped(cause) => push_field(text, "trap ", cause as u64),
    }
}
