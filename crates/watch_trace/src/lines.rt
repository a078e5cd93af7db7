// What is in the lines of facts, each appended to a text. Where memory runs out, the text holds a part of it.
ghost use Rattle.std.specs.Prelude.{◌≡◌, ◌++◌, OnOk, string_bytes};
ghost use Rattle.rules_maps.specs.Bridge.{node_of};
ghost use Rattle.tcc_msg.specs.Plain.{msg_of};
ghost use Rattle.commit_engine.specs.Engine.{phase_of};
ghost use Rattle.watch.specs.Facts as plain;
ghost use Rattle.watch.specs.Plain.{done_of};
ghost use Rattle.watch_trace.specs.Words.{message_words};
ghost use Rattle.watch_trace.specs.Lines.{wanted_words, cause_words, name_words, fact_words};

use crate::numbers::{push_field, push_fields};
use crate::words::{push_done, push_message, push_phase};
use base_digits::{push_decimal, push_hex};
use commit_engine::Phase;
use schedule_text::push_node;
use std::alloc::AllocError;
use tcc_base::{CoreId, LineAddr, Mask, NodeId, Tid};
use tcc_msg::Msg;
use watch::Done;

/// An instruction that was finished.
#[tactic(auto, unfolding(crate::specs::Lines::fact_words))]
pub(crate) fn push_did(
    text: &mut String,
    core: CoreId,
    pc: u32,
    done: Done,
) -> Result<(), AllocError>
    ensures { OnOk result (string_bytes text.new ≡ string_bytes text.old ++ fact_words (plain.Did core.0 pc (done_of done))) }
{
    push_field(text, "did ", core.0 as u64)?;
    text.push_str(" ")?;
    push_hex(text, pc)?;
    text.push_str(" ")?;
    push_done(text, done)
}

/// Why an instruction wasn't finished, which one, and the address that it wanted.
#[tactic(auto, unfolding(crate::specs::Lines::wanted_words))]
pub(crate) fn push_wanted(
    text: &mut String,
    why: &str,
    core: CoreId,
    pc: u32,
    addr: u32,
    line: LineAddr,
) -> Result<(), AllocError>
    ensures { OnOk result (string_bytes text.new ≡ string_bytes text.old ++ (why.now ++ wanted_words core.0 pc addr line.0)) }
{
    text.push_str(why)?;
    push_decimal(text, core.0 as u64)?;
    text.push_str(" ")?;
    push_hex(text, pc)?;
    text.push_str(" ")?;
    push_hex(text, addr)?;
    push_field(text, " line ", line.0 as u64)
}

/// What a way held that was emptied.
#[tactic(auto, unfolding(crate::specs::Lines::fact_words))]
pub(crate) fn push_emptied(
    text: &mut String,
    core: CoreId,
    line: LineAddr,
    dirty: Mask,
    modified: Mask,
) -> Result<(), AllocError>
    ensures { OnOk result (string_bytes text.new
        ≡ string_bytes text.old ++ fact_words (plain.Evicted core.0 line.0 dirty.0 modified.0)) }
{
    push_fields(text, "emptied ", core.0 as u64, " line ", line.0 as u64)?;
    push_fields(
        text,
        " dirty ",
        dirty.0 as u64,
        " modified ",
        modified.0 as u64,
    )
}

/// What became of a message, and the message.
pub(crate) fn push_delivered(text: &mut String, what: &str, msg: &Msg) -> Result<(), AllocError>
    ensures { OnOk result (string_bytes text.new ≡ string_bytes text.old ++ (what.now ++ message_words (msg_of msg.now))) }
{
    text.push_str(what)?;
    push_message(text, msg)
}

/// Whom a violation came from, and by which words of which line.
#[tactic(auto, unfolding(crate::specs::Lines::cause_words))]
pub(crate) fn push_cause(
    text: &mut String,
    by: CoreId,
    tid: Tid,
    line: LineAddr,
    words: Mask,
) -> Result<(), AllocError>
    ensures { OnOk result (string_bytes text.new ≡ string_bytes text.old ++ cause_words by.0 tid.0 line.0 words.0) }
{
    push_fields(text, " by ", by.0 as u64, " tid ", tid.0)?;
    push_fields(text, " line ", line.0 as u64, " words ", words.0 as u64)
}

/// The phase that a core has come to.
#[tactic(auto, unfolding(crate::specs::Lines::fact_words))]
pub(crate) fn push_came_to(text: &mut String, core: CoreId, phase: Phase) -> Result<(), AllocError>
    ensures { OnOk result (string_bytes text.new ≡ string_bytes text.old ++ fact_words (plain.CameTo core.0 (phase_of phase))) }
{
    push_field(text, "phase ", core.0 as u64)?;
    text.push_str(" ")?;
    push_phase(text, phase)
}

/// Appends the name of a message: its link, and its number there. After want of memory a part of it may stand there.
#[tactic(auto, unfolding(crate::specs::Lines::name_words))]
pub fn push_name(text: &mut String, src: NodeId, dst: NodeId, seq: u64) -> Result<(), AllocError>
    ensures { OnOk result (string_bytes text.new ≡ string_bytes text.old ++ name_words (node_of src) (node_of dst) seq) }
{
    push_node(text, src)?;
    text.push_str(" ")?;
    push_node(text, dst)?;
    push_field(text, " ", seq)
}

/// A message that was sent.
#[tactic(auto, unfolding(crate::specs::Lines::fact_words))]
pub(crate) fn push_sent(
    text: &mut String,
    src: NodeId,
    dst: NodeId,
    seq: u64,
    msg: &Msg,
) -> Result<(), AllocError>
    ensures { OnOk result (string_bytes text.new
        ≡ string_bytes text.old ++ fact_words (plain.Sent (node_of src) (node_of dst) seq (msg_of msg.now))) }
{
    text.push_str("sent ")?;
    push_name(text, src, dst, seq)?;
    text.push_str(" ")?;
    push_message(text, msg)
}
