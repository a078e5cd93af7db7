// The lines of facts, and those of an event with its facts, each appended to a text. Where memory runs out, the text holds a part of them.
ghost use Rattle.std.specs.Prelude.{◌≡◌, ◌++◌, OnOk, string_bytes, map};
ghost use Rattle.std.specs.List.{flat_map};
ghost use Rattle.bus_tcc.specs.Machine.{bus_event_of};
ghost use Rattle.bus_tcc.specs.Packets.{packet_line_of};
ghost use Rattle.bus_watch.specs.Facts.{TookPacket};
ghost use Rattle.bus_watch.specs.Plain.{bus_fact_of, holder_of};
ghost use Rattle.bus_trace.specs.Lines.{bus_fact_line, holder_words, packet_line_words};
ghost use Rattle.bus_trace.specs.Text.{bus_event_and_facts};

use crate::lines::push_bus_event;
use bus_tcc::BusEvent;
use bus_watch::{BusFact, Holder};
use std::alloc::AllocError;
use tcc_base::{Tagged, Tid};
use watch_trace::{push_fact, push_field, push_fields, push_values};

#[tactic(auto, unfolding(crate::specs::Lines::holder_words))]
fn push_holder(text: &mut String, holder: Holder) -> Result<(), AllocError>
    ensures { OnOk result (string_bytes text.new ≡ string_bytes text.old ++ holder_words (holder_of holder)) }
{
    match holder {
        Holder::Nobody => text.push_str("free"),
        Holder::Core(core) => push_field(text, "alone ", core.0 as u64),
        Holder::Packet(tid) => push_field(text, "packet ", tid.0),
    }
}

/// Appends a line of a packet: its number, the mask of the words that the packet has, and these words.
pub fn push_packet_line(text: &mut String, line: &Tagged) -> Result<(), AllocError>
    ensures { OnOk result (string_bytes text.new ≡ string_bytes text.old ++ packet_line_words (packet_line_of line.now)) }
{
    push_fields(
        text,
        " line ",
        line.line.0 as u64,
        " mask ",
        line.mask.0 as u64,
    )?;
    push_values(text, line.mask.0, &line.words)
}

/// The packet of this commit was taken.
#[tactic(auto, unfolding(crate::specs::Lines::bus_fact_line))]
fn push_took(text: &mut String, tid: Tid) -> Result<(), AllocError>
    ensures { OnOk result (string_bytes text.new ≡ string_bytes text.old ++ bus_fact_line (TookPacket tid.0)) }
{
    text.push_str(" took Packet")?;
    push_field(text, " tid ", tid.0)?;
    text.push_str("\n")
}

/// Appends the line of a fact. After want of memory a part of it may stand there. It takes no memory but for the growth of the text.
#[tactic(auto, unfolding(crate::specs::Lines::bus_fact_line))]
pub fn push_bus_fact(text: &mut String, fact: &BusFact) -> Result<(), AllocError>
    ensures { OnOk result (string_bytes text.new ≡ string_bytes text.old ++ bus_fact_line (bus_fact_of fact.now)) }
{
    match fact {
        BusFact::Common(fact) => push_fact(text, fact),
        BusFact::TookPacket(tid) => push_took(text, *tid),
        BusFact::HeldBy(holder) => {
            text.push_str(" bus ")?;
            push_holder(text, *holder)?;
            text.push_str("\n")
        }
        BusFact::SentLine(line) => {
            text.push_str(" sent Packet")?;
            push_packet_line(text, line)?;
            text.push_str("\n")
        }
    }
}

/// Appends the lines of facts, in their order. After want of memory a part of them may stand there.
pub fn push_bus_facts(text: &mut String, facts: &[BusFact]) -> Result<(), AllocError>
    ensures { OnOk result (string_bytes text.new ≡ string_bytes text.old ++ flat_map bus_fact_line (map bus_fact_of facts.now)) }
{
    for fact in facts {
        push_bus_fact(text, fact)?;
    }
    Ok(())
}

/// Appends the line of an event, and below it those of its facts. After want of memory a part of them may stand there.
#[tactic(auto, unfolding(crate::specs::Text::bus_event_and_facts))]
pub fn push_bus_event_facts(
    text: &mut String,
    event: &BusEvent,
    facts: &[BusFact],
) -> Result<(), AllocError>
    ensures { OnOk result (string_bytes text.new
        ≡ string_bytes text.old ++ bus_event_and_facts (bus_event_of event.now) (map bus_fact_of facts.now)) }
{
    push_bus_event(text, event)?;
    push_bus_facts(text, facts)
}
