// The lines of facts, and those of an event with its facts.
ghost use Rattle.std.specs.Prelude.{◌≡◌, ◌++◌, OnOk, string_bytes, map};
ghost use Rattle.std.specs.List.{flat_map};
ghost use Rattle.tcc_msg.specs.Plain.{event_of};
ghost use Rattle.watch.specs.Plain.{fact_of};
ghost use Rattle.watch_trace.specs.Lines.{fact_line, fact_words};
ghost use Rattle.watch_trace.specs.Text.{event_and_facts};

use crate::lines::{
    push_came_to, push_cause, push_delivered, push_did, push_emptied, push_sent, push_wanted,
};
use crate::numbers::{push_field, push_fields};
use crate::words::push_phase;
use schedule_text::push_event;
use std::alloc::AllocError;
use tcc_msg::Event;
use watch::Fact;

#[tactic(auto, unfolding(crate::specs::Lines::fact_words))]
fn push_words(text: &mut String, fact: &Fact) -> Result<(), AllocError>
    ensures { OnOk result (string_bytes text.new ≡ string_bytes text.old ++ fact_words (fact_of fact.now)) }
{
    match fact {
        Fact::Did { core, pc, done } => push_did(text, *core, *pc, *done),
        Fact::Missed {
            core,
            pc,
            addr,
            line,
        } => push_wanted(text, "miss ", *core, *pc, *addr, *line),
        Fact::Overflowed {
            core,
            pc,
            addr,
            line,
        } => push_wanted(text, "overflow ", *core, *pc, *addr, *line),
        Fact::Evicted {
            core,
            line,
            dirty,
            modified,
        } => push_emptied(text, *core, *line, *dirty, *modified),
        Fact::Took(msg) => push_delivered(text, "took ", msg),
        Fact::Dropped(msg) => push_delivered(text, "dropped ", msg),
        Fact::AskedOwner(msg) => push_delivered(text, "asked ", msg),
        Fact::Violated {
            core,
            by,
            tid,
            line,
            words,
            lost,
            phase,
        } => {
            push_field(text, "violated ", core.0 as u64)?;
            push_cause(text, *by, *tid, *line, *words)?;
            push_field(text, " lost ", *lost as u64)?;
            text.push_str(" in ")?;
            push_phase(text, *phase)
        }
        Fact::GaveUp { tid, core } => push_fields(text, "gaveup ", tid.0, " ", core.0 as u64),
        Fact::Committed { tid, core, n } => {
            push_fields(text, "commit ", tid.0, " ", core.0 as u64)?;
            push_field(text, " ", *n as u64)
        }
        Fact::CameTo(core, phase) => push_came_to(text, *core, *phase),
        Fact::Serves(dir, tid) => push_fields(text, "serves ", dir.0 as u64, " ", tid.0),
        Fact::Sent { src, dst, seq, msg } => push_sent(text, *src, *dst, *seq, msg),
    }
}

/// Appends the line of a fact. After want of memory a part of it may stand there. It takes no memory but for the growth of the text.
#[tactic(auto, unfolding(crate::specs::Lines::fact_line))]
pub fn push_fact(text: &mut String, fact: &Fact) -> Result<(), AllocError>
    ensures { OnOk result (string_bytes text.new ≡ string_bytes text.old ++ fact_line (fact_of fact.now)) }
{
    text.push_str(" ")?;
    push_words(text, fact)?;
    text.push_str("\n")
}

/// Appends the lines of facts, in their order. After want of memory a part of them may stand there.
pub fn push_facts(text: &mut String, facts: &[Fact]) -> Result<(), AllocError>
    ensures { OnOk result (string_bytes text.new ≡ string_bytes text.old ++ flat_map fact_line (map fact_of facts.now)) }
{
    for fact in facts {
        push_fact(text, fact)?;
    }
    Ok(())
}

/// Appends the line of an event, and below it those of its facts. After want of memory a part of them may stand there.
#[tactic(auto, unfolding(crate::specs::Text::event_and_facts))]
pub fn push_event_facts(text: &mut String, event: &Event, facts: &[Fact]) -> Result<(), AllocError>
    ensures { OnOk result (string_bytes text.new
        ≡ string_bytes text.old ++ event_and_facts (event_of event.now) (map fact_of facts.now)) }
{
    push_event(text, event)?;
    push_facts(text, facts)
}
