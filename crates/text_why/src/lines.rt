// The lines of the text, each appended to what stands before it. Where memory runs out, the text holds a part of the line.
ghost use Rattle.std.specs.Prelude.{◌≡◌, ◌++◌, OnOk, string_bytes, option_map};
ghost use Rattle.rules_maps.specs.Bridge.{node_of};
ghost use Rattle.tcc_msg.specs.Plain.{event_of};
ghost use Rattle.live_core.specs.Plain.{plain_reason};
ghost use Rattle.text_why.specs.Lines.{name_words, next_line, reason_words, waits_line};

use live_core::Reason;
use schedule_text::{push_event, push_node};
use std::alloc::AllocError;
use tcc_msg::{Event, Name};

#[tactic(auto, unfolding(crate::specs::Lines::reason_words))]
fn push_reason(text: &mut String, reason: Reason) -> Result<(), AllocError>
    ensures { OnOk result (string_bytes text.new ≡ string_bytes text.old ++ reason_words (plain_reason reason)) }
{
    match reason {
        Reason::Early(serving) => write!(text, "early {}", serving.0),
        Reason::Marked(mask) => write!(text, "marked {}", mask.0),
        Reason::Asked(owner) => write!(text, "asked {}", owner.0),
        Reason::Count(marked) => write!(text, "count {marked}"),
        Reason::Tag(tag) => write!(text, "tag {}", tag.0),
    }
}

fn push_name(text: &mut String, name: Name) -> Result<(), AllocError>
    ensures { OnOk result (string_bytes text.new
        ≡ string_bytes text.old ++ name_words (node_of name.src) (node_of name.dst) name.seq) }
{
    push_node(text, name.src)?;
    text.push_str(" ")?;
    push_node(text, name.dst)?;
    write!(text, " {}", name.seq)
}

/// The line of a message that waits.
#[tactic(auto, unfolding(crate::specs::Lines::waits_line))]
pub(crate) fn push_wait(text: &mut String, name: Name, reason: Reason) -> Result<(), AllocError>
    ensures { OnOk result (string_bytes text.new
        ≡ string_bytes text.old ++ waits_line (node_of name.src) (node_of name.dst) name.seq (plain_reason reason)) }
{
    text.push_str("waits ")?;
    push_name(text, name)?;
    text.push_str(" ")?;
    push_reason(text, reason)?;
    text.push_str("\n")
}

/// The last line: the event that is found, if there is one.
#[tactic(auto, unfolding(crate::specs::Lines::next_line))]
pub(crate) fn push_next(text: &mut String, found: Option<Event>) -> Result<(), AllocError>
    ensures { OnOk result (string_bytes text.new ≡ string_bytes text.old ++ next_line (option_map event_of found)) }
{
    match found {
        Some(event) => {
            text.push_str("next ")?;
            push_event(text, &event)
        }
        None => text.push_str("next none\n"),
    }
}
