// The whole text.
ghost use Rattle.std.specs.Prelude.{◌≡◌, [], IfOk, string_bytes};
ghost use Rattle.net_core.specs.Machine.{history_of, start_of};
ghost use Rattle.text_why.specs.Text.{why_text};

use crate::lines::push_next;
use crate::links::push_waits;
use live_core::find;
use net_core::System;
use report_text::{push_end, push_events};
use std::alloc::{AllocError, Global};
use tcc_base::NoMemory;

/// Why the messages of a machine wait, and what can happen next: whether its run is done and how many events it took, as the caller
/// says, a line for each message that waits, by source, destination and number, and the first useful event. All that was sent stands
/// on its links.
///
/// Takes time for each pair of nodes and each message in flight, and memory for the text alone. Fails only for want of memory.
pub fn why(alloc: Global, done: bool, events: u64, system: &System) -> Result<String, NoMemory>
    requires settled { system.now.unsent ≡ [] }
    ensures { IfOk result (λ text. string_bytes text ≡ why_text (start_of system.now) done events (history_of system.now)) }
{
    why_or_error(alloc, done, events, system).map_err(|_| NoMemory)
}

#[tactic(auto, unfolding(crate::specs::Text::why_text))]
fn why_or_error(
    alloc: Global,
    done: bool,
    events: u64,
    system: &System,
) -> Result<String, AllocError>
    requires settled { system.now.unsent ≡ [] }
    ensures { IfOk result (λ text. string_bytes text ≡ why_text (start_of system.now) done events (history_of system.now)) }
{
    let mut text = String::from_str(alloc, "tcc-why 1\n")?;
    push_end(&mut text, done)?;
    push_events(&mut text, events)?;
    push_waits(&mut text, system)?;
    push_next(&mut text, find(system))?;
    Ok(text)
}
