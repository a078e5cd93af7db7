// The whole text.
ghost use Rattle.std.specs.Prelude.{◌≡◌, [], IfOk, string_bytes};
ghost use Rattle.net_core.specs.Machine.{history_of, start_of};
ghost use Rattle.watch_state.specs.Text.{state_text};

use crate::events::push_all_enabled;
use crate::links::push_links;
use crate::nodes::push_nodes;
use net_core::System;
use report_text::{push_end, push_events};
use schedule_text::push_config;
use std::alloc::{AllocError, Global};
use tcc_base::NoMemory;

/// The state of a machine: a record for each part of it that isn't as before the first event, node by node and then message by message;
/// the events that are enabled, each with whether it is useful; whether its run is done and how many events it took, as the caller says.
/// All that was sent stands on its links.
///
/// Takes time in the lines of RAM for each core and directory, in the frames of all caches, for each pair of nodes and each message in
/// flight, and for each eviction that is enabled in the number of useful ones; takes memory for the text and the records of one node. Fails
/// only for want of memory.
pub fn state(alloc: Global, done: bool, events: u64, system: &System) -> Result<String, NoMemory>
    requires settled { system.now.unsent ≡ [] }
    ensures { IfOk result (λ text. string_bytes text ≡ state_text (start_of system.now) done events (history_of system.now)) }
{
    state_or_error(alloc, done, events, system).map_err(|_| NoMemory)
}

fn state_or_error(
    alloc: Global,
    done: bool,
    events: u64,
    system: &System,
) -> Result<String, AllocError>
    requires settled { system.now.unsent ≡ [] }
    ensures { IfOk result (λ text. string_bytes text ≡ state_text (start_of system.now) done events (history_of system.now)) }
{
    let mut text = String::from_str(alloc, "tcc-state 1\n")?;
    push_config(&mut text, system.config())?;
    push_nodes(alloc, &mut text, system)?;
    push_links(&mut text, "", system)?;
    push_all_enabled(&mut text, system)?;
    push_end(&mut text, done)?;
    push_events(&mut text, events)?;
    Ok(text)
}
