// Writing a text: each line appended to what stands before it. Where memory runs out, a part of a line may stand at the end.
ghost use Rattle.std.specs.Prelude.{◌≡◌, ◌++◌, OnOk, IfOk, string_bytes};
ghost use Rattle.std.specs.List.{flat_map};
ghost use Rattle.schedule_text.specs.WellFormed.{IsWellFormed};
ghost use Rattle.schedule_text.specs.Grammar.{version_line, config_line, node_word, event_line, end_line, text_of};

use crate::events::{put_event, put_node};
use crate::lines::version_needed;
use base_digits::{ROOM, push_from};
use std::alloc::{AllocError, Global};
use tcc_base::{Config, NoMemory, NodeId};
use tcc_msg::Event;

/// Appends the first line, with the version. After want of memory a part of it may stand there.
#[tactic(auto, unfolding(crate::specs::Grammar::version_line))]
pub fn push_version(text: &mut String, version: u64) -> Result<(), AllocError>
    ensures { OnOk result (string_bytes text.new ≡ string_bytes text.old ++ version_line version) }
{
    write!(text, "tcc-schedule {version}\n")
}

/// The bytes of RAM.
fn ram_bytes(config: &Config) -> u32
    ensures { result ≡ config.now.ram }
{
    4 * config.words()
}

/// Appends the line of the settings. After want of memory a part of it may stand there.
#[tactic(auto, unfolding(crate::specs::Grammar::config_line))]
pub fn push_config(text: &mut String, config: &Config) -> Result<(), AllocError>
    ensures { OnOk result (string_bytes text.new ≡ string_bytes text.old ++ config_line config.now) }
{
    let ram = ram_bytes(config);
    write!(
        text,
        "cores {} dirs {} sets {}",
        config.cores(),
        config.dirs(),
        config.sets()
    )?;
    write!(
        text,
        " ways {} base {} ram {ram}\n",
        config.ways(),
        config.base()
    )
}

/// Appends a node, as it stands in an event's line. After want of memory a part of it may stand there.
pub fn push_node(text: &mut String, node: NodeId) -> Result<(), AllocError>
    ensures { OnOk result (string_bytes text.new ≡ string_bytes text.old ++ node_word node) }
{
    let mut line = [0; ROOM];
    let start = put_node(node, &mut line, ROOM);
    push_from(text, &line, start)
}

/// Appends the line of an event. After want of memory a part of it may stand there.
pub fn push_event(text: &mut String, event: &Event) -> Result<(), AllocError>
    ensures { OnOk result (string_bytes text.new ≡ string_bytes text.old ++ event_line event.now) }
{
    let mut line = [0; ROOM];
    let start = put_event(event, &mut line);
    push_from(text, &line, start)
}

fn push_events(text: &mut String, events: &[Event]) -> Result<(), AllocError>
    ensures { OnOk result (string_bytes text.new ≡ string_bytes text.old ++ flat_map event_line events.now) }
{
    for event in events {
        push_event(text, event)?;
    }
    Ok(())
}

/// Appends the last line, with the number of events. After want of memory a part of it may stand there.
#[tactic(auto, unfolding(crate::specs::Grammar::end_line))]
pub fn push_end(text: &mut String, count: u64) -> Result<(), AllocError>
    ensures { OnOk result (string_bytes text.new ≡ string_bytes text.old ++ end_line count) }
{
    write!(text, "end {count}\n")
}

fn text_or_error(alloc: Global, config: &Config, events: &[Event]) -> Result<String, AllocError>
    ensures { IfOk result (λ text. string_bytes text ≡ text_of (record { config = config.now; events = events.now })) }
{
    let mut text = String::new(alloc);
    push_version(&mut text, version_needed(config))?;
    push_config(&mut text, config)?;
    push_events(&mut text, events)?;
    push_end(&mut text, events.len() as u64)?;
    Ok(text)
}

/// The text of a well-formed schedule with these settings and events: its version, its settings, a line for each event, and their
/// number. It takes time for each byte that it writes, and fails only for want of memory.
pub fn write(alloc: Global, config: &Config, events: &[Event]) -> Result<Vec<u8>, NoMemory>
    requires { IsWellFormed (record { config = config.now; events = events.now }) }
    ensures { IfOk result (λ text. text.items ≡ text_of (record { config = config.now; events = events.now })) }
{
    match text_or_error(alloc, config, events) {
        Ok(text) => Ok(text.into_bytes()),
        Err(_) => Err(NoMemory),
    }
}
