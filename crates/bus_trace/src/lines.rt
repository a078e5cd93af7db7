// The first lines, and the line of an event, each appended to a text. Where memory runs out, the text holds a part of them.
ghost use Rattle.std.specs.Prelude.{◌≡◌, ◌++◌, OnOk, string_bytes};
ghost use Rattle.bus_tcc.specs.Machine.{bus_event_of};
ghost use Rattle.bus_trace.specs.Lines.{bus_config_line, bus_event_line};
ghost use Rattle.bus_trace.specs.Text.{bus_head_text, bus_version_line};

use bus_tcc::BusEvent;
use std::alloc::AllocError;
use tcc_base::Config;
use watch_trace::{push_field, push_fields, push_from};

/// Appends the line of the settings. After want of memory a part of it may stand there.
#[tactic(auto, unfolding(crate::specs::Lines::bus_config_line))]
pub fn push_bus_config(text: &mut String, config: &Config) -> Result<(), AllocError>
    ensures { OnOk result (string_bytes text.new ≡ string_bytes text.old ++ bus_config_line config.now) }
{
    push_fields(
        text,
        "cores ",
        config.cores() as u64,
        " sets ",
        config.sets() as u64,
    )?;
    push_fields(
        text,
        " ways ",
        config.ways() as u64,
        " base ",
        config.base() as u64,
    )?;
    push_field(text, " ram ", ram_bytes(config))?;
    text.push_str("\n")
}

/// The size of memory in bytes.
pub fn ram_bytes(config: &Config) -> u64
    ensures { result ≡ config.now.ram }
{
    4 * config.words() as u64
}

#[tactic(auto, unfolding(crate::specs::Text::bus_version_line))]
fn push_version(text: &mut String) -> Result<(), AllocError>
    ensures { OnOk result (string_bytes text.new ≡ string_bytes text.old ++ bus_version_line) }
{
    text.push_str("tcc-bus-trace 1\n")
}

/// Appends the first lines: the version, the settings, and the number of the first event that is shown. After want of memory a part of
/// them may stand there.
#[tactic(auto, unfolding(crate::specs::Text::bus_head_text))]
pub fn push_bus_head(text: &mut String, config: &Config, from: u64) -> Result<(), AllocError>
    ensures { OnOk result (string_bytes text.new ≡ string_bytes text.old ++ bus_head_text config.now from) }
{
    push_version(text)?;
    push_bus_config(text, config)?;
    push_from(text, from)
}

/// Appends the line of an event. After want of memory a part of it may stand there.
#[tactic(auto, unfolding(crate::specs::Lines::bus_event_line))]
pub fn push_bus_event(text: &mut String, event: &BusEvent) -> Result<(), AllocError>
    ensures { OnOk result (string_bytes text.new ≡ string_bytes text.old ++ bus_event_line (bus_event_of event.now)) }
{
    match event {
        BusEvent::Exec(core) => {
            push_field(text, "e ", core.0 as u64)?;
            text.push_str("\n")
        }
        BusEvent::Evict(core, set, way) => {
            push_fields(text, "x ", core.0 as u64, " ", *set as u64)?;
            push_field(text, " ", *way as u64)?;
            text.push_str("\n")
        }
        BusEvent::Take(core) => {
            push_field(text, "t ", core.0 as u64)?;
            text.push_str("\n")
        }
    }
}
