// The first and the last lines of a trace.
ghost use Rattle.std.specs.Prelude.{◌≡◌, ◌++◌, OnOk, string_bytes};
ghost use Rattle.watch_trace.specs.Text.{version_line, from_line, head_text, tail_text};

use base_digits::push_decimal;
use report_text::{push_end, push_events};
use schedule_text::push_config;
use std::alloc::AllocError;
use tcc_base::Config;

#[tactic(auto, unfolding(crate::specs::Text::version_line))]
fn push_version(text: &mut String) -> Result<(), AllocError>
    ensures { OnOk result (string_bytes text.new ≡ string_bytes text.old ++ version_line) }
{
    text.push_str("tcc-trace 1\n")
}

/// Appends the number of the first event that is shown. After want of memory a part of the line may stand there.
#[tactic(auto, unfolding(crate::specs::Text::from_line))]
pub fn push_from(text: &mut String, from: u64) -> Result<(), AllocError>
    ensures { OnOk result (string_bytes text.new ≡ string_bytes text.old ++ from_line from) }
{
    text.push_str("from ")?;
    push_decimal(text, from)?;
    text.push_str("\n")
}

/// Appends the first lines: the version, the settings, and the number of the first event that is shown. After want of memory a part of
/// them may stand there.
#[tactic(auto, unfolding(crate::specs::Text::head_text))]
pub fn push_head(text: &mut String, config: &Config, from: u64) -> Result<(), AllocError>
    ensures { OnOk result (string_bytes text.new ≡ string_bytes text.old ++ head_text config.now from) }
{
    push_version(text)?;
    push_config(text, config)?;
    push_from(text, from)
}

/// Appends the last lines: whether the run is done, and how many events it took. After want of memory a part of them may stand there.
#[tactic(auto, unfolding(crate::specs::Text::tail_text))]
pub fn push_tail(text: &mut String, done: bool, events: u64) -> Result<(), AllocError>
    ensures { OnOk result (string_bytes text.new ≡ string_bytes text.old ++ tail_text done events) }
{
    push_end(text, done)?;
    push_events(text, events)
}
