// Reading a text, from the first line to the last.
ghost use Rattle.std.specs.Prelude.{◌≡◌, ◌++◌, IfOk, IfErr, IsErrOf};
ghost use Rattle.tcc_base.specs.Settings.{IsAllowed};
ghost use Rattle.tcc_msg.specs.declared.event.Schedule.{Schedule};
ghost use Rattle.schedule_text.specs.WellFormed.{IsWellFormed};
ghost use Rattle.schedule_text.specs.Grammar.{version_of, version_line, config_line, text_of};
ghost use Rattle.schedule_text.specs.Faults.{IsFirstFault, HasEvent, Gives, IfLine};

use crate::fault::TextFault;
use crate::lines::{config, end, next_event, version, version_needed};
use std::alloc::Global;
use tcc_base::{Config, List};
use tcc_msg::Schedule;

/// The first two lines: the settings, and the bytes after them; or the first of these lines that is faulty.
fn header(bytes: &[u8]) -> Result<(Config, &[u8]), u64>
    ensures found { IfOk result (λ x. IsAllowed x.0 × (bytes.now ≡ version_line (version_of x.0) ++ (config_line x.0 ++ x.1.now))) }
    ensures fault { IfErr result (λ k. IsFirstFault k bytes.now) }
{
    let Some((version, rest)) = version(bytes) else {
        return Err(1);
    };
    let Some(found) = config(rest) else {
        return Err(2);
    };
    if version_needed(&found.0) != version {
        return Err(2);
    }
    Ok(found)
}

/// The schedule with this text, or the first line that the grammar doesn't allow in its place, or want of memory. It gives only
/// well-formed schedules, and accepts no other spelling.
///
/// It goes through the bytes once, and takes no memory but for the events.
pub fn read(alloc: Global, bytes: &[u8]) -> Result<Schedule, TextFault>
    // What is read is a well-formed schedule, and this is its text.
    ensures found { IfOk result (λ s. IsWellFormed s × (bytes.now ≡ text_of s)) }
    // The text of a well-formed schedule is read, unless memory runs out.
    ensures only { (s : Schedule) → IsWellFormed s → bytes.now ≡ text_of s → Gives result s }
    // Any other bytes are refused with the first faulty line.
    ensures line { IfLine result (λ k. IsFirstFault k bytes.now) }
    // Without an event no memory is needed.
    ensures memory { IsErrOf result TextFault.Memory → HasEvent bytes.now }
{
    let (config, mut rest) = match header(bytes) {
        Ok(found) => found,
        Err(line) => return Err(TextFault::Line(line)),
    };
    let mut events = List::new(alloc);
    while let Some((event, after)) = next_event(&config, events.items.len(), rest) {
        events.push(event)?;
        rest = after;
    }
    let count = events.items.len() as u64;
    let Some((told, after)) = end(rest) else {
        return Err(TextFault::Line(count + 3));
    };
    if told != count {
        return Err(TextFault::Line(count + 3));
    }
    if !after.is_empty() {
        return Err(TextFault::Line(count + 4));
    }
    Ok(Schedule { config, events })
}
