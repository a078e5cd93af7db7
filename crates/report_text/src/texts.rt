// The texts: the reports of runs, and the report of a serial execution.
ghost use Rattle.std.specs.Prelude.{◌≡◌, ◌++◌, ◌+◌, ◌*◌, ◌^◌, ◌≤◌, IfOk, OnOk, string_bytes};
ghost use Rattle.report_text.specs.Ending.{shown_of};
ghost use Rattle.report_text.specs.Text.{bus_text, ended_text, report_text, serial_text};

use crate::body::push_body;
use crate::lines::{push_end, push_events};
use crate::shown::{Ending, ShownWords};
use std::alloc::{AllocError, Global};
use tcc_base::NoMemory;

/// The report of a run: whether the run is done, how many events it took, and the state that it committed.
///
/// `ram` and `loaded` have equally many words, all below the address 2^32. Reads each word of both once. Fails only for want
/// of memory.
pub fn report<R: ShownWords, L: ShownWords>(
    alloc: Global,
    done: bool,
    events: u64,
    ending: &Ending<R, L>,
) -> Result<String, NoMemory>
    requires same { R.count ending.now.ram.now ≡ L.count ending.now.loaded.now }
    requires fits { ending.now.base + 4 * R.count ending.now.ram.now ≤ 2 ^ 32 }
    ensures { IfOk result (λ text. string_bytes text ≡ report_text done events (shown_of R.words R.count L.words ending.now)) }
{
    report_or_error(alloc, done, events, ending).map_err(|_| NoMemory)
}

/// The report of a run of the machine with one bus: as `report`, under another first line.
///
/// `ram` and `loaded` have equally many words, all below the address 2^32. Reads each word of both once. Fails only for want
/// of memory.
pub fn bus_machine_report<R: ShownWords, L: ShownWords>(
    alloc: Global,
    done: bool,
    events: u64,
    ending: &Ending<R, L>,
) -> Result<String, NoMemory>
    requires same { R.count ending.now.ram.now ≡ L.count ending.now.loaded.now }
    requires fits { ending.now.base + 4 * R.count ending.now.ram.now ≤ 2 ^ 32 }
    ensures { IfOk result (λ text. string_bytes text ≡ bus_text done events (shown_of R.words R.count L.words ending.now)) }
{
    bus_or_error(alloc, done, events, ending).map_err(|_| NoMemory)
}

/// The report of a serial execution: its commits, and the state after them.
///
/// `ram` and `loaded` have equally many words, all below the address 2^32. Reads each word of both once. Fails only for want
/// of memory.
pub fn serial_report<R: ShownWords, L: ShownWords>(
    alloc: Global,
    ending: &Ending<R, L>,
) -> Result<String, NoMemory>
    requires same { R.count ending.now.ram.now ≡ L.count ending.now.loaded.now }
    requires fits { ending.now.base + 4 * R.count ending.now.ram.now ≤ 2 ^ 32 }
    ensures { IfOk result (λ text. string_bytes text ≡ serial_text (shown_of R.words R.count L.words ending.now)) }
{
    serial_or_error(alloc, ending).map_err(|_| NoMemory)
}

// All below the first line of a run's report.
#[tactic(auto, unfolding(crate::specs::Text::ended_text))]
fn push_ended<R: ShownWords, L: ShownWords>(
    text: &mut String,
    done: bool,
    events: u64,
    ending: &Ending<R, L>,
) -> Result<(), AllocError>
    requires same { R.count ending.now.ram.now ≡ L.count ending.now.loaded.now }
    requires fits { ending.now.base + 4 * R.count ending.now.ram.now ≤ 2 ^ 32 }
    ensures { OnOk result (string_bytes text.new
        ≡ string_bytes text.old ++ ended_text done events (shown_of R.words R.count L.words ending.now)) }
{
    push_end(text, done)?;
    push_events(text, events)?;
    push_body(text, ending)
}

#[tactic(auto, unfolding(crate::specs::Text::report_text))]
fn report_or_error<R: ShownWords, L: ShownWords>(
    alloc: Global,
    done: bool,
    events: u64,
    ending: &Ending<R, L>,
) -> Result<String, AllocError>
    requires same { R.count ending.now.ram.now ≡ L.count ending.now.loaded.now }
    requires fits { ending.now.base + 4 * R.count ending.now.ram.now ≤ 2 ^ 32 }
    ensures { IfOk result (λ text. string_bytes text ≡ report_text done events (shown_of R.words R.count L.words ending.now)) }
{
    let mut text = String::from_str(alloc, "tcc-report 1\n")?;
    push_ended(&mut text, done, events, ending)?;
    Ok(text)
}

#[tactic(auto, unfolding(crate::specs::Text::bus_text))]
fn bus_or_error<R: ShownWords, L: ShownWords>(
    alloc: Global,
    done: bool,
    events: u64,
    ending: &Ending<R, L>,
) -> Result<String, AllocError>
    requires same { R.count ending.now.ram.now ≡ L.count ending.now.loaded.now }
    requires fits { ending.now.base + 4 * R.count ending.now.ram.now ≤ 2 ^ 32 }
    ensures { IfOk result (λ text. string_bytes text ≡ bus_text done events (shown_of R.words R.count L.words ending.now)) }
{
    let mut text = String::from_str(alloc, "tcc-bus 1\n")?;
    push_ended(&mut text, done, events, ending)?;
    Ok(text)
}

#[tactic(auto, unfolding(crate::specs::Text::serial_text))]
fn serial_or_error<R: ShownWords, L: ShownWords>(
    alloc: Global,
    ending: &Ending<R, L>,
) -> Result<String, AllocError>
    requires same { R.count ending.now.ram.now ≡ L.count ending.now.loaded.now }
    requires fits { ending.now.base + 4 * R.count ending.now.ram.now ≤ 2 ^ 32 }
    ensures { IfOk result (λ text. string_bytes text ≡ serial_text (shown_of R.words R.count L.words ending.now)) }
{
    let mut text = String::from_str(alloc, "tcc-serial 1\n")?;
    push_body(&mut text, ending)?;
    Ok(text)
}
