// Reading the text of a whole machine.
ghost use Rattle.std.specs.Prelude.{◌≡◌, ◌≤◌, [], IfOk, OnOk};
ghost use Rattle.checkpoint_text.specs.Laws.{IsLaidOut, machine_text};

use crate::fields::{Fault, row_in_front};
use crate::machines::push_machine;
use crate::read_commits::read_commits;
use crate::read_cores::read_cores;
use crate::read_directories::read_directories;
use crate::read_messages::read_messages;
use image_load::Loaded;
use machine_parts::Parts;
use net_core::System;
use std::alloc::Global;
use tcc_base::{Config, List, NoMemory, Tid};

/// Why no machine is read from a text.
#[derive(Clone, Copy, Debug, PartialEq, Eq)]
pub enum Broken {
    /// The line, from 1, of the first row that isn't in its place or tells no value.
    Line(u64),
    /// The text is of a machine of other settings.
    Settings,
    /// The rules might not go on from the state that it tells.
    Unsound,
    /// A machine in the state that it tells has another text.
    Other,
    NoMemory,
}

impl From<NoMemory> for Broken {
    fn from(_: NoMemory) -> Broken {
        Broken::NoMemory
    }
}

/// The line of a text, from 1, that begins so many bytes before its end. It takes time for each byte before that.
pub fn line_at(bytes: &[u8], left: usize) -> u64
    ensures { 1 ≤ result }
{
    let before = bytes.len().saturating_sub(left);
    let mut ended = 0;
    for i in 0..before {
        if bytes[i] == b'\n' {
            ended += 1;
        }
    }
    ended + 1
}

/// Why these bytes are no machine's text, which have this fault.
fn why_broken(bytes: &[u8], fault: Fault) -> Broken {
    match fault {
        Fault::Row(left) => Broken::Line(line_at(bytes, left)),
        Fault::NoMemory => Broken::NoMemory,
    }
}

/// Whether these are the numbers of the settings' row.
fn are_settings(row: &[u64; 6], config: &Config) -> bool {
    row[0] == config.cores() as u64
        && row[1] == config.dirs() as u64
        && row[2] == config.sets() as u64
        && row[3] == config.ways() as u64
        && row[4] == 4 * config.words() as u64
        && row[5] == config.base() as u64
}

/// Reads the first row, which tells the version of such texts: what follows it. `None` where it is another version.
fn read_version(bytes: &[u8]) -> Option<&[u8]> {
    let mut row = [0; 1];
    let rest = row_in_front(bytes, b"tcc-checkpoint", &mut row)?;
    if row[0] == 1 { Some(rest) } else { None }
}

/// Reads the rows of the version and of the settings, which are to be these: what follows them.
fn read_settings<'a>(bytes: &'a [u8], config: &Config) -> Result<&'a [u8], Broken> {
    let Some(rest) = read_version(bytes) else {
        return Err(Broken::Line(1));
    };
    let mut row = [0; 6];
    let Some(rest) = row_in_front(rest, b"settings", &mut row) else {
        return Err(Broken::Line(2));
    };
    if !are_settings(&row, config) {
        return Err(Broken::Settings);
    }
    Ok(rest)
}

/// Reads the row of the events and TIDs so far: what follows it.
fn read_numbers<'a>(bytes: &'a [u8], parts: &mut Parts) -> Result<&'a [u8], Fault>
    ensures { parts.new.cores.code ≡ parts.old.cores.code }
{
    let mut row = [0; 2];
    let Some(rest) = row_in_front(bytes, b"events", &mut row) else {
        return Err(Fault::Row(bytes.len()));
    };
    parts.restore_numbers(Tid(row[1]), row[0]);
    Ok(rest)
}

/// Reads all tables but the settings, to the end of the bytes, into the parts of a machine of these settings.
fn read_tables(alloc: Global, bytes: &[u8], config: &Config, parts: &mut Parts) -> Result<(), Fault>
    ensures { parts.new.cores.code ≡ parts.old.cores.code }
{
    let rest = read_numbers(bytes, parts)?;
    let rest = read_cores(alloc, rest, config, parts)?;
    let rest = read_directories(alloc, rest, config, parts)?;
    let rest = read_messages(rest, config, parts)?;
    let rest = read_commits(alloc, rest, parts)?;
    if rest.is_empty() {
        Ok(())
    } else {
        Err(Fault::Row(rest.len()))
    }
}

/// The parts of a machine of the program that was loaded, as a text tells them.
fn read_parts(alloc: Global, bytes: &[u8], loaded: &Loaded) -> Result<Parts, Broken>
    ensures { IfOk result (λ p. p.cores.code ≡ loaded.now) }
{
    let rest = read_settings(bytes, loaded.config())?;
    let mut parts = Parts::start(alloc, loaded)?;
    match read_tables(alloc, rest, loaded.config(), &mut parts) {
        Ok(()) => Ok(parts),
        Err(fault) => Err(why_broken(bytes, fault)),
    }
}

/// The machine that goes on from these parts.
fn restored(alloc: Global, parts: Parts) -> Result<System, Broken>
    ensures code { IfOk result (λ m. m.cores.code ≡ parts.cores.code) }
    ensures settled { IfOk result (λ m. m.unsent ≡ []) }
{
    match System::restored(alloc, parts) {
        Ok(Some(system)) => Ok(system),
        Ok(None) => Err(Broken::Unsound),
        Err(_) => Err(Broken::NoMemory),
    }
}

/// Whether these bytes are the machine's text.
fn is_text(alloc: Global, bytes: &[u8], system: &System) -> Result<(), Broken>
    ensures text { OnOk result (machine_text system.now ≡ bytes.now) }
    ensures laid_out { OnOk result (system.now.unsent ≡ [] → IsLaidOut system.now) }
{
    let mut text = List::new(alloc);
    push_machine(&mut text, system)?;
    if &text.items[..] == bytes {
        Ok(())
    } else {
        Err(Broken::Other)
    }
}

/// The machine with this text, of the program that was loaded.
///
/// It takes the time and the memory of `System::restored`, and time and memory for the text, which it writes again.
pub fn read_machine(alloc: Global, bytes: &[u8], loaded: &Loaded) -> Result<System, Broken>
    ensures text { IfOk result (λ m. machine_text m ≡ bytes.now) }
    ensures code { IfOk result (λ m. m.cores.code ≡ loaded.now) }
    ensures settled { IfOk result (λ m. m.unsent ≡ []) }
    ensures laid_out { IfOk result (λ m. IsLaidOut m) }
{
    let parts = read_parts(alloc, bytes, loaded)?;
    let system = restored(alloc, parts)?;
    is_text(alloc, bytes, &system)?;
    Ok(system)
}
