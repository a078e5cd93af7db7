// The files of a command.
ghost use Rattle.std.specs.Prelude.{◌≡◌, ◌∷◌, ℕ, List as Seq, map, IfOk, IfErr, MatchOption};
ghost use Rattle.tcc_cli.specs.Commands.{files_of, image_names};
ghost use Rattle.tcc_cli.specs.Reading.{AreGiven, RefusedFiles};

use crate::refusal::Refusal;
use std::alloc::Global;
use tcc_base::{List, NoMemory, Text};
use tcc_words::{Begin, Command, Source};
use tcc_world::{Store, StoreError};

/// The name of the schedule, list or checkpoint.
fn first_name(command: &Command) -> Option<&str>
    ensures { MatchOption result (files_of command.now ≡ image_names command.now)
        (λ name. files_of command.now ≡ name.now ∷ image_names command.now) }
{
    match command {
        Command::Replay { schedule, .. } | Command::Why { schedule, .. } => {
            Some(schedule.items.as_str())
        }
        Command::Serial { list, .. } | Command::Follow { list, .. } => Some(list.items.as_str()),
        Command::Look {
            source: Source::Schedule(schedule),
            ..
        } => Some(schedule.items.as_str()),
        Command::Long {
            begin: Begin::Checkpoint(checkpoint),
            ..
        } => Some(checkpoint.items.as_str()),
        Command::Run { .. }
        | Command::Trial { .. }
        | Command::Phases { .. }
        | Command::Bus { .. }
        | Command::Look { .. }
        | Command::LookOnBus { .. }
        | Command::Outcomes { .. }
        | Command::Long { .. } => None,
    }
}

/// The names of the images.
fn image_names(command: &Command) -> &[Text]
    ensures { result.now ≡ image_names command.now }
{
    match command {
        Command::Run { images, .. }
        | Command::Replay { images, .. }
        | Command::Serial { images, .. }
        | Command::Why { images, .. }
        | Command::Phases { images, .. }
        | Command::Bus { images, .. }
        | Command::Look { images, .. }
        | Command::LookOnBus { images, .. }
        | Command::Outcomes { images, .. }
        | Command::Follow { images, .. }
        | Command::Long { images, .. } => &images.items,
        Command::Trial { .. } => &[],
    }
}

/// The names of the files that a command reads, in order.
pub fn names(alloc: Global, command: &Command) -> Result<Vec<&str>, NoMemory>
    ensures { IfOk result (λ names. map (λ w. w.now) names.items ≡ files_of command.now) }
{
    let mut names = Vec::new(alloc);
    if let Some(name) = first_name(command) {
        match names.push(name) {
            Ok(()) => {}
            Err(_) => return Err(NoMemory),
        }
    }
    for name in image_names(command) {
        match names.push(name.items.as_str()) {
            Ok(()) => {}
            Err(_) => return Err(NoMemory),
        }
    }
    Ok(names)
}

/// Reads files by their names, in order, and stops at the first that isn't read.
pub fn read_files<'a, F: Store>(
    alloc: Global,
    names: &[&'a str],
    files: &mut F,
) -> Result<Vec<List<u8>>, Refusal<'a>>
    ensures read { IfOk result (λ read. AreGiven (F.disk files.old).contents (map (λ w. w.now) names.now) read.items) }
    ensures refused { IfErr result (RefusedFiles (F.disk files.old).contents (map (λ w. w.now) names.now)
        (F.disk files.old).failed_reads (F.disk files.new).failed_reads) }
    ensures contents { (n : Seq ℕ) → (F.disk files.new).contents n ≡ (F.disk files.old).contents n }
    ensures tells { (F.disk files.new).tells ≡ (F.disk files.old).tells }
    ensures writes { (n : Seq ℕ) → (F.disk files.new).failed_writes n ≡ (F.disk files.old).failed_writes n }
{
    let mut read = Vec::new(alloc);
    for name in names {
        let items = match files.read(alloc, name) {
            Ok(items) => items,
            Err(StoreError::Failed) => return Err(Refusal::Store(name)),
            Err(StoreError::Memory) => return Err(Refusal::Memory),
        };
        match read.push(List { items }) {
            Ok(()) => {}
            Err(_) => return Err(Refusal::Memory),
        }
    }
    Ok(read)
}
