// From words to a command.
ghost use Rattle.std.specs.Prelude.{◌≡◌, ◌↔◌, ◌≤◌, length, List as Seq, map, Some, IfOk, IfErr, IsSome, IsTrue};
ghost use Rattle.clap.specs.Words.{Row, first_of, found_of, rows_of};
ghost use Rattle.tcc_words.specs.Fields.{IsFlagged, images_of};
ghost use Rattle.tcc_words.specs.declared.command.Verb.TheVariants.{Count, Trial};
ghost use Rattle.tcc_words.specs.Asked.{Asks, AsksBegin, AsksLook, AsksSource, AsksView, GoTogether, HasMachine, HasPlaces, HasSettings};
ghost use Rattle.tcc_words.specs.Asked.{HasValues, IsCommand, IsLong, IsRefused, MayBeLong};

use crate::command::{Begin, Command, Machine, Source, Verb, View, WordsFault};
use crate::fields::{Values, images, is_flagged, read_values, text};
use crate::grammar::read;
use clap::ArgMatches;
use run_outcomes::Limits;
use std::alloc::Global;
use tcc_base::{Config, List, NoMemory, Text};

/// The command that the words after the program's name ask for.
///
/// The first word names the command, and clap reads the words after it: options, as `--name value` or `--name=value`, and
/// places. `Words` exactly where the first word is missing or names no command, clap refuses the others, a place has no word, or
/// options stand together that may not; `Value` with the first field, in the order of `Field`, in which something stands that isn't
/// allowed. Takes memory for what clap keeps and for the names.
pub fn settings<'a>(alloc: Global, words: &'a [&'a str]) -> Result<Command, WordsFault>
    ensures command { IfOk result (IsCommand (map (λ w. w.now) words.now)) }
    ensures refused { IfErr result (IsRefused (map (λ w. w.now) words.now)) }
{
    let Some(name) = words.first() else {
        return Err(WordsFault::Words);
    };
    let Some(verb) = Verb::named(name) else {
        return Err(WordsFault::Words);
    };
    let matches = read(alloc, verb, name, words)?;
    if !has_places(verb, &matches) {
        return Err(WordsFault::Words);
    }
    match read_values(verb, &matches) {
        Err(field) => Err(WordsFault::Value(field)),
        Ok(values) => match command(alloc, verb, &matches, &values) {
            Ok(command) => Ok(command),
            Err(NoMemory) => Err(WordsFault::Memory),
        },
    }
}

/// Whether each place of the command has its word, and its options may stand together.
fn has_places(verb: Verb, matches: &ArgMatches) -> bool
    ensures { IsTrue result ↔ HasPlaces verb (rows_of (found_of matches.now)) }
{
    match verb {
        Verb::Run | Verb::Phases | Verb::Bus | Verb::Outcomes => has_images(matches),
        Verb::Replay | Verb::Why => text(matches, "schedule").is_some() && has_images(matches),
        Verb::Serial | Verb::Follow => text(matches, "report").is_some() && has_images(matches),
        Verb::Trial => text(matches, "kind").is_some() && text(matches, "number").is_some(),
        Verb::Trace | Verb::Count | Verb::State => {
            has_images(matches) && go_together(matches) && may_be_long(matches)
        }
    }
}

/// Whether no number of events, seed or bus stands beside a schedule, and no directories beside the bus.
fn go_together(matches: &ArgMatches) -> bool
    ensures { IsTrue result ↔ GoTogether (rows_of (found_of matches.now)) }
{
    if is_flagged(matches, "bus") {
        return text(matches, "schedule").is_none() && text(matches, "dirs").is_none();
    }
    text(matches, "schedule").is_none()
        || (text(matches, "steps").is_none() && text(matches, "seed").is_none())
}

/// Whether no seed stands beside a checkpoint that is resumed, no schedule or bus beside a long run, and no totals as it goes beside
/// its consoles.
fn may_be_long(matches: &ArgMatches) -> bool
    ensures { IsTrue result ↔ MayBeLong (rows_of (found_of matches.now)) }
{
    if !is_long(matches) {
        return true;
    }
    (text(matches, "resume").is_none() || text(matches, "seed").is_none())
        && text(matches, "schedule").is_none()
        && !is_flagged(matches, "bus")
        && (!is_flagged(matches, "consoles") || text(matches, "every").is_none())
}

/// Whether the run goes on from a checkpoint, is written down as one, or its consoles are told.
fn is_long(matches: &ArgMatches) -> bool
    ensures { IsTrue result ↔ IsLong (rows_of (found_of matches.now)) }
{
    text(matches, "resume").is_some()
        || text(matches, "checkpoint").is_some()
        || is_flagged(matches, "consoles")
}

/// Whether an image is named.
fn has_images(matches: &ArgMatches) -> bool
    ensures { IsTrue result ↔ (1 ≤ length (images_of (rows_of (found_of matches.now)))) }
{
    match images(matches) {
        Some(names) => !names.is_empty(),
        None => false,
    }
}

/// The command with these values.
fn command(
    alloc: Global,
    verb: Verb,
    matches: &ArgMatches,
    values: &Values,
) -> Result<Command, NoMemory>
    requires places { HasPlaces verb (rows_of (found_of matches.now)) }
    requires values { HasValues (rows_of (found_of matches.now)) values.now }
    ensures { IfOk result (Asks verb (rows_of (found_of matches.now))) }
{
    match verb {
        Verb::Run => Ok(Command::Run {
            machine: machine(matches, values.config),
            images: image_names(alloc, matches)?,
            steps: values.steps,
            seed: values.seed,
            threads: values.threads,
            batch: values.batch,
            keep: file_name(alloc, matches, "record")?,
        }),
        Verb::Replay => Ok(Command::Replay {
            machine: machine(matches, values.config),
            schedule: given(alloc, matches, "schedule")?,
            images: image_names(alloc, matches)?,
        }),
        Verb::Serial => Ok(Command::Serial {
            machine: machine(matches, values.config),
            list: given(alloc, matches, "report")?,
            images: image_names(alloc, matches)?,
        }),
        Verb::Trial => Ok(trial(values)),
        Verb::Why => Ok(Command::Why {
            machine: machine(matches, values.config),
            schedule: given(alloc, matches, "schedule")?,
            images: image_names(alloc, matches)?,
        }),
        Verb::Phases => Ok(Command::Phases {
            machine: machine(matches, values.config),
            images: image_names(alloc, matches)?,
            steps: values.steps,
            seed: values.seed,
            keep: file_name(alloc, matches, "record")?,
        }),
        Verb::Bus => Ok(Command::Bus {
            machine: machine(matches, values.config),
            images: image_names(alloc, matches)?,
            steps: values.steps,
            seed: values.seed,
        }),
        Verb::Trace => {
            let (from, to) = (values.from, values.to);
            let states = is_flagged(matches, "records");
            look(alloc, matches, values, View::Trace { from, to, states })
        }
        Verb::Count => look(alloc, matches, values, counting(matches, values)),
        Verb::State => {
            let events = values.events;
            look(alloc, matches, values, View::State { events })
        }
        Verb::Outcomes => Ok(Command::Outcomes {
            machine: machine(matches, values.config),
            images: image_names(alloc, matches)?,
            limits: Limits {
                states: values.states,
                longest: values.longest,
            },
            tell: values.tell,
        }),
        Verb::Follow => Ok(Command::Follow {
            machine: machine(matches, values.config),
            list: given(alloc, matches, "report")?,
            images: image_names(alloc, matches)?,
            keep: file_name(alloc, matches, "record")?,
        }),
    }
}

/// What is told of a run that is counted.
fn counting(matches: &ArgMatches, values: &Values) -> View
    requires { HasValues (rows_of (found_of matches.now)) values.now }
    ensures { AsksView Count (rows_of (found_of matches.now)) result }
{
    let csv = is_flagged(matches, "csv");
    match values.every {
        Some(every) => View::Rows { every },
        None if is_flagged(matches, "consoles") => View::Consoles { csv },
        None => View::Count { csv },
    }
}

/// The command that looks at a run so, with these values.
fn look(
    alloc: Global,
    matches: &ArgMatches,
    values: &Values,
    view: View,
) -> Result<Command, NoMemory>
    requires { HasValues (rows_of (found_of matches.now)) values.now }
    ensures { IfOk result (AsksLook (rows_of (found_of matches.now)) view) }
{
    if is_flagged(matches, "bus") {
        return Ok(Command::LookOnBus {
            machine: machine(matches, values.config),
            images: image_names(alloc, matches)?,
            steps: values.steps,
            seed: values.seed,
            view,
        });
    }
    if is_long(matches) {
        return Ok(Command::Long {
            machine: machine(matches, values.config),
            images: image_names(alloc, matches)?,
            begin: begin(alloc, matches, values)?,
            steps: values.steps,
            view,
            keep: file_name(alloc, matches, "checkpoint")?,
        });
    }
    Ok(Command::Look {
        machine: machine(matches, values.config),
        images: image_names(alloc, matches)?,
        source: source(alloc, matches, values)?,
        view,
    })
}

/// The run that is looked at, with these values.
fn source(alloc: Global, matches: &ArgMatches, values: &Values) -> Result<Source, NoMemory>
    requires { HasValues (rows_of (found_of matches.now)) values.now }
    ensures { IfOk result (AsksSource (rows_of (found_of matches.now))) }
{
    match text(matches, "schedule") {
        Some(name) => Ok(Source::Schedule(owned(alloc, name)?)),
        None => Ok(Source::Seed {
            steps: values.steps,
            seed: values.seed,
        }),
    }
}

/// How a long run begins, with these values.
fn begin(alloc: Global, matches: &ArgMatches, values: &Values) -> Result<Begin, NoMemory>
    requires { HasValues (rows_of (found_of matches.now)) values.now }
    ensures { IfOk result (AsksBegin (rows_of (found_of matches.now))) }
{
    match text(matches, "resume") {
        Some(name) => Ok(Begin::Checkpoint(owned(alloc, name)?)),
        None => Ok(Begin::Seed(values.seed)),
    }
}

/// The trial with these values.
fn trial(values: &Values) -> Command
    requires work { IsSome values.now.work }
    requires number { IsSome values.now.number }
    ensures { (rows : Seq Row) → HasValues rows values.now → Asks Trial rows result }
{
    match (values.work, values.number) {
        (Some(work), Some(number)) => Command::Trial {
            config: values.config,
            work,
            number,
            steps: values.steps,
            seed: values.seed,
        },
        _ => unreachable!(),
    }
}

/// The machine with these settings.
fn machine(matches: &ArgMatches, config: Config) -> Machine
    requires { HasSettings (rows_of (found_of matches.now)) config }
    ensures { HasMachine (rows_of (found_of matches.now)) result }
{
    Machine {
        config,
        raw: is_flagged(matches, "raw"),
    }
}

/// The text of a place that is given.
fn given(alloc: Global, matches: &ArgMatches, name: &str) -> Result<Text, NoMemory>
    requires { IsSome (first_of name.now (rows_of (found_of matches.now))) }
    ensures { IfOk result (λ t. first_of name.now (rows_of (found_of matches.now)) ≡ Some t) }
{
    match text(matches, name) {
        Some(text) => owned(alloc, text),
        None => unreachable!(),
    }
}

/// The name of the file of this option, where it is given.
fn file_name(alloc: Global, matches: &ArgMatches, name: &str) -> Result<Option<Text>, NoMemory>
    ensures { IfOk result (λ keep. keep ≡ first_of name.now (rows_of (found_of matches.now))) }
{
    match text(matches, name) {
        Some(file) => Ok(Some(owned(alloc, file)?)),
        None => Ok(None),
    }
}

/// A text of its own.
fn owned(alloc: Global, text: &str) -> Result<Text, NoMemory>
    ensures { IfOk result (λ t. t ≡ text.now) }
{
    match String::from_str(alloc, text) {
        Ok(items) => Ok(Text { items }),
        Err(_) => Err(NoMemory),
    }
}

/// The names of the images, as texts of their own.
fn image_names(alloc: Global, matches: &ArgMatches) -> Result<List<Text>, NoMemory>
    ensures { IfOk result (λ names. names ≡ images_of (rows_of (found_of matches.now))) }
{
    match images(matches) {
        Some(words) => names(alloc, words),
        None => Ok(List::new(alloc)),
    }
}

/// Texts of their own.
fn names(alloc: Global, words: &[&str]) -> Result<List<Text>, NoMemory>
    ensures { IfOk result (λ names. names ≡ map (λ w. w.now) words.now) }
{
    let mut names = List::new(alloc);
    for word in words {
        names.push(owned(alloc, word)?)?;
    }
    Ok(names)
}
