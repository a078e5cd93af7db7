// The grammar of each command, as clap is told it, and the reading of words by it.
ghost use Rattle.std.specs.Prelude.{◌≡◌, map, IfOk, IfErr, []};
ghost use Rattle.clap.specs.Words.{app_of, rule_of, rows_of, found_of, matches_of, with_rule};
ghost use Rattle.clap.specs.Faults.{fault_of};
ghost use Rattle.tcc_words.specs.Grammar.{IsRefusal, grammar, option, flag, place, places, plain, verb_word, with_rules};
ghost use Rattle.tcc_words.specs.Grammar.{core_rules, event_rules, file_rules, machine_rules, memory_rules, node_rules};
ghost use Rattle.tcc_words.specs.Grammar.{record_rules, source_rules};

use crate::command::{Verb, WordsFault};
use clap::error::ErrorKind;
use clap::{Arg, ArgAction, ArgMatches};
use std::alloc::{AllocError, Global};

/// What clap reads of the words of a command, the first of which is its name.
pub fn read<'a>(
    alloc: Global,
    verb: Verb,
    name: &'a str,
    words: &'a [&'a str],
) -> Result<ArgMatches<'a>, WordsFault>
    requires { name.now ≡ verb_word verb }
    ensures taken { IfOk result (λ _. fault_of (grammar verb) (map (λ w. w.now) words.now) ≡ []) }
    ensures rows { IfOk result (λ m. rows_of (found_of m) ≡ matches_of (grammar verb) (map (λ w. w.now) words.now)) }
    ensures refused { IfErr result (IsRefusal (fault_of (grammar verb) (map (λ w. w.now) words.now))) }
{
    let Ok(command) = grammar(alloc, verb, name) else {
        return Err(WordsFault::Memory);
    };
    match command.try_get_matches_from(words) {
        Ok(matches) => Ok(matches),
        Err(error) => match error.kind() {
            ErrorKind::OutOfMemory => Err(WordsFault::Memory),
            _ => Err(WordsFault::Words),
        },
    }
}

/// The grammar of the command of that name.
fn grammar<'a>(alloc: Global, verb: Verb, name: &'a str) -> Result<clap::Command<'a>, AllocError>
    requires { name.now ≡ verb_word verb }
    ensures { IfOk result (λ c. app_of c ≡ grammar verb) }
{
    let named = bare(alloc, name);
    match verb {
        Verb::Run => {
            let machine = with_machine(alloc, named)?;
            let events = with_events(alloc, machine)?;
            let threads = with_option(alloc, events, "threads")?;
            let batch = with_option(alloc, threads, "batch")?;
            with_record(alloc, batch)
        }
        Verb::Replay | Verb::Why => with_file(alloc, named, "schedule"),
        Verb::Serial => with_file(alloc, named, "report"),
        Verb::Trial => {
            let nodes = with_nodes(alloc, named)?;
            let events = with_events(alloc, nodes)?;
            let kind = with_place(alloc, events, "kind")?;
            with_place(alloc, kind, "number")
        }
        Verb::Phases => {
            let machine = with_machine(alloc, named)?;
            let events = with_events(alloc, machine)?;
            with_record(alloc, events)
        }
        Verb::Bus => {
            let cores = with_cores(alloc, named)?;
            let machine = with_memory(alloc, cores)?;
            let events = with_events(alloc, machine)?;
            with_places(alloc, events, "image")
        }
        Verb::Trace => {
            let source = with_source(alloc, named)?;
            let from = with_option(alloc, source, "from")?;
            let to = with_option(alloc, from, "to")?;
            let states = with_flag(alloc, to, "records", "states")?;
            let resume = with_option(alloc, states, "resume")?;
            with_places(alloc, resume, "image")
        }
        Verb::Count => {
            let source = with_source(alloc, named)?;
            let csv = with_flag(alloc, source, "csv", "csv")?;
            let every = with_option(alloc, csv, "every")?;
            let consoles = with_flag(alloc, every, "consoles", "consoles")?;
            let resume = with_option(alloc, consoles, "resume")?;
            let checkpoint = with_option(alloc, resume, "checkpoint")?;
            with_places(alloc, checkpoint, "image")
        }
        Verb::State => {
            let source = with_source(alloc, named)?;
            let events = with_option(alloc, source, "events")?;
            let resume = with_option(alloc, events, "resume")?;
            with_places(alloc, resume, "image")
        }
        Verb::Follow => {
            let machine = with_machine(alloc, named)?;
            let record = with_option(alloc, machine, "record")?;
            let list = with_place(alloc, record, "report")?;
            with_places(alloc, list, "image")
        }
        Verb::Outcomes => {
            let cores = with_option(alloc, named, "cores")?;
            let memory = with_memory(alloc, cores)?;
            let states = with_option(alloc, memory, "states")?;
            let longest = with_option(alloc, states, "longest")?;
            let tell = with_option(alloc, longest, "tell")?;
            with_places(alloc, tell, "image")
        }
    }
}

/// A command without options and places.
fn bare<'a>(alloc: Global, name: &'a str) -> clap::Command<'a>
    ensures { app_of result ≡ plain name.entry.now [] }
{
    clap::Command::new(alloc, name).disable_help_flag(true)
}

/// The options of the nodes.
fn with_nodes<'a>(
    alloc: Global,
    command: clap::Command<'a>,
) -> Result<clap::Command<'a>, AllocError>
    ensures { IfOk result (λ c. app_of c ≡ with_rules node_rules (app_of command.entry)) }
{
    let cores = with_option(alloc, command, "cores")?;
    let dirs = with_option(alloc, cores, "dirs")?;
    let sets = with_option(alloc, dirs, "sets")?;
    with_option(alloc, sets, "ways")
}

/// The options of the nodes where there are no directories.
fn with_cores<'a>(
    alloc: Global,
    command: clap::Command<'a>,
) -> Result<clap::Command<'a>, AllocError>
    ensures { IfOk result (λ c. app_of c ≡ with_rules core_rules (app_of command.entry)) }
{
    let cores = with_option(alloc, command, "cores")?;
    let sets = with_option(alloc, cores, "sets")?;
    with_option(alloc, sets, "ways")
}

/// The options of nodes, memory and images.
fn with_machine<'a>(
    alloc: Global,
    command: clap::Command<'a>,
) -> Result<clap::Command<'a>, AllocError>
    ensures { IfOk result (λ c. app_of c ≡ with_rules machine_rules (app_of command.entry)) }
{
    let nodes = with_nodes(alloc, command)?;
    with_memory(alloc, nodes)
}

/// The options of memory and images.
fn with_memory<'a>(
    alloc: Global,
    command: clap::Command<'a>,
) -> Result<clap::Command<'a>, AllocError>
    ensures { IfOk result (λ c. app_of c ≡ with_rules memory_rules (app_of command.entry)) }
{
    let ram = with_option(alloc, command, "ram")?;
    let base = with_option(alloc, ram, "base")?;
    with_flag(alloc, base, "raw", "raw")
}

/// The options of the events.
fn with_events<'a>(
    alloc: Global,
    command: clap::Command<'a>,
) -> Result<clap::Command<'a>, AllocError>
    ensures { IfOk result (λ c. app_of c ≡ with_rules event_rules (app_of command.entry)) }
{
    let steps = with_option(alloc, command, "steps")?;
    with_option(alloc, steps, "seed")
}

/// The options of the machine, and those that say which run is looked at.
fn with_source<'a>(
    alloc: Global,
    command: clap::Command<'a>,
) -> Result<clap::Command<'a>, AllocError>
    ensures { IfOk result (λ c. app_of c ≡ with_rules source_rules (app_of command.entry)) }
{
    let machine = with_machine(alloc, command)?;
    let events = with_events(alloc, machine)?;
    let schedule = with_option(alloc, events, "schedule")?;
    with_flag(alloc, schedule, "bus", "bus")
}

/// The option of the record, and the images.
fn with_record<'a>(
    alloc: Global,
    command: clap::Command<'a>,
) -> Result<clap::Command<'a>, AllocError>
    ensures { IfOk result (λ c. app_of c ≡ with_rules record_rules (app_of command.entry)) }
{
    let record = with_option(alloc, command, "record")?;
    with_places(alloc, record, "image")
}

/// The options of the machine, the place of a file and the images.
fn with_file<'a>(
    alloc: Global,
    command: clap::Command<'a>,
    name: &'a str,
) -> Result<clap::Command<'a>, AllocError>
    ensures { IfOk result (λ c. app_of c ≡ with_rules (file_rules name.entry.now) (app_of command.entry)) }
{
    let machine = with_machine(alloc, command)?;
    let file = with_place(alloc, machine, name)?;
    with_places(alloc, file, "image")
}

/// An option with a value.
fn with_option<'a>(
    alloc: Global,
    command: clap::Command<'a>,
    name: &'a str,
) -> Result<clap::Command<'a>, AllocError>
    ensures { IfOk result (λ c. app_of c ≡ with_rule (app_of command.entry) (option name.entry.now)) }
{
    command.arg(Arg::new(alloc, name).long(name))
}

/// An option without a value, which is kept under the name.
fn with_flag<'a>(
    alloc: Global,
    command: clap::Command<'a>,
    name: &'a str,
    word: &'a str,
) -> Result<clap::Command<'a>, AllocError>
    ensures { IfOk result (λ c. app_of c ≡ with_rule (app_of command.entry) (flag name.entry.now word.entry.now)) }
{
    command.arg(Arg::new(alloc, name).long(word).action(ArgAction::SetTrue))
}

/// A word that must stand there.
fn with_place<'a>(
    alloc: Global,
    command: clap::Command<'a>,
    name: &'a str,
) -> Result<clap::Command<'a>, AllocError>
    ensures { IfOk result (λ c. app_of c ≡ with_rule (app_of command.entry) (place name.entry.now)) }
{
    command.arg(Arg::new(alloc, name).required(true))
}

/// One word or more.
fn with_places<'a>(
    alloc: Global,
    command: clap::Command<'a>,
    name: &'a str,
) -> Result<clap::Command<'a>, AllocError>
    ensures { IfOk result (λ c. app_of c ≡ with_rule (app_of command.entry) (places name.entry.now)) }
{
    command.arg(
        Arg::new(alloc, name)
            .required(true)
            .action(ArgAction::Append),
    )
}
