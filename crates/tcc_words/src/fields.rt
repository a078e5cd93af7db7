// The fields of a command as numbers, names and settings, in the order in which they are tested.
ghost use Rattle.std.specs.Prelude.{◌≡◌, ◌≢◌, ◌≤◌, ◌↔◌, ℕ, [], ◌∷◌, codes, map, option_map, IfOk, IfErr, IsTrue, MatchOption};
ghost use Rattle.clap.specs.Words.{all_of, first_of, found_of, rows_of};
ghost use Rattle.tcc_base.specs.Settings.{IsAllowed};
ghost use Rattle.tcc_words.specs.Fields.{Allows, AllowsIn, AreFew, BreaksFirst, IsFlagged, IsSaid, count_limit, images_of};
ghost use Rattle.tcc_words.specs.Fields.{machine_fields, order, tell_word};
ghost use Rattle.tcc_words.specs.Asked.{HasSettings, HasTell, HasValues, HasWork, IsFaulty, MayBeGiven};
ghost use Rattle.tcc_words.specs.declared.command.Field.TheVariants.{Steps, Seed, From, To, Events, Every, States, Longest};
ghost use Rattle.tcc_words.specs.declared.command.Field.TheVariants.{Tell as TellField};
ghost use Rattle.tcc_words.specs.declared.command.Field.TheVariants.{Threads, Batch, Images, Kind, Number};

use crate::command::{Field, Verb};
use crate::numbers::number;
use clap::ArgMatches;
use run_outcomes::Tell;
use tcc_base::{Config, Limit};
use work_gen::{MAX_NUMBER, Work};

/// The largest number of events, and of a list's transactions and of the instructions of each: `serial` takes no more.
const MAX_STEPS: u64 = 4_194_304;

/// The largest number of events of a run that is counted, as many as the machine with directories takes: 2^40.
pub const MAX_COUNTED: u64 = 1_099_511_627_776;

/// The largest number of host threads.
const MAX_THREADS: u64 = 16;

/// The largest number of acts in a turn of a host thread.
const MAX_BATCH: u64 = 1024;

/// The largest number of images.
const MAX_IMAGES: usize = 16;

/// What stands in the fields of a command; in those that it doesn't have, their defaults or nothing.
#[derive(Clone, Copy)]
pub struct Values {
    pub config: Config,
    pub steps: u64,
    pub seed: u64,
    pub from: u64,
    pub to: u64,
    pub events: u64,
    pub every: Option<u64>,
    pub states: usize,
    pub longest: u32,
    pub tell: Tell,
    pub threads: Option<u8>,
    pub batch: u16,
    pub work: Option<Work>,
    pub number: Option<u32>,
}

/// The text of an option or a place; None where it isn't given.
pub fn text<'a>(matches: &ArgMatches<'a>, name: &str) -> Option<&'a str>
    ensures { option_map (λ s. s.now) result ≡ first_of name.now (rows_of (found_of matches.now)) }
{
    matches.get_str(name)
}

/// The names of the images; None where there is none.
pub fn images<'b, 'a>(matches: &'b ArgMatches<'a>) -> Option<&'b [&'a str]>
    ensures { option_map (λ names. map (λ s. s.now) names.now) result ≡ all_of (codes "image") (rows_of (found_of matches.now)) }
{
    matches.get_strs("image")
}

/// Whether the option without a value stands there that is kept under the name.
pub fn is_flagged(matches: &ArgMatches, name: &str) -> bool
    ensures { IsTrue result ↔ IsFlagged name.now (rows_of (found_of matches.now)) }
{
    text(matches, name) == Some("true")
}

/// What stands in the fields of this command, or the first of them in which something stands that isn't allowed. Takes no memory.
pub fn read_values(verb: Verb, matches: &ArgMatches) -> Result<Values, Field>
    ensures values { IfOk result (HasValues (rows_of (found_of matches.now))) }
    ensures allowed { IfOk result (λ _. (field : Field) → AllowsIn verb (rows_of (found_of matches.now)) field) }
    ensures first { IfErr result (BreaksFirst (AllowsIn verb (rows_of (found_of matches.now))) order) }
{
    let config = config(matches)?;
    let steps = steps(verb, matches)?;
    let seed = seed(matches)?;
    let from = from(matches)?;
    let to = to(matches)?;
    let events = events(matches)?;
    let every = every(matches)?;
    let states = states(matches)?;
    let longest = longest(matches)?;
    let tell = tell(matches)?;
    let threads = threads(matches)?;
    let batch = batch(matches)?;
    count_images(matches)?;
    Ok(Values {
        config,
        steps,
        seed,
        from,
        to,
        events,
        every,
        states,
        longest,
        tell,
        threads,
        batch,
        work: work(matches)?,
        number: transactions(matches)?,
    })
}

/// The machine's settings.
fn config(matches: &ArgMatches) -> Result<Config, Field>
    ensures settings { IfOk result (HasSettings (rows_of (found_of matches.now))) }
    ensures allowed { IfOk result IsAllowed }
    ensures first { IfErr result (BreaksFirst (Allows (rows_of (found_of matches.now))) machine_fields) }
{
    // Where no number stands, one that no limit allows: 0, and for the base 1.
    let cores = said_or(matches, Field::Cores, 0);
    let dirs = said_or(matches, Field::Dirs, 0);
    let sets = said_or(matches, Field::Sets, 0);
    let ways = said_or(matches, Field::Ways, 0);
    let ram = said_or(matches, Field::Ram, 0);
    let base = said_or(matches, Field::Base, 1);
    match Config::new(cores, dirs, sets, ways, base, ram) {
        Ok(config) => Ok(config),
        Err(Limit::Cores) => Err(Field::Cores),
        Err(Limit::Dirs) => Err(Field::Dirs),
        Err(Limit::Sets) => Err(Field::Sets),
        Err(Limit::Ways) => Err(Field::Ways),
        Err(Limit::Ram) => Err(Field::Ram),
        Err(Limit::Base) => Err(Field::Base),
    }
}

/// The number of a field, or `other` where none stands there.
fn said_or(matches: &ArgMatches, field: Field, other: u64) -> u64
    ensures said { (n : ℕ) → IsSaid (rows_of (found_of matches.now)) field n → result ≡ n }
    ensures other { result ≢ other → IsSaid (rows_of (found_of matches.now)) field result }
{
    match text(matches, field.word()) {
        None => field.default(),
        Some(text) => number(text).unwrap_or(other),
    }
}

/// The number of events at most: `count` takes more than a schedule's text has, but not on the bus.
fn most_steps(verb: Verb, matches: &ArgMatches) -> u64
    ensures few { (n : ℕ) → (n ≤ result) ↔ AreFew verb (rows_of (found_of matches.now)) n }
    ensures most { result ≤ count_limit }
{
    match verb {
        Verb::Count if !is_flagged(matches, "bus") => MAX_COUNTED,
        _ => MAX_STEPS,
    }
}

/// The number of events.
fn steps(verb: Verb, matches: &ArgMatches) -> Result<u64, Field>
    ensures said { IfOk result (IsSaid (rows_of (found_of matches.now)) Steps) }
    ensures allowed { IfOk result (λ _. AllowsIn verb (rows_of (found_of matches.now)) Steps) }
    ensures faulty { IfErr result (IsFaulty (AllowsIn verb (rows_of (found_of matches.now))) Steps) }
{
    let steps = said_or(matches, Field::Steps, u64::MAX);
    if steps <= most_steps(verb, matches) {
        Ok(steps)
    } else {
        Err(Field::Steps)
    }
}

/// The number of the first event that is shown.
fn from(matches: &ArgMatches) -> Result<u64, Field>
    ensures said { IfOk result (IsSaid (rows_of (found_of matches.now)) From) }
    ensures allowed { IfOk result (λ _. Allows (rows_of (found_of matches.now)) From) }
    ensures faulty { IfErr result (IsFaulty (Allows (rows_of (found_of matches.now))) From) }
{
    let from = said_or(matches, Field::From, u64::MAX);
    if from <= MAX_STEPS {
        Ok(from)
    } else {
        Err(Field::From)
    }
}

/// The number of events at most of which a trace tells.
fn to(matches: &ArgMatches) -> Result<u64, Field>
    ensures said { IfOk result (IsSaid (rows_of (found_of matches.now)) To) }
    ensures allowed { IfOk result (λ _. Allows (rows_of (found_of matches.now)) To) }
    ensures faulty { IfErr result (IsFaulty (Allows (rows_of (found_of matches.now))) To) }
{
    let to = said_or(matches, Field::To, u64::MAX);
    if to <= MAX_STEPS {
        Ok(to)
    } else {
        Err(Field::To)
    }
}

/// The number of events at most after which the state is shown.
fn events(matches: &ArgMatches) -> Result<u64, Field>
    ensures said { IfOk result (IsSaid (rows_of (found_of matches.now)) Events) }
    ensures allowed { IfOk result (λ _. Allows (rows_of (found_of matches.now)) Events) }
    ensures faulty { IfErr result (IsFaulty (Allows (rows_of (found_of matches.now))) Events) }
{
    let events = said_or(matches, Field::Events, u64::MAX);
    if events <= MAX_STEPS {
        Ok(events)
    } else {
        Err(Field::Events)
    }
}

/// The number of events after each of which a row of totals is told, where it is given.
fn every(matches: &ArgMatches) -> Result<Option<u64>, Field>
    ensures given { IfOk result (MayBeGiven (rows_of (found_of matches.now)) (codes "every")) }
    ensures allowed { IfOk result (λ _. Allows (rows_of (found_of matches.now)) Every) }
    ensures faulty { IfErr result (IsFaulty (Allows (rows_of (found_of matches.now))) Every) }
{
    let Some(text_of_it) = text(matches, "every") else {
        return Ok(None);
    };
    match number(text_of_it) {
        Some(n) if 1 <= n && n <= MAX_COUNTED && !is_flagged(matches, "bus") => Ok(Some(n)),
        _ => Err(Field::Every),
    }
}

/// The number of states at most that are found.
fn states(matches: &ArgMatches) -> Result<usize, Field>
    ensures said { IfOk result (IsSaid (rows_of (found_of matches.now)) States) }
    ensures allowed { IfOk result (λ _. Allows (rows_of (found_of matches.now)) States) }
    ensures faulty { IfErr result (IsFaulty (Allows (rows_of (found_of matches.now))) States) }
{
    let states = said_or(matches, Field::States, 0);
    if 1 <= states && states <= MAX_STEPS {
        Ok(states as usize)
    } else {
        Err(Field::States)
    }
}

/// The number of instructions at most of a transaction.
fn longest(matches: &ArgMatches) -> Result<u32, Field>
    ensures said { IfOk result (IsSaid (rows_of (found_of matches.now)) Longest) }
    ensures allowed { IfOk result (λ _. Allows (rows_of (found_of matches.now)) Longest) }
    ensures faulty { IfErr result (IsFaulty (Allows (rows_of (found_of matches.now))) Longest) }
{
    let longest = said_or(matches, Field::Longest, 0);
    if 1 <= longest && longest <= MAX_STEPS {
        Ok(longest as u32)
    } else {
        Err(Field::Longest)
    }
}

/// What makes two outcomes different: how the cores ended and what they printed, where nothing is said.
fn tell(matches: &ArgMatches) -> Result<Tell, Field>
    ensures told { IfOk result (HasTell (rows_of (found_of matches.now))) }
    ensures allowed { IfOk result (λ _. Allows (rows_of (found_of matches.now)) TellField) }
    ensures faulty { IfErr result (IsFaulty (Allows (rows_of (found_of matches.now))) TellField) }
{
    match text(matches, "tell") {
        None => Ok(Tell::Consoles),
        Some(word) => told_by(word).ok_or(Field::Tell),
    }
}

/// What this word says; None exactly where it says nothing.
fn told_by(word: &str) -> Option<Tell>
    ensures { MatchOption result ((t : Tell) → word.now ≡ tell_word t → ⊥) (λ t. word.now ≡ tell_word t) }
{
    match word {
        "consoles" => Some(Tell::Consoles),
        "memory" => Some(Tell::Memory),
        "all" => Some(Tell::Everything),
        _ => None,
    }
}

/// The seed of the chooser.
fn seed(matches: &ArgMatches) -> Result<u64, Field>
    ensures said { IfOk result (IsSaid (rows_of (found_of matches.now)) Seed) }
    ensures faulty { IfErr result (IsFaulty (Allows (rows_of (found_of matches.now))) Seed) }
{
    match text(matches, "seed") {
        None => Ok(0),
        Some(text) => number(text).ok_or(Field::Seed),
    }
}

/// The number of host threads, where it is given.
fn threads(matches: &ArgMatches) -> Result<Option<u8>, Field>
    ensures given { IfOk result (MayBeGiven (rows_of (found_of matches.now)) (codes "threads")) }
    ensures allowed { IfOk result (λ _. Allows (rows_of (found_of matches.now)) Threads) }
    ensures faulty { IfErr result (IsFaulty (Allows (rows_of (found_of matches.now))) Threads) }
{
    let Some(text_of_it) = text(matches, "threads") else {
        return Ok(None);
    };
    match (number(text_of_it), text(matches, "record")) {
        (Some(n), Some(_)) if 1 <= n && n <= MAX_THREADS => Ok(Some(n as u8)),
        _ => Err(Field::Threads),
    }
}

/// The number of acts at most in a turn of a host thread: 1, where nothing is said.
fn batch(matches: &ArgMatches) -> Result<u16, Field>
    ensures said { IfOk result (IsSaid (rows_of (found_of matches.now)) Batch) }
    ensures allowed { IfOk result (λ _. Allows (rows_of (found_of matches.now)) Batch) }
    ensures faulty { IfErr result (IsFaulty (Allows (rows_of (found_of matches.now))) Batch) }
{
    let Some(text_of_it) = text(matches, "batch") else {
        return Ok(1);
    };
    match (number(text_of_it), text(matches, "threads")) {
        (Some(n), Some(_)) if 1 <= n && n <= MAX_BATCH => Ok(n as u16),
        _ => Err(Field::Batch),
    }
}

/// There are not too many images.
fn count_images(matches: &ArgMatches) -> Result<(), Field>
    ensures allowed { IfOk result (λ _. Allows (rows_of (found_of matches.now)) Images) }
    ensures faulty { IfErr result (IsFaulty (Allows (rows_of (found_of matches.now))) Images) }
{
    match images(matches) {
        Some(names) if names.len() > MAX_IMAGES => Err(Field::Images),
        _ => Ok(()),
    }
}

/// The kind of the workload, where it is given.
fn work(matches: &ArgMatches) -> Result<Option<Work>, Field>
    ensures given { IfOk result (HasWork (rows_of (found_of matches.now))) }
    ensures allowed { IfOk result (λ _. Allows (rows_of (found_of matches.now)) Kind) }
    ensures faulty { IfErr result (IsFaulty (Allows (rows_of (found_of matches.now))) Kind) }
{
    match text(matches, "kind") {
        None => Ok(None),
        Some(word) => match Work::named(word) {
            Some(work) => Ok(Some(work)),
            None => Err(Field::Kind),
        },
    }
}

/// The number of transactions of each core, where it is given.
fn transactions(matches: &ArgMatches) -> Result<Option<u32>, Field>
    ensures given { IfOk result (MayBeGiven (rows_of (found_of matches.now)) (codes "number")) }
    ensures allowed { IfOk result (λ _. Allows (rows_of (found_of matches.now)) Number) }
    ensures faulty { IfErr result (IsFaulty (Allows (rows_of (found_of matches.now))) Number) }
{
    match text(matches, "number") {
        None => Ok(None),
        Some(text) => match number(text) {
            Some(n) if 1 <= n && n <= u64::from(MAX_NUMBER) => Ok(Some(n as u32)),
            _ => Err(Field::Number),
        },
    }
}
