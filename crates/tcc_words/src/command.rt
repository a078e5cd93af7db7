// What the words of a command line ask for.
ghost use Rattle.std.specs.Prelude.{◌≡◌, MatchOption};
ghost use Rattle.tcc_words.specs.Fields.{field_word, default_of};
ghost use Rattle.tcc_words.specs.Grammar.{verb_word};

use run_outcomes::{Limits, Tell};
use tcc_base::{Config, List, Text};
use work_gen::Work;

/// The commands, by their first words.
#[derive(Clone, Copy, Debug, PartialEq, Eq)]
pub enum Verb {
    /// Runs images on the machine.
    Run,
    /// Runs a schedule that was recorded.
    Replay,
    /// Runs the transactions that a report lists on the plain machine.
    Serial,
    /// Runs a workload on the machine.
    Trial,
    /// Runs a schedule that was recorded, and tells what waits at its end.
    Why,
    /// Runs images on the machine, earlier phases before later ones.
    Phases,
    /// Runs images on the machine with one bus.
    Bus,
    /// Tells what each event of a run did.
    Trace,
    /// Counts what happened in a run.
    Count,
    /// Shows the state after a run.
    State,
    /// Lists all results that a program can have.
    Outcomes,
    /// Runs images so that the transactions of a list commit in its order.
    Follow,
}

impl Verb {
    /// The first word of the command. Takes no memory.
    pub fn word(self) -> &'static str
        ensures { result.now ≡ verb_word self }
    {
        match self {
            Verb::Run => "run",
            Verb::Replay => "replay",
            Verb::Serial => "serial",
            Verb::Trial => "trial",
            Verb::Why => "why",
            Verb::Phases => "phases",
            Verb::Bus => "bus",
            Verb::Trace => "trace",
            Verb::Count => "count",
            Verb::State => "state",
            Verb::Outcomes => "outcomes",
            Verb::Follow => "follow",
        }
    }

    /// The command with that first word; None exactly where there is none. Takes no memory.
    pub fn named(word: &str) -> Option<Verb>
        ensures { MatchOption result ((v : Verb) → word.now ≡ verb_word v → ⊥) (λ v. word.now ≡ verb_word v) }
    {
        match word {
            "run" => Some(Verb::Run),
            "replay" => Some(Verb::Replay),
            "serial" => Some(Verb::Serial),
            "trial" => Some(Verb::Trial),
            "why" => Some(Verb::Why),
            "phases" => Some(Verb::Phases),
            "bus" => Some(Verb::Bus),
            "trace" => Some(Verb::Trace),
            "count" => Some(Verb::Count),
            "state" => Some(Verb::State),
            "outcomes" => Some(Verb::Outcomes),
            "follow" => Some(Verb::Follow),
            _ => None,
        }
    }
}

/// A machine and the form of its images.
#[derive(Clone, Copy, Debug, PartialEq, Eq)]
pub struct Machine {
    pub config: Config,
    /// Whether all images are raw; else all are ELF files.
    pub raw: bool,
}

/// Which run is looked at.
#[derive(Debug, Drop)]
pub enum Source {
    /// The one of at most `steps` events that `seed` picks.
    Seed { steps: u64, seed: u64 },
    /// The one by the schedule of a file.
    Schedule(Text),
}

/// How a long run begins.
#[derive(Debug, Drop)]
pub enum Begin {
    /// Before its first event, by this seed.
    Seed(u64),
    /// From the checkpoint in this file.
    Checkpoint(Text),
}

/// What is told of a run.
#[derive(Clone, Copy, Debug, PartialEq, Eq)]
pub enum View {
    /// What each event did, from number `from` on, of at most `to` events; with `states` also the records of the state at the beginning,
    /// and those that each event changed.
    Trace { from: u64, to: u64, states: bool },
    /// How often what happened; with `csv` the totals alone, as two rows for a table.
    Count { csv: bool },
    /// The totals as rows for a table while the run goes on, one after each `every` events.
    Rows { every: u64 },
    /// What the cores print, as it is committed, and then how often what happened; with `csv` the totals alone, as two rows for a table.
    Consoles { csv: bool },
    /// The state after at most so many events.
    State { events: u64 },
}

/// A command with its settings. Files stand as their names.
#[derive(Debug, Drop)]
pub enum Command {
    /// Run the images for at most `steps` events, chosen by `seed`: on so many host threads, where `threads` says so, each with at
    /// most `batch` acts of a node in a turn. The schedule is written to the file `keep`, where there is one.
    Run {
        machine: Machine,
        images: List<Text>,
        steps: u64,
        seed: u64,
        threads: Option<u8>,
        batch: u16,
        keep: Option<Text>,
    },
    /// Run the schedule of a file whole.
    Replay {
        machine: Machine,
        schedule: Text,
        images: List<Text>,
    },
    /// Run the list of transactions of a file.
    Serial {
        machine: Machine,
        list: Text,
        images: List<Text>,
    },
    /// Run a workload for at most `steps` events, chosen by `seed`.
    Trial {
        config: Config,
        work: Work,
        number: u32,
        steps: u64,
        seed: u64,
    },
    /// Run the schedule of a file whole, and tell why each message waits that is in flight at its end.
    Why {
        machine: Machine,
        schedule: Text,
        images: List<Text>,
    },
    /// Run the images for at most `steps` events, chosen by `seed` among those that hold back the requests of later phases. The
    /// schedule is written to the file `keep`, where there is one.
    Phases {
        machine: Machine,
        images: List<Text>,
        steps: u64,
        seed: u64,
        keep: Option<Text>,
    },
    /// Run the images on the machine with one bus, for at most `steps` events that `seed` chooses. Its settings have one directory.
    Bus {
        machine: Machine,
        images: List<Text>,
        steps: u64,
        seed: u64,
    },
    /// Look at a run of the images.
    Look {
        machine: Machine,
        images: List<Text>,
        source: Source,
        view: View,
    },
    /// Look at a run of the images on the machine with one bus, of at most `steps` events that `seed` chooses. Its settings have one
    /// directory.
    LookOnBus {
        machine: Machine,
        images: List<Text>,
        steps: u64,
        seed: u64,
        view: View,
    },
    /// Search the results of the images within these limits; `tell` says what makes two of them different.
    Outcomes {
        machine: Machine,
        images: List<Text>,
        limits: Limits,
        tell: Tell,
    },
    /// Run the images so that the transactions of the list of a file commit in its order. The schedule is written to the file `keep`,
    /// where there is one.
    Follow {
        machine: Machine,
        list: Text,
        images: List<Text>,
        keep: Option<Text>,
    },
    /// Count a run of the images, at its end or as it goes, tell what its cores print, or show its state: from its beginning or from a
    /// checkpoint, for at most `steps` events more that its seed chooses. It is written down to the file `keep` at its end, where there is
    /// one. Or tell what each of these events did, from a checkpoint on. Of no other run it is told what the cores print.
    Long {
        machine: Machine,
        images: List<Text>,
        begin: Begin,
        steps: u64,
        view: View,
        keep: Option<Text>,
    },
}

/// The fields of a command, in the order in which they are tested.
#[derive(Clone, Copy, Debug, PartialEq, Eq)]
pub enum Field {
    /// 1 to 64 cores.
    Cores,
    /// 1 to 64 directories.
    Dirs,
    /// A power of two from 1 to 1024.
    Sets,
    /// 1 to 16.
    Ways,
    /// 32 to 16,777,216 bytes, a multiple of 32.
    Ram,
    /// A multiple of 32, with base + RAM at most 2^32.
    Base,
    /// 0 to 4,194,304 events; where they are counted, but not on the bus, to 2^40.
    Steps,
    /// Any number.
    Seed,
    /// 0 to 4,194,304: the number of the first event that is shown.
    From,
    /// 0 to 4,194,304 events.
    To,
    /// 0 to 4,194,304 events.
    Events,
    /// 1 to 2^40 events, and not on the bus.
    Every,
    /// 1 to 4,194,304 states.
    States,
    /// 1 to 4,194,304 instructions of a transaction.
    Longest,
    /// What is told of a state.
    Tell,
    /// 1 to 16, and only together with a file for the schedule.
    Threads,
    /// 1 to 1024 acts, and only together with a number of threads.
    Batch,
    /// 1 to 16 names.
    Images,
    /// The name of a workload.
    Kind,
    /// 1 to 2047.
    Number,
}

impl Field {
    /// The name of the field: of an option, what stands behind the two hyphens. Takes no memory.
    pub fn word(self) -> &'static str
        ensures { result.now ≡ field_word self }
    {
        match self {
            Field::Cores => "cores",
            Field::Dirs => "dirs",
            Field::Sets => "sets",
            Field::Ways => "ways",
            Field::Ram => "ram",
            Field::Base => "base",
            Field::Steps => "steps",
            Field::Seed => "seed",
            Field::From => "from",
            Field::To => "to",
            Field::Events => "events",
            Field::Every => "every",
            Field::States => "states",
            Field::Longest => "longest",
            Field::Tell => "tell",
            Field::Threads => "threads",
            Field::Batch => "batch",
            Field::Images => "images",
            Field::Kind => "kind",
            Field::Number => "number",
        }
    }

    /// The number of the field where it isn't given, 0 where it has none.
    pub(crate) fn default(self) -> u64
        ensures { result ≡ default_of self }
    {
        match self {
            Field::Cores | Field::Dirs | Field::Batch => 1,
            Field::Sets => 16,
            Field::Ways => 2,
            Field::Ram => 65_536,
            Field::Base => 0x8000_0000,
            Field::Steps | Field::States => 1_000_000,
            Field::Longest => 100_000,
            Field::To | Field::Events => 4_194_304,
            _ => 0,
        }
    }
}

/// Why words are refused.
#[derive(Clone, Copy, Debug, PartialEq, Eq)]
pub enum WordsFault {
    /// They don't stand as a command's words do.
    Words,
    /// The first field in which something stands that isn't allowed.
    Value(Field),
    /// There was no memory to read them.
    Memory,
}
