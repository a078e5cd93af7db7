// Command lines, and what they ask for or why they are refused.
use run_outcomes::{Limits, Tell};
use std::alloc::Global;
use std::process::Abort;
use std::test::Fail;
use tcc_base::Text;
use tcc_words::{Begin, Command, Field, Source, View, WordsFault, settings};
use work_gen::Work;

/// What the words of a command line ask for.
fn asked(alloc: Global, line: &str) -> Result<Result<Command, WordsFault>, Fail> {
    let words: Vec<&str> = line.split_whitespace().collect(alloc)?;
    Ok(settings(alloc, &words))
}

#[test]
fn run_has_its_defaults(rt: HostRuntime) -> Result<(), Fail> {
    let Ok(
        Command::Run {
            machine,
            images,
            steps,
            seed,
            threads,
            batch,
            keep,
        },
    ) = asked(rt.alloc(), "run a")?
    else {
        panic!(rt; "they ask for another command, or for none");
    };
    assert!(rt; !machine.raw && machine.config.sets() == 16 && machine.config.ways() == 2);
    assert!(rt; machine.config.base() == 0x8000_0000 && machine.config.words() == 16_384);
    assert!(rt; images.items.len() == 1 && steps == 1_000_000 && seed == 0);
    assert!(rt; threads.is_none() && batch == 1 && keep.is_none());
    Ok(())
}

#[test]
fn options_stand_among_images(rt: HostRuntime) -> Result<(), Fail> {
    let Ok(
        Command::Run {
            machine,
            images,
            seed,
            ..
        },
    ) = asked(
        rt.alloc(),
        "run a --cores=2 b --raw --seed 0xFFffFFffFFffFFff",
    )?
    else {
        panic!(rt; "they ask for another command, or for none");
    };
    assert!(rt; machine.raw && machine.config.cores() == 2 && images.items.len() == 2);
    assert_eq!(rt; seed, u64::MAX);
    Ok(())
}

/// Of each turn's number of acts the words, and the number.
const BATCHES: [(&str, u16); 4] = [
    ("run --threads 2 --record r a", 1),
    ("run --threads 2 --batch 1 --record r a", 1),
    ("run --batch=0x40 a --threads 2 --record r", 64),
    ("run --threads 2 --batch 1024 --record r a", 1024),
];

#[test]
fn turns_have_their_number_of_acts(rt: HostRuntime) -> Result<(), Fail> {
    for (line, acts) in BATCHES {
        let Ok(Command::Run { threads, batch, .. }) = asked(rt.alloc(), line)? else {
            panic!(rt; "{line} asks for another command, or for none");
        };
        assert_eq!(rt; threads, Some(2), "{line}");
        assert_eq!(rt; batch, acts, "{line}");
    }
    Ok(())
}

#[test]
fn a_trial_has_its_workload(rt: HostRuntime) -> Result<(), Fail> {
    let Ok(
        Command::Trial {
            work,
            number,
            steps,
            seed,
            ..
        },
    ) = asked(rt.alloc(), "trial --cores 2 --seed 1 counters 0100")?
    else {
        panic!(rt; "they ask for another command, or for none");
    };
    assert!(rt; work == Work::Counters && number == 100 && steps == 1_000_000 && seed == 1);
    Ok(())
}

#[test]
fn a_replay_has_its_schedule_first(rt: HostRuntime) -> Result<(), Fail> {
    let Ok(
        Command::Replay {
            schedule,
            images,
            ..
        },
    ) = asked(rt.alloc(), "replay s x y")?
    else {
        panic!(rt; "they ask for another command, or for none");
    };
    assert!(rt; schedule.items.as_str() == "s" && images.items.len() == 2);
    Ok(())
}

#[test]
fn why_has_its_schedule_first(rt: HostRuntime) -> Result<(), Fail> {
    let Ok(
        Command::Why {
            machine,
            schedule,
            images,
        },
    ) = asked(rt.alloc(), "why --raw s --cores=2 x y")?
    else {
        panic!(rt; "they ask for another command, or for none");
    };
    assert!(rt; machine.raw && machine.config.cores() == 2);
    assert!(rt; schedule.items.as_str() == "s" && images.items.len() == 2);
    Ok(())
}

#[test]
fn phases_are_a_run_without_threads(rt: HostRuntime) -> Result<(), Fail> {
    let Ok(
        Command::Phases {
            images,
            steps,
            seed,
            keep,
            ..
        },
    ) = asked(rt.alloc(), "phases --seed 3 --record r a --steps=7")?
    else {
        panic!(rt; "they ask for another command, or for none");
    };
    assert!(rt; images.items.len() == 1 && steps == 7 && seed == 3);
    assert!(rt; keep.is_some_and(|name| name.items.as_str() == "r"));
    Ok(())
}

#[test]
fn a_bus_has_one_directory(rt: HostRuntime) -> Result<(), Fail> {
    let Ok(
        Command::Bus {
            machine,
            images,
            steps,
            seed,
        },
    ) = asked(rt.alloc(), "bus --raw --cores=4 --sets 1 a --seed 3 b")?
    else {
        panic!(rt; "they ask for another command, or for none");
    };
    assert!(rt; machine.raw && machine.config.cores() == 4 && machine.config.sets() == 1);
    assert!(rt; machine.config.dirs() == 1 && machine.config.words() == 16_384);
    assert!(rt; images.items.len() == 2 && steps == 1_000_000 && seed == 3);
    Ok(())
}

#[test]
fn a_run_is_looked_at_by_seed_or_by_schedule(rt: HostRuntime) -> Result<(), Fail> {
    let Ok(Command::Look { source, view, .. }) = asked(rt.alloc(), "trace --seed 3 --from 5 a")?
    else {
        panic!(rt; "they ask for another command, or for none");
    };
    assert_eq!(rt;
        view,
        View::Trace {
            from: 5,
            to: 4_194_304,
            states: false
        }
    );
    assert!(rt;
        matches!(
            source,
            Source::Seed {
                steps: 1_000_000,
                seed: 3
            }
        )
    );
    let Ok(Command::Look { view, .. }) = asked(rt.alloc(), "trace --states --to=9 a")? else {
        panic!(rt; "they ask for another command, or for none");
    };
    assert_eq!(rt;
        view,
        View::Trace {
            from: 0,
            to: 9,
            states: true
        }
    );
    let Ok(Command::Look { source, view, .. }) = asked(rt.alloc(), "count a --csv --schedule s")?
    else {
        panic!(rt; "they ask for another command, or for none");
    };
    assert_eq!(rt; view, View::Count { csv: true });
    let Source::Schedule(name) = source else {
        panic!(rt; "it is the run of a seed");
    };
    let text = name.items;
    assert_eq!(rt; text.as_str(), "s");
    let Ok(Command::Look { images, view, .. }) = asked(rt.alloc(), "state --events=7 a b")? else {
        panic!(rt; "they ask for another command, or for none");
    };
    assert!(rt; view == View::State { events: 7 } && images.items.len() == 2);
    Ok(())
}

#[test]
fn a_run_on_the_bus_is_looked_at(rt: HostRuntime) -> Result<(), Fail> {
    let Ok(
        Command::LookOnBus {
            machine,
            images,
            steps,
            seed,
            view,
        },
    ) = asked(rt.alloc(), "count --bus --seed 3 --cores=4 --csv a")?
    else {
        panic!(rt; "they ask for another command, or for none");
    };
    assert!(rt; machine.config.cores() == 4 && machine.config.dirs() == 1);
    assert!(rt; images.items.len() == 1 && steps == 1_000_000 && seed == 3);
    assert_eq!(rt; view, View::Count { csv: true });
    Ok(())
}

#[test]
fn totals_are_told_as_a_run_goes(rt: HostRuntime) -> Result<(), Fail> {
    let Ok(Command::Look { source, view, .. }) = asked(
        rt.alloc(),
        "count --steps 1099511627776 --every=1099511627776 a",
    )?
    else {
        panic!(rt; "they ask for another command, or for none");
    };
    assert_eq!(rt;
        view,
        View::Rows {
            every: 1_099_511_627_776
        }
    );
    assert!(rt;
        matches!(
            source,
            Source::Seed {
                steps: 1_099_511_627_776,
                seed: 0
            }
        )
    );
    let Ok(Command::Look { source, view, .. }) = asked(
        rt.alloc(),
        "count --csv --every 1 --schedule s a",
    )?
    else {
        panic!(rt; "they ask for another command, or for none");
    };
    assert!(rt; view == View::Rows { every: 1 } && matches!(source, Source::Schedule(_)));
    Ok(())
}

#[test]
fn a_run_goes_on_from_a_checkpoint(rt: HostRuntime) -> Result<(), Fail> {
    let Ok(
        Command::Long {
            images,
            begin,
            steps,
            view,
            keep,
            ..
        },
    ) = asked(rt.alloc(), "count --resume a b")?
    else {
        panic!(rt; "they ask for another command, or for none");
    };
    assert!(rt; images.items.len() == 1 && steps == 1_000_000 && keep.is_none());
    assert_eq!(rt; view, View::Count { csv: false });
    let Begin::Checkpoint(name) = begin else {
        panic!(rt; "it begins before its first event");
    };
    let text = name.items;
    assert_eq!(rt; text.as_str(), "a");
    let Ok(
        Command::Long {
            images,
            begin,
            steps,
            view,
            keep,
            ..
        },
    ) = asked(rt.alloc(), "state --resume a --steps 5 b")?
    else {
        panic!(rt; "they ask for another command, or for none");
    };
    assert!(rt; images.items.len() == 1 && steps == 5 && keep.is_none());
    assert_eq!(rt; view, View::State { events: 4_194_304 });
    let Begin::Checkpoint(name) = begin else {
        panic!(rt; "it begins before its first event");
    };
    let text = name.items;
    assert_eq!(rt; text.as_str(), "a");
    Ok(())
}

#[test]
fn a_trace_goes_on_from_a_checkpoint(rt: HostRuntime) -> Result<(), Fail> {
    let Ok(
        Command::Long {
            begin,
            steps,
            view,
            keep,
            ..
        },
    ) = asked(
        rt.alloc(),
        "trace --states --resume a --from 5 --steps 4194304 b",
    )?
    else {
        panic!(rt; "they ask for another command, or for none");
    };
    assert!(rt; steps == 4_194_304 && keep.is_none());
    assert_eq!(rt;
        view,
        View::Trace {
            from: 5,
            to: 4_194_304,
            states: true
        }
    );
    let Begin::Checkpoint(name) = begin else {
        panic!(rt; "it begins before its first event");
    };
    let text = name.items;
    assert_eq!(rt; text.as_str(), "a");
    Ok(())
}

#[test]
fn a_run_is_written_down(rt: HostRuntime) -> Result<(), Fail> {
    let Ok(
        Command::Long {
            machine,
            images,
            begin,
            steps,
            view,
            keep,
        },
    ) = asked(rt.alloc(), "count --checkpoint a --seed 3 --dirs 2 b")?
    else {
        panic!(rt; "they ask for another command, or for none");
    };
    assert!(rt; machine.config.dirs() == 2 && images.items.len() == 1 && steps == 1_000_000);
    assert!(rt; matches!(begin, Begin::Seed(3)));
    assert_eq!(rt; view, View::Count { csv: false });
    assert!(rt; keep.is_some_and(|name| name.items.as_str() == "a"));
    let Ok(
        Command::Long {
            begin,
            steps,
            view,
            keep,
            ..
        },
    ) = asked(
        rt.alloc(),
        "count --csv --resume=a --steps 1099511627776 b --checkpoint=c",
    )?
    else {
        panic!(rt; "they ask for another command, or for none");
    };
    assert!(rt; steps == 1_099_511_627_776 && view == View::Count { csv: true });
    assert!(rt; keep.is_some_and(|name| name.items.as_str() == "c"));
    let Begin::Checkpoint(name) = begin else {
        panic!(rt; "it begins before its first event");
    };
    let text = name.items;
    assert_eq!(rt; text.as_str(), "a");
    Ok(())
}

/// The words of a long run, the checkpoint from which it goes on, the one that is written, and what is told.
type LongRow = (
    &'static str,
    Option<&'static str>,
    Option<&'static str>,
    View,
);

/// Totals as a long run goes, and its consoles; for either a checkpoint may be resumed, one be written, both or neither.
const LONG: [LongRow; 8] = [
    (
        "count --every 5 --resume c a",
        Some("c"),
        None,
        View::Rows { every: 5 },
    ),
    (
        "count --checkpoint d --seed 3 --every=1099511627776 a",
        None,
        Some("d"),
        View::Rows {
            every: 1_099_511_627_776,
        },
    ),
    (
        "count --csv --every 1 --checkpoint d --resume c a",
        Some("c"),
        Some("d"),
        View::Rows { every: 1 },
    ),
    (
        "count --consoles a",
        None,
        None,
        View::Consoles { csv: false },
    ),
    (
        "count a --csv --consoles --seed 3",
        None,
        None,
        View::Consoles { csv: true },
    ),
    (
        "count --consoles --resume c a",
        Some("c"),
        None,
        View::Consoles { csv: false },
    ),
    (
        "count --checkpoint d --consoles a",
        None,
        Some("d"),
        View::Consoles { csv: false },
    ),
    (
        "count --consoles --resume=c --checkpoint=d --csv a",
        Some("c"),
        Some("d"),
        View::Consoles { csv: true },
    ),
];

/// Whether a file has this name, or there is none.
fn is_named(file: Option<&Text>, name: Option<&str>) -> bool {
    match (file, name) {
        (Some(file), Some(name)) => file.items.as_str() == name,
        (None, None) => true,
        _ => false,
    }
}

#[test]
fn a_long_run_is_told_as_it_goes(rt: HostRuntime) -> Result<(), Fail> {
    for (line, resumed, written, told) in LONG {
        let Ok(
            Command::Long {
                images,
                begin,
                view,
                keep,
                ..
            },
        ) = asked(rt.alloc(), line)?
        else {
            panic!(rt; "{line} asks for another command, or for none");
        };
        assert_eq!(rt; images.items.len(), 1, "{line}");
        let from = match &begin {
            Begin::Seed(_) => None,
            Begin::Checkpoint(name) => Some(name),
        };
        assert!(rt;
            is_named(from, resumed) && is_named(keep.as_ref(), written),
            "{line}"
        );
        assert_eq!(rt; view, told, "{line}");
    }
    Ok(())
}

#[test]
fn consoles_are_told_by_seed_and_steps(rt: HostRuntime) -> Result<(), Fail> {
    let Ok(Command::Long { begin, steps, .. }) = asked(
        rt.alloc(),
        "count --steps 1099511627776 --consoles --seed 3 a",
    )?
    else {
        panic!(rt; "they ask for another command, or for none");
    };
    assert!(rt; matches!(begin, Begin::Seed(3)) && steps == 1_099_511_627_776);
    Ok(())
}

#[test]
fn outcomes_have_their_limits(rt: HostRuntime) -> Result<(), Fail> {
    let Ok(
        Command::Outcomes {
            images,
            limits,
            tell,
            ..
        },
    ) = asked(rt.alloc(), "outcomes a")?
    else {
        panic!(rt; "they ask for another command, or for none");
    };
    assert_eq!(rt; images.items.len(), 1);
    assert_eq!(rt;
        limits,
        Limits {
            states: 1_000_000,
            longest: 100_000
        }
    );
    assert_eq!(rt; tell, Tell::Consoles);
    let Ok(
        Command::Outcomes {
            machine,
            images,
            limits,
            tell,
        },
    ) = asked(
        rt.alloc(),
        "outcomes --states 5 --longest=7 --tell all --cores 3 a --raw b",
    )?
    else {
        panic!(rt; "they ask for another command, or for none");
    };
    assert!(rt; machine.raw && machine.config.cores() == 3 && images.items.len() == 2);
    assert!(rt; limits.states == 5 && limits.longest == 7 && tell == Tell::Everything);
    Ok(())
}

/// A command line that is refused, and the cause.
type Refused = (&'static str, WordsFault);

/// Each line is refused for its cause.
fn are_refused(rt: &impl Abort, alloc: Global, rows: &[Refused]) -> Result<(), Fail> {
    for (line, fault) in rows {
        match asked(alloc, line)? {
            Ok(_) => panic!(rt; "{line}"),
            Err(found) => assert_eq!(rt; found, *fault, "{line}"),
        }
    }
    Ok(())
}

/// No command, one that there isn't, and commands without the names that they need.
const NO_COMMAND: [Refused; 9] = [
    ("", WordsFault::Words),
    ("walk a", WordsFault::Words),
    ("run", WordsFault::Words),
    ("replay s", WordsFault::Words),
    ("why s", WordsFault::Words),
    ("phases", WordsFault::Words),
    ("bus --raw", WordsFault::Words),
    ("trace --schedule s", WordsFault::Words),
    ("outcomes --states 3", WordsFault::Words),
];

#[test]
fn words_that_are_no_command(rt: HostRuntime) -> Result<(), Fail> {
    are_refused(&rt, rt.alloc(), &NO_COMMAND)
}

/// Values that look like options, options that stand twice, that there aren't, or that other commands have.
const NOT_READ: [Refused; 8] = [
    ("run --cores -1 a", WordsFault::Words),
    ("run --sets 1 --sets 1 a", WordsFault::Words),
    ("run --help a", WordsFault::Words),
    ("replay --seed 1 s a", WordsFault::Words),
    ("why --steps 1 s a", WordsFault::Words),
    ("phases --threads 2 --record r a", WordsFault::Words),
    ("phases --batch 2 --record r a", WordsFault::Words),
    (
        "run --batch 2 --batch 2 --threads 2 --record r a",
        WordsFault::Words,
    ),
];

#[test]
fn words_that_clap_refuses(rt: HostRuntime) -> Result<(), Fail> {
    are_refused(&rt, rt.alloc(), &NOT_READ)
}

/// Options of a run that a bus hasn't.
const NOT_OF_A_BUS: [Refused; 4] = [
    ("bus --dirs 2 a", WordsFault::Words),
    ("bus a --dirs=1", WordsFault::Words),
    ("bus --threads 2 a", WordsFault::Words),
    ("bus --record r a", WordsFault::Words),
];

#[test]
fn a_bus_has_no_directories_threads_or_record(rt: HostRuntime) -> Result<(), Fail> {
    are_refused(&rt, rt.alloc(), &NOT_OF_A_BUS)
}

/// Options of one look that another hasn't, a schedule beside what chooses other events, and the bus beside what it hasn't.
const NOT_TOGETHER: [Refused; 13] = [
    ("trace --csv a", WordsFault::Words),
    ("count --states a", WordsFault::Words),
    ("state --states a", WordsFault::Words),
    ("trace --states=true a", WordsFault::Words),
    ("count --from 1 a", WordsFault::Words),
    ("state --to 1 a", WordsFault::Words),
    ("trace --record r a", WordsFault::Words),
    ("count --schedule s --steps 1 a", WordsFault::Words),
    ("state --seed 1 --schedule s a", WordsFault::Words),
    ("count --bus --schedule s a", WordsFault::Words),
    ("trace --dirs 1 --bus a", WordsFault::Words),
    ("count --bus --states a", WordsFault::Words),
    ("run --bus a", WordsFault::Words),
];

#[test]
fn options_that_do_not_go_together(rt: HostRuntime) -> Result<(), Fail> {
    are_refused(&rt, rt.alloc(), &NOT_TOGETHER)
}

/// A checkpoint that is resumed beside a seed, a long run beside what it hasn't, and checkpoints and consoles of commands that have none.
const NOT_LONG: [Refused; 21] = [
    ("count --resume c --seed 1 a", WordsFault::Words),
    ("state --seed=0 --resume c a", WordsFault::Words),
    (
        "count --checkpoint d --resume c --seed 1 a",
        WordsFault::Words,
    ),
    ("count --resume c --schedule s a", WordsFault::Words),
    ("state --resume c --schedule s a", WordsFault::Words),
    ("count --checkpoint c --schedule s a", WordsFault::Words),
    ("count --resume c --bus a", WordsFault::Words),
    ("count --checkpoint c --bus a", WordsFault::Words),
    ("count --consoles --every 5 a", WordsFault::Words),
    (
        "count --consoles --every x --resume c --checkpoint d a",
        WordsFault::Words,
    ),
    ("count --consoles --schedule s a", WordsFault::Words),
    ("count --consoles --bus a", WordsFault::Words),
    ("count --consoles --resume c --seed 1 a", WordsFault::Words),
    ("count --consoles=true a", WordsFault::Words),
    ("trace --resume c --seed 1 a", WordsFault::Words),
    ("trace --resume c --schedule s a", WordsFault::Words),
    ("trace --resume c --bus a", WordsFault::Words),
    ("trace --checkpoint c a", WordsFault::Words),
    ("state --checkpoint c a", WordsFault::Words),
    ("trace --consoles a", WordsFault::Words),
    ("state --consoles a", WordsFault::Words),
];

#[test]
fn options_that_no_long_run_has(rt: HostRuntime) -> Result<(), Fail> {
    are_refused(&rt, rt.alloc(), &NOT_LONG)
}

/// Options of machines and runs, which make no difference to the outcomes.
const NOT_OF_OUTCOMES: [Refused; 5] = [
    ("outcomes --dirs 2 a", WordsFault::Words),
    ("outcomes --sets 1 a", WordsFault::Words),
    ("outcomes --seed 1 a", WordsFault::Words),
    ("outcomes --schedule s a", WordsFault::Words),
    ("outcomes --bus a", WordsFault::Words),
];

#[test]
fn outcomes_have_no_caches_directories_or_events(rt: HostRuntime) -> Result<(), Fail> {
    are_refused(&rt, rt.alloc(), &NOT_OF_OUTCOMES)
}

/// Values without digits, with others, or with too many.
const NO_NUMBERS: [Refused; 4] = [
    ("run --cores - a", WordsFault::Value(Field::Cores)),
    ("run --cores= a", WordsFault::Value(Field::Cores)),
    ("run --dirs 0X2 a", WordsFault::Value(Field::Dirs)),
    (
        "run --seed 18446744073709551616 a",
        WordsFault::Value(Field::Seed),
    ),
];

#[test]
fn values_that_are_no_numbers(rt: HostRuntime) -> Result<(), Fail> {
    are_refused(&rt, rt.alloc(), &NO_NUMBERS)
}

/// Numbers that are too large, threads without a record, and acts of a turn without threads.
const OUT_OF_RANGE: [Refused; 17] = [
    ("run --raw --cores 65 a", WordsFault::Value(Field::Cores)),
    (
        "run --raw --steps 4194305 a",
        WordsFault::Value(Field::Steps),
    ),
    ("run --base 0xffff8000 a", WordsFault::Value(Field::Base)),
    ("run --threads 4 a", WordsFault::Value(Field::Threads)),
    (
        "run --threads 4 --batch 0 a",
        WordsFault::Value(Field::Threads),
    ),
    (
        "run --threads 4 --batch 0 --record r a",
        WordsFault::Value(Field::Batch),
    ),
    (
        "run --threads 4 --batch 1025 --record r a",
        WordsFault::Value(Field::Batch),
    ),
    (
        "run --batch 2 --record r a",
        WordsFault::Value(Field::Batch),
    ),
    ("bus --steps 4194305 a", WordsFault::Value(Field::Steps)),
    ("trace --from 4194305 a", WordsFault::Value(Field::From)),
    ("trace --to 4194305 a", WordsFault::Value(Field::To)),
    ("state --events 4194305 a", WordsFault::Value(Field::Events)),
    ("outcomes --states 0 a", WordsFault::Value(Field::States)),
    (
        "outcomes --states 4194305 a",
        WordsFault::Value(Field::States),
    ),
    ("outcomes --longest 0 a", WordsFault::Value(Field::Longest)),
    (
        "outcomes --longest 4194305 a",
        WordsFault::Value(Field::Longest),
    ),
    ("outcomes --tell some a", WordsFault::Value(Field::Tell)),
];

#[test]
fn values_out_of_range(rt: HostRuntime) -> Result<(), Fail> {
    are_refused(&rt, rt.alloc(), &OUT_OF_RANGE)
}

/// Numbers of events: those that no run has, and those that only a run has that is counted, on the machine with directories.
const TOO_MANY_EVENTS: [Refused; 12] = [
    (
        "count --steps 1099511627777 a",
        WordsFault::Value(Field::Steps),
    ),
    (
        "count --bus --steps 4194305 a",
        WordsFault::Value(Field::Steps),
    ),
    ("trace --steps 4194305 a", WordsFault::Value(Field::Steps)),
    ("state --steps 4194305 a", WordsFault::Value(Field::Steps)),
    ("phases --steps 4194305 a", WordsFault::Value(Field::Steps)),
    ("count --every 0 a", WordsFault::Value(Field::Every)),
    (
        "count --every 1099511627777 a",
        WordsFault::Value(Field::Every),
    ),
    ("count --every x a", WordsFault::Value(Field::Every)),
    ("count --bus --every 5 a", WordsFault::Value(Field::Every)),
    (
        "count --resume c --every 0 a",
        WordsFault::Value(Field::Every),
    ),
    (
        "count --consoles --steps 1099511627777 a",
        WordsFault::Value(Field::Steps),
    ),
    ("trace --every 5 a", WordsFault::Words),
];

#[test]
fn numbers_of_events_out_of_range(rt: HostRuntime) -> Result<(), Fail> {
    are_refused(&rt, rt.alloc(), &TOO_MANY_EVENTS)
}

/// Of two fields with faults the first, and of one.
const TWO_FAULTS: [Refused; 6] = [
    ("run --sets x --cores 0 a", WordsFault::Value(Field::Cores)),
    ("run --base 1 --ram 1 a", WordsFault::Value(Field::Ram)),
    ("trial primes 0", WordsFault::Value(Field::Kind)),
    ("trial sharing 2048", WordsFault::Value(Field::Number)),
    ("trace --to x --seed x a", WordsFault::Value(Field::Seed)),
    (
        "outcomes --tell x --longest 0 a",
        WordsFault::Value(Field::Longest),
    ),
];

#[test]
fn the_first_of_two_faulty_fields(rt: HostRuntime) -> Result<(), Fail> {
    are_refused(&rt, rt.alloc(), &TWO_FAULTS)
}

/// Seventeen images.
const TOO_MANY: [Refused; 1] = [(
    "run 1 2 3 4 5 6 7 8 9 10 11 12 13 14 15 16 17",
    WordsFault::Value(Field::Images),
)];

#[test]
fn too_many_images(rt: HostRuntime) -> Result<(), Fail> {
    are_refused(&rt, rt.alloc(), &TOO_MANY)
}
