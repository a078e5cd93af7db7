// Outputs that take a part of what is written, and files that aren't read or written.
use super::runs::{STORE, STORE_REPORT};
use super::{File, Held, World, answer, call, check_short, lines, over};
use std::test::Fail;

const FILES: [File; 2] = [("a", Held::Image(STORE)), ("b", Held::Image(STORE))];

/// A run whose RAM is small, so that it takes little time. Its report is the same.
const SMALL: &str = "run --raw --ram 96 a";

#[test]
fn a_short_output_has_the_first_bytes_of_the_report(rt: HostRuntime) -> Result<(), Fail> {
    let alloc = rt.alloc();
    let whole = call(&rt, alloc, SMALL, &over(&FILES))?;
    assert_eq!(rt;
        whole.out.as_slice(),
        lines(alloc, &[STORE_REPORT])?.as_slice()
    );
    check_short(&rt, alloc, SMALL, &FILES)
}

#[test]
fn a_short_output_for_errors_has_the_first_bytes_of_the_line(rt: HostRuntime) -> Result<(), Fail> {
    let line = b"tcc: store c\n";
    for room in 0..line.len() {
        let short = World {
            err: room as u64,
            ..over(&FILES)
        };
        let ended = call(&rt, rt.alloc(), "run --raw a c", &short)?;
        assert_eq!(rt; ended.status, 5);
        assert_eq!(rt; ended.out.len(), 0);
        assert_eq!(rt; ended.err.as_slice(), &line[..room]);
    }
    Ok(())
}

#[test]
fn the_status_is_the_same_where_no_line_is_written(rt: HostRuntime) -> Result<(), Fail> {
    let deaf = World {
        err_fails: Some(0),
        ..over(&FILES)
    };
    for (command, status) in [("", 2), ("run a", 3), ("run c", 5)] {
        let ended = call(&rt, rt.alloc(), command, &deaf)?;
        assert_eq!(rt; ended.status, status);
        assert_eq!(rt; ended.out.len(), 0);
        assert_eq!(rt; ended.err.len(), 0);
    }
    Ok(())
}

/// The number of the call that fails, a command line, and the file that is named.
const FAILING: [(u64, &str, &str); 13] = [
    (9, "run --raw a no-such-file", "no-such-file"),
    (0, "run --raw a b", "a"),
    (1, "run --raw a b", "b"),
    (1, "run --raw --record s a", "s"),
    (2, "run --raw a --record t b", "t"),
    // the schedule and the list are read first
    (9, "replay --raw s c", "s"),
    (9, "serial --raw c s", "c"),
    (9, "follow --raw c s", "c"),
    (2, "follow --raw --record s b a", "s"),
    (1, "replay a b b", "b"),
    (0, "why --raw a b", "a"),
    (9, "why --raw a c", "c"),
    (1, "phases --raw --record s a", "s"),
];

#[test]
fn the_file_that_is_not_read_or_written_is_named(rt: HostRuntime) -> Result<(), Fail> {
    let alloc = rt.alloc();
    for (number, command, name) in FAILING {
        let failing = World {
            fails: Some(number),
            ..over(&FILES)
        };
        let ended = call(&rt, alloc, command, &failing)?;
        let line = format!(in alloc; "tcc: store {name}")?;
        assert_eq!(rt; ended.status, 5, "{command}");
        assert_eq!(rt; ended.out.len(), 0, "{command}");
        assert_eq!(rt;
            ended.err.as_slice(),
            lines(alloc, &[line.as_str()])?.as_slice(),
            "{command}"
        );
    }
    Ok(())
}

/// A command line, and its number of reads and writes: one for each file that it names.
const CALLS: [(u64, &str); 7] = [
    (1, "run --raw a"),
    (2, "run --raw a a"),
    (3, "run --raw a --record s b"),
    (2, "phases --raw --record s a"),
    (2, "serial --raw b a"),
    (3, "follow --raw --record s b a"),
    (1, "bus --raw a"),
];

#[test]
fn each_file_is_read_once_and_the_record_written_once(rt: HostRuntime) -> Result<(), Fail> {
    let alloc = rt.alloc();
    for (calls, command) in CALLS {
        for (number, fails) in [(calls - 1, true), (calls, false)] {
            let failing = World {
                fails: Some(number),
                ..over(&FILES)
            };
            let ended = call(&rt, alloc, command, &failing)?;
            assert_eq!(rt; ended.status == 5, fails, "{command}");
        }
    }
    Ok(())
}

#[test]
fn a_name_stands_in_its_line_as_it_was_given(rt: HostRuntime) -> Result<(), Fail> {
    let words = ["run", "--raw", " no such  file\n"];
    let ended = answer(&rt, rt.alloc(), &words, &over(&FILES))?;
    assert_eq!(rt; ended.status, 5);
    assert_eq!(rt;
        ended.err.as_slice(),
        b"tcc: store  no such  file\n\n".as_slice()
    );
    Ok(())
}
