// Sinks: the streams of the system, and bytes in memory, with failures by number and where there is no room.
use std::alloc::Global;
use std::io::Write;
use std::test::Fail;
use tcc_world::{Sink, SinkFailed, StdSink, VecSink, write_all};

/// Writes this to a stream.
fn tell<W: Write + Drop>(stream: W, text: &[u8]) -> Result<(), SinkFailed> {
    let mut sink = StdSink::new(stream);
    write_all(&mut sink, text)
}

/// What was written in two pieces to a vector.
fn written_twice(alloc: Global) -> Result<StdSink<Vec<u8>>, SinkFailed> {
    let mut kept = StdSink::new(Vec::new(alloc));
    write_all(&mut kept, b"once ")?;
    write_all(&mut kept, b"and whole")?;
    Ok(kept)
}

/// How a text of four bytes is written to three, and how many faults are counted.
fn written_too_much() -> (Result<(), SinkFailed>, u64) {
    let mut room = [0; 3];
    let mut full = StdSink::new(room.as_mut_slice());
    let told = write_all(&mut full, b"four");
    (told, full.faults)
}

#[test]
fn writes_to_the_streams_and_counts_a_full_one(rt: HostRuntime) -> Result<(), Fail> {
    tell(rt.stdout(), b"to standard output\n")?;
    tell(rt.stderr(), b"to standard error\n")?;
    let kept = written_twice(rt.alloc())?;
    assert_eq!(rt; kept.stream.as_slice(), b"once and whole".as_slice());
    assert_eq!(rt; written_too_much(), (Err(SinkFailed), 1));
    Ok(())
}

// Pieces that aren't empty are numbered from 0, and that with the number 1 fails.
#[test]
fn fails_by_number_and_when_full(rt: HostRuntime) -> Result<(), Fail> {
    let mut sink = VecSink::new(rt.alloc(), 4, vec![in rt.alloc(); 1]?)?;
    for (piece, want) in [
        ("", Ok(0)),
        ("ab", Ok(2)),
        ("c", Err(SinkFailed)),
        ("", Ok(0)),
        ("cdef", Ok(2)),
        ("g", Err(SinkFailed)),
        ("", Ok(0)),
    ] {
        assert_eq!(rt; sink.write(piece.as_bytes()), want, "at {piece}");
    }
    assert_eq!(rt; sink.bytes(), b"abcd".as_slice());
    Ok(())
}

#[test]
fn takes_all_or_a_prefix(rt: HostRuntime) -> Result<(), Fail> {
    for (limit, fails, all, taken) in [
        (9, 7, true, "hello"),
        (5, 7, true, "hello"),
        (3, 7, false, "hel"),
        (9, 0, false, ""),
        (0, 7, false, ""),
    ] {
        let mut sink = VecSink::new(rt.alloc(), limit, vec![in rt.alloc(); fails]?)?;
        assert_eq!(rt; write_all(&mut sink, b"hello").is_ok(), all, "at {limit}");
        assert_eq!(rt; sink.bytes(), taken.as_bytes(), "at {limit}");
    }
    Ok(())
}
