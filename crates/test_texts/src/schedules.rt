// Texts that are read, texts that are refused with their line, and each kind of line.
use schedule_text::{TextFault, read, write};
use std::alloc::Global;
use std::test::Fail;
use tcc_base::{CoreId, DirId, NodeId};
use tcc_msg::{Event, Name};

const SMALL: &str = "tcc-schedule 1\ncores 1 dirs 1 sets 1 ways 1 base 0 ram 32\ne 0\nend 1\n";

const TWO_TIDS: &str = "tcc-schedule 1
cores 2 dirs 2 sets 16 ways 2 base 2147483648 ram 65536
e 0\ne 0\ne 0\nd c0 v 0\ne 1\ne 1\ne 1\nd c1 v 0\nd v c1 0\nd v c0 0\nd c0 d1 0\nd c1 d1 0\nd d1 c1 0\ne 1
end 14\n";

// The first two lines of a schedule of two cores.
const TWO_CORES: &str = "tcc-schedule 1\ncores 2 dirs 1 sets 4 ways 2 base 0 ram 32\n";

// What is read of a text, written again.
fn rewritten(alloc: Global, text: &str) -> Option<Vec<u8>> {
    let schedule = read(alloc, text.as_bytes()).ok()?;
    write(alloc, &schedule.config, &schedule.events.items).ok()
}

// The line with which a text is refused.
fn fault(alloc: Global, text: &[u8]) -> Option<u64> {
    match read(alloc, text) {
        Err(TextFault::Line(line)) => Some(line),
        _ => None,
    }
}

// The line with which a text of these two parts is refused.
fn fault_of(alloc: Global, head: &str, tail: &str) -> Result<Option<u64>, Fail> {
    let text = format!(in alloc; "{head}{tail}")?;
    Ok(fault(alloc, text.as_bytes()))
}

// A delivery of the message of this name.
fn delivery(src: NodeId, dst: NodeId, seq: u64) -> Event {
    Event::Deliver(Name { src, dst, seq })
}

#[test]
fn each_kind_of_line_is_read(rt: HostRuntime) -> Result<(), Fail> {
    let text = "tcc-schedule 2\ncores 64 dirs 3 sets 1024 ways 16 base 4278190080 ram 16777216
e 63\nx 9 1023 15\nd c10 d2 4611686018427387903\nd v c0 0\nend 4\n";
    let Ok(schedule) = read(rt.alloc(), text.as_bytes()) else {
        return Err("the text is well formed")?;
    };
    assert_eq!(rt; schedule.config.cores(), 64);
    assert_eq!(rt; schedule.config.sets(), 1024);
    assert_eq!(rt; schedule.config.base(), 0xff00_0000);
    let core = CoreId(0);
    assert_eq!(rt;
        schedule.events.items.as_slice(),
        [
            Event::Exec(CoreId(63)),
            Event::Evict(CoreId(9), 1023, 15),
            delivery(
                NodeId::Core(CoreId(10)),
                NodeId::Dir(DirId(2)),
                (1 << 62) - 1
            ),
            delivery(NodeId::Vendor, NodeId::Core(core), 0),
        ]
        .as_slice()
    );
    Ok(())
}

#[test]
fn what_is_read_is_written_again(rt: HostRuntime) -> Result<(), Fail> {
    for text in [SMALL, TWO_TIDS] {
        let bytes = rewritten(rt.alloc(), text).ok_or("the text is well formed")?;
        assert_eq!(rt; bytes.as_slice(), text.as_bytes());
    }
    Ok(())
}

#[test]
fn every_proper_prefix_is_refused_with_its_line(rt: HostRuntime) -> Result<(), Fail> {
    let text = SMALL.as_bytes();
    let mut line = 1u64;
    for (len, byte) in text.iter().enumerate() {
        assert_eq!(rt; fault(rt.alloc(), &text[..len]), Some(line));
        if *byte == b'\n' {
            line = line.saturating_add(1);
        }
    }
    Ok(())
}

#[test]
fn other_first_lines_are_refused(rt: HostRuntime) -> Result<(), Fail> {
    for (head, line) in [
        ("tcc-schedule 2\ncores 16 dirs 16 sets 1", 2),
        ("tcc-schedule 1\ncores 17 dirs 16 sets 1", 2),
        ("tcc-schedule 1\ncores 16 dirs 17 sets 1", 2),
        ("tcc-schedule 3\ncores 1 dirs 1 sets 1", 1),
        ("tcc-schedule 01\ncores 1 dirs 1 sets 1", 1),
        ("tcc-schedule 1\r\ncores 1 dirs 1 sets 1", 1),
        ("tcc-schedule 1\ncores 0 dirs 1 sets 1", 2),
        ("tcc-schedule 1\ncores 1 dirs 1 sets 3", 2),
        ("tcc-schedule 1\ncores 1  dirs 1 sets 1", 2),
    ] {
        let got = fault_of(rt.alloc(), head, " ways 1 base 0 ram 32\nend 0\n")?;
        assert_eq!(rt; got, Some(line), "{head}");
    }
    Ok(())
}

#[test]
fn other_further_lines_are_refused(rt: HostRuntime) -> Result<(), Fail> {
    for (tail, line) in [
        ("e 00\nend 1\n", 3),
        ("e 0\r\nend 1\n", 3),
        ("e 2\nend 1\n", 3),
        ("e 0 \nend 1\n", 3),
        ("x 0 4 0\nend 1\n", 3),
        ("x 0 0 2\nend 1\n", 3),
        ("d c0 c1 0\nend 1\n", 3),
        ("d v d0 0\nend 1\n", 3),
        ("d c0 d1 0\nend 1\n", 3),
        ("d c0 v 4611686018427387904\nend 1\n", 3),
        ("e 0\nd v c1 0\nend 1\n", 5),
        ("e 0\nend 2\n", 4),
        ("e 0\nend 1", 4),
        ("end 0\ne 0\n", 4),
    ] {
        let got = fault_of(rt.alloc(), TWO_CORES, tail)?;
        assert_eq!(rt; got, Some(line), "{tail}");
    }
    Ok(())
}

#[test]
fn a_line_less_is_missed_at_the_end(rt: HostRuntime) -> Result<(), Fail> {
    let text = TWO_TIDS.replace(rt.alloc(), "d c0 v 0\n", "")?;
    assert_eq!(rt; fault(rt.alloc(), text.as_bytes()), Some(16));
    let text = TWO_TIDS.replace(rt.alloc(), "tcc-schedule 1", "tcc-schedule 2")?;
    assert_eq!(rt; fault(rt.alloc(), text.as_bytes()), Some(2));
    Ok(())
}
