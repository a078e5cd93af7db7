// A small file made by hand, whole, cut to each length, and with single fields changed.
use image_elf::{ElfFault, read_elf};
use std::test::Fail;

/// An empty header of a type that is passed over, beside one writable and executable segment of two instructions and eight
/// bytes more.
const FILE: [u8; 124] = [
    0x7f, 0x45, 0x4c, 0x46, 1, 1, 1, 0, 0, 0, 0, 0, 0, 0, 0, 0, //
    2, 0, 243, 0, 1, 0, 0, 0, 0, 0, 0, 0x80, 52, 0, 0, 0, //
    0, 0, 0, 0, 0, 0, 0, 0, 52, 0, 32, 0, 2, 0, 0, 0, //
    0, 0, 0, 0, //
    3, 0, 0, 0x70, 0x74, 0, 0, 0, 0, 0, 0, 0, 0, 0, 0, 0, //
    0, 0, 0, 0, 0, 0, 0, 0, 4, 0, 0, 0, 1, 0, 0, 0, //
    1, 0, 0, 0, 0x74, 0, 0, 0, 0, 0, 0, 0x80, 0, 0, 0, 0x80, //
    8, 0, 0, 0, 16, 0, 0, 0, 7, 0, 0, 0, 4, 0, 0, 0, //
    0x93, 0x08, 0xd0, 0x05, 0x73, 0, 0, 0,
];

#[test]
fn reads_the_whole_file(rt: HostRuntime) -> Result<(), Fail> {
    let image = read_elf(rt.alloc(), &FILE)?;
    assert_eq!(rt; image.entry, 0x8000_0000);
    assert_eq!(rt; image.segments.items.len(), 1);
    let segment = &image.segments.items[0];
    assert_eq!(rt;
        (segment.index, segment.addr, segment.size, segment.exec),
        (1, 0x8000_0000, 16, true)
    );
    assert_eq!(rt; segment.bytes.items, &FILE[116..]);
    Ok(())
}

#[test]
fn refuses_each_cut(rt: HostRuntime) -> Result<(), Fail> {
    for length in 0..FILE.len() {
        let wanted = match length {
            0..52 => 52,
            52..116 => 116,
            _ => 124,
        };
        assert_eq!(rt;
            read_elf(rt.alloc(), &FILE[..length]).err(),
            Some(ElfFault::Short(wanted))
        );
    }
    Ok(())
}

/// Bytes `first` to `last` become `byte`.
struct Change {
    first: usize,
    last: usize,
    byte: u8,
    fault: &'static str,
}

const CHANGES: [Change; 13] = [
    Change {
        first: 0,
        last: 0,
        byte: 0x00,
        fault: "elf 2 0",
    },
    Change {
        first: 4,
        last: 4,
        byte: 0x02,
        fault: "elf 3 4",
    },
    Change {
        first: 5,
        last: 5,
        byte: 0x02,
        fault: "elf 3 5",
    },
    Change {
        first: 6,
        last: 6,
        byte: 0x00,
        fault: "elf 3 6",
    },
    Change {
        first: 18,
        last: 18,
        byte: 0x3e,
        fault: "elf 3 18",
    },
    Change {
        first: 20,
        last: 20,
        byte: 0x02,
        fault: "elf 3 20",
    },
    Change {
        first: 42,
        last: 42,
        byte: 0x38,
        fault: "elf 3 42",
    },
    Change {
        first: 16,
        last: 16,
        byte: 0x03,
        fault: "elf 4 0",
    },
    Change {
        first: 36,
        last: 36,
        byte: 0x01,
        fault: "elf 5 0",
    },
    Change {
        first: 28,
        last: 31,
        byte: 0xff,
        fault: "elf 1 4294967359",
    },
    Change {
        first: 84,
        last: 84,
        byte: 0x02,
        fault: "elf 6 0",
    },
    Change {
        first: 104,
        last: 104,
        byte: 0x04,
        fault: "elf 7 1",
    },
    Change {
        first: 92,
        last: 95,
        byte: 0xff,
        fault: "elf 7 1",
    },
];

#[test]
fn refuses_each_change(rt: HostRuntime) -> Result<(), Fail> {
    for change in CHANGES.iter() {
        let mut file = FILE;
        for at in change.first..change.last + 1 {
            assert!(rt; at < file.len());
            file[at] = change.byte;
        }
        match read_elf(rt.alloc(), &file) {
            Ok(_) => panic!(rt; "not refused"),
            Err(fault) => {
                assert_eq!(rt; format!(in rt.alloc(); "{fault}")?.as_str(), change.fault);
            }
        }
    }
    Ok(())
}
