// Images at the bounds of RAM and of one another, and what is read of a memory that was loaded.
ghost use Rattle.std.specs.Prelude.{◌≡◌, ◌<◌, ◌/◌, IfOk, IfSome};
ghost use Rattle.image_elf.specs.Elf.{IsWithinSizes};

use image_elf::{Bytes, Image, Segment};
use image_load::{LoadFault, Loaded, load, raw};
use std::alloc::{AllocError, Global};
use std::test::Fail;
use tcc_base::{Config, CoreId, List, WordAddr};

/// 64 bytes of RAM from 0x1000 on.
fn small() -> Option<Config>
    ensures { IfSome result (λ config. config.ram ≡ 64) }
{
    Config::new(2, 1, 1, 1, 0x1000, 64).ok()
}

/// An image with one segment, whose index is 5 and of which the file holds one byte, if it isn't empty.
#[derive(Clone, Copy)]
struct Part {
    entry: u32,
    addr: u32,
    size: u32,
    exec: bool,
}

/// The image of a part; its byte is aa.
fn image<'a>(alloc: Global, part: Part) -> Result<Image<'a>, AllocError>
    ensures { IfOk result IsWithinSizes }
{
    let mut segments = Vec::new(alloc);
    segments.push(Segment {
        index: 5,
        addr: part.addr,
        bytes: Bytes {
            items: if part.size > 0 { &[0xaa] } else { &[] },
        },
        size: part.size,
        exec: part.exec,
    })?;
    Ok(Image {
        entry: part.entry,
        segments: List { items: segments },
    })
}

/// Two images, and their fault.
struct Row {
    first: Part,
    second: Part,
    fault: Option<LoadFault>,
}

/// The fault of the second image's segment, which lies outside RAM.
const OUTSIDE: Option<LoadFault> = Some(LoadFault::Outside {
    image: 1,
    segment: 5,
});

/// The fault of the second image's segment, which overlaps with the first.
const OVERLAP: Option<LoadFault> = Some(LoadFault::Overlap {
    image: 1,
    segment: 5,
    other_image: 0,
    other_segment: 5,
});

/// The fault of the second image's entry.
const ENTRY: Option<LoadFault> = Some(LoadFault::Entry { image: 1 });

const ROWS: [Row; 12] = [
    // touching each other and the end of RAM
    Row {
        first: Part {
            entry: 0x1000,
            addr: 0x1000,
            size: 32,
            exec: true,
        },
        second: Part {
            entry: 0x1020,
            addr: 0x1020,
            size: 32,
            exec: true,
        },
        fault: None,
    },
    // an empty segment anywhere; an entry in the first image
    Row {
        first: Part {
            entry: 0x1000,
            addr: 0x1000,
            size: 32,
            exec: true,
        },
        second: Part {
            entry: 0x101c,
            addr: 0x9000,
            size: 0,
            exec: true,
        },
        fault: None,
    },
    Row {
        first: Part {
            entry: 0x1000,
            addr: 0x1000,
            size: 32,
            exec: true,
        },
        second: Part {
            entry: 0x1000,
            addr: 0x0fff,
            size: 1,
            exec: false,
        },
        fault: OUTSIDE,
    },
    Row {
        first: Part {
            entry: 0x1000,
            addr: 0x1000,
            size: 32,
            exec: true,
        },
        second: Part {
            entry: 0x1000,
            addr: 0x1020,
            size: 33,
            exec: false,
        },
        fault: OUTSIDE,
    },
    Row {
        first: Part {
            entry: 0x1000,
            addr: 0x1000,
            size: 32,
            exec: true,
        },
        second: Part {
            entry: 0x1000,
            addr: 0xffff_ffff,
            size: 0xffff_ffff,
            exec: false,
        },
        fault: OUTSIDE,
    },
    // one byte in common, at either end, and all of them
    Row {
        first: Part {
            entry: 0x1000,
            addr: 0x1000,
            size: 32,
            exec: true,
        },
        second: Part {
            entry: 0x1000,
            addr: 0x101f,
            size: 4,
            exec: false,
        },
        fault: OVERLAP,
    },
    Row {
        first: Part {
            entry: 0x1020,
            addr: 0x1020,
            size: 32,
            exec: true,
        },
        second: Part {
            entry: 0x1020,
            addr: 0x1000,
            size: 33,
            exec: false,
        },
        fault: OVERLAP,
    },
    Row {
        first: Part {
            entry: 0x1000,
            addr: 0x1000,
            size: 8,
            exec: true,
        },
        second: Part {
            entry: 0x1000,
            addr: 0x1000,
            size: 8,
            exec: true,
        },
        fault: OVERLAP,
    },
    // entries: not aligned, in data, past the end, and in two segments that touch
    Row {
        first: Part {
            entry: 0x1000,
            addr: 0x1000,
            size: 32,
            exec: true,
        },
        second: Part {
            entry: 0x1002,
            addr: 0x1020,
            size: 8,
            exec: true,
        },
        fault: ENTRY,
    },
    Row {
        first: Part {
            entry: 0x1000,
            addr: 0x1000,
            size: 32,
            exec: true,
        },
        second: Part {
            entry: 0x1020,
            addr: 0x1020,
            size: 8,
            exec: false,
        },
        fault: ENTRY,
    },
    Row {
        first: Part {
            entry: 0x1000,
            addr: 0x1000,
            size: 32,
            exec: true,
        },
        second: Part {
            entry: 0x1024,
            addr: 0x1020,
            size: 7,
            exec: true,
        },
        fault: ENTRY,
    },
    Row {
        first: Part {
            entry: 0x1000,
            addr: 0x1000,
            size: 6,
            exec: true,
        },
        second: Part {
            entry: 0x1004,
            addr: 0x1006,
            size: 2,
            exec: true,
        },
        fault: None,
    },
];

#[test]
fn loads_or_refuses(rt: HostRuntime) -> Result<(), Fail> {
    let alloc = rt.alloc();
    let config = small().ok_or("a config")?;
    for row in ROWS.iter() {
        let images = [image(alloc, row.first)?, image(alloc, row.second)?];
        assert_eq!(rt; load(alloc, &config, &images).err(), row.fault);
    }
    Ok(())
}

const FIRST: Part = Part {
    entry: 0x1004,
    addr: 0x1002,
    size: 6,
    exec: true,
};

const SECOND: Part = Part {
    entry: 0x1008,
    addr: 0x1008,
    size: 5,
    exec: true,
};

const THIRD: Part = Part {
    entry: 0x1004,
    addr: 0x1010,
    size: 8,
    exec: false,
};

/// A copy of what three images were loaded to.
fn three_loaded(alloc: Global, config: &Config) -> Result<Loaded, Fail>
    ensures { IfOk result (λ l. l.settings ≡ config.now) }
{
    let images = [
        image(alloc, FIRST)?,
        image(alloc, SECOND)?,
        image(alloc, THIRD)?,
    ];
    let loaded = load(alloc, config, &images)?;
    Ok(loaded.copy()?)
}

/// What is fetched at these addresses.
const FETCHES: [(u32, Option<u32>); 10] = [
    (0x0fff, None),
    (0x1000, None),
    (0x1001, None),
    (0x1002, Some(0x0000_00aa)),
    (0x1006, Some(0x00aa_0000)),
    (0x1009, Some(0)),
    (0x100a, None),
    (0x1010, None),
    (0x103e, None),
    (0xffff_ffff, None),
];

/// The first of these addresses at which something else is fetched.
fn wrong_fetch(loaded: &Loaded) -> Option<u32> {
    for (pc, wanted) in FETCHES.iter() {
        if loaded.fetch(*pc) != *wanted {
            return Some(*pc);
        }
    }
    None
}

/// The number of words, the words 0, 4 and 15, and where the cores 1 and 3 begin.
fn words_and_entries(loaded: &Loaded) -> (u32, [u32; 3], [u32; 2])
    requires { 15 < loaded.now.settings.ram / 4 }
{
    (
        loaded.config().words(),
        [
            loaded.word(WordAddr(0)),
            loaded.word(WordAddr(4)),
            loaded.word(WordAddr(15)),
        ],
        [loaded.entry(CoreId(1)), loaded.entry(CoreId(3))],
    )
}

#[test]
fn reads_what_was_loaded(rt: HostRuntime) -> Result<(), Fail> {
    let config = small().ok_or("a config")?;
    let loaded = three_loaded(rt.alloc(), &config)?;
    let seen = (words_and_entries(&loaded), wrong_fetch(&loaded));
    let wanted = (16, [0x00aa_0000, 0x0000_00aa, 0], [0x1008, 0x1004]);
    assert_eq!(rt; seen, (wanted, None));
    Ok(())
}

/// A file of that many bytes, all 11.
fn file(alloc: Global, size: usize) -> Result<List<u8>, AllocError> {
    Ok(List {
        items: vec![in alloc; 0x11; size]?,
    })
}

/// What raw files of these sizes are loaded to.
fn raw_loaded(alloc: Global, config: &Config, sizes: [usize; 2]) -> Result<Loaded, Fail>
    ensures { IfOk result (λ l. l.settings ≡ config.now) }
{
    let files = [file(alloc, sizes[0])?, file(alloc, sizes[1])?];
    let images = raw(alloc, config, &files)?;
    Ok(load(alloc, config, &images)?)
}

/// Where the second core begins, the word 1, and what is fetched from the second and from the third byte on.
fn seen_of_raw(loaded: &Loaded) -> (u32, u32, [Option<u32>; 2])
    requires { 1 < loaded.now.settings.ram / 4 }
{
    (
        loaded.entry(CoreId(1)),
        loaded.word(WordAddr(1)),
        [loaded.fetch(0x1001), loaded.fetch(0x1002)],
    )
}

#[test]
fn lays_raw_files(rt: HostRuntime) -> Result<(), Fail> {
    let config = small().ok_or("a config")?;
    let loaded = raw_loaded(rt.alloc(), &config, [5, 32])?;
    let seen = seen_of_raw(&loaded);
    assert_eq!(rt; seen, (0x1020, 0x0000_0011, [Some(0x1111_1111), None]));
    Ok(())
}

/// The fault of three raw files of these sizes.
fn fault_of_three(
    alloc: Global,
    config: &Config,
    sizes: [usize; 3],
) -> Result<Option<LoadFault>, Fail> {
    let files = [
        file(alloc, sizes[0])?,
        file(alloc, sizes[1])?,
        file(alloc, sizes[2])?,
    ];
    Ok(raw(alloc, config, &files).err())
}

/// The fault of two raw files of these sizes.
fn fault_of_two(
    alloc: Global,
    config: &Config,
    sizes: [usize; 2],
) -> Result<Option<LoadFault>, Fail> {
    let files = [file(alloc, sizes[0])?, file(alloc, sizes[1])?];
    Ok(raw(alloc, config, &files).err())
}

#[test]
fn refuses_raw_files_past_the_end(rt: HostRuntime) -> Result<(), Fail> {
    let alloc = rt.alloc();
    let config = small().ok_or("a config")?;
    assert_eq!(rt;
        fault_of_three(alloc, &config, [32, 32, 0])?,
        Some(LoadFault::Outside {
            image: 2,
            segment: 0
        })
    );
    assert_eq!(rt;
        fault_of_two(alloc, &config, [1, 33])?,
        Some(LoadFault::Outside {
            image: 1,
            segment: 0
        })
    );
    Ok(())
}

/// The fault of loading an empty raw file.
fn fault_of_empty(alloc: Global, config: &Config) -> Result<Option<LoadFault>, Fail> {
    let files = [file(alloc, 0)?];
    let images = raw(alloc, config, &files)?;
    Ok(load(alloc, config, &images).err())
}

#[test]
fn refuses_an_empty_raw_file(rt: HostRuntime) -> Result<(), Fail> {
    let alloc = rt.alloc();
    let config = small().ok_or("a config")?;
    let fault = fault_of_empty(alloc, &config)?.ok_or("not refused")?;
    assert_eq!(rt; fault, LoadFault::Entry { image: 0 });
    assert_eq!(rt; format!(in alloc; "{fault}")?.as_str(), "load 3 0");
    Ok(())
}
