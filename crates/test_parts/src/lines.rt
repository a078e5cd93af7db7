// Both forms, and the type that a directory keeps, under the same calls.
ghost use Rattle.std.specs.Prelude.{◌<◌};
ghost use Rattle.dir_lines.specs.Home.{IsAtHome};

use dir_lines::{CoreSet, DirLines, LineRecord, Lines, MapLines, PageLines};
use std::test::Fail;
use tcc_base::{Config, CoreId, DirId, LineAddr, Mask, Tid};

const LOW: LineAddr = LineAddr(1);

const MIDDLE: LineAddr = LineAddr(5);

const HIGH: LineAddr = LineAddr(31);

// The number of marked lines, and the first three of them.
fn marked<L: Lines>(lines: &L) -> (u32, [Option<LineAddr>; 3]) {
    let first = [
        lines.marked_line(0),
        lines.marked_line(1),
        lines.marked_line(2),
    ];
    (lines.marked_lines(), first)
}

// Each change once, with what is read before, between and after.
fn story<L: Lines>(lines: &mut L) -> ([LineRecord; 4], [(u32, [Option<LineAddr>; 3]); 4])
    requires low { IsAtHome (L.place lines.old) 1 }
    requires middle { IsAtHome (L.place lines.old) 5 }
    requires high { IsAtHome (L.place lines.old) 31 }
    requires core { 2 < (L.place lines.old).shape.cores }
{
    let blank = lines.get(MIDDLE);
    let none = marked(lines);
    lines.set_shares(MIDDLE, CoreId(2), true);
    lines.set_shares(MIDDLE, CoreId(0), true);
    lines.set_shares(MIDDLE, CoreId(0), false);
    lines.set_owner(MIDDLE, Some(CoreId(2)));
    lines.set_tag(MIDDLE, Tid(9));
    lines.set_asked(MIDDLE, true);
    lines.set_mark(HIGH, Mask(1));
    lines.set_mark(LOW, Mask(2));
    lines.set_mark(MIDDLE, Mask(4));
    lines.set_mark(MIDDLE, Mask(6));
    let full = lines.get(MIDDLE);
    let three = marked(lines);
    lines.set_mark(MIDDLE, Mask(0));
    let two = marked(lines);
    let high = lines.get(HIGH);
    lines.clear_marks();
    let cleared = lines.get(HIGH);
    (
        [blank, full, high, cleared],
        [none, three, two, marked(lines)],
    )
}

#[test]
fn both_forms_tell_the_same_story(rt: HostRuntime) -> Result<(), Fail> {
    let home = DirId(1);
    if let Ok(cfg) = Config::new(4, 2, 1, 1, 0, 1024)
        && let Ok(mut pages) = PageLines::new(rt.alloc(), &cfg, home)
        && let Ok(mut map) = MapLines::new(rt.alloc(), &cfg, home)
    {
        let (records, marks) = story(&mut pages);
        assert!(rt; (records, marks) == story(&mut map));
        assert!(rt;
            marks
                == [
                    (0, [None, None, None]),
                    (3, [Some(LOW), Some(MIDDLE), Some(HIGH)]),
                    (2, [Some(LOW), Some(HIGH), None]),
                    (0, [None, None, None]),
                ]
        );
        assert!(rt; records[0] == LineRecord::blank() && records[3] == LineRecord::blank());
        assert!(rt; records[1].sharers.0 == 4 && records[1].owner == Some(CoreId(2)));
        assert!(rt; records[1].tag == Tid(9) && records[1].asked && records[1].mark == Mask(6));
        return Ok(());
    }
    assert!(rt; false, "no memory");
    Ok(())
}

#[test]
fn a_directory_reads_what_it_wrote(rt: HostRuntime) -> Result<(), Fail> {
    if let Ok(cfg) = Config::new(4, 2, 1, 1, 0, 1024)
        && let Ok(mut lines) = DirLines::new(rt.alloc(), &cfg, DirId(1))
    {
        lines.set_shares(MIDDLE, CoreId(3), true);
        lines.set_owner(MIDDLE, Some(CoreId(3)));
        lines.set_tag(MIDDLE, Tid(4));
        lines.set_asked(MIDDLE, true);
        lines.set_mark(MIDDLE, Mask(255));
        assert!(rt; lines.shares(MIDDLE, CoreId(3)) && !lines.shares(MIDDLE, CoreId(2)));
        assert!(rt; lines.owner(MIDDLE) == Some(CoreId(3)) && lines.owner(LOW).is_none());
        assert!(rt; lines.tag(MIDDLE) == Tid(4) && lines.asked(MIDDLE));
        assert!(rt; lines.mark(MIDDLE) == Mask(255) && lines.marked_lines() == 1);
        assert!(rt; lines.marked_line(0) == Some(MIDDLE));
        lines.clear_marks();
        assert!(rt; lines.mark(MIDDLE) == Mask(0));
        return Ok(());
    }
    assert!(rt; false, "no memory");
    Ok(())
}

// Gives so many lines this mark, from the highest one down, as far as they are at home.
fn mark_down(lines: &mut DirLines, highest: u32, step: u32, count: u32, mark: Mask) {
    let mut line = LineAddr(highest);
    for _ in 0..count {
        if lines.has_line(line) {
            lines.set_mark(line, mark);
        }
        line = LineAddr(line.0.saturating_sub(step));
    }
}

// The number of marked lines, and of these the first, the second and the one at that place.
fn ends(lines: &DirLines, last: usize) -> (u32, [Option<LineAddr>; 3]) {
    let some = [
        lines.marked_line(0),
        lines.marked_line(1),
        lines.marked_line(last),
    ];
    (lines.marked_lines(), some)
}

#[test]
fn thousands_of_marks_in_falling_order(rt: HostRuntime) -> Result<(), Fail> {
    if let Ok(cfg) = Config::new(4, 2, 1, 1, 0, 262_144)
        && let Ok(mut lines) = DirLines::new(rt.alloc(), &cfg, DirId(1))
    {
        mark_down(&mut lines, 8_191, 2, 4_000, Mask(3));
        let all = ends(&lines, 3_999);
        mark_down(&mut lines, 8_191, 4, 2_000, Mask(0));
        let half = ends(&lines, 1_999);
        lines.clear_marks();
        let none = ends(&lines, 0);
        mark_down(&mut lines, 9, 4, 2, Mask(1));
        assert!(rt;
            all == (
                4_000,
                [
                    Some(LineAddr(193)),
                    Some(LineAddr(195)),
                    Some(LineAddr(8_191))
                ]
            )
        );
        assert!(rt;
            half == (
                2_000,
                [
                    Some(LineAddr(193)),
                    Some(LineAddr(197)),
                    Some(LineAddr(8_189))
                ]
            )
        );
        assert!(rt; none == (0, [None, None, None]));
        assert!(rt; ends(&lines, 2) == (2, [Some(LineAddr(5)), Some(LineAddr(9)), None]));
        return Ok(());
    }
    assert!(rt; false, "no memory");
    Ok(())
}

// What a core's commit left of a line.
const COMMITTED: LineRecord = LineRecord {
    sharers: CoreSet(0b1010),
    owner: Some(CoreId(3)),
    tag: Tid(9),
    asked: true,
    mark: Mask(6),
};

#[test]
fn a_restored_line_goes_on_as_its_original(rt: HostRuntime) -> Result<(), Fail> {
    if let Ok(cfg) = Config::new(4, 2, 1, 1, 0, 1024)
        && let Ok(mut lines) = DirLines::new(rt.alloc(), &cfg, DirId(1))
        && let Ok(mut copy) = DirLines::new(rt.alloc(), &cfg, DirId(1))
    {
        assert_eq!(rt; lines.home(), DirId(1));
        lines.own(MIDDLE, CoreId(3), Tid(9));
        lines.set_shares(MIDDLE, CoreId(1), true);
        lines.set_asked(MIDDLE, true);
        lines.set_mark(MIDDLE, Mask(6));
        assert!(rt; lines.get(MIDDLE) == COMMITTED);
        copy.restore(MIDDLE, lines.get(MIDDLE));
        copy.keeps_home();
        assert!(rt; copy.get(MIDDLE) == COMMITTED && copy.get(LOW) == LineRecord::blank());
        assert!(rt; copy.marked_lines() == 1 && copy.marked_line(0) == Some(MIDDLE));
        copy.clear_marks();
        lines.clear_marks();
        assert!(rt; copy.get(MIDDLE) == lines.get(MIDDLE));
        copy.restore(MIDDLE, LineRecord::blank());
        assert!(rt; copy.get(MIDDLE) == LineRecord::blank());
        return Ok(());
    }
    assert!(rt; false, "no memory");
    Ok(())
}

#[test]
fn a_record_fits_the_cores_that_it_names(rt: HostRuntime) {
    let high = CoreSet(1 << 63);
    for (sharers, owner, cores, fits) in [
        (CoreSet(0b1010), Some(CoreId(3)), 4, true),
        (CoreSet(0b1010), Some(CoreId(3)), 3, false),
        (CoreSet(0b1010), None, 4, true),
        (CoreSet(0b1010), None, 3, false),
        (CoreSet(0b0010), Some(CoreId(3)), 3, false),
        (CoreSet(0), None, 0, true),
        (high, None, 64, true),
        (high, None, 63, false),
    ] {
        let record = LineRecord {
            sharers,
            owner,
            ..COMMITTED
        };
        assert_eq!(rt; record.fits(cores), fits, "{cores}");
    }
}
