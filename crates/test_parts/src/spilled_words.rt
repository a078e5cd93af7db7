// Each call of a buffer once, with ample memory.
use overflow_buf::OverflowBuf;
use std::alloc::Global;
use std::test::Fail;
use tcc_base::{LineAddr, Mask, NoMemory, Tagged, Tid, WordAddr};

#[test]
fn words_are_kept_and_handed_out(rt: HostRuntime) -> Result<(), Fail> {
    let mut buf = OverflowBuf::new(rt.alloc());
    buf.spill(LineAddr(3), Mask(0b101), &[1, 2, 3, 4, 5, 6, 7, 8])?;
    buf.spill(LineAddr(3), Mask(0b10), &[0, 20, 0, 0, 0, 0, 0, 0])?;
    buf.put(WordAddr(8), 9)?;
    assert_eq!(rt; buf.get(WordAddr(24)), Some(1));
    assert_eq!(rt; buf.get(WordAddr(25)), Some(20));
    assert_eq!(rt; buf.get(WordAddr(27)), None);
    assert!(rt; buf.holds(LineAddr(1)));
    assert!(rt; !buf.holds(LineAddr(2)));
    assert_eq!(rt; buf.mask(LineAddr(3)), Mask(0b111));
    assert_eq!(rt; buf.mask(LineAddr(2)), Mask(0));
    assert!(rt; !buf.is_empty());
    let first = Tagged {
        line: LineAddr(1),
        mask: Mask(1),
        words: [9, 0, 0, 0, 0, 0, 0, 0],
        tag: Tid(5),
    };
    let second = Tagged {
        line: LineAddr(3),
        mask: Mask(0b111),
        words: [1, 20, 3, 0, 0, 0, 0, 0],
        tag: Tid(5),
    };
    assert_eq!(rt; buf.line(LineAddr(1), Tid(5)), first);
    assert_eq!(rt; buf.line(LineAddr(3), Tid(5)), second);
    assert_eq!(rt; buf.take_line(), Some((LineAddr(1), Mask(1))));
    assert!(rt; !buf.holds(LineAddr(1)));
    assert!(rt; buf.holds(LineAddr(3)));
    buf.clear();
    assert!(rt; !buf.holds(LineAddr(3)));
    assert!(rt; buf.is_empty());
    assert_eq!(rt; buf.take_line(), None);
    Ok(())
}

#[test]
fn lines_are_read_by_number(rt: HostRuntime) -> Result<(), Fail> {
    let mut buf = OverflowBuf::new(rt.alloc());
    buf.spill(LineAddr(3), Mask(0b101), &[1, 2, 3, 4, 5, 6, 7, 8])?;
    assert_eq!(rt; buf.len(), 1);
    assert_eq!(rt;
        buf.entry(0),
        Some((LineAddr(3), Mask(0b101), [1, 2, 3, 4, 5, 6, 7, 8]))
    );
    assert_eq!(rt; buf.entry(1), None);
    Ok(())
}

/// A buffer that keeps the same, line by line.
fn copied(alloc: Global, buf: &OverflowBuf) -> Result<OverflowBuf, NoMemory> {
    let mut other = OverflowBuf::new(alloc);
    for line in &buf.lines()? {
        let kept = buf.line(LineAddr(*line), Tid(0));
        other.spill(kept.line, kept.mask, &kept.words)?;
    }
    Ok(other)
}

#[test]
fn a_buffer_is_made_line_by_line(rt: HostRuntime) -> Result<(), Fail> {
    let mut buf = OverflowBuf::new(rt.alloc());
    buf.spill(LineAddr(3), Mask(0b101), &[1, 2, 3, 4, 5, 6, 7, 8])?;
    buf.put(WordAddr(9), 7)?;
    let copy = copied(rt.alloc(), &buf)?;
    assert_eq!(rt;
        (copy.mask(LineAddr(1)), copy.mask(LineAddr(3))),
        (Mask(0b10), Mask(0b101))
    );
    assert_eq!(rt;
        (copy.get(WordAddr(9)), copy.get(WordAddr(26))),
        (Some(7), Some(3))
    );
    assert_eq!(rt; (copy.get(WordAddr(25)), copy.lines()?.len()), (None, 2));
    Ok(())
}
