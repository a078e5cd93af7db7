// Rows of numbers: written, read back, and spellings that are refused.
use row_text::{
    begin_row, end, end_row, number, push_number, push_row, read_decimal, read_row, word,
};
use std::test::Fail;
use tcc_base::List;

#[test]
fn rows_are_written_whole_and_in_pieces(rt: HostRuntime) -> Result<(), Fail> {
    let mut text = List::new(rt.alloc());
    push_row(&mut text, b"core", &[3, 2_147_483_648, 0, 17])?;
    begin_row(&mut text, b"mem-0")?;
    push_number(&mut text, 18_446_744_073_709_551_615)?;
    end_row(&mut text)?;
    push_row(&mut text, b"end", &[])?;
    assert_eq!(rt;
        text.items.as_slice(),
        b"core 3 2147483648 0 17\nmem-0 18446744073709551615\nend\n".as_slice()
    );
    Ok(())
}

#[test]
fn a_row_is_read_field_by_field(rt: HostRuntime) -> Result<(), Fail> {
    let (name, rest) = word(b"core 3 2147483648\nend\n").ok_or("no word")?;
    assert_eq!(rt; name, b"core".as_slice());
    let (first, rest) = number(rest).ok_or("no number")?;
    let (second, rest) = number(rest).ok_or("no second number")?;
    assert_eq!(rt; first, 3);
    assert_eq!(rt; second, 2_147_483_648);
    assert!(rt; number(rest).is_none());
    assert_eq!(rt; end(rest).ok_or("no end")?, b"end\n".as_slice());
    Ok(())
}

#[test]
fn a_row_of_known_length_is_read_whole(rt: HostRuntime) -> Result<(), Fail> {
    let mut numbers = [0; 2];
    let rest = read_row(b"last 7 18446744073709551615\nend\n", b"last", &mut numbers);
    assert_eq!(rt; rest.ok_or("not read")?, b"end\n".as_slice());
    assert_eq!(rt;
        numbers.as_slice(),
        [7, 18_446_744_073_709_551_615].as_slice()
    );
    Ok(())
}

#[test]
fn other_spellings_are_refused(rt: HostRuntime) -> Result<(), Fail> {
    for text in [
        "last 7\n",
        "last 7 8 9\n",
        "last 7 08\n",
        "last 7 +8\n",
        "last 7  8\n",
        "last  7 8\n",
        " last 7 8\n",
        "last 7 8 \n",
        "last 7 8\r\n",
        "last 7 8",
        "last 7 18446744073709551616\n",
        "last 7 x\n",
        "lasts 7 8\n",
        "Last 7 8\n",
        "",
    ] {
        let mut numbers = [0; 2];
        let read = read_row(text.as_bytes(), b"last", &mut numbers);
        assert!(rt; read.is_none(), "{text}");
    }
    for text in ["", " core", "c_re 1", "cöre"] {
        assert!(rt; word(text.as_bytes()).is_none(), "{text}");
    }
    for (text, want) in [
        ("0", Some(0)),
        ("10", Some(10)),
        ("00", None),
        ("+1", None),
        ("-1", None),
        ("", None),
        ("18446744073709551616", None),
    ] {
        assert_eq!(rt; read_decimal(text), want, "{text}");
    }
    Ok(())
}
