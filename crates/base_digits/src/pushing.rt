// What was written backwards, appended to a text. After want of memory a part of it may stand there.
ghost use Rattle.std.specs.Prelude.{◌≡◌, ◌≤◌, ◌++◌, drop, OnOk, IsAscii, string_bytes};
ghost use Rattle.std.specs.Fmt.{decimal};
ghost use Rattle.base_digits.specs.Digits.{hex};

use crate::backwards::{ROOM, put_hex, put_hex_byte, put_number};
use std::alloc::AllocError;

/// Appends what stands from `start` on.
#[inline(always)]
pub fn push_from(text: &mut String, line: &[u8; ROOM], start: usize) -> Result<(), AllocError>
    requires { (start ≤ 56) × IsAscii (drop start line.now) }
    ensures { OnOk result (string_bytes text.new ≡ string_bytes text.old ++ drop start line.now) }
{
    text.push_str(unsafe { std::str::from_utf8_unchecked(&line[start..]) })
}

/// Appends a decimal number without leading zeros.
pub fn push_decimal(text: &mut String, number: u64) -> Result<(), AllocError>
    ensures { OnOk result (string_bytes text.new ≡ string_bytes text.old ++ decimal number) }
{
    let mut line = [0; ROOM];
    let start = put_number(number, &mut line, ROOM);
    push_from(text, &line, start)
}

/// Appends a byte in two hexadecimal digits.
pub fn push_hex_byte(text: &mut String, byte: u8) -> Result<(), AllocError>
    ensures { OnOk result (string_bytes text.new ≡ string_bytes text.old ++ hex 2 byte) }
{
    let mut line = [0; ROOM];
    let start = put_hex_byte(byte, &mut line, ROOM);
    push_from(text, &line, start)
}

/// Appends a word in eight hexadecimal digits.
pub fn push_hex(text: &mut String, value: u32) -> Result<(), AllocError>
    ensures { OnOk result (string_bytes text.new ≡ string_bytes text.old ++ hex 8 value) }
{
    let mut line = [0; ROOM];
    let start = put_hex(value, &mut line, ROOM);
    push_from(text, &line, start)
}
