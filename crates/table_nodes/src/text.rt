// The numbers of a line, each behind the text that stands before it.
use std::alloc::AllocError;

/// A number in decimal digits.
pub fn push_number(text: &mut String, before: &str, n: u64) -> Result<(), AllocError> {
    write!(text, "{before}{n}")
}

/// A number in hexadecimal digits.
pub fn push_hex(text: &mut String, before: &str, n: u32) -> Result<(), AllocError> {
    write!(text, "{before}{n:x}")
}

/// A number in eight hexadecimal digits.
pub fn push_address(text: &mut String, before: &str, n: u32) -> Result<(), AllocError> {
    write!(text, "{before}{n:08x}")
}

/// A number in two hexadecimal digits.
pub fn push_byte(text: &mut String, before: &str, n: u8) -> Result<(), AllocError> {
    write!(text, "{before}{n:02x}")
}
