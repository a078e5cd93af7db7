// Lines of a text, written from their last byte to their first into a place of fixed size: words, numbers in decimal digits, and bytes and
// words of memory in hexadecimal ones.
#![tactic(auto)]

mod backwards;
mod pushing;

pub use backwards::{
    ROOM, put_byte, put_field, put_hex, put_hex_byte, put_hex_field, put_number, put_small,
    put_small_field, put_word,
};
pub use pushing::{push_decimal, push_from, push_hex, push_hex_byte};
