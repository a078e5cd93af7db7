// The instructions of RV32IMA: the table of their encodings, and decoding and encoding, which are that table both ways.
#![tactic(auto)]

mod decoding;
mod encoding;
mod fields;
mod formats;
mod instruction;
mod laws;

pub use decoding::decode;
pub use encoding::encode;
pub use instruction::{AmoOp, Cond, ImmOp, Inst, LoadKind, RegOp};
pub use laws::table_is_a_function_of_the_word;
