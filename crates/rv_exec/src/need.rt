// What an instruction asks of its machine before it is finished.
use rv_decode::AmoOp;
use tcc_base::Size;

/// What an instruction needs of its machine before it is finished.
///
/// Addresses are in bytes. The value of a store has zeros above its bytes. An `Amo` loads a word and stores what `amo_value`
/// makes of it and of `value`.
#[derive(Clone, Copy, Debug, PartialEq, Eq)]
pub enum Need {
    Nothing,
    Load { addr: u32, size: Size },
    Store { addr: u32, size: Size, value: u32 },
    Amo { addr: u32, op: AmoOp, value: u32 },
    Console(u8),
    End,
    Halt(u32),
    Trap(u8),
}
