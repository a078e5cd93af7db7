// What a transaction loads, stores and leaves behind.
ghost use Rattle.std.specs.Prelude.{◌≡◌};
ghost use Rattle.tcc_base.specs.Bytes.{bytes_of};

use crate::collections::List;
use crate::names::{CoreId, LineAddr, Mask, Tid};

/// How many bytes a load or a store acts on: one, two or four.
#[derive(Clone, Copy, Debug, PartialEq, Eq)]
pub enum Size {
    Byte,
    Half,
    Word,
}

impl Size {
    /// The number of bytes: 1, 2 or 4.
    pub fn bytes(self) -> u32
        ensures { result ≡ bytes_of self }
    {
        match self {
            Size::Byte => 1,
            Size::Half => 2,
            Size::Word => 4,
        }
    }
}

/// A load that an instruction finished: `value` holds the bytes read, with zeros above.
#[derive(Clone, Copy, Debug, PartialEq, Eq)]
pub struct Load {
    pub addr: u32,
    pub size: Size,
    pub value: u32,
}

/// A store that an instruction finished: `value` holds the bytes written, with zeros above.
#[derive(Clone, Copy, Debug, PartialEq, Eq)]
pub struct Stored {
    pub addr: u32,
    pub size: Size,
    pub value: u32,
}

/// Some words of a line with the TID of the commit that wrote them. Words outside the mask are zero.
#[derive(Clone, Copy, Debug, PartialEq, Eq)]
pub struct Tagged {
    pub line: LineAddr,
    pub mask: Mask,
    pub words: [u32; 8],
    pub tag: Tid,
}

/// A committed transaction: `n` instructions of `core`, what they loaded and stored in order, and their console bytes.
#[derive(Debug, Drop)]
pub struct Commit {
    pub tid: Tid,
    pub core: CoreId,
    pub n: u32,
    pub loads: List<Load>,
    pub stores: List<Stored>,
    pub console: List<u8>,
}

/// How a core stands: it runs, or a committed transaction halted it with a code or by a trap.
#[derive(Clone, Copy, Debug, PartialEq, Eq)]
pub enum CoreEnd {
    Run,
    Halt(u32),
    Trap(u8),
}
