// The numbers by which nodes, transactions, lines and words are known, each a type of its own.

/// A core's number, from 0.
#[derive(Clone, Copy, Debug, PartialEq, Eq, PartialOrd, Ord, Hash)]
pub struct CoreId(pub u8);

/// A directory's number, from 0.
#[derive(Clone, Copy, Debug, PartialEq, Eq, PartialOrd, Ord, Hash)]
pub struct DirId(pub u8);

/// A node of the machine. Nodes are ordered: cores by number, directories by number, the vendor.
#[derive(Clone, Copy, Debug, PartialEq, Eq, PartialOrd, Ord, Hash)]
pub enum NodeId {
    Core(CoreId),
    Dir(DirId),
    Vendor,
}

/// A transaction's identifier, from 1: its place in the order in which transactions commit.
#[derive(Clone, Copy, Debug, PartialEq, Eq, PartialOrd, Ord, Hash)]
pub struct Tid(pub u64);

/// The number of a line of 32 bytes, from 0 at the RAM's base.
#[derive(Clone, Copy, Debug, PartialEq, Eq, PartialOrd, Ord, Hash)]
pub struct LineAddr(pub u32);

/// The number of a word of four bytes, from 0 at the RAM's base.
#[derive(Clone, Copy, Debug, PartialEq, Eq, PartialOrd, Ord, Hash)]
pub struct WordAddr(pub u32);

/// Which of a line's eight words are meant: bit i stands for word i.
#[derive(Clone, Copy, Debug, PartialEq, Eq, PartialOrd, Ord, Hash)]
pub struct Mask(pub u8);
