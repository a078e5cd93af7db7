// An image: what of memory a file fills, and where its program begins.
use std::marker::Model;
use tcc_base::List;

/// Bytes that stand in a file: a part of it, which is not copied.
#[derive(Debug, Drop)]
pub struct Bytes<'a> {
    pub items: &'a [u8],
}

impl<'a> Model for Bytes<'a> {
    ghost use Rattle.std.specs.Prelude.{ℕ, List};

    ghost Value = { List ℕ };

    ghost view = { λ b. b.items.now };
}

/// A part of memory, `size` bytes from `addr` on: first `bytes`, of which there are at most `size`, and then zeros. It takes
/// the same memory whatever its size is.
#[derive(Debug, Drop)]
pub struct Segment<'a> {
    /// The index of its program header in the file; 0 in a raw image.
    pub index: u32,
    pub addr: u32,
    pub bytes: Bytes<'a>,
    pub size: u32,
    /// Whether its bytes may be fetched as instructions.
    pub exec: bool,
}

/// The segments of a file, in the order of their program headers, and the address at which its program begins. Their bytes are
/// the file's own.
#[derive(Debug, Drop)]
pub struct Image<'a> {
    pub entry: u32,
    pub segments: List<Segment<'a>>,
}
