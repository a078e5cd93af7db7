// Why a text isn't read.
ghost use Rattle.std.specs.Prelude.{◌≡◌};
ghost use Rattle.schedule_text.specs.declared.fault.TextFault.TheVariants.{Memory};

use tcc_base::NoMemory;

/// Why a text isn't read.
#[derive(Clone, Copy, Debug, PartialEq, Eq)]
pub enum TextFault {
    /// The first line, counted from 1, that the grammar doesn't allow in its place.
    Line(u64),
    /// There wasn't enough memory.
    Memory,
}

impl From<NoMemory> for TextFault {
    ghost from_gives = { λ _ e. e ≡ Memory };

    fn from(_: NoMemory) -> TextFault {
        TextFault::Memory
    }
}
