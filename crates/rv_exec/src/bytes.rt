// The bytes of a word: which an access reads, and the word in which it replaced them.
ghost use Rattle.std.specs.Prelude.{◌≡◌, ℕ, ◌<◌, ◌%◌};
ghost use Rattle.tcc_base.specs.Bytes.{bytes_of};
ghost use Rattle.rules_program.specs.Ram.{unit_of, part, patched};

use tcc_base::Size;

#[tactic(auto, unfolding(rules_program::specs::Ram::unit_of))]
fn unit(addr: u32) -> u32
    ensures value { result ≡ unit_of addr }
    ensures positive { 0 < result }
{
    match addr % 4 {
        0 => 1,
        1 => 256,
        2 => 65_536,
        _ => 16_777_216,
    }
}

/// The bytes of a word from an address on, with zeros above. Takes no memory.
#[tactic(auto, unfolding(rules_program::specs::Ram::part))]
pub fn read(word: u32, addr: u32, size: Size) -> u32
    ensures { result ≡ part word addr size }
{
    let rest = word / unit(addr);
    match size {
        Size::Byte => rest % 256,
        Size::Half => rest % 65_536,
        Size::Word => rest,
    }
}

/// The word in which the bytes from an address on are those of a value. Takes no memory.
#[tactic(auto, unfolding(rules_program::specs::Ram::patched))]
pub fn replace(word: u32, addr: u32, size: Size, value: u32) -> u32
    requires { addr % bytes_of size ≡ 0 }
    ensures { result ≡ patched word addr size value }
{
    let unit = unit(addr) as u64;
    let span = match size {
        Size::Byte => 256u64,
        Size::Half => 65_536,
        Size::Word => 0x1_0000_0000,
    };
    let above = unit * span;
    let word = word as u64;
    (word % unit + value as u64 % span * unit + word / above * above) as u32
}
