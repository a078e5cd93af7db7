// The words of a line, read one after the other. Where a word isn't what is asked for, the answer is None.
use std::str::SplitWhitespace;
use tcc_base::{CoreId, DirId, LineAddr, Mask, NodeId, Tid};

/// What is left of a line.
#[derive(Drop)]
pub struct Words<'a> {
    rest: SplitWhitespace<'a>,
}

impl<'a> Words<'a> {
    pub fn of(line: &'a str) -> Words<'a> {
        Words {
            rest: line.split_whitespace(),
        }
    }

    /// The next word.
    pub fn word(&mut self) -> Option<&'a str> {
        self.rest.next()
    }

    /// Whether no word is left.
    pub fn is_at_end(&mut self) -> bool {
        self.rest.next().is_none()
    }

    pub fn number(&mut self) -> Option<u64> {
        number(self.word()?)
    }

    pub fn hex(&mut self) -> Option<u32> {
        hex(self.word()?)
    }

    pub fn node(&mut self) -> Option<NodeId> {
        node(self.word()?)
    }

    pub fn core(&mut self) -> Option<CoreId> {
        Some(CoreId(self.way()?))
    }

    pub fn tid(&mut self) -> Option<Tid> {
        Some(Tid(self.number()?))
    }

    pub fn line(&mut self) -> Option<LineAddr> {
        Some(LineAddr(self.count()?))
    }

    /// A number below 2^32.
    pub fn count(&mut self) -> Option<u32> {
        u32::try_from(self.number()?).ok()
    }

    /// A number below 2^16.
    pub fn set(&mut self) -> Option<u16> {
        u16::try_from(self.number()?).ok()
    }

    /// A number below 2^8.
    pub fn way(&mut self) -> Option<u8> {
        small(self.word()?)
    }

    /// A mask, in hexadecimal digits.
    pub fn mask(&mut self) -> Option<Mask> {
        Some(Mask(u8::try_from(self.hex()?).ok()?))
    }

    /// The eight words of a line, in hexadecimal digits.
    pub fn eight(&mut self) -> Option<[u32; 8]> {
        let mut words = [0u32; 8];
        for word in words.iter_mut() {
            *word = self.hex()?;
        }
        Some(words)
    }
}

fn number(word: &str) -> Option<u64> {
    word.parse::<u64>().ok()
}

fn small(word: &str) -> Option<u8> {
    word.parse::<u8>().ok()
}

/// A number of at most eight hexadecimal digits, in lower case.
fn hex(word: &str) -> Option<u32> {
    if word.len() > 8 {
        return None;
    }
    let mut value = 0u32;
    for byte in word.bytes() {
        value = value.wrapping_mul(16) | digit(byte)?;
    }
    Some(value)
}

fn digit(byte: u8) -> Option<u32> {
    match byte {
        b'0'..=b'9' => Some(u32::from(byte - b'0')),
        b'a'..=b'f' => Some(u32::from(byte - b'a') + 10),
        _ => None,
    }
}

/// A node: `c3` is core 3, `d0` directory 0, `v` the vendor.
pub fn node(word: &str) -> Option<NodeId> {
    if word == "v" {
        return Some(NodeId::Vendor);
    }
    if let Some(core) = word.strip_prefix('c') {
        return Some(NodeId::Core(CoreId(small(core)?)));
    }
    if let Some(dir) = word.strip_prefix('d') {
        return Some(NodeId::Dir(DirId(small(dir)?)));
    }
    None
}
