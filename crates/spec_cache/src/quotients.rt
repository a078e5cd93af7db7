// Quotients and remainders by the numbers of ways, sets and directories: a division by a number that stands in the code costs a
// few steps, one by any number tens of them.
ghost use Rattle.std.specs.Prelude.{◌≡◌, ◌/◌, ◌%◌, ◌<◌};

use tcc_base::Config;

/// The set of a line: the last bits of its number, since the number of sets is a power of two.
pub(crate) fn set_of(line: u32, config: &Config) -> u16
    ensures { result ≡ line % config.now.sets }
{
    let mask = config.sets() as u32 - 1;
    (line & mask) as u16
}

/// The home of a line, of as many directories.
pub(crate) fn home_of(line: u32, dirs: u8) -> u8
    requires { 0 < dirs }
    ensures { result ≡ line % dirs }
{
    match dirs {
        1 => 0,
        2 => (line % 2) as u8,
        4 => (line % 4) as u8,
        8 => (line % 8) as u8,
        16 => (line % 16) as u8,
        32 => (line % 32) as u8,
        64 => (line % 64) as u8,
        _ => (line % dirs as u32) as u8,
    }
}

/// The set of a place, of sets of as many ways.
pub(crate) fn set_at(place: usize, ways: u8) -> usize
    requires { 0 < ways }
    ensures { result ≡ place / ways }
{
    match ways {
        1 => place,
        2 => place / 2,
        3 => place / 3,
        4 => place / 4,
        5 => place / 5,
        6 => place / 6,
        7 => place / 7,
        8 => place / 8,
        9 => place / 9,
        10 => place / 10,
        11 => place / 11,
        12 => place / 12,
        13 => place / 13,
        14 => place / 14,
        15 => place / 15,
        16 => place / 16,
        _ => place / ways as usize,
    }
}
