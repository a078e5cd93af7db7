// The bus: who has it, and the packet that is on it.
ghost use Rattle.std.specs.Prelude.{◌≡◌, ◌<◌, ◌≤◌, ◌%◌, ◌^◌, [], false, not, nat_lt, filter, length, option_map, slice_get, if◌then◌else◌};
ghost use Rattle.rules_tcc.specs.Seen.{numbers};
ghost use Rattle.tcc_base.specs.Put.{put};
ghost use Rattle.rules_maps.specs.Masks.{has};
ghost use Rattle.rules_maps.specs.Words.{any_below};
ghost use Rattle.core_node.specs.AtHand.{words_in};
ghost use Rattle.bus_tcc.specs.Left.{is_left, number_of, packet_words, without_core};
ghost use Rattle.bus_tcc.specs.Packets.{lines_on};
ghost use Rattle.rules_bus.specs.Useful.{is_packet};
ghost use Rattle.bus_tcc.specs.Machine.{bus_of, is_free};

use crate::seeking::nth_one;
use commit_engine::DirSet;
use tcc_base::{CoreId, DirId, List, Tagged};

/// A set of cores: bit `c` of `bits` stands for core `c`.
#[derive(Clone, Copy, Debug, PartialEq, Eq)]
pub struct CoreSet {
    pub bits: u64,
}

impl CoreSet {
    /// All cores below a number.
    pub fn below(count: u8) -> CoreSet
        requires { count ≤ 64 }
        ensures { has result.bits ≡ (λ c. nat_lt c count) }
    {
        CoreSet {
            bits: DirSet::below(count).bits,
        }
    }

    /// Whether the core is in the set.
    pub fn contains(self, core: CoreId) -> bool
        requires { core.0 < 64 }
        ensures { result ≡ has self.bits core.0 }
    {
        DirSet { bits: self.bits }.contains(DirId(core.0))
    }

    /// The set without the core.
    pub fn without(self, core: CoreId) -> CoreSet
        requires { core.0 < 64 }
        ensures { has result.bits ≡ put (has self.bits) core.0 false }
    {
        CoreSet {
            bits: DirSet { bits: self.bits }.without(DirId(core.0)).bits,
        }
    }

    /// Whether none of the cores below a number is in the set.
    pub fn is_empty_below(self, count: u8) -> bool
        requires { count ≤ 64 }
        ensures { result ≡ not (any_below (has self.bits) count) }
    {
        DirSet { bits: self.bits }.is_empty_below(count)
    }

    /// The bits of the cores below a number.
    fn bits_below(self, count: u8) -> u64
        requires { count ≤ 64 }
        ensures { result ≡ self.bits % 2 ^ count }
    {
        if count == 64 {
            self.bits
        } else {
            self.bits % (1 << count)
        }
    }

    /// How many of the cores below a number are in the set. It takes constant time.
    pub fn count_below(self, count: u8) -> u8
        requires { count ≤ 64 }
        ensures { result ≡ length (filter (has self.bits) (numbers count)) }
    {
        self.bits_below(count).count_ones() as u8
    }

    /// The k-th of them, from 0; None exactly where there are no more than k. It takes constant time.
    pub fn nth_below(self, count: u8, k: u64) -> Option<CoreId>
        requires { count ≤ 64 }
        ensures { option_map number_of result ≡ slice_get (filter (has self.bits) (numbers count)) k }
    {
        let below = u64::from(self.count_below(count));
        if k >= below {
            return None;
        }
        Some(CoreId(nth_one(self.bits, k)))
    }
}

/// What a commit wrote, line by line, and the cores that haven't taken it.
#[derive(Debug, Drop)]
pub struct Packet {
    pub lines: List<Tagged>,
    pub left: CoreSet,
}

/// Who has the bus.
#[derive(Debug, Drop)]
pub enum Bus {
    Free,
    /// This core executes alone.
    Alone(CoreId),
    /// The cores that are left take this packet.
    Packet(Packet),
}

impl Bus {
    /// Whether a packet is on it.
    pub fn is_packet(&self) -> bool
        ensures { result ≡ is_packet (bus_of self.now) }
    {
        match self {
            Bus::Packet(_) => true,
            Bus::Free | Bus::Alone(_) => false,
        }
    }

    /// Whether nobody has it.
    pub fn is_free(&self) -> bool
        ensures { result ≡ is_free (bus_of self.now) }
    {
        match self {
            Bus::Free => true,
            Bus::Alone(_) | Bus::Packet(_) => false,
        }
    }

    /// Whether the core is still to take the packet that is on it.
    pub fn is_left(&self, core: CoreId) -> bool
        requires { core.0 < 64 }
        ensures { result ≡ is_left (bus_of self.now) core.0 }
    {
        match self {
            Bus::Packet(packet) => packet.left.contains(core),
            Bus::Free | Bus::Alone(_) => false,
        }
    }

    /// How many of the cores below a number are still to take the packet that is on it. It takes constant time.
    pub fn left_count(&self, count: u8) -> u8
        requires { count ≤ 64 }
        ensures { result ≡ length (filter (is_left (bus_of self.now)) (numbers count)) }
    {
        match self {
            Bus::Packet(packet) => packet.left.count_below(count),
            Bus::Free => 0,
            Bus::Alone(_) => 0,
        }
    }

    /// The k-th of them, from 0; None exactly where there are no more than k. It takes constant time.
    pub fn left_at(&self, count: u8, k: u64) -> Option<CoreId>
        requires { count ≤ 64 }
        ensures { option_map number_of result ≡ slice_get (filter (is_left (bus_of self.now)) (numbers count)) k }
    {
        match self {
            Bus::Packet(packet) => packet.left.nth_below(count, k),
            Bus::Free => None,
            Bus::Alone(_) => None,
        }
    }

    /// The lines of the packet that is on it; none where there is none.
    pub fn lines(&self) -> &[Tagged]
        ensures words { words_in result.now ≡ packet_words (bus_of self.now) }
        ensures lines { result.now ≡ lines_on self.now }
    {
        match self {
            Bus::Packet(packet) => lines_of(packet),
            Bus::Free => &[],
            Bus::Alone(_) => &[],
        }
    }

    /// The core has taken the packet that is on it, of so many cores; once all have it is free.
    pub fn leave(&mut self, core: CoreId, cores: u8)
        requires exists { core.0 < 64 }
        requires few { cores ≤ 64 }
        ensures bus { bus_of self.new ≡ without_core core.0 cores (bus_of self.old) }
        ensures lines { lines_on self.new ≡ (if is_free (bus_of self.new) then [] else lines_on self.old) }
    {
        let empty = match self {
            Bus::Packet(packet) => packet.leave(core, cores),
            Bus::Free | Bus::Alone(_) => false,
        };
        if empty {
            *self = Bus::Free;
        }
    }
}

impl Packet {
    /// The core has taken it, of so many cores. Says whether all have.
    fn leave(&mut self, core: CoreId, cores: u8) -> bool
        requires exists { core.0 < 64 }
        requires few { cores ≤ 64 }
        ensures lines { self.new.lines ≡ self.old.lines }
        ensures left { has self.new.left.bits ≡ put (has self.old.left.bits) core.0 false }
        ensures empty { result ≡ not (any_below (has self.new.left.bits) cores) }
    {
        self.left = self.left.without(core);
        self.left.is_empty_below(cores)
    }
}

/// The lines of a packet.
fn lines_of(packet: &Packet) -> &[Tagged]
    ensures { result.now ≡ packet.now.lines }
{
    &packet.lines.items
}
