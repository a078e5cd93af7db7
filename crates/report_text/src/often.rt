// The lines of commits, loads and words of RAM, of which a report may have thousands: each is written from its last byte to its first.
ghost use Rattle.std.specs.Prelude.{◌≡◌, ◌≤◌, drop, IsAscii};
ghost use Rattle.report_text.specs.Lines.{newline, commit_line, load_line, mem_line};

use base_digits::{ROOM, put_field, put_hex, put_hex_field, put_number, put_small_field, put_word};
use tcc_base::{Commit, Load};

/// Ends the line. Gives where the line feed is.
#[inline(always)]
fn put_end(line: &mut [u8; ROOM]) -> usize
    ensures at { result ≡ 55 }
    ensures written { drop result line.new ≡ newline }
{
    put_word(b"\n", line, ROOM)
}

/// Writes the line of a commit. Gives where it begins.
#[inline(always)]
#[tactic(auto, unfolding(crate::specs::Lines::commit_line))]
pub fn put_commit(commit: &Commit, line: &mut [u8; ROOM]) -> usize
    ensures start { result ≤ 56 }
    ensures written { drop result line.new ≡ commit_line commit.now }
    ensures ascii { IsAscii (commit_line commit.now) }
{
    let at = put_end(line);
    let at = put_field(commit.n as u64, line, at);
    let at = put_small_field(commit.core.0, line, at);
    let at = put_number(commit.tid.0, line, at);
    put_word(b"commit ", line, at)
}

/// Writes the line of a load. Gives where it begins.
#[inline(always)]
#[tactic(auto, unfolding(crate::specs::Lines::load_line))]
pub fn put_load(load: &Load, line: &mut [u8; ROOM]) -> usize
    ensures start { result ≤ 56 }
    ensures written { drop result line.new ≡ load_line load.now }
    ensures ascii { IsAscii (load_line load.now) }
{
    let at = put_end(line);
    let at = put_hex_field(load.value, line, at);
    let at = put_field(load.size.bytes() as u64, line, at);
    let at = put_hex(load.addr, line, at);
    put_word(b"load ", line, at)
}

/// Writes the line of a word of RAM. Gives where it begins.
#[inline(always)]
#[tactic(auto, unfolding(crate::specs::Lines::mem_line))]
pub fn put_mem(addr: u32, value: u32, line: &mut [u8; ROOM]) -> usize
    ensures start { result ≤ 56 }
    ensures written { drop result line.new ≡ mem_line addr value }
    ensures ascii { IsAscii (mem_line addr value) }
{
    let at = put_end(line);
    let at = put_hex_field(value, line, at);
    let at = put_hex(addr, line, at);
    put_word(b"mem ", line, at)
}
