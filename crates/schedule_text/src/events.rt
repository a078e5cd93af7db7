// The line of an event, written from its last byte to its first. The longest takes 33 bytes, with the line feed:
// `d c255 d255 18446744073709551615`.
ghost use Rattle.std.specs.Prelude.{◌≡◌, ◌+◌, ◌<◌, ◌≤◌, ◌∷◌, ◌++◌, drop, IsAscii};
ghost use Rattle.std.specs.Fmt.{decimal};
ghost use Rattle.tcc_msg.specs.declared.event.Event.TheVariants.{Exec, Evict, Deliver};
ghost use Rattle.schedule_text.specs.Grammar.{newline, node_word, event_line};

use base_digits::{ROOM, put_byte, put_field, put_small, put_small_field};
use tcc_base::NodeId;
use tcc_msg::{Event, Name};

/// Writes a node before `end`. Gives where it begins.
#[inline(always)]
#[tactic(auto, unfolding(crate::specs::Grammar::node_word))]
pub fn put_node(node: NodeId, line: &mut [u8; ROOM], end: usize) -> usize
    requires { (4 ≤ end) × (end ≤ 56) }
    ensures at { (result ≤ end) × (end ≤ result + 4) }
    ensures written { drop result line.new ≡ node_word node ++ drop end line.old }
    ensures ascii { IsAscii (node_word node) }
{
    match node {
        NodeId::Core(core) => {
            let at = put_small(core.0, line, end);
            put_byte(b'c', line, at)
        }
        NodeId::Dir(dir) => {
            let at = put_small(dir.0, line, end);
            put_byte(b'd', line, at)
        }
        NodeId::Vendor => put_byte(b'v', line, end),
    }
}

/// Writes a space and a node before `end`. Gives where the space is.
#[inline(always)]
fn put_node_field(node: NodeId, line: &mut [u8; ROOM], end: usize) -> usize
    requires { (5 ≤ end) × (end ≤ 56) }
    ensures at { (result ≤ end) × (end ≤ result + 5) }
    ensures written { drop result line.new ≡ 32 ∷ node_word node ++ drop end line.old }
    ensures ascii { IsAscii (node_word node) }
{
    let at = put_node(node, line, end);
    put_byte(b' ', line, at)
}

/// Ends the line. Gives where the line feed is.
#[inline(always)]
fn put_end(line: &mut [u8; ROOM]) -> usize
    ensures at { result ≡ 55 }
    ensures written { drop result line.new ≡ newline }
{
    put_byte(b'\n', line, ROOM)
}

#[inline(always)]
#[tactic(auto, unfolding(crate::specs::Grammar::event_line))]
fn put_exec(core: u8, line: &mut [u8; ROOM]) -> usize
    ensures start { result ≤ 56 }
    ensures written { drop result line.new ≡ event_line (Exec (record { 0 = core })) }
    ensures ascii { IsAscii (event_line (Exec (record { 0 = core }))) }
{
    let at = put_end(line);
    let at = put_small_field(core, line, at);
    put_byte(b'e', line, at)
}

#[inline(always)]
#[tactic(auto, unfolding(crate::specs::Grammar::event_line))]
fn put_evict(core: u8, set: u16, way: u8, line: &mut [u8; ROOM]) -> usize
    ensures start { result ≤ 56 }
    ensures written { drop result line.new ≡ event_line (Evict (record { 0 = core }) set way) }
    ensures ascii { IsAscii (event_line (Evict (record { 0 = core }) set way)) }
{
    let at = put_end(line);
    let at = put_small_field(way, line, at);
    let at = put_field(set as u64, line, at);
    let at = put_small_field(core, line, at);
    put_byte(b'x', line, at)
}

#[inline(always)]
#[tactic(auto, unfolding(crate::specs::Grammar::event_line))]
fn put_deliver(name: &Name, line: &mut [u8; ROOM]) -> usize
    ensures start { result ≤ 56 }
    ensures written { drop result line.new ≡ event_line (Deliver name.now) }
    ensures ascii { IsAscii (event_line (Deliver name.now)) }
{
    let at = put_end(line);
    let at = put_field(name.seq, line, at);
    let at = put_node_field(name.dst, line, at);
    let at = put_node_field(name.src, line, at);
    put_byte(b'd', line, at)
}

/// Writes the line of an event at the end of the place. Gives where it begins.
#[inline(always)]
pub fn put_event(event: &Event, line: &mut [u8; ROOM]) -> usize
    ensures start { result ≤ 56 }
    ensures written { drop result line.new ≡ event_line event.now }
    ensures ascii { IsAscii (event_line event.now) }
{
    match event {
        Event::Exec(core) => put_exec(core.0, line),
        Event::Evict(core, set, way) => put_evict(core.0, *set, *way, line),
        Event::Deliver(name) => put_deliver(name, line),
    }
}
