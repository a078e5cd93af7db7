// Reading the tables of messages.
ghost use Rattle.std.specs.Prelude.{◌≡◌, ◌<◌, ◌≤◌, IfSome, length};

use crate::fields::{Fault, flag, mask, number_in_front, row_in_front, word, words};
use machine_parts::Parts;
use net_core::node_at;
use row_text::{behind, end};
use tcc_base::{Config, LineAddr, NoMemory, NodeId, Tid};
use tcc_msg::Msg;

/// The most numbers that a message has behind its kind.
const FIELDS: usize = 11;

/// How many numbers a message of this kind has.
fn field_count(kind: u64) -> Option<usize>
    ensures { IfSome result (λ count. count ≤ 11) }
{
    match kind {
        0 => Some(0),
        1 | 4 | 5 | 9 | 12 => Some(1),
        2 | 6 | 8 | 14 => Some(2),
        7 | 13 => Some(3),
        3 => Some(9),
        10 | 11 => Some(FIELDS),
        _ => None,
    }
}

/// Reads so many numbers and the end of their row: what follows it.
fn read_fields<'a>(bytes: &'a [u8], count: usize, fields: &mut [u64; FIELDS]) -> Option<&'a [u8]>
    requires { count ≤ 11 }
    ensures { IfSome result (λ rest. length rest.now ≤ length bytes.now) }
{
    let mut rest = bytes;
    for i in 0..count {
        let (number, after) = number_in_front(rest)?;
        fields[i] = number;
        rest = after;
    }
    end(rest)
}

fn line(number: u64) -> Option<LineAddr> {
    Some(LineAddr(word(number)?))
}

/// The message with a line's words of this kind that these numbers tell.
fn data_message(kind: u64, fields: &[u64; FIELDS]) -> Option<Msg> {
    let line = line(fields[0])?;
    if kind == 3 {
        let words = words(&fields[1..9])?;
        return Some(Msg::Fill { line, words });
    }
    let mask = mask(fields[1])?;
    let tag = Tid(fields[2]);
    let words = words(&fields[3..])?;
    if kind == 10 {
        Some(Msg::WriteBack {
            mask,
            line,
            words,
            tag,
        })
    } else {
        Some(Msg::Flush {
            mask,
            line,
            words,
            tag,
        })
    }
}

/// The message about a line of this kind that these numbers tell.
fn line_message(kind: u64, fields: &[u64; FIELDS]) -> Option<Msg> {
    let line = line(fields[0])?;
    match kind {
        2 => Some(Msg::LoadReq {
            line,
            after: Tid(fields[1]),
        }),
        7 => Some(Msg::Mark {
            line,
            mask: mask(fields[1])?,
            tid: Tid(fields[2]),
        }),
        12 => Some(Msg::DataReq { line }),
        13 => Some(Msg::Inv {
            line,
            mask: mask(fields[1])?,
            tid: Tid(fields[2]),
        }),
        14 => Some(Msg::InvAck {
            line,
            keeps: flag(fields[1])?,
        }),
        _ => None,
    }
}

/// The message of this kind that these numbers tell.
fn message_of(kind: u64, fields: &[u64; FIELDS]) -> Option<Msg> {
    let tid = Tid(fields[0]);
    match kind {
        0 => Some(Msg::TidReq),
        1 => Some(Msg::TidGrant { tid }),
        3 | 10 | 11 => data_message(kind, fields),
        4 => Some(Msg::Skip { tid }),
        5 => Some(Msg::Probe { tid }),
        6 => Some(Msg::ProbeReply {
            tid,
            serving: Tid(fields[1]),
        }),
        8 => Some(Msg::Commit {
            tid,
            count: word(fields[1])?,
        }),
        9 => Some(Msg::Abort { tid }),
        _ => line_message(kind, fields),
    }
}

/// The row of a message in flight that stands in front: the place of its link, its number there, the message, and what follows.
fn message_in_front(bytes: &[u8]) -> Option<(u64, u64, Msg, &[u8])>
    ensures { IfSome result (λ x. length x.3.now < length bytes.now) }
{
    let rest = behind(bytes, b"message")?;
    let (k, rest) = number_in_front(rest)?;
    let (seq, rest) = number_in_front(rest)?;
    let (kind, rest) = number_in_front(rest)?;
    let mut fields = [0; FIELDS];
    let rest = read_fields(rest, field_count(kind)?, &mut fields)?;
    Some((k, seq, message_of(kind, &fields)?, rest))
}

/// How many nodes a machine of these settings has.
fn node_count(config: &Config) -> u64
    ensures some { 0 < result }
    ensures few { result ≤ 511 }
{
    config.cores() as u64 + config.dirs() as u64 + 1
}

/// The pair of nodes at a place, by source and then destination.
fn pair_at(config: &Config, place: u64) -> Option<(NodeId, NodeId)> {
    let nodes = node_count(config);
    let src = node_at(config, (place / nodes) as usize)?;
    let dst = node_at(config, (place % nodes) as usize)?;
    Some((src, dst))
}

/// Sends a message on the link at this place as the one of this number. False where there is no such link, or it was sent more.
fn restore_message(
    config: &Config,
    place: u64,
    seq: u64,
    msg: Msg,
    parts: &mut Parts,
) -> Result<bool, NoMemory>
    ensures { parts.new.cores.code ≡ parts.old.cores.code }
{
    let Some((src, dst)) = pair_at(config, place) else {
        return Ok(false);
    };
    if !parts.restore_sent(src, dst, seq) {
        return Ok(false);
    }
    parts.push(src, dst, msg)
}

/// Reads the rows of messages in flight: what follows them.
fn read_flying<'a>(bytes: &'a [u8], config: &Config, parts: &mut Parts) -> Result<&'a [u8], Fault>
    ensures { parts.new.cores.code ≡ parts.old.cores.code }
{
    let mut rest = bytes;
    while let Some((place, seq, msg, after)) = message_in_front(rest) {
        if !restore_message(config, place, seq, msg, parts)? {
            return Err(Fault::Row(rest.len()));
        }
        rest = after;
    }
    Ok(rest)
}

/// What follows the rows of what was sent between so many pairs of nodes.
fn past_sent(bytes: &[u8], pairs: u64) -> Result<&[u8], Fault> {
    let mut rest = bytes;
    let mut row = [0; 2];
    for place in 0..pairs {
        match row_in_front(rest, b"sent", &mut row) {
            Some(after) if row[0] == place => rest = after,
            _ => return Err(Fault::Row(rest.len())),
        }
    }
    Ok(rest)
}

/// Lets so many messages have been sent between the pair of nodes at a place. False where it is no link, and this number isn't 0, or
/// more were sent.
fn restore_sent(config: &Config, place: u64, sent: u64, parts: &mut Parts) -> bool
    ensures { parts.new.cores.code ≡ parts.old.cores.code }
{
    if sent == 0 {
        return true;
    }
    match pair_at(config, place) {
        Some((src, dst)) => parts.restore_sent(src, dst, sent),
        None => false,
    }
}

/// Reads the rows of what was sent between so many pairs of nodes.
fn read_sent(bytes: &[u8], config: &Config, pairs: u64, parts: &mut Parts) -> Result<(), Fault>
    ensures { parts.new.cores.code ≡ parts.old.cores.code }
{
    let mut rest = bytes;
    let mut row = [0; 2];
    for place in 0..pairs {
        let Some(after) = row_in_front(rest, b"sent", &mut row) else {
            return Err(Fault::Row(rest.len()));
        };
        if !restore_sent(config, place, row[1], parts) {
            return Err(Fault::Row(rest.len()));
        }
        rest = after;
    }
    Ok(())
}

/// Reads the tables of messages from the front, into the parts of a machine of these settings: what follows them. After an error some
/// messages may be there. It takes time for each byte that it reads, and memory for each message.
pub(crate) fn read_messages<'a>(
    bytes: &'a [u8],
    config: &Config,
    parts: &mut Parts,
) -> Result<&'a [u8], Fault>
    ensures { parts.new.cores.code ≡ parts.old.cores.code }
{
    let nodes = node_count(config);
    let pairs = nodes * nodes;
    let rest = past_sent(bytes, pairs)?;
    let rest = read_flying(rest, config, parts)?;
    read_sent(bytes, config, pairs, parts)?;
    Ok(rest)
}
