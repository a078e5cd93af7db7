// Messages as words, both ways: a kind and its fields, in the order of `Msg`'s documentation.
use crate::text::{push_byte, push_hex, push_number};
use crate::words::Words;
use std::alloc::AllocError;
use tcc_base::{LineAddr, Mask, NodeId, Tid};
use tcc_msg::Msg;

/// Words of a line that are sent home.
struct Home {
    line: LineAddr,
    mask: Mask,
    words: [u32; 8],
    tag: Tid,
}

fn read_home(from: &mut Words<'_>) -> Option<Home> {
    let line = from.line()?;
    let mask = from.mask()?;
    let words = from.eight()?;
    let tag = from.tid()?;
    Some(Home {
        line,
        mask,
        words,
        tag,
    })
}

fn read_write_back(from: &mut Words<'_>) -> Option<Msg> {
    let Home {
        line,
        mask,
        words,
        tag,
    } = read_home(from)?;
    Some(Msg::WriteBack {
        mask,
        line,
        words,
        tag,
    })
}

fn read_flush(from: &mut Words<'_>) -> Option<Msg> {
    let Home {
        line,
        mask,
        words,
        tag,
    } = read_home(from)?;
    Some(Msg::Flush {
        mask,
        line,
        words,
        tag,
    })
}

fn read_load_req(from: &mut Words<'_>) -> Option<Msg> {
    let line = from.line()?;
    let after = from.tid()?;
    Some(Msg::LoadReq { line, after })
}

fn read_fill(from: &mut Words<'_>) -> Option<Msg> {
    let line = from.line()?;
    let words = from.eight()?;
    Some(Msg::Fill { line, words })
}

fn read_reply(from: &mut Words<'_>) -> Option<Msg> {
    let tid = from.tid()?;
    let serving = from.tid()?;
    Some(Msg::ProbeReply { tid, serving })
}

fn read_mark(from: &mut Words<'_>) -> Option<Msg> {
    let line = from.line()?;
    let mask = from.mask()?;
    let tid = from.tid()?;
    Some(Msg::Mark { line, mask, tid })
}

fn read_inv(from: &mut Words<'_>) -> Option<Msg> {
    let line = from.line()?;
    let mask = from.mask()?;
    let tid = from.tid()?;
    Some(Msg::Inv { line, mask, tid })
}

fn read_commit(from: &mut Words<'_>) -> Option<Msg> {
    let tid = from.tid()?;
    let count = from.count()?;
    Some(Msg::Commit { tid, count })
}

fn read_inv_ack(from: &mut Words<'_>) -> Option<Msg> {
    let line = from.line()?;
    match from.word()? {
        "keeps" => Some(Msg::InvAck { line, keeps: true }),
        "drops" => Some(Msg::InvAck { line, keeps: false }),
        _ => None,
    }
}

/// The message that begins here.
pub fn read_msg(from: &mut Words<'_>) -> Option<Msg> {
    match from.word()? {
        "tid-req" => Some(Msg::TidReq),
        "tid-grant" => Some(Msg::TidGrant { tid: from.tid()? }),
        "load-req" => read_load_req(from),
        "fill" => read_fill(from),
        "skip" => Some(Msg::Skip { tid: from.tid()? }),
        "probe" => Some(Msg::Probe { tid: from.tid()? }),
        "probe-reply" => read_reply(from),
        "mark" => read_mark(from),
        "commit" => read_commit(from),
        "abort" => Some(Msg::Abort { tid: from.tid()? }),
        "write-back" => read_write_back(from),
        "flush" => read_flush(from),
        "data-req" => Some(Msg::DataReq { line: from.line()? }),
        "inv" => read_inv(from),
        "inv-ack" => read_inv_ack(from),
        _ => None,
    }
}

pub fn push_node(text: &mut String, node: NodeId) -> Result<(), AllocError> {
    match node {
        NodeId::Core(core) => push_number(text, "c", u64::from(core.0)),
        NodeId::Dir(dir) => push_number(text, "d", u64::from(dir.0)),
        NodeId::Vendor => text.push_str("v"),
    }
}

fn push_words(text: &mut String, words: &[u32; 8]) -> Result<(), AllocError> {
    for word in words {
        push_hex(text, " ", *word)?;
    }
    Ok(())
}

/// A kind with two numbers.
fn push_two(text: &mut String, kind: &str, first: u64, second: u64) -> Result<(), AllocError> {
    push_number(text, kind, first)?;
    push_number(text, " ", second)
}

/// A kind with words of a line, and the TID of their commit.
fn push_some(
    text: &mut String,
    kind: &str,
    line: LineAddr,
    mask: Mask,
    tid: Tid,
) -> Result<(), AllocError> {
    push_number(text, kind, u64::from(line.0))?;
    push_byte(text, " ", mask.0)?;
    push_number(text, " ", tid.0)
}

fn push_home(
    text: &mut String,
    kind: &str,
    line: LineAddr,
    mask: Mask,
    words: &[u32; 8],
    tag: Tid,
) -> Result<(), AllocError> {
    push_number(text, kind, u64::from(line.0))?;
    push_byte(text, " ", mask.0)?;
    push_words(text, words)?;
    push_number(text, " ", tag.0)
}

fn push_fill(text: &mut String, line: LineAddr, words: &[u32; 8]) -> Result<(), AllocError> {
    push_number(text, "fill ", u64::from(line.0))?;
    push_words(text, words)
}

fn push_ack(text: &mut String, line: LineAddr, keeps: bool) -> Result<(), AllocError> {
    push_number(text, "inv-ack ", u64::from(line.0))?;
    text.push_str(if keeps { " keeps" } else { " drops" })
}

/// Appends the words of a message.
pub fn push_msg(text: &mut String, msg: &Msg) -> Result<(), AllocError> {
    match msg {
        Msg::TidReq => text.push_str("tid-req"),
        Msg::TidGrant { tid } => push_number(text, "tid-grant ", tid.0),
        Msg::LoadReq { line, after } => { push_two(text, "load-req ", u64::from(line.0), after.0) }
        Msg::Fill { line, words } => push_fill(text, *line, words),
        Msg::Skip { tid } => push_number(text, "skip ", tid.0),
        Msg::Probe { tid } => push_number(text, "probe ", tid.0),
        Msg::ProbeReply { tid, serving } => push_two(text, "probe-reply ", tid.0, serving.0),
        Msg::Mark { line, mask, tid } => push_some(text, "mark ", *line, *mask, *tid),
        Msg::Commit { tid, count } => push_two(text, "commit ", tid.0, u64::from(*count)),
        Msg::Abort { tid } => push_number(text, "abort ", tid.0),
        Msg::WriteBack {
            mask,
            line,
            words,
            tag,
        } => push_home(text, "write-back ", *line, *mask, words, *tag),
        Msg::Flush {
            mask,
            line,
            words,
            tag,
        } => push_home(text, "flush ", *line, *mask, words, *tag),
        Msg::DataReq { line } => push_number(text, "data-req ", u64::from(line.0)),
        Msg::Inv { line, mask, tid } => push_some(text, "inv ", *line, *mask, *tid),
        Msg::InvAck { line, keeps } => push_ack(text, *line, *keeps),
    }
}
