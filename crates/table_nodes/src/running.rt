// A table that is run line by line.
ghost use Rattle.std.specs.Prelude.{◌≤◌, length};

use crate::answers::{Answer, push_answer};
use crate::lines::{Line, read_line};
use crate::messages::{push_msg, push_node};
use crate::nodes::Nodes;
use crate::steps::Step;
use crate::text::push_number;
use crate::words::Words;
use image_load::{Loaded, load, raw};
use std::alloc::{AllocError, Global};
use tcc_base::{Config, List, NoMemory, NodeId};
use tcc_msg::{Msg, Name, Outgoing};

/// Out of memory: the table can't go on.
#[derive(Clone, Copy)]
pub struct OutOfMemory;

impl From<AllocError> for OutOfMemory {
    fn from(_error: AllocError) -> OutOfMemory {
        OutOfMemory
    }
}

impl From<NoMemory> for OutOfMemory {
    fn from(_error: NoMemory) -> OutOfMemory {
        OutOfMemory
    }
}

/// The machine of the rows, and the row that is on its way.
#[derive(Drop)]
pub struct Table {
    alloc: Global,
    config: Option<Config>,
    images: Vec<List<u8>>,
    nodes: Nodes,
    /// Whether a row has begun, and its machine could be made.
    has_nodes: bool,
    /// The node whose state was printed last in this row.
    last: Option<NodeId>,
}

/// The bytes of an image, from its words in hexadecimal digits, which stand behind the line's first word.
fn image_bytes(alloc: Global, line: &str) -> Result<Vec<u8>, AllocError> {
    let mut words = Words::of(line);
    let _ = words.word();
    let mut bytes = Vec::new(alloc);
    for _ in 0..4096 {
        match words.hex() {
            Some(word) => bytes.extend_from_slice(&word.to_le_bytes())?,
            None => return Ok(bytes),
        }
    }
    Ok(bytes)
}

fn loaded(alloc: Global, config: &Config, images: &[List<u8>]) -> Option<Loaded> {
    if images.is_empty() || images.len() > 16 {
        return None;
    }
    let images = raw(alloc, config, images).ok()?;
    load(alloc, config, &images).ok()
}

impl Table {
    /// A table with no line yet.
    pub fn new(alloc: Global) -> Table {
        Table {
            alloc,
            config: None,
            images: Vec::new(alloc),
            nodes: Nodes::new(alloc),
            has_nodes: false,
            last: None,
        }
    }

    /// Runs the next line, and gives what is to be printed.
    pub fn run(&mut self, line: &str) -> Result<String, OutOfMemory> {
        let mut text = String::new(self.alloc);
        self.append(line, &mut text)?;
        Ok(text)
    }

    fn append(&mut self, line: &str, text: &mut String) -> Result<(), OutOfMemory> {
        match read_line(line) {
            Line::Text => push_line(text, "", line),
            Line::Machine(config) => {
                self.begin_machine(config);
                push_line(text, "", line)
            }
            Line::Image => {
                self.add_image(line)?;
                push_line(text, "", line)
            }
            Line::Row => {
                self.begin_row()?;
                push_line(text, "", line)
            }
            Line::Step { step, shown } => self.step(step, shown, line, text),
            Line::Unknown => push_line(text, "? ", line),
        }
    }

    fn begin_machine(&mut self, config: Config) {
        self.config = Some(config);
        self.images.clear();
        self.has_nodes = false;
    }

    fn add_image(&mut self, line: &str) -> Result<(), OutOfMemory> {
        let items = image_bytes(self.alloc, line)?;
        self.images.push(List { items }).map_err(|_| OutOfMemory)
    }

    fn begin_row(&mut self) -> Result<(), NoMemory> {
        self.last = None;
        self.has_nodes = false;
        let Some(config) = self.config else {
            return Ok(());
        };
        if let Some(loaded) = loaded(self.alloc, &config, self.images.as_slice()) {
            self.nodes.start(self.alloc, loaded)?;
            self.has_nodes = true;
        }
        Ok(())
    }

    fn step(
        &mut self,
        step: Step,
        shown: bool,
        line: &str,
        text: &mut String,
    ) -> Result<(), OutOfMemory> {
        if !self.has_nodes {
            return push_line(text, "? ", line);
        }
        let node = step.node();
        if !shown {
            self.last = None;
            return note_step(self.alloc, &mut self.nodes, step, line, text);
        }
        if self.last != Some(node) {
            push_state(&self.nodes, node, text)?;
        }
        self.last = Some(node);
        show_step(self.alloc, &mut self.nodes, step, line, text)
    }
}

/// Appends a line, behind a mark.
fn push_line(text: &mut String, mark: &str, line: &str) -> Result<(), OutOfMemory> {
    text.push_str(mark)?;
    text.push_str(line)?;
    text.push_str("\n")?;
    Ok(())
}

/// Appends the line of a node's state.
fn push_state(nodes: &Nodes, node: NodeId, text: &mut String) -> Result<(), AllocError> {
    text.push_str("  ")?;
    nodes.push_state(text, node)?;
    text.push_str("\n")
}

/// Does a step, and says what it answers and how many messages it sends.
fn note_step(
    alloc: Global,
    nodes: &mut Nodes,
    step: Step,
    line: &str,
    text: &mut String,
) -> Result<(), OutOfMemory> {
    let mut out = Outgoing::new(alloc);
    let answer = nodes.act(step, &mut out);
    note_answer(nodes, step.node(), &answer, &out, line, text)
}

/// Keeps what a node sent, and says what it answered and how many messages it sent.
fn note_answer(
    nodes: &mut Nodes,
    src: NodeId,
    answer: &Answer,
    out: &Outgoing,
    line: &str,
    text: &mut String,
) -> Result<(), OutOfMemory> {
    text.push_str(line)?;
    text.push_str(": ")?;
    push_answer(text, answer)?;
    push_number(text, ", sends ", out.len() as u64)?;
    text.push_str("\n")?;
    for (dst, msg) in out.list.iter() {
        let _ = nodes.post(src, *dst, *msg)?;
    }
    Ok(())
}

/// Does a step, and shows all of it.
fn show_step(
    alloc: Global,
    nodes: &mut Nodes,
    step: Step,
    line: &str,
    text: &mut String,
) -> Result<(), OutOfMemory> {
    let mut out = Outgoing::new(alloc);
    let answer = nodes.act(step, &mut out);
    show_answer(nodes, step.node(), &answer, &mut out, line, text)
}

/// Shows what a node answered, what it sent, which is kept, and its state.
fn show_answer(
    nodes: &mut Nodes,
    node: NodeId,
    answer: &Answer,
    out: &mut Outgoing,
    line: &str,
    text: &mut String,
) -> Result<(), OutOfMemory> {
    text.push_str(line)?;
    text.push_str("\n  ")?;
    push_answer(text, answer)?;
    text.push_str("\n")?;
    push_sent(nodes, node, out, text)?;
    push_state(nodes, node, text)?;
    Ok(())
}

/// Keeps what a node sent, and says what it was: by destination, and to each one in the order in which it was sent.
fn push_sent(
    nodes: &mut Nodes,
    src: NodeId,
    out: &mut Outgoing,
    text: &mut String,
) -> Result<(), OutOfMemory> {
    out.list.sort_by_key(|sent| sent.0)?;
    for (dst, msg) in out.list.iter() {
        let name = nodes.post(src, *dst, *msg)?;
        push_posted(text, name, msg)?;
    }
    Ok(())
}

/// Appends the line of a message that was sent.
fn push_posted(text: &mut String, name: Name, msg: &Msg) -> Result<(), AllocError> {
    text.push_str("  to ")?;
    push_node(text, name.dst)?;
    push_number(text, " as ", name.seq)?;
    text.push_str(": ")?;
    push_msg(text, msg)?;
    text.push_str("\n")
}
