// The lines of a table. Each is printed as it stands, and behind a step what comes of it.
//
// | Line | What it says |
// |---|---|
// | `# TEXT`, or an empty line | nothing |
// | `machine CORES DIRS SETS WAYS RAM` | the machine of the rows below, with RAM's bytes; its RAM begins at 0x80000000 |
// | `image WORD ..` | one more raw image of that machine, as hexadecimal words |
// | `row TEXT` | a row begins, with all nodes as they start |
// | `STEP` | a step shown whole: the node's state before it, where that isn't the line above, the answer, what is sent, the state |
// | `+ STEP` | a step on the way to where the row wants to be: what it answers is shown, and how many messages it sends |
use crate::steps::{Step, read_step};
use crate::words::Words;
use tcc_base::Config;

#[derive(Clone, Copy)]
pub enum Line {
    Text,
    Machine(Config),
    Image,
    Row,
    Step { step: Step, shown: bool },
    /// It is written as no other line is.
    Unknown,
}

fn read_config(from: &mut Words<'_>) -> Option<Config> {
    let cores = from.number()?;
    let dirs = from.number()?;
    let sets = from.number()?;
    let ways = from.number()?;
    let ram = from.number()?;
    Config::new(cores, dirs, sets, ways, 0x8000_0000, ram).ok()
}

fn machine_line(from: &mut Words<'_>) -> Line {
    match read_config(from) {
        Some(config) => Line::Machine(config),
        None => Line::Unknown,
    }
}

fn step_line(word: &str, from: &mut Words<'_>, shown: bool) -> Line {
    match read_step(word, from) {
        Some(step) if from.is_at_end() => Line::Step { step, shown },
        _ => Line::Unknown,
    }
}

fn short_line(from: &mut Words<'_>) -> Line {
    match from.word() {
        Some(word) => step_line(word, from, false),
        None => Line::Unknown,
    }
}

fn line_of(words: &mut Words<'_>) -> Line {
    match words.word() {
        None | Some("#") => Line::Text,
        Some("machine") => machine_line(words),
        Some("image") => Line::Image,
        Some("row") => Line::Row,
        Some("+") => short_line(words),
        Some(word) => step_line(word, words, true),
    }
}

/// What a line says.
pub fn read_line(line: &str) -> Line {
    line_of(&mut Words::of(line))
}
