// The lines of which a message may change what a directory knows, and those whose words may come home with it.
ghost use Rattle.std.specs.Prelude.{◌≡◌, ◌==◌, ◌||◌, ◌<◌, ◌≤◌, ◌++◌, ℕ, false, IfOk, OnOk, drop, length, slice_index_or, take};
ghost use Rattle.tcc_base.specs.declared.names.LineAddr.{LineAddr};
ghost use Rattle.rules_maps.specs.Lines.{has_mark};
ghost use Rattle.rules_maps.specs.Shape.{lines};
ghost use Rattle.rules_maps.specs.Words.{those};
ghost use Rattle.tcc_msg.specs.Plain.{msg_of};
ghost use Rattle.directory.specs.Data.{dir_of};
ghost use Rattle.watch_changes.specs.Plain.{line_numbers, with_line};
ghost use Rattle.watch_changes.specs.Touched.{may_change, may_come_home};

use directory::Directory;
use std::alloc::Global;
use tcc_base::{Config, LineAddr, List, NoMemory};
use tcc_msg::Msg;

/// A line, where it is in RAM.
#[tactic(auto, unfolding(rules_maps::specs::Words::those))]
fn line_alone(alloc: Global, config: &Config, line: LineAddr) -> Result<List<LineAddr>, NoMemory>
    ensures { IfOk result (λ found. line_numbers found ≡ those (λ j. j == line.0) (lines config.now)) }
{
    let mut found = List::new(alloc);
    if line.0 < config.words() / 8 {
        found.push(line)?;
    }
    Ok(found)
}

/// No line.
fn no_lines(alloc: Global, config: &Config) -> List<LineAddr>
    ensures { line_numbers result ≡ those (λ j. false) (lines config.now) }
{
    List::new(alloc)
}

/// The lines that are marked at a directory.
fn marked(alloc: Global, config: &Config, dir: &Directory) -> Result<List<LineAddr>, NoMemory>
    requires { dir.now.lines.place.shape ≡ config.now }
    ensures { (elsewhere : ℕ → ℕ) → IfOk result (λ found. line_numbers found
        ≡ those (has_mark (dir_of elsewhere dir.now).lines) (lines config.now)) }
{
    let mut found = List::new(alloc);
    for k in 0..dir.marked_lines() as usize {
        if let Some(line) = dir.marked_line(k) {
            found.push(line)?;
        }
    }
    Ok(found)
}

/// How many of the first ones come before a line.
fn place(lines: &[LineAddr], line: LineAddr) -> usize
    ensures within { result ≤ length lines.now }
    ensures before { line_numbers (take result lines.now) ++ with_line line.0 (line_numbers (drop result lines.now))
        ≡ with_line line.0 (line_numbers lines.now) }
    ensures stops { (d : LineAddr) → result < length lines.now → line.0 ≤ (slice_index_or lines.now result d).0 }
{
    let mut at = 0;
    while at < lines.len() && lines[at].0 < line.0 {
        at += 1;
    }
    at
}

/// Appends lines.
fn push_lines(found: &mut List<LineAddr>, lines: &[LineAddr]) -> Result<(), NoMemory>
    ensures { OnOk result (line_numbers found.new ≡ line_numbers found.old ++ line_numbers lines.now) }
{
    for line in lines {
        found.push(*line)?;
    }
    Ok(())
}

/// The same lines by rising number with one more, where it isn't one of them.
fn and_line(alloc: Global, lines: &[LineAddr], line: LineAddr) -> Result<List<LineAddr>, NoMemory>
    ensures { IfOk result (λ found. line_numbers found ≡ with_line line.0 (line_numbers lines.now)) }
{
    let at = place(lines, line);
    let mut found = List::new(alloc);
    push_lines(&mut found, &lines[..at])?;
    if at >= lines.len() || lines[at].0 != line.0 {
        found.push(line)?;
    }
    push_lines(&mut found, &lines[at..])?;
    Ok(found)
}

/// A line, where it is in RAM, and those that are marked.
fn line_and_marked(
    alloc: Global,
    config: &Config,
    dir: &Directory,
    line: LineAddr,
) -> Result<List<LineAddr>, NoMemory>
    requires { dir.now.lines.place.shape ≡ config.now }
    ensures { (elsewhere : ℕ → ℕ) → IfOk result (λ found. line_numbers found
        ≡ those (λ j. j == line.0 || has_mark (dir_of elsewhere dir.now).lines j) (lines config.now)) }
{
    let marked = marked(alloc, config, dir)?;
    if line.0 < config.words() / 8 {
        and_line(alloc, &marked.items, line)
    } else {
        Ok(marked)
    }
}

/// The lines of which a message may change what the directory knows.
#[tactic(auto, unfolding(crate::specs::Touched::may_change))]
pub(crate) fn known_lines(
    alloc: Global,
    config: &Config,
    dir: &Directory,
    msg: &Msg,
) -> Result<List<LineAddr>, NoMemory>
    requires { dir.now.lines.place.shape ≡ config.now }
    ensures { (elsewhere : ℕ → ℕ) → IfOk result (λ found. line_numbers found
        ≡ those (may_change (msg_of msg.now) (dir_of elsewhere dir.now).lines) (lines config.now)) }
{
    match *msg {
        Msg::LoadReq { line, .. }
        | Msg::Mark { line, .. }
        | Msg::WriteBack { line, .. }
        | Msg::Flush { line, .. } => line_alone(alloc, config, line),
        Msg::InvAck { line, .. } => line_and_marked(alloc, config, dir, line),
        Msg::Commit { .. } | Msg::Abort { .. } => marked(alloc, config, dir),
        _ => Ok(no_lines(alloc, config)),
    }
}

/// The lines whose words may come home with a message.
#[tactic(auto, unfolding(crate::specs::Touched::may_come_home))]
pub(crate) fn home_lines(
    alloc: Global,
    config: &Config,
    msg: &Msg,
) -> Result<List<LineAddr>, NoMemory>
    ensures { IfOk result (λ found. line_numbers found ≡ those (may_come_home (msg_of msg.now)) (lines config.now)) }
{
    match *msg {
        Msg::WriteBack { line, .. } | Msg::Flush { line, .. } => line_alone(alloc, config, line),
        _ => Ok(no_lines(alloc, config)),
    }
}
