// The lines of a report, each appended to a text. Where memory runs out, the text holds a part of the line.
ghost use Rattle.std.specs.Prelude.{◌≡◌, ◌++◌, OnOk, string_bytes};
ghost use Rattle.report_text.specs.Lines.{end_line, events_line, commit_line, load_line, core_line, pc_line, reg_line, console_line};
ghost use Rattle.report_text.specs.Lines.{mem_line};
ghost use Rattle.base_digits.specs.Digits.{hex};
ghost use Rattle.std.specs.List.{flat_map};

use crate::often::{put_commit, put_load, put_mem};
use base_digits::{ROOM, push_from};
use std::alloc::AllocError;
use tcc_base::{Commit, CoreEnd, Load};

/// Appends the line that says whether a run is done. After want of memory a part of it may stand there.
#[tactic(auto, unfolding(crate::specs::Lines::end_line))]
pub fn push_end(text: &mut String, done: bool) -> Result<(), AllocError>
    ensures { OnOk result (string_bytes text.new ≡ string_bytes text.old ++ end_line done) }
{
    text.push_str(if done { "end done\n" } else { "end open\n" })
}

/// Appends the line that says how many events a run took. After want of memory a part of it may stand there.
#[tactic(auto, unfolding(crate::specs::Lines::events_line))]
pub fn push_events(text: &mut String, events: u64) -> Result<(), AllocError>
    ensures { OnOk result (string_bytes text.new ≡ string_bytes text.old ++ events_line events) }
{
    write!(text, "events {events}\n")
}

pub fn push_commit(text: &mut String, commit: &Commit) -> Result<(), AllocError>
    ensures { OnOk result (string_bytes text.new ≡ string_bytes text.old ++ commit_line commit.now) }
{
    let mut line = [0; ROOM];
    let start = put_commit(commit, &mut line);
    push_from(text, &line, start)
}

pub fn push_load(text: &mut String, load: &Load) -> Result<(), AllocError>
    ensures { OnOk result (string_bytes text.new ≡ string_bytes text.old ++ load_line load.now) }
{
    let mut line = [0; ROOM];
    let start = put_load(load, &mut line);
    push_from(text, &line, start)
}

/// Appends the line that says how a core ended. After want of memory a part of it may stand there.
#[tactic(auto, unfolding(crate::specs::Lines::core_line))]
pub fn push_core(text: &mut String, core: usize, end: CoreEnd) -> Result<(), AllocError>
    ensures { OnOk result (string_bytes text.new ≡ string_bytes text.old ++ core_line core end) }
{
    match end {
        CoreEnd::Run => write!(text, "core {core} run\n"),
        CoreEnd::Halt(code) => write!(text, "core {core} halt {code}\n"),
        CoreEnd::Trap(code) => write!(text, "core {core} trap {code}\n"),
    }
}

#[tactic(auto, unfolding(crate::specs::Lines::pc_line))]
pub fn push_pc(text: &mut String, pc: u32) -> Result<(), AllocError>
    ensures { OnOk result (string_bytes text.new ≡ string_bytes text.old ++ pc_line pc) }
{
    write!(text, "pc {pc:08x}\n")
}

#[tactic(auto, unfolding(crate::specs::Lines::reg_line))]
pub fn push_reg(text: &mut String, r: u8, value: u32) -> Result<(), AllocError>
    ensures { OnOk result (string_bytes text.new ≡ string_bytes text.old ++ reg_line r value) }
{
    write!(text, "reg {r} {value:08x}\n")
}

fn push_bytes(text: &mut String, bytes: &[u8]) -> Result<(), AllocError>
    ensures { OnOk result (string_bytes text.new ≡ string_bytes text.old ++ flat_map (hex 2) bytes.now) }
{
    for byte in bytes {
        write!(text, "{byte:02x}")?;
    }
    Ok(())
}

/// Appends the line of the bytes that a core has printed. After want of memory a part of it may stand there.
#[tactic(auto, unfolding(crate::specs::Lines::console_line))]
pub fn push_console(text: &mut String, console: &[u8]) -> Result<(), AllocError>
    ensures { OnOk result (string_bytes text.new ≡ string_bytes text.old ++ console_line console.now) }
{
    text.push_str("console ")?;
    push_bytes(text, console)?;
    text.push_str("\n")
}

/// Appends the line of a word of RAM, by its address in bytes. After want of memory a part of it may stand there.
pub fn push_mem(text: &mut String, addr: u32, value: u32) -> Result<(), AllocError>
    ensures { OnOk result (string_bytes text.new ≡ string_bytes text.old ++ mem_line addr value) }
{
    let mut line = [0; ROOM];
    let start = put_mem(addr, value, &mut line);
    push_from(text, &line, start)
}
