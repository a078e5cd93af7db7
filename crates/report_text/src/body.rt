// The lines that every report shows: the commits, the cores as they ended, and the words that changed.
ghost use Rattle.std.specs.Prelude.{◌≡◌, [], ◌++◌, ◌+◌, ◌*◌, ◌^◌, ◌<◌, ◌≤◌, ◌==◌, if◌then◌else◌, OnOk, string_bytes};
ghost use Rattle.std.specs.List.{flat_map};
ghost use Rattle.report_text.specs.Ending.{shown_of};
ghost use Rattle.report_text.specs.Text.{commit_text, register_text, registers_text, core_text, cores_text, ram_text, body_text};
ghost use Rattle.report_text.specs.Lines.{load_line, mem_line};
ghost use Rattle.report_text.specs.InLines.{line_text};

use crate::lines::{push_commit, push_console, push_core, push_load, push_mem, push_pc, push_reg};
use crate::shown::{CoreShown, Ending, ShownWords};
use reg_checkpoint::Regs;
use std::alloc::AllocError;
use tcc_base::{Commit, LineAddr, Load, Reg};

fn push_loads(text: &mut String, loads: &[Load]) -> Result<(), AllocError>
    ensures { OnOk result (string_bytes text.new ≡ string_bytes text.old ++ flat_map load_line loads.now) }
{
    for load in loads {
        push_load(text, load)?;
    }
    Ok(())
}

#[tactic(auto, unfolding(crate::specs::Text::commit_text))]
fn push_commits(text: &mut String, commits: &[Commit]) -> Result<(), AllocError>
    ensures { OnOk result (string_bytes text.new ≡ string_bytes text.old ++ flat_map commit_text commits.now) }
{
    for commit in commits {
        push_commit(text, commit)?;
        push_loads(text, &commit.loads.items)?;
    }
    Ok(())
}

#[tactic(auto, unfolding(crate::specs::Text::register_text))]
fn push_register(text: &mut String, regs: &Regs, r: Reg) -> Result<(), AllocError>
    ensures { OnOk result (string_bytes text.new ≡ string_bytes text.old ++ register_text regs.now r) }
{
    let value = regs.get(r);
    if value != 0 {
        push_reg(text, r.number(), value)?;
    }
    Ok(())
}

#[tactic(auto, unfolding(crate::specs::Text::registers_text))]
fn push_registers(text: &mut String, regs: &Regs) -> Result<(), AllocError>
    ensures { OnOk result (string_bytes text.new ≡ string_bytes text.old ++ registers_text regs.now) }
{
    for number in 1..32 {
        if let Some(r) = Reg::new(number) {
            push_register(text, regs, r)?;
        }
    }
    Ok(())
}

/// Appends the lines of a core: how it ended, its pc, its registers that aren't 0, and what it has printed. After want of memory a part
/// of them may stand there.
#[tactic(auto, unfolding(crate::specs::Text::core_text, crate::specs::Text::console_text))]
pub fn push_core_lines(text: &mut String, number: usize, core: &CoreShown) -> Result<(), AllocError>
    ensures { OnOk result (string_bytes text.new ≡ string_bytes text.old ++ core_text number core.now) }
{
    push_core(text, number, core.end)?;
    push_pc(text, core.pc)?;
    push_registers(text, &core.regs)?;
    if !core.console.is_empty() {
        push_console(text, core.console)?;
    }
    Ok(())
}

fn push_cores(text: &mut String, cores: &[CoreShown]) -> Result<(), AllocError>
    ensures { OnOk result (string_bytes text.new ≡ string_bytes text.old ++ cores_text 0 cores.now) }
{
    for (number, core) in cores.iter().enumerate() {
        push_core_lines(text, number, core)?;
    }
    Ok(())
}

// The line of a word at this address, where it isn't what it was.
fn push_word(text: &mut String, addr: u32, value: u32, old: u32) -> Result<(), AllocError>
    ensures { OnOk result (string_bytes text.new ≡ string_bytes text.old ++ (if value == old then [] else mem_line addr value)) }
{
    if value != old {
        push_mem(text, addr, value)?;
    }
    Ok(())
}

// The lines of those words of a line of RAM that changed.
fn push_line<R: ShownWords, L: ShownWords>(
    text: &mut String,
    base: u32,
    ram: &R,
    loaded: &L,
    line: LineAddr,
) -> Result<(), AllocError>
    requires in_ram { 8 * line.0 < R.count ram.now }
    requires was_loaded { 8 * line.0 < L.count loaded.now }
    requires fits { base + 32 * (line.0 + 1) ≤ 2 ^ 32 }
    ensures { OnOk result (string_bytes text.new ≡ string_bytes text.old ++ line_text base (R.words ram.now) (L.words loaded.now) line.0) }
{
    let now = ram.line(line);
    let old = loaded.line(line);
    if now != old {
        for k in 0..8 {
            push_word(
                text,
                base + 4 * (8 * line.0 + k),
                now[k as usize],
                old[k as usize],
            )?;
        }
    }
    Ok(())
}

#[tactic(auto, unfolding(crate::specs::Text::ram_text))]
fn push_ram<R: ShownWords, L: ShownWords>(
    text: &mut String,
    base: u32,
    ram: &R,
    loaded: &L,
) -> Result<(), AllocError>
    requires same { R.count ram.now ≡ L.count loaded.now }
    requires fits { base + 4 * R.count ram.now ≤ 2 ^ 32 }
    ensures { OnOk result (string_bytes text.new
        ≡ string_bytes text.old ++ ram_text base (R.count ram.now) (R.words ram.now) (L.words loaded.now)) }
{
    let count = ram.line_count() as u32;
    for line in 0..count {
        push_line(text, base, ram, loaded, LineAddr(line))?;
    }
    Ok(())
}

#[tactic(auto, unfolding(crate::specs::Text::body_text))]
pub fn push_body<R: ShownWords, L: ShownWords>(
    text: &mut String,
    ending: &Ending<R, L>,
) -> Result<(), AllocError>
    requires same { R.count ending.now.ram.now ≡ L.count ending.now.loaded.now }
    requires fits { ending.now.base + 4 * R.count ending.now.ram.now ≤ 2 ^ 32 }
    ensures { OnOk result (string_bytes text.new ≡ string_bytes text.old ++ body_text (shown_of R.words R.count L.words ending.now)) }
{
    push_commits(text, ending.commits)?;
    push_cores(text, ending.cores)?;
    push_ram(text, ending.base, ending.ram, ending.loaded)
}
