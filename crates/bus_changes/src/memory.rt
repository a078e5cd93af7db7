// Memory, compared with what it was.
ghost use Rattle.std.specs.Prelude.{◌≡◌, ◌<◌, ◌*◌, ◌/◌, ◌^◌, ◌==◌, ◌++◌, ◌∷◌, [], IfOk, OnOk, length, map, string_bytes};
ghost use Rattle.std.specs.List.{flat_map};
ghost use Rattle.image_load.specs.Start.{first_ram};
ghost use Rattle.rules_maps.specs.Shape.{lines};
ghost use Rattle.rules_maps.specs.Words.{line_of};
ghost use Rattle.rules_tcc.specs.Seen.{numbers};
ghost use Rattle.rules_bus.specs.State.{BusWorld};
ghost use Rattle.bus_tcc.specs.Machine.{bus_settings_of, bus_start_of, bus_world_of, word_in};
ghost use Rattle.bus_changes.specs.Changes.{bus_change_lines, value_changes, word_changes, words_changes};
ghost use Rattle.bus_changes.specs.Following.{IsMemoryKept};
ghost use Rattle.bus_changes.specs.Memory.{AreInMemory, AreTaken, IsCopy, IsRenewed, is_among, may_have_changed, number_of_line};

use crate::lines::{push_gone, push_told};
use bus_state::BusRecord;
use bus_tcc::BusSystem;
use std::alloc::{AllocError, Global};
use tcc_base::{List, NoMemory, Tagged, Tid, WordAddr};

/// What is told of a word, by the values that it had, has, and was loaded with.
#[tactic(auto, unfolding(crate::specs::Changes::value_changes, crate::specs::Changes::bus_change_lines))]
fn push_value(text: &mut String, addr: u32, was: u32, is: u32, first: u32) -> Result<(), AllocError>
    ensures { OnOk result (string_bytes text.new ≡ string_bytes text.old ++ bus_change_lines (value_changes addr was is first)) }
{
    if was == is {
        return Ok(());
    }
    if is == first {
        return push_gone(text, &BusRecord::MemoryWord { addr, value: was });
    }
    push_told(text, &BusRecord::MemoryWord { addr, value: is })
}

/// What is told of a word of this memory, as it was.
#[tactic(auto, unfolding(crate::specs::Changes::word_changes))]
fn push_word(
    text: &mut String,
    was: &[u32],
    system: &BusSystem,
    word: WordAddr,
) -> Result<(), AllocError>
    requires exists { word.0 < (bus_settings_of system.now).ram / 4 }
    requires kept { word.0 < length was.now }
    ensures { OnOk result (string_bytes text.new ≡ string_bytes text.old ++ bus_change_lines (word_changes (bus_settings_of system.now)
        (first_ram (bus_start_of system.now)) (word_in was.now) (bus_world_of system.now).ram word.0)) }
{
    let addr = system.config().base() + 4 * word.0;
    let first = system.code().word(word);
    push_value(text, addr, was[word.0 as usize], system.word(word), first)
}

/// The words of a line.
#[tactic(auto, unfolding(crate::specs::Changes::words_changes, rules_maps::specs::Words::those))]
fn push_line(
    text: &mut String,
    was: &[u32],
    system: &BusSystem,
    line: u32,
) -> Result<(), AllocError>
    requires exists { line < lines (bus_settings_of system.now) }
    requires small { line < 2 ^ 29 }
    requires kept { length was.now ≡ 8 * lines (bus_settings_of system.now) }
    ensures { OnOk result (string_bytes text.new ≡ string_bytes text.old ++ bus_change_lines (words_changes (bus_settings_of system.now)
        (first_ram (bus_start_of system.now)) (word_in was.now) (bus_world_of system.now).ram line)) }
{
    for k in 0..8 {
        push_word(text, was, system, WordAddr(8 * line + k))?;
    }
    Ok(())
}

/// The words of these lines.
fn push_lines(
    text: &mut String,
    was: &[u32],
    system: &BusSystem,
    touched: &[u32],
) -> Result<(), AllocError>
    requires exist { AreInMemory (bus_settings_of system.now) touched.now }
    requires kept { length was.now ≡ 8 * lines (bus_settings_of system.now) }
    ensures { OnOk result (string_bytes text.new ≡ string_bytes text.old ++ bus_change_lines (flat_map (words_changes
        (bus_settings_of system.now) (first_ram (bus_start_of system.now)) (word_in was.now) (bus_world_of system.now).ram) touched.now)) }
{
    let mut at = 0;
    while at < touched.len() {
        push_line(text, was, system, touched[at])?;
        at += 1;
    }
    Ok(())
}

/// A line's words are kept as they are now.
fn keep_line(ram: &mut [u32], system: &BusSystem, line: u32)
    requires exists { line < lines (bus_settings_of system.now) }
    requires small { line < 2 ^ 29 }
    requires kept { length ram.old ≡ 8 * lines (bus_settings_of system.now) }
    ensures count { length ram.new ≡ length ram.old }
    ensures words { AreTaken (λ x. line_of x == line) (word_in ram.old) (word_in ram.new) (bus_world_of system.now).ram }
{
    for k in 0..8 {
        let word = 8 * line + k;
        ram[word as usize] = system.word(WordAddr(word));
    }
}

/// The words of these lines are kept as they are now.
fn keep_lines(ram: &mut [u32], system: &BusSystem, touched: &[u32])
    requires exist { AreInMemory (bus_settings_of system.now) touched.now }
    requires kept { length ram.old ≡ 8 * lines (bus_settings_of system.now) }
    ensures count { length ram.new ≡ length ram.old }
    ensures words { AreTaken (λ x. is_among (line_of x) touched.now) (word_in ram.old) (word_in ram.new) (bus_world_of system.now).ram }
{
    let mut at = 0;
    while at < touched.len() {
        keep_line(ram, system, touched[at]);
        at += 1;
    }
}

/// The same of all memory.
fn keep_all(ram: &mut List<u32>, system: &BusSystem, touched: &[u32])
    requires exist { AreInMemory (bus_settings_of system.now) touched.now }
    requires kept { length ram.old ≡ 8 * lines (bus_settings_of system.now) }
    ensures count { length ram.new ≡ length ram.old }
    ensures words { AreTaken (λ x. is_among (line_of x) touched.now) (word_in ram.old) (word_in ram.new) (bus_world_of system.now).ram }
{
    keep_lines(&mut ram.items, system, touched);
}

/// All lines below a number.
#[tactic(auto, unfolding(rules_maps::specs::Words::those))]
fn all_lines(alloc: Global, count: u32) -> Result<List<u32>, AllocError>
    ensures { IfOk result (λ all. all ≡ numbers count) }
{
    let mut all = List::new(alloc);
    for line in 0..count {
        keep(&mut all, line)?;
    }
    Ok(all)
}

/// The numbers of a packet's lines.
fn numbers_of(alloc: Global, lines: &[Tagged]) -> Result<List<u32>, AllocError>
    ensures { IfOk result (λ all. all ≡ map number_of_line lines.now) }
{
    let mut all = List::new(alloc);
    for line in lines {
        keep(&mut all, line.line.0)?;
    }
    Ok(all)
}

/// One number more.
fn keep(all: &mut List<u32>, number: u32) -> Result<(), AllocError>
    ensures { OnOk result (all.new ≡ all.old ++ number ∷ []) }
{
    match all.push(number) {
        Ok(()) => Ok(()),
        Err(NoMemory) => Err(AllocError),
    }
}

/// The lines that a commit may have changed.
fn touched(alloc: Global, system: &BusSystem) -> Result<List<u32>, AllocError>
    ensures lines { IfOk result (λ all. all ≡ may_have_changed system.now) }
    ensures exist { IfOk result (AreInMemory (bus_settings_of system.now)) }
{
    let count = system.config().words() / 8;
    if system.config().cores() <= 1 {
        return all_lines(alloc, count);
    }
    numbers_of(alloc, system.bus().lines())
}

/// Appends what changed of memory by a commit, and keeps memory as it is now.
fn renew_memory(
    alloc: Global,
    text: &mut String,
    ram: &mut List<u32>,
    system: &BusSystem,
) -> Result<(), AllocError>
    requires kept { length ram.old ≡ 8 * lines (bus_settings_of system.now) }
    ensures count { length ram.new ≡ length ram.old }
    ensures told { OnOk result (string_bytes text.new ≡ string_bytes text.old
        ++ bus_change_lines (flat_map (words_changes (bus_settings_of system.now) (first_ram (bus_start_of system.now)) (word_in ram.old)
        (bus_world_of system.now).ram) (may_have_changed system.now))) }
    ensures words { OnOk result (AreTaken (λ x. is_among (line_of x) (may_have_changed system.now)) (word_in ram.old) (word_in ram.new)
        (bus_world_of system.now).ram) }
{
    let touched = touched(alloc, system)?;
    push_lines(text, &ram.items, system, &touched.items)?;
    keep_all(ram, system, &touched.items);
    Ok(())
}

/// The same where there was a commit since the TID of the next one was this; else nothing changed.
pub(crate) fn push_memory(
    alloc: Global,
    text: &mut String,
    next: Tid,
    ram: &mut List<u32>,
    system: &BusSystem,
) -> Result<(), AllocError>
    requires kept { length ram.old ≡ 8 * lines (bus_settings_of system.now) }
    ensures { (w : BusWorld) → IsCopy (lines (bus_settings_of system.now)) w.ram ram.old → next.0 ≡ w.next
        → IsMemoryKept (bus_settings_of system.now) w (bus_world_of system.now)
        → OnOk result (IsRenewed system.now w ram.new (string_bytes text.old) (string_bytes text.new)) }
{
    if system.next().0 == next.0 {
        return Ok(());
    }
    renew_memory(alloc, text, ram, system)
}

/// A copy of memory.
pub(crate) fn copied_memory(alloc: Global, system: &BusSystem) -> Result<List<u32>, AllocError>
    ensures { IfOk result (IsCopy (lines (bus_settings_of system.now)) (bus_world_of system.now).ram) }
{
    let mut ram = List::new(alloc);
    for word in 0..8 * (system.config().words() / 8) {
        keep(&mut ram, system.word(WordAddr(word)))?;
    }
    Ok(ram)
}
