// Reading the text of a plain machine: the machine of a program that was loaded, in the state that the text tells.
ghost use Rattle.std.specs.Prelude.{◌≡◌, ◌+◌, ◌*◌, ◌/◌, ◌<◌, ◌≤◌, ◌^◌, ◌++◌, [], true, false, All, IfErr, IfOk, MatchOption, OnOk};
ghost use Rattle.std.specs.Prelude.{drop, length};
ghost use Rattle.row_text.specs.Rows.{rows_text};
ghost use Rattle.serial_tool.specs.PlainTexts.{AreCoresRead, HasNoCore, HasNoCores, HasNoEnd, HasNoHead, HasNoLine, HasNoMachine};
ghost use Rattle.serial_tool.specs.PlainTexts.{HasNoRam, HasNoRegisters, HasNoWords, IsFresh, IsPut, Refuses, all_zero, core_numbers};
ghost use Rattle.serial_tool.specs.PlainTexts.{end_code, end_kind, head_rows, plain_text, ram_rows, registers};

use crate::writing::are_zero;
use image_load::Loaded;
use reg_checkpoint::{Regs, State};
use row_text::read_row;
use rv_plain::{CoreState, Plain};
use schedule_text::TextFault;
use std::alloc::Global;
use tcc_base::{CoreEnd, List, NoMemory, Reg, Tid};

/// The numbers of a core's row: the core, its pc, how it stands with its code, and x1 to x31.
const CORE: usize = 35;

/// The plain machine that a text tells, and the TID of its last transaction, 0 before the first.
#[derive(Debug, Drop)]
pub struct Restored {
    pub machine: Plain,
    pub last: Tid,
}

/// The first two rows: the last TID, and the bytes after them.
fn read_head(bytes: &[u8]) -> Result<(u64, &[u8]), TextFault>
    ensures read { IfOk result (λ x. bytes.now ≡ rows_text (head_rows x.0) ++ x.1.now) }
    ensures fits { IfOk result (λ x. x.0 < 2 ^ 64) }
    ensures refused { IfErr result (λ fault. Refuses fault (HasNoHead bytes.now)) }
{
    let mut one = [0; 1];
    let Some(rest) = read_row(bytes, b"tcc-plain", &mut one) else {
        return Err(TextFault::Line(1));
    };
    if one[0] != 1 {
        return Err(TextFault::Line(1));
    }
    match read_row(rest, b"last", &mut one) {
        Some(rest) => Ok((one[0], rest)),
        None => Err(TextFault::Line(2)),
    }
}

/// A number as a word of 32 bits; None exactly where it has more.
fn word_of(number: u64) -> Option<u32>
    ensures { MatchOption result (2 ^ 32 ≤ number) (λ word. word ≡ number) }
{
    if number <= 0xffff_ffff {
        Some(number as u32)
    } else {
        None
    }
}

/// How a core stands of whose row these are the numbers; None exactly where no core stands so.
fn end_of(kind: u64, code: u64) -> Option<CoreEnd>
    ensures { MatchOption result (HasNoEnd kind code) (λ ended. (kind ≡ end_kind ended) × (code ≡ end_code ended)) }
{
    match kind {
        0 if code == 0 => Some(CoreEnd::Run),
        1 if code <= 0xffff_ffff => Some(CoreEnd::Halt(code as u32)),
        2 if code <= 0xff => Some(CoreEnd::Trap(code as u8)),
        _ => None,
    }
}

/// The registers of whose core these are the numbers; None exactly where one of them has more than 32 bits.
fn registers_of(numbers: &[u64; CORE]) -> Option<Regs>
    ensures { MatchOption result (HasNoRegisters numbers.now) (λ regs. drop 4 numbers.now ≡ registers 31 1 regs) }
{
    let mut regs = Regs::new();
    for number in 1..32 {
        let r = Reg::new(number).unwrap();
        regs.set(r, word_of(numbers[3 + number as usize])?);
    }
    Some(regs)
}

/// The core with this number of whose row these are the numbers; None exactly where they are of none.
fn core_of(alloc: Global, core: u64, numbers: &[u64; CORE]) -> Option<CoreState>
    ensures { MatchOption result (HasNoCore core numbers.now) (λ s. (numbers.now ≡ core_numbers core s) × IsFresh s) }
{
    if numbers[0] != core {
        return None;
    }
    let pc = word_of(numbers[1])?;
    let ended = end_of(numbers[2], numbers[3])?;
    let regs = registers_of(numbers)?;
    Some(CoreState {
        state: State::new(regs, pc),
        ended,
        console: List::new(alloc),
    })
}

/// Reads the rows of so many cores, which begin in line 3: appends the cores, and gives the bytes after them.
fn read_cores<'a>(
    alloc: Global,
    bytes: &'a [u8],
    cores: u8,
    found: &mut List<CoreState>,
) -> Result<&'a [u8], TextFault>
    requires { found.old ≡ [] }
    ensures count { OnOk result (length found.new ≡ cores) }
    ensures fresh { OnOk result (All IsFresh found.new) }
    ensures read { IfOk result (λ rest. AreCoresRead bytes.now cores found.new rest.now) }
    ensures refused { IfErr result (λ fault. Refuses fault (HasNoCores bytes.now cores)) }
{
    let mut rest = bytes;
    let mut numbers = [0; CORE];
    for core in 0..cores {
        let line = 3 + core as u64;
        let Some(after) = read_row(rest, b"core", &mut numbers) else {
            return Err(TextFault::Line(line));
        };
        let Some(state) = core_of(alloc, core as u64, &numbers) else {
            return Err(TextFault::Line(line));
        };
        found.push(state)?;
        rest = after;
    }
    Ok(rest)
}

/// The words of whose line these are the numbers, the line's own first; None exactly where they are all 0, or one has more than 32 bits.
fn words_of(numbers: &[u64; 9]) -> Option<[u32; 8]>
    ensures { MatchOption result (HasNoWords numbers.now) (λ words. (drop 1 numbers.now ≡ words) × (all_zero words ≡ false)) }
{
    let mut words = [0; 8];
    for place in 0..8 {
        words[place] = word_of(numbers[place + 1])?;
    }
    if are_zero(&words) { None } else { Some(words) }
}

/// Writes a line of RAM, where it isn't below `next` and isn't all 0: the line after it.
fn put_line(ram: &mut [u32], next: usize, numbers: &[u64; 9]) -> Option<usize>
    ensures length { length ram.new ≡ length ram.old }
    ensures put { MatchOption result (HasNoLine (length ram.old / 8) next numbers.now)
        (λ after. IsPut ram.old ram.new next numbers.now after) }
{
    let words = words_of(numbers)?;
    let lines = ram.len() / 8;
    if numbers[0] >= lines as u64 {
        return None;
    }
    let line = numbers[0] as usize;
    if line < next {
        return None;
    }
    ram[8 * line..8 * line + 8].copy_from_slice(&words);
    Some(line + 1)
}

/// Reads the rows of memory and the last row, which begin in this line, to the end of the bytes.
fn read_ram(bytes: &[u8], first: u64, ram: &mut [u32]) -> Result<(), TextFault>
    requires first { first ≤ 2 ^ 32 }
    requires zero { all_zero ram.old ≡ true }
    requires small { length ram.old ≤ 2 ^ 32 }
    ensures length { length ram.new ≡ length ram.old }
    ensures read { OnOk result (bytes.now ≡ rows_text (ram_rows ram.new)) }
    ensures refused { IfErr result (λ fault. Refuses fault (HasNoRam bytes.now (length ram.old))) }
{
    let mut rest = bytes;
    let mut line = first;
    let mut next = 0;
    let mut numbers = [0; 9];
    while let Some(after) = read_row(rest, b"mem", &mut numbers) {
        match put_line(ram, next, &numbers) {
            Some(after_line) => next = after_line,
            None => return Err(TextFault::Line(line)),
        }
        rest = after;
        line += 1;
    }
    match read_row(rest, b"end", &mut []) {
        Some([]) => Ok(()),
        Some(_) => Err(TextFault::Line(line + 1)),
        None => Err(TextFault::Line(line)),
    }
}

/// So many words of 0.
fn zeros(alloc: Global, words: u32) -> Result<List<u32>, NoMemory>
    ensures { IfOk result (λ ram. (length ram ≡ words) × (all_zero ram ≡ true)) }
{
    match vec![in alloc; 0; words as usize] {
        Ok(items) => Ok(List { items }),
        Err(_) => Err(NoMemory),
    }
}

/// The plain machine with this text, of the program that was loaded, and the TID of its last transaction. It has printed nothing.
///
/// `Line(k)` only where the bytes are no such machine's text, unless memory ran out before; line k is the first that isn't in its place. It
/// goes through the bytes once, and takes no memory but for RAM and the cores.
pub fn read_plain(alloc: Global, bytes: &[u8], loaded: &Loaded) -> Result<Restored, TextFault>
    ensures text { IfOk result (λ r. bytes.now ≡ plain_text r.machine r.last.0) }
    ensures loaded { IfOk result (λ r. r.machine.loaded ≡ loaded.now) }
    ensures fresh { IfOk result (λ r. All IsFresh r.machine.cores) }
    ensures refused { IfErr result (λ fault. Refuses fault (HasNoMachine bytes.now loaded.now.settings)) }
{
    let cores = loaded.config().cores();
    let mut found = List::new(alloc);
    let mut ram = zeros(alloc, loaded.config().words())?;
    let (last, rest) = read_head(bytes)?;
    let rest = read_cores(alloc, rest, cores, &mut found)?;
    read_ram(rest, 3 + cores as u64, &mut ram.items)?;
    let machine = Plain::restored(alloc, loaded, ram, found)?;
    Ok(Restored {
        machine,
        last: Tid(last),
    })
}
