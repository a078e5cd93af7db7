// The text of the plain machine: rows for its last TID, its cores and the lines of its memory. Each call takes time for what it writes;
// where memory runs out, a part of it may stand at the end.
ghost use Rattle.std.specs.Prelude.{◌≡◌, ◌/◌, ◌++◌, OnOk, length};
ghost use Rattle.std.specs.List.{flat_map};
ghost use Rattle.row_text.specs.Rows.{number_text, row_text, rows_text};
ghost use Rattle.serial_tool.specs.PlainTexts.{all_zero, core_row, core_rows, end_code, end_kind, mem_row, mem_rows, plain_text, ram_rows};
ghost use Rattle.serial_tool.specs.PlainTexts.{registers};

use reg_checkpoint::Regs;
use row_text::{begin_row, end_row, push_number, push_row};
use rv_plain::{CoreState, Plain};
use tcc_base::{CoreEnd, List, NoMemory, Reg, Tid};

/// How a core stands, as the number of its kind.
fn end_kind(ended: CoreEnd) -> u64
    ensures { result ≡ end_kind ended }
{
    match ended {
        CoreEnd::Run => 0,
        CoreEnd::Halt(_) => 1,
        CoreEnd::Trap(_) => 2,
    }
}

/// The code with which a core ended; 0 where it runs.
fn end_code(ended: CoreEnd) -> u64
    ensures { result ≡ end_code ended }
{
    match ended {
        CoreEnd::Run => 0,
        CoreEnd::Halt(code) => code as u64,
        CoreEnd::Trap(code) => code as u64,
    }
}

/// Appends x1 to x31.
fn push_registers(text: &mut List<u8>, regs: &Regs) -> Result<(), NoMemory>
    ensures { OnOk result (text.new ≡ text.old ++ flat_map number_text (registers 31 1 regs.now)) }
{
    for number in 1..32 {
        let r = Reg::new(number).unwrap();
        push_number(text, regs.get(r) as u64)?;
    }
    Ok(())
}

/// Appends the row of a core.
#[tactic(auto, unfolding(crate::specs::PlainTexts::core_numbers, row_text::specs::Rows::row_text))]
fn push_core(text: &mut List<u8>, number: u64, core: &CoreState) -> Result<(), NoMemory>
    ensures { OnOk result (text.new ≡ text.old ++ row_text (core_row number core.now)) }
{
    begin_row(text, b"core")?;
    push_number(text, number)?;
    push_number(text, core.state.pc() as u64)?;
    push_number(text, end_kind(core.ended))?;
    push_number(text, end_code(core.ended))?;
    push_registers(text, core.state.regs())?;
    end_row(text)
}

#[tactic(auto, unfolding(crate::specs::PlainTexts::core_rows, row_text::specs::Rows::rows_text))]
fn push_cores(text: &mut List<u8>, cores: &[CoreState]) -> Result<(), NoMemory>
    ensures { OnOk result (text.new ≡ text.old ++ rows_text (core_rows 0 cores.now)) }
{
    for (number, core) in cores.iter().enumerate() {
        push_core(text, number as u64, core)?;
    }
    Ok(())
}

/// Whether each of the words is 0.
#[tactic(auto, unfolding(crate::specs::PlainTexts::all_zero))]
pub fn are_zero(words: &[u32]) -> bool
    ensures { result ≡ all_zero words.now }
{
    for word in words {
        if *word != 0 {
            return false;
        }
    }
    true
}

fn push_words(text: &mut List<u8>, words: &[u32]) -> Result<(), NoMemory>
    ensures { OnOk result (text.new ≡ text.old ++ flat_map number_text words.now) }
{
    for word in words {
        push_number(text, *word as u64)?;
    }
    Ok(())
}

/// Appends the row of a line of memory, if not all its words are 0.
#[tactic(auto, unfolding(crate::specs::PlainTexts::mem_row, row_text::specs::Rows::row_text, row_text::specs::Rows::rows_text))]
fn push_line(text: &mut List<u8>, line: u64, words: &[u32]) -> Result<(), NoMemory>
    ensures { OnOk result (text.new ≡ text.old ++ rows_text (mem_row line words.now)) }
{
    if are_zero(words) {
        return Ok(());
    }
    begin_row(text, b"mem")?;
    push_number(text, line)?;
    push_words(text, words)?;
    end_row(text)
}

#[tactic(auto, unfolding(crate::specs::PlainTexts::mem_rows, row_text::specs::Rows::rows_text))]
fn push_lines(text: &mut List<u8>, ram: &[u32]) -> Result<(), NoMemory>
    ensures { OnOk result (text.new ≡ text.old ++ rows_text (mem_rows (length ram.now / 8) 0 ram.now)) }
{
    for line in 0..ram.len() / 8 {
        push_line(text, line as u64, &ram[8 * line..8 * line + 8])?;
    }
    Ok(())
}

#[tactic(auto, unfolding(crate::specs::PlainTexts::ram_rows, row_text::specs::Rows::rows_text))]
fn push_ram(text: &mut List<u8>, ram: &[u32]) -> Result<(), NoMemory>
    ensures { OnOk result (text.new ≡ text.old ++ rows_text (ram_rows ram.now)) }
{
    push_lines(text, ram)?;
    push_row(text, b"end", &[])
}

/// Appends the text of the machine whose last transaction had this TID: its RAM, its cores' registers and pc, and how they ended; what
/// they printed isn't in it.
#[tactic(auto, unfolding(crate::specs::PlainTexts::plain_rows, row_text::specs::Rows::rows_text))]
pub fn push_plain(text: &mut List<u8>, machine: &Plain, last: Tid) -> Result<(), NoMemory>
    ensures { OnOk result (text.new ≡ text.old ++ plain_text machine.now last.0) }
{
    push_row(text, b"tcc-plain", &[1])?;
    push_row(text, b"last", &[last.0])?;
    push_cores(text, machine.cores())?;
    push_ram(text, machine.ram())
}
