// The programs that a core runs. Each begins at address 0; the words that it loads and stores begin at address 1024.
ghost use Rattle.std.specs.Prelude.{◌≡◌, ◌<◌, ◌≤◌};
ghost use Rattle.rv_decode.specs.Table.{IsImmediate, IsInRange};

use super::work::Work;
use rv_decode::{Cond, ImmOp, Inst, LoadKind, encode};
use std::alloc::{AllocError, Global};
use tcc_base::{Reg, Size};

/// The register of a number below 32.
fn x(number: u8) -> Reg
    requires { number < 32 }
    ensures { result ≡ number }
{
    match Reg::new(number) {
        Some(reg) => reg,
        None => unreachable!(),
    }
}

fn addi(rd: u8, rs1: u8, imm: i32) -> Inst
    requires rd { rd < 32 }
    requires rs1 { rs1 < 32 }
    requires imm { IsImmediate imm }
    ensures { IsInRange result }
{
    Inst::OpImm {
        op: ImmOp::Addi,
        rd: x(rd),
        rs1: x(rs1),
        imm,
    }
}

/// lw x5,1024(x0)
fn load() -> Inst
    ensures { IsInRange result }
{
    Inst::Load {
        kind: LoadKind::Lw,
        rd: x(5),
        rs1: x(0),
        imm: 1024,
    }
}

/// sw x7,imm(rs1)
fn store(imm: i32, rs1: u8) -> Inst
    requires rs1 { rs1 < 32 }
    requires imm { IsImmediate imm }
    ensures { IsInRange result }
{
    Inst::Store {
        size: Size::Word,
        rs1: x(rs1),
        rs2: x(7),
        imm,
    }
}

/// Appends an instruction.
fn put(bytes: &mut Vec<u8>, inst: &Inst) -> Result<(), AllocError>
    requires { IsInRange inst.now }
{
    bytes.extend_from_slice(&encode(*inst).to_le_bytes())
}

/// Goes so many instructions back, where x7 isn't 0.
fn put_loop(bytes: &mut Vec<u8>, over: i32) -> Result<(), AllocError>
    requires { IsInRange (Inst.Branch Cond.Bne 7 0 over) }
{
    put(bytes, &addi(7, 7, -1))?;
    put(
        bytes,
        &Inst::Branch {
            cond: Cond::Bne,
            rs1: x(7),
            rs2: x(0),
            offset: over,
        },
    )
}

/// The transaction ends, and the next one begins at the start, which is so far from here.
fn put_end(bytes: &mut Vec<u8>, start: i32) -> Result<(), AllocError>
    requires { IsInRange (Inst.Jal 0 start) }
{
    put(bytes, &Inst::Ecall)?;
    put(
        bytes,
        &Inst::Jal {
            rd: x(0),
            offset: start,
        },
    )
}

/// A transaction of a hundred times 32 such instructions.
fn many(bytes: &mut Vec<u8>, inst: &Inst) -> Result<(), AllocError>
    requires { IsInRange inst.now }
{
    put(bytes, &addi(7, 0, 100))?;
    for _ in 0..32 {
        put(bytes, inst)?;
    }
    put_loop(bytes, -4 * 33)?;
    put_end(bytes, -4 * 36)
}

/// Stores into so many lines, behind a load.
fn stores(bytes: &mut Vec<u8>, lines: u32) -> Result<(), AllocError>
    requires { lines ≤ 500 }
{
    put(bytes, &load())?;
    put(bytes, &addi(6, 0, 1056))?;
    put(bytes, &addi(7, 0, lines as i32))?;
    put(bytes, &store(0, 6))?;
    put(bytes, &addi(6, 6, 32))?;
    put_loop(bytes, -4 * 3)?;
    put_end(bytes, -4 * 8)
}

/// The program of a kind of work.
pub fn program(alloc: Global, work: Work, lines: u32) -> Result<Vec<u8>, AllocError>
    requires { lines ≤ 500 }
{
    let mut bytes = Vec::new(alloc);
    match work {
        Work::Arithmetic => many(&mut bytes, &addi(5, 5, 1))?,
        Work::Loads => many(&mut bytes, &load())?,
        Work::Stores => many(&mut bytes, &store(1024, 0))?,
        Work::Commit | Work::RollBack => stores(&mut bytes, lines)?,
        _ => {
            put(&mut bytes, &load())?;
            put_end(&mut bytes, -4 * 2)?;
        }
    }
    Ok(bytes)
}

/// After how many instructions a core is violated whose transactions don't commit.
pub fn violated_after(work: Work, lines: u32) -> Option<u32>
    requires { lines ≤ 500 }
{
    match work {
        Work::Miss => Some(1),
        Work::RollBack => Some(3 + 4 * lines),
        _ => None,
    }
}
