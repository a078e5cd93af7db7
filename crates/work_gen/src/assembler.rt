// The instructions that the workloads are made of, by their names in assembly.
ghost use Rattle.std.specs.Prelude.{◌≡◌, ◌<◌};
ghost use Rattle.rv_decode.specs.declared.instruction.Inst.TheVariants.{Lui, Branch, Load, Store, OpImm, Op};
ghost use Rattle.rv_decode.specs.declared.instruction.Cond.TheVariants.{Bne};
ghost use Rattle.rv_decode.specs.declared.instruction.LoadKind.TheVariants.{Lw};
ghost use Rattle.rv_decode.specs.declared.instruction.ImmOp.TheVariants.{Addi, Andi, Slli};
ghost use Rattle.rv_decode.specs.declared.instruction.RegOp.TheVariants.{Add};
ghost use Rattle.tcc_base.specs.declared.access.Size.TheVariants.{Word};

use rv_decode::{Cond, ImmOp, Inst, LoadKind, RegOp};
use tcc_base::{Reg, Size};

/// The register of a number below 32.
fn x(number: u8) -> Reg
    requires { number < 32 }
    ensures { result ≡ number }
{
    match Reg::new(number) {
        Some(reg) => reg,
        None => unreachable!(),
    }
}

/// lui rd, with the whole immediate.
pub fn lui(rd: u8, imm: u32) -> Inst
    requires { rd < 32 }
    ensures { result ≡ Lui rd imm }
{
    Inst::Lui { rd: x(rd), imm }
}

/// addi rd,rs1,imm
pub fn addi(rd: u8, rs1: u8, imm: i32) -> Inst
    requires rd { rd < 32 }
    requires rs1 { rs1 < 32 }
    ensures { result ≡ OpImm Addi rd rs1 imm }
{
    op_imm(ImmOp::Addi, rd, rs1, imm)
}

/// andi rd,rs1,imm
pub fn andi(rd: u8, rs1: u8, imm: i32) -> Inst
    requires rd { rd < 32 }
    requires rs1 { rs1 < 32 }
    ensures { result ≡ OpImm Andi rd rs1 imm }
{
    op_imm(ImmOp::Andi, rd, rs1, imm)
}

/// slli rd,rs1,amount
pub fn slli(rd: u8, rs1: u8, amount: i32) -> Inst
    requires rd { rd < 32 }
    requires rs1 { rs1 < 32 }
    ensures { result ≡ OpImm Slli rd rs1 amount }
{
    op_imm(ImmOp::Slli, rd, rs1, amount)
}

fn op_imm(op: ImmOp, rd: u8, rs1: u8, imm: i32) -> Inst
    requires rd { rd < 32 }
    requires rs1 { rs1 < 32 }
    ensures { result ≡ OpImm op rd rs1 imm }
{
    Inst::OpImm {
        op,
        rd: x(rd),
        rs1: x(rs1),
        imm,
    }
}

/// add rd,rs1,rs2
pub fn add(rd: u8, rs1: u8, rs2: u8) -> Inst
    requires rd { rd < 32 }
    requires rs1 { rs1 < 32 }
    requires rs2 { rs2 < 32 }
    ensures { result ≡ Op Add rd rs1 rs2 }
{
    Inst::Op {
        op: RegOp::Add,
        rd: x(rd),
        rs1: x(rs1),
        rs2: x(rs2),
    }
}

/// lw rd,imm(rs1)
pub fn lw(rd: u8, imm: i32, rs1: u8) -> Inst
    requires rd { rd < 32 }
    requires rs1 { rs1 < 32 }
    ensures { result ≡ Load Lw rd rs1 imm }
{
    Inst::Load {
        kind: LoadKind::Lw,
        rd: x(rd),
        rs1: x(rs1),
        imm,
    }
}

/// sw rs2,imm(rs1)
pub fn sw(rs2: u8, imm: i32, rs1: u8) -> Inst
    requires rs2 { rs2 < 32 }
    requires rs1 { rs1 < 32 }
    ensures { result ≡ Store Word rs1 rs2 imm }
{
    Inst::Store {
        size: Size::Word,
        rs1: x(rs1),
        rs2: x(rs2),
        imm,
    }
}

/// bne rs1,rs2, to the instruction that stands so far from this one.
pub fn bne(rs1: u8, rs2: u8, offset: i32) -> Inst
    requires rs1 { rs1 < 32 }
    requires rs2 { rs2 < 32 }
    ensures { result ≡ Branch Bne rs1 rs2 offset }
{
    Inst::Branch {
        cond: Cond::Bne,
        rs1: x(rs1),
        rs2: x(rs2),
        offset,
    }
}
