// Encoding: the word that the table has for an instruction.
ghost use Rattle.std.specs.Prelude.{◌≡◌, ◌<◌, ◌^◌, Some};
ghost use Rattle.rv_decode.specs.Codes.{cond_code, load_kind_code, size_code, imm_op_code, reg_op_funct3, reg_op_funct7, amo_op_code};
ghost use Rattle.rv_decode.specs.Decoding.{decoded};
ghost use Rattle.rv_decode.specs.declared.instruction.Inst.TheVariants.{Branch, Load, Store, OpImm, Op, Amo};
ghost use Rattle.rv_decode.specs.Table.{Encodes, HasRegisters, IsInRange, IsBranchOffset, IsImmediate, IsOperand, encoding};

use crate::formats::{a_type, b_type, i_type, j_type, r_type, s_type, u_type};
use crate::instruction::{AmoOp, Cond, ImmOp, Inst, LoadKind, RegOp};
use tcc_base::{Reg, Size};

/// The word of an instruction.
///
/// Asks that immediates and offsets are in the range of their row: -2048 to 2047 for the formats I and S, 0 to 31 for
/// the shifts, the even numbers from -4096 to 4094 for B and from -1048576 to 1048574 for J, a multiple of 4096 for U;
/// that the `bits` of a `Fence` are zero where its word has opcode and funct3; and that an `order` is below 4. Takes no memory,
/// and constant time.
pub fn encode(inst: Inst) -> u32
    requires { IsInRange inst }
    ensures row { Encodes result inst }
    ensures back { decoded result ≡ Some inst }
{
    table_word(inst)
}

/// The word that the row of an instruction gives.
#[tactic(auto, unfolding(crate::specs::Table::encoding))]
fn table_word(inst: Inst) -> u32
    requires { IsInRange inst }
    ensures registers { HasRegisters inst }
    ensures row { result ≡ encoding inst }
{
    match inst {
        Inst::Lui { rd, imm } => u_type(0b0110111, rd, imm),
        Inst::Auipc { rd, imm } => u_type(0b0010111, rd, imm),
        Inst::Jal { rd, offset } => j_type(0b1101111, rd, offset),
        Inst::Jalr { rd, rs1, imm } => i_type(0b1100111, 0b000, rd, rs1, imm),
        Inst::Branch {
            cond,
            rs1,
            rs2,
            offset,
        } => branch(cond, rs1, rs2, offset),
        Inst::Load { kind, rd, rs1, imm } => load(kind, rd, rs1, imm),
        Inst::Store {
            size,
            rs1,
            rs2,
            imm,
        } => store(size, rs1, rs2, imm),
        Inst::OpImm { op, rd, rs1, imm } => register_immediate(op, rd, rs1, imm),
        Inst::Op { op, rd, rs1, rs2 } => register_register(op, rd, rs1, rs2),
        Inst::Fence { bits } => bits + 0b0001111,
        Inst::Lr { rd, rs1, order } => a_type(0b00010, order, rd, rs1, 0),
        Inst::Sc {
            rd,
            rs1,
            rs2,
            order,
        } => a_type(0b00011, order, rd, rs1, rs2.number() as u32),
        Inst::Amo {
            op,
            rd,
            rs1,
            rs2,
            order,
        } => atomic(op, order, rd, rs1, rs2),
        Inst::Ecall => 0x0000_0073,
        Inst::Ebreak => 0x0010_0073,
    }
}

/// The word of a branch.
#[tactic(auto, using(crate::proofs::Rows::rows))]
fn branch(cond: Cond, rs1: Reg, rs2: Reg, offset: i32) -> u32
    requires { IsBranchOffset offset }
    ensures row { result ≡ encoding (Branch cond rs1 rs2 offset) }
    ensures registers { (rs1 < 32) × (rs2 < 32) }
{
    b_type(0b1100011, cond_code(cond), rs1, rs2, offset)
}

/// The word of a load.
#[tactic(auto, using(crate::proofs::Rows::rows))]
fn load(kind: LoadKind, rd: Reg, rs1: Reg, imm: i32) -> u32
    requires { IsImmediate imm }
    ensures row { result ≡ encoding (Load kind rd rs1 imm) }
    ensures registers { (rd < 32) × (rs1 < 32) }
{
    i_type(0b0000011, load_kind_code(kind), rd, rs1, imm)
}

/// The word of a store.
#[tactic(auto, using(crate::proofs::Rows::rows))]
fn store(size: Size, rs1: Reg, rs2: Reg, imm: i32) -> u32
    requires { IsImmediate imm }
    ensures row { result ≡ encoding (Store size rs1 rs2 imm) }
    ensures registers { (rs1 < 32) × (rs2 < 32) }
{
    s_type(0b0100011, size_code(size), rs1, rs2, imm)
}

/// The word of an operation on two registers.
#[tactic(auto, using(crate::proofs::Rows::rows))]
fn register_register(op: RegOp, rd: Reg, rs1: Reg, rs2: Reg) -> u32
    ensures row { result ≡ encoding (Op op rd rs1 rs2) }
    ensures registers { (rd < 32) × (rs1 < 32) × (rs2 < 32) }
{
    r_type(
        0b0110011,
        reg_op_funct3(op),
        reg_op_funct7(op),
        rd,
        rs1,
        rs2.number() as u32,
    )
}

/// The word of an operation on a register and an immediate.
#[tactic(auto, unfolding(crate::specs::Table::encoding))]
fn register_immediate(op: ImmOp, rd: Reg, rs1: Reg, imm: i32) -> u32
    requires { IsOperand op imm }
    ensures row { result ≡ encoding (OpImm op rd rs1 imm) }
    ensures registers { (rd < 32) × (rs1 < 32) }
{
    let funct3 = imm_op_code(op);
    match op {
        ImmOp::Slli => r_type(0b0010011, funct3, 0b0000000, rd, rs1, imm as u32),
        ImmOp::Srli => r_type(0b0010011, funct3, 0b0000000, rd, rs1, imm as u32),
        ImmOp::Srai => r_type(0b0010011, funct3, 0b0100000, rd, rs1, imm as u32),
        _ => i_type(0b0010011, funct3, rd, rs1, imm),
    }
}

/// The word of an atomic memory operation.
#[tactic(auto, using(crate::proofs::Rows::rows))]
fn atomic(op: AmoOp, order: u8, rd: Reg, rs1: Reg, rs2: Reg) -> u32
    requires { order < 4 }
    ensures row { result ≡ encoding (Amo op rd rs1 rs2 order) }
    ensures registers { (rd < 32) × (rs1 < 32) × (rs2 < 32) }
{
    a_type(amo_op_code(op), order, rd, rs1, rs2.number() as u32)
}

/// funct3 of a branch.
fn cond_code(cond: Cond) -> u32
    ensures code { result ≡ cond_code cond }
    ensures below { result < 2 ^ 3 }
{
    match cond {
        Cond::Beq => 0b000,
        Cond::Bne => 0b001,
        Cond::Blt => 0b100,
        Cond::Bge => 0b101,
        Cond::Bltu => 0b110,
        Cond::Bgeu => 0b111,
    }
}

/// funct3 of a load.
fn load_kind_code(kind: LoadKind) -> u32
    ensures code { result ≡ load_kind_code kind }
    ensures below { result < 2 ^ 3 }
{
    match kind {
        LoadKind::Lb => 0b000,
        LoadKind::Lh => 0b001,
        LoadKind::Lw => 0b010,
        LoadKind::Lbu => 0b100,
        LoadKind::Lhu => 0b101,
    }
}

/// funct3 of a store.
fn size_code(size: Size) -> u32
    ensures code { result ≡ size_code size }
    ensures below { result < 2 ^ 3 }
{
    match size {
        Size::Byte => 0b000,
        Size::Half => 0b001,
        Size::Word => 0b010,
    }
}

/// funct3 of an operation with an immediate.
fn imm_op_code(op: ImmOp) -> u32
    ensures code { result ≡ imm_op_code op }
    ensures below { result < 2 ^ 3 }
{
    match op {
        ImmOp::Addi => 0b000,
        ImmOp::Slti => 0b010,
        ImmOp::Sltiu => 0b011,
        ImmOp::Xori => 0b100,
        ImmOp::Ori => 0b110,
        ImmOp::Andi => 0b111,
        ImmOp::Slli => 0b001,
        ImmOp::Srli => 0b101,
        ImmOp::Srai => 0b101,
    }
}

/// funct3 of an operation on two registers.
fn reg_op_funct3(op: RegOp) -> u32
    ensures code { result ≡ reg_op_funct3 op }
    ensures below { result < 2 ^ 3 }
{
    match op {
        RegOp::Add => 0b000,
        RegOp::Sub => 0b000,
        RegOp::Sll => 0b001,
        RegOp::Slt => 0b010,
        RegOp::Sltu => 0b011,
        RegOp::Xor => 0b100,
        RegOp::Srl => 0b101,
        RegOp::Sra => 0b101,
        RegOp::Or => 0b110,
        RegOp::And => 0b111,
        RegOp::Mul => 0b000,
        RegOp::Mulh => 0b001,
        RegOp::Mulhsu => 0b010,
        RegOp::Mulhu => 0b011,
        RegOp::Div => 0b100,
        RegOp::Divu => 0b101,
        RegOp::Rem => 0b110,
        RegOp::Remu => 0b111,
    }
}

/// funct7 of an operation on two registers.
fn reg_op_funct7(op: RegOp) -> u32
    ensures code { result ≡ reg_op_funct7 op }
    ensures below { result < 2 ^ 7 }
{
    match op {
        RegOp::Add => 0b0000000,
        RegOp::Sub => 0b0100000,
        RegOp::Sll => 0b0000000,
        RegOp::Slt => 0b0000000,
        RegOp::Sltu => 0b0000000,
        RegOp::Xor => 0b0000000,
        RegOp::Srl => 0b0000000,
        RegOp::Sra => 0b0100000,
        RegOp::Or => 0b0000000,
        RegOp::And => 0b0000000,
        RegOp::Mul => 0b0000001,
        RegOp::Mulh => 0b0000001,
        RegOp::Mulhsu => 0b0000001,
        RegOp::Mulhu => 0b0000001,
        RegOp::Div => 0b0000001,
        RegOp::Divu => 0b0000001,
        RegOp::Rem => 0b0000001,
        RegOp::Remu => 0b0000001,
    }
}

/// funct5 of an atomic memory operation.
fn amo_op_code(op: AmoOp) -> u32
    ensures code { result ≡ amo_op_code op }
    ensures below { result < 2 ^ 5 }
{
    match op {
        AmoOp::Amoswap => 0b00001,
        AmoOp::Amoadd => 0b00000,
        AmoOp::Amoxor => 0b00100,
        AmoOp::Amoand => 0b01100,
        AmoOp::Amoor => 0b01000,
        AmoOp::Amomin => 0b10000,
        AmoOp::Amomax => 0b10100,
        AmoOp::Amominu => 0b11000,
        AmoOp::Amomaxu => 0b11100,
    }
}
