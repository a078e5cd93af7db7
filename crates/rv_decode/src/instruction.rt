// The instructions of RV32IMA as data: one variant for each format and operation, with its registers and immediate.
use tcc_base::{Reg, Size};

/// The condition of a branch (RISC-V Unprivileged ISA, 2.5.2 Conditional Branches).
#[derive(Clone, Copy, Debug, PartialEq, Eq)]
pub enum Cond {
    Beq,
    Bne,
    Blt,
    Bge,
    Bltu,
    Bgeu,
}

/// How many bytes a load reads, and how it fills the register above them (2.6 Load and Store Instructions).
#[derive(Clone, Copy, Debug, PartialEq, Eq)]
pub enum LoadKind {
    Lb,
    Lh,
    Lw,
    Lbu,
    Lhu,
}

/// An operation on a register and an immediate (2.4.1 Integer Register-Immediate Instructions).
#[derive(Clone, Copy, Debug, PartialEq, Eq)]
pub enum ImmOp {
    Addi,
    Slti,
    Sltiu,
    Xori,
    Ori,
    Andi,
    Slli,
    Srli,
    Srai,
}

/// An operation on two registers (2.4.2 Integer Register-Register Operations, and the M extension).
#[derive(Clone, Copy, Debug, PartialEq, Eq)]
pub enum RegOp {
    Add,
    Sub,
    Sll,
    Slt,
    Sltu,
    Xor,
    Srl,
    Sra,
    Or,
    And,
    Mul,
    Mulh,
    Mulhsu,
    Mulhu,
    Div,
    Divu,
    Rem,
    Remu,
}

/// What an atomic memory operation makes of a word and a register ("A" extension, Atomic Memory Operations).
#[derive(Clone, Copy, Debug, PartialEq, Eq)]
pub enum AmoOp {
    Amoswap,
    Amoadd,
    Amoxor,
    Amoand,
    Amoor,
    Amomin,
    Amomax,
    Amominu,
    Amomaxu,
}

/// An instruction of RV32IMA.
///
/// Offsets and immediates are in bytes and already sign-extended. `imm` of `Lui` and `Auipc` has its low twelve bits
/// zero. `bits` of `Fence` is its word with opcode and funct3 set to zero; they are hints that this machine ignores. `order`
/// of `Lr`, `Sc` and `Amo` is the bits 26 and 25 of the word, acquire and release, as a number below 4; it has no effect.
#[derive(Clone, Copy, Debug, PartialEq, Eq)]
pub enum Inst {
    Lui {
        rd: Reg,
        imm: u32,
    },
    Auipc {
        rd: Reg,
        imm: u32,
    },
    Jal {
        rd: Reg,
        offset: i32,
    },
    Jalr {
        rd: Reg,
        rs1: Reg,
        imm: i32,
    },
    Branch {
        cond: Cond,
        rs1: Reg,
        rs2: Reg,
        offset: i32,
    },
    Load {
        kind: LoadKind,
        rd: Reg,
        rs1: Reg,
        imm: i32,
    },
    Store {
        size: Size,
        rs1: Reg,
        rs2: Reg,
        imm: i32,
    },
    OpImm {
        op: ImmOp,
        rd: Reg,
        rs1: Reg,
        imm: i32,
    },
    Op {
        op: RegOp,
        rd: Reg,
        rs1: Reg,
        rs2: Reg,
    },
    Fence {
        bits: u32,
    },
    Lr {
        rd: Reg,
        rs1: Reg,
        order: u8,
    },
    Sc {
        rd: Reg,
        rs1: Reg,
        rs2: Reg,
        order: u8,
    },
    Amo {
        op: AmoOp,
        rd: Reg,
        rs1: Reg,
        rs2: Reg,
        order: u8,
    },
    Ecall,
    Ebreak,
}
