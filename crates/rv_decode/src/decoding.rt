// Decoding: the instruction that the table has for a word.
ghost use Rattle.std.specs.Prelude.{◌≡◌, Some, IfSome};
ghost use Rattle.rv_decode.specs.declared.instruction.Inst.{Inst};
ghost use Rattle.rv_decode.specs.Codes.{cond_of, load_kind_of, size_of, imm_op_of, shift_of, base_op_of, other_op_of, multiply_op_of};
ghost use Rattle.rv_decode.specs.Codes.{reg_op_of, amo_op_of};
ghost use Rattle.rv_decode.specs.Decoding.{decoded, jalr_inst, branch_inst, load_inst, store_inst, imm_inst, op_inst, fence_inst};
ghost use Rattle.rv_decode.specs.Decoding.{system_inst, atomic_inst, word_atomic_inst, lr_inst};
ghost use Rattle.rv_decode.specs.Formats.{opcode_of, funct3_of, funct7_of, funct5_of, order_of, rd_of, rs1_of, rs2_of};
ghost use Rattle.rv_decode.specs.Table.{Encodes};

use crate::fields::{
    funct3, funct5, funct7, immediate_b, immediate_i, immediate_j, immediate_s, immediate_u,
    opcode, order, rd, rs1, rs2, shift_amount,
};
use crate::instruction::{AmoOp, Cond, ImmOp, Inst, LoadKind, RegOp};
use tcc_base::Size;

/// The instruction that a word is in RV32IMA; None exactly where the instruction table doesn't have it.
///
/// Takes no memory, and constant time (RISC-V Unprivileged ISA, 2 RV32I Base Integer Instruction Set, the "M" extension for
/// multiplication and division, and the "A" extension for atomic instructions).
pub fn decode(word: u32) -> Option<Inst>
    ensures function { result ≡ decoded word }
    ensures row { IfSome result (Encodes word) }
    ensures only { (inst : Inst) → Encodes word inst → result ≡ Some inst }
{
    by_opcode(word)
}

/// The instruction by the word's opcode.
#[tactic(auto, unfolding(crate::specs::Decoding::decoded, crate::specs::Decoding::inst_of))]
fn by_opcode(word: u32) -> Option<Inst>
    ensures { result ≡ decoded word }
{
    match opcode(word) {
        0b0110111 => Some(Inst::Lui {
            rd: rd(word),
            imm: immediate_u(word),
        }),
        0b0010111 => Some(Inst::Auipc {
            rd: rd(word),
            imm: immediate_u(word),
        }),
        0b1101111 => Some(Inst::Jal {
            rd: rd(word),
            offset: immediate_j(word),
        }),
        0b1100111 => jump_and_link(word),
        0b1100011 => branch(word),
        0b0000011 => load(word),
        0b0100011 => store(word),
        0b0010011 => register_immediate(word),
        0b0110011 => register_register(word),
        0b0001111 => fence(word),
        0b0101111 => atomic(word),
        0b1110011 => system(word),
        _ => None,
    }
}

/// JALR.
fn jump_and_link(word: u32) -> Option<Inst>
    ensures { result ≡ jalr_inst word (funct3_of word) (rd_of word) (rs1_of word) }
{
    match funct3(word) {
        0b000 => Some(Inst::Jalr {
            rd: rd(word),
            rs1: rs1(word),
            imm: immediate_i(word),
        }),
        _ => None,
    }
}

/// A branch.
fn branch(word: u32) -> Option<Inst>
    ensures { result ≡ branch_inst word (funct3_of word) (rs1_of word) (rs2_of word) }
{
    let cond = cond(funct3(word))?;
    Some(Inst::Branch {
        cond,
        rs1: rs1(word),
        rs2: rs2(word),
        offset: immediate_b(word),
    })
}

/// A load.
fn load(word: u32) -> Option<Inst>
    ensures { result ≡ load_inst word (funct3_of word) (rd_of word) (rs1_of word) }
{
    let kind = load_kind(funct3(word))?;
    Some(Inst::Load {
        kind,
        rd: rd(word),
        rs1: rs1(word),
        imm: immediate_i(word),
    })
}

/// A store.
fn store(word: u32) -> Option<Inst>
    ensures { result ≡ store_inst word (funct3_of word) (rs1_of word) (rs2_of word) }
{
    let size = size(funct3(word))?;
    Some(Inst::Store {
        size,
        rs1: rs1(word),
        rs2: rs2(word),
        imm: immediate_s(word),
    })
}

/// An operation on two registers.
fn register_register(word: u32) -> Option<Inst>
    ensures { result ≡ op_inst (funct3_of word) (funct7_of word) (rd_of word) (rs1_of word) (rs2_of word) }
{
    let op = reg_op(funct3(word), funct7(word))?;
    Some(Inst::Op {
        op,
        rd: rd(word),
        rs1: rs1(word),
        rs2: rs2(word),
    })
}

/// FENCE, of which all bits but opcode and funct3 are free.
fn fence(word: u32) -> Option<Inst>
    requires { opcode_of word ≡ 0b0001111 }
    ensures { result ≡ fence_inst word (funct3_of word) }
{
    match funct3(word) {
        0b000 => Some(Inst::Fence {
            bits: word - 0b0001111,
        }),
        _ => None,
    }
}

/// An atomic access, which is to a word.
fn atomic(word: u32) -> Option<Inst>
    ensures { result ≡ atomic_inst (funct3_of word) (funct5_of word) (order_of word) (rd_of word) (rs1_of word) (rs2_of word) }
{
    match funct3(word) {
        0b010 => word_atomic(word),
        _ => None,
    }
}

/// An atomic access to a word, by its funct5.
fn word_atomic(word: u32) -> Option<Inst>
    ensures { result ≡ word_atomic_inst (funct5_of word) (order_of word) (rd_of word) (rs1_of word) (rs2_of word) }
{
    match funct5(word) {
        0b00010 => load_reserved(word),
        0b00011 => Some(Inst::Sc {
            rd: rd(word),
            rs1: rs1(word),
            rs2: rs2(word),
            order: order(word),
        }),
        code => {
            let op = amo_op(code)?;
            Some(Inst::Amo {
                op,
                rd: rd(word),
                rs1: rs1(word),
                rs2: rs2(word),
                order: order(word),
            })
        }
    }
}

/// LR.W, whose field rs2 is zero.
fn load_reserved(word: u32) -> Option<Inst>
    ensures { result ≡ lr_inst (order_of word) (rd_of word) (rs1_of word) (rs2_of word) }
{
    match rs2(word).number() {
        0 => Some(Inst::Lr {
            rd: rd(word),
            rs1: rs1(word),
            order: order(word),
        }),
        _ => None,
    }
}

/// An operation on a register and an immediate; the two codes of shifts have a funct7 and an amount of five bits.
fn register_immediate(word: u32) -> Option<Inst>
    ensures { result ≡ imm_inst word (funct3_of word) (funct7_of word) (rd_of word) (rs1_of word) (rs2_of word) }
{
    match funct3(word) {
        0b001 | 0b101 => {
            let op = shift(funct3(word), funct7(word))?;
            Some(Inst::OpImm {
                op,
                rd: rd(word),
                rs1: rs1(word),
                imm: shift_amount(word),
            })
        }
        _ => {
            let op = imm_op(funct3(word))?;
            Some(Inst::OpImm {
                op,
                rd: rd(word),
                rs1: rs1(word),
                imm: immediate_i(word),
            })
        }
    }
}

/// The two instructions of the opcode SYSTEM.
fn system(word: u32) -> Option<Inst>
    ensures { result ≡ system_inst word }
{
    match word {
        0x0000_0073 => Some(Inst::Ecall),
        0x0010_0073 => Some(Inst::Ebreak),
        _ => None,
    }
}

/// The condition of a branch.
fn cond(funct3: u32) -> Option<Cond>
    ensures { result ≡ cond_of funct3 }
{
    Some(match funct3 {
        0b000 => Cond::Beq,
        0b001 => Cond::Bne,
        0b100 => Cond::Blt,
        0b101 => Cond::Bge,
        0b110 => Cond::Bltu,
        0b111 => Cond::Bgeu,
        _ => return None,
    })
}

/// What a load reads.
fn load_kind(funct3: u32) -> Option<LoadKind>
    ensures { result ≡ load_kind_of funct3 }
{
    Some(match funct3 {
        0b000 => LoadKind::Lb,
        0b001 => LoadKind::Lh,
        0b010 => LoadKind::Lw,
        0b100 => LoadKind::Lbu,
        0b101 => LoadKind::Lhu,
        _ => return None,
    })
}

/// How many bytes a store writes.
fn size(funct3: u32) -> Option<Size>
    ensures { result ≡ size_of funct3 }
{
    Some(match funct3 {
        0b000 => Size::Byte,
        0b001 => Size::Half,
        0b010 => Size::Word,
        _ => return None,
    })
}

/// The operations with an immediate of twelve bits.
fn imm_op(funct3: u32) -> Option<ImmOp>
    ensures { result ≡ imm_op_of funct3 }
{
    Some(match funct3 {
        0b000 => ImmOp::Addi,
        0b010 => ImmOp::Slti,
        0b011 => ImmOp::Sltiu,
        0b100 => ImmOp::Xori,
        0b110 => ImmOp::Ori,
        0b111 => ImmOp::Andi,
        _ => return None,
    })
}

/// The shifts by an immediate.
fn shift(funct3: u32, funct7: u32) -> Option<ImmOp>
    ensures { result ≡ shift_of funct3 funct7 }
{
    match (funct3, funct7) {
        (0b001, 0b0000000) => Some(ImmOp::Slli),
        (0b101, 0b0000000) => Some(ImmOp::Srli),
        (0b101, 0b0100000) => Some(ImmOp::Srai),
        _ => None,
    }
}

/// The operations on two registers.
fn reg_op(funct3: u32, funct7: u32) -> Option<RegOp>
    ensures { result ≡ reg_op_of funct3 funct7 }
{
    match funct7 {
        0b0000000 => base_op(funct3),
        0b0100000 => other_op(funct3),
        0b0000001 => multiply_op(funct3),
        _ => None,
    }
}

/// Those of RV32I that have funct7 zero.
fn base_op(funct3: u32) -> Option<RegOp>
    ensures { result ≡ base_op_of funct3 }
{
    Some(match funct3 {
        0b000 => RegOp::Add,
        0b001 => RegOp::Sll,
        0b010 => RegOp::Slt,
        0b011 => RegOp::Sltu,
        0b100 => RegOp::Xor,
        0b101 => RegOp::Srl,
        0b110 => RegOp::Or,
        0b111 => RegOp::And,
        _ => return None,
    })
}

/// The two others of RV32I.
fn other_op(funct3: u32) -> Option<RegOp>
    ensures { result ≡ other_op_of funct3 }
{
    Some(match funct3 {
        0b000 => RegOp::Sub,
        0b101 => RegOp::Sra,
        _ => return None,
    })
}

/// Those of the extension M.
fn multiply_op(funct3: u32) -> Option<RegOp>
    ensures { result ≡ multiply_op_of funct3 }
{
    Some(match funct3 {
        0b000 => RegOp::Mul,
        0b001 => RegOp::Mulh,
        0b010 => RegOp::Mulhsu,
        0b011 => RegOp::Mulhu,
        0b100 => RegOp::Div,
        0b101 => RegOp::Divu,
        0b110 => RegOp::Rem,
        0b111 => RegOp::Remu,
        _ => return None,
    })
}

/// The atomic memory operations.
fn amo_op(funct5: u32) -> Option<AmoOp>
    ensures { result ≡ amo_op_of funct5 }
{
    Some(match funct5 {
        0b00001 => AmoOp::Amoswap,
        0b00000 => AmoOp::Amoadd,
        0b00100 => AmoOp::Amoxor,
        0b01100 => AmoOp::Amoand,
        0b01000 => AmoOp::Amoor,
        0b10000 => AmoOp::Amomin,
        0b10100 => AmoOp::Amomax,
        0b11000 => AmoOp::Amominu,
        0b11100 => AmoOp::Amomaxu,
        _ => return None,
    })
}
