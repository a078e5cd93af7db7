// One word for each row of the instruction table, decoded and encoded again, and words outside the table.
//
// The words are those that GNU as 2.40 makes of these instructions with -march=rv32ima.
use crate::registers::x;
use rv_decode::{AmoOp, Cond, ImmOp, Inst, LoadKind, RegOp, decode, encode};
use std::process::Abort;
use tcc_base::{Reg, Size};

fn branch(cond: Cond, rs1: Reg, rs2: Reg, offset: i32) -> Inst {
    Inst::Branch {
        cond,
        rs1,
        rs2,
        offset,
    }
}

fn load(kind: LoadKind, rd: Reg, rs1: Reg, imm: i32) -> Inst {
    Inst::Load { kind, rd, rs1, imm }
}

fn store(size: Size, rs1: Reg, rs2: Reg, imm: i32) -> Inst {
    Inst::Store {
        size,
        rs1,
        rs2,
        imm,
    }
}

fn op_imm(op: ImmOp, rd: Reg, rs1: Reg, imm: i32) -> Inst {
    Inst::OpImm { op, rd, rs1, imm }
}

fn op(op: RegOp, rd: Reg, rs1: Reg, rs2: Reg) -> Inst {
    Inst::Op { op, rd, rs1, rs2 }
}

fn amo(op: AmoOp, rd: Reg, rs1: Reg, rs2: Reg, order: u8) -> Inst {
    Inst::Amo {
        op,
        rd,
        rs1,
        rs2,
        order,
    }
}

/// Each word decodes to the instruction beside it, and encodes again.
fn reads_both_ways(rt: &impl Abort, rows: &[(u32, Inst)]) {
    for (word, inst) in rows {
        let found = decode(*word);
        assert_eq!(rt; found, Some(*inst));
        if let Some(found) = found {
            assert_eq!(rt; encode(found), *word);
        }
    }
}

#[test]
fn upper_immediates_and_jumps(rt: HostRuntime) {
    let rows = [
        (
            0xffff_f2b7,
            Inst::Lui {
                rd: x(5),
                imm: 0xffff_f000,
            },
        ),
        (
            0x8000_1f97,
            Inst::Auipc {
                rd: x(31),
                imm: 0x8000_1000,
            },
        ),
        (
            0x8000_00ef,
            Inst::Jal {
                rd: x(1),
                offset: -1048576,
            },
        ),
        (
            0x8000_8067,
            Inst::Jalr {
                rd: x(0),
                rs1: x(1),
                imm: -2048,
            },
        ),
    ];
    reads_both_ways(&rt, &rows);
}

#[test]
fn branches(rt: HostRuntime) {
    let rows = [
        (0x8020_8063, branch(Cond::Beq, x(1), x(2), -4096)),
        (0x7e41_9fe3, branch(Cond::Bne, x(3), x(4), 4094)),
        (0xfe0f_cfe3, branch(Cond::Blt, x(31), x(0), -2)),
        (0x01f0_5163, branch(Cond::Bge, x(0), x(31), 2)),
        (0x5494_6a63, branch(Cond::Bltu, x(8), x(9), 1364)),
        (0xd4b5_7b63, branch(Cond::Bgeu, x(10), x(11), -2730)),
    ];
    reads_both_ways(&rt, &rows);
}

#[test]
fn loads_and_stores(rt: HostRuntime) {
    let rows = [
        (0x8001_0083, load(LoadKind::Lb, x(1), x(2), -2048)),
        (0x7ff2_1183, load(LoadKind::Lh, x(3), x(4), 2047)),
        (0xfff3_2283, load(LoadKind::Lw, x(5), x(6), -1)),
        (0x555f_cf03, load(LoadKind::Lbu, x(30), x(31), 1365)),
        (0x0004_5383, load(LoadKind::Lhu, x(7), x(8), 0)),
        (0x8011_0023, store(Size::Byte, x(2), x(1), -2048)),
        (0x7e32_1fa3, store(Size::Half, x(4), x(3), 2047)),
        (0xffff_20a3, store(Size::Word, x(30), x(31), -31)),
    ];
    reads_both_ways(&rt, &rows);
}

#[test]
fn operations_with_an_immediate(rt: HostRuntime) {
    let rows = [
        (0x8001_0093, op_imm(ImmOp::Addi, x(1), x(2), -2048)),
        (0x7ff2_2193, op_imm(ImmOp::Slti, x(3), x(4), 2047)),
        (0xfff3_3293, op_imm(ImmOp::Sltiu, x(5), x(6), -1)),
        (0x5554_4393, op_imm(ImmOp::Xori, x(7), x(8), 1365)),
        (0xaaa5_6493, op_imm(ImmOp::Ori, x(9), x(10), -1366)),
        (0x0006_7593, op_imm(ImmOp::Andi, x(11), x(12), 0)),
        (0x01f7_1693, op_imm(ImmOp::Slli, x(13), x(14), 31)),
        (0x0018_5793, op_imm(ImmOp::Srli, x(15), x(16), 1)),
        (0x41f9_5893, op_imm(ImmOp::Srai, x(17), x(18), 31)),
    ];
    reads_both_ways(&rt, &rows);
}

#[test]
fn operations_on_registers(rt: HostRuntime) {
    let rows = [
        (0x000f_80b3, op(RegOp::Add, x(1), x(31), x(0))),
        (0x407f_0133, op(RegOp::Sub, x(2), x(30), x(7))),
        (0x00ee_91b3, op(RegOp::Sll, x(3), x(29), x(14))),
        (0x015e_2233, op(RegOp::Slt, x(4), x(28), x(21))),
        (0x01cd_b2b3, op(RegOp::Sltu, x(5), x(27), x(28))),
        (0x003d_4333, op(RegOp::Xor, x(6), x(26), x(3))),
        (0x00ac_d3b3, op(RegOp::Srl, x(7), x(25), x(10))),
        (0x411c_5433, op(RegOp::Sra, x(8), x(24), x(17))),
        (0x018b_e4b3, op(RegOp::Or, x(9), x(23), x(24))),
        (0x01fb_7533, op(RegOp::And, x(10), x(22), x(31))),
    ];
    reads_both_ways(&rt, &rows);
}

#[test]
fn multiplications_divisions_and_system(rt: HostRuntime) {
    let rows = [
        (0x026a_85b3, op(RegOp::Mul, x(11), x(21), x(6))),
        (0x02da_1633, op(RegOp::Mulh, x(12), x(20), x(13))),
        (0x0349_a6b3, op(RegOp::Mulhsu, x(13), x(19), x(20))),
        (0x03b9_3733, op(RegOp::Mulhu, x(14), x(18), x(27))),
        (0x0228_c7b3, op(RegOp::Div, x(15), x(17), x(2))),
        (0x0298_5833, op(RegOp::Divu, x(16), x(16), x(9))),
        (0x0307_e8b3, op(RegOp::Rem, x(17), x(15), x(16))),
        (0x0377_7933, op(RegOp::Remu, x(18), x(14), x(23))),
        (0x0ff0_000f, Inst::Fence { bits: 0x0ff0_0000 }),
        (0x0000_0073, Inst::Ecall),
        (0x0010_0073, Inst::Ebreak),
    ];
    reads_both_ways(&rt, &rows);
}

#[test]
fn reservations(rt: HostRuntime) {
    let lr = |rd, rs1, order| Inst::Lr { rd, rs1, order };
    let sc = |rd, rs1, rs2, order| Inst::Sc {
        rd,
        rs1,
        rs2,
        order,
    };
    let rows = [
        (0x1003_22af, lr(x(5), x(6), 0)),
        (0x1400_afaf, lr(x(31), x(1), 2)),
        (0x160f_a02f, lr(x(0), x(31), 3)),
        (0x1884_a3af, sc(x(7), x(9), x(8), 0)),
        (0x1ab6_252f, sc(x(10), x(12), x(11), 1)),
        (0x1e0f_afaf, sc(x(31), x(31), x(0), 3)),
    ];
    reads_both_ways(&rt, &rows);
}

#[test]
fn atomic_memory_operations(rt: HostRuntime) {
    let rows = [
        (0x0821_a0af, amo(AmoOp::Amoswap, x(1), x(3), x(2), 0)),
        (0x0453_222f, amo(AmoOp::Amoadd, x(4), x(6), x(5), 2)),
        (0x2284_a3af, amo(AmoOp::Amoxor, x(7), x(9), x(8), 1)),
        (0x66b6_252f, amo(AmoOp::Amoand, x(10), x(12), x(11), 3)),
        (0x40e7_a6af, amo(AmoOp::Amoor, x(13), x(15), x(14), 0)),
        (0x8519_282f, amo(AmoOp::Amomin, x(16), x(18), x(17), 2)),
        (0xa34a_a9af, amo(AmoOp::Amomax, x(19), x(21), x(20), 1)),
        (0xc77c_2b2f, amo(AmoOp::Amominu, x(22), x(24), x(23), 3)),
        (0xe1ee_afaf, amo(AmoOp::Amomaxu, x(31), x(29), x(30), 0)),
    ];
    reads_both_ways(&rt, &rows);
}

#[test]
fn words_outside_the_table(rt: HostRuntime) {
    let words = [
        0x0000_0000, // all zero
        0xffff_ffff, // all ones
        0x0200_1013, // SLLI by 32, of RV64
        0x4000_1013, // SLLI with the funct7 of SRAI
        0x4000_1033, // SLL with the funct7 of SUB
        0x0000_2063, // a branch with funct3 2
        0x0000_3003, // LD, of RV64
        0x0000_3023, // SD, of RV64
        0x0000_1067, // JALR with funct3 1
        0x0000_100f, // FENCE.I
        0x0020_0073, // URET
        0x3020_0073, // MRET
        0x1050_0073, // WFI
        0xc000_2573, // RDCYCLE x10
        0x1015_252f, // LR.W with field rs2 1
        0x1005_352f, // LR.D, of RV64
        0x00b5_352f, // AMOADD.D, of RV64
        0x28b5_252f, // an atomic access with bits 31 to 27 00101
        0x0000_003b, // ADDW, of RV64
        0x0400_0033, // funct7 2
        0x0000_0072, // a word whose low bits are not 11
    ];
    for word in words {
        assert_eq!(rt; decode(word), None);
    }
}
