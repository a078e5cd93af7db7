// Effects at values from outside: the tables of the manual's "M" extension, corners of shifts, products, branches and loads, and of
// reservations and atomic memory operations.
use crate::registers::x;
use reg_checkpoint::{Regs, State};
use rv_decode::{AmoOp, Cond, Inst, LoadKind, RegOp};
use rv_exec::{Need, amo_value, finish, plan};
use std::process::Abort;
use tcc_base::Size;

const PC: u32 = 0x8000_0010;

/// A core whose x1 and x2 have these values.
fn at(a: u32, b: u32) -> State {
    let mut state = State::new(Regs::new(), PC);
    state.set(x(1), a);
    state.set(x(2), b);
    state
}

/// That core after an instruction.
fn after(inst: &Inst, a: u32, b: u32, loaded: Option<u32>) -> State {
    let mut state = at(a, b);
    finish(inst, &mut state, loaded);
    state
}

/// Each row: an operation, its two operands and its result.
fn gives(rt: &impl Abort, rows: &[(RegOp, u32, u32, u32)]) {
    for (op, a, b, result) in rows {
        let inst = Inst::Op {
            op: *op,
            rd: x(3),
            rs1: x(1),
            rs2: x(2),
        };
        let next = after(&inst, *a, *b, None);
        assert_eq!(rt; next.get(x(3)), *result, "{op:?} {a:x} {b:x}");
        assert_eq!(rt; next.pc(), PC + 4);
    }
}

#[test]
fn division_by_zero_and_overflow(rt: HostRuntime) {
    let rows = [
        (RegOp::Divu, 7, 0, 0xffff_ffff),
        (RegOp::Remu, 7, 0, 7),
        (RegOp::Div, 7, 0, 0xffff_ffff),
        (RegOp::Rem, 7, 0, 7),
        (RegOp::Div, 0x8000_0000, 0xffff_ffff, 0x8000_0000),
        (RegOp::Rem, 0x8000_0000, 0xffff_ffff, 0),
        (RegOp::Div, 0xffff_ffec, 6, 0xffff_fffd),
        (RegOp::Rem, 0xffff_ffec, 6, 0xffff_fffe),
        (RegOp::Div, 20, 0xffff_fffa, 0xffff_fffd),
        (RegOp::Rem, 20, 0xffff_fffa, 2),
        (RegOp::Divu, 0xffff_ffec, 6, 0x2aaa_aaa7),
        (RegOp::Remu, 0xffff_ffec, 6, 2),
    ];
    gives(&rt, &rows);
}

#[test]
fn products(rt: HostRuntime) {
    let rows = [
        (RegOp::Mul, 0xaaaa_aaab, 0x0002_fe7d, 0x0000_ff7f),
        (RegOp::Mulh, 0xaaaa_aaab, 0x0002_fe7d, 0xffff_0081),
        (RegOp::Mulhsu, 0xaaaa_aaab, 0x0002_fe7d, 0xffff_0081),
        (RegOp::Mulhsu, 0x0002_fe7d, 0xaaaa_aaab, 0x0001_fefe),
        (RegOp::Mulhu, 0xaaaa_aaab, 0x0002_fe7d, 0x0001_fefe),
        (RegOp::Mulh, 0x8000_0000, 0x8000_0000, 0x4000_0000),
        (RegOp::Mulhsu, 0x8000_0000, 0x8000_0000, 0xc000_0000),
        (RegOp::Mulhu, 0x8000_0000, 0x8000_0000, 0x4000_0000),
        (RegOp::Mulh, 0xffff_ffff, 0xffff_ffff, 0),
        (RegOp::Mulhsu, 0xffff_ffff, 0xffff_ffff, 0xffff_ffff),
        (RegOp::Mulhu, 0xffff_ffff, 0xffff_ffff, 0xffff_fffe),
        (RegOp::Mulhsu, 0x8000_0000, 0xffff_8000, 0x8000_4000),
    ];
    gives(&rt, &rows);
}

#[test]
fn sums_shifts_and_comparisons(rt: HostRuntime) {
    let rows = [
        (RegOp::Add, 0xffff_ffff, 1, 0),
        (RegOp::Sub, 0, 1, 0xffff_ffff),
        (RegOp::Sll, 0x8000_0001, 0, 0x8000_0001),
        (RegOp::Sll, 0x8000_0001, 31, 0x8000_0000),
        (RegOp::Sll, 0x2121_2121, 0xffff_ffe0, 0x2121_2121),
        (RegOp::Srl, 0x8000_0001, 0, 0x8000_0001),
        (RegOp::Srl, 0x8000_0001, 31, 1),
        (RegOp::Srl, 0x8000_0000, 33, 0x4000_0000),
        (RegOp::Sra, 0x8000_0001, 0, 0x8000_0001),
        (RegOp::Sra, 0x8000_0001, 31, 0xffff_ffff),
        (RegOp::Sra, 0x7fff_ffff, 31, 0),
        (RegOp::Slt, 0x8000_0000, 0x7fff_ffff, 1),
        (RegOp::Sltu, 0x8000_0000, 0x7fff_ffff, 0),
        (RegOp::Xor, 0xff00_ff00, 0x0f0f_0f0f, 0xf00f_f00f),
        (RegOp::Or, 0xff00_ff00, 0x0f0f_0f0f, 0xff0f_ff0f),
        (RegOp::And, 0xff00_ff00, 0x0f0f_0f0f, 0x0f00_0f00),
    ];
    gives(&rt, &rows);
}

#[test]
fn branches(rt: HostRuntime) {
    let least = 0x8000_0000;
    let greatest = 0x7fff_ffff;
    let rows = [
        (Cond::Beq, least, least, true),
        (Cond::Beq, least, greatest, false),
        (Cond::Bne, least, least, false),
        (Cond::Bne, least, greatest, true),
        (Cond::Blt, least, greatest, true),
        (Cond::Blt, greatest, least, false),
        (Cond::Blt, least, least, false),
        (Cond::Bge, least, greatest, false),
        (Cond::Bge, greatest, least, true),
        (Cond::Bge, least, least, true),
        (Cond::Bltu, least, greatest, false),
        (Cond::Bltu, greatest, least, true),
        (Cond::Bltu, least, least, false),
        (Cond::Bgeu, least, greatest, true),
        (Cond::Bgeu, greatest, least, false),
        (Cond::Bgeu, least, least, true),
    ];
    for (cond, a, b, taken) in rows {
        let inst = Inst::Branch {
            cond,
            rs1: x(1),
            rs2: x(2),
            offset: -16,
        };
        assert_eq!(rt;
            after(&inst, a, b, None).pc(),
            if taken { 0x8000_0000 } else { 0x8000_0014 },
            "{cond:?} {a:x} {b:x}"
        );
    }
}

#[test]
fn loads_of_every_byte(rt: HostRuntime) {
    // the bytes and half words of 0x807f_ff01
    let rows = [
        (LoadKind::Lb, 0x01, 0x0000_0001),
        (LoadKind::Lb, 0xff, 0xffff_ffff),
        (LoadKind::Lb, 0x7f, 0x0000_007f),
        (LoadKind::Lb, 0x80, 0xffff_ff80),
        (LoadKind::Lbu, 0x01, 0x0000_0001),
        (LoadKind::Lbu, 0xff, 0x0000_00ff),
        (LoadKind::Lbu, 0x7f, 0x0000_007f),
        (LoadKind::Lbu, 0x80, 0x0000_0080),
        (LoadKind::Lh, 0xff01, 0xffff_ff01),
        (LoadKind::Lh, 0x807f, 0xffff_807f),
        (LoadKind::Lhu, 0xff01, 0x0000_ff01),
        (LoadKind::Lhu, 0x807f, 0x0000_807f),
        (LoadKind::Lw, 0x807f_ff01, 0x807f_ff01),
    ];
    for (kind, bytes, result) in rows {
        let inst = Inst::Load {
            kind,
            rd: x(3),
            rs1: x(1),
            imm: 0,
        };
        let next = after(&inst, PC, 0, Some(bytes));
        assert_eq!(rt; next.get(x(3)), result, "{kind:?} {bytes:x}");
    }
}

#[test]
fn jumps(rt: HostRuntime) {
    let call = Inst::Jal {
        rd: x(1),
        offset: -16,
    };
    let next = after(&call, 0, 0, None);
    assert_eq!(rt; next.pc(), 0x8000_0000);
    assert_eq!(rt; next.get(x(1)), 0x8000_0014);
    // the target is that of the old x1, with bit 0 cleared
    let back = Inst::Jalr {
        rd: x(1),
        rs1: x(1),
        imm: -3,
    };
    assert_eq!(rt; plan(&back, &at(0x8000_0104, 0)), Need::Nothing);
    let next = after(&back, 0x8000_0104, 0, None);
    assert_eq!(rt; next.pc(), 0x8000_0100);
    assert_eq!(rt; next.get(x(1)), 0x8000_0014);
    // x0 takes no link
    let jump = Inst::Jal {
        rd: x(0),
        offset: 4,
    };
    assert_eq!(rt; after(&jump, 0, 0, None).get(x(0)), 0);
}

#[test]
fn needs_and_traps(rt: HostRuntime) {
    let state = at(0x8000_0041, 0xaabb_ccdd);
    let load = |kind, imm| Inst::Load {
        kind,
        rd: x(3),
        rs1: x(1),
        imm,
    };
    let store = |size, imm| Inst::Store {
        size,
        rs1: x(1),
        rs2: x(2),
        imm,
    };
    let word = |addr| Need::Load {
        addr,
        size: Size::Word,
    };
    assert_eq!(rt; plan(&load(LoadKind::Lw, 3), &state), word(0x8000_0044));
    assert_eq!(rt; plan(&load(LoadKind::Lw, 1), &state), Need::Trap(4));
    assert_eq!(rt; plan(&load(LoadKind::Lhu, 0), &state), Need::Trap(4));
    assert_eq!(rt; plan(&store(Size::Half, 2), &state), Need::Trap(6));
    let half = Need::Store {
        addr: 0x8000_0040,
        size: Size::Half,
        value: 0xccdd,
    };
    assert_eq!(rt; plan(&store(Size::Half, -1), &state), half);
    let byte = Need::Store {
        addr: 0x8000_0041,
        size: Size::Byte,
        value: 0xdd,
    };
    assert_eq!(rt; plan(&store(Size::Byte, 0), &state), byte);
    let skip = Inst::Branch {
        cond: Cond::Bne,
        rs1: x(1),
        rs2: x(2),
        offset: 2,
    };
    assert_eq!(rt; plan(&skip, &state), Need::Trap(0));
    assert_eq!(rt; plan(&skip, &at(0, 0)), Need::Nothing);
    assert_eq!(rt; plan(&Inst::Ebreak, &state), Need::Trap(3));
}

#[test]
fn environment_calls(rt: HostRuntime) {
    let rows = [
        (0, 5, Need::End),
        (1, 0x141, Need::Console(0x41)),
        (93, 0x8000_0000, Need::Halt(0x8000_0000)),
        (2, 0, Need::Trap(11)),
    ];
    for (number, argument, need) in rows {
        let mut state = at(0, 0);
        state.set(x(17), number);
        state.set(x(10), argument);
        assert_eq!(rt; plan(&Inst::Ecall, &state), need);
    }
}

#[test]
fn values_of_atomic_memory_operations(rt: HostRuntime) {
    let least = 0x8000_0000;
    let greatest = 0x7fff_ffff;
    let rows = [
        (AmoOp::Amoswap, 7, 9, 9),
        (AmoOp::Amoadd, 0xffff_ffff, 2, 1),
        (AmoOp::Amoxor, 0xff00_ff00, 0x0f0f_0f0f, 0xf00f_f00f),
        (AmoOp::Amoand, 0xff00_ff00, 0x0f0f_0f0f, 0x0f00_0f00),
        (AmoOp::Amoor, 0xff00_ff00, 0x0f0f_0f0f, 0xff0f_ff0f),
        (AmoOp::Amomin, least, greatest, least),
        (AmoOp::Amomin, greatest, least, least),
        (AmoOp::Amomin, 0xffff_ffff, 0, 0xffff_ffff),
        (AmoOp::Amomax, least, greatest, greatest),
        (AmoOp::Amomax, greatest, least, greatest),
        (AmoOp::Amomax, 0xffff_ffff, 0, 0),
        (AmoOp::Amominu, least, greatest, greatest),
        (AmoOp::Amominu, greatest, least, greatest),
        (AmoOp::Amominu, 0xffff_ffff, 0, 0),
        (AmoOp::Amomaxu, least, greatest, least),
        (AmoOp::Amomaxu, greatest, least, least),
        (AmoOp::Amomaxu, 0xffff_ffff, 0, 0xffff_ffff),
    ];
    for (op, old, operand, stored) in rows {
        assert_eq!(rt;
            amo_value(op, old, operand),
            stored,
            "{op:?} {old:x} {operand:x}"
        );
    }
}

#[test]
fn atomic_memory_operations(rt: HostRuntime) {
    let amo = |rd, rs1, rs2| Inst::Amo {
        op: AmoOp::Amoadd,
        rd,
        rs1,
        rs2,
        order: 0,
    };
    let need = |addr, value| Need::Amo {
        addr,
        op: AmoOp::Amoadd,
        value,
    };
    let state = at(0x8000_0040, 5);
    assert_eq!(rt; plan(&amo(x(3), x(1), x(2)), &state), need(0x8000_0040, 5));
    // the operands are those from before rd is written, also where they are one register
    let one = amo(x(1), x(1), x(1));
    assert_eq!(rt; plan(&one, &state), need(0x8000_0040, 0x8000_0040));
    let next = after(&one, 0x8000_0040, 5, Some(9));
    assert_eq!(rt; (next.get(x(1)), next.pc()), (9, PC + 4));
    assert_eq!(rt;
        plan(&amo(x(3), x(1), x(2)), &at(0x8000_0042, 5)),
        Need::Trap(6)
    );
}

#[test]
fn reservations(rt: HostRuntime) {
    let lr = Inst::Lr {
        rd: x(3),
        rs1: x(1),
        order: 3,
    };
    let sc = |rd| Inst::Sc {
        rd,
        rs1: x(1),
        rs2: x(2),
        order: 0,
    };
    let word = 0x8000_0040;
    let load = Need::Load {
        addr: word,
        size: Size::Word,
    };
    let store = Need::Store {
        addr: word,
        size: Size::Word,
        value: 7,
    };
    let mut state = at(word, 7);
    assert_eq!(rt; plan(&sc(x(4)), &state), Need::Nothing);
    assert_eq!(rt; plan(&lr, &state), load);
    finish(&lr, &mut state, Some(9));
    assert_eq!(rt; (state.get(x(3)), state.reserved()), (9, Some(word)));
    // another instruction leaves the reservation
    finish(&Inst::Ecall, &mut state, None);
    assert_eq!(rt; plan(&sc(x(4)), &state), store);
    finish(&sc(x(4)), &mut state, None);
    assert_eq!(rt; (state.get(x(4)), state.reserved()), (0, None));
    // a second one has no reservation
    assert_eq!(rt; plan(&sc(x(5)), &state), Need::Nothing);
    finish(&sc(x(5)), &mut state, None);
    assert_eq!(rt; (state.get(x(5)), state.pc()), (1, PC + 16));
    // another address has none
    state.reserve(word + 4);
    assert_eq!(rt; plan(&sc(x(5)), &state), Need::Nothing);
    // addresses that are no multiple of four, reserved or not
    assert_eq!(rt; plan(&lr, &at(word + 2, 0)), Need::Trap(4));
    assert_eq!(rt; plan(&sc(x(5)), &at(word + 1, 0)), Need::Trap(6));
    let mut odd = at(word + 1, 0);
    odd.reserve(word + 1);
    assert_eq!(rt; plan(&sc(x(5)), &odd), Need::Trap(6));
}
