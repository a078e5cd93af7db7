// What an instruction needs of its machine at a core's state.
ghost use Rattle.std.specs.Prelude.{◌≡◌, ◌<◌, ◌%◌, ◌^◌, Some, None, if◌then◌else◌};
ghost use Rattle.rv_exec.specs.Effects.{planned, lands, size_read, load_need, store_need, conditional_need, change_need, call_need};
ghost use Rattle.rv_exec.specs.Needs.{need_of, IsPlanned};
ghost use Rattle.rv_exec.specs.Operations.{holds, amo_result};
ghost use Rattle.rv_exec.specs.Words.{displaced};
ghost use Rattle.tcc_base.specs.Bytes.{bytes_of};
ghost use Rattle.rules_program.specs.Registers.{register};

use crate::need::Need;
use crate::operations::{displace, has_reserved, is_taken};
use reg_checkpoint::State;
use rv_decode::{AmoOp, Cond, Inst, LoadKind};
use tcc_base::{Reg, Size};

/// What an instruction needs at a core's state, before it is finished. Takes no memory, and constant time.
///
/// It traps with 0 where a jump or a branch that is taken goes to an address that is no multiple of four, with 3 at
/// EBREAK, with 4 where a load's or a load-reserved's address is no multiple of its size, with 6 where that of a store, a
/// store-conditional (reserved or not) or an atomic memory operation is none, and with 11 at an ECALL whose x17 is none of 0, 1
/// and 93. Whether an access lies in RAM is the caller's to see, after this.
#[tactic(auto, unfolding(crate::specs::Effects::planned))]
#[inline(always)]
pub fn plan(inst: &Inst, at: &State) -> Need
    ensures need { need_of result ≡ planned inst.now at.now }
    ensures planned { IsPlanned result }
{
    match *inst {
        Inst::Jal { offset, .. } => land(displace(at.pc(), offset)),
        Inst::Jalr { rs1, imm, .. } => {
            let sum = displace(at.get(rs1), imm);
            land(sum - sum % 2)
        }
        Inst::Branch {
            cond,
            rs1,
            rs2,
            offset,
        } => branch(at, cond, rs1, rs2, offset),
        Inst::Load { kind, rs1, imm, .. } => load(displace(at.get(rs1), imm), bytes_read(kind)),
        Inst::Store {
            size,
            rs1,
            rs2,
            imm,
        } => store(displace(at.get(rs1), imm), size, at.get(rs2)),
        Inst::Lr { rs1, .. } => load(at.get(rs1), Size::Word),
        Inst::Sc { rs1, rs2, .. } => store_conditional(at, at.get(rs1), at.get(rs2)),
        Inst::Amo { op, rs1, rs2, .. } => change(at.get(rs1), op, at.get(rs2)),
        Inst::Ecall => call(at.get(x(17)), at.get(x(10))),
        Inst::Ebreak => Need::Trap(3),
        Inst::Lui { .. }
        | Inst::Auipc { .. }
        | Inst::OpImm { .. }
        | Inst::Op { .. }
        | Inst::Fence { .. } => { Need::Nothing }
    }
}

/// A jump to this address.
fn land(target: u32) -> Need
    ensures need { need_of result ≡ lands (Some target) }
    ensures planned { IsPlanned result }
{
    if target % 4 == 0 {
        Need::Nothing
    } else {
        Need::Trap(0)
    }
}

/// A branch. Its condition matters only where its target isn't aligned.
fn branch(at: &State, cond: Cond, rs1: Reg, rs2: Reg, offset: i32) -> Need
    ensures need { need_of result ≡ lands
        (if holds cond (register at.now.regs rs1) (register at.now.regs rs2) then Some (displaced at.now.pc offset) else None) }
    ensures planned { IsPlanned result }
{
    if displace(at.pc(), offset) % 4 == 0 {
        return Need::Nothing;
    }
    if is_taken(cond, at.get(rs1), at.get(rs2)) {
        Need::Trap(0)
    } else {
        Need::Nothing
    }
}

fn load(addr: u32, size: Size) -> Need
    ensures need { need_of result ≡ load_need addr size }
    ensures planned { IsPlanned result }
{
    if addr % size.bytes() == 0 {
        Need::Load { addr, size }
    } else {
        Need::Trap(4)
    }
}

fn store(addr: u32, size: Size, value: u32) -> Need
    ensures need { need_of result ≡ store_need addr size value }
    ensures planned { IsPlanned result }
{
    if addr % size.bytes() == 0 {
        Need::Store {
            addr,
            size,
            value: low_bytes(value, size),
        }
    } else {
        Need::Trap(6)
    }
}

/// A store-conditional.
fn store_conditional(at: &State, addr: u32, value: u32) -> Need
    ensures need { need_of result ≡ conditional_need at.now.reserved addr value }
    ensures planned { IsPlanned result }
{
    if addr % 4 != 0 {
        Need::Trap(6)
    } else if has_reserved(at.reserved(), addr) {
        Need::Store {
            addr,
            size: Size::Word,
            value,
        }
    } else {
        Need::Nothing
    }
}

/// An atomic memory operation.
fn change(addr: u32, op: AmoOp, value: u32) -> Need
    ensures need { need_of result ≡ change_need addr (λ old. amo_result op old value) }
    ensures planned { IsPlanned result }
{
    if addr % 4 == 0 {
        Need::Amo { addr, op, value }
    } else {
        Need::Trap(6)
    }
}

/// The low bytes of a word, with zeros above.
fn low_bytes(value: u32, size: Size) -> u32
    ensures value { result ≡ value % 256 ^ bytes_of size }
    ensures below { result < 256 ^ bytes_of size }
{
    match size {
        Size::Byte => value % 0x100,
        Size::Half => value % 0x1_0000,
        Size::Word => value,
    }
}

/// An environment call, by the values of x17 and x10.
fn call(x17: u32, x10: u32) -> Need
    ensures need { need_of result ≡ call_need x17 x10 }
    ensures planned { IsPlanned result }
{
    match x17 {
        0 => Need::End,
        1 => Need::Console((x10 % 0x100) as u8),
        93 => Need::Halt(x10),
        _ => Need::Trap(11),
    }
}

fn bytes_read(kind: LoadKind) -> Size
    ensures { result ≡ size_read kind }
{
    match kind {
        LoadKind::Lb | LoadKind::Lbu => Size::Byte,
        LoadKind::Lh | LoadKind::Lhu => Size::Half,
        LoadKind::Lw => Size::Word,
    }
}

fn x(number: u8) -> Reg
    requires { number < 32 }
    ensures { result ≡ number }
{
    Reg::new(number).unwrap()
}
