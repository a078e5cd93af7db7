// The registers, the pc and the reservation after an instruction.
ghost use Rattle.std.specs.Prelude.{◌≡◌, if◌then◌else◌};
ghost use Rattle.rv_exec.specs.Effects.{finished, next_pc};
ghost use Rattle.rules_program.specs.Registers.{written};

use crate::operations::{displace, extend, has_reserved, is_taken, operate, operation};
use reg_checkpoint::State;
use rv_decode::Inst;
use tcc_base::Reg;

/// Finishes an instruction that has what it needs. Constant time, and takes no memory: at most one register, the pc and the
/// reservation change, in place.
///
/// It is meant for an instruction whose plan is Nothing, a Load, a Store, an Amo, Console or End: one that halts or traps changes
/// no register and leaves the pc. `loaded` is there exactly for a Load and an Amo, and holds the bytes read, with zeros above.
#[tactic(auto, unfolding(crate::specs::Effects::finished, crate::specs::Effects::results))]
pub fn finish(inst: &Inst, state: &mut State, loaded: Option<u32>)
    ensures { state.new ≡ finished inst.now state.old loaded }
{
    match *inst {
        Inst::Lui { rd, imm } => give(state, rd, imm),
        Inst::Auipc { rd, imm } => give(state, rd, state.pc().wrapping_add(imm)),
        Inst::Jal { rd, offset } => link(state, rd, displace(state.pc(), offset)),
        Inst::Jalr { rd, rs1, imm } => {
            let sum = displace(state.get(rs1), imm);
            link(state, rd, sum - sum % 2);
        }
        Inst::Branch {
            cond,
            rs1,
            rs2,
            offset,
        } => {
            if is_taken(cond, state.get(rs1), state.get(rs2)) {
                state.go_to(displace(state.pc(), offset));
            } else {
                go_on(state);
            }
        }
        Inst::Load { kind, rd, .. } => give(state, rd, extend(kind, loaded.unwrap_or(0))),
        Inst::OpImm { op, rd, rs1, imm } => {
            let value = operate(operation(op), state.get(rs1), imm.cast_unsigned());
            give(state, rd, value);
        }
        Inst::Op { op, rd, rs1, rs2 } => {
            let value = operate(op, state.get(rs1), state.get(rs2));
            give(state, rd, value);
        }
        Inst::Lr { rd, rs1, .. } => {
            state.reserve(state.get(rs1));
            give(state, rd, loaded.unwrap_or(0));
        }
        Inst::Sc { rd, rs1, .. } => {
            let failed = !has_reserved(state.reserved(), state.get(rs1));
            state.unreserve();
            give(state, rd, failed as u32);
        }
        Inst::Amo { rd, .. } => give(state, rd, loaded.unwrap_or(0)),
        Inst::Store { .. } | Inst::Fence { .. } | Inst::Ecall | Inst::Ebreak => go_on(state),
    }
}

/// The address of the instruction that follows.
fn next(pc: u32) -> u32
    ensures { result ≡ next_pc pc }
{
    pc.wrapping_add(4)
}

/// The next instruction follows.
fn go_on(state: &mut State)
    ensures { state.new ≡ record state.old { pc = next_pc state.old.pc } }
{
    state.go_to(next(state.pc()));
}

/// A register gets a value, and the next instruction follows.
fn give(state: &mut State, rd: Reg, value: u32)
    ensures { state.new ≡ record state.old { regs = written state.old.regs rd value; pc = next_pc state.old.pc } }
{
    state.set(rd, value);
    go_on(state);
}

/// A register gets the address of the next instruction, and the one at the target follows.
fn link(state: &mut State, rd: Reg, target: u32)
    ensures { state.new ≡ record state.old { regs = written state.old.regs rd (next_pc state.old.pc); pc = target } }
{
    state.set(rd, next(state.pc()));
    state.go_to(target);
}
