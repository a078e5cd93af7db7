// The operations on registers, the conditions of branches, and what a load makes of its bytes.
ghost use Rattle.std.specs.Prelude.{◌≡◌, ◌<◌, ◌≢◌, ◌^◌, pos, ◌*ℤ◌, nat_lt, not, int_lt, int_div, int_rem};
ghost use Rattle.rv_decode.specs.declared.instruction.RegOp.TheVariants.{Div, Rem};
ghost use Rattle.rv_exec.specs.Operations.{reg_result, operation_of, high_word, amo_result, holds, extended};
ghost use Rattle.rv_exec.specs.Effects.{is_reserved};
ghost use Rattle.rv_exec.specs.Words.{signed, word, displaced};

use rv_decode::{AmoOp, Cond, ImmOp, LoadKind, RegOp};

/// What an operation gives for the values of its two registers.
pub fn operate(op: RegOp, a: u32, b: u32) -> u32
    ensures { result ≡ reg_result op a b }
{
    match op {
        RegOp::Add => a.wrapping_add(b),
        RegOp::Sub => a.wrapping_sub(b),
        RegOp::Sll => a << (b % 32),
        RegOp::Slt => signed_less(a, b) as u32,
        RegOp::Sltu => (a < b) as u32,
        RegOp::Xor => a ^ b,
        RegOp::Srl => a >> (b % 32),
        RegOp::Sra => (a.cast_signed() >> (b % 32)).cast_unsigned(),
        RegOp::Or => a | b,
        RegOp::And => a & b,
        RegOp::Mul => a.wrapping_mul(b),
        RegOp::Mulh => mulh(a, b),
        RegOp::Mulhsu => mulhsu(a, b),
        RegOp::Mulhu => ((a as u64 * b as u64) >> 32) as u32,
        RegOp::Div => div(a, b),
        RegOp::Divu => if b == 0 { u32::MAX } else { a / b },
        RegOp::Rem => rem(a, b),
        RegOp::Remu => if b == 0 { a } else { a % b },
    }
}

/// The high word of the product of two signed words.
fn mulh(a: u32, b: u32) -> u32
    ensures { result ≡ high_word (signed a *ℤ signed b) }
{
    let product = a.cast_signed() as i64 * b.cast_signed() as i64;
    (product.cast_unsigned() >> 32) as u32
}

/// The high word of the product of a signed and an unsigned word.
fn mulhsu(a: u32, b: u32) -> u32
    ensures { result ≡ high_word (signed a *ℤ pos b) }
{
    let product = a.cast_signed() as i64 * b as i64;
    (product.cast_unsigned() >> 32) as u32
}

/// The signed quotient; all ones where the divisor is zero.
fn div(a: u32, b: u32) -> u32
    ensures { result ≡ reg_result Div a b }
{
    if b == 0 {
        u32::MAX
    } else {
        a.cast_signed()
            .wrapping_div(b.cast_signed())
            .cast_unsigned()
    }
}

/// The signed remainder; the dividend where the divisor is zero.
fn rem(a: u32, b: u32) -> u32
    ensures { result ≡ reg_result Rem a b }
{
    if b == 0 {
        a
    } else {
        a.cast_signed()
            .wrapping_rem(b.cast_signed())
            .cast_unsigned()
    }
}

fn signed_less(a: u32, b: u32) -> bool
    ensures { result ≡ int_lt (signed a) (signed b) }
{
    a.cast_signed() < b.cast_signed()
}

/// What an atomic memory operation stores, by the word as it was and the value of rs2.
pub fn amo_value(op: AmoOp, old: u32, operand: u32) -> u32
    ensures { result ≡ amo_result op old operand }
{
    match op {
        AmoOp::Amoswap => operand,
        AmoOp::Amoadd => old.wrapping_add(operand),
        AmoOp::Amoxor => old ^ operand,
        AmoOp::Amoand => old & operand,
        AmoOp::Amoor => old | operand,
        AmoOp::Amomin => if signed_less(old, operand) {
            old
        } else {
            operand
        },
        AmoOp::Amomax => if signed_less(old, operand) {
            operand
        } else {
            old
        },
        AmoOp::Amominu => if old < operand { old } else { operand },
        AmoOp::Amomaxu => if old < operand { operand } else { old },
    }
}

/// Whether an address is the reserved one.
pub fn has_reserved(reserved: Option<u32>, addr: u32) -> bool
    ensures { result ≡ is_reserved reserved addr }
{
    match reserved {
        None => false,
        Some(reserved) => reserved == addr,
    }
}

/// The operation on two registers that an operation with an immediate is.
pub fn operation(op: ImmOp) -> RegOp
    ensures { result ≡ operation_of op }
{
    match op {
        ImmOp::Addi => RegOp::Add,
        ImmOp::Slti => RegOp::Slt,
        ImmOp::Sltiu => RegOp::Sltu,
        ImmOp::Xori => RegOp::Xor,
        ImmOp::Ori => RegOp::Or,
        ImmOp::Andi => RegOp::And,
        ImmOp::Slli => RegOp::Sll,
        ImmOp::Srli => RegOp::Srl,
        ImmOp::Srai => RegOp::Sra,
    }
}

/// Whether a branch is taken at the values of its two registers.
pub fn is_taken(cond: Cond, a: u32, b: u32) -> bool
    ensures { result ≡ holds cond a b }
{
    match cond {
        Cond::Beq => a == b,
        Cond::Bne => a != b,
        Cond::Blt => signed_less(a, b),
        Cond::Bge => !signed_less(a, b),
        Cond::Bltu => a < b,
        Cond::Bgeu => a >= b,
    }
}

/// What a load puts into its register for the bytes that it read.
pub fn extend(kind: LoadKind, bytes: u32) -> u32
    ensures { result ≡ extended kind bytes }
{
    match kind {
        LoadKind::Lb => (((bytes % 0x100) as u8).cast_signed() as i32).cast_unsigned(),
        LoadKind::Lh => (((bytes % 0x1_0000) as u16).cast_signed() as i32).cast_unsigned(),
        LoadKind::Lw | LoadKind::Lbu | LoadKind::Lhu => bytes,
    }
}

/// A word and a signed distance from it, modulo 2^32.
pub fn displace(from: u32, distance: i32) -> u32
    ensures { result ≡ displaced from distance }
{
    from.wrapping_add(distance.cast_unsigned())
}
