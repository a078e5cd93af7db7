// Putting the fields of an instruction together into its word, one function for each format.
ghost use Rattle.std.specs.Prelude.{◌≡◌, ◌%◌, ◌^◌, ◌<◌};
ghost use Rattle.rv_decode.specs.Bits.{pattern};
ghost use Rattle.rv_decode.specs.Formats.{r_type, a_type, i_type, s_type, b_type, u_type, j_type};
ghost use Rattle.rv_decode.specs.Table.{IsImmediate, IsBranchOffset, IsJumpOffset};

use tcc_base::Reg;

/// The number of a register, as a field.
fn number(r: Reg) -> u32
    ensures value { result ≡ r }
    ensures below { r < 32 }
{
    r.number() as u32
}

/// Format R. The field `rs2` is a register's number or the amount of a shift.
pub fn r_type(opcode: u32, funct3: u32, funct7: u32, rd: Reg, rs1: Reg, rs2: u32) -> u32
    requires opcode { opcode < 2 ^ 7 }
    requires funct3 { funct3 < 2 ^ 3 }
    requires funct7 { funct7 < 2 ^ 7 }
    requires rs2 { rs2 < 2 ^ 5 }
    ensures word { result ≡ r_type opcode funct3 funct7 rd rs1 rs2 }
    ensures registers { (rd < 32) × (rs1 < 32) }
{
    opcode + (number(rd) << 7) + (funct3 << 12) + (number(rs1) << 15) + (rs2 << 20) + (funct7 << 25)
}

/// An atomic access to a word: format R, whose funct7 is funct5 and `order`.
pub fn a_type(funct5: u32, order: u8, rd: Reg, rs1: Reg, rs2: u32) -> u32
    requires funct5 { funct5 < 2 ^ 5 }
    requires order { order < 4 }
    requires rs2 { rs2 < 2 ^ 5 }
    ensures word { result ≡ a_type funct5 order rd rs1 rs2 }
    ensures registers { (rd < 32) × (rs1 < 32) }
{
    let funct7 = (funct5 << 2) + order as u32;
    r_type(0b0101111, 0b010, funct7, rd, rs1, rs2)
}

/// Format I.
pub fn i_type(opcode: u32, funct3: u32, rd: Reg, rs1: Reg, imm: i32) -> u32
    requires opcode { opcode < 2 ^ 7 }
    requires funct3 { funct3 < 2 ^ 3 }
    requires imm { IsImmediate imm }
    ensures word { result ≡ i_type opcode funct3 rd rs1 imm }
    ensures registers { (rd < 32) × (rs1 < 32) }
{
    let pattern = pattern_12(imm);
    opcode + (number(rd) << 7) + (funct3 << 12) + (number(rs1) << 15) + (pattern << 20)
}

/// Format S.
pub fn s_type(opcode: u32, funct3: u32, rs1: Reg, rs2: Reg, imm: i32) -> u32
    requires opcode { opcode < 2 ^ 7 }
    requires funct3 { funct3 < 2 ^ 3 }
    requires imm { IsImmediate imm }
    ensures word { result ≡ s_type opcode funct3 rs1 rs2 imm }
    ensures registers { (rs1 < 32) × (rs2 < 32) }
{
    let pattern = pattern_12(imm);
    let registers = (number(rs1) << 15) + (number(rs2) << 20);
    opcode + (pattern % 0x20 << 7) + (funct3 << 12) + registers + (pattern / 0x20 << 25)
}

/// Format B.
pub fn b_type(opcode: u32, funct3: u32, rs1: Reg, rs2: Reg, offset: i32) -> u32
    requires opcode { opcode < 2 ^ 7 }
    requires funct3 { funct3 < 2 ^ 3 }
    requires offset { IsBranchOffset offset }
    ensures word { result ≡ b_type opcode funct3 rs1 rs2 offset }
    ensures registers { (rs1 < 32) × (rs2 < 32) }
{
    let pattern = pattern_13(offset);
    let low = (pattern / 0x800 % 2 << 7) + (pattern / 2 % 0x10 << 8);
    let high = (pattern / 0x20 % 0x40 << 25) + (pattern / 0x1000 << 31);
    let registers = (number(rs1) << 15) + (number(rs2) << 20);
    opcode + low + (funct3 << 12) + registers + high
}

/// Format U.
pub fn u_type(opcode: u32, rd: Reg, imm: u32) -> u32
    requires opcode { opcode < 2 ^ 7 }
    requires imm { imm % 2 ^ 12 ≡ 0 }
    ensures word { result ≡ u_type opcode rd imm }
    ensures registers { (rd < 32) × (imm < 2 ^ 32) }
{
    opcode + (number(rd) << 7) + imm
}

/// Format J.
pub fn j_type(opcode: u32, rd: Reg, offset: i32) -> u32
    requires opcode { opcode < 2 ^ 7 }
    requires offset { IsJumpOffset offset }
    ensures word { result ≡ j_type opcode rd offset }
    ensures registers { rd < 32 }
{
    let pattern = pattern_21(offset);
    let middle = (pattern / 0x1000 % 0x100 << 12) + (pattern / 0x800 % 2 << 20);
    let high = (pattern / 2 % 0x400 << 21) + (pattern / 0x10_0000 << 31);
    opcode + (number(rd) << 7) + middle + high
}

/// The twelve bits that stand for a number in two's complement.
fn pattern_12(imm: i32) -> u32
    requires { IsImmediate imm }
    ensures value { result ≡ pattern 12 imm }
    ensures below { result < 2 ^ 12 }
{
    imm.cast_unsigned() % 0x1000
}

/// The thirteen bits that stand for a number in two's complement.
fn pattern_13(offset: i32) -> u32
    requires { IsBranchOffset offset }
    ensures value { result ≡ pattern 13 offset }
    ensures below { result < 2 ^ 13 }
{
    offset.cast_unsigned() % 0x2000
}

/// The 21 bits that stand for a number in two's complement.
fn pattern_21(offset: i32) -> u32
    requires { IsJumpOffset offset }
    ensures value { result ≡ pattern 21 offset }
    ensures below { result < 2 ^ 21 }
{
    offset.cast_unsigned() % 0x20_0000
}
