// Reading the fields of an instruction word: bit fields, register numbers and immediates.
ghost use Rattle.std.specs.Prelude.{◌≡◌, ◌+◌, pos, ◌^◌, ◌≤◌, ◌<◌};
ghost use Rattle.rv_decode.specs.Bits.{bits, signed};
ghost use Rattle.rv_decode.specs.Formats.{opcode_of, rd_of, funct3_of, rs1_of, rs2_of, funct7_of, funct5_of, order_of, imm_i, imm_s, imm_b};
ghost use Rattle.rv_decode.specs.Formats.{imm_u, imm_j};

use tcc_base::Reg;

/// The bits `hi` to `lo` of a word.
fn bits(word: u32, hi: u32, lo: u32) -> u32
    requires in_order { lo ≤ hi }
    requires within { hi < 32 }
    requires not_all { hi < lo + 31 }
    ensures { result ≡ bits word hi lo }
{
    (word >> lo) % (1 << (hi + 1 - lo))
}

/// The register whose number stands in the five bits from `lo` on.
fn register(word: u32, lo: u32) -> Reg
    requires { lo < 28 }
    ensures { result ≡ bits word (lo + 4) lo }
{
    Reg::new(bits(word, lo + 4, lo) as u8).unwrap()
}

pub fn opcode(word: u32) -> u32
    ensures { result ≡ opcode_of word }
{
    bits(word, 6, 0)
}

pub fn rd(word: u32) -> Reg
    ensures { result ≡ rd_of word }
{
    register(word, 7)
}

pub fn funct3(word: u32) -> u32
    ensures { result ≡ funct3_of word }
{
    bits(word, 14, 12)
}

pub fn rs1(word: u32) -> Reg
    ensures { result ≡ rs1_of word }
{
    register(word, 15)
}

pub fn rs2(word: u32) -> Reg
    ensures { result ≡ rs2_of word }
{
    register(word, 20)
}

pub fn funct7(word: u32) -> u32
    ensures { result ≡ funct7_of word }
{
    bits(word, 31, 25)
}

/// Which atomic access a word is.
pub fn funct5(word: u32) -> u32
    ensures { result ≡ funct5_of word }
{
    bits(word, 31, 27)
}

/// Acquire and release of an atomic access.
pub fn order(word: u32) -> u8
    ensures { result ≡ order_of word }
{
    bits(word, 26, 25) as u8
}

/// The amount of a shift by an immediate, which stands in the place of rs2.
pub fn shift_amount(word: u32) -> i32
    ensures { result ≡ pos (rs2_of word) }
{
    bits(word, 24, 20) as i32
}

/// The number that twelve bits stand for in two's complement.
fn signed_12(pattern: u32) -> i32
    requires { pattern < 2 ^ 12 }
    ensures { result ≡ signed 12 pattern }
{
    if pattern < 0x800 {
        pattern as i32
    } else {
        pattern as i32 - 0x1000
    }
}

/// The number that thirteen bits stand for in two's complement.
fn signed_13(pattern: u32) -> i32
    requires { pattern < 2 ^ 13 }
    ensures { result ≡ signed 13 pattern }
{
    if pattern < 0x1000 {
        pattern as i32
    } else {
        pattern as i32 - 0x2000
    }
}

/// The number that 21 bits stand for in two's complement.
fn signed_21(pattern: u32) -> i32
    requires { pattern < 2 ^ 21 }
    ensures { result ≡ signed 21 pattern }
{
    if pattern < 0x10_0000 {
        pattern as i32
    } else {
        pattern as i32 - 0x20_0000
    }
}

pub fn immediate_i(word: u32) -> i32
    ensures { result ≡ imm_i word }
{
    signed_12(bits(word, 31, 20))
}

pub fn immediate_s(word: u32) -> i32
    ensures { result ≡ imm_s word }
{
    signed_12(bits(word, 31, 25) * 0x20 + bits(word, 11, 7))
}

pub fn immediate_b(word: u32) -> i32
    ensures { result ≡ imm_b word }
{
    let high = bits(word, 31, 31) * 0x1000 + bits(word, 7, 7) * 0x800;
    signed_13(high + bits(word, 30, 25) * 0x20 + bits(word, 11, 8) * 2)
}

pub fn immediate_u(word: u32) -> u32
    ensures { result ≡ imm_u word }
{
    bits(word, 31, 12) * 0x1000
}

pub fn immediate_j(word: u32) -> i32
    ensures { result ≡ imm_j word }
{
    let high = bits(word, 31, 31) * 0x10_0000 + bits(word, 19, 12) * 0x1000;
    signed_21(high + bits(word, 20, 20) * 0x800 + bits(word, 30, 21) * 2)
}
