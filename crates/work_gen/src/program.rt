// The programs of the workloads, and their images.
ghost use Rattle.std.specs.Prelude.{◌≡◌, ℕ, pos, ◌*◌, ◌≤◌, ◌++◌, OnOk, IfOk, length};
ghost use Rattle.std.specs.List.{All};
ghost use Rattle.rv_decode.specs.Table.{IsInRange};
ghost use Rattle.work_gen.specs.Programs.{body, program, image};
ghost use Rattle.work_gen.specs.declared.work.Work.TheVariants.{Counters, Transfers, Stencil, Sharing};

use crate::assembler::{add, addi, andi, bne, lui, lw, slli, sw};
use crate::work::Work;
use rv_decode::{Inst, encode};
use std::alloc::{AllocError, Global};
use tcc_base::NoMemory;

/// The largest number that the first instructions of a program can count down from.
pub const MAX_NUMBER: u32 = 2_047;

/// The raw image of a workload whose cores each do `number` transactions of its kind, from 1 to `MAX_NUMBER`, and one that ends.
pub fn workload(alloc: Global, kind: Work, number: u32) -> Result<Vec<u8>, NoMemory>
    requires least { 1 ≤ number }
    requires most { number ≤ MAX_NUMBER }
    ensures { IfOk result (λ bytes. bytes.items ≡ image (program kind number)) }
{
    let insts = instructions(alloc, kind, number).map_err(|_| NoMemory)?;
    encoded(alloc, &insts).map_err(|_| NoMemory)
}

/// The words of the instructions, little-endian.
fn encoded(alloc: Global, insts: &[Inst]) -> Result<Vec<u8>, AllocError>
    requires { All IsInRange insts.now }
    ensures { IfOk result (λ bytes. bytes.items ≡ image insts.now) }
{
    let mut bytes = Vec::new(alloc);
    for inst in insts {
        bytes.extend_from_slice(&encode(*inst).to_le_bytes())?;
    }
    Ok(bytes)
}

/// The instructions of a workload's program.
fn instructions(alloc: Global, kind: Work, number: u32) -> Result<Vec<Inst>, AllocError>
    requires { number ≤ 2047 }
    ensures program { IfOk result (λ insts. insts.items ≡ program kind number) }
    ensures range { IfOk result (λ insts. All IsInRange insts.items) }
{
    let mut insts = Vec::new(alloc);
    insts.extend_from_slice(&[lui(6, 0x8000_0000), addi(7, 0, number as i32)])?;
    add_body(&mut insts, kind)?;
    // Back over the body, the ECALL and the ADDI, which are as many as stand here.
    let back = bytes_of(insts.len());
    insts.extend_from_slice(&[
        Inst::Ecall,
        addi(7, 7, -1),
        bne(7, 0, -back),
        addi(17, 0, 93),
        Inst::Ecall,
    ])?;
    Ok(insts)
}

/// The length of so many instructions.
fn bytes_of(insts: usize) -> i32
    requires { insts ≤ 100 }
    ensures { result ≡ pos (4 * insts) }
{
    4 * insts as i32
}

/// Appends what a transaction of the kind does.
fn add_body(insts: &mut Vec<Inst>, kind: Work) -> Result<(), AllocError>
    ensures { OnOk result (insts.new.items ≡ insts.old.items ++ body kind) }
{
    match kind {
        Work::Counters => insts.extend_from_slice(&counters()),
        Work::Transfers => insts.extend_from_slice(&transfers()),
        Work::Stencil => insts.extend_from_slice(&stencil()),
        Work::Sharing => insts.extend_from_slice(&sharing()),
    }
}

#[tactic(auto, unfolding(crate::specs::Programs::body))]
fn counters() -> [Inst; 3]
    ensures { result ≡ body Counters }
{
    [lw(5, 64, 6), addi(5, 5, 1), sw(5, 64, 6)]
}

#[tactic(auto, unfolding(crate::specs::Programs::body))]
fn transfers() -> [Inst; 13]
    ensures { result ≡ body Transfers }
{
    [
        add(12, 7, 10),
        andi(12, 12, 15),
        slli(12, 12, 2),
        add(12, 12, 6),
        andi(13, 7, 15),
        slli(13, 13, 2),
        add(13, 13, 6),
        lw(5, 1024, 12),
        addi(5, 5, -1),
        sw(5, 1024, 12),
        lw(5, 1024, 13),
        addi(5, 5, 1),
        sw(5, 1024, 13),
    ]
}

#[tactic(auto, unfolding(crate::specs::Programs::body))]
fn stencil() -> [Inst; 7]
    ensures { result ≡ body Stencil }
{
    [
        slli(12, 7, 2),
        add(12, 12, 6),
        lw(5, 1020, 12),
        lw(13, 1024, 12),
        add(5, 5, 13),
        addi(5, 5, 1),
        sw(5, 1024, 12),
    ]
}

#[tactic(auto, unfolding(crate::specs::Programs::body))]
fn sharing() -> [Inst; 5]
    ensures { result ≡ body Sharing }
{
    [
        slli(12, 10, 2),
        add(12, 12, 6),
        lw(5, 1024, 12),
        addi(5, 5, 1),
        sw(5, 1024, 12),
    ]
}
