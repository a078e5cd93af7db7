// The words of each workload's image, as clang 14 assembles the same lines for riscv32.
ghost use Rattle.std.specs.Prelude.{◌≤◌};

use std::alloc::Global;
use std::process::Abort;
use tcc_base::NoMemory;
use work_gen::{Work, workload};

/// The image of the workload is these words, little-endian.
fn has_words(
    rt: &impl Abort,
    alloc: Global,
    kind: Work,
    number: u32,
    words: &[u32],
) -> Result<(), NoMemory>
    requires least { 1 ≤ number }
    requires most { number ≤ 2047 }
{
    let mut bytes = Vec::new(alloc);
    for word in words {
        bytes
            .extend_from_slice(&word.to_le_bytes())
            .map_err(|_| NoMemory)?;
    }
    let image = workload(alloc, kind, number)?;
    assert_eq!(rt; image, bytes);
    Ok(())
}

#[test]
fn counters_count_up_one_word(rt: HostRuntime) -> Result<(), NoMemory> {
    let words = [
        0x8000_0337,
        0x0640_0393,
        0x0403_2283,
        0x0012_8293,
        0x0453_2023,
        0x0000_0073,
        0xfff3_8393,
        0xfe03_96e3,
        0x05d0_0893,
        0x0000_0073,
    ];
    has_words(&rt, rt.alloc(), Work::Counters, 100, &words)
}

#[test]
fn transfers_go_from_word_to_word(rt: HostRuntime) -> Result<(), NoMemory> {
    let words = [
        0x8000_0337,
        0x7ff0_0393,
        0x00a3_8633,
        0x00f6_7613,
        0x0026_1613,
        0x0066_0633,
        0x00f3_f693,
        0x0026_9693,
        0x0066_86b3,
        0x4006_2283,
        0xfff2_8293,
        0x4056_2023,
        0x4006_a283,
        0x0012_8293,
        0x4056_a023,
        0x0000_0073,
        0xfff3_8393,
        0xfc03_92e3,
        0x05d0_0893,
        0x0000_0073,
    ];
    has_words(&rt, rt.alloc(), Work::Transfers, 2047, &words)
}

#[test]
fn a_stencil_reads_its_neighbour(rt: HostRuntime) -> Result<(), NoMemory> {
    let words = [
        0x8000_0337,
        0x0010_0393,
        0x0023_9613,
        0x0066_0633,
        0x3fc6_2283,
        0x4006_2683,
        0x00d2_82b3,
        0x0012_8293,
        0x4056_2023,
        0x0000_0073,
        0xfff3_8393,
        0xfc03_9ee3,
        0x05d0_0893,
        0x0000_0073,
    ];
    has_words(&rt, rt.alloc(), Work::Stencil, 1, &words)
}

#[test]
fn sharing_counts_up_a_word_of_each_core(rt: HostRuntime) -> Result<(), NoMemory> {
    let words = [
        0x8000_0337,
        0x0070_0393,
        0x0025_1613,
        0x0066_0633,
        0x4006_2283,
        0x0012_8293,
        0x4056_2023,
        0x0000_0073,
        0xfff3_8393,
        0xfe03_92e3,
        0x05d0_0893,
        0x0000_0073,
    ];
    has_words(&rt, rt.alloc(), Work::Sharing, 7, &words)
}
