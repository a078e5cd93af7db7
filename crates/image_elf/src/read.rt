// The reader: the tests in their order, and the image where all hold.
ghost use Rattle.std.specs.Prelude.{◌≡◌, ◌≢◌, ◌+◌, ◌*◌, ◌^◌, ◌≤◌, ◌<◌, length, Option, Some, None, IfSome, IfOk, OnOk, IfErr};
ghost use Rattle.image_elf.specs.Elf.{e_phoff, e_phnum, contents_of, segment_of, image_of, IsWithinSizes};
ghost use Rattle.image_elf.specs.Tests.{first_fault, identity_tests, table_tests, segment_tests, tests};
ghost use Rattle.image_elf.specs.declared.fault.ElfFault.TheVariants.{Memory};

use crate::fault::ElfFault;
use crate::header::{ProgramHeader, half_at, word_at};
use crate::image::{Bytes, Image, Segment};
use std::alloc::Global;
use tcc_base::List;

/// The size of the ELF header.
const HEADER_SIZE: usize = 52;

/// EM_RISCV, the number of the machine.
const RISCV: u16 = 243;

/// ET_EXEC, the type of an executable file.
const EXECUTABLE: u16 = 2;

/// EF_RISCV_RVC, the flag of a file with compressed code.
const COMPRESSED: u32 = 1;

/// PT_LOAD, the type of a segment that is loaded.
const LOAD: u32 = 1;

/// PT_DYNAMIC, the type of the run-time linker's tables.
const DYNAMIC: u32 = 2;

/// PT_INTERP, the type of the run-time linker's name.
const INTERP: u32 = 3;

/// PF_X, the flag of an executable segment.
const EXECUTE: u32 = 1;

/// Tests the file's first bytes: that it is a 32-bit little-endian ELF file for RISC-V.
fn test_identity(file: &[u8]) -> Result<(), ElfFault>
    ensures ok { OnOk result (first_fault (identity_tests file.now) ≡ None) }
    ensures whole { OnOk result (52 ≤ length file.now) }
    ensures fault { IfErr result (λ fault. first_fault (identity_tests file.now) ≡ Some fault) }
{
    if file.len() < HEADER_SIZE {
        return Err(ElfFault::Short(52));
    }
    if !file.starts_with(b"\x7fELF") {
        return Err(ElfFault::NotElf);
    }
    if file[4] != 1 {
        return Err(ElfFault::NotRv32(4));
    }
    if file[5] != 1 {
        return Err(ElfFault::NotRv32(5));
    }
    if file[6] != 1 {
        return Err(ElfFault::NotRv32(6));
    }
    if half_at(file, 18) != RISCV {
        return Err(ElfFault::NotRv32(18));
    }
    if word_at(file, 20) != 1 {
        return Err(ElfFault::NotRv32(20));
    }
    Ok(())
}

/// Tests what kind of file it is, and that its table of program headers lies in it.
fn test_table(file: &[u8]) -> Result<(), ElfFault>
    requires { 52 ≤ length file.now }
    ensures ok { OnOk result (first_fault (table_tests file.now) ≡ None) }
    ensures whole { OnOk result (0 < e_phnum file.now → e_phoff file.now + 32 * e_phnum file.now ≤ length file.now) }
    ensures fault { IfErr result (λ fault. first_fault (table_tests file.now) ≡ Some fault) }
{
    if half_at(file, 16) != EXECUTABLE {
        return Err(ElfFault::Kind);
    }
    if word_at(file, 36) & COMPRESSED != 0 {
        return Err(ElfFault::Compressed);
    }
    let count = half_at(file, 44);
    if count == 0 {
        return Ok(());
    }
    if half_at(file, 42) != 32 {
        return Err(ElfFault::NotRv32(42));
    }
    let end = word_at(file, 28) as u64 + 32 * count as u64;
    if (file.len() as u64) < end {
        return Err(ElfFault::Short(end));
    }
    Ok(())
}

/// Tests one program header.
fn test_segment(file: &[u8], index: u32, header: ProgramHeader) -> Result<(), ElfFault>
    ensures ok { OnOk result (first_fault (segment_tests file.now index header) ≡ None) }
    ensures fault { IfErr result (λ fault. first_fault (segment_tests file.now index header) ≡ Some fault) }
{
    if header.p_type == DYNAMIC || header.p_type == INTERP {
        return Err(ElfFault::Dynamic);
    }
    if header.p_type != LOAD {
        return Ok(());
    }
    if header.p_filesz > header.p_memsz
        || header.p_vaddr as u64 + header.p_memsz as u64 > 0x1_0000_0000
    {
        return Err(ElfFault::BadSegment(index));
    }
    let end = header.p_offset as u64 + header.p_filesz as u64;
    if header.p_filesz != 0 && (file.len() as u64) < end {
        return Err(ElfFault::Short(end));
    }
    Ok(())
}

/// What a header's segment holds of the file.
fn contents<'a>(file: &'a [u8], header: ProgramHeader) -> &'a [u8]
    requires { header.p_filesz ≢ 0 → header.p_offset + header.p_filesz ≤ length file.now }
    ensures { result.now ≡ contents_of file.now header }
{
    if header.p_filesz == 0 {
        return &[];
    }
    let first = header.p_offset as usize;
    &file[first..first + header.p_filesz as usize]
}

/// The segment of a header that passed its tests, where it is loaded and isn't empty.
fn segment<'a>(file: &'a [u8], index: u32, header: ProgramHeader) -> Option<Segment<'a>>
    requires { first_fault (segment_tests file.now index header) ≡ None }
    ensures value { result ≡ segment_of file.now index header }
    ensures within { IfSome result (λ s. length s.bytes ≤ s.size) }
{
    if header.p_type != LOAD || header.p_memsz == 0 {
        return None;
    }
    Some(Segment {
        index,
        addr: header.p_vaddr,
        bytes: Bytes {
            items: contents(file, header),
        },
        size: header.p_memsz,
        exec: header.p_flags & EXECUTE != 0,
    })
}

/// The image of an ELF file, or the fault of the first test that the file fails. The tests are, in order:
///
/// | Test | Fault |
/// |---|---|
/// | the file has at least 52 bytes | `Short(52)` |
/// | it begins with 7f 45 4c 46 | `NotElf` |
/// | class 1 at 4, data 1 at 5, version 1 at 6, machine 243 at 18, version 1 at 20 | `NotRv32` of the offset |
/// | its type, at 16, is 2 | `Kind` |
/// | bit 0 of the flags, at 36, is clear | `Compressed` |
/// | there are no program headers, or they have 32 bytes each | `NotRv32(42)` |
/// | there are no program headers, or the file has all their bytes | `Short` of as many as that takes |
/// | then for each program header: its type isn't 2 or 3 | `Dynamic` |
/// | its file size is at most its memory size, and it ends at 2^32 at most (type 1 only) | `BadSegment` of its index |
/// | its file size is 0, or the file has all its bytes (type 1 only) | `Short` of as many as that takes |
///
/// A segment is kept where its type is 1 and its memory size isn't 0. Its bytes stay in the file, so that the image takes memory for
/// at most 65,535 segments, whatever their sizes are. `Memory` may come at any file.
pub fn read_elf<'a>(alloc: Global, bytes: &'a [u8]) -> Result<Image<'a>, ElfFault>
    ensures image { IfOk result (λ image. image ≡ image_of bytes.now) }
    ensures accepted { OnOk result (first_fault (tests bytes.now) ≡ None) }
    ensures fault { IfErr result (λ fault. fault ≢ Memory → first_fault (tests bytes.now) ≡ Some fault) }
    ensures within { IfOk result IsWithinSizes }
{
    test_identity(bytes)?;
    test_table(bytes)?;
    let table = word_at(bytes, 28) as usize;
    let count = half_at(bytes, 44) as u32;
    let mut segments = Vec::new(alloc);
    for index in 0..count {
        let header = ProgramHeader::read(bytes, table + 32 * index as usize);
        test_segment(bytes, index, header)?;
        if let Some(kept) = segment(bytes, index, header) {
            segments.push(kept)?;
        }
    }
    Ok(Image {
        entry: word_at(bytes, 24),
        segments: List { items: segments },
    })
}
