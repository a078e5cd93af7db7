// Executable files as images of the machine: a reader of 32-bit little-endian ELF files for RISC-V (System V ABI, generic
// ABI 4.1, and the RISC-V ELF psABI), which answers the image or the first fault.
#![tactic(auto)]

mod fault;
mod header;
mod image;
mod read;

pub use fault::ElfFault;
pub use image::{Bytes, Image, Segment};
pub use read::read_elf;
