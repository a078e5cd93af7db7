// Images in memory: raw files and read ELF files laid into RAM, refused at the first fault, and what a machine then reads of
// RAM, code and entries as it was at the start.
#![tactic(auto)]

mod extent;
mod fault;
mod images;
mod layout;
mod loaded;
mod ram;
mod raw_files;

pub use fault::LoadFault;
pub use images::load;
pub use loaded::Loaded;
pub use raw_files::raw;
