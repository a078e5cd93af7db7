// Tests of the parts that nodes and the plain machine are made of, by their public calls.
#![tactic(auto)]

#[cfg(test)]
mod caches;
#[cfg(test)]
mod commits;
#[cfg(test)]
mod decoding;
#[cfg(test)]
mod effects;
#[cfg(test)]
mod elf_files;
#[cfg(test)]
mod flights;
#[cfg(test)]
mod images;
#[cfg(test)]
mod lines;
#[cfg(test)]
mod messages;
#[cfg(test)]
mod plain_machine;
#[cfg(test)]
mod programs;
#[cfg(test)]
mod registers;
#[cfg(test)]
mod restored_caches;
#[cfg(test)]
mod settings;
#[cfg(test)]
mod skips;
#[cfg(test)]
mod spilled_words;
#[cfg(test)]
mod sums;
#[cfg(test)]
mod tids;
#[cfg(test)]
mod words_home;
