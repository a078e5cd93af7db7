// Loads that hit, loads that miss, and roll backs of a few stores, in either form of a cache's frames, with a checksum: the work
// that `bench/cache.sh` times.
use crate::words::fill;
use spec_cache::{Frames, ListFrames, Look, SetFrames};
use std::alloc::Global;
use std::io;
use tcc_base::{Config, LineAddr, NoMemory, WordAddr};

// Gives the first `count` lines a frame with all words valid.
fn warm<F: Frames>(frames: &mut F, count: u32) {
    for line in 0..count {
        if line < frames.config().words() / 8 && frames.frame_of(LineAddr(line)).is_none() {
            let _ = frames.place(LineAddr(line));
        }
        if frames.frame_of(LineAddr(line)).is_some() {
            frames.fill(LineAddr(line), &[line; 8]);
        }
    }
}

// Loads a word with a mark, and gives its value, or 1 where it isn't there.
fn load<F: Frames>(frames: &mut F, w: u32) -> u32 {
    match frames.load(WordAddr(w), true) {
        Look::Hit(value) => value,
        _ => 1,
    }
}

// Stores a word where its line has a frame.
fn store<F: Frames>(frames: &mut F, w: u32) {
    if frames.frame_of(LineAddr(w / 8)).is_some() {
        let _ = frames.store(WordAddr(w), w, false);
    }
}

// One round: kind 0 is a load that hits, 1 a load that misses, 2 four stores and a roll back.
fn round<F: Frames>(frames: &mut F, kind: u64, words: u32, at: u32) -> u32 {
    match kind {
        0 => load(frames, at),
        1 => load(frames, words.wrapping_add(at)),
        _ => {
            for k in 0..4u32 {
                store(frames, at.wrapping_add(k * 8) % words.max(1));
            }
            frames.roll_back();
            at
        }
    }
}

// Many rounds over a warm cache; the sum of what they gave.
fn work<F: Frames>(frames: &mut F, kind: u64, rounds: u64) -> u64 {
    let cfg = frames.config();
    let count = cfg.sets() as u32 * cfg.ways() as u32;
    warm(frames, count);
    let words = count.wrapping_mul(8).max(1);
    let mut at = 0u32;
    let mut sum = 0u64;
    for _ in 0..rounds {
        at = at.wrapping_add(9) % words;
        sum = sum.wrapping_add(u64::from(round(frames, kind, words, at)));
    }
    sum
}

/// The numbers: 0 for frames by set and else a list, the kind of round, sets, ways, and how many rounds.
pub fn run(rt: &impl Print, alloc: Global, words: &[String]) -> io::Result<()> {
    let mut numbers = [0u64, 0, 16, 2, 100];
    fill(&mut numbers, words);
    let [list, kind, sets, ways, rounds] = numbers;
    let Ok(cfg) = Config::new(1, 1, sets, ways, 0, 16_777_216) else {
        return println!(rt; "these settings aren't allowed");
    };
    let sum = if list == 0 {
        SetFrames::new(alloc, &cfg).map(|mut frames| work(&mut frames, kind, rounds))
    } else {
        ListFrames::new(alloc, &cfg).map(|mut frames| work(&mut frames, kind, rounds))
    };
    match sum {
        Ok(sum) => println!(rt; "{sum}"),
        Err(NoMemory) => println!(rt; "no memory"),
    }
}
