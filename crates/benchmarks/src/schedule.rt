// Reads and writes the text of a schedule, and prints a checksum: the work that `bench/schedule.sh` times.
use crate::words::fill;
use schedule_text::{read, write};
use std::alloc::{AllocError, Global};
use std::io;

// The text of a schedule with this number of events, of all kinds.
fn text(alloc: Global, events: u64) -> Result<String, AllocError> {
    let mut text = String::from_str(
        alloc,
        "tcc-schedule 1\ncores 16 dirs 16 sets 16 ways 2 base 2147483648 ram 65536\n",
    )?;
    for n in 0..events {
        let core = n % 16;
        match n % 8 {
            0 => write!(text, "x {core} {core} 1\n")?,
            1..=3 => write!(text, "e {core}\n")?,
            4 => write!(text, "d c{core} v {n}\n")?,
            5 => write!(text, "d d{core} c{core} {n}\n")?,
            _ => write!(text, "d c{core} d{core} {n}\n")?,
        }
    }
    write!(text, "end {events}\n")?;
    Ok(text)
}

// Reads the text, that many times. Gives the number of events.
fn readings(alloc: Global, text: &[u8], rounds: u64) -> u64 {
    let mut sum = 0u64;
    for _ in 0..rounds {
        if let Ok(schedule) = read(alloc, text) {
            sum = sum.wrapping_add(schedule.events.items.len() as u64);
        }
    }
    sum
}

// Reads the text once, and writes what was read, that many times. Gives the number of bytes.
fn writings(alloc: Global, text: &[u8], rounds: u64) -> u64 {
    let mut sum = 0u64;
    if let Ok(schedule) = read(alloc, text) {
        for _ in 0..rounds {
            if let Ok(bytes) = write(alloc, &schedule.config, &schedule.events.items) {
                sum = sum.wrapping_add(bytes.len() as u64);
            }
        }
    }
    sum
}

/// The numbers: 0 to read and else to write, how many events, and how many rounds.
pub fn run(rt: &impl Print, alloc: Global, words: &[String]) -> io::Result<()> {
    let mut numbers = [0u64, 1000, 1];
    fill(&mut numbers, words);
    let [writes, events, rounds] = numbers;
    match text(alloc, events) {
        Ok(text) => {
            let bytes = text.as_bytes();
            let sum = if writes == 0 {
                readings(alloc, bytes, rounds)
            } else {
                writings(alloc, bytes, rounds)
            };
            println!(rt; "{sum}")
        }
        Err(_) => println!(rt; "no memory"),
    }
}
