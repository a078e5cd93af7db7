// The numbers among a command's words.

/// Puts the words that are numbers in place of these numbers, each in its place; the others stay as they are.
pub fn fill(numbers: &mut [u64], words: &[String]) {
    for (number, word) in numbers.iter_mut().zip(words) {
        if let Ok(given) = word.as_str().parse::<u64>() {
            *number = given;
        }
    }
}
