// The rising list of the marked lines' numbers, kept beside the records so that no call has to look for them.
ghost use Rattle.std.specs.Prelude.{◌≡◌, ℕ, ◌-◌, ◌<◌, ◌≤◌, Bool, true, false, length, slice_index, nat_lt, vec_len, vec_capacity};
ghost use Rattle.rules_maps.specs.Words.{put, those};

use tcc_base::Mask;

// Behind the numbers that are at most this one.
pub(crate) fn place(marked: &[u32], line: u32) -> usize
    ensures within { result ≤ length marked.now }
    ensures after { (k : ℕ) → result ≤ k → k < length marked.now → line < slice_index marked.now k }
    ensures before { 0 < result → slice_index marked.now (result - 1) ≤ line }
{
    let mut at = marked.len();
    while at > 0 && marked[at - 1] > line {
        at -= 1;
    }
    at
}

// Puts in a line that isn't there: the list for a test becomes the list for the test that holds of this line too.
pub(crate) fn note(marked: &mut Vec<u32>, line: u32)
    requires { vec_len marked.old < vec_capacity marked.old }
    ensures items { (p : ℕ → Bool) (n : ℕ) → line < n → p line ≡ false → marked.old.items ≡ those p n
        → marked.new.items ≡ those (put p line true) n }
    ensures capacity { vec_capacity marked.old ≤ vec_capacity marked.new }
{
    let at = place(marked, line);
    if at == marked.len() {
        // the common case, in which none is moved
        if marked.push(line).is_err() {
            unreachable!()
        }
    } else if marked.insert(at, line).is_err() {
        unreachable!()
    }
}

// Takes out a line that is there: the list for a test becomes the list for the test that doesn't hold of this line.
pub(crate) fn forget(marked: &mut Vec<u32>, line: u32)
    ensures items { (p : ℕ → Bool) (n : ℕ) → line < n → p line ≡ true → marked.old.items ≡ those p n
        → marked.new.items ≡ those (put p line false) n }
    ensures capacity { vec_capacity marked.old ≤ vec_capacity marked.new }
{
    let at = place(marked, line);
    if at == marked.len() {
        marked.pop();
    } else if at > 0 {
        let _ = marked.remove(at - 1);
    }
}

// Follows a change of a line's mask.
pub(crate) fn update(marked: &mut Vec<u32>, line: u32, was: Mask, is: Mask)
    requires { was.0 ≡ 0 → vec_len marked.old < vec_capacity marked.old }
    ensures items { (p : ℕ → Bool) (n : ℕ) → line < n → p line ≡ nat_lt 0 was.0 → marked.old.items ≡ those p n
        → marked.new.items ≡ those (put p line (nat_lt 0 is.0)) n }
    ensures capacity { vec_capacity marked.old ≤ vec_capacity marked.new }
{
    match (was.0 > 0, is.0 > 0) {
        (false, true) => note(marked, line),
        (true, false) => forget(marked, line),
        _ => {}
    }
}
