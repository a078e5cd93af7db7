// By how much the words of RAM grew in all, modulo 2^32.
ghost use Rattle.std.specs.Prelude.{◌≡◌, ◌+◌, ◌*◌, ◌%◌, ◌^◌, ◌<◌, ◌≤◌};
ghost use Rattle.report_text.specs.InLines.{line_growth};
ghost use Rattle.report_text.specs.Trial.{growth};

use crate::shown::ShownWords;
use tcc_base::LineAddr;

// The sum of what the words of a line grew by.
fn line_sum<R: ShownWords, L: ShownWords>(ram: &R, loaded: &L, line: LineAddr) -> u32
    requires in_ram { 8 * line.0 < R.count ram.now }
    requires was_loaded { 8 * line.0 < L.count loaded.now }
    ensures { result ≡ line_growth (R.words ram.now) (L.words loaded.now) line.0 % 2 ^ 32 }
{
    let now = ram.line(line);
    let old = loaded.line(line);
    let mut sum = 0u32;
    for k in 0..8 {
        sum = sum.wrapping_add(now[k].wrapping_sub(old[k]));
    }
    sum
}

// The sum of what all words grew by. Reads each line of both once.
#[tactic(auto, unfolding(crate::specs::Trial::growth))]
pub fn sum_of_growth<R: ShownWords, L: ShownWords>(ram: &R, loaded: &L) -> u32
    requires same { R.count ram.now ≡ L.count loaded.now }
    requires fits { 4 * R.count ram.now ≤ 2 ^ 32 }
    ensures { result ≡ growth (R.count ram.now) (R.words ram.now) (L.words loaded.now) }
{
    let mut sum = 0u32;
    for line in 0..ram.line_count() as u32 {
        sum = sum.wrapping_add(line_sum(ram, loaded, LineAddr(line)));
    }
    sum
}
