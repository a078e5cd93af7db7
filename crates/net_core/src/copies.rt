// Copies of the words of a line, and the newest of two at each place.
ghost use Rattle.std.specs.Prelude.{◌≡◌, ◌<◌, ℕ, get_or, length};
ghost use Rattle.rules_maps.specs.Masks.{has};
ghost use Rattle.rules_maps.specs.Nodes.{WriteBack};
ghost use Rattle.rules_maps.specs.Words.{word_at};
ghost use Rattle.tcc_msg.specs.Plain.{msg_of};
ghost use Rattle.rules_tcc.specs.Seen.{copy_of, newer};
ghost use Rattle.net_core.specs.Copies.{AreNewest, nth_copy, plain_copy};

use tcc_base::{LineAddr, Mask, Tid};
use tcc_msg::Msg;

/// A copy of a word, with the TID of the commit that made it.
#[derive(Clone, Copy, Debug, PartialEq, Eq)]
pub struct Copied {
    pub tag: Tid,
    pub value: u32,
}

/// Copies of these words, all of one commit.
pub(crate) fn dated(tag: Tid, words: &[u32; 8]) -> [Copied; 8]
    ensures { (k : ℕ) → k < 8 → nth_copy result k ≡ record { tag = tag.0; value = get_or words.now k 0 } }
{
    words.map(|value| Copied { tag, value })
}

/// The values of the copies.
pub(crate) fn values(copies: &[Copied; 8]) -> [u32; 8]
    ensures count { length result ≡ 8 }
    ensures each { (k : ℕ) → k < 8 → get_or result k 0 ≡ (nth_copy copies.now k).value }
{
    copies.map(|copy| copy.value)
}

/// The newer of the two; this one where their tags are the same.
fn newer(old: Copied, tag: Tid, value: u32) -> Copied
    ensures { plain_copy result ≡ newer (plain_copy old) (record { tag = tag.0; value = value }) }
{
    if old.tag.0 <= tag.0 {
        Copied { tag, value }
    } else {
        old
    }
}

/// Whether the mask holds the word of that place.
fn has(mask: Mask, place: usize) -> bool
    requires { place < 8 }
    ensures { result ≡ has mask.0 place }
{
    mask.0 >> place & 1 == 1
}

/// Makes of each copy the newer of it and that of the word at its place among words of the same line, where the mask holds it.
pub(crate) fn newest_under(mask: Mask, words: &[u32; 8], tag: Tid, best: &mut [Copied; 8])
    ensures { (line : ℕ) → AreNewest best.old best.new (λ k. copy_of (word_at line k) (WriteBack line mask.0 words.now tag.0)) }
{
    for k in 0..8 {
        if has(mask, k) {
            best[k] = newer(best[k], tag, words[k]);
        }
    }
}

/// Makes of each copy the newer of it and that of a message on its way home, where it carries the word.
pub(crate) fn newest_in_msg(msg: &Msg, line: LineAddr, best: &mut [Copied; 8])
    ensures { AreNewest best.old best.new (λ k. copy_of (word_at line.0 k) (msg_of msg.now)) }
{
    match msg {
        Msg::WriteBack {
            mask,
            line: own,
            words,
            tag,
        }
        | Msg::Flush {
            mask,
            line: own,
            words,
            tag,
        } => {
            if own.0 == line.0 {
                newest_under(*mask, words, *tag, best);
            }
        }
        _ => {}
    }
}
