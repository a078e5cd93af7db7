// Acts of one node in a row.
ghost use Rattle.std.specs.Prelude.{◌≡◌, ◌<◌, suc};
ghost use Rattle.image_load.specs.Contents.{Contents};
ghost use Rattle.node_locks.specs.Turns.{ActedOn, IsTurn, after_words, moved_in};
ghost use Rattle.node_locks.specs.Wiring.{IsOf, Wiring};

use apart_node::{Act, Node};
use rand_core::utils::NextWord;
use rand_pcg::Lcg64Xsh32;
use std::sync::Wait;

/// What the acts of one turn came to: so many of them moved, and after those came the last one.
#[derive(Clone, Copy, Debug, PartialEq, Eq)]
pub struct Acts {
    pub before: u32,
    pub last: Act,
}

impl Acts {
    /// How many of them moved, the last one too where it did.
    pub fn moved(&self) -> u64
        ensures { result ≡ moved_in self.now }
    {
        let before = u64::from(self.before);
        if self.last == Act::Moved {
            before + 1
        } else {
            before
        }
    }
}

/// Acts of the node one after another, each with the next word, up to the first that doesn't move, and at most so many.
pub(crate) fn act_on<R: Wait>(rt: &R, node: &mut Node, words: &mut Lcg64Xsh32, most: u32) -> Acts
    requires { 0 < most }
    ensures turn { IsTurn most result }
    ensures drawn { words.new ≡ after_words (suc result.before) words.old }
    ensures acted { ActedOn node.old words.old node.new result }
    ensures of { (code : Contents) (link : Wiring) → IsOf code link node.old → IsOf code link node.new }
{
    for before in 0..most - 1 {
        let last = node.act(rt, words.next_word());
        if last != Act::Moved {
            return Acts { before, last };
        }
    }
    Acts {
        before: most - 1,
        last: node.act(rt, words.next_word()),
    }
}
