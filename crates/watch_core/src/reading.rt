// What a core has read of a line.
ghost use Rattle.std.specs.Prelude.{◌≡◌};
ghost use Rattle.core_node.specs.View.{core_of};
ghost use Rattle.watch.specs.Messages.{words_read as read_words};

use core_node::CoreNode;
use tcc_base::{LineAddr, Mask};

/// The words of a line under a mask that are marked read. Takes time in the ways of a set.
#[tactic(auto, unfolding(watch::specs::Messages::words_read))]
pub fn words_read(core: &CoreNode, line: LineAddr, mask: Mask) -> Mask
    ensures { result.0 ≡ read_words line.0 mask.0 (core_of core.now) }
{
    match core.frame_of(line) {
        Some(frame) => Mask(frame.read.0 & mask.0),
        None => Mask(0),
    }
}
