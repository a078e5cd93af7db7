// What an attempt has written, line by line.
ghost use Rattle.std.specs.Prelude.{◌≡◌, ◌<◌, ◌+◌, ◌*◌, map, IfOk, OnErr};
ghost use Rattle.rules_maps.specs.Shape.{lines};
ghost use Rattle.rules_maps.specs.Words.{line_of};
ghost use Rattle.commit_engine.specs.Solo.{solo_list};
ghost use Rattle.core_node.specs.Answers.{IsMemory};
ghost use Rattle.core_node.specs.AtHand.{line_told, lines_told, word_told};
ghost use Rattle.core_node.specs.View.{core_of, IsCore};

use crate::closing::written_marks;
use crate::delivering::CoreError;
use crate::state::Core;
use spec_cache::Look;
use tcc_base::{LineAddr, List, Mask, Tagged, Tid, WordAddr};

/// What the core has of a word, spilled or in a frame; zero where it has nothing.
fn word_here(core: &Core, w: WordAddr) -> u32
    requires { IsCore core.now }
    ensures { result ≡ word_told (core_of core.now) w.0 }
{
    match core.spilled.get(w) {
        Some(word) => word,
        None => match core.cache.look_load(w) {
            Look::Hit(word) => word,
            _ => 0,
        },
    }
}

/// What the core has of a line, with this mask and tag.
fn line_here(core: &Core, line: LineAddr, mask: Mask, tid: Tid) -> Tagged
    requires whole { IsCore core.now }
    requires exists { 8 * line.0 + 8 < 4294967296 }
    ensures { result ≡ line_told (core_of core.now) tid.0 (line.0, mask.0) }
{
    let w = 8 * line.0;
    Tagged {
        line,
        mask,
        words: [
            word_here(core, WordAddr(w)),
            word_here(core, WordAddr(w + 1)),
            word_here(core, WordAddr(w + 2)),
            word_here(core, WordAddr(w + 3)),
            word_here(core, WordAddr(w + 4)),
            word_here(core, WordAddr(w + 5)),
            word_here(core, WordAddr(w + 6)),
            word_here(core, WordAddr(w + 7)),
        ],
        tag: tid,
    }
}

/// All lines that the attempt has written, each with the mask of these words and what the core has of it. Takes time in the cache's
/// marked frames, and in the spilled lines, which it puts in order.
pub(crate) fn written(core: &Core, tid: Tid) -> Result<List<Tagged>, CoreError>
    requires whole { IsCore core.now }
    requires small { lines core.now.config < 536870911 }
    ensures lines { IfOk result (λ ts. ts ≡ lines_told core.now.config tid.0 (core_of core.now)) }
    ensures cause { OnErr result (IsMemory result) }
{
    let marks = written_marks(core)?;
    let mut told = List::new(*core.loads.items.allocator());
    for (line, mask) in &marks {
        let Ok(()) = told.push(line_here(core, *line, *mask, tid)) else {
            return Err(CoreError::Memory);
        };
    }
    Ok(told)
}
