// A word that an instruction has found or stores: in its frame, or in the overflow buffer.
ghost use Rattle.std.specs.Prelude.{◌≡◌, ◌<◌, true, OnOk, OnErr, is_some};
ghost use Rattle.rules_maps.specs.Shape.{lines};
ghost use Rattle.rules_maps.specs.Words.{line_of};
ghost use Rattle.rules_tcc.specs.Attempt.{moves, is_running};
ghost use Rattle.rules_tcc.specs.Execute.{with_read_mark, stored_in_frame, stored_in_buffer};
ghost use Rattle.rules_tcc.specs.Sends.{flush_line};
ghost use Rattle.spec_cache.specs.Held.{maps};
ghost use Rattle.commit_engine.specs.Sent.{HasRoom};
ghost use Rattle.core_node.specs.View.{core_of, IsCore, Did, Stays};

use crate::messages::flush_of;
use crate::state::Core;
use tcc_base::{LineAddr, NoMemory, NodeId, WordAddr};
use tcc_msg::Outgoing;

/// The line of a word.
pub(crate) fn line_of_word(w: WordAddr) -> LineAddr
    ensures { result.0 ≡ line_of w.0 }
{
    LineAddr(w.0 / 8)
}

/// A valid word that is used is marked read, unless it is modified or the core is alone.
#[tactic(auto, unfolding(crate::specs::View::core_of, rules_tcc::specs::Execute::with_read_mark))]
pub(crate) fn mark_used(core: &mut Core, w: WordAddr)
    requires whole { IsCore core.old }
    requires valid { is_some ((maps core.old.cache).value w.0) ≡ true }
    ensures does { core_of core.new ≡ with_read_mark w.0 (core_of core.old) }
    ensures stays { Stays core.old core.new }
{
    core.cache.load(w, core.phase.is_running());
}

/// Stores a word in its line's frame, and read-marks it too where `also` is set. Dirty words of the frame go home first.
#[tactic(auto, unfolding(crate::specs::View::core_of, rules_tcc::specs::Execute::stored_in_frame))]
pub(crate) fn store_framed(core: &mut Core, w: WordAddr, value: u32, also: bool, out: &mut Outgoing)
    requires whole { IsCore core.old }
    requires held { (maps core.old.cache).held (line_of w.0) ≡ true }
    requires room { HasRoom out.old 1 }
    ensures does { Did (moves (stored_in_frame w.0 value also (core_of core.old))
        (flush_line core.old.config (maps core.old.cache) (line_of w.0))) 1 out.old core.new out.new }
    ensures stays { Stays core.old core.new }
{
    let home = NodeId::Dir(core.config.home(line_of_word(w)));
    match core.cache.store(w, value, also) {
        Some(back) => out.hand_out(home, flush_of(back)),
        None => {}
    }
}

/// Stores a word in the overflow buffer. After want of memory it is as before.
#[tactic(auto, unfolding(crate::specs::View::core_of, rules_tcc::specs::Execute::stored_in_buffer))]
pub(crate) fn store_buffered(core: &mut Core, w: WordAddr, value: u32) -> Result<(), NoMemory>
    requires whole { IsCore core.old }
    requires exists { line_of w.0 < lines core.old.config }
    ensures does { OnOk result (core_of core.new ≡ stored_in_buffer w.0 value (core_of core.old)) }
    ensures n { core.new.n ≡ core.old.n }
    ensures stays { Stays core.old core.new }
    ensures unchanged { OnErr result (core_of core.new ≡ core_of core.old) }
{
    core.spilled.put(w, value)
}
