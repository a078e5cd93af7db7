// An instruction that stores a word, or a part of one: in the overflow buffer, in its line's frame, or in a new frame.
ghost use Rattle.std.specs.Prelude.{◌≡◌, ◌<◌, ◌-◌, ◌^◌, true, false, Some, is_some, OnOk, OnErr};
ghost use Rattle.rules_maps.specs.Cache.{free_way};
ghost use Rattle.rules_maps.specs.Shape.{lines, set_of};
ghost use Rattle.rules_maps.specs.Spilled.{holds};
ghost use Rattle.rules_maps.specs.Words.{line_of};
ghost use Rattle.rules_tcc.specs.Attempt.{moves, finished, new_word as word_after};
ghost use Rattle.rules_tcc.specs.Execute.{marks_read, place as placed_in, stored_in_frame, stored_in_buffer, change_valid as valid_rule};
ghost use Rattle.rules_tcc.specs.Execute.{partial_store as partial_rule, word_store as word_rule};
ghost use Rattle.rules_tcc.specs.Sends.{flush_line};
ghost use Rattle.rv_exec.specs.Needs.{need_of};
ghost use Rattle.rv_exec.specs.Running.{alone};
ghost use Rattle.spec_cache.specs.Held.{maps};
ghost use Rattle.overflow_buf.specs.Kept.{spilled};
ghost use Rattle.commit_engine.specs.Sent.{HasRoom};
ghost use Rattle.core_node.specs.Answers.{IsBlocked, IsMemory};
ghost use Rattle.core_node.specs.Executing.{DidSome, GoesOn, IsAligned};
ghost use Rattle.core_node.specs.View.{core_of, IsCore, Did, Stays};
ghost use Rattle.tcc_base.specs.Limits.{attempt_limit};

use crate::delivering::CoreError;
use crate::finishing::{advance, finish, given, note, take_back};
use crate::missing::{fetch, place};
use crate::state::Core;
use crate::storing::{line_of_word, store_buffered, store_framed};
use rv_decode::Inst;
use rv_exec::{Need, amo_value, read_part, replace_part};
use spec_cache::Look;
use tcc_base::{Size, WordAddr};
use tcc_msg::Outgoing;

/// The word that an instruction leaves in place of the one that it found.
pub(crate) fn new_word(need: Need, word: u32) -> u32
    requires { IsAligned need }
    ensures { result ≡ word_after (need_of need) word }
{
    match need {
        Need::Store { addr, size, value } => match size {
            Size::Word => value,
            Size::Half => replace_part(word, addr, Size::Half, value),
            Size::Byte => replace_part(word, addr, Size::Byte, value),
        },
        Need::Amo { addr, op, value } => {
            let old = read_part(word, addr, Size::Word);
            replace_part(word, addr, Size::Word, amo_value(op, old, value))
        }
        Need::Load { .. } => word,
        Need::Console(_) => word,
        Need::Nothing => word,
        Need::End => word,
        Need::Halt(_) => word,
        Need::Trap(_) => word,
    }
}

/// The instruction, which found `word`, is done, and its new value goes into the overflow buffer.
pub(crate) fn finish_buffered(
    core: &mut Core,
    inst: &Inst,
    need: Need,
    word: u32,
    w: WordAddr,
    value: u32,
) -> Result<(), CoreError>
    requires whole { IsCore core.old }
    requires counts { core.old.n < attempt_limit }
    requires goes_on { GoesOn (need_of need) }
    requires exists { line_of w.0 < lines core.old.config }
    ensures does { OnOk result
        (core_of core.new ≡ finished (alone inst.now) (need_of need) word (stored_in_buffer w.0 value (core_of core.old))) }
    ensures cause { OnErr result (IsMemory result) }
    ensures stays { Stays core.old core.new }
    ensures unchanged { OnErr result (core_of core.new ≡ core_of core.old) }
{
    let Ok(()) = note(core, need, word) else {
        return Err(CoreError::Memory);
    };
    let Ok(()) = store_buffered(core, w, value) else {
        take_back(core, need);
        return Err(CoreError::Memory);
    };
    advance(core, inst, given(need, word));
    Ok(())
}

/// The instruction, which found `word`, is done, and its new value goes into the frame of its line.
fn finish_framed(
    core: &mut Core,
    inst: &Inst,
    need: Need,
    word: u32,
    w: WordAddr,
    value: u32,
    also: bool,
    out: &mut Outgoing,
) -> Result<(), CoreError>
    requires whole { IsCore core.old }
    requires counts { core.old.n < attempt_limit }
    requires goes_on { GoesOn (need_of need) }
    requires held { (maps core.old.cache).held (line_of w.0) ≡ true }
    requires room { HasRoom out.old 1 }
    ensures does { OnOk result
        (Did (moves (finished (alone inst.now) (need_of need) word (stored_in_frame w.0 value also (core_of core.old)))
        (flush_line core.old.config (maps core.old.cache) (line_of w.0))) 1 out.old core.new out.new) }
    ensures cause { OnErr result (IsMemory result) }
    ensures stays { Stays core.old core.new }
    ensures unchanged { OnErr result (core.new ≡ core.old) }
    ensures unsent { OnErr result (out.new ≡ out.old) }
{
    let Ok(()) = finish(core, inst, need, word) else {
        return Err(CoreError::Memory);
    };
    store_framed(core, w, value, also, out);
    Ok(())
}

/// The word goes into a new frame of its line.
fn store_placed(core: &mut Core, w: WordAddr, value: u32)
    requires whole { IsCore core.old }
    requires exists { line_of w.0 < lines core.old.config }
    requires absent { (maps core.old.cache).held (line_of w.0) ≡ false }
    requires free { is_some (free_way core.old.config (maps core.old.cache) (set_of core.old.config (line_of w.0))) ≡ true }
    ensures does { core_of core.new ≡ stored_in_frame w.0 value false (placed_in core.old.config (line_of w.0) (core_of core.old)) }
    ensures stays { Stays core.old core.new }
{
    place(core, line_of_word(w));
    // Nothing is dirty in a new frame.
    let _ = core.cache.store(w, value, false);
}

/// The instruction is done, and the word that it stores goes into a new frame of its line.
fn finish_placed(
    core: &mut Core,
    inst: &Inst,
    need: Need,
    w: WordAddr,
    value: u32,
) -> Result<(), CoreError>
    requires whole { IsCore core.old }
    requires counts { core.old.n < attempt_limit }
    requires goes_on { GoesOn (need_of need) }
    requires exists { line_of w.0 < lines core.old.config }
    requires absent { (maps core.old.cache).held (line_of w.0) ≡ false }
    requires free { is_some (free_way core.old.config (maps core.old.cache) (set_of core.old.config (line_of w.0))) ≡ true }
    ensures does { OnOk result
        (core_of core.new ≡ finished (alone inst.now) (need_of need) value
        (stored_in_frame w.0 value false (placed_in core.old.config (line_of w.0) (core_of core.old)))) }
    ensures cause { OnErr result (IsMemory result) }
    ensures stays { Stays core.old core.new }
    ensures unchanged { OnErr result (core.new ≡ core.old) }
{
    let Ok(()) = finish(core, inst, need, value) else {
        return Err(CoreError::Memory);
    };
    store_placed(core, w, value);
    Ok(())
}

/// An instruction that stores a whole word: in the buffer where its line has a spilled word, in the line's frame, or in a new one.
/// Where no way is free the core asks for a TID by which it goes on alone, or waits for room.
pub(crate) fn word_store(
    core: &mut Core,
    inst: &Inst,
    need: Need,
    w: WordAddr,
    value: u32,
    out: &mut Outgoing,
) -> Result<(), CoreError>
    requires whole { IsCore core.old }
    requires counts { core.old.n < attempt_limit }
    requires goes_on { GoesOn (need_of need) }
    requires exists { line_of w.0 < lines core.old.config }
    requires room { HasRoom out.old 1 }
    ensures does { OnOk result
        (DidSome (word_rule core.old.config (alone inst.now) (need_of need) w.0 value (core_of core.old)) 1 out.old core.new out.new) }
    ensures blocked { IsBlocked result (word_rule core.old.config (alone inst.now) (need_of need) w.0 value (core_of core.old)) }
    ensures stays { Stays core.old core.new }
    ensures unchanged { OnErr result (core_of core.new ≡ core_of core.old) }
    ensures unsent { OnErr result (out.new ≡ out.old) }
{
    let line = line_of_word(w);
    if core.spilled.holds(line) {
        return finish_buffered(core, inst, need, value, w, value);
    }
    match core.cache.look_store(w, true) {
        Look::Hit(_) => finish_framed(core, inst, need, value, w, value, false, out),
        Look::Miss => finish_placed(core, inst, need, w, value),
        found => fetch(core, line, found, out),
    }
}

/// Whether a word that was found is read: not where it was modified before or the core is alone.
#[tactic(auto, unfolding(crate::specs::View::core_of))]
pub(crate) fn reads_too(core: &Core, w: WordAddr) -> bool
    ensures { result ≡ marks_read w.0 (core_of core.now) }
{
    core.phase.is_running() && !core.cache.is_modified(w)
}

/// An instruction that changes its word, of which no value is spilled and which has this one in its frame.
fn change_valid(
    core: &mut Core,
    inst: &Inst,
    need: Need,
    word: u32,
    w: WordAddr,
    out: &mut Outgoing,
) -> Result<(), CoreError>
    requires whole { IsCore core.old }
    requires counts { core.old.n < attempt_limit }
    requires goes_on { GoesOn (need_of need) }
    requires aligned { IsAligned need }
    requires exists { line_of w.0 < lines core.old.config }
    requires held { (maps core.old.cache).held (line_of w.0) ≡ true }
    requires room { HasRoom out.old 1 }
    ensures does { OnOk result
        (DidSome (valid_rule core.old.config (alone inst.now) (need_of need) w.0 (core_of core.old) (Some word)) 1 out.old core.new
        out.new) }
    ensures blocked { IsBlocked result (valid_rule core.old.config (alone inst.now) (need_of need) w.0 (core_of core.old) (Some word)) }
    ensures stays { Stays core.old core.new }
    ensures unchanged { OnErr result (core_of core.new ≡ core_of core.old) }
    ensures unsent { OnErr result (out.new ≡ out.old) }
{
    let value = new_word(need, word);
    if core.spilled.holds(line_of_word(w)) {
        return finish_buffered(core, inst, need, word, w, value);
    }
    let also = reads_too(core, w);
    finish_framed(core, inst, need, word, w, value, also, out)
}

/// An instruction that stores a part of a word, or changes a word: of one that is spilled, that is valid, or neither.
pub(crate) fn partial_store(
    core: &mut Core,
    inst: &Inst,
    need: Need,
    w: WordAddr,
    out: &mut Outgoing,
) -> Result<(), CoreError>
    requires whole { IsCore core.old }
    requires counts { core.old.n < attempt_limit }
    requires goes_on { GoesOn (need_of need) }
    requires aligned { IsAligned need }
    requires exists { line_of w.0 < lines core.old.config }
    requires room { HasRoom out.old 1 }
    ensures does { OnOk result
        (DidSome (partial_rule core.old.config (alone inst.now) (need_of need) w.0 (core_of core.old)) 1 out.old core.new out.new) }
    ensures blocked { IsBlocked result (partial_rule core.old.config (alone inst.now) (need_of need) w.0 (core_of core.old)) }
    ensures stays { Stays core.old core.new }
    ensures unchanged { OnErr result (core_of core.new ≡ core_of core.old) }
    ensures unsent { OnErr result (out.new ≡ out.old) }
{
    if let Some(word) = core.spilled.get(w) {
        return finish_buffered(core, inst, need, word, w, new_word(need, word));
    }
    match core.cache.look_load(w) {
        Look::Hit(word) => change_valid(core, inst, need, word, w, out),
        found => fetch(core, line_of_word(w), found, out),
    }
}
