// An instruction on a machine whose memory is at hand: the line of a word that it reads is filled first.
ghost use Rattle.std.specs.Prelude.{◌≡◌, ◌<◌, ◌-◌, ◌^◌, ◌||◌, get_or, true, Some, None, IfOk, IfSome, OnOk, OnErr};
ghost use Rattle.std.specs.Option.{option_map};
ghost use Rattle.image_load.specs.Contents.{started};
ghost use Rattle.rv_code.specs.Machine.{program};
ghost use Rattle.rv_code.specs.Served.{IsServed};
ghost use Rattle.rv_exec.specs.Needs.{need_of};
ghost use Rattle.rv_exec.specs.Running.{alone};
ghost use Rattle.spec_cache.specs.Held.{maps};
ghost use Rattle.spec_cache.specs.Look.{look_of};
ghost use Rattle.rules_maps.specs.CacheChange.{filled};
ghost use Rattle.rules_maps.specs.CacheLook.{Miss as Misses, look_line};
ghost use Rattle.rules_maps.specs.Shape.{lines};
ghost use Rattle.rules_maps.specs.Words.{line_of};
ghost use Rattle.rules_tcc.specs.Attempt.{finished};
ghost use Rattle.rules_tcc.specs.CoreExec.{core_exec};
ghost use Rattle.rules_tcc.specs.Execute.{execute_need, with_read_mark};
ghost use Rattle.commit_engine.specs.Engine.{phase_of};
ghost use Rattle.commit_engine.specs.Sent.{HasRoom};
ghost use Rattle.core_node.specs.Answers.{IsBlocked, IsMemory};
ghost use Rattle.core_node.specs.AtHand.{Leaves, changed, ends_by, executes, filling as filling_by, is_whole as is_whole_by};
ghost use Rattle.core_node.specs.AtHand.{line_at as line_of_list, lined, need_fills, number_of, ready, word_fills, word_lined};
ghost use Rattle.core_node.specs.Executing.{GoesOn, IsAligned};
ghost use Rattle.core_node.specs.View.{core_of, IsCore, Stays};
ghost use Rattle.core_node.specs.Waiting.{has_way as has_way_by};
ghost use Rattle.tcc_base.specs.Limits.{attempt_limit};

use crate::changing::{finish_buffered, new_word, reads_too};
use crate::delivering::{CoreError, make_room};
use crate::exec::{exec, word_at as word_in_ram};
use crate::finishing::finish;
use crate::missing::place;
use crate::state::Core;
use crate::storing::{line_of_word, mark_used, store_framed};
use rv_code::Code;
use rv_decode::Inst;
use rv_exec::Need;
use spec_cache::{Look, SpecCache};
use tcc_base::{LineAddr, Size, WordAddr};
use tcc_msg::Outgoing;

/// A word of memory, zero beyond it.
fn word_at(ram: &[u32], at: usize) -> u32
    ensures { result ≡ get_or ram.now at 0 }
{
    match ram.get(at) {
        Some(word) => *word,
        None => 0,
    }
}

/// The words of a line of memory.
fn line_at(ram: &[u32], line: LineAddr) -> [u32; 8]
    ensures { result ≡ line_of_list ram.now line.0 }
{
    let first = 8 * line.0 as usize;
    [
        word_at(ram, first),
        word_at(ram, first + 1),
        word_at(ram, first + 2),
        word_at(ram, first + 3),
        word_at(ram, first + 4),
        word_at(ram, first + 5),
        word_at(ram, first + 6),
        word_at(ram, first + 7),
    ]
}

/// Whether the cache answers that a line has a frame or may have one.
fn has_way(look: Look) -> bool
    ensures { result ≡ has_way_by (look_of look) }
{
    match look {
        Look::Hit(_) | Look::Miss => true,
        Look::NeedsRoom(_) | Look::Overflow(_) => false,
    }
}

/// Whether a line has a frame in which all words are valid.
fn is_whole(cache: &SpecCache, line: LineAddr) -> bool
    ensures { result ≡ is_whole_by line.0 (maps cache.now) }
{
    match cache.frame_of(line) {
        Some(frame) => frame.valid.0 == 255,
        None => false,
    }
}

/// Whether to read a word fills its line: the word isn't spilled, and its line isn't whole and has a frame or may have one.
fn fills(core: &Core, w: WordAddr) -> bool
    requires { IsCore core.now }
    ensures { result ≡ word_fills core.now.config w.0 (core_of core.now) }
{
    if let Some(_) = core.spilled.get(w) {
        return false;
    }
    if is_whole(&core.cache, line_of_word(w)) {
        return false;
    }
    has_way(core.cache.look_store(w, true))
}

/// The word, if to read it fills its line.
fn if_filling(core: &Core, w: WordAddr) -> Option<WordAddr>
    requires whole { IsCore core.now }
    requires exists { line_of w.0 < lines core.now.config }
    ensures word { option_map number_of result ≡ filling_by core.now.config w.0 (core_of core.now) }
    ensures exists { IfSome result (λ v. line_of v.0 < lines core.now.config) }
{
    if fills(core, w) { Some(w) } else { None }
}

/// The word that an instruction reads and for which it fills a line.
fn filling(core: &Core, need: Need) -> Option<WordAddr>
    requires whole { IsCore core.now }
    requires served { IsServed core.now.config.base core.now.config.ram need }
    ensures word { option_map number_of result ≡ need_fills core.now.config (core_of core.now) (need_of need) }
    ensures exists { IfSome result (λ v. line_of v.0 < lines core.now.config) }
{
    match need {
        Need::Load { addr, .. } => if_filling(core, word_in_ram(core, addr)),
        Need::Store { addr, size, .. } => {
            let w = word_in_ram(core, addr);
            match size {
                Size::Word => None,
                Size::Half => if_filling(core, w),
                Size::Byte => if_filling(core, w),
            }
        }
        Need::Amo { addr, .. } => if_filling(core, word_in_ram(core, addr)),
        Need::Nothing => None,
        Need::Console(_) => None,
        Need::End => None,
        Need::Halt(_) => None,
        Need::Trap(_) => None,
    }
}

/// The value of a word of a line with these words: the core's, where it is valid.
fn word_of_line(core: &Core, w: WordAddr, words: &[u32; 8]) -> u32
    requires { IsCore core.now }
    ensures { result ≡ word_lined words.now w.0 (core_of core.now) }
{
    match core.cache.look_load(w) {
        Look::Hit(word) => word,
        _ => words[w.0 as usize % 8],
    }
}

/// The line gets a frame, unless it has one, and the words that it lacks there.
fn fill_frame(core: &mut Core, line: LineAddr, words: &[u32; 8])
    requires whole { IsCore core.old }
    requires exists { line.0 < lines core.old.config }
    requires found { Misses ≡ look_line core.old.config line.0 (maps core.old.cache) }
    ensures does { core_of core.new ≡ lined core.old.config line.0 words.now (core_of core.old) }
    ensures held { (maps core.new.cache).held line.0 ≡ true }
    ensures stays { Stays core.old core.new }
{
    if core.cache.has_frame(line) {
        fill_held(core, line, words);
    } else {
        place(core, line);
        fill_held(core, line, words);
    }
}

/// The words that the line's frame lacks.
#[tactic(auto, unfolding(crate::specs::View::core_of))]
fn fill_held(core: &mut Core, line: LineAddr, words: &[u32; 8])
    requires whole { IsCore core.old }
    requires held { (maps core.old.cache).held line.0 ≡ true }
    ensures does { core_of core.new ≡ record (core_of core.old) { cache = filled line.0 words.now (core_of core.old).cache } }
    ensures held { (maps core.new.cache).held line.0 ≡ true }
    ensures stays { Stays core.old core.new }
{
    core.cache.fill(line, words);
}

/// A load that fills its line with these words: it is done, and no word of the line is invalid then.
fn load_with_line(
    core: &mut Core,
    inst: &Inst,
    need: Need,
    w: WordAddr,
    words: &[u32; 8],
) -> Result<(), CoreError>
    requires whole { IsCore core.old }
    requires counts { core.old.n < attempt_limit }
    requires goes_on { GoesOn (need_of need) }
    requires exists { line_of w.0 < lines core.old.config }
    requires fills { word_fills core.old.config w.0 (core_of core.old) ≡ true }
    ensures does { OnOk result (core_of core.new ≡ finished (alone inst.now) (need_of need) (word_lined words.now w.0 (core_of core.old))
        (with_read_mark w.0 (lined core.old.config (line_of w.0) words.now (core_of core.old)))) }
    ensures cause { OnErr result (IsMemory result) }
    ensures stays { Stays core.old core.new }
    ensures unchanged { OnErr result (core.new ≡ core.old) }
{
    let word = word_of_line(core, w, words);
    let Ok(()) = finish(core, inst, need, word) else {
        return Err(CoreError::Memory);
    };
    fill_frame(core, line_of_word(w), words);
    mark_used(core, w);
    Ok(())
}

/// The same of an instruction that changes a word, where room was made for what it sends.
fn change_with_line(
    core: &mut Core,
    inst: &Inst,
    need: Need,
    w: WordAddr,
    words: &[u32; 8],
    out: &mut Outgoing,
) -> Result<(), CoreError>
    requires whole { IsCore core.old }
    requires counts { core.old.n < attempt_limit }
    requires goes_on { GoesOn (need_of need) }
    requires aligned { IsAligned need }
    requires exists { line_of w.0 < lines core.old.config }
    requires fills { word_fills core.old.config w.0 (core_of core.old) ≡ true }
    requires room { HasRoom out.old 1 }
    ensures does { OnOk result (core_of core.new ≡ changed (alone inst.now) (need_of need) w.0 (word_lined words.now w.0 (core_of core.old))
        (lined core.old.config (line_of w.0) words.now (core_of core.old))) }
    ensures cause { OnErr result (IsMemory result) }
    ensures stays { Stays core.old core.new }
    ensures unchanged { OnErr result (core_of core.new ≡ core_of core.old) }
{
    let line = line_of_word(w);
    let word = word_of_line(core, w, words);
    let value = new_word(need, word);
    if core.spilled.holds(line) {
        finish_buffered(core, inst, need, word, w, value)?;
        fill_frame(core, line, words);
        return Ok(());
    }
    let also = reads_too(core, w);
    let Ok(()) = finish(core, inst, need, word) else {
        return Err(CoreError::Memory);
    };
    fill_frame(core, line, words);
    store_framed(core, w, value, also, out);
    Ok(())
}

/// The instruction that fills its word's line with these words. In an attempt that is as long as can be counted it finds no memory.
fn execute_with_line(
    core: &mut Core,
    inst: &Inst,
    need: Need,
    w: WordAddr,
    words: &[u32; 8],
    out: &mut Outgoing,
) -> Result<(), CoreError>
    requires whole { IsCore core.old }
    requires served { IsServed core.old.config.base core.old.config.ram need }
    requires exists { line_of w.0 < lines core.old.config }
    requires fills { need_fills core.old.config (core_of core.old) (need_of need) ≡ Some w.0 }
    ensures does { OnOk result
        (Leaves (execute_need core.old.config (alone inst.now) core.old.id.0
        (lined core.old.config (line_of w.0) words.now (core_of core.old)) (need_of need)) (core_of core.new)) }
    ensures cause { OnErr result (IsMemory result) }
    ensures stays { Stays core.old core.new }
    ensures unchanged { OnErr result (core_of core.new ≡ core_of core.old) }
{
    if core.n == u32::MAX {
        return Err(CoreError::Memory);
    }
    match need {
        Need::Load { .. } => load_with_line(core, inst, need, w, words),
        _ => {
            make_room(out, 1)?;
            change_with_line(core, inst, need, w, words, out)
        }
    }
}

/// An execution as the rules have it.
fn exec_plainly(core: &mut Core, code: &Code, out: &mut Outgoing) -> Result<(), CoreError>
    requires whole { IsCore core.old }
    requires same { code.now.settings ≡ core.old.config }
    ensures does { OnOk result
        (Leaves (core_exec core.old.config (program (started code.now)) core.old.id.0 (core_of core.old)) (core_of core.new)) }
    ensures blocked { IsBlocked result (core_exec core.old.config (program (started code.now)) core.old.id.0 (core_of core.old)) }
    ensures stays { Stays core.old core.new }
    ensures unchanged { OnErr result (core_of core.new ≡ core_of core.old) }
{
    match exec(core, code, out) {
        Ok(_) => Ok(()),
        Err(error) => Err(error),
    }
}

/// Executes one instruction of a core that runs or is alone and awaits no line, with the line of the word that it reads.
pub(crate) fn exec_from(
    core: &mut Core,
    code: &Code,
    ram: &[u32],
    out: &mut Outgoing,
) -> Result<(), CoreError>
    requires whole { IsCore core.old }
    requires same { code.now.settings ≡ core.old.config }
    requires executes { executes (phase_of core.old.phase) ≡ true }
    requires idle { core.old.awaited ≡ None }
    ensures does { OnOk result
        (Leaves (core_exec core.old.config (program (started code.now)) core.old.id.0
        (ready core.old.config (program (started code.now)) (line_of_list ram.now) (core_of core.old))) (core_of core.new)) }
    ensures blocked { IsBlocked result
        (core_exec core.old.config (program (started code.now)) core.old.id.0
        (ready core.old.config (program (started code.now)) (line_of_list ram.now) (core_of core.old))) }
    ensures stays { Stays core.old core.new }
    ensures unchanged { OnErr result (core_of core.new ≡ core_of core.old) }
{
    let Ok(inst) = code.inst(&core.state) else {
        return exec_plainly(core, code, out);
    };
    let need = code.plan(&inst, &core.state);
    match filling(core, need) {
        None => exec_plainly(core, code, out),
        Some(w) => {
            let words = line_at(ram, line_of_word(w));
            execute_with_line(core, &inst, need, w, &words, out)
        }
    }
}

/// Whether an instruction that needs this ends its transaction.
fn is_end(need: Need) -> bool
    ensures { result ≡ ends_by (need_of need) }
{
    match need {
        Need::End => true,
        Need::Halt(_) => true,
        Need::Trap(_) => true,
        Need::Load { .. } => false,
        Need::Store { .. } => false,
        Need::Amo { .. } => false,
        Need::Nothing => false,
        Need::Console(_) => false,
    }
}

/// Whether the instruction at pc ends its transaction.
pub(crate) fn ends(core: &Core, code: &Code) -> bool
    requires whole { IsCore core.now }
    requires same { code.now.settings ≡ core.now.config }
    ensures { result ≡ ends_by ((program (started code.now)).need core.now.state) }
{
    match code.inst(&core.state) {
        Err(_) => true,
        Ok(inst) => is_end(code.plan(&inst, &core.state)),
    }
}
