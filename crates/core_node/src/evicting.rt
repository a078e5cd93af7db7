// Emptying a frame.
ghost use Rattle.std.specs.Prelude.{◌≡◌, ◌<◌, ◌||◌, ◌&&◌, ℕ, not, is_some, true, Some, IfSome, OnOk, OnErr};
ghost use Rattle.rules_maps.specs.CacheChange.{evicted};
ghost use Rattle.rules_maps.specs.Spilled.{spill_line};
ghost use Rattle.rules_tcc.specs.CoreEvict.{core_evict, is_awaited};
ghost use Rattle.rules_tcc.specs.Sends.{write_back_line};
ghost use Rattle.spec_cache.specs.Held.{maps};
ghost use Rattle.overflow_buf.specs.Kept.{spilled};
ghost use Rattle.commit_engine.specs.Sent.{HasRoom, Sent};
ghost use Rattle.core_node.specs.View.{core_of, awaited_of, IsCore, Stays};
ghost use Rattle.core_node.specs.Answers.{Happened, IsBlocked, IsMemory};

use crate::delivering::{CoreError, make_room};
use crate::state::{Awaited, Core};
use rules_maps::maps_fit_together;
use tcc_base::{LineAddr, NodeId, Tagged};
use tcc_msg::{Msg, Outgoing};

/// Whether the line is awaited.
fn awaits(awaited: Option<Awaited>, line: LineAddr) -> bool
    ensures { result ≡ is_awaited (awaited_of awaited) line.0 }
{
    match awaited {
        None => false,
        Some(a) => a.line.0 == line.0,
    }
}

/// Whether a frame may be emptied: its line isn't awaited, and it isn't marked unless the core is alone.
fn may_leave(awaited: bool, marked: bool, alone: bool) -> bool
    ensures { result ≡ not (awaited || (marked && not alone)) }
{
    !(awaited || marked && !alone)
}

/// Whether the way may be emptied.
pub(crate) fn can_evict(core: &Core, set: u16, way: u8) -> bool
    requires whole { IsCore core.now }
    requires set_exists { set < core.now.config.sets }
    requires way_exists { way < core.now.config.ways }
    ensures { result ≡ is_some (core_evict core.now.config set way (core_of core.now)) }
{
    match core.cache.way(set, way) {
        None => false,
        Some((line, marked)) => {
            may_leave(awaits(core.awaited, line), marked, core.phase.is_alone())
        }
    }
}

/// The message by which dirty words go home as their line leaves the cache.
fn write_back_of(back: Tagged) -> Msg
    ensures { result ≡ Msg.WriteBack back.mask back.line back.words back.tag }
{
    let words = back.words;
    Msg::WriteBack {
        line: back.line,
        mask: back.mask,
        words,
        tag: back.tag,
    }
}

/// The modified words of the frame of a way are kept as spilled ones too.
fn keep_modified(core: &mut Core, set: u16, way: u8) -> Result<(), CoreError>
    requires whole { IsCore core.old }
    requires set_exists { set < core.old.config.sets }
    requires way_exists { way < core.old.config.ways }
    ensures kept { OnOk result ((l : ℕ) → (maps core.old.cache).at set way ≡ Some l
        → spilled core.new.spilled ≡ spill_line l (maps core.old.cache) (spilled core.old.spilled)) }
    ensures unchanged { OnErr result (core_of core.new ≡ core_of core.old) }
    ensures cause { OnErr result (IsMemory result) }
    ensures others { core.new ≡ record core.old { spilled = core.new.spilled } }
{
    maps_fit_together();
    match core.cache.frame(set, way) {
        None => Ok(()),
        Some(frame) => match core.spilled.spill(frame.line, frame.modified, &frame.words) {
            Ok(()) => Ok(()),
            Err(_) => Err(CoreError::Memory),
        },
    }
}

/// The way is emptied, and its dirty words go home.
fn empty(core: &mut Core, set: u16, way: u8, out: &mut Outgoing)
    requires whole { IsCore core.old }
    requires set_exists { set < core.old.config.sets }
    requires way_exists { way < core.old.config.ways }
    requires room { HasRoom out.old 1 }
    ensures maps { maps core.new.cache ≡ evicted set way (maps core.old.cache) }
    ensures sent { IfSome ((maps core.old.cache).at set way)
        (λ l. Sent out.old out.new (write_back_line core.old.config (maps core.old.cache) l) 1) }
    ensures config { core.new.cache.config ≡ core.old.cache.config }
    ensures others { core.new ≡ record core.old { cache = core.new.cache } }
{
    if let Some(gone) = core.cache.evict(set, way) {
        let home = NodeId::Dir(core.config.home(gone.line));
        if let Some(back) = gone.back {
            out.hand_out(home, write_back_of(back));
        }
    }
}

/// Empties a way, which is enabled where `can_evict` says so: its dirty words go home and its modified words to the overflow buffer.
pub(crate) fn evict(core: &mut Core, set: u16, way: u8, out: &mut Outgoing) -> Result<(), CoreError>
    requires whole { IsCore core.old }
    requires set_exists { set < core.old.config.sets }
    requires way_exists { way < core.old.config.ways }
    ensures does { OnOk result (Happened (core_evict core.old.config set way (core_of core.old)) out.old core.new out.new) }
    ensures blocked { IsBlocked result (core_evict core.old.config set way (core_of core.old)) }
    ensures stays { Stays core.old core.new }
    ensures unchanged { OnErr result (core_of core.new ≡ core_of core.old) }
    ensures unsent { OnErr result (out.new.list.items ≡ out.old.list.items) }
{
    if !can_evict(core, set, way) {
        return Err(CoreError::Blocked);
    }
    make_room(out, 1)?;
    keep_modified(core, set, way)?;
    empty(core, set, way, out);
    Ok(())
}
