// A line that the core wants and doesn't have: it is asked for, or room for it is.
ghost use Rattle.std.specs.Prelude.{◌≡◌, ◌<◌, true, false, is_some, None, Err, OnOk, OnErr};
ghost use Rattle.rules_maps.specs.Cache.{free_way};
ghost use Rattle.rules_maps.specs.Shape.{lines, set_of};
ghost use Rattle.rules_tcc.specs.Execute.{request_line, place as placed_in, overflow as overflow_rule, miss};
ghost use Rattle.rules_maps.specs.CacheLook.{Miss as Misses, look_line};
ghost use Rattle.spec_cache.specs.Held.{maps};
ghost use Rattle.spec_cache.specs.Look.{look_of};
ghost use Rattle.commit_engine.specs.Engine.{after_of};
ghost use Rattle.commit_engine.specs.Sent.{HasRoom};
ghost use Rattle.core_node.specs.Executing.{DidSome};
ghost use Rattle.core_node.specs.View.{core_of, IsCore, Did, Stays};

use crate::delivering::CoreError;
use crate::state::{Awaited, Core};
use commit_engine::Phase;
use spec_cache::Look;
use tcc_base::{DirId, LineAddr, NodeId, Tid};
use tcc_msg::{Msg, Outgoing};

/// The TID of the core's last commit at the directory, or 0.
#[tactic(auto, unfolding(commit_engine::specs::Engine::after_of))]
fn last_commit(after: &[Tid; 64], d: DirId) -> Tid
    ensures { result.0 ≡ after_of after.now d.0 }
{
    match after.get(d.0 as usize) {
        None => Tid(0),
        Some(tid) => *tid,
    }
}

/// A request for the line goes to its home, and the core awaits it. The line has a frame.
#[tactic(auto, unfolding(crate::specs::View::core_of, rules_tcc::specs::Execute::request_line))]
pub(crate) fn ask(core: &mut Core, line: LineAddr, out: &mut Outgoing)
    requires whole { IsCore core.old }
    requires held { (maps core.old.cache).held line.0 ≡ true }
    requires room { HasRoom out.old 1 }
    ensures does { Did (request_line core.old.config line.0 (core_of core.old)) 1 out.old core.new out.new }
    ensures stays { Stays core.old core.new }
{
    let home = core.config.home(line);
    let after = last_commit(&core.after, home);
    out.hand_out(NodeId::Dir(home), Msg::LoadReq { line, after });
    core.awaited = Some(Awaited { line, stale: false });
}

/// A TID is asked for, by which the core will go on alone.
#[tactic(auto, unfolding(crate::specs::View::core_of, rules_tcc::specs::Execute::overflow))]
pub(crate) fn overflow(core: &mut Core, out: &mut Outgoing)
    requires whole { IsCore core.old }
    requires room { HasRoom out.old 1 }
    ensures does { Did (overflow_rule (core_of core.old)) 1 out.old core.new out.new }
    ensures stays { Stays core.old core.new }
{
    out.hand_out(NodeId::Vendor, Msg::TidReq);
    core.phase = Phase::Overflowing(None);
}

/// The line, which has no frame, gets one, where a way of its set is free. Says whether one was.
#[tactic(auto, unfolding(crate::specs::View::core_of, rules_tcc::specs::Execute::place))]
pub(crate) fn place(core: &mut Core, line: LineAddr) -> bool
    requires whole { IsCore core.old }
    requires exists { line.0 < lines core.old.config }
    requires absent { (maps core.old.cache).held line.0 ≡ false }
    ensures does { core_of core.new ≡ placed_in core.old.config line.0 (core_of core.old) }
    ensures free { result ≡ is_some (free_way core.old.config (maps core.old.cache) (set_of core.old.config line.0)) }
    ensures stays { Stays core.old core.new }
{
    core.cache.place(line).is_ok()
}

/// The line is asked for; where it has no frame, it gets one first.
fn request(core: &mut Core, line: LineAddr, out: &mut Outgoing)
    requires whole { IsCore core.old }
    requires exists { line.0 < lines core.old.config }
    requires found { Misses ≡ look_line core.old.config line.0 (maps core.old.cache) }
    requires room { HasRoom out.old 1 }
    ensures does { DidSome (miss core.old.config line.0 (core_of core.old)) 1 out.old core.new out.new }
    ensures stays { Stays core.old core.new }
{
    if core.cache.has_frame(line) {
        ask(core, line, out);
    } else {
        place(core, line);
        ask(core, line, out);
    }
}

/// What a core does about a line whose word it hasn't got, by what the cache answered: it asks for the line or, where its set is
/// full of marked frames, for a TID by which it goes on alone. Else it waits for room.
pub(crate) fn fetch(
    core: &mut Core,
    line: LineAddr,
    found: Look,
    out: &mut Outgoing,
) -> Result<(), CoreError>
    requires whole { IsCore core.old }
    requires exists { line.0 < lines core.old.config }
    requires found { look_of found ≡ look_line core.old.config line.0 (maps core.old.cache) }
    requires room { HasRoom out.old 1 }
    ensures does { OnOk result (DidSome (miss core.old.config line.0 (core_of core.old)) 1 out.old core.new out.new) }
    ensures blocked { OnErr result (miss core.old.config line.0 (core_of core.old) ≡ None) }
    ensures cause { OnErr result (result ≡ Err CoreError.Blocked) }
    ensures stays { Stays core.old core.new }
    ensures unchanged { OnErr result (core.new ≡ core.old) }
    ensures unsent { OnErr result (out.new ≡ out.old) }
{
    match found {
        Look::Miss => {
            request(core, line, out);
            Ok(())
        }
        Look::Overflow(_) => {
            if core.phase.is_alone() {
                return Err(CoreError::Blocked);
            }
            overflow(core, out);
            Ok(())
        }
        Look::NeedsRoom(_) => Err(CoreError::Blocked),
        Look::Hit(_) => Err(CoreError::Blocked),
    }
}
