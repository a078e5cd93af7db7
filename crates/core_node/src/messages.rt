// What a core does with each message.
ghost use Rattle.std.specs.Prelude.{◌≡◌, ◌+◌, ◌&&◌};
ghost use Rattle.rules_maps.specs.Cache.{Cache};
ghost use Rattle.rules_maps.specs.CacheLook.{reads_masked};
ghost use Rattle.rules_tcc.specs.CoreDeliver.{fill as fill_rule, data_request as data_request_rule, invalidate as invalidate_rule};
ghost use Rattle.rules_tcc.specs.CoreDeliver.{may_be_above, staled as staled_by, words_invalidated, if_violated};
ghost use Rattle.spec_cache.specs.Held.{maps};
ghost use Rattle.commit_engine.specs.Sent.{HasRoom};
ghost use Rattle.core_node.specs.View.{core_of, awaited_of, AwaitsFrame, IsCore, Did, Stays};

use crate::rolling::give_up;
use crate::state::{Awaited, Core};
use tcc_base::{LineAddr, Mask, NodeId, Tagged, Tid};
use tcc_msg::{Msg, Outgoing};

/// The line's home words: they fill what isn't valid, unless the line was invalidated since it was asked for.
#[tactic(auto, unfolding(crate::specs::View::core_of, rules_tcc::specs::CoreDeliver::fill))]
pub(crate) fn fill(core: &mut Core, line: LineAddr, words: &[u32; 8])
    requires { IsCore core.old }
    ensures does { core_of core.new ≡ (fill_rule line.0 words.now (core_of core.old)).core }
    ensures stays { Stays core.old core.new }
{
    match core.awaited {
        Some(awaited) if awaited.line.0 == line.0 => {
            if !awaited.stale {
                core.cache.fill(line, words);
            }
            core.awaited = None;
        }
        _ => {}
    }
}

/// The line's dirty words go home and stay as clean ones.
#[tactic(auto, unfolding(crate::specs::View::core_of, rules_tcc::specs::CoreDeliver::data_request))]
pub(crate) fn data_request(core: &mut Core, line: LineAddr, out: &mut Outgoing)
    requires whole { IsCore core.old }
    requires room { HasRoom out.old 1 }
    ensures does { Did (data_request_rule core.old.config line.0 (core_of core.old)) 1 out.old core.new out.new }
    ensures stays { Stays core.old core.new }
{
    let home = NodeId::Dir(core.config.home(line));
    match core.cache.take_dirty(line) {
        Some(back) => out.hand_out(home, flush_of(back)),
        None => {}
    }
}

/// The message by which dirty words go home while their line stays.
pub(crate) fn flush_of(back: Tagged) -> Msg
    ensures { result ≡ Msg.Flush back.mask back.line back.words back.tag }
{
    let words = back.words;
    Msg::Flush {
        line: back.line,
        mask: back.mask,
        words,
        tag: back.tag,
    }
}

/// The awaited line after a line was invalidated.
pub(crate) fn staled(line: LineAddr, awaited: Option<Awaited>) -> Option<Awaited>
    ensures stale { awaited_of result ≡ staled_by line.0 (awaited_of awaited) }
    ensures waits { (c : Cache) → AwaitsFrame c awaited → AwaitsFrame c result }
{
    match awaited {
        None => None,
        Some(a) => Some(Awaited {
            line: a.line,
            stale: a.line.0 == line.0 || a.stale,
        }),
    }
}

/// The masked words that aren't modified are dropped, and an awaited line becomes stale. Says whether a masked word was
/// marked read.
#[tactic(auto, unfolding(crate::specs::View::core_of, rules_tcc::specs::CoreDeliver::words_invalidated, rules_maps::specs::CacheChange::invalidated))]
pub(crate) fn strike(core: &mut Core, line: LineAddr, mask: Mask) -> bool
    requires { IsCore core.old }
    ensures does { core_of core.new ≡ words_invalidated line.0 mask.0 (core_of core.old) }
    ensures read { result ≡ reads_masked line.0 mask.0 (maps core.old.cache) }
    ensures phase { core.new.phase ≡ core.old.phase }
    ensures stays { Stays core.old core.new }
{
    let struck = core.cache.invalidate(line, mask);
    core.awaited = staled(line, core.awaited);
    struck.read_hit
}

/// What a core does that is violated, or isn't.
#[tactic(auto, using(crate::proofs::Steps::did_silently), unfolding(crate::specs::View::core_of, rules_tcc::specs::CoreDeliver::if_violated))]
fn answer_violation(core: &mut Core, violated: bool, out: &mut Outgoing)
    requires whole { IsCore core.old }
    requires room { HasRoom out.old core.old.config.dirs }
    ensures does { Did (if_violated core.old.config violated (core_of core.old)) core.old.config.dirs out.old core.new out.new }
    ensures stays { Stays core.old core.new }
{
    if violated {
        give_up(core, out);
    }
}

fn both(read: bool, above: bool) -> bool
    ensures { result ≡ (read && above) }
{
    read && above
}

/// Another core has committed these words: a core that read one of them before is violated.
pub(crate) fn invalidate(core: &mut Core, line: LineAddr, mask: Mask, tid: Tid, out: &mut Outgoing)
    requires whole { IsCore core.old }
    requires room { HasRoom out.old (core.old.config.dirs + 1) }
    ensures does { Did (invalidate_rule core.old.config line.0 mask.0 tid.0 (core_of core.old))
        (core.old.config.dirs + 1) out.old core.new out.new }
    ensures stays { Stays core.old core.new }
{
    let read = strike(core, line, mask);
    let above = core.phase.may_be_above(tid);
    answer_violation(core, both(read, above), out);
    let home = NodeId::Dir(core.config.home(line));
    let keeps = core.cache.keeps(line);
    out.hand_out(home, Msg::InvAck { line, keeps });
}
