// A transaction commits: what goes out, what is noted, and how the core goes on.
ghost use Rattle.std.specs.Prelude.{◌≡◌, ◌+◌, ◌*◌, [], length, map, Some};
ghost use Rattle.rules_tcc.specs.Commit.{commit as commit_rule, ended_after_commit, noted, phase_after_commit, solo_commit as solo_rule};
ghost use Rattle.rules_maps.specs.CacheChange.{words_dropped};
ghost use Rattle.rules_maps.specs.Spilled.{none_spilled};
ghost use Rattle.spec_cache.specs.Held.{maps};
ghost use Rattle.spec_cache.specs.Home.{mark_of};
ghost use Rattle.overflow_buf.specs.Kept.{spilled as words_of};
ghost use Rattle.rv_exec.specs.Outcomes.{outcome_of};
ghost use Rattle.commit_engine.specs.Engine.{phase_of};
ghost use Rattle.commit_engine.specs.Solo.{solo_list};
ghost use Rattle.commit_engine.specs.Sent.{HasRoom};
ghost use Rattle.core_node.specs.View.{core_of, IsCore, Did, Stays};

use crate::state::Core;
use commit_engine::{Phase, note_commit, send_commits, send_solo, solo_homes, written_homes};
use overflow_buf::OverflowBuf;
use reg_checkpoint::Check;
use rv_exec::Outcome;
use spec_cache::SpecCache;
use std::mem;
use tcc_base::{Commit, LineAddr, List, Mask, Tid};
use tcc_msg::Outgoing;

/// After a halt or a trap a core has halted, else it runs on.
fn phase_after(ended: Outcome) -> Phase
    ensures { phase_of result ≡ phase_after_commit (outcome_of ended) }
{
    match ended {
        Outcome::Goes => Phase::Running,
        Outcome::Ended => Phase::Running,
        Outcome::Halted(_) => Phase::Halted,
        Outcome::Trapped(_) => Phase::Halted,
    }
}

/// How a core stands after the commit of a transaction that ended like this.
fn ended_after(ended: Outcome) -> Outcome
    ensures { outcome_of result ≡ ended_after_commit (outcome_of ended) }
{
    match ended {
        Outcome::Goes => Outcome::Goes,
        Outcome::Ended => Outcome::Goes,
        Outcome::Halted(code) => Outcome::Halted(code),
        Outcome::Trapped(code) => Outcome::Trapped(code),
    }
}

/// What is noted of the commit, moved out of the attempt, which is empty then. Takes no memory.
#[tactic(auto, unfolding(crate::specs::View::core_of, rules_tcc::specs::Commit::noted))]
fn take_attempt(core: &mut Core, tid: Tid) -> Commit
    ensures taken { result ≡ noted tid.0 core.old.id.0 (core_of core.old) }
    ensures emptied { core.new ≡ record core.old { n = 0; loads = []; stores = []; console = [] } }
{
    let alloc = *core.loads.items.allocator();
    let loads = mem::replace(&mut core.loads, List::new(alloc));
    let stores = mem::replace(&mut core.stores, List::new(alloc));
    let console = mem::replace(&mut core.console, List::new(alloc));
    let n = core.n;
    core.n = 0;
    Commit {
        tid,
        core: core.id,
        n,
        loads,
        stores,
        console,
    }
}

/// The core has committed where it stands: that is its checkpoint, and it goes on or has halted.
#[tactic(auto, unfolding(crate::specs::View::core_of))]
fn go_on(core: &mut Core)
    requires whole { IsCore core.old }
    ensures does { core_of core.new ≡ record (core_of core.old) {
      saved = core.old.state;
      ended = ended_after_commit (outcome_of core.old.ended);
      phase = phase_after_commit (outcome_of core.old.ended);
    } }
    ensures stays { Stays core.old core.new }
{
    core.check = Check::save(&core.state);
    core.phase = phase_after(core.ended);
    core.ended = ended_after(core.ended);
}

/// The commit point of a transaction whose directories all serve its TID. Takes no memory.
#[tactic(auto, unfolding(crate::specs::View::core_of))]
pub(crate) fn commit(core: &mut Core, tid: Tid, out: &mut Outgoing) -> Commit
    requires whole { IsCore core.old }
    requires room { HasRoom out.old core.old.config.dirs }
    ensures does { Did (commit_rule core.old.config core.old.id.0 tid.0 (core_of core.old)) core.old.config.dirs out.old core.new out.new }
    ensures noted { Some result ≡ (commit_rule core.old.config core.old.id.0 tid.0 (core_of core.old)).commit }
    ensures stays { Stays core.old core.new }
{
    send_commits(&core.config, &core.cache, tid, out);
    let written = written_homes(&core.config, &core.cache);
    note_commit(written, core.config.dirs(), tid, &mut core.after);
    core.cache.commit(tid);
    let done = take_attempt(core, tid);
    go_on(core);
    done
}

/// Drops the words that are spilled from their frames; none is spilled then. Takes no memory.
fn drop_spilled(cache: &mut SpecCache, spilled: &mut OverflowBuf)
    ensures config { cache.new.config ≡ cache.old.config }
    ensures dropped { maps cache.new ≡ words_dropped (words_of spilled.old) (maps cache.old) }
    ensures none { words_of spilled.new ≡ none_spilled }
{
    while let Some((line, mask)) = spilled.take_line() {
        cache.drop_words(line, mask);
    }
}

/// The commit of a core that is alone, where the list holds all lines that it has written. Takes no memory.
#[tactic(auto, unfolding(crate::specs::View::core_of))]
pub(crate) fn solo_commit(
    core: &mut Core,
    tid: Tid,
    marks: &[(LineAddr, Mask)],
    out: &mut Outgoing,
) -> Commit
    requires whole { IsCore core.old }
    requires marks { map mark_of marks.now ≡ solo_list core.old.config (maps core.old.cache) (words_of core.old.spilled) }
    requires room { HasRoom out.old (2 * length marks.now + core.old.config.dirs) }
    ensures does { Did (solo_rule core.old.config core.old.id.0 tid.0 (core_of core.old))
        (2 * length marks.now + core.old.config.dirs) out.old core.new out.new }
    ensures noted { Some result ≡ (solo_rule core.old.config core.old.id.0 tid.0 (core_of core.old)).commit }
    ensures stays { Stays core.old core.new }
{
    send_solo(&core.config, &core.cache, &core.spilled, marks, tid, out);
    let written = solo_homes(&core.config, &core.cache, &core.spilled, marks);
    note_commit(written, core.config.dirs(), tid, &mut core.after);
    drop_spilled(&mut core.cache, &mut core.spilled);
    core.cache.commit(tid);
    let done = take_attempt(core, tid);
    go_on(core);
    done
}
