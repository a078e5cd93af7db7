// Giving an attempt up: the roll back, and what each phase sends at it.
ghost use Rattle.std.specs.Prelude.{◌≡◌};
ghost use Rattle.rules_maps.specs.Spilled.{none_spilled};
ghost use Rattle.rules_tcc.specs.State.{Running, DoomedTid};
ghost use Rattle.rules_tcc.specs.Sends.{abort_written, skip_all};
ghost use Rattle.rules_tcc.specs.Attempt.{moves, roll_back as rolled};
ghost use Rattle.rules_tcc.specs.CoreDeliver.{violated_in_phase, if_violated};
ghost use Rattle.spec_cache.specs.Held.{maps};
ghost use Rattle.commit_engine.specs.Engine.{phase_of};
ghost use Rattle.commit_engine.specs.Sent.{HasRoom};
ghost use Rattle.core_node.specs.View.{core_of, IsCore, Did, Stays};

use crate::state::Core;
use commit_engine::{DirSet, Phase, send_aborts, send_skips, written_homes};
use rv_exec::Outcome;
use tcc_base::Tid;
use tcc_msg::Outgoing;

/// The attempt begins anew from the checkpoint, and no directory owes a reply.
#[tactic(auto, unfolding(crate::specs::View::core_of, rules_tcc::specs::Attempt::roll_back, rules_maps::specs::CacheChange::rolled_back))]
pub(crate) fn roll_back(core: &mut Core)
    requires { IsCore core.old }
    ensures does { core_of core.new ≡ rolled (core_of core.old) }
    ensures stays { Stays core.old core.new }
{
    core.cache.roll_back();
    core.state = core.check.restore();
    core.n = 0;
    core.loads.items.clear();
    core.stores.items.clear();
    core.console.items.clear();
    core.ended = Outcome::Goes;
    core.owing = DirSet::none();
}

/// The attempt is given up, and so is the TID that will come.
#[tactic(auto, unfolding(crate::specs::View::core_of))]
fn doom(core: &mut Core)
    requires { IsCore core.old }
    ensures does { core_of core.new ≡ record (rolled (core_of core.old)) { phase = DoomedTid } }
    ensures stays { Stays core.old core.new }
{
    roll_back(core);
    core.phase = Phase::DoomedTid;
}

/// The attempt is given up, and so is its TID at the directories that were written.
#[tactic(auto, unfolding(crate::specs::View::core_of))]
fn abort(core: &mut Core, tid: Tid, out: &mut Outgoing)
    requires whole { IsCore core.old }
    requires room { HasRoom out.old core.old.config.dirs }
    ensures does { Did (moves (record (rolled (core_of core.old)) { phase = Running })
        (abort_written core.old.config (maps core.old.cache) tid.0)) core.old.config.dirs out.old core.new out.new }
    ensures stays { Stays core.old core.new }
{
    let written = written_homes(&core.config, &core.cache);
    send_aborts(&core.config, &core.cache, written, tid, out);
    roll_back(core);
    core.phase = Phase::Running;
}

/// The attempt of a core that waits to be alone, or is, is given up with all that it spilled, and so is its TID.
#[tactic(auto, unfolding(crate::specs::View::core_of))]
fn give_way(core: &mut Core, tid: Tid, out: &mut Outgoing)
    requires whole { IsCore core.old }
    requires room { HasRoom out.old core.old.config.dirs }
    ensures does { Did (moves (record (rolled (core_of core.old)) { phase = Running; spilled = none_spilled })
        (skip_all core.old.config tid.0)) core.old.config.dirs out.old core.new out.new }
    ensures stays { Stays core.old core.new }
{
    send_skips(&core.config, tid, out);
    roll_back(core);
    core.spilled.clear();
    core.phase = Phase::Running;
}

/// What a violated core does that needs room.
#[tactic(auto, unfolding(crate::specs::View::core_of))]
fn give_room_up(core: &mut Core, own: Option<Tid>, out: &mut Outgoing)
    requires whole { IsCore core.old }
    requires room { HasRoom out.old core.old.config.dirs }
    ensures does { Did (violated_in_phase core.old.config (core_of core.old) (phase_of (Phase.Overflowing own))) core.old.config.dirs
        out.old core.new out.new }
    ensures stays { Stays core.old core.new }
{
    match own {
        None => doom(core),
        Some(tid) => give_way(core, tid, out),
    }
}

/// What a violated core does, by its phase.
#[tactic(auto, using(crate::proofs::Steps::did_silently), unfolding(crate::specs::View::core_of))]
pub(crate) fn give_up(core: &mut Core, out: &mut Outgoing)
    requires whole { IsCore core.old }
    requires room { HasRoom out.old core.old.config.dirs }
    ensures does { Did (violated_in_phase core.old.config (core_of core.old) (phase_of core.old.phase)) core.old.config.dirs out.old
        core.new out.new }
    ensures stays { Stays core.old core.new }
{
    match core.phase {
        Phase::Running => roll_back(core),
        Phase::AwaitTid => doom(core),
        Phase::Probing(tid) => abort(core, tid, out),
        Phase::Ready(tid) => abort(core, tid, out),
        Phase::Overflowing(own) => give_room_up(core, own, out),
        Phase::Solo(tid) => give_way(core, tid, out),
        Phase::DoomedTid => {}
        Phase::Halted => {}
    }
}
