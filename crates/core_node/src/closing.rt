// The instruction that ends a transaction: a core that runs asks for a TID then, and one that is alone commits at once.
ghost use Rattle.std.specs.Prelude.{◌≡◌, ◌<◌, ◌-◌, ◌^◌, IfOk, OnOk, OnErr, None, map, [], ◌∷◌};
ghost use Rattle.rules_program.specs.Program.{unreserved, Ends};
ghost use Rattle.rules_tcc.specs.Attempt.{moves, finished};
ghost use Rattle.rules_tcc.specs.Execute.{end_transaction};
ghost use Rattle.rules_tcc.specs.Sends.{to};
ghost use Rattle.rules_tcc.specs.State.{AwaitTid};
ghost use Rattle.rules_maps.specs.Nodes.{Vendor, TidReq};
ghost use Rattle.spec_cache.specs.Held.{maps};
ghost use Rattle.spec_cache.specs.Home.{mark_of};
ghost use Rattle.overflow_buf.specs.Kept.{spilled as words_of};
ghost use Rattle.rv_exec.specs.Running.{alone};
ghost use Rattle.rv_exec.specs.Outcomes.{outcome_of};
ghost use Rattle.commit_engine.specs.Engine.{phase_of};
ghost use Rattle.commit_engine.specs.Sent.{HasRoom};
ghost use Rattle.commit_engine.specs.Solo.{solo_list};
ghost use Rattle.core_node.specs.Answers.{IsMemory};
ghost use Rattle.core_node.specs.Executing.{IsExecution, concluded};
ghost use Rattle.core_node.specs.View.{core_of, IsCore, Did, Stays};
ghost use Rattle.tcc_base.specs.Limits.{attempt_limit};

use crate::committing::solo_commit;
use crate::delivering::{CoreError, make_room, marks_at};
use crate::state::Core;
use commit_engine::{Phase, solo_marks_into, solo_room};
use reg_checkpoint::State;
use rv_decode::Inst;
use rv_exec::{Outcome, finish as finish_inst};
use tcc_base::{Commit, DirId, LineAddr, Mask, NodeId, Tid};
use tcc_msg::{Msg, Outgoing};

/// All lines that the core has written, each with the mask of the words. Takes time in the cache's marked frames for each directory, and
/// in the spilled lines, which it puts in order.
fn solo_marks(core: &Core) -> Result<Vec<(LineAddr, Mask)>, CoreError>
    requires { IsCore core.now }
    ensures marks { IfOk result (λ v. map mark_of v.items ≡ solo_list core.now.config (maps core.now.cache) (words_of core.now.spilled)) }
    ensures cause { OnErr result (IsMemory result) }
{
    let mut marks = Vec::new(*core.loads.items.allocator());
    match solo_marks_into(&core.config, &core.cache, &core.spilled, &mut marks) {
        Ok(()) => Ok(marks),
        Err(_) => Err(CoreError::Memory),
    }
}

/// The same. Where the machine has one directory and nothing is spilled it takes one pass over the cache's marked frames.
pub(crate) fn written_marks(core: &Core) -> Result<Vec<(LineAddr, Mask)>, CoreError>
    requires { IsCore core.now }
    ensures marks { IfOk result (λ v. map mark_of v.items ≡ solo_list core.now.config (maps core.now.cache) (words_of core.now.spilled)) }
    ensures cause { OnErr result (IsMemory result) }
{
    if core.config.dirs() == 1 && core.spilled.is_empty() {
        marks_at(core, DirId(0))
    } else {
        solo_marks(core)
    }
}

/// The instruction is counted, and ends its transaction with these registers and pc.
#[tactic(auto, unfolding(crate::specs::View::core_of, crate::specs::Executing::concluded))]
fn conclude(core: &mut Core, state: &State, ended: Outcome)
    requires whole { IsCore core.old }
    requires counts { core.old.n < attempt_limit }
    ensures does { core_of core.new ≡ concluded state.now (outcome_of ended) (core_of core.old) }
    ensures others { core.new ≡ record core.old { n = core.new.n; state = core.new.state; ended = core.new.ended } }
    ensures stays { Stays core.old core.new }
{
    core.state = *state;
    core.n += 1;
    core.ended = ended;
}

/// A TID is asked for.
#[tactic(auto, unfolding(crate::specs::View::core_of))]
fn ask_tid(core: &mut Core, out: &mut Outgoing)
    requires whole { IsCore core.old }
    requires room { HasRoom out.old 1 }
    ensures does { Did (moves (record (core_of core.old) { phase = AwaitTid }) (to Vendor (TidReq ∷ []))) 1 out.old core.new out.new }
    ensures stays { Stays core.old core.new }
{
    out.hand_out(NodeId::Vendor, Msg::TidReq);
    core.phase = Phase::AwaitTid;
}

/// The end of a transaction of a core that is alone: it commits.
fn close_alone(
    core: &mut Core,
    tid: Tid,
    state: &State,
    ended: Outcome,
    out: &mut Outgoing,
) -> Result<Option<Commit>, CoreError>
    requires whole { IsCore core.old }
    requires counts { core.old.n < attempt_limit }
    ensures { IsExecution
        (Some (end_transaction core.old.config core.old.id.0 (phase_of (Phase.Solo tid))
        (concluded state.now (outcome_of ended) (core_of core.old))))
        core.old core.new out.old out.new result }
{
    let marks = written_marks(core)?;
    let most = solo_room(&core.config, &core.cache, &core.spilled, &marks);
    make_room(out, most)?;
    conclude(core, state, ended);
    Ok(Some(solo_commit(core, tid, &marks, out)))
}

/// The end of a transaction of a core that isn't alone: it asks for a TID.
fn close_running(
    core: &mut Core,
    state: &State,
    ended: Outcome,
    out: &mut Outgoing,
) -> Result<Option<Commit>, CoreError>
    requires whole { IsCore core.old }
    requires counts { core.old.n < attempt_limit }
    ensures { IsExecution
        (Some (end_transaction core.old.config core.old.id.0 (phase_of Phase.Running)
        (concluded state.now (outcome_of ended) (core_of core.old))))
        core.old core.new out.old out.new result }
{
    make_room(out, 1)?;
    conclude(core, state, ended);
    ask_tid(core, out);
    Ok(None)
}

/// The end of a transaction with these registers and pc. Gives what is noted, where it commits at once. After want of memory the
/// core is as before.
pub(crate) fn close(
    core: &mut Core,
    state: &State,
    ended: Outcome,
    out: &mut Outgoing,
) -> Result<Option<Commit>, CoreError>
    requires whole { IsCore core.old }
    requires counts { core.old.n < attempt_limit }
    ensures { IsExecution
        (Some (end_transaction core.old.config core.old.id.0 (phase_of core.old.phase)
        (concluded state.now (outcome_of ended) (core_of core.old))))
        core.old core.new out.old out.new result }
{
    match core.phase {
        Phase::Solo(tid) => close_alone(core, tid, state, ended, out),
        Phase::Running => close_running(core, state, ended, out),
        Phase::AwaitTid => close_running(core, state, ended, out),
        Phase::DoomedTid => close_running(core, state, ended, out),
        Phase::Probing(_) => close_running(core, state, ended, out),
        Phase::Ready(_) => close_running(core, state, ended, out),
        Phase::Overflowing(None) => close_running(core, state, ended, out),
        Phase::Overflowing(Some(_)) => close_running(core, state, ended, out),
        Phase::Halted => close_running(core, state, ended, out),
    }
}

/// The end of the transaction by an instruction after which the core goes on.
pub(crate) fn end(
    core: &mut Core,
    inst: &Inst,
    out: &mut Outgoing,
) -> Result<Option<Commit>, CoreError>
    requires whole { IsCore core.old }
    requires counts { core.old.n < attempt_limit }
    ensures { IsExecution
        (Some (end_transaction core.old.config core.old.id.0 (phase_of core.old.phase)
        (finished (alone inst.now) Ends 0 (core_of core.old))))
        core.old core.new out.old out.new result }
{
    let mut state = core.state;
    finish_inst(inst, &mut state, None);
    state.unreserve();
    close(core, &state, Outcome::Ended, out)
}

/// The end of the transaction where the core stands, after which it halts.
pub(crate) fn stop(
    core: &mut Core,
    ended: Outcome,
    out: &mut Outgoing,
) -> Result<Option<Commit>, CoreError>
    requires whole { IsCore core.old }
    requires counts { core.old.n < attempt_limit }
    ensures { IsExecution
        (Some (end_transaction core.old.config core.old.id.0 (phase_of core.old.phase)
        (concluded (unreserved core.old.state) (outcome_of ended) (core_of core.old))))
        core.old core.new out.old out.new result }
{
    let mut state = core.state;
    state.unreserve();
    close(core, &state, ended, out)
}
