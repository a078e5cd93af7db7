// An execution: by the phase and the awaited line, then by what the instruction at pc needs.
ghost use Rattle.std.specs.Prelude.{◌≡◌, ◌<◌, ◌-◌, ◌^◌, IfOk, OnOk, OnErr, Some, is_some, if◌then◌else◌};
ghost use Rattle.rules_tcc.specs.Commit.{commit as commit_rule};
ghost use Rattle.rules_tcc.specs.CoreExec.{core_exec, unless_awaiting};
ghost use Rattle.rules_tcc.specs.Execute.{execute as execute_rule, store_by_size, execute_need as need_rule};
ghost use Rattle.image_load.specs.Contents.{started};
ghost use Rattle.rv_code.specs.Machine.{program};
ghost use Rattle.core_node.specs.Answers.{Happened, IsBlocked, IsMemory};
ghost use Rattle.core_node.specs.Executing.{asks, DidSome, GoesOn, IsExecution, Tells, TellsOfEvent};
ghost use Rattle.core_node.specs.View.{awaited_of, core_of, IsCore, Stays};
ghost use Rattle.tcc_base.specs.Limits.{attempt_limit};
ghost use Rattle.rules_maps.specs.Shape.{lines};
ghost use Rattle.rules_maps.specs.Words.{line_of};
ghost use Rattle.rules_program.specs.Ram.{word_of};
ghost use Rattle.rules_tcc.specs.Attempt.{finished};
ghost use Rattle.rv_code.specs.Served.{Lies, IsServed};
ghost use Rattle.rv_exec.specs.Needs.{need_of};
ghost use Rattle.rv_exec.specs.Running.{alone};
ghost use Rattle.commit_engine.specs.Sent.{HasRoom};

use crate::changing::{partial_store, word_store};
use crate::closing::{end, stop};
use crate::committing::commit;
use crate::delivering::{CoreError, make_room};
use crate::finishing::finish;
use crate::loading::load;
use crate::quick::exec_quickly;
use crate::state::Core;
use crate::waiting::{room_at_need, room_at_pc};
use commit_engine::Phase;
use rv_code::Code;
use rv_decode::Inst;
use rv_exec::{Need, Outcome};
use tcc_base::{Commit, Size, Tid, WordAddr};
use tcc_msg::Outgoing;

/// The word in which an address of RAM lies.
#[tactic(auto, unfolding(rules_program::specs::Ram::word_of))]
pub(crate) fn word_at(core: &Core, addr: u32) -> WordAddr
    requires { Lies core.now.config.base core.now.config.ram addr 1 }
    ensures value { result.0 ≡ word_of core.now.config.base addr }
    ensures exists { line_of result.0 < lines core.now.config }
{
    WordAddr((addr - core.config.base()) / 4)
}

/// An instruction that accesses no memory is done.
fn finish_plain(core: &mut Core, inst: &Inst, need: Need) -> Result<(), CoreError>
    requires whole { IsCore core.old }
    requires counts { core.old.n < attempt_limit }
    requires goes_on { GoesOn (need_of need) }
    ensures does { OnOk result (core_of core.new ≡ finished (alone inst.now) (need_of need) 0 (core_of core.old)) }
    ensures cause { OnErr result (IsMemory result) }
    ensures stays { Stays core.old core.new }
    ensures unchanged { OnErr result (core.new ≡ core.old) }
{
    let Ok(()) = finish(core, inst, need, 0) else {
        return Err(CoreError::Memory);
    };
    Ok(())
}

/// An instruction that stores, by the size of what it stores.
fn store(
    core: &mut Core,
    inst: &Inst,
    need: Need,
    addr: u32,
    size: Size,
    value: u32,
    out: &mut Outgoing,
) -> Result<(), CoreError>
    requires whole { IsCore core.old }
    requires counts { core.old.n < attempt_limit }
    requires stores { need ≡ Need.Store addr size value }
    requires served { IsServed core.old.config.base core.old.config.ram need }
    requires room { HasRoom out.old 1 }
    ensures does { OnOk result
        (DidSome (store_by_size core.old.config (alone inst.now) addr size value (core_of core.old)) 1 out.old core.new out.new) }
    ensures blocked { IsBlocked result (store_by_size core.old.config (alone inst.now) addr size value (core_of core.old)) }
    ensures stays { Stays core.old core.new }
    ensures unchanged { OnErr result (core_of core.new ≡ core_of core.old) }
    ensures unsent { OnErr result (out.new ≡ out.old) }
{
    let w = word_at(core, addr);
    match size {
        Size::Word => word_store(core, inst, need, w, value, out),
        Size::Half => partial_store(core, inst, need, w, out),
        Size::Byte => partial_store(core, inst, need, w, out),
    }
}

/// An instruction after which its transaction goes on. For a load or a store there is room for a message.
fn go_on(core: &mut Core, inst: &Inst, need: Need, out: &mut Outgoing) -> Result<(), CoreError>
    requires whole { IsCore core.old }
    requires counts { core.old.n < attempt_limit }
    requires goes_on { GoesOn (need_of need) }
    requires served { IsServed core.old.config.base core.old.config.ram need }
    requires room { HasRoom out.old 1 }
    ensures does { OnOk result
        (DidSome (need_rule core.old.config (alone inst.now) core.old.id.0 (core_of core.old) (need_of need)) 1 out.old core.new
        out.new) }
    ensures blocked { IsBlocked result (need_rule core.old.config (alone inst.now) core.old.id.0 (core_of core.old) (need_of need)) }
    ensures stays { Stays core.old core.new }
    ensures unchanged { OnErr result (core_of core.new ≡ core_of core.old) }
    ensures unsent { OnErr result (out.new ≡ out.old) }
{
    match need {
        Need::Load { addr, .. } => load(core, inst, need, word_at(core, addr), out),
        Need::Store { addr, size, value } => store(core, inst, need, addr, size, value, out),
        Need::Amo { addr, .. } => partial_store(core, inst, need, word_at(core, addr), out),
        _ => finish_plain(core, inst, need),
    }
}

/// The error of an execution that finds no memory, by the set in which the core waits for room: where it waits it is blocked anyway, since
/// the rules have no event then.
fn error_of(waits: Option<u16>) -> CoreError
    ensures { result ≡ (if is_some waits then CoreError.Blocked else CoreError.Memory) }
{
    match waits {
        Some(_) => CoreError::Blocked,
        None => CoreError::Memory,
    }
}

/// The same instruction, with room made for what it sends. Its transaction commits nothing.
fn proceed(
    core: &mut Core,
    inst: &Inst,
    need: Need,
    out: &mut Outgoing,
) -> Result<Option<Commit>, CoreError>
    requires whole { IsCore core.old }
    requires counts { core.old.n < attempt_limit }
    requires goes_on { GoesOn (need_of need) }
    requires served { IsServed core.old.config.base core.old.config.ram need }
    ensures { IsExecution
        (need_rule core.old.config (alone inst.now) core.old.id.0 (core_of core.old) (need_of need))
        core.old core.new out.old out.new result }
{
    let Ok(()) = make_room(out, 1) else {
        return Err(error_of(room_at_need(core, need)));
    };
    match go_on(core, inst, need, out) {
        Ok(()) => Ok(None),
        Err(e) => Err(e),
    }
}

/// The instruction at pc, which needs this. Gives what is noted of a commit, where the core is alone and its transaction ends.
/// After an error the core is in the same state, and nothing was sent.
pub(crate) fn execute_need(
    core: &mut Core,
    inst: &Inst,
    need: Need,
    out: &mut Outgoing,
) -> Result<Option<Commit>, CoreError>
    requires whole { IsCore core.old }
    requires counts { core.old.n < attempt_limit }
    requires served { IsServed core.old.config.base core.old.config.ram need }
    ensures { IsExecution
        (need_rule core.old.config (alone inst.now) core.old.id.0 (core_of core.old) (need_of need))
        core.old core.new out.old out.new result }
{
    match need {
        Need::End => end(core, inst, out),
        Need::Halt(status) => stop(core, Outcome::Halted(status), out),
        Need::Trap(cause) => stop(core, Outcome::Trapped(cause), out),
        _ => proceed(core, inst, need, out),
    }
}

/// What an execution did.
#[derive(Debug, Drop)]
pub enum Executed {
    /// An instruction is done; if it ended its transaction, a TID was asked for, by which that will commit.
    Stepped,
    /// The instruction isn't done: its line was asked for, or a TID by which the core will go on alone.
    Asked,
    /// The transaction has committed.
    Committed(Commit),
}

/// The instruction at pc, or the trap that fetching it is. An attempt of 2^32 - 1 instructions is as long as can be counted: what the rules
/// allow finds no memory then.
fn exec_here(core: &mut Core, code: &Code, out: &mut Outgoing) -> Result<Option<Commit>, CoreError>
    requires whole { IsCore core.old }
    requires same { code.now.settings ≡ core.old.config }
    ensures { IsExecution
        (execute_rule core.old.config (program (started code.now)) core.old.id.0 (core_of core.old))
        core.old core.new out.old out.new result }
{
    if core.n == u32::MAX {
        return Err(error_of(room_at_pc(core, code)));
    }
    match code.inst(&core.state) {
        Err(trap) => stop(core, Outcome::Trapped(trap), out),
        Ok(inst) => {
            let need = code.plan(&inst, &core.state);
            execute_need(core, &inst, need, out)
        }
    }
}

/// The same of a core that may await a line.
fn exec_unless_awaiting(
    core: &mut Core,
    code: &Code,
    out: &mut Outgoing,
) -> Result<Option<Commit>, CoreError>
    requires whole { IsCore core.old }
    requires same { code.now.settings ≡ core.old.config }
    ensures { IsExecution
        (unless_awaiting core.old.config (program (started code.now)) core.old.id.0 (core_of core.old) (awaited_of core.old.awaited))
        core.old core.new out.old out.new result }
{
    match core.awaited {
        Some(_) => Err(CoreError::Blocked),
        None => exec_here(core, code, out),
    }
}

/// The commit of a transaction whose directories all serve its TID.
#[inline(always)]
pub(crate) fn commit_ready(
    core: &mut Core,
    tid: Tid,
    out: &mut Outgoing,
) -> Result<Option<Commit>, CoreError>
    requires whole { IsCore core.old }
    ensures { IsExecution
        (Some (commit_rule core.old.config core.old.id.0 tid.0 (core_of core.old)))
        core.old core.new out.old out.new result }
{
    make_room(out, core.config.dirs() as usize)?;
    Ok(Some(commit(core, tid, out)))
}

/// Executes, commits or does nothing, by the phase. Gives what is noted, where a transaction commits.
#[tactic(auto, unfolding(rules_tcc::specs::CoreExec::core_exec, crate::specs::View::core_of))]
fn exec_any(core: &mut Core, code: &Code, out: &mut Outgoing) -> Result<Option<Commit>, CoreError>
    requires whole { IsCore core.old }
    requires same { code.now.settings ≡ core.old.config }
    ensures { IsExecution
        (core_exec core.old.config (program (started code.now)) core.old.id.0 (core_of core.old))
        core.old core.new out.old out.new result }
{
    match core.phase {
        Phase::Running => exec_unless_awaiting(core, code, out),
        Phase::Solo(_) => exec_unless_awaiting(core, code, out),
        Phase::Ready(tid) => commit_ready(core, tid, out),
        Phase::AwaitTid => Err(CoreError::Blocked),
        Phase::DoomedTid => Err(CoreError::Blocked),
        Phase::Probing(_) => Err(CoreError::Blocked),
        Phase::Overflowing(_) => Err(CoreError::Blocked),
        Phase::Halted => Err(CoreError::Blocked),
    }
}

/// Whether a line or a TID by which the core goes on alone is awaited.
#[tactic(auto, unfolding(crate::specs::View::core_of))]
fn waits(core: &Core) -> bool
    ensures { result ≡ asks (core_of core.now) }
{
    core.phase.is_overflowing() || core.awaited.is_some()
}

/// What an execution did that left the core like this, and noted this.
fn told(core: &Core, noted: Option<Commit>) -> Executed
    ensures { Tells result (core_of core.now) noted }
{
    match noted {
        Some(commit) => Executed::Committed(commit),
        None => {
            if waits(core) {
                Executed::Asked
            } else {
                Executed::Stepped
            }
        }
    }
}

/// What isn't done at once.
#[inline(never)]
fn exec_left(core: &mut Core, code: &Code, out: &mut Outgoing) -> Result<Executed, CoreError>
    requires whole { IsCore core.old }
    requires same { code.now.settings ≡ core.old.config }
    ensures does { OnOk result
        (Happened (core_exec core.old.config (program (started code.now)) core.old.id.0 (core_of core.old)) out.old core.new out.new) }
    ensures told { IfOk result (λ e. TellsOfEvent e
        (core_exec core.old.config (program (started code.now)) core.old.id.0 (core_of core.old))) }
    ensures blocked { IsBlocked result (core_exec core.old.config (program (started code.now)) core.old.id.0 (core_of core.old)) }
    ensures stays { Stays core.old core.new }
    ensures unchanged { OnErr result (core_of core.new ≡ core_of core.old) }
    ensures unsent { OnErr result (out.new.list.items ≡ out.old.list.items) }
{
    let noted = exec_any(core, code, out)?;
    Ok(told(core, noted))
}

/// Executes, commits or does nothing. What can be done at once is done first, since most instructions can.
#[inline(always)]
pub(crate) fn exec(core: &mut Core, code: &Code, out: &mut Outgoing) -> Result<Executed, CoreError>
    requires whole { IsCore core.old }
    requires same { code.now.settings ≡ core.old.config }
    ensures does { OnOk result
        (Happened (core_exec core.old.config (program (started code.now)) core.old.id.0 (core_of core.old)) out.old core.new out.new) }
    ensures told { IfOk result (λ e. TellsOfEvent e
        (core_exec core.old.config (program (started code.now)) core.old.id.0 (core_of core.old))) }
    ensures blocked { IsBlocked result (core_exec core.old.config (program (started code.now)) core.old.id.0 (core_of core.old)) }
    ensures stays { Stays core.old core.new }
    ensures unchanged { OnErr result (core_of core.new ≡ core_of core.old) }
    ensures unsent { OnErr result (out.new.list.items ≡ out.old.list.items) }
{
    if exec_quickly(core, code) {
        Ok(Executed::Stepped)
    } else {
        exec_left(core, code, out)
    }
}
