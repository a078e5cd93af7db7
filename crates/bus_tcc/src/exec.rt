// A core executes one instruction, with its line from memory.
ghost use Rattle.std.specs.Prelude.{◌≡◌, ◌<◌, [], true, if◌then◌else◌, is_some, None, IfOk, OnErr};
ghost use Rattle.rules_bus.specs.Exec.{goes_on, instruction};
ghost use Rattle.rules_bus.specs.State.{Alone, Exec};
ghost use Rattle.core_node.specs.AtHand.{executes};
ghost use Rattle.bus_tcc.specs.Answers.{Answers, bus_step_of};
ghost use Rattle.bus_tcc.specs.Machine.{bus_of, bus_program_of, bus_settings_of, bus_world_of, word_in};
ghost use Rattle.bus_tcc.specs.Packets.{lines_on};
ghost use Rattle.tcc_base.specs.Limits.{run_limit};
ghost use Rattle.image_load.specs.Contents.{started};
ghost use Rattle.rv_code.specs.Machine.{program};
ghost use Rattle.commit_engine.specs.Engine.{overflows};
ghost use Rattle.core_node.specs.Answers.{IsBlocked};
ghost use Rattle.core_node.specs.View.{core_of};
ghost use Rattle.bus_tcc.specs.Bank.{Executed, gone_if};

use crate::bus::Bus;
use crate::engine::Engine;
use crate::event::{BusError, BusStep};
use crate::readers::words_of;
use crate::step::refusal;
use core_node::{CoreError, CoreNode};
use rv_code::Code;
use tcc_base::{CoreId, Tid};
use tcc_msg::Outgoing;

/// A core that waits to go on alone is alone by this TID then. Says whether it is.
fn go_alone_if_waiting(core: &mut CoreNode, tid: Tid) -> bool
    ensures alone { result ≡ overflows (core_of core.old).phase }
    ensures does { core_of core.new ≡ gone_if result tid.0 (core_of core.old) }
    ensures config { core.new.config ≡ core.old.config }
    ensures id { core.new.id ≡ core.old.id }
{
    let alone = core.phase().is_overflowing();
    if alone {
        core.go_alone(tid);
    }
    alone
}

/// Executes one instruction of a core that runs or is alone. One that finds its set full of marked lines isn't executed; the core is
/// alone by this TID then. Says whether it is. After an error the core is as before.
pub(crate) fn execute_one(
    core: &mut CoreNode,
    code: &Code,
    ram: &[u32],
    tid: Tid,
    out: &mut Outgoing,
) -> Result<bool, CoreError>
    requires same { code.now.settings ≡ core.old.config }
    requires executes { executes (core_of core.old).phase ≡ true }
    requires idle { (core_of core.old).awaited ≡ None }
    ensures does { IfOk result
        (λ alone. Executed alone tid.0
        (instruction core.old.config (program (started code.now)) (word_in ram.now) core.old.id.0 (core_of core.old))
        (core_of core.new)) }
    ensures blocked { IsBlocked result
        (instruction core.old.config (program (started code.now)) (word_in ram.now) core.old.id.0 (core_of core.old)) }
    ensures config { core.new.config ≡ core.old.config }
    ensures id { core.new.id ≡ core.old.id }
    ensures unchanged { OnErr result (core_of core.new ≡ core_of core.old) }
{
    match core.exec_from(code, ram, out) {
        Err(error) => Err(error),
        Ok(()) => Ok(go_alone_if_waiting(core, tid)),
    }
}

/// A core that has gone alone has the bus.
fn take_if(bus: &mut Bus, alone: bool, core: CoreId)
    ensures bus { bus_of bus.new ≡ (if alone then Alone core.0 else bus_of bus.old) }
    ensures lines { lines_on bus.new ≡ (if alone then [] else lines_on bus.old) }
{
    if alone {
        *bus = Bus::Alone(core);
    }
}

impl Engine {
    /// An instruction of a core that runs or is alone, and doesn't end a transaction alone.
    pub(crate) fn execute(&mut self, core: CoreId) -> Result<BusStep, BusError>
        requires few { self.old.events < run_limit }
        requires exists { core.0 < (bus_settings_of self.old).cores }
        requires enabled { is_some (bus_step_of self.old (Exec core.0)) ≡ true }
        requires executes { executes ((bus_world_of self.old).cores core.0).phase ≡ true }
        requires goes_on { bus_step_of self.old (Exec core.0) ≡ goes_on (bus_world_of self.old) core.0
            (instruction (bus_settings_of self.old) (bus_program_of self.old) (bus_world_of self.old).ram core.0
            ((bus_world_of self.old).cores core.0)) }
        ensures { Answers self.old self.new (Exec core.0) result }
    {
        self.out.clear();
        match self
            .cores
            .execute(core, words_of(&self.ram), self.next, &mut self.out)
        {
            Err(error) => Err(refusal(error)),
            Ok(alone) => {
                take_if(&mut self.bus, alone, core);
                self.events += 1;
                Ok(BusStep::Moved)
            }
        }
    }
}
