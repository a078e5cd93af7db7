// A core executes, evicts, or takes a message.
ghost use Rattle.std.specs.Prelude.{◌≡◌, ◌<◌, ◌↔◌, [], IsTrue, Some};
ghost use Rattle.rules_maps.specs.Bridge.{node_of};
ghost use Rattle.rules_maps.specs.Nodes.{Core, Exec, Evict, Deliver};
ghost use Rattle.tcc_msg.specs.Plain.{msg_of};
ghost use Rattle.rules_tcc.specs.Links.{in_flight};
ghost use Rattle.machine_links.specs.Flights.{net_of};
ghost use Rattle.net_core.specs.Answers.{Answers, refusal_of};
ghost use Rattle.net_core.specs.Limits.{machine_limit};

use crate::system::System;
use crate::taking::{Step, StepError};
use core_node::{CoreError, Executed};
use tcc_base::{Config, CoreId, NodeId};
use tcc_msg::{Msg, Name};

/// Why an event of a core wasn't taken.
fn refusal(error: CoreError) -> StepError
    ensures { result ≡ refusal_of error }
{
    match error {
        CoreError::Blocked => StepError::Refused,
        CoreError::Memory => StepError::Memory,
    }
}

/// Whether there are such a core, set and way.
pub(crate) fn has_way(config: &Config, core: CoreId, set: u16, way: u8) -> bool
    ensures { IsTrue result ↔ (core.0 < config.now.cores) × (set < config.now.sets) × (way < config.now.ways) }
{
    core.0 < config.cores() && set < config.sets() && way < config.ways()
}

impl System {
    /// A core executes.
    pub(crate) fn exec(&mut self, core: CoreId) -> Result<Step, StepError>
        requires few { self.old.events < machine_limit }
        requires settled { self.old.unsent ≡ [] }
        requires room { 0 < self.old.room }
        ensures { Answers self.old self.new (Exec core.0) result }
    {
        if core.0 >= self.config().cores() {
            return Err(StepError::Refused);
        }
        self.out.clear();
        match self.cores.exec(core, &mut self.out) {
            Err(error) => Err(refusal(error)),
            Ok(executed) => {
                self.sender = NodeId::Core(core);
                self.placed = 0;
                self.events += 1;
                match executed {
                    Executed::Committed(commit) => {
                        let tid = commit.tid;
                        self.commits.insert(commit);
                        Ok(Step::Committed(tid))
                    }
                    Executed::Stepped | Executed::Asked => Ok(Step::Moved),
                }
            }
        }
    }

    /// A core empties a way.
    pub(crate) fn evict(&mut self, core: CoreId, set: u16, way: u8) -> Result<Step, StepError>
        requires few { self.old.events < machine_limit }
        requires settled { self.old.unsent ≡ [] }
        ensures { Answers self.old self.new (Evict core.0 set way) result }
    {
        if !has_way(self.config(), core, set, way) {
            return Err(StepError::Refused);
        }
        self.out.clear();
        match self.cores.evict(core, set, way, &mut self.out) {
            Err(error) => Err(refusal(error)),
            Ok(()) => {
                self.sender = NodeId::Core(core);
                self.placed = 0;
                self.events += 1;
                Ok(Step::Moved)
            }
        }
    }

    /// A core takes a message that is in flight to it.
    pub(crate) fn deliver_to_core(
        &mut self,
        core: CoreId,
        name: Name,
        msg: Msg,
    ) -> Result<Step, StepError>
        requires few { self.old.events < machine_limit }
        requires settled { self.old.unsent ≡ [] }
        requires destination { name.dst ≡ NodeId.Core core }
        requires flies { in_flight (net_of self.old.flights) (node_of name.src) (Core core.0) name.seq ≡ Some (msg_of msg) }
        ensures { Answers self.old self.new (Deliver (node_of name.src) (Core core.0) name.seq) result }
    {
        self.out.clear();
        match self.cores.deliver(core, name.src, &msg, &mut self.out) {
            Err(error) => Err(refusal(error)),
            Ok(()) => {
                self.flights.discard(name, &msg);
                self.sender = NodeId::Core(core);
                self.placed = 0;
                self.events += 1;
                Ok(Step::Moved)
            }
        }
    }
}
