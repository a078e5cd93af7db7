// A message is delivered: to a core, to a directory, or to the vendor.
ghost use Rattle.std.specs.Prelude.{◌≡◌, ◌<◌, ℕ, [], Some, if◌then◌else◌};
ghost use Rattle.rules_maps.specs.Bridge.{node_of};
ghost use Rattle.rules_maps.specs.Nodes.{Node, Msg as PlainMsg, Core, Deliver, Dir, Vendor};
ghost use Rattle.tcc_msg.specs.Plain.{msg_of};
ghost use Rattle.rules_tcc.specs.Links.{in_flight, taking};
ghost use Rattle.machine_links.specs.Flights.{is_ready, net_of};
ghost use Rattle.net_core.specs.Answers.{Answers};
ghost use Rattle.net_core.specs.Delivery.{is_consumed};
ghost use Rattle.net_core.specs.Limits.{machine_limit};

use crate::looking::{look_again, looks};
use crate::system::System;
use crate::taking::{Step, StepError};
use directory::Handled;
use machine_links::{Held, InFlight};
use tcc_base::{CoreId, DirId, NodeId};
use tcc_msg::{Msg, Name};

/// Takes a message out, where its directory has consumed it.
fn take_handled(flights: &mut InFlight, name: Name, msg: &Msg, handled: Handled)
    requires { in_flight (net_of flights.old) (node_of name.src) (node_of name.dst) name.seq ≡ Some (msg_of msg.now) }
    ensures cores { flights.new.cores ≡ flights.old.cores }
    ensures dirs { flights.new.dirs ≡ flights.old.dirs }
    ensures net { net_of flights.new
        ≡ (if is_consumed handled then taking (net_of flights.old) (node_of name.src) (node_of name.dst) name.seq else net_of flights.old) }
    ensures marks { (s d : Node) (k : ℕ) (m : PlainMsg) → in_flight (net_of flights.new) s d k ≡ Some m
        → is_ready flights.new s d k ≡ is_ready flights.old s d k }
{
    match handled {
        Handled::Handled | Handled::Dropped => {
            flights.discard(name, msg);
        }
        Handled::Waits | Handled::Asked => {}
    }
}

impl System {
    /// The message of that name is delivered.
    pub(crate) fn deliver(&mut self, name: Name) -> Result<Step, StepError>
        requires few { self.old.events < machine_limit }
        requires settled { self.old.unsent ≡ [] }
        ensures { Answers self.old self.new (Deliver (node_of name.src) (node_of name.dst) name.seq) result }
    {
        let Some(&held) = self.flights.held(name) else {
            return Err(StepError::Refused);
        };
        match (name.src, name.dst) {
            (_, NodeId::Core(core)) => self.deliver_to_core(core, name, held.msg),
            (NodeId::Core(core), NodeId::Dir(dir)) => self.deliver_to_dir(core, dir, name, held),
            (NodeId::Core(core), NodeId::Vendor) => self.grant(core, name, held.msg),
            _ => Err(StepError::Refused),
        }
    }

    /// A directory takes a message that is in flight to it, or asks for what it needs to take it. The mark says whether it does.
    fn deliver_to_dir(
        &mut self,
        core: CoreId,
        dir: DirId,
        name: Name,
        held: Held,
    ) -> Result<Step, StepError>
        requires few { self.old.events < machine_limit }
        requires settled { self.old.unsent ≡ [] }
        requires source { name.src ≡ NodeId.Core core }
        requires destination { name.dst ≡ NodeId.Dir dir }
        requires flies { in_flight (net_of self.old.flights) (Core core.0) (Dir dir.0) name.seq ≡ Some (msg_of held.msg) }
        requires mark { held.ready ≡ is_ready self.old.flights (Core core.0) (Dir dir.0) name.seq }
        ensures { Answers self.old self.new (Deliver (Core core.0) (Dir dir.0) name.seq) result }
    {
        let before = self.dirs.serving(dir);
        if !held.ready {
            return Err(StepError::Refused);
        }
        self.out.clear();
        match self.dirs.deliver(dir, core, &held.msg, &mut self.out) {
            Err(_) => Err(StepError::Memory),
            Ok(handled) => {
                take_handled(&mut self.flights, name, &held.msg, handled);
                let look = looks(&held.msg, handled, before, self.dirs.serving(dir));
                look_again(&mut self.flights, &self.dirs, dir, look);
                self.sender = NodeId::Dir(dir);
                self.placed = 0;
                self.events += 1;
                Ok(Step::Moved)
            }
        }
    }

    /// The vendor takes a request that is in flight to it, and sends the next TID.
    fn grant(&mut self, core: CoreId, name: Name, msg: Msg) -> Result<Step, StepError>
        requires few { self.old.events < machine_limit }
        requires settled { self.old.unsent ≡ [] }
        requires source { name.src ≡ NodeId.Core core }
        requires destination { name.dst ≡ NodeId.Vendor }
        requires flies { in_flight (net_of self.old.flights) (Core core.0) Vendor name.seq ≡ Some (msg_of msg) }
        ensures { Answers self.old self.new (Deliver (Core core.0) Vendor name.seq) result }
    {
        self.out.clear();
        if self.out.reserve(1).is_err() {
            return Err(StepError::Memory);
        }
        let tid = self.vendor.grant();
        self.out.hand_out(NodeId::Core(core), Msg::TidGrant { tid });
        self.flights.discard(name, &msg);
        self.sender = NodeId::Vendor;
        self.placed = 0;
        self.events += 1;
        Ok(Step::Moved)
    }
}
