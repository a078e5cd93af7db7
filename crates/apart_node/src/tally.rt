// How many messages wait at each port of a node.
ghost use Rattle.std.specs.Prelude.{◌≡◌, ◌<◌, ◌≤◌, ◌^◌, ◌↔◌, All, IfOk, IfSome, IsSome, length, sum};
ghost use Rattle.rules_maps.specs.Bridge.{node_of};
ghost use Rattle.apart_member.specs.Always.{IsOfKind};
ghost use Rattle.apart_member.specs.Data.{state_of};
ghost use Rattle.apart_node.specs.Ports.{ArePorts, IsPort, IsUnused};
ghost use Rattle.base_sums.specs.Falls.{FallsAt};
ghost use Rattle.apart_node.specs.Tally.{AreReady, IsTallied, noted};

use crate::port::Port;
use apart_member::Member;
use base_sums::SumTree;
use std::alloc::Global;
use std::marker::Model;
use tcc_base::NoMemory;

/// For each port how many messages can be handled, and how many may have to wait. Where some may, how many can be handled is counted anew
/// for each choice, since it changes with the member.
#[derive(Drop)]
pub(crate) struct Tally {
    ready: SumTree,
    hanging: SumTree,
}

impl Model for Tally {
    ghost use Rattle.apart_node.specs.Tally.{TallyData};

    ghost Value = { TallyData };

    ghost view = { λ t. record { ready = t.ready; hanging = t.hanging } };
}

impl Tally {
    /// No message waits at any of these ports.
    pub(crate) fn new(alloc: Global, ports: &[Port]) -> Result<Tally, NoMemory>
        requires few { length ports.now ≤ 65536 }
        requires unused { All IsUnused ports.now }
        ensures { IfOk result (IsTallied ports.now) }
    {
        Ok(Tally {
            ready: SumTree::new(alloc, ports.len())?,
            hanging: SumTree::new(alloc, ports.len())?,
        })
    }

    /// What waits at the port of this place has changed.
    pub(crate) fn note(&mut self, seat: usize, port: &Port)
        requires ready { seat < length self.old.ready }
        requires hanging { seat < length self.old.hanging }
        ensures noted { self.new ≡ noted self.old seat port.now }
        ensures port { IsPort port.now }
    {
        self.ready.set(seat, port.waiting());
        self.hanging.set(seat, port.hanging());
    }

    /// Counts anew what may have to wait, as the member is now. It takes time in the number of these messages and of the ports.
    pub(crate) fn recount(&mut self, ports: &[Port], member: &Member, last: u64)
        requires tallied { IsTallied ports.now self.old }
        requires ports { ArePorts member.now.code.settings (node_of member.now.node) ports.now }
        requires kind { IsOfKind (node_of member.now.node) (state_of member.now) }
        requires early { last < 2 ^ 62 }
        ensures tallied { IsTallied ports.now self.new }
        ensures ready { AreReady member.now last ports.now self.new.ready }
    {
        if self.hanging.total() == 0 {
            return;
        }
        for (seat, port) in ports.iter().enumerate() {
            if self.hanging.get(seat) != 0 {
                self.ready.set(seat, port.ready_count(member, last));
            }
        }
    }

    /// How many messages can be handled.
    pub(crate) fn total(&self) -> u64
        ensures { result ≡ sum self.now.ready }
    {
        self.ready.total()
    }

    /// The port at which the k-th of them waits, and which of those there it is; None exactly where there are no more than k.
    pub(crate) fn find(&self, k: u64) -> Option<(usize, u64)>
        ensures falls { IfSome result (λ at. FallsAt self.now.ready k at.0 at.1) }
        ensures below { IsSome result ↔ (k < sum self.now.ready) }
    {
        self.ready.find(k)
    }
}
