// Which events are enabled.
ghost use Rattle.std.specs.Prelude.{◌≡◌, drop, is_some, option_map, slice_get};
ghost use Rattle.rules_maps.specs.Bridge.{node_of};
ghost use Rattle.rules_maps.specs.Nodes.{node_eq};
ghost use Rattle.tcc_msg.specs.Plain.{event_of, msg_of, sends_of};
ghost use Rattle.rules_tcc.specs.Links.{in_flight};
ghost use Rattle.net_core.specs.Answers.{step_of};
ghost use Rattle.net_core.specs.Machine.{world_of};

use crate::placing::is_ready;
use crate::system::System;
use tcc_base::NodeId;
use tcc_msg::{Event, Msg, Name, Outgoing};

/// Whether two nodes are one.
fn same_node(a: NodeId, b: NodeId) -> bool
    ensures { result ≡ node_eq (node_of a) (node_of b) }
{
    a == b
}

/// The k-th message to a node among those of `out` from number `placed` on; `None` exactly where there are no more than k.
fn unsent_at(out: &Outgoing, placed: usize, dst: NodeId, k: u64) -> Option<&Msg>
    ensures { option_map (λ m. msg_of m.now) result ≡ slice_get (sends_of (drop placed out.now.list.items) (node_of dst)) k }
{
    let mut left = k;
    for i in placed..out.list.len() {
        let (to, msg) = &out.list[i];
        if same_node(dst, *to) {
            if left == 0 {
                return Some(msg);
            }
            left -= 1;
        }
    }
    None
}

impl System {
    /// The message of that name; `None` exactly where it isn't in flight. The time goes with the logarithm of what is in flight.
    pub fn in_flight(&self, name: Name) -> Option<&Msg>
        ensures { option_map (λ m. msg_of m.now) result ≡ in_flight (world_of self.now).net (node_of name.src) (node_of name.dst) name.seq }
    {
        let sent = self.flights.sent(name.src, name.dst);
        if same_node(name.src, self.sender) && name.seq >= sent {
            return unsent_at(&self.out, self.placed, name.dst, name.seq - sent);
        }
        self.flights.get(name)
    }

    /// Whether an event, which may name anything, is enabled. It takes constant time, and the logarithm of what is in flight.
    pub fn enabled(&self, e: Event) -> bool
        ensures { result ≡ is_some (step_of self.now (event_of e)) }
    {
        let config = self.config();
        match e {
            Event::Exec(core) => core.0 < config.cores() && self.cores.can_exec(core),
            Event::Evict(core, set, way) => {
                core.0 < config.cores()
                    && set < config.sets()
                    && way < config.ways()
                    && self.cores.can_evict(core, set, way)
            }
            Event::Deliver(name) => match self.in_flight(name) {
                Some(msg) => is_ready(&self.dirs, name.src, name.dst, msg),
                None => false,
            },
        }
    }
}
