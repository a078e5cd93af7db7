// What is in flight on a link, by rising number.
ghost use Rattle.std.specs.Prelude.{◌≡◌, [], IfSome, Some, is_some, length, option_map, slice_get};
ghost use Rattle.rules_maps.specs.Bridge.{node_of};
ghost use Rattle.rules_maps.specs.Words.{those};
ghost use Rattle.tcc_msg.specs.Plain.{msg_of};
ghost use Rattle.rules_tcc.specs.Links.{in_flight};
ghost use Rattle.net_core.specs.Machine.{world_of};

use crate::system::System;
use tcc_base::NodeId;
use tcc_msg::Msg;

impl System {
    /// How many messages are in flight on a link, where all that was sent stands on its links; 0 where there is no such link. It takes
    /// constant time.
    pub fn flying(&self, src: NodeId, dst: NodeId) -> usize
        requires { self.now.unsent ≡ [] }
        ensures { let net = (world_of self.now).net in result
            ≡ length (those (λ k. is_some (in_flight net (node_of src) (node_of dst) k)) (length (net (node_of src) (node_of dst)))) }
    {
        self.flights.waiting(src, dst)
    }

    /// The i-th message in flight on a link by rising number, with its number, where all that was sent stands on its links. `None`
    /// exactly where there are no more than i. It passes over the stretches before it, of 256 at most.
    pub fn flying_at(&self, src: NodeId, dst: NodeId, i: usize) -> Option<(u64, &Msg)>
        requires { self.now.unsent ≡ [] }
        ensures number { let net = (world_of self.now).net in option_map (λ p. p.0) result
            ≡ slice_get (those (λ k. is_some (in_flight net (node_of src) (node_of dst) k)) (length (net (node_of src) (node_of dst)))) i }
        ensures own { IfSome result (λ p. in_flight (world_of self.now).net (node_of src) (node_of dst) p.0 ≡ Some (msg_of p.1.now)) }
    {
        self.flights.waiting_at(src, dst, i)
    }
}
