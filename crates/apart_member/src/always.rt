// Messages that never wait.
ghost use Rattle.std.specs.Prelude.{◌≡◌};
ghost use Rattle.rules_maps.specs.Bridge.{node_of};
ghost use Rattle.tcc_msg.specs.Plain.{msg_of};
ghost use Rattle.apart_member.specs.Always.{never_waits as waits_never};

use tcc_base::NodeId;
use tcc_msg::Msg;

/// Whether the node takes such a message in whatever state it is, where a link brings it. It takes constant time.
pub fn never_waits(own: NodeId, msg: &Msg) -> bool
    ensures { result ≡ waits_never (node_of own) (msg_of msg.now) }
{
    match own {
        NodeId::Core(_) | NodeId::Vendor => true,
        NodeId::Dir(_) => match msg {
            Msg::Skip { .. } => true,
            Msg::Abort { .. } => true,
            Msg::InvAck { .. } => true,
            _ => false,
        },
    }
}
