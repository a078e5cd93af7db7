// Whether all messages in flight may stand where they are.
ghost use Rattle.std.specs.Prelude.{◌≡◌, ◌↔◌, ◌<◌, IsTrue};
ghost use Rattle.rules_maps.specs.Bridge.{node_of};
ghost use Rattle.tcc_msg.specs.Plain.{msg_of};
ghost use Rattle.machine_parts.specs.Links.{AreGoodLinks, AreGoodMessages, IsGoodLink, IsGoodMessage, IsGoodTraffic};
ghost use Rattle.machine_parts.specs.Traffic.{traffic_of};

use crate::messages::is_good;
use machine_links::InFlight;
use tcc_base::{Config, CoreId, DirId, NodeId, Tid};
use tcc_msg::{Msg, Name};

/// What stands on the links: how far TIDs go, and how many messages at most were sent on one link.
#[derive(Clone, Copy)]
pub(crate) struct Limits {
    pub next: Tid,
    pub most: u64,
}

/// Whether a message may stand on its link, and is marked.
fn is_good_message(
    config: &Config,
    flights: &InFlight,
    limits: Limits,
    name: Name,
    msg: &Msg,
) -> bool
    ensures { IsTrue result
        ↔ IsGoodMessage config.now (traffic_of flights.now limits) (node_of name.src) (node_of name.dst) name.seq (msg_of msg.now) }
{
    flights.is_ready(name) && is_good(config, limits.next, name.src, name.dst, msg)
}

/// Whether all messages on a link may stand there, and are marked.
fn has_good_messages(
    config: &Config,
    flights: &InFlight,
    limits: Limits,
    src: NodeId,
    dst: NodeId,
) -> bool
    ensures { IsTrue result ↔ AreGoodMessages config.now (traffic_of flights.now limits) (node_of src) (node_of dst) }
{
    for i in 0..flights.waiting(src, dst) {
        if let Some((seq, msg)) = flights.waiting_at(src, dst, i) {
            if !is_good_message(config, flights, limits, Name { src, dst, seq }, msg) {
                return false;
            }
        }
    }
    true
}

/// Whether a link is as it may be: its messages belong there, and no more were sent than could be.
fn is_good_link(
    config: &Config,
    flights: &InFlight,
    limits: Limits,
    src: NodeId,
    dst: NodeId,
) -> bool
    ensures { IsTrue result ↔ IsGoodLink config.now (traffic_of flights.now limits) (node_of src) (node_of dst) }
{
    flights.sent(src, dst) <= limits.most && has_good_messages(config, flights, limits, src, dst)
}

/// Whether the links between a core and a directory are.
fn are_good_pair(
    config: &Config,
    flights: &InFlight,
    limits: Limits,
    core: NodeId,
    other: NodeId,
) -> bool
    ensures { IsTrue result ↔ (IsGoodLink config.now (traffic_of flights.now limits) (node_of core) (node_of other)
        × IsGoodLink config.now (traffic_of flights.now limits) (node_of other) (node_of core)) }
{
    is_good_link(config, flights, limits, core, other)
        && is_good_link(config, flights, limits, other, core)
}

/// Whether all links from and to a core are.
fn are_good_links(config: &Config, flights: &InFlight, limits: Limits, core: CoreId) -> bool
    ensures { IsTrue result ↔ AreGoodLinks config.now (traffic_of flights.now limits) core.0 config.now.dirs }
{
    let own = NodeId::Core(core);
    for d in 0..config.dirs() {
        if !are_good_pair(config, flights, limits, own, NodeId::Dir(DirId(d))) {
            return false;
        }
    }
    are_good_pair(config, flights, limits, own, NodeId::Vendor)
}

/// Whether all links of a machine are.
pub(crate) fn is_good_traffic(config: &Config, flights: &InFlight, limits: Limits) -> bool
    requires cores { flights.now.cores ≡ config.now.cores }
    requires dirs { flights.now.dirs ≡ config.now.dirs }
    ensures { IsTrue result ↔ IsGoodTraffic config.now (traffic_of flights.now limits) }
{
    for c in 0..config.cores() {
        if !are_good_links(config, flights, limits, CoreId(c)) {
            return false;
        }
    }
    true
}
