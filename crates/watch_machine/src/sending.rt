// An event is taken, and what its node sent is told.
ghost use Rattle.std.specs.Prelude.{◌≡◌, ◌+◌, ◌^◌, ◌++◌, ◌<◌, [], IfSome, IsTrue, OnOk, length, map, true};
ghost use Rattle.rules_maps.specs.Bridge.{node_of};
ghost use Rattle.rules_maps.specs.Nodes.{node_eq};
ghost use Rattle.tcc_msg.specs.Plain.{event_of, sends_of};
ghost use Rattle.rules_tcc.specs.Step.{is_node};
ghost use Rattle.watch.specs.Plain.{fact_of};
ghost use Rattle.watch_machine.specs.Rising.{Rises, each_told, place_of as plain_place_of};
ghost use Rattle.watch_machine.specs.Telling.{Advances, HasRoomFor, last_facts, last_to, numbered_from};
ghost use Rattle.net_core.specs.Limits.{machine_limit};

use net_core::{Step, StepError, System, node_at, node_count};
use tcc_base::{Config, List, NoMemory, NodeId};
use tcc_msg::{Event, Msg};
use watch::Fact;

/// Takes an event, and puts on its links what it sent.
pub(crate) fn advance(system: &mut System, e: Event) -> Result<Step, StepError>
    requires { system.old.events < machine_limit }
    ensures { Advances system.old system.new (event_of e) result }
{
    let step = system.step(e)?;
    match system.settle() {
        Ok(()) => {
            system.events();
            Ok(step)
        }
        Err(NoMemory) => Err(StepError::Memory),
    }
}

/// Whether what is sent to the one node goes to the other: the two are one.
fn goes_to(to: NodeId, dst: NodeId) -> bool
    ensures { result ≡ node_eq (node_of dst) (node_of to) }
{
    dst == to
}

/// How many messages go to a node.
fn count_to(messages: &[(NodeId, Msg)], dst: NodeId) -> u64
    ensures { result ≡ length (sends_of messages.now (node_of dst)) }
{
    let mut count = 0;
    for (to, _) in messages {
        if goes_to(*to, dst) {
            count += 1;
        }
    }
    count
}

/// Tells of the messages that go to a node, the first of which has this number.
fn tell_numbered(
    messages: &[(NodeId, Msg)],
    src: NodeId,
    dst: NodeId,
    first: u64,
    facts: &mut List<Fact>,
) -> Result<(), NoMemory>
    requires { first + length (sends_of messages.now (node_of dst)) < 2 ^ 64 }
    ensures { OnOk result (map fact_of facts.new
        ≡ map fact_of facts.old ++ numbered_from (node_of src) (node_of dst) first (sends_of messages.now (node_of dst))) }
{
    let mut seq = first;
    for (to, msg) in messages {
        if goes_to(*to, dst) {
            facts.push(Fact::Sent {
                src,
                dst,
                seq,
                msg: *msg,
            })?;
            seq += 1;
        }
    }
    Ok(())
}

/// Tells of what the last event sent to one node.
#[tactic(auto, unfolding(crate::specs::Telling::last_to))]
fn tell_link(
    system: &System,
    src: NodeId,
    dst: NodeId,
    facts: &mut List<Fact>,
) -> Result<(), NoMemory>
    requires settled { system.now.unsent ≡ [] }
    requires room { HasRoomFor system.now (node_of src) }
    ensures { OnOk result (map fact_of facts.new ≡ map fact_of facts.old ++ last_to system.now (node_of src) (node_of dst)) }
{
    let messages = system.last_sent();
    let count = count_to(messages, dst);
    if count == 0 {
        return Ok(());
    }
    let first = system.sent_on(src, dst) - count;
    tell_numbered(messages, src, dst, first, facts)
}

/// Tells of what the last event sent, with a look at every node.
#[tactic(auto, unfolding(crate::specs::Telling::last_facts))]
fn tell_links(system: &System, src: NodeId, facts: &mut List<Fact>) -> Result<(), NoMemory>
    requires settled { system.now.unsent ≡ [] }
    requires room { HasRoomFor system.now (node_of src) }
    ensures { OnOk result (map fact_of facts.new ≡ map fact_of facts.old ++ last_facts system.now (node_of src)) }
{
    let config = system.config();
    for place in 0..node_count(config) {
        if let Some(dst) = node_at(config, place) {
            tell_link(system, src, dst, facts)?;
        }
    }
    Ok(())
}

/// The place of a node in the order of all; `None` where there is no such node.
fn place_of(config: &Config, node: NodeId) -> Option<u32>
    ensures { IfSome result (λ p. (is_node config.now (node_of node) ≡ true) × (p ≡ plain_place_of config.now (node_of node))) }
{
    let cores = config.cores();
    let dirs = config.dirs();
    match node {
        NodeId::Core(core) if core.0 < cores => Some(core.0 as u32),
        NodeId::Dir(dir) if dir.0 < dirs => Some(cores as u32 + dir.0 as u32),
        NodeId::Vendor => Some(cores as u32 + dirs as u32),
        _ => None,
    }
}

/// Whether messages go to different nodes, in their order, as one message always does.
fn rises(config: &Config, messages: &[(NodeId, Msg)]) -> bool
    ensures { IsTrue result → Rises config.now 0 messages.now }
{
    let mut next = 0u64;
    for (to, _) in messages {
        let Some(place) = place_of(config, *to) else {
            return false;
        };
        if (place as u64) < next {
            return false;
        }
        next = place as u64 + 1;
    }
    true
}

/// Tells of messages in their order, each of which is the last of its link.
fn tell_each(
    system: &System,
    src: NodeId,
    messages: &[(NodeId, Msg)],
    facts: &mut List<Fact>,
) -> Result<(), NoMemory>
    requires settled { system.now.unsent ≡ [] }
    ensures { OnOk result (map fact_of facts.new ≡ map fact_of facts.old ++ each_told system.now (node_of src) messages.now) }
{
    for (dst, msg) in messages {
        let sent = system.sent_on(src, *dst);
        facts.push(Fact::Sent {
            src,
            dst: *dst,
            seq: sent.saturating_sub(1),
            msg: *msg,
        })?;
    }
    Ok(())
}

/// Tells of what the last event sent, by destination and number. The time is linear in what was sent where the messages go to different
/// nodes in their order; else it is that of a look at all of them for each node.
pub(crate) fn tell_sent(
    system: &System,
    src: NodeId,
    facts: &mut List<Fact>,
) -> Result<(), NoMemory>
    requires settled { system.now.unsent ≡ [] }
    requires room { HasRoomFor system.now (node_of src) }
    ensures { OnOk result (map fact_of facts.new ≡ map fact_of facts.old ++ last_facts system.now (node_of src)) }
{
    let messages = system.last_sent();
    if rises(system.config(), messages) {
        tell_each(system, src, messages, facts)
    } else {
        tell_links(system, src, facts)
    }
}
