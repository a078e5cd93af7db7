// The messages in flight, link by link, each record appended to a text with the same bytes before its line. Where memory runs out, the text
// holds a part of them.
ghost use Rattle.std.specs.Prelude.{◌≡◌, [], ◌++◌, OnOk, string_bytes};
ghost use Rattle.std.specs.List.{flat_map};
ghost use Rattle.rules_maps.specs.Bridge.{node_of};
ghost use Rattle.rules_tcc.specs.Useful.{nodes};
ghost use Rattle.net_core.specs.Machine.{settings_of, world_of};
ghost use Rattle.watch_state.specs.Lines.{led_lines};
ghost use Rattle.watch_state.specs.Text.{link_records, records_from};

use crate::lines::push_flight;
use net_core::{System, node_at, node_count};
use std::alloc::AllocError;
use tcc_base::NodeId;
use tcc_msg::Name;

/// The messages of one link, by number.
fn push_link(
    text: &mut String,
    lead: &str,
    system: &System,
    src: NodeId,
    dst: NodeId,
) -> Result<(), AllocError>
    requires { system.now.unsent ≡ [] }
    ensures { OnOk result (string_bytes text.new
        ≡ string_bytes text.old ++ led_lines lead.now (link_records (world_of system.now) (node_of src) (node_of dst))) }
{
    for i in 0..system.flying(src, dst) {
        if let Some((seq, msg)) = system.flying_at(src, dst, i) {
            push_flight(text, lead, Name { src, dst, seq }, msg)?;
        }
    }
    Ok(())
}

/// The messages from one node, by destination.
#[tactic(auto, unfolding(crate::specs::Text::records_from, crate::specs::Lines::led_lines))]
fn push_links_from(
    text: &mut String,
    lead: &str,
    system: &System,
    src: NodeId,
) -> Result<(), AllocError>
    requires { system.now.unsent ≡ [] }
    ensures { OnOk result (string_bytes text.new
        ≡ string_bytes text.old ++ led_lines lead.now (records_from (settings_of system.now) (world_of system.now) (node_of src))) }
{
    let config = system.config();
    for place in 0..node_count(config) {
        if let Some(dst) = node_at(config, place) {
            push_link(text, lead, system, src, dst)?;
        }
    }
    Ok(())
}

/// Appends the records of all messages in flight, by source, destination and number, with `lead` before the line of each. It takes time for
/// each pair of nodes and for each message. After want of memory a part of the lines may stand there.
#[tactic(auto, unfolding(crate::specs::Lines::led_lines))]
pub fn push_links(text: &mut String, lead: &str, system: &System) -> Result<(), AllocError>
    requires { system.now.unsent ≡ [] }
    ensures { let sh = settings_of system.now in OnOk result (string_bytes text.new
        ≡ string_bytes text.old ++ led_lines lead.now (flat_map (records_from sh (world_of system.now)) (nodes sh))) }
{
    let config = system.config();
    for place in 0..node_count(config) {
        if let Some(src) = node_at(config, place) {
            push_links_from(text, lead, system, src)?;
        }
    }
    Ok(())
}
