// The messages that wait, link by link.
ghost use Rattle.std.specs.Prelude.{◌≡◌, [], ◌++◌, OnOk, string_bytes};
ghost use Rattle.rules_maps.specs.Bridge.{node_of};
ghost use Rattle.net_core.specs.Machine.{settings_of, world_of};
ghost use Rattle.live_core.specs.Waiting.{reason_in};
ghost use Rattle.text_why.specs.Lines.{line_if_waiting};
ghost use Rattle.text_why.specs.Text.{link_text, text_from, waits_text};

use crate::lines::push_wait;
use live_core::waits_because;
use net_core::{System, node_at, node_count};
use std::alloc::AllocError;
use tcc_base::NodeId;
use tcc_msg::Name;

/// The line of a message, where it waits.
fn push_if_waiting(text: &mut String, system: &System, name: Name) -> Result<(), AllocError>
    ensures { OnOk result (string_bytes text.new ≡ string_bytes text.old ++ line_if_waiting (node_of name.src) (node_of name.dst) name.seq
        (reason_in (settings_of system.now) (world_of system.now) (node_of name.src) (node_of name.dst) name.seq)) }
{
    match waits_because(system, name) {
        Some(reason) => push_wait(text, name, reason),
        None => Ok(()),
    }
}

/// The lines of one link, by number.
fn push_link(text: &mut String, system: &System, src: NodeId, dst: NodeId) -> Result<(), AllocError>
    requires { system.now.unsent ≡ [] }
    ensures { OnOk result (string_bytes text.new
        ≡ string_bytes text.old ++ link_text (settings_of system.now) (world_of system.now) (node_of src) (node_of dst)) }
{
    for i in 0..system.flying(src, dst) {
        if let Some((seq, _)) = system.flying_at(src, dst, i) {
            push_if_waiting(text, system, Name { src, dst, seq })?;
        }
    }
    Ok(())
}

/// The lines of the links from one node, by destination.
#[tactic(auto, unfolding(crate::specs::Text::text_from))]
fn push_links_from(text: &mut String, system: &System, src: NodeId) -> Result<(), AllocError>
    requires { system.now.unsent ≡ [] }
    ensures { OnOk result (string_bytes text.new
        ≡ string_bytes text.old ++ text_from (settings_of system.now) (world_of system.now) (node_of src)) }
{
    let config = system.config();
    for place in 0..node_count(config) {
        if let Some(dst) = node_at(config, place) {
            push_link(text, system, src, dst)?;
        }
    }
    Ok(())
}

/// The lines of all links, by source, destination and number.
#[tactic(auto, unfolding(crate::specs::Text::waits_text))]
pub(crate) fn push_waits(text: &mut String, system: &System) -> Result<(), AllocError>
    requires { system.now.unsent ≡ [] }
    ensures { OnOk result (string_bytes text.new
        ≡ string_bytes text.old ++ waits_text (settings_of system.now) (world_of system.now)) }
{
    let config = system.config();
    for place in 0..node_count(config) {
        if let Some(src) = node_at(config, place) {
            push_links_from(text, system, src)?;
        }
    }
    Ok(())
}
