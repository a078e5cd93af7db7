// What a node sent is put on its links.
ghost use Rattle.std.specs.Prelude.{◌≡◌, ℕ, [], drop, OnOk};
ghost use Rattle.rules_maps.specs.Bridge.{node_of};
ghost use Rattle.tcc_msg.specs.Plain.{msg_of, sends_of};
ghost use Rattle.rules_tcc.specs.Links.{sending};
ghost use Rattle.machine_links.specs.Flights.{net_of};
ghost use Rattle.machine_dirs.specs.Bank.{dirs_of};
ghost use Rattle.net_core.specs.Delivery.{AllMayGo, AreMarked, MayGo, is_deliverable};

use machine_dirs::DirBank;
use machine_links::InFlight;
use tcc_base::{NoMemory, NodeId};
use tcc_msg::{Msg, Outgoing};

/// Whether a message may be delivered.
pub(crate) fn is_ready(dirs: &DirBank, src: NodeId, dst: NodeId, msg: &Msg) -> bool
    requires { MayGo dirs.now.settings (node_of src) (node_of dst) (msg_of msg.now) }
    ensures { (ram : ℕ → ℕ) → result
        ≡ is_deliverable dirs.now.settings (dirs_of ram dirs.now) (node_of src) (node_of dst) (msg_of msg.now) }
{
    match (src, dst) {
        (NodeId::Core(core), NodeId::Dir(dir)) => dirs.takes(dir, core, msg),
        _ => true,
    }
}

/// Puts the messages of `out` from number `placed` on, all from the same node, on their links, one after another, and marks each as
/// its directory says. `placed` counts those that stand there.
pub(crate) fn place_all(
    flights: &mut InFlight,
    dirs: &DirBank,
    sender: NodeId,
    out: &Outgoing,
    placed: &mut usize,
) -> Result<(), NoMemory>
    requires cores { flights.old.cores ≡ dirs.now.settings.cores }
    requires dirs { flights.old.dirs ≡ dirs.now.settings.dirs }
    requires go { AllMayGo dirs.now.settings (sending (net_of flights.old) (node_of sender)
        (sends_of (drop placed.old out.now.list.items))) }
    ensures cores { flights.new.cores ≡ flights.old.cores }
    ensures dirs { flights.new.dirs ≡ flights.old.dirs }
    ensures net { sending (net_of flights.new) (node_of sender) (sends_of (drop placed.new out.now.list.items))
        ≡ sending (net_of flights.old) (node_of sender) (sends_of (drop placed.old out.now.list.items)) }
    ensures all { OnOk result (drop placed.new out.now.list.items ≡ []) }
    ensures marked { (ram : ℕ → ℕ) → AreMarked dirs.now.settings (dirs_of ram dirs.now) flights.old
        → AreMarked dirs.now.settings (dirs_of ram dirs.now) flights.new }
{
    while *placed < out.list.len() {
        let (dst, msg) = out.list[*placed];
        let ready = is_ready(dirs, sender, dst, &msg);
        flights.push(sender, dst, msg, ready)?;
        *placed += 1;
    }
    Ok(())
}
