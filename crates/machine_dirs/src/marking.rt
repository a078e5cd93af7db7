// Which messages in flight a directory takes.
ghost use Rattle.std.specs.Prelude.{◌≡◌, ◌<◌, ◌≤◌, ℕ, false, ◌&&◌, Some, None};
ghost use Rattle.rules_maps.specs.Nodes.{Node, Msg as PlainMsg, Core, Dir, node_eq};
ghost use Rattle.rules_tcc.specs.DirDeliver.{dir_deliver};
ghost use Rattle.rules_tcc.specs.Links.{in_flight};
ghost use Rattle.directory.specs.Data.{dir_of};
ghost use Rattle.directory.specs.Foreign.{is_foreign};
ghost use Rattle.directory.specs.Gives.{is_taken};
ghost use Rattle.machine_links.specs.Flights.{net_of, is_ready};
ghost use Rattle.machine_dirs.specs.Bank.{dirs_of};

use crate::bank::DirBank;
use directory::Directory;
use machine_links::InFlight;
use tcc_base::{CoreId, DirId, NodeId};

/// Looks at all messages on the link from a core to a directory again, and marks those that the directory takes now.
fn remark_link(flights: &mut InFlight, dir: &Directory, src: CoreId, dst: DirId)
    requires exists { src.0 < dir.now.lines.place.shape.cores }
    requires home { (k : ℕ) (m : PlainMsg) → in_flight (net_of flights.old) (Core src.0) (Dir dst.0) k ≡ Some m
        → is_foreign dir.now.lines.place m ≡ false }
    ensures cores { flights.new.cores ≡ flights.old.cores }
    ensures dirs { flights.new.dirs ≡ flights.old.dirs }
    ensures net { net_of flights.new ≡ net_of flights.old }
    ensures here { (e : ℕ → ℕ) (k : ℕ) (m : PlainMsg) → in_flight (net_of flights.old) (Core src.0) (Dir dst.0) k ≡ Some m
        → is_ready flights.new (Core src.0) (Dir dst.0) k ≡ is_taken (dir_deliver dir.now.lines.place.shape (dir_of e dir.now) src.0 m) }
    ensures others { (s d : Node) (k : ℕ) → (node_eq s (Core src.0) && node_eq d (Dir dst.0)) ≡ false
        → is_ready flights.new s d k ≡ is_ready flights.old s d k }
{
    let from = NodeId::Core(src);
    let to = NodeId::Dir(dst);
    for i in 0..flights.waiting(from, to) {
        if let Some((seq, msg)) = flights.waiting_at(from, to, i) {
            let ready = dir.takes(src, msg);
            flights.set_ready(from, to, seq, ready);
        }
    }
}

/// The first core from this one on whose link to the directory isn't empty, or the number of cores where there is none.
fn next_busy(flights: &InFlight, dst: DirId, from: u8, cores: u8) -> u8
    requires { from ≤ cores }
    ensures onward { from ≤ result }
    ensures within { result ≤ cores }
    ensures quiet { (c k : ℕ) → from ≤ c → c < result → in_flight (net_of flights.now) (Core c) (Dir dst.0) k ≡ None }
{
    let to = NodeId::Dir(dst);
    for core in from..cores {
        if flights.waiting(NodeId::Core(CoreId(core)), to) > 0 {
            return core;
        }
    }
    cores
}

impl DirBank {
    /// Looks at all messages to a directory again, and marks those that it takes now. Takes time in their number.
    pub fn mark(&self, flights: &mut InFlight, dir: DirId)
        requires exists { dir.0 < self.now.settings.dirs }
        requires home { (c k : ℕ) (m : PlainMsg) → in_flight (net_of flights.old) (Core c) (Dir dir.0) k ≡ Some m
            → is_foreign (record { shape = self.now.settings; dir = dir.0 }) m ≡ false }
        ensures cores { flights.new.cores ≡ flights.old.cores }
        ensures dirs { flights.new.dirs ≡ flights.old.dirs }
        ensures net { net_of flights.new ≡ net_of flights.old }
        ensures here { (ram : ℕ → ℕ) (c k : ℕ) (m : PlainMsg) → c < self.now.settings.cores
            → in_flight (net_of flights.old) (Core c) (Dir dir.0) k ≡ Some m
            → is_ready flights.new (Core c) (Dir dir.0) k ≡ is_taken (dir_deliver self.now.settings (dirs_of ram self.now dir.0) c m) }
        ensures others { (s d : Node) (k : ℕ) → node_eq d (Dir dir.0) ≡ false → is_ready flights.new s d k ≡ is_ready flights.old s d k }
    {
        let directory = &self.dirs.items[dir.0 as usize];
        let cores = self.config.cores();
        let mut core = next_busy(flights, dir, 0, cores);
        while core < cores {
            remark_link(flights, directory, CoreId(core), dir);
            core = next_busy(flights, dir, core + 1, cores);
        }
    }
}
