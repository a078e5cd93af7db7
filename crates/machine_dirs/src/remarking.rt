// The messages about one line, or about the marks, looked at again.
ghost use Rattle.std.specs.Prelude.{◌≡◌, ◌<◌, ◌⊎◌, ℕ, false, Some, slice_get};
ghost use Rattle.rules_maps.specs.Nodes.{Node, Msg as PlainMsg, Core, Dir, node_eq};
ghost use Rattle.rules_tcc.specs.DirDeliver.{dir_deliver};
ghost use Rattle.rules_tcc.specs.Links.{in_flight};
ghost use Rattle.directory.specs.Data.{dir_of};
ghost use Rattle.directory.specs.Foreign.{is_foreign};
ghost use Rattle.directory.specs.Gives.{is_taken};
ghost use Rattle.machine_links.specs.Flights.{net_of, is_ready};
ghost use Rattle.machine_links.specs.Subject.{about, bucket, entry, key, subject_of};
ghost use Rattle.machine_dirs.specs.Bank.{dirs_of};

use crate::bank::DirBank;
use directory::Directory;
use machine_links::{InFlight, Subject};
use tcc_base::{DirId, NodeId};
use tcc_msg::Name;

/// Looks again at the i-th message that is listed with those about this, where it goes to the directory, and marks it if it is taken now.
fn remark_listed(flights: &mut InFlight, dir: &Directory, dst: DirId, on: Subject, i: usize)
    requires home { (c k : ℕ) (m : PlainMsg) → in_flight (net_of flights.old) (Core c) (Dir dst.0) k ≡ Some m
        → (c < dir.now.lines.place.shape.cores) × (is_foreign dir.now.lines.place m ≡ false) }
    ensures cores { flights.new.cores ≡ flights.old.cores }
    ensures dirs { flights.new.dirs ≡ flights.old.dirs }
    ensures index { flights.new.index ≡ flights.old.index }
    ensures net { net_of flights.new ≡ net_of flights.old }
    ensures its { (e : ℕ → ℕ) (c k : ℕ) (m : PlainMsg)
        → slice_get (bucket flights.old.index (key (subject_of on))) i ≡ Some (entry (subject_of on) c dst.0 k)
        → in_flight (net_of flights.old) (Core c) (Dir dst.0) k ≡ Some m
        → is_ready flights.new (Core c) (Dir dst.0) k ≡ is_taken (dir_deliver dir.now.lines.place.shape (dir_of e dir.now) c m) }
    ensures here { (e : ℕ → ℕ) (c k : ℕ) (m : PlainMsg) → in_flight (net_of flights.old) (Core c) (Dir dst.0) k ≡ Some m
        → (is_ready flights.new (Core c) (Dir dst.0) k ≡ is_taken (dir_deliver dir.now.lines.place.shape (dir_of e dir.now) c m))
        ⊎ (is_ready flights.new (Core c) (Dir dst.0) k ≡ is_ready flights.old (Core c) (Dir dst.0) k) }
    ensures others { (s d : Node) (k : ℕ) → node_eq d (Dir dst.0) ≡ false → is_ready flights.new s d k ≡ is_ready flights.old s d k }
{
    let Some(entry) = flights.listed_at(on, i) else {
        return;
    };
    if entry.dst.0 != dst.0 {
        return;
    }
    let src = NodeId::Core(entry.src);
    let seq = entry.seq;
    let to = NodeId::Dir(dst);
    if let Some(msg) = flights.get(Name { src, dst: to, seq }) {
        let ready = dir.takes(entry.src, msg);
        flights.set_ready(src, to, seq, ready);
    }
}

impl DirBank {
    /// Looks again at the messages to a directory that are about this, and marks those that it takes now. It may look at others too.
    /// Takes time in the number of messages that are listed with them.
    pub fn mark_about(&self, flights: &mut InFlight, dir: DirId, on: Subject)
        requires exists { dir.0 < self.now.settings.dirs }
        requires home { (c k : ℕ) (m : PlainMsg) → in_flight (net_of flights.old) (Core c) (Dir dir.0) k ≡ Some m
            → (c < self.now.settings.cores) × (is_foreign (record { shape = self.now.settings; dir = dir.0 }) m ≡ false) }
        ensures cores { flights.new.cores ≡ flights.old.cores }
        ensures dirs { flights.new.dirs ≡ flights.old.dirs }
        ensures net { net_of flights.new ≡ net_of flights.old }
        ensures its { (ram : ℕ → ℕ) (c k : ℕ) (m : PlainMsg) → in_flight (net_of flights.old) (Core c) (Dir dir.0) k ≡ Some m
            → about dir.0 m ≡ Some (subject_of on)
            → is_ready flights.new (Core c) (Dir dir.0) k ≡ is_taken (dir_deliver self.now.settings (dirs_of ram self.now dir.0) c m) }
        ensures here { (ram : ℕ → ℕ) (c k : ℕ) (m : PlainMsg) → in_flight (net_of flights.old) (Core c) (Dir dir.0) k ≡ Some m
            → (is_ready flights.new (Core c) (Dir dir.0) k ≡ is_taken (dir_deliver self.now.settings (dirs_of ram self.now dir.0) c m))
            ⊎ (is_ready flights.new (Core c) (Dir dir.0) k ≡ is_ready flights.old (Core c) (Dir dir.0) k) }
        ensures others { (s d : Node) (k : ℕ) → node_eq d (Dir dir.0) ≡ false → is_ready flights.new s d k ≡ is_ready flights.old s d k }
    {
        let directory = &self.dirs.items[dir.0 as usize];
        for i in 0..flights.listed(on) {
            remark_listed(flights, directory, dir, on, i);
        }
    }
}
