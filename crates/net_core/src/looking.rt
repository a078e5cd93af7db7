// Which messages to a directory are looked at again once it has handled one.
ghost use Rattle.std.specs.Prelude.{◌≡◌, ◌<◌, ◌⊎◌, ℕ, Some, true, false};
ghost use Rattle.rules_maps.specs.Nodes.{Node, Msg as PlainMsg, Core, Dir, node_eq};
ghost use Rattle.tcc_msg.specs.Plain.{msg_of};
ghost use Rattle.rules_tcc.specs.DirDeliver.{dir_deliver};
ghost use Rattle.rules_tcc.specs.Links.{in_flight};
ghost use Rattle.machine_dirs.specs.Bank.{dirs_of};
ghost use Rattle.directory.specs.Foreign.{is_foreign};
ghost use Rattle.directory.specs.Gives.{is_taken};
ghost use Rattle.machine_links.specs.Flights.{is_ready, net_of};
ghost use Rattle.net_core.specs.Taking.{is_seen, look_of, looks as plain_looks};

use directory::Handled;
use machine_dirs::DirBank;
use machine_links::{InFlight, Subject};
use tcc_base::{DirId, LineAddr, Tid};
use tcc_msg::Msg;

/// Which messages to a directory may be taken otherwise than before, now that it has handled one.
#[derive(Clone, Copy, Debug, PartialEq, Eq)]
pub(crate) enum Look {
    /// None.
    Nothing,
    /// Those about this line, and those about the marks.
    Line(LineAddr),
    /// All.
    All,
}

/// Which messages to look at again after this one: TID `before` was served before it, and `after` is served after it. Most messages
/// change nothing that another one looks at, or what is known of one line.
pub(crate) fn looks(msg: &Msg, handled: Handled, before: Tid, after: Tid) -> Look
    ensures { look_of result ≡ plain_looks handled (msg_of msg.now) before.0 after.0 }
{
    match handled {
        Handled::Handled => match msg {
            Msg::Skip { .. } | Msg::Abort { .. } | Msg::InvAck { .. } => {
                if after.0 == before.0 {
                    Look::Nothing
                } else {
                    Look::All
                }
            }
            Msg::Probe { .. } | Msg::LoadReq { .. } => Look::Nothing,
            Msg::Mark { line, .. } => Look::Line(*line),
            Msg::WriteBack { line, .. } => Look::Line(*line),
            Msg::Flush { line, .. } => Look::Line(*line),
            _ => Look::All,
        },
        Handled::Asked => match msg {
            Msg::LoadReq { line, .. } => Look::Line(*line),
            Msg::Mark { line, .. } => Look::Line(*line),
            _ => Look::All,
        },
        Handled::Waits | Handled::Dropped => Look::Nothing,
    }
}

/// Looks at these messages to a directory again, and marks those that it takes now. It may look at others too.
pub(crate) fn look_again(flights: &mut InFlight, dirs: &DirBank, dir: DirId, look: Look)
    requires exists { dir.0 < dirs.now.settings.dirs }
    requires home { (c k : ℕ) (m : PlainMsg) → in_flight (net_of flights.old) (Core c) (Dir dir.0) k ≡ Some m
        → (c < dirs.now.settings.cores) × (is_foreign (record { shape = dirs.now.settings; dir = dir.0 }) m ≡ false) }
    ensures cores { flights.new.cores ≡ flights.old.cores }
    ensures dirs { flights.new.dirs ≡ flights.old.dirs }
    ensures net { net_of flights.new ≡ net_of flights.old }
    ensures seen { (ram : ℕ → ℕ) (c k : ℕ) (m : PlainMsg) → in_flight (net_of flights.old) (Core c) (Dir dir.0) k ≡ Some m
        → is_seen (look_of look) dir.0 m ≡ true
        → is_ready flights.new (Core c) (Dir dir.0) k ≡ is_taken (dir_deliver dirs.now.settings (dirs_of ram dirs.now dir.0) c m) }
    ensures here { (ram : ℕ → ℕ) (c k : ℕ) (m : PlainMsg) → in_flight (net_of flights.old) (Core c) (Dir dir.0) k ≡ Some m
        → (is_ready flights.new (Core c) (Dir dir.0) k ≡ is_taken (dir_deliver dirs.now.settings (dirs_of ram dirs.now dir.0) c m))
        ⊎ (is_ready flights.new (Core c) (Dir dir.0) k ≡ is_ready flights.old (Core c) (Dir dir.0) k) }
    ensures others { (s d : Node) (k : ℕ) → node_eq d (Dir dir.0) ≡ false → is_ready flights.new s d k ≡ is_ready flights.old s d k }
{
    match look {
        Look::Nothing => {}
        Look::Line(line) => {
            dirs.mark_about(flights, dir, Subject::Line(line));
            dirs.mark_about(flights, dir, Subject::Marks(dir));
        }
        Look::All => dirs.mark(flights, dir),
    }
}
