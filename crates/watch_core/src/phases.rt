// Whether a core's phase is what it was.
ghost use Rattle.std.specs.Prelude.{◌≡◌};
ghost use Rattle.commit_engine.specs.Engine.{phase_of};
ghost use Rattle.watch.specs.Happened.{same_phase as are_same, same_tid as are_one};
ghost use Rattle.watch_core.specs.Seen.{plain_tid};

use commit_engine::Phase;
use tcc_base::Tid;

fn same_tid(a: Option<Tid>, b: Option<Tid>) -> bool
    ensures { result ≡ are_one (plain_tid a) (plain_tid b) }
{
    match (a, b) {
        (None, None) => true,
        (Some(t), Some(u)) => t.0 == u.0,
        (None, Some(_)) => false,
        (Some(_), None) => false,
    }
}

/// Whether two phases are one, with their TIDs. It takes constant time.
pub fn same_phase(a: Phase, b: Phase) -> bool
    ensures { result ≡ are_same (phase_of a) (phase_of b) }
{
    match (a, b) {
        (Phase::Running, Phase::Running) => true,
        (Phase::AwaitTid, Phase::AwaitTid) => true,
        (Phase::DoomedTid, Phase::DoomedTid) => true,
        (Phase::Probing(t), Phase::Probing(u)) => t.0 == u.0,
        (Phase::Ready(t), Phase::Ready(u)) => t.0 == u.0,
        (Phase::Overflowing(t), Phase::Overflowing(u)) => same_tid(t, u),
        (Phase::Solo(t), Phase::Solo(u)) => t.0 == u.0,
        (Phase::Halted, Phase::Halted) => true,
        _ => false,
    }
}
