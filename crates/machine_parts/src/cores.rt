// Whether what the cores hold may be.
ghost use Rattle.std.specs.Prelude.{◌≡◌, ◌≢◌, ◌≤◌, ◌↔◌, ℕ, IsTrue, length};
ghost use Rattle.tcc_base.specs.declared.access.CoreEnd.TheVariants.{Run};
ghost use Rattle.rules_tcc.specs.State.{Halted};
ghost use Rattle.rv_exec.specs.Outcomes.{outcome_of};
ghost use Rattle.commit_engine.specs.Engine.{phase_of};
ghost use Rattle.core_node.specs.View.{core_of};
ghost use Rattle.machine_cores.specs.Bank.{cores_of};
ghost use Rattle.theorem_serial.specs.Commits.{end_after};
ghost use Rattle.theorem_bounds.specs.Bounds.{AttemptCounted};
ghost use Rattle.theorem_sound.specs.Sound.{KeepsItsEnd};
ghost use Rattle.machine_parts.specs.Cores.{IsGoodCore};

use commit_engine::Phase;
use core_node::CoreNode;
use machine_cores::CoreBank;
use rv_exec::Outcome;
use tcc_base::{CoreId, List};

/// Whether a core that has halted says how.
fn keeps_its_end(phase: Phase, ended: Outcome) -> bool
    ensures { IsTrue result ↔ (phase_of phase ≡ Halted → end_after (phase_of phase) (outcome_of ended) ≢ Run) }
{
    match phase {
        Phase::Halted => match ended {
            Outcome::Halted(_) | Outcome::Trapped(_) => true,
            Outcome::Goes | Outcome::Ended => false,
        },
        _ => true,
    }
}

/// How long a list is.
fn count<T>(list: &List<T>) -> usize
    ensures { result ≡ length list.now }
{
    list.items.len()
}

/// Whether an attempt of so many loads, stores and console bytes has as many instructions, and no more than there were events.
fn are_counted(events: u64, n: u32, loads: usize, stores: usize, bytes: usize) -> bool
    ensures { IsTrue result ↔ ((n ≤ events) × ((loads ≤ n) × ((stores ≤ n) × (bytes ≤ n)))) }
{
    let most = n as usize;
    n as u64 <= events && loads <= most && stores <= most && bytes <= most
}

/// Whether an attempt has no more instructions than there were events, and no more loads, stores and console bytes than instructions.
fn is_counted(core: &CoreNode, events: u64) -> bool
    ensures { IsTrue result ↔ AttemptCounted events (core_of core.now) }
{
    let core = core.core();
    are_counted(
        events,
        core.n,
        count(&core.loads),
        count(&core.stores),
        count(&core.console),
    )
}

/// Whether what a core holds may be, after so many events.
fn is_good_core(core: &CoreNode, events: u64) -> bool
    ensures { IsTrue result ↔ IsGoodCore core.now.config events (core_of core.now) }
{
    core.keeps_cache();
    let own = core.core();
    is_counted(core, events) && keeps_its_end(own.phase, own.ended)
}

/// Whether what all cores hold may be.
pub(crate) fn are_good_cores(cores: &CoreBank, events: u64) -> bool
    ensures { IsTrue result ↔ ((c : ℕ) → IsGoodCore cores.now.code.settings events (cores_of cores.now c)) }
{
    for c in 0..cores.code().config().cores() {
        if !is_good_core(cores.core(CoreId(c)), events) {
            return false;
        }
    }
    cores.core_count();
    true
}
