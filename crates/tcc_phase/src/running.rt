// A machine that runs by phases, with its events chosen by a seed.
ghost use Rattle.std.specs.Prelude.{◌≡◌, ◌≤◌, [], IfOk, is_some, length, map, option_map, if◌then◌else◌};
ghost use Rattle.image_load.specs.Contents.{started};
ghost use Rattle.rules_riscv.specs.Starting.{at_start};
ghost use Rattle.rules_phases.specs.Phased.{phased_picked};
ghost use Rattle.rand_pcg.specs.Pcg.{pcg32};
ghost use Rattle.tcc_msg.specs.Plain.{event_of};
ghost use Rattle.rules_tcc.specs.Picked.{chosen};
ghost use Rattle.tcc_pick.specs.Words.{seeded, words};
ghost use Rattle.tcc_phase.specs.Phased.{useful_in};
ghost use Rattle.tcc_base.specs.Limits.{run_limit};

use crate::system::PhaseSystem;
use image_load::Loaded;
use rand_core::SeedableRng;
use rand_core::utils::NextWord;
use rand_pcg::Lcg64Xsh32;
use std::alloc::Global;
use tcc_base::NoMemory;
use tcc_msg::Event;

/// The event that the generator's next word picks: with m useful events that aren't held back the one at `word mod m` of them. `None`
/// exactly where there is none, and then no word is drawn.
fn pick(words: &mut Lcg64Xsh32, system: &PhaseSystem) -> Option<Event>
    requires { system.now.refined.machine.unsent ≡ [] }
    ensures chosen { option_map event_of result ≡ chosen (pcg32 words.old).0 (useful_in system.now.refined.machine) }
    ensures drawn { words.new ≡ (if is_some result then (pcg32 words.old).1 else words.old) }
{
    let count = system.useful_count();
    if count == 0 {
        return None;
    }
    let word = words.next_word();
    system.useful_at(word as u64 % count)
}

/// A machine that has run by phases from its start, by the events that a seed picks: one for each of so many words, or fewer where none
/// is left. All that was sent stands on its links then.
///
/// The time is that of the events, each by `PhaseSystem::useful_at` and `PhaseSystem::step`.
pub fn phase_run(
    alloc: Global,
    loaded: &Loaded,
    seed: u64,
    steps: u64,
) -> Result<PhaseSystem, NoMemory>
    requires { steps ≤ run_limit }
    ensures code { IfOk result (λ p. p.refined.machine.cores.code ≡ loaded.now) }
    ensures picked { IfOk result (λ p. map event_of p.refined.taken
        ≡ phased_picked (started loaded.now) (words steps (seeded seed)) (at_start (started loaded.now))) }
    ensures settled { IfOk result (λ p. p.refined.machine.unsent ≡ []) }
    ensures few { IfOk result (λ p. length p.refined.taken ≤ steps) }
{
    let mut system = PhaseSystem::start(alloc, loaded)?;
    let mut words = Lcg64Xsh32::seed_from_u64(seed);
    for _ in 0..steps {
        system.settle()?;
        let Some(e) = pick(&mut words, &system) else {
            return Ok(system);
        };
        match system.step(e) {
            Ok(_) => {}
            Err(_) => return Err(NoMemory),
        }
    }
    system.settle()?;
    Ok(system)
}
