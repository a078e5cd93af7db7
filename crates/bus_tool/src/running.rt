// The machine with one bus, with its events chosen by a seed.
ghost use Rattle.std.specs.Prelude.{◌≡◌, ◌+◌, ◌≤◌, IfOk, OnOk, is_some, option_map, if◌then◌else◌};
ghost use Rattle.image_load.specs.Contents.{started};
ghost use Rattle.rand_pcg.specs.Pcg.{pcg32};
ghost use Rattle.rules_bus.specs.Useful.{bus_chosen};
ghost use Rattle.bus_tcc.specs.Chosen.{bus_useful_of};
ghost use Rattle.bus_tcc.specs.Machine.{bus_event_of};
ghost use Rattle.bus_tool.specs.Picking.{TookPicked};
ghost use Rattle.bus_tool.specs.Running.{RanBySeed};
ghost use Rattle.tcc_base.specs.Limits.{run_limit};

use bus_tcc::{BusEvent, BusSystem};
use image_load::Loaded;
use rand_core::SeedableRng;
use rand_core::utils::NextWord;
use rand_pcg::Lcg64Xsh32;
use std::alloc::Global;
use tcc_base::NoMemory;

/// The event that the generator's next word picks: with m useful events the one at `word mod m` of them. `None` exactly where none is
/// useful, and then no word is drawn. It takes the time of `BusSystem::useful_count` and `BusSystem::useful_at`, and no memory.
pub fn pick(words: &mut Lcg64Xsh32, bus: &BusSystem) -> Option<BusEvent>
    ensures chosen { option_map bus_event_of result ≡ bus_chosen (pcg32 words.old).0 (bus_useful_of bus.now) }
    ensures drawn { words.new ≡ (if is_some result then (pcg32 words.old).1 else words.old) }
{
    let count = bus.useful_count();
    if count == 0 {
        return None;
    }
    let word = words.next_word();
    bus.useful_at(word as u64 % count)
}

/// The machine takes the events that the next words pick, so many at most, or fewer where none is useful any more.
fn take_picked(bus: &mut BusSystem, words: &mut Lcg64Xsh32, steps: u64) -> Result<(), NoMemory>
    requires { bus.old.events + steps ≤ run_limit }
    ensures { OnOk result (TookPicked bus.old bus.new words.old steps) }
{
    for _ in 0..steps {
        let Some(e) = pick(words, bus) else {
            return Ok(());
        };
        match bus.step(e) {
            Ok(_) => {}
            Err(_) => return Err(NoMemory),
        }
    }
    Ok(())
}

/// A machine that has run from its start by the events that a seed picks: one for each of so many words, or fewer where all is done
/// before. The settings have one directory. Fails only for want of memory.
///
/// The time is that of the events, each by `BusSystem::useful_count`, `BusSystem::useful_at` and `BusSystem::step`.
pub fn bus_run(alloc: Global, loaded: &Loaded, seed: u64, steps: u64) -> Result<BusSystem, NoMemory>
    requires one_home { loaded.now.settings.dirs ≡ 1 }
    requires few { steps ≤ run_limit }
    ensures code { IfOk result (λ b. b.code ≡ loaded.now) }
    ensures ran { IfOk result (λ b. RanBySeed (started loaded.now) seed steps b) }
{
    let mut bus = BusSystem::start(alloc, loaded)?;
    let mut words = Lcg64Xsh32::seed_from_u64(seed);
    take_picked(&mut bus, &mut words, steps)?;
    bus.commits();
    Ok(bus)
}
