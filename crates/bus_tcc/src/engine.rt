// The machine by itself, and its start.
ghost use Rattle.std.specs.Prelude.{◌≡◌, ◌<◌, ℕ, IfOk, length, get_or, ◌/◌};
ghost use Rattle.image_load.specs.Contents.{started};
ghost use Rattle.image_load.specs.Start.{first_ram};
ghost use Rattle.tcc_base.specs.Settings.{IsAllowed};
ghost use Rattle.theorem_bus.specs.Given.{bus_at_start};
ghost use Rattle.bus_tcc.specs.Whole.{BusReached};
ghost use Rattle.machine_cores.specs.Bank.{cores_of};
ghost use Rattle.bus_tcc.specs.Machine.{bus_history_of, bus_world_of};

use crate::bank::BusBank;
use crate::bus::Bus;
use image_load::Loaded;
use machine_commits::CommitList;
use rv_code::Code;
use std::alloc::Global;
use std::marker::Model;
use tcc_base::{List, NoMemory, Tid, WordAddr};
use tcc_msg::Outgoing;

/// The machine that takes events, without the counts of what can happen next.
#[derive(Debug, Drop)]
pub(crate) struct Engine {
    pub(crate) cores: BusBank,
    /// Memory, by word.
    pub(crate) ram: List<u32>,
    pub(crate) bus: Bus,
    /// The TID of the next commit.
    pub(crate) next: Tid,
    pub(crate) commits: CommitList,
    /// What a core hands out, of which nothing is sent.
    pub(crate) out: Outgoing,
    pub(crate) events: u64,
}

impl Model for Engine {
    ghost use Rattle.bus_tcc.specs.Machine.{BusMachine};

    ghost Value = { BusMachine };

    ghost use Rattle.bus_tcc.specs.Inside.{machine_of, IsSystem};

    ghost view = { machine_of };

    ghost invariant = { IsSystem };
}

/// The words that were loaded.
fn start_words(alloc: Global, loaded: &Loaded) -> Result<List<u32>, NoMemory>
    ensures allowed { IfOk result (λ _. IsAllowed loaded.now.settings) }
    ensures count { IfOk result (λ ws. length ws ≡ loaded.now.settings.ram / 4) }
    ensures words { IfOk result (λ ws. (w : ℕ) → get_or ws w 0 ≡ first_ram (started loaded.now) w) }
{
    let mut words = List::new(alloc);
    let count = loaded.config().words();
    for w in 0..count {
        words.push(loaded.word(WordAddr(w)))?;
    }
    Ok(words)
}

impl Engine {
    /// The machine before its first event.
    pub(crate) fn start(alloc: Global, loaded: &Loaded) -> Result<Engine, NoMemory>
        requires { loaded.now.settings.dirs ≡ 1 }
        ensures code { IfOk result (λ m. m.code ≡ loaded.now) }
        ensures start { IfOk result (λ m. bus_history_of m ≡ bus_at_start (started loaded.now)) }
        ensures events { IfOk result (λ m. m.events ≡ 0) }
    {
        let code = Code::new(alloc, loaded.copy()?)?;
        Ok(Engine {
            cores: BusBank::start(alloc, code)?,
            ram: start_words(alloc, loaded)?,
            bus: Bus::Free,
            next: Tid(1),
            commits: CommitList::new(alloc),
            out: Outgoing::new(alloc),
            events: 0,
        })
    }

    /// How many events were taken.
    pub(crate) fn events(&self) -> u64
        ensures count { result ≡ self.now.events }
        ensures reached { BusReached self.now }
    {
        self.events
    }

    /// The cores.
    pub(crate) fn bank(&self) -> &BusBank
        ensures code { result.now.code ≡ self.now.code }
        ensures cores { cores_of result.now ≡ (bus_world_of self.now).cores }
    {
        &self.cores
    }
}
