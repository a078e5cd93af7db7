// The machine as one object, and its start.
ghost use Rattle.std.specs.Prelude.{◌≡◌, ◌≤◌, ◌↔◌, [], IfOk, IsTrue, OnOk};
ghost use Rattle.image_load.specs.Contents.{started};
ghost use Rattle.net_core.specs.Limits.{machine_limit};
ghost use Rattle.net_core.specs.Machine.{history_of};
ghost use Rattle.net_core.specs.Whole.{IsSound};
ghost use Rattle.rules_riscv.specs.Starting.{at_start};

use crate::placing::place_all;
use image_load::Loaded;
use machine_commits::CommitList;
use machine_cores::CoreBank;
use machine_dirs::DirBank;
use machine_links::InFlight;
use rv_code::Code;
use std::alloc::Global;
use std::marker::Model;
use tcc_base::{NoMemory, NodeId};
use tcc_msg::Outgoing;
use tid_vendor::Vendor;

/// The machine. In a clause `history_of` makes of it the state of the rules with the commits so far, and `events` says what holds
/// of it, whatever has led to it.
///
/// A message is in flight from the event that sends it. Where there was no memory to put it on its link it stands in a list of its own
/// until there is; `settle` puts it there, and each event does so first.
#[derive(Debug, Drop)]
pub struct System {
    pub(crate) cores: CoreBank,
    pub(crate) dirs: DirBank,
    pub(crate) vendor: Vendor,
    pub(crate) flights: InFlight,
    /// Who sent last.
    pub(crate) sender: NodeId,
    /// What it sent.
    pub(crate) out: Outgoing,
    /// How many messages of that stand on their links.
    pub(crate) placed: usize,
    pub(crate) commits: CommitList,
    pub(crate) events: u64,
}

impl Model for System {
    ghost use Rattle.net_core.specs.Machine.{Machine};

    ghost Value = { Machine };

    ghost use Rattle.net_core.specs.Inside.{machine_of, IsSystem};

    ghost view = { machine_of };

    ghost invariant = { IsSystem };
}

impl System {
    /// The machine before its first event: all cores at their entries with empty frames, each directory serving TID 1, and nothing in
    /// flight. Takes time and memory in RAM's bytes and in the caches' frames; the loaded memory is copied.
    pub fn start(alloc: Global, loaded: &Loaded) -> Result<System, NoMemory>
        ensures code { IfOk result (λ s. s.cores.code ≡ loaded.now) }
        ensures start { IfOk result (λ s. history_of s ≡ at_start (started loaded.now)) }
        ensures events { IfOk result (λ s. s.events ≡ 0) }
        ensures settled { IfOk result (λ s. s.unsent ≡ []) }
    {
        let config = *loaded.config();
        let code = Code::new(alloc, loaded.copy()?)?;
        Ok(System {
            cores: CoreBank::start(alloc, code)?,
            dirs: DirBank::start(alloc, loaded)?,
            vendor: Vendor::new(),
            flights: InFlight::new(alloc, config.cores(), config.dirs())?,
            sender: NodeId::Vendor,
            out: Outgoing::new(alloc),
            placed: 0,
            commits: CommitList::new(alloc),
            events: 0,
        })
    }

    /// The number of events that were taken, at most 2^40. It takes constant time. A machine is sound, whatever has led to it: what is in
    /// flight is of a kind and of a line that belong where it goes, a TID is with one core at most, and so on.
    pub fn events(&self) -> u64
        ensures count { result ≡ self.now.events }
        ensures few { result ≤ machine_limit }
        ensures sound { IsSound self.now }
    {
        self.events
    }

    /// Whether all that was sent stands on its links. It takes constant time.
    pub fn is_settled(&self) -> bool
        ensures { IsTrue result ↔ (self.now.unsent ≡ []) }
    {
        self.placed >= self.out.list.len()
    }

    /// Puts what was sent on its links, where there was no memory for it before. After want of memory some of it may stand there. What
    /// is in flight stays as it is. It takes constant time where there is nothing to put.
    #[inline(always)]
    pub fn settle(&mut self) -> Result<(), NoMemory>
        ensures settled { OnOk result (self.new.unsent ≡ []) }
        ensures history { history_of self.new ≡ history_of self.old }
        ensures last { self.new.last ≡ self.old.last }
        ensures cores { self.new.cores ≡ self.old.cores }
        ensures room { self.new.room ≡ self.old.room }
        ensures events { self.new.events ≡ self.old.events }
    {
        if self.is_settled() {
            return Ok(());
        }
        self.place()
    }

    /// The same, where there may be something to put.
    #[inline(never)]
    fn place(&mut self) -> Result<(), NoMemory>
        ensures settled { OnOk result (self.new.unsent ≡ []) }
        ensures history { history_of self.new ≡ history_of self.old }
        ensures last { self.new.last ≡ self.old.last }
        ensures cores { self.new.cores ≡ self.old.cores }
        ensures room { self.new.room ≡ self.old.room }
        ensures events { self.new.events ≡ self.old.events }
    {
        place_all(
            &mut self.flights,
            &self.dirs,
            self.sender,
            &self.out,
            &mut self.placed,
        )
    }
}
