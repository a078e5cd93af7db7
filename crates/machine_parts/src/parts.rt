// The parts of a machine, put together one by one.
ghost use Rattle.std.specs.Prelude.{◌≡◌, ◌↔◌, ℕ, ◌^◌, ◌<◌, ◌≤◌, [], ◌∷◌, ◌++◌, true, false, length};
ghost use Rattle.std.specs.Prelude.{slice_set, IfOk, IsTrue, MatchBool, OnErr};
ghost use Rattle.std.specs.Bool.{OnFalse, OnTrue};
ghost use Rattle.tcc_base.specs.Put.{put};
ghost use Rattle.rules_maps.specs.Bridge.{node_of};
ghost use Rattle.rules_maps.specs.Shape.{home, lines};
ghost use Rattle.rules_tcc.specs.Links.{sending};
ghost use Rattle.rules_tcc.specs.State.{dir_start};
ghost use Rattle.image_load.specs.Contents.{started};
ghost use Rattle.image_load.specs.Start.{first_ram};
ghost use Rattle.tcc_msg.specs.Plain.{sends_of};
ghost use Rattle.dir_lines.specs.Restored.{RecordFits};
ghost use Rattle.directory.specs.Restored.{restored_line, restored_serving};
ghost use Rattle.machine_cores.specs.Bank.{cores_of, first_core};
ghost use Rattle.machine_cores.specs.Restored.{IsOwnCore};
ghost use Rattle.machine_dirs.specs.Bank.{dirs_of};
ghost use Rattle.machine_links.specs.Flights.{net_of};
ghost use Rattle.machine_links.specs.Passed.{passed_to};
ghost use Rattle.machine_links.specs.Places.{is_link};
ghost use Rattle.machine_commits.specs.Rising.{Rising};
ghost use Rattle.machine_parts.specs.Fields.{data_of};

use core_node::CoreNode;
use dir_lines::LineRecord;
use image_load::Loaded;
use machine_commits::CommitList;
use machine_cores::CoreBank;
use machine_dirs::DirBank;
use machine_links::InFlight;
use rv_code::Code;
use skip_vector::SkipVector;
use std::alloc::Global;
use std::marker::Model;
use tcc_base::{Commit, CoreId, DirId, LineAddr, NoMemory, NodeId, Tid};
use tcc_msg::Msg;
use tid_vendor::Vendor;

/// The parts of a machine that is put together from what a checkpoint says. Whether together they are a sound machine, `is_sound` tells.
#[derive(Debug, Drop)]
pub struct Parts {
    pub(crate) cores: CoreBank,
    pub(crate) dirs: DirBank,
    pub(crate) vendor: Vendor,
    pub(crate) flights: InFlight,
    pub(crate) commits: CommitList,
    pub(crate) events: u64,
}

impl Model for Parts {
    ghost use Rattle.machine_parts.specs.Parts.{PartsData};

    ghost Value = { PartsData };

    ghost use Rattle.machine_parts.specs.Parts.{parts_of, IsInside};

    ghost view = { parts_of };

    ghost invariant = { IsInside };
}

/// The parts by themselves.
#[derive(Debug, Drop)]
pub struct Fields {
    pub cores: CoreBank,
    pub dirs: DirBank,
    pub vendor: Vendor,
    pub flights: InFlight,
    pub commits: CommitList,
    pub events: u64,
}

impl Parts {
    /// The parts of the machine at its start.
    pub fn start(alloc: Global, loaded: &Loaded) -> Result<Parts, NoMemory>
        ensures code { IfOk result (λ p. p.cores.code ≡ loaded.now) }
        ensures cores { IfOk result (λ p. cores_of p.cores ≡ first_core (started loaded.now)) }
        ensures dirs { IfOk result (λ p. let ram = first_ram (started loaded.now) in dirs_of ram p.dirs ≡ (λ d. dir_start ram)) }
        ensures net { IfOk result (λ p. net_of p.flights ≡ (λ src dst. [])) }
        ensures commits { IfOk result (λ p. p.commits.list ≡ []) }
        ensures next { IfOk result (λ p. p.next ≡ 1) }
        ensures events { IfOk result (λ p. p.events ≡ 0) }
    {
        let config = *loaded.config();
        let code = Code::new(alloc, loaded.copy()?)?;
        Ok(Parts {
            cores: CoreBank::start(alloc, code)?,
            dirs: DirBank::start(alloc, loaded)?,
            vendor: Vendor::new(),
            flights: InFlight::new(alloc, config.cores(), config.dirs())?,
            commits: CommitList::new(alloc),
            events: 0,
        })
    }

    /// The parts by themselves.
    pub fn into_fields(self) -> Fields
        ensures { data_of result ≡ self }
    {
        Fields {
            cores: self.cores,
            dirs: self.dirs,
            vendor: self.vendor,
            flights: self.flights,
            commits: self.commits,
            events: self.events,
        }
    }

    /// Puts a core in the place of the one of this number. False exactly where there is none, or it isn't a core of this machine; then
    /// nothing is changed.
    pub fn restore_core(&mut self, id: CoreId, node: CoreNode) -> bool
        ensures code { self.new.cores.code ≡ self.old.cores.code }
        ensures own { IsTrue result ↔ IsOwnCore self.old.cores.code.settings id node }
        ensures cores { MatchBool result
            (self.new ≡ record self.old { cores = record self.old.cores { cores = slice_set self.old.cores.cores id.0 node } })
            (self.new ≡ self.old) }
    {
        self.cores.restore(id, node)
    }

    /// Sets the TID that a directory serves with those that it skips, and how many acknowledgements are owed. False exactly where
    /// there is no such directory or these don't fit; then nothing is changed.
    pub fn restore_serving(&mut self, dir: DirId, skips: SkipVector, owed: u64) -> bool
        ensures code { self.new.cores.code ≡ self.old.cores.code }
        ensures fits { IsTrue result ↔ (dir.0 < self.old.dirs.settings.dirs) × (0 < owed → skips.serving ≤ 2 ^ 62) }
        ensures restored { OnTrue result ((ram : ℕ → ℕ) → dirs_of ram self.new.dirs
            ≡ put (dirs_of ram self.old.dirs) dir.0 (restored_serving skips owed (dirs_of ram self.old.dirs dir.0))) }
        ensures unchanged { OnFalse result ((ram : ℕ → ℕ) → dirs_of ram self.new.dirs ≡ dirs_of ram self.old.dirs) }
        ensures others { self.new ≡ record self.old { dirs = self.new.dirs } }
    {
        self.dirs.restore_serving(dir, skips, owed)
    }

    /// Sets what the home of a line knows of it, and its words. False exactly where there is no such line or these don't fit; then
    /// nothing is changed.
    pub fn restore_line(&mut self, line: LineAddr, to: LineRecord, words: &[u32; 8]) -> bool
        ensures code { self.new.cores.code ≡ self.old.cores.code }
        ensures fits { IsTrue result ↔ (line.0 < lines self.old.dirs.settings) × RecordFits self.old.dirs.settings.cores to }
        ensures restored { OnTrue result ((ram : ℕ → ℕ) → dirs_of ram self.new.dirs
            ≡ put (dirs_of ram self.old.dirs) (home self.old.dirs.settings line.0)
            (restored_line line.0 to words.now (dirs_of ram self.old.dirs (home self.old.dirs.settings line.0)))) }
        ensures unchanged { OnFalse result ((ram : ℕ → ℕ) → dirs_of ram self.new.dirs ≡ dirs_of ram self.old.dirs) }
        ensures others { self.new ≡ record self.old { dirs = self.new.dirs } }
    {
        self.dirs.restore_line(line, to, words)
    }

    /// Lets so many messages have been sent on a link. False exactly where there is no such link or more were sent; then
    /// nothing is changed.
    pub fn restore_sent(&mut self, src: NodeId, dst: NodeId, sent: u64) -> bool
        ensures code { self.new.cores.code ≡ self.old.cores.code }
        ensures fits { IsTrue result ↔ (is_link self.old.flights.cores self.old.flights.dirs (node_of src) (node_of dst) ≡ true)
            × (length (net_of self.old.flights (node_of src) (node_of dst)) ≤ sent) }
        ensures net { OnTrue result (net_of self.new.flights ≡ passed_to (net_of self.old.flights) (node_of src) (node_of dst) sent) }
        ensures unchanged { OnFalse result (self.new ≡ self.old) }
        ensures others { self.new ≡ record self.old { flights = self.new.flights } }
    {
        self.flights.restore_sent(src, dst, sent)
    }

    /// Sends a message on a link. False exactly where there is no such link; then nothing is changed, as after want of memory.
    pub fn push(&mut self, src: NodeId, dst: NodeId, msg: Msg) -> Result<bool, NoMemory>
        ensures code { self.new.cores.code ≡ self.old.cores.code }
        ensures link { IfOk result (λ b. b ≡ is_link self.old.flights.cores self.old.flights.dirs (node_of src) (node_of dst)) }
        ensures net { IfOk result (λ b. IsTrue b
            → net_of self.new.flights ≡ sending (net_of self.old.flights) (node_of src) (sends_of ((dst, msg) ∷ []))) }
        ensures refused { IfOk result (λ b. b ≡ false → self.new ≡ self.old) }
        ensures unchanged { OnErr result (self.new ≡ self.old) }
        ensures others { self.new ≡ record self.old { flights = self.new.flights } }
    {
        if !self.flights.has_link(src, dst) {
            return Ok(false);
        }
        self.flights.push(src, dst, msg, true)?;
        Ok(true)
    }

    /// Notes a commit behind the others. False exactly where its TID isn't above all others; then the commits stay as they
    /// are, as after want of memory.
    pub fn restore_commit(&mut self, commit: Commit) -> Result<bool, NoMemory>
        ensures code { self.new.cores.code ≡ self.old.cores.code }
        ensures above { IfOk result (λ b. IsTrue b ↔ Rising (self.old.commits.list ++ commit ∷ [])) }
        ensures pushed { IfOk result (λ b. IsTrue b → self.new.commits.list ≡ self.old.commits.list ++ commit ∷ []) }
        ensures kept { IfOk result (λ b. b ≡ false → self.new.commits.list ≡ self.old.commits.list) }
        ensures unchanged { OnErr result (self.new.commits.list ≡ self.old.commits.list) }
        ensures others { self.new ≡ record self.old { commits = self.new.commits } }
    {
        self.commits.push(commit)
    }

    /// Sets the TID that is granted next, and how many events were taken.
    pub fn restore_numbers(&mut self, next: Tid, events: u64)
        ensures { self.new ≡ record self.old { next = next.0; events = events } }
    {
        self.vendor = Vendor::restored(next);
        self.events = events;
    }
}
