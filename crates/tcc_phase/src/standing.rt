// What is kept beside the machine: the commits' phases, each core's phase and requests, and who is held back.
ghost use Rattle.std.specs.Prelude.{◌≡◌, ◌<◌, ◌≤◌, ◌+◌, ◌^◌, [], IfOk, None, OnOk, get_or, length, replicate, vec_capacity, ℕ};
ghost use Rattle.rules_maps.specs.Nodes.{Core, Deliver, Exec, Vendor};
ghost use Rattle.rules_maps.specs.Words.{those};
ghost use Rattle.tcc_msg.specs.Plain.{event_of};
ghost use Rattle.theorem_serial.specs.Owners.{IsRising};
ghost use Rattle.theorem_phases.specs.Laws.{place_of};
ghost use Rattle.rules_phases.specs.Phases.{x27};
ghost use Rattle.net_core.specs.Machine.{program_of, settings_of, world_of};
ghost use Rattle.tcc_phase.specs.Kept.{HasRows};
ghost use Rattle.tcc_phase.specs.Standing.{IsListed, Notes, StillHolds};
ghost use Rattle.tcc_phase.specs.Requests.{Counts, HeldBefore, Limits, either_below, is_above, is_behind, is_below, is_waiting};

use live_core::has_halted;
use net_core::{Step, System};
use reg_checkpoint::Check;
use std::alloc::{AllocError, Global};
use tcc_base::{Commit, CoreId, NoMemory, NodeId, Reg, Tid};
use tcc_msg::{Event, Name};

/// The records of a machine that runs by phases.
#[derive(Debug, Drop)]
pub(crate) struct Standing {
    /// The phase of each commit, by rising TID.
    pub each: Vec<u32>,
    /// The phase that each core is in.
    pub own: Vec<u32>,
    /// How many of its requests for a TID were delivered, for each core. It is the number of its next one.
    pub asked: Vec<u64>,
    /// The cores whose requests are in flight and held back, rising. There is room for all cores.
    pub held: Vec<u8>,
    /// The phase above which a core is late: another one is in it, and hasn't halted. `None` where none is late.
    pub least: Option<u32>,
}

/// What a program has set as its phase: x27.
fn phase_in(check: &Check) -> u32
    ensures { result ≡ x27 check.now }
{
    match Reg::new(27) {
        Some(x27) => check.regs().get(x27),
        None => 0,
    }
}

/// The lesser of a phase and of one that may be there.
fn lesser(least: Option<u32>, phase: u32) -> Option<u32>
    ensures { (q : ℕ) → is_below result q ≡ either_below least phase q }
{
    match least {
        Some(other) => Some(other.min(phase)),
        None => Some(phase),
    }
}

/// The least phase of the cores that haven't halted.
fn earliest(system: &System, own: &[u32]) -> Option<u32>
    requires { length own.now ≡ (settings_of system.now).cores }
    ensures { (q : ℕ) → is_behind (settings_of system.now).cores (world_of system.now) own.now q ≡ is_below result q }
{
    let mut least = None;
    for core in 0..system.config().cores() {
        if !has_halted(system, CoreId(core)) {
            least = lesser(least, own[core as usize]);
        }
    }
    least
}

/// The request of that number of a core.
fn request(core: u8, seq: u64) -> Event
    ensures { event_of result ≡ Deliver (Core core) Vendor seq }
{
    Event::Deliver(Name {
        src: NodeId::Core(CoreId(core)),
        dst: NodeId::Vendor,
        seq,
    })
}

/// Whether a core is in a phase above the least one, and its request is in flight.
fn is_above(system: &System, least: u32, own: &[u32], asked: &[u64], core: u8) -> bool
    requires own { core < length own.now }
    requires asked { core < length asked.now }
    ensures { result ≡ is_above (settings_of system.now) (program_of system.now) (world_of system.now) least own.now asked.now core }
{
    let row = core as usize;
    least < own[row] && system.enabled(request(core, asked[row]))
}

/// Lists the cores of a phase above the least one whose requests are in flight.
fn hold(system: &System, least: u32, own: &[u32], asked: &[u64], held: &mut Vec<u8>)
    requires own { length own.now ≡ (settings_of system.now).cores }
    requires asked { length asked.now ≡ (settings_of system.now).cores }
    requires none { held.old.items ≡ [] }
    requires room { (settings_of system.now).cores ≤ vec_capacity held.old }
    ensures listed { held.new.items ≡ those (is_above (settings_of system.now) (program_of system.now) (world_of system.now) least
        own.now asked.now) (settings_of system.now).cores }
    ensures room { (settings_of system.now).cores ≤ vec_capacity held.new }
{
    for core in 0..system.config().cores() {
        if is_above(system, least, own, asked, core) {
            held.push_reserved(core);
        }
    }
}

/// How many commits have a smaller TID. It is looked for from the end.
pub(crate) fn place_of(commits: &[Commit], tid: Tid) -> usize
    requires { IsRising 0 commits.now }
    ensures { result ≡ place_of tid.0 commits.now }
{
    let mut at = commits.len();
    while at > 0 && tid.0 <= commits[at - 1].tid.0 {
        at -= 1;
    }
    at
}

impl Standing {
    /// That of a machine before its first event, in which all cores are in phase 0.
    pub fn start(alloc: Global, cores: u8) -> Result<Standing, AllocError>
        ensures each { IfOk result (λ l. l.each.items ≡ []) }
        ensures own { IfOk result (λ l. l.own.items ≡ replicate cores 0) }
        ensures asked { IfOk result (λ l. l.asked.items ≡ replicate cores 0) }
        ensures rows { IfOk result (λ l. HasRows cores l) }
        ensures none { IfOk result (λ l. l.held.items ≡ []) }
        ensures even { IfOk result (λ l. l.least ≡ None) }
    {
        let cores = cores as usize;
        Ok(Standing {
            each: Vec::new(alloc),
            own: vec![in alloc; 0; cores]?,
            asked: vec![in alloc; 0; cores]?,
            held: Vec::with_capacity(alloc, cores)?,
            least: None,
        })
    }

    /// Whether a core is late: in a later phase than another core that hasn't halted.
    pub fn is_late(&self, core: CoreId) -> bool
        requires { core.0 < length self.now.own.items }
        ensures { result ≡ is_below self.now.least (get_or self.now.own.items core.0 0) }
    {
        match self.least {
            Some(least) => least < self.own[core.0 as usize],
            None => false,
        }
    }

    /// Notes a delivery to the vendor, where the event is one.
    fn note_delivery(&mut self, e: Event)
        requires { (c : ℕ) → get_or self.old.asked.items c 0 < 2 ^ 63 }
        ensures asked { Counts (event_of e) self.old.asked.items self.new.asked.items }
        ensures rows { length self.new.asked.items ≡ length self.old.asked.items }
        ensures others { self.new ≡ record self.old { asked = self.new.asked } }
    {
        if let Event::Deliver(
            Name {
                src: NodeId::Core(core),
                dst: NodeId::Vendor,
                ..
            },
        ) = e
        {
            let row = core.0 as usize;
            if row < self.asked.len() {
                self.asked[row] += 1;
            }
        }
    }

    /// Notes a commit: its core's phase in its place, and the phase that the core is in behind it.
    fn note_commit(&mut self, system: &System, tid: Tid)
        requires own { length self.old.own.items ≡ (settings_of system.now).cores }
        requires rising { IsRising 0 system.now.commits }
        requires listed { IsListed system.now (Step.Committed tid) self.old.each.items (settings_of system.now).cores }
        requires room { length self.old.each.items < vec_capacity self.old.each }
        ensures notes { Notes system.now (Step.Committed tid) self.old.each.items self.old.own.items self.new.each.items
            self.new.own.items }
        ensures own { length self.new.own.items ≡ length self.old.own.items }
        ensures others { self.new ≡ record self.old { each = self.new.each; own = self.new.own } }
    {
        let at = place_of(system.commits(), tid);
        let core = system.commits()[at].core;
        let row = core.0 as usize;
        let phase = self.own[row];
        match self.each.insert(at, phase) {
            Ok(()) => {}
            Err(_) => unreachable!(),
        }
        self.own[row] = phase.max(phase_in(system.committed(core)));
    }

    /// Sees anew which cores are late and which requests are held back. It takes time in the number of cores, and for each late one in
    /// the logarithm of what is in flight.
    fn hold(&mut self, system: &System)
        requires { HasRows (settings_of system.now).cores self.old }
        ensures limits { Limits (settings_of system.now) (world_of system.now) self.new.own.items self.new.least }
        ensures held { self.new.held.items ≡ those (is_waiting (settings_of system.now) (program_of system.now) (world_of system.now)
            self.new.own.items self.new.asked.items) (settings_of system.now).cores }
        ensures room { (settings_of system.now).cores ≤ vec_capacity self.new.held }
        ensures others { self.new ≡ record self.old { held = self.new.held; least = self.new.least } }
    {
        self.held.clear();
        self.least = earliest(system, &self.own);
        if let Some(least) = self.least {
            hold(system, least, &self.own, &self.asked, &mut self.held);
        }
    }

    /// Sees whether a core, which may be any, waits now that it has executed an instruction. It takes constant time where the core isn't
    /// late, else the logarithm of what is in flight; where its request was just sent, also time in the number of those that wait.
    fn note_request(&mut self, system: &System, core: CoreId)
        requires rows { HasRows (settings_of system.now).cores self.old }
        requires limits { Limits (settings_of system.now) (world_of system.now) self.old.own.items self.old.least }
        requires before { HeldBefore (settings_of system.now) (program_of system.now) (world_of system.now) self.old.own.items
            self.old.asked.items (Exec core.0) self.old.held.items }
        ensures held { self.new.held.items ≡ those (is_waiting (settings_of system.now) (program_of system.now) (world_of system.now)
            self.new.own.items self.new.asked.items) (settings_of system.now).cores }
        ensures room { (settings_of system.now).cores ≤ vec_capacity self.new.held }
        ensures others { self.new ≡ record self.old { held = self.new.held } }
    {
        let Some(least) = self.least else {
            return;
        };
        if core.0 as usize >= self.own.len()
            || !is_above(system, least, &self.own, &self.asked, core.0)
        {
            return;
        }
        if let Err(at) = self.held.binary_search(&core.0) {
            match self.held.insert(at, core.0) {
                Ok(()) => {}
                Err(_) => unreachable!(),
            }
        }
    }

    /// Makes room for one more commit's phase, so that `note` takes no memory. Nothing else is changed, also after want of memory.
    pub fn reserve(&mut self) -> Result<(), NoMemory>
        ensures room { OnOk result (length self.new.each.items < vec_capacity self.new.each) }
        ensures each { self.new.each.items ≡ self.old.each.items }
        ensures others { self.new ≡ record self.old { each = self.new.each } }
    {
        self.each.reserve(1).map_err(|_| NoMemory)
    }

    /// Notes what an event did, once the machine has taken it. A commit takes time in the number of cores, and for each late one in the
    /// logarithm of what is in flight. An instruction of a late core takes that logarithm, and where it sent the core's request also time
    /// in the number of those that wait. All else takes constant time.
    pub fn note(&mut self, system: &System, e: Event, done: Step)
        requires rows { HasRows (settings_of system.now).cores self.old }
        requires few { (c : ℕ) → get_or self.old.asked.items c 0 < 2 ^ 63 }
        requires rising { IsRising 0 system.now.commits }
        requires listed { IsListed system.now done self.old.each.items (settings_of system.now).cores }
        requires room { length self.old.each.items < vec_capacity self.old.each }
        requires holds { StillHolds system.now (event_of e) done self.old }
        ensures rows { HasRows (settings_of system.now).cores self.new }
        ensures asked { Counts (event_of e) self.old.asked.items self.new.asked.items }
        ensures notes { Notes system.now done self.old.each.items self.old.own.items self.new.each.items self.new.own.items }
        ensures limits { Limits (settings_of system.now) (world_of system.now) self.new.own.items self.new.least }
        ensures held { self.new.held.items ≡ those (is_waiting (settings_of system.now) (program_of system.now) (world_of system.now)
            self.new.own.items self.new.asked.items) (settings_of system.now).cores }
    {
        self.note_delivery(e);
        match done {
            Step::Committed(tid) => {
                self.note_commit(system, tid);
                self.hold(system);
            }
            Step::Moved => {
                if let Event::Exec(core) = e {
                    self.note_request(system, core);
                }
            }
        }
    }
}
