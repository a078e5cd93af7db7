// A run that is counted as it goes, and that can be left and taken up again.
ghost use Rattle.std.specs.Prelude.{◌≡◌, ◌+◌, ◌<◌, ◌^◌, ◌≤◌, ◌↔◌, [], ℕ, IfErr, IfOk, IsTrue, OnOk};
ghost use Rattle.image_load.specs.Contents.{Contents, started};
ghost use Rattle.net_core.specs.Forgotten.{Forgot};
ghost use Rattle.net_core.specs.Limits.{machine_limit};
ghost use Rattle.net_core.specs.Machine.{settings_of, world_of};
ghost use Rattle.rules_tcc.specs.Seen.{IsDone};
ghost use Rattle.watch_run.specs.Forgetting.{StillKeeps};
ghost use Rattle.watch_run.specs.Looked.{IsCounted};
ghost use Rattle.watch_run.specs.Meanwhile.{IsSpaced};
ghost use Rattle.watch_run.specs.Runs.{IsRunOf, IsRunText, IsRunTextStopped, IsRunTrace, IsRunTraceBegun, RunTablesJoin, WentOn};
ghost use Rattle.watch_run.specs.Runs.{seed_events};
ghost use Rattle.watch_run.specs.Tables.{TablesJoin};
ghost use Rattle.watch_run.specs.Traces.{BrokeOff, StandsBehind};
ghost use Rattle.watch_run.specs.Written.{IsBehind};

use crate::counting::count_events;
use crate::events::{Picked, settings_are_allowed};
use crate::meanwhile::{Meanwhile, write_meanwhile};
use crate::telling::Shown;
use crate::tracing::{Broken, trace_on};
use image_load::Loaded;
use net_core::System;
use std::alloc::Global;
use std::marker::Model;
use tcc_base::NoMemory;
use tcc_world::Sink;
use watch_count::Counts;

/// A run that is counted as it goes, and that can be left and taken up again: its machine, what was counted of it, its seed, and how many
/// words were drawn of the seed's generator.
///
/// These four say all of it. Who writes them down, reads them later and goes on by `restored` has the same run.
#[derive(Drop)]
pub struct Run {
    system: System,
    counts: Counts,
    seed: u64,
    drawn: u64,
}

impl Model for Run {
    ghost use Rattle.watch_run.specs.Runs.{RunData};

    ghost Value = { RunData };

    ghost view = { λ r. record { machine = r.system; counts = r.counts; seed = r.seed; drawn = r.drawn } };
}

/// Takes and counts the useful events that the next words pick, so many at most: how many words were drawn then.
fn go_on(
    alloc: Global,
    system: &mut System,
    counts: &mut Counts,
    seed: u64,
    drawn: u64,
    steps: u64,
) -> Result<u64, NoMemory>
    requires few { system.old.events + steps ≤ machine_limit }
    ensures { IfOk result (λ now. WentOn
        (record { machine = system.old; counts = counts.old; seed = seed; drawn = drawn })
        (record { machine = system.new; counts = counts.new; seed = seed; drawn = now }) steps) }
{
    system.settle()?;
    let before = system.events();
    let mut events = Picked::after(seed, drawn, steps);
    count_events(alloc, system, &mut events, steps, counts)?;
    Ok(drawn.saturating_add(system.events() - before))
}

/// Takes and counts these events too, and writes what is told of them while they are taken: how many words were drawn then.
fn go_on_and_write<O: Sink>(
    alloc: Global,
    system: &mut System,
    counts: &mut Counts,
    seed: u64,
    drawn: u64,
    steps: u64,
    told: Meanwhile,
    out: &mut O,
) -> Result<u64, Broken>
    requires few { system.old.events + steps ≤ machine_limit }
    requires spaced { IsSpaced told }
    ensures went { IfOk result (λ now. WentOn
        (record { machine = system.old; counts = counts.old; seed = seed; drawn = drawn })
        (record { machine = system.new; counts = counts.new; seed = seed; drawn = now }) steps) }
    ensures written { OnOk result (IsBehind (IsRunText told
        (record { machine = system.old; counts = counts.old; seed = seed; drawn = drawn }) steps)
        (O.page out.old).bytes (O.page out.new).bytes) }
    ensures faults_stay { OnOk result ((O.page out.old).faults ≤ (O.page out.new).faults) }
    ensures broken { IfErr result (IsRunTextStopped told
        (record { machine = system.old; counts = counts.old; seed = seed; drawn = drawn }) steps
        (record { before = O.page out.old; after = O.page out.new })) }
{
    match system.settle() {
        Ok(()) => {}
        Err(NoMemory) => return Err(Broken::Memory),
    }
    let before = system.events();
    let mut picked = Picked::after(seed, drawn, steps);
    write_meanwhile(alloc, system, &mut picked, steps, told, counts, out)?;
    Ok(drawn.saturating_add(system.events() - before))
}

/// A law: a run that is done by now, or isn't, is counted so far.
fn is_counted(system: &System, counts: &Counts, seed: u64, drawn: u64) -> bool
    ensures done { IsTrue result ↔ IsDone (settings_of system.now) (world_of system.now) }
    ensures counted { (c : Contents) (n : ℕ)
        → IsRunOf c n (record { machine = system.now; counts = counts.now; seed = seed; drawn = drawn })
        → IsCounted (started c) (seed_events c seed n) result system.now.events counts.now }
{
    settings_are_allowed(system.config());
    system.done()
}

/// A law: behind the table of the first events without its last row, the rows of a run that goes on make the table of all.
pub fn tables_join()
    ensures all { TablesJoin }
    ensures runs { RunTablesJoin }
{}

impl Run {
    /// The run of a seed before its first event, from what was loaded. It takes the time and the memory of `System::start`.
    pub fn start(alloc: Global, loaded: &Loaded, seed: u64) -> Result<Run, NoMemory>
        ensures run { IfOk result (λ r. IsRunOf loaded.now 0 r) }
        ensures seed { IfOk result (λ r. r.seed ≡ seed) }
        ensures drawn { IfOk result (λ r. r.drawn ≡ 0) }
    {
        let counts = Counts::new(alloc, loaded.config())?;
        match System::start(alloc, loaded) {
            Ok(system) => Ok(Run::restored(system, counts, seed, 0)),
            Err(NoMemory) => Err(NoMemory),
        }
    }

    /// The run that has this machine, these counts, this seed, and so many words drawn of it. Takes no memory.
    pub fn restored(system: System, counts: Counts, seed: u64, drawn: u64) -> Run
        requires { system.unsent ≡ [] }
        ensures { result ≡ record { machine = system; counts = counts; seed = seed; drawn = drawn } }
    {
        Run {
            system,
            counts,
            seed,
            drawn,
        }
    }

    /// Its machine.
    pub fn system(&self) -> &System
        ensures { result.now ≡ self.now.machine }
    {
        &self.system
    }

    /// What was counted of the events so far.
    pub fn counts(&self) -> &Counts
        ensures { result.now ≡ self.now.counts }
    {
        &self.counts
    }

    pub fn seed(&self) -> u64
        ensures { result ≡ self.now.seed }
    {
        self.seed
    }

    /// How many words were drawn of the seed's generator: one for each event that it picked.
    pub fn drawn(&self) -> u64
        ensures { result ≡ self.now.drawn }
    {
        self.drawn
    }

    /// Whether it is done: every core has halted, nothing is in flight, and no frame has a dirty word. Takes time in the number of cores
    /// where nothing is in flight, else constant time.
    pub fn done(&self) -> bool
        ensures done { IsTrue result ↔ IsDone (settings_of self.now.machine) (world_of self.now.machine) }
        ensures counted { (c : Contents) (n : ℕ) → IsRunOf c n self.now
            → IsCounted (started c) (seed_events c self.now.seed n) result self.now.machine.events self.now.counts }
    {
        is_counted(&self.system, &self.counts, self.seed, self.drawn)
    }

    /// Takes and counts the useful events that the next words pick, so many at most, or fewer where none is useful any more. So n steps
    /// and then m are n + m, whoever wrote the run down and read it between.
    ///
    /// After want of memory the machine has taken some of these events, and not all that they did may be counted: nothing more is said of
    /// the run then. The time is that of the events, and a constant for each fact of an event; the memory is that of the tables and of the
    /// machine, which forgets the commits that all directories have passed.
    pub fn go(&mut self, alloc: Global, steps: u64) -> Result<(), NoMemory>
        requires few { self.old.machine.events + steps ≤ machine_limit }
        ensures went { OnOk result (WentOn self.old self.new steps) }
        ensures seed { self.new.seed ≡ self.old.seed }
    {
        self.drawn = go_on(
            alloc,
            &mut self.system,
            &mut self.counts,
            self.seed,
            self.drawn,
            steps,
        )?;
        Ok(())
    }

    /// Goes on as `go` does, and writes what is told of these events while they are taken: what is written of the first steps of a run, and
    /// then of its further steps, is what is written of the whole (`tables_join`, `consoles_join`). The line that stands before all that is
    /// for the caller to write (`write_head`), and what tells of the end too.
    ///
    /// Each line is written as it comes, so a first part of them may have been written where it fails. Nothing more is said of the run then.
    pub fn go_and_write<O: Sink>(
        &mut self,
        alloc: Global,
        steps: u64,
        told: Meanwhile,
        out: &mut O,
    ) -> Result<(), Broken>
        requires few { self.old.machine.events + steps ≤ machine_limit }
        requires spaced { IsSpaced told }
        ensures went { OnOk result (WentOn self.old self.new steps) }
        ensures seed { self.new.seed ≡ self.old.seed }
        ensures written { OnOk result (IsBehind (IsRunText told self.old steps) (O.page out.old).bytes (O.page out.new).bytes) }
        ensures faults_stay { OnOk result ((O.page out.old).faults ≤ (O.page out.new).faults) }
        ensures broken { IfErr result (IsRunTextStopped told self.old steps
            (record { before = O.page out.old; after = O.page out.new })) }
    {
        self.drawn = go_on_and_write(
            alloc,
            &mut self.system,
            &mut self.counts,
            self.seed,
            self.drawn,
            steps,
            told,
            out,
        )?;
        Ok(())
    }

    /// Takes the useful events that the next words pick, so many at most, or fewer where none is useful any more, and writes the trace of
    /// the whole run from these events on: that of event `shown.from`, where the next one is number 0, and of those behind it. Whether the
    /// run is done then.
    ///
    /// What was counted before has no part in it, and the run is gone then. It is written as `trace` writes it, at the same costs; the
    /// machine keeps all commits of these events.
    pub fn trace<O: Sink>(
        mut self,
        alloc: Global,
        steps: u32,
        shown: Shown,
        out: &mut O,
    ) -> Result<bool, Broken>
        requires few { self.machine.events + steps ≤ machine_limit }
        requires near { self.machine.events + shown.from < 2 ^ 64 }
        ensures traced { IfOk result (StandsBehind (IsRunTrace shown self steps) (O.page out.old).bytes (O.page out.new).bytes) }
        ensures broken { IfErr result (BrokeOff (IsRunTrace shown self steps) (IsRunTraceBegun shown self steps)
            (record { before = O.page out.old; after = O.page out.new })) }
    {
        match self.system.settle() {
            Ok(()) => {}
            Err(NoMemory) => return Err(Broken::Memory),
        }
        let mut picked = Picked::after(self.seed, self.drawn, steps as u64);
        trace_on(alloc, &mut self.system, &mut picked, steps, shown, out)
    }

    /// Forgets the commits that all directories have passed, so that those that are kept depend on the events alone, and not on when some
    /// were forgotten before: this is for who writes the run down. It takes no memory, and its time goes with the numbers of directories
    /// and of commits.
    pub fn forget(&mut self)
        ensures same { (c : Contents) (n : ℕ) → IsRunOf c n self.old → IsRunOf c n self.new }
        ensures still { StillKeeps self.old.machine self.new.machine }
        ensures forgot { Forgot self.old.machine self.new.machine }
        ensures counts { self.new.counts ≡ self.old.counts }
        ensures seed { self.new.seed ≡ self.old.seed }
        ensures drawn { self.new.drawn ≡ self.old.drawn }
    {
        self.system.forget();
    }
}
