// The numbers of what each core may do next, from which the events that are worth choosing are counted and found.
ghost use Rattle.std.specs.Prelude.{◌≡◌, ◌<◌, ℕ, true, false, IfOk, length, slice_get, slice_set, option_map, if◌then◌else◌};
ghost use Rattle.image_load.specs.Contents.{started};
ghost use Rattle.rv_code.specs.Machine.{program};
ghost use Rattle.machine_cores.specs.Bank.{cores_of};
ghost use Rattle.bus_tcc.specs.Uses.{AreCounted, HavePlaces, counts_taken as counted, exec_count as count_of, way_count as ways_of};

use crate::bank::BusBank;
use crate::useful::uses;
use base_sums::SumTree;
use std::alloc::Global;
use tcc_base::{Config, CoreId, NoMemory};

/// The counts by core.
#[derive(Debug, Drop)]
pub(crate) struct Counts {
    /// 1 where the core may execute while the bus is free, else 0.
    pub(crate) free: SumTree,
    /// The same while it isn't. Not kept of a single core while the bus is free.
    pub(crate) taken: SumTree,
    /// How many ways can be emptied of the set in which the core waits for room.
    pub(crate) ways: SumTree,
}

impl Counts {
    /// Those of these cores, where the bus is free or not. All memory for counts is taken here.
    pub(crate) fn new(alloc: Global, bank: &BusBank, bus_free: bool) -> Result<Counts, NoMemory>
        ensures { IfOk result (λ n. AreCounted bank.now.code.settings (program (started bank.now.code)) bus_free (cores_of bank.now) n) }
    {
        let places = bank.code.config().cores() as usize;
        let mut counts = Counts {
            free: SumTree::new(alloc, places)?,
            taken: SumTree::new(alloc, places)?,
            ways: SumTree::new(alloc, places)?,
        };
        counts.renew_all(bank, bus_free);
        Ok(counts)
    }

    /// Counts all cores anew.
    fn renew_all(&mut self, bank: &BusBank, bus_free: bool)
        requires { HavePlaces bank.now.code.settings self.old }
        ensures { AreCounted bank.now.code.settings (program (started bank.now.code)) bus_free (cores_of bank.now) self.new }
    {
        for c in 0..bank.code.config().cores() {
            self.renew(CoreId(c), bank, bus_free);
        }
    }

    /// Counts a core anew. Takes constant time, and time in the ways of a set where the core waits for room.
    #[inline(always)]
    pub(crate) fn renew(&mut self, core: CoreId, bank: &BusBank, bus_free: bool)
        requires exists { core.0 < bank.now.code.settings.cores }
        requires places { HavePlaces bank.now.code.settings self.old }
        ensures free { self.new.free ≡ slice_set self.old.free core.0
            (count_of bank.now.code.settings (program (started bank.now.code)) true core.0 (cores_of bank.now core.0)) }
        ensures taken { self.new.taken ≡ (if counted bank.now.code.settings bus_free then slice_set self.old.taken core.0
            (count_of bank.now.code.settings (program (started bank.now.code)) false core.0 (cores_of bank.now core.0)) else self.old.taken) }
        ensures ways { self.new.ways ≡ slice_set self.old.ways core.0
            (ways_of bank.now.code.settings (program (started bank.now.code)) (cores_of bank.now core.0)) }
    {
        let place = core.0 as usize;
        let taken = counts_taken(bank.code.config(), bus_free);
        let uses = uses(bank.core(core), &bank.code, taken);
        set(&mut self.free, place, flag(uses.free));
        set_if(taken, &mut self.taken, place, flag(uses.taken));
        set(&mut self.ways, place, uses.ways);
    }

    /// Which cores may execute.
    pub(crate) fn execs(&self, free: bool) -> &SumTree
        ensures { result.now ≡ (if free then self.now.free else self.now.taken) }
    {
        if free { &self.free } else { &self.taken }
    }
}

/// Whether executions while the bus isn't free are counted.
#[inline(always)]
fn counts_taken(config: &Config, bus_free: bool) -> bool
    ensures { result ≡ counted config.now bus_free }
{
    !bus_free || config.cores() != 1
}

/// 1 for true, 0 for false.
#[inline(always)]
fn flag(on: bool) -> u32
    ensures { result ≡ (if on then 1 else 0) }
{
    if on { 1 } else { 0 }
}

/// Gives a place a count. Most have it before.
#[inline(always)]
fn set(tree: &mut SumTree, place: usize, count: u32)
    requires { place < length tree.old }
    ensures { tree.new ≡ slice_set tree.old place count }
{
    if tree.get(place) != count {
        tree.set(place, count);
    }
}

/// The same, or nothing.
#[inline(always)]
fn set_if(does: bool, tree: &mut SumTree, place: usize, count: u32)
    requires { place < length tree.old }
    ensures { tree.new ≡ (if does then slice_set tree.old place count else tree.old) }
{
    if does {
        set(tree, place, count);
    }
}
