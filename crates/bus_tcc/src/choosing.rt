// The events that are worth choosing, as the counts of what each core may do find them.
ghost use Rattle.std.specs.Prelude.{◌≡◌, ◌<◌, length, is_some, option_map, slice_get};
ghost use Rattle.rules_bus.specs.State.{Exec, Evict, Take};
ghost use Rattle.bus_tcc.specs.Answers.{bus_step_of};
ghost use Rattle.bus_tcc.specs.Chosen.{bus_useful_of};
ghost use Rattle.bus_tcc.specs.Machine.{bus_event_of, bus_settings_of};
ghost use Rattle.bus_tcc.specs.Parts.{CountedIn, evicts_of, execs_of, takes_of};
ghost use Rattle.bus_tcc.specs.Whole.{IsBusWhole};

use crate::counts::Counts;
use crate::engine::Engine;
use crate::event::BusEvent;
use crate::step::has_way;
use crate::useful::way_at;
use tcc_base::CoreId;

impl Engine {
    /// Whether a core executes or commits. It takes constant time.
    pub(crate) fn allows_exec(&self, counts: &Counts, core: CoreId) -> bool
        requires { CountedIn self.now counts.now }
        ensures { result ≡ is_some (bus_step_of self.now (Exec core.0)) }
    {
        if core.0 >= self.config().cores() {
            return false;
        }
        counts.execs(self.bus.is_free()).get(core.0 as usize) > 0
    }

    /// Whether a way of a core may be emptied.
    fn allows_evict(&self, core: CoreId, set: u16, way: u8) -> bool
        ensures { result ≡ is_some (bus_step_of self.now (Evict core.0 set way)) }
    {
        if !has_way(self.config(), core, set, way) {
            return false;
        }
        self.cores.core(core).can_evict(set, way)
    }

    /// Whether a core takes the packet that is on the bus.
    fn allows_take(&self, core: CoreId) -> bool
        ensures { result ≡ is_some (bus_step_of self.now (Take core.0)) }
    {
        if core.0 >= self.config().cores() {
            return false;
        }
        self.bus.is_left(core)
    }

    /// Whether an event, which may name anything, is enabled. It takes constant time.
    pub(crate) fn allows(&self, counts: &Counts, event: BusEvent) -> bool
        requires { CountedIn self.now counts.now }
        ensures { result ≡ is_some (bus_step_of self.now (bus_event_of event)) }
    {
        match event {
            BusEvent::Exec(core) => self.allows_exec(counts, core),
            BusEvent::Evict(core, set, way) => self.allows_evict(core, set, way),
            BusEvent::Take(core) => self.allows_take(core),
        }
    }

    fn exec_total(&self, counts: &Counts) -> u64
        requires { CountedIn self.now counts.now }
        ensures count { result ≡ length (execs_of self.now) }
        ensures whole { IsBusWhole self.now }
    {
        counts.execs(self.bus.is_free()).total()
    }

    fn exec_at(&self, counts: &Counts, k: u64) -> Option<BusEvent>
        requires { CountedIn self.now counts.now }
        ensures { option_map bus_event_of result ≡ slice_get (execs_of self.now) k }
    {
        let (core, _) = counts.execs(self.bus.is_free()).find(k)?;
        Some(BusEvent::Exec(CoreId(core as u8)))
    }

    fn evict_total(&self, counts: &Counts) -> u64
        requires { CountedIn self.now counts.now }
        ensures { result ≡ length (evicts_of self.now) }
    {
        counts.ways.total()
    }

    #[inline(never)]
    fn evict_at(&self, counts: &Counts, k: u64) -> Option<BusEvent>
        requires { CountedIn self.now counts.now }
        ensures { option_map bus_event_of result ≡ slice_get (evicts_of self.now) k }
    {
        let code = &self.cores.code;
        let (core, rest) = counts.ways.find(k)?;
        let core = CoreId(core as u8);
        let (set, way) = way_at(self.cores.core(core), code, rest)?;
        Some(BusEvent::Evict(core, set, way))
    }

    fn take_total(&self) -> u64
        ensures { result ≡ length (takes_of self.now) }
    {
        u64::from(self.bus.left_count(self.config().cores()))
    }

    fn take_at(&self, k: u64) -> Option<BusEvent>
        ensures { option_map bus_event_of result ≡ slice_get (takes_of self.now) k }
    {
        let core = self.bus.left_at(self.config().cores(), k)?;
        Some(BusEvent::Take(core))
    }

    /// How many events are useful. It takes constant time.
    pub(crate) fn useful_total(&self, counts: &Counts) -> u64
        requires { CountedIn self.now counts.now }
        ensures { result ≡ length (bus_useful_of self.now) }
    {
        self.exec_total(counts) + self.evict_total(counts) + self.take_total()
    }

    /// The k-th useful event, from 0; None exactly where there are no more than k.
    pub(crate) fn useful_number(&self, counts: &Counts, k: u64) -> Option<BusEvent>
        requires { CountedIn self.now counts.now }
        ensures { option_map bus_event_of result ≡ slice_get (bus_useful_of self.now) k }
    {
        let execs = self.exec_total(counts);
        if k < execs {
            return self.exec_at(counts, k);
        }
        let evicts = self.evict_total(counts);
        if k - execs < evicts {
            return self.evict_at(counts, k - execs);
        }
        self.take_at(k - execs - evicts)
    }
}
