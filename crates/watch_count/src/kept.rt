// What is kept of a core while a run goes on. An event comes in the phase that each core is in; it is added there when the core leaves that
// phase, and where the numbers are read, so that an event costs nothing for the cores that it doesn't concern.
ghost use Rattle.std.specs.Prelude.{◌≡◌, ◌≤◌, ◌^◌};
ghost use Rattle.watch.specs.Plain.{fact_of};
ghost use Rattle.watch_count.specs.KeptCores.{nothing_kept, numbers_after, settled};
ghost use Rattle.watch_count.specs.Sizes.{core_size};
ghost use Rattle.watch_count.specs.Tables.{core_after};

use crate::tables::CoreCounts;
use watch::Fact;

/// A core's numbers without the events since it came to its phase, and how many events had come by then.
#[derive(Clone, Copy, Debug)]
pub struct KeptCore {
    pub counts: CoreCounts,
    pub since: u64,
}

impl KeptCore {
    /// The core before the first event.
    pub(crate) fn nothing() -> KeptCore
        ensures { result ≡ nothing_kept }
    {
        KeptCore {
            counts: CoreCounts::nothing(),
            since: 0,
        }
    }

    /// The core's numbers when so many events have come.
    #[tactic(auto, unfolding(crate::specs::KeptCores::numbers_after))]
    pub(crate) fn numbers(&self, events: u64) -> CoreCounts
        requires { core_size (numbers_after events self.now) ≤ 2 ^ 62 }
        ensures { result ≡ numbers_after events self.now }
    {
        let mut counts = self.counts;
        counts
            .phases
            .stay(events.saturating_sub(self.since), counts.phase);
        counts
    }

    /// The events so far are added.
    fn settle(&mut self, events: u64)
        requires { core_size (numbers_after events self.old) ≤ 2 ^ 62 }
        ensures { self.new ≡ settled events self.old }
    {
        self.counts = self.numbers(events);
        self.since = events;
    }

    /// A fact of this core, when so many events have come. No number overflows.
    pub(crate) fn count(&mut self, events: u64, fact: &Fact)
        requires small { core_size (numbers_after events self.old) ≤ 2 ^ 62 }
        requires since { self.old.since ≤ events }
        ensures counts { numbers_after events self.new ≡ core_after (fact_of fact.now) (numbers_after events self.old) }
        ensures since { self.new.since ≤ events }
    {
        if let Fact::CameTo(..) = fact {
            self.settle(events);
        }
        self.counts.count(fact);
    }
}
