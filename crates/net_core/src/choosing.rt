// The useful events: counted, by number, and as a list.
ghost use Rattle.std.specs.Prelude.{◌≡◌, [], IfOk, length, map, slice_get, option_map};
ghost use Rattle.tcc_msg.specs.Plain.{event_of};
ghost use Rattle.rules_tcc.specs.Useful.{useful};
ghost use Rattle.net_core.specs.Machine.{program_of, settings_of, world_of};

use crate::system::System;
use std::alloc::Global;
use tcc_base::{List, NoMemory};
use tcc_msg::Event;

impl System {
    /// How many events are useful, where all that was sent stands on its links. It takes constant time.
    pub fn useful_count(&self) -> u64
        requires { self.now.unsent ≡ [] }
        ensures { result ≡ length (useful (settings_of self.now) (program_of self.now) (world_of self.now)) }
    {
        self.cores.exec_total() + self.cores.evict_total() + self.flights.ready_count() as u64
    }

    /// The k-th useful event, from 0: `Exec` by core, `Evict` by core, set and way, `Deliver` by source, destination and number. `None`
    /// exactly where there are no more than k. The time goes with the numbers of cores and of links divided by 256, and with what is
    /// in flight on one link.
    #[inline(always)]
    pub fn useful_at(&self, k: u64) -> Option<Event>
        requires { self.now.unsent ≡ [] }
        ensures { option_map event_of result ≡ slice_get (useful (settings_of self.now) (program_of self.now) (world_of self.now)) k }
    {
        let execs = self.cores.exec_total();
        if k < execs {
            return self.cores.exec_at(k);
        }
        let evicts = self.cores.evict_total();
        if k - execs < evicts {
            return self.cores.evict_at(k - execs);
        }
        let name = self.flights.ready_at((k - execs - evicts) as usize)?;
        Some(Event::Deliver(name))
    }

    /// All useful events, in that order. Takes memory for them.
    pub fn useful(&self, alloc: Global) -> Result<List<Event>, NoMemory>
        requires { self.now.unsent ≡ [] }
        ensures { IfOk result (λ es. map event_of es ≡ useful (settings_of self.now) (program_of self.now) (world_of self.now)) }
    {
        let mut events = List::new(alloc);
        for k in 0..self.useful_count() {
            if let Some(e) = self.useful_at(k) {
                events.push(e)?;
            }
        }
        Ok(events)
    }
}
