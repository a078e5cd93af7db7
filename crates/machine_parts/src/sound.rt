// Whether the parts of a machine are sound together.
ghost use Rattle.std.specs.Prelude.{◌≡◌, ◌↔◌, ◌*◌, ◌≤◌, ◌^◌, ℕ, IfOk, IsTrue};
ghost use Rattle.theorem_bounds.specs.Bounds.{most_sent};
ghost use Rattle.machine_parts.specs.Together.{AreSound};

use crate::cores::are_good_cores;
use crate::dirs::are_good_directories;
use crate::links::{Limits, is_good_traffic};
use crate::parts::Parts;
use crate::tids::are_single;
use std::alloc::Global;
use tcc_base::{Config, NoMemory};

/// How many messages at most were sent on a link in so many events: two of each line, and two more, an event.
fn most_sent(config: &Config, events: u64) -> u64
    requires { events ≤ 2 ^ 40 }
    ensures { result ≡ events * most_sent config.now }
{
    events * (2 * (config.words() / 8) as u64 + 2)
}

impl Parts {
    /// Whether the rules can go on from this state: true exactly where a machine of these parts is sound, and has each core that its
    /// directories know as a sharer. It takes time in the lines, in the links with what is in flight on them, and in the commits for each
    /// TID that a core has; and memory for these TIDs.
    pub fn is_sound(&self, alloc: Global) -> Result<bool, NoMemory>
        ensures { IfOk result (λ b. IsTrue b ↔ AreSound self.now) }
    {
        let events = self.events;
        let next = self.vendor.next();
        if events > 1 << 40 || next.0 == 0 || next.0 > events + 1 {
            return Ok(false);
        }
        let config = self.cores.code().config();
        let limits = Limits {
            next,
            most: most_sent(config, events),
        };
        if !are_good_cores(&self.cores, events)
            || !are_good_directories(&self.dirs)
            || !is_good_traffic(config, &self.flights, limits)
        {
            return Ok(false);
        }
        are_single(alloc, &self.cores, &self.flights, &self.commits, next)
    }
}
