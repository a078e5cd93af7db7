// What every form of the skips does: the calls and their meaning, over the TID that is served and the skipped ones above it.
ghost use Rattle.std.specs.Prelude.{◌≡◌, ℕ, ◌^◌, ◌<◌, ◌≤◌, OnOk, OnErr};
ghost use Rattle.rules_maps.specs.Serving.{Serving, first_serving, skipped, advance as advanced};

use std::alloc::Global;
use tcc_base::{NoMemory, Tid};

/// A directory's now-serving TID with its skip vector (Chafi et al., "A Scalable, Non-blocking Approach to Transactional
/// Memory", HPCA 2007). `serves` is the served TID with, for each TID above it, whether it was skipped.
pub trait Skips: Drop {
    ghost serves: { Self → Serving };

    /// No TID was skipped, and TID 1 is served. No memory is taken yet.
    fn new(alloc: Global) -> Self
        ensures { serves result ≡ first_serving };

    /// The TID that is served now. It takes constant time and no memory.
    fn serving(&self) -> Tid
        ensures { result.0 ≡ (serves self.now).serving };

    /// Notes that the TID gives up: one above the served TID is kept, the served one advances, a lower one changes nothing.
    /// Only a TID above the served one can find no memory, and nothing is changed then.
    fn skip(&mut self, tid: Tid) -> Result<(), NoMemory>
        requires { tid.0 < 2 ^ 62 }
        ensures kept { OnOk result (serves self.new ≡ skipped tid.0 (serves self.old)) }
        ensures unchanged { OnErr result (serves self.new ≡ serves self.old) }
        ensures want { OnErr result ((serves self.old).serving < tid.0) }
        ensures small { (serves self.old).serving ≤ 2 ^ 62 → (serves self.new).serving ≤ 2 ^ 62 };

    /// Goes to the next TID that was not skipped, and forgets the skips below it. No memory is taken. The time is that of the
    /// skips that are passed.
    fn advance(&mut self)
        requires { (serves self.old).serving ≤ 2 ^ 62 }
        ensures { serves self.new ≡ advanced (serves self.old) };
}
