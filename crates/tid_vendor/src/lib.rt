// The TID vendor's counter: it hands out transaction numbers in rising order, each of them once.
#![tactic(auto)]

ghost use Rattle.std.specs.Prelude.{◌≡◌, ℕ, ◌+◌, ◌≤◌};

use std::marker::Model;
use tcc_base::Tid;

/// How many TIDs a vendor gives at most, 2^40: as many as a machine takes events.
pub const MAX_GRANTS: u64 = 1_099_511_627_776;

/// A counter of TIDs (Chafi et al., "A Scalable, Non-blocking Approach to Transactional Memory", HPCA 2007:
/// the TID vendor). In a clause it is the TID that it gives next.
#[derive(Debug, Drop)]
pub struct Vendor {
    next: u64,
}

impl Model for Vendor {
    ghost Value = { ℕ };

    ghost view = { λ v. v.next };
}

impl Vendor {
    /// A vendor that has given nothing. Its first TID is 1.
    pub fn new() -> Self
        ensures { result ≡ 1 }
    {
        Vendor { next: 1 }
    }

    /// The vendor that gives this TID next, as one that was read back does: it gave those below before, or never gives them.
    pub fn restored(next: Tid) -> Self
        ensures { result ≡ next.0 }
    {
        Vendor { next: next.0 }
    }

    /// The TID that it gives next. It takes constant time.
    pub fn next(&self) -> Tid
        ensures { result.0 ≡ self.now }
    {
        Tid(self.next)
    }

    /// Gives the next TID: 1, 2, 3 and so on. Fewer than `MAX_GRANTS` were given before. It takes constant time and no memory.
    pub fn grant(&mut self) -> Tid
        requires { self.old ≤ MAX_GRANTS }
        ensures given { result.0 ≡ self.old }
        ensures next { self.new ≡ self.old + 1 }
    {
        let tid = Tid(self.next);
        self.next += 1;
        tid
    }
}

impl Default for Vendor {
    ghost is_default = { λ v. v ≡ 1 };

    fn default() -> Self {
        Vendor::new()
    }
}
