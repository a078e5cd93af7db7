// Commits are forgotten, so that a machine may run on in the memory that it has.
ghost use Rattle.std.specs.Prelude.{◌≡◌};
ghost use Rattle.net_core.specs.Forgotten.{Forgot, IsLeast};
ghost use Rattle.net_core.specs.Machine.{settings_of, world_of};

use crate::system::System;
use tcc_base::{DirId, Tid};

impl System {
    /// The least TID that a directory serves.
    fn least_serving(&self) -> Tid
        ensures { IsLeast self.now (settings_of self.now).dirs result.0 }
    {
        let dirs = self.config().dirs();
        let mut least = self.serving(DirId(0)).0;
        for d in 1..dirs {
            least = least.min(self.serving(DirId(d)).0);
        }
        Tid(least)
    }

    /// Forgets the commits that every directory has passed: those of TIDs below all that the directories serve. `commits` and `console`
    /// tell only of the others then. The state stays as it is, and so does what comes of later events. It takes no memory, and its time
    /// goes with the numbers of directories and of commits.
    pub fn forget(&mut self)
        ensures forgot { Forgot self.old self.new }
        ensures world { world_of self.new ≡ world_of self.old }
        ensures unsent { self.new.unsent ≡ self.old.unsent }
        ensures last { self.new.last ≡ self.old.last }
        ensures cores { self.new.cores ≡ self.old.cores }
        ensures events { self.new.events ≡ self.old.events }
    {
        let tid = self.least_serving();
        self.commits.forget_before(tid);
    }
}
