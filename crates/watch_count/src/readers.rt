// The numbers of counts, as plain data.
ghost use Rattle.std.specs.Prelude.{◌≡◌, length, slice_get};

use crate::counts::Counts;
use crate::messages::MessageCounts;
use crate::places::{Conflict, ConflictCounts, LineCounts};
use crate::tables::CoreCounts;
use std::collections::BTreeMap;

impl Counts {
    /// How many cores there are.
    pub fn core_count(&self) -> usize
        ensures { result ≡ length self.now.cores }
    {
        self.cores.len()
    }

    /// What is counted of a core; `None` exactly where there is no core of this number. Takes constant time.
    pub fn core(&self, core: usize) -> Option<CoreCounts>
        ensures { result ≡ slice_get self.now.cores core }
    {
        if core < self.cores.len() {
            Some(self.cores[core].numbers(self.events))
        } else {
            None
        }
    }

    /// What is counted of the fifteen kinds of message, in their order.
    pub fn messages(&self) -> &[MessageCounts; 15]
        ensures { result.now ≡ self.now.messages }
    {
        &self.messages
    }

    /// What is counted of each line at which something has happened, by its number.
    pub fn lines(&self) -> &BTreeMap<u32, LineCounts>
        ensures { result.now.entries ≡ self.now.lines }
    {
        &self.lines
    }

    /// What is counted of each conflict that there was.
    pub fn conflicts(&self) -> &BTreeMap<Conflict, ConflictCounts>
        ensures { result.now.entries ≡ self.now.conflicts }
    {
        &self.conflicts
    }

    /// What no number is above, but a core's longest row of violations: at most 2^56.
    pub fn bound(&self) -> u64
        ensures { result ≡ self.now.bound }
    {
        self.bound
    }
}
