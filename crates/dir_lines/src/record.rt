// What is known of one line.
ghost use Rattle.std.specs.Prelude.{◌≡◌, ◌↔◌, IsTrue};
ghost use Rattle.dir_lines.specs.Record.{blank};
ghost use Rattle.dir_lines.specs.Restored.{RecordFits};

use crate::core_set::CoreSet;
use tcc_base::{CoreId, Mask, Tid};

/// One line's record at its home.
#[derive(Clone, Copy, Debug, PartialEq, Eq)]
pub struct LineRecord {
    /// The cores that may have a copy.
    pub sharers: CoreSet,
    /// The core whose last commit of the line hasn't come home yet.
    pub owner: Option<CoreId>,
    /// The TID of the line's last commit, or 0.
    pub tag: Tid,
    /// Whether the owner was asked for its data.
    pub asked: bool,
    /// The words that the served TID is going to commit; none where the line isn't marked.
    pub mark: Mask,
}

impl LineRecord {
    /// The record at the start: no sharer, no owner, tag 0, not asked, no mark.
    pub fn blank() -> LineRecord
        ensures { result ≡ blank }
    {
        LineRecord {
            sharers: CoreSet(0),
            owner: None,
            tag: Tid(0),
            asked: false,
            mark: Mask(0),
        }
    }

    /// Whether its sharers and its owner are cores of a machine that has so many.
    pub fn fits(&self, cores: u8) -> bool
        ensures { IsTrue result ↔ RecordFits cores self.now }
    {
        let owner_fits = match self.owner {
            Some(owner) => owner.0 < cores,
            None => true,
        };
        owner_fits && self.sharers.is_below(cores)
    }
}
