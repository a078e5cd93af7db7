// The reasons for which a directory lets a message wait.
use tcc_base::{CoreId, Mask, Tid};

/// Why a message that is in flight isn't taken.
#[derive(Clone, Copy, Debug, PartialEq, Eq)]
pub enum Reason {
    /// Its turn hasn't come: the directory serves this TID.
    Early(Tid),
    /// The words of its line that the served TID has marked.
    Marked(Mask),
    /// The owner of its line, which was asked for the line's words; they haven't come home yet.
    Asked(CoreId),
    /// The number of lines that are marked, which isn't the number that it commits.
    Count(u32),
    /// The TID of the last commit of its line, or 0: its words are of a later one.
    Tag(Tid),
}
