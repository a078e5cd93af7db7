// What a directory answers to a message.

/// What a directory did with a message.
#[derive(Clone, Copy, Debug, PartialEq, Eq)]
pub enum Handled {
    /// It was consumed.
    Handled,
    /// It can't be taken yet: nothing has changed, nothing is sent, and the message stays.
    Waits,
    /// The owner of its line was asked for the line's data, and the message stays.
    Asked,
    /// It was consumed without effect.
    Dropped,
}

/// Why a directory can't answer. The directory and what is sent are as before.
#[derive(Clone, Copy, Debug, PartialEq, Eq)]
pub enum DirError {
    /// Out of memory for what has to be sent or kept.
    Memory,
    /// The message isn't of a kind that directories take, or its line isn't at home here.
    Foreign,
}
