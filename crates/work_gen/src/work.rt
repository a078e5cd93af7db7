// The kinds of workload, and their names.
ghost use Rattle.std.specs.Prelude.{◌≡◌, MatchOption};
ghost use Rattle.work_gen.specs.Names.{work_word};

/// What each transaction of a workload does.
#[derive(Clone, Copy, Debug, PartialEq, Eq)]
pub enum Work {
    /// Adds 1 to one word, which is the same for all cores.
    Counters,
    /// Takes 1 from one of sixteen words and adds it to another.
    Transfers,
    /// Makes a word from itself and the word before it.
    Stencil,
    /// Adds 1 to a word of the core's own, which shares its line with those of other cores.
    Sharing,
}

impl Work {
    /// The name of the kind, in lower case. Takes no memory.
    pub fn word(self) -> &'static str
        ensures { result.now ≡ work_word self }
    {
        match self {
            Work::Counters => "counters",
            Work::Transfers => "transfers",
            Work::Stencil => "stencil",
            Work::Sharing => "sharing",
        }
    }

    /// The kind of that name; None exactly where no kind has it. Takes no memory.
    pub fn named(word: &str) -> Option<Work>
        ensures { MatchOption result ((w : Work) → word.now ≡ work_word w → ⊥) (λ w. word.now ≡ work_word w) }
    {
        match word {
            "counters" => Some(Work::Counters),
            "transfers" => Some(Work::Transfers),
            "stencil" => Some(Work::Stencil),
            "sharing" => Some(Work::Sharing),
            _ => None,
        }
    }
}
