// The kinds of work.

#[derive(Clone, Copy, Debug, PartialEq, Eq)]
pub enum Work {
    /// A core: a transaction of 3,200 additions.
    Arithmetic,
    /// A core: one of as many loads that hit.
    Loads,
    /// A core: one of as many stores that hit.
    Stores,
    /// A core: a load that misses, its fill, the load, and an invalidation with a roll back.
    Miss,
    /// A core: a transaction that stores to some lines, up to its commit.
    Commit,
    /// A core: the same without end, and a load before; it is rolled back.
    RollBack,
    /// A directory: all 64 cores load a line, one of them commits it, and all others acknowledge.
    Hot,
    /// A directory: one core commits a line that it alone shares.
    Quiet,
    /// As many cores as there are rounds start.
    StartCores,
    /// As many directories as there are rounds start.
    StartDirs,
}

impl Work {
    pub const ALL: [Work; 10] = [
        Work::Arithmetic,
        Work::Loads,
        Work::Stores,
        Work::Miss,
        Work::Commit,
        Work::RollBack,
        Work::Hot,
        Work::Quiet,
        Work::StartCores,
        Work::StartDirs,
    ];

    /// The word that names it.
    pub fn word(self) -> &'static str {
        match self {
            Work::Arithmetic => "arithmetic",
            Work::Loads => "loads",
            Work::Stores => "stores",
            Work::Miss => "miss",
            Work::Commit => "commit",
            Work::RollBack => "roll-back",
            Work::Hot => "hot",
            Work::Quiet => "quiet",
            Work::StartCores => "start-cores",
            Work::StartDirs => "start-dirs",
        }
    }

    pub fn named(word: &str) -> Option<Work> {
        match word {
            "arithmetic" => Some(Work::Arithmetic),
            "loads" => Some(Work::Loads),
            "stores" => Some(Work::Stores),
            "miss" => Some(Work::Miss),
            "commit" => Some(Work::Commit),
            "roll-back" => Some(Work::RollBack),
            "hot" => Some(Work::Hot),
            "quiet" => Some(Work::Quiet),
            "start-cores" => Some(Work::StartCores),
            "start-dirs" => Some(Work::StartDirs),
            _ => None,
        }
    }
}
