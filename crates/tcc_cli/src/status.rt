// How the program ends.
ghost use Rattle.std.specs.Prelude.{◌≡◌};
ghost use Rattle.tcc_cli.specs.Statuses.{number_of};

/// How the program ends, with the number that it ends with.
#[derive(Clone, Copy, Debug, PartialEq, Eq)]
pub enum Status {
    /// 0: every core has halted, nothing is in flight (no packet on the bus), and no frame has a dirty word; or the list ran to its end.
    Done,
    /// 1: all the events were taken, and the machine is not done.
    Stopped,
    /// 2: the words are no command.
    Words,
    /// 3: the file is no image.
    Image,
    /// 4: the schedule or list isn't in its grammar, has other settings, or can't be run to its end.
    Schedule,
    /// 5: a file wasn't read, or the record wasn't written.
    StoreFault,
    /// 6: the text wasn't written whole.
    SinkFault,
    /// 7: there wasn't enough memory.
    Memory,
}

impl Status {
    /// The number that the program ends with. Takes no memory.
    pub fn number(&self) -> u8
        ensures { result ≡ number_of self.now }
    {
        match self {
            Status::Done => 0,
            Status::Stopped => 1,
            Status::Words => 2,
            Status::Image => 3,
            Status::Schedule => 4,
            Status::StoreFault => 5,
            Status::SinkFault => 6,
            Status::Memory => 7,
        }
    }
}
